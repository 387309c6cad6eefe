//! Nodes in a row between a source and a sink, event by event.

use crate::answer::{Answer, BEGIN, Fault, mixed};
use crate::nets::{answered, passes_on, tried, turn};
use std::alloc::{AllocError, Global};
use tnet::Net;
use tplan::{Act, End, Plan, SinkPlan, SourcePlan, Wire};
use tword::Items;

/// How many nodes stand in the row.
const NODES: u8 = 4;

/// How many messages the source has.
const MESSAGES: u32 = 256;

/// How many bytes a message has.
const LENGTH: u32 = 64;

/// How often all do what they can at most: more often than it takes.
const PASSES: u32 = 1_000_000;

/// A message of the source.
fn message(alloc: Global, number: u32) -> Result<Items<u8>, AllocError> {
    let mut bytes = Vec::new(alloc);
    for place in 0..LENGTH {
        bytes.push((number.wrapping_add(place) % 256) as u8)?;
    }
    Ok(Items::new(bytes))
}

/// The source, which feeds the first node.
fn source(alloc: Global) -> Result<SourcePlan, AllocError> {
    let mut messages = Vec::new(alloc);
    for number in 0..MESSAGES {
        messages.push(message(alloc, number)?)?;
    }
    Ok(SourcePlan {
        end: End { node: 0, link: 2 },
        messages: Items::new(messages),
    })
}

/// The sink, which drains the last node, and has just room for all messages.
const SINK: SinkPlan = SinkPlan {
    end: End {
        node: NODES as u32 - 1,
        link: 1,
    },
    capacity: MESSAGES * LENGTH,
};

/// The plan of a source, the nodes in a row, and a sink.
fn plan(alloc: Global) -> Result<Plan, AllocError> {
    let mut nodes = Vec::new(alloc);
    let mut wires = Vec::new(alloc);
    for node in 0..u32::from(NODES) {
        nodes.push(passes_on(alloc, LENGTH)?)?;
        if node > 0 {
            wires.push(Wire {
                a: End {
                    node: node - 1,
                    link: 1,
                },
                b: End { node, link: 2 },
            })?;
        }
    }
    let mut sources = Vec::new(alloc);
    sources.push(source(alloc)?)?;
    Ok(Plan {
        timeslice: 1_024,
        nodes: Items::new(nodes),
        wires: Items::new(wires),
        sources: Items::new(sources),
        sinks: Items::new(Vec::from_slice(alloc, &[SINK])?),
    })
}

/// Lets the source, the nodes and the sink do what they can: answers how many events that was.
#[inline]
fn pass(net: &mut Net) -> u32 {
    let mut done = tried(net, NODES, Act::Ack(0));
    done = done.wrapping_add(tried(net, NODES, Act::Send(0)));
    for node in 0..NODES {
        done = done.wrapping_add(turn(net, node));
    }
    done = done.wrapping_add(tried(net, NODES + 1, Act::Data(0)));
    done.wrapping_add(tried(net, NODES + 1, Act::Take(0)))
}

/// Lets source, nodes and sink do what they can until nothing is left: answers how many events were done.
#[inline(never)]
fn passes(net: &mut Net) -> u64 {
    let mut done = 0u64;
    for _ in 0..PASSES {
        let more = pass(net);
        if more == 0 {
            break;
        }
        done = done.wrapping_add(u64::from(more));
    }
    done
}

/// Runs `nets` nets, one after another, and answers with the number of events and a checksum of the memories.
pub fn went_through(alloc: Global, nets: u32) -> Result<Answer, Fault> {
    let mut operations = 0u64;
    let mut sum = BEGIN;
    for _ in 0..nets {
        let plan = plan(alloc)?;
        let mut net = Net::build(alloc, plan)?;
        let done = passes(&mut net);
        operations = operations.wrapping_add(done);
        sum = mixed(sum, answered(&net, done).sum);
    }
    Ok(Answer { operations, sum })
}
