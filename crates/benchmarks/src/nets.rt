//! Nodes in a ring that send messages on, event by event.

use crate::answer::{Answer, BEGIN, Fault, checksum, mixed};
use crate::programs::{PING, PONG, START};
use std::alloc::{AllocError, Global};
use tlink::StepFault;
use tnet::Net;
use tplan::{Act, End, Event, Image, NodePlan, Plan, Process, Segment, Wire};
use tword::{Items, Kind, Word};

const MEMORY: u32 = 16_384;

const WORKSPACE: u32 = 0x8000_1000;

/// Where the buffer of a message lies.
pub const BUFFER: u32 = 0x8000_2000;

/// The channel word of the output of link 1.
pub const ONWARD: u32 = 0x8000_0004;

/// The channel word of the input of link 2.
pub const BACK: u32 = 0x8000_0018;

/// How many Runs a node does at most in one turn.
const SLICE: u32 = 64;

/// A ring of `nodes` nodes, each wired from its link 1 to link 2 of the next, with messages of `length` bytes.
#[derive(Clone, Copy)]
pub struct Ring {
    pub nodes: u8,
    pub length: u32,
}

/// Bytes that are loaded at an address.
fn segment(alloc: Global, address: u32, bytes: &[u8]) -> Result<Segment, AllocError> {
    Ok(Segment {
        address: Word::new(address),
        bytes: Items::new(Vec::from_slice(alloc, bytes)?),
    })
}

/// A node with this code, which finds these words in its workspace.
pub fn node(alloc: Global, code: &[u8], words: &[u32]) -> Result<NodePlan, AllocError> {
    let mut segments = Vec::new(alloc);
    segments.push(segment(alloc, START, code)?)?;
    let mut address = WORKSPACE;
    for word in words {
        segments.push(segment(alloc, address, &word.to_le_bytes())?)?;
        address = address.wrapping_add(4);
    }
    let process = Process {
        wdesc: Word::new(WORKSPACE + 1),
        iptr: Word::new(START),
    };
    Ok(NodePlan {
        memory: MEMORY,
        kind: Kind::One,
        image: Image {
            segments: Items::new(segments),
            processes: Items::new(Vec::from_slice(alloc, &[process])?),
        },
    })
}

/// The plan of these nodes, each wired from its link 1 to link 2 of the next.
pub fn wired(alloc: Global, nodes: Vec<NodePlan>) -> Result<Plan, AllocError> {
    let count = u32::try_from(nodes.len()).unwrap_or(u32::MAX);
    let mut wires = Vec::new(alloc);
    for number in 0..count {
        let next = number + 1;
        wires.push(Wire {
            a: End {
                node: number,
                link: 1,
            },
            b: End {
                node: if next == count { 0 } else { next },
                link: 2,
            },
        })?;
    }
    Ok(Plan {
        timeslice: 1_024,
        nodes: Items::new(nodes),
        wires: Items::new(wires),
        sources: Items::new(Vec::new(alloc)),
        sinks: Items::new(Vec::new(alloc)),
    })
}

/// A node that waits for a message of `length` bytes, and then sends it on.
pub fn passes_on(alloc: Global, length: u32) -> Result<NodePlan, AllocError> {
    node(alloc, &PONG, &[BACK, ONWARD, BUFFER, length])
}

/// The plan of a ring: a node of even number sends what it has and then waits for a message, and one of odd number
/// waits first.
fn plan(alloc: Global, ring: Ring) -> Result<Plan, AllocError> {
    let mut nodes = Vec::new(alloc);
    for number in 0..ring.nodes {
        let planned = if number % 2 == 0 {
            node(alloc, &PING, &[ONWARD, BACK, BUFFER, ring.length])?
        } else {
            passes_on(alloc, ring.length)?
        };
        nodes.push(planned)?;
    }
    wired(alloc, nodes)
}

/// Does one event, if it is enabled: answers how many were done.
#[inline(always)]
pub fn tried(net: &mut Net, node: u8, act: Act) -> u32 {
    match net.step(Event { node, act }) {
        Err(StepFault::NotEnabled) => 0,
        _ => 1,
    }
}

/// Lets one node do what comes and what it can: answers how many events that was.
#[inline(always)]
pub fn turn(net: &mut Net, node: u8) -> u32 {
    let mut done = tried(net, node, Act::Ack(1));
    done = done.wrapping_add(tried(net, node, Act::Data(2)));
    done = done.wrapping_add(tried(net, node, Act::Take(2)));
    for _ in 0..SLICE {
        if tried(net, node, Act::Run) == 0 {
            break;
        }
        done = done.wrapping_add(1);
    }
    done.wrapping_add(tried(net, node, Act::Send(1)))
}

/// Lets the nodes make `count` turns, one node after the other: answers how many events were done.
#[inline(never)]
fn turns(net: &mut Net, ring: Ring, count: u64) -> u64 {
    let mut done = 0u64;
    let mut node = 0u8;
    for _ in 0..count {
        done = done.wrapping_add(u64::from(turn(net, node)));
        node = node.wrapping_add(1);
        if node >= ring.nodes {
            node = 0;
        }
    }
    done
}

/// The answer of a benchmark of events: their number, with a checksum of the memories after them.
pub fn answered(net: &Net, operations: u64) -> Answer {
    let mut sum = mixed(BEGIN, (operations % 4_294_967_296) as u32);
    for node in net.nodes() {
        sum = checksum(sum, node.bytes());
    }
    Answer { operations, sum }
}

/// Does `thousands` times 1,000 turns, and answers with the number of events and a checksum of the memories.
pub fn went_round(alloc: Global, thousands: u32, ring: Ring) -> Result<Answer, Fault> {
    let plan = plan(alloc, ring)?;
    let mut net = Net::build(alloc, plan)?;
    let operations = turns(&mut net, ring, u64::from(thousands) * 1_000);
    Ok(answered(&net, operations))
}
