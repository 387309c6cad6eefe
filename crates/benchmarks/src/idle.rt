//! Turns of a worker that find nothing to do.

use crate::answer::{Answer, BEGIN, Fault, mixed};
use crate::nets::{passes_on, wired};
use std::alloc::{AllocError, Global};
use tfree::{Worker, open};
use tnet::Net;
use tplan::Plan;

/// How many bytes the message has that never comes.
const LENGTH: u32 = 4;

/// How many Runs a node does at most in a turn.
const SLICE: u32 = 64;

/// The plan of `nodes` nodes that each wait for a message.
fn plan(alloc: Global, nodes: u8) -> Result<Plan, AllocError> {
    let mut waiting = Vec::new(alloc);
    for _node in 0..nodes {
        waiting.push(passes_on(alloc, LENGTH)?)?;
    }
    wired(alloc, waiting)
}

/// Makes `turns` turns of a worker: answers how many events were done.
fn events_of(worker: &mut Worker, turns: u32) -> Result<u64, Fault> {
    let mut events = 0u64;
    for _turn in 0..turns {
        match worker.turn(SLICE) {
            Ok(turned) => events = events.wrapping_add(turned.events),
            Err(_refused) => return Err(Fault("a turn is refused")),
        }
    }
    Ok(events)
}

/// Makes `thousands` times 1,000 turns over `nodes` nodes, by one worker. In the first turn the nodes come to wait,
/// and the others find nothing to do. Answers with the number of turns and a checksum of that and of how many events
/// were done.
pub fn waited(alloc: Global, thousands: u32, nodes: u8) -> Result<Answer, Fault> {
    let plan = plan(alloc, nodes)?;
    let net = Net::build(alloc, plan)?;
    let mut workers = match open(alloc, net, 1) {
        Ok(workers) => workers,
        Err(_refused) => return Err(Fault("a net is not opened")),
    };
    let turns = thousands.saturating_mul(1_000);
    let mut events = 0u64;
    for worker in workers.iter_mut() {
        events = events.wrapping_add(events_of(worker, turns)?);
    }
    let sum = mixed(mixed(BEGIN, turns), (events % 4_294_967_296) as u32);
    Ok(Answer {
        operations: u64::from(turns),
        sum,
    })
}
