//! Nodes in a ring, by workers: round by round, or free.

use crate::answer::{Answer, Fault};
use crate::free::turned;
use crate::nets::{BACK, BUFFER, ONWARD, answered, node, wired};
use crate::programs::{COUNTED_PING, COUNTED_PONG, LOOP, PING, PONG};
use crate::rounds::went_round;
use std::alloc::{AllocError, Global};
use std::thread::Threads;
use tnet::Net;
use tplan::{NodePlan, Plan};

const NODES: u32 = 64;

/// How many bytes a message has.
const LENGTH: u32 = 4;

/// How many Runs a node does at most until what was told of them is dropped.
const RUNS: u32 = 262_144;

/// What the nodes do.
#[derive(Clone, Copy)]
pub enum Load {
    /// All nodes compute.
    Computing,
    /// One message goes round, so that nearly all nodes wait.
    Waiting,
    /// Each node sends and receives a given number of messages, and stops.
    Exchanging,
}

/// How the workers go on.
#[derive(Clone, Copy)]
pub enum Manner {
    /// The workers go on in rounds, each of which all of them end before the next begins.
    Rounds,
    /// Each worker goes on in turns of its own.
    Free,
}

/// Workers of a net: how they go on, what the nodes do, the most Runs of a node in a round or a turn, and how many
/// workers there are.
#[derive(Clone, Copy)]
pub struct Crew {
    pub manner: Manner,
    pub load: Load,
    pub slice: u32,
    pub workers: usize,
}

/// A node that waits, or the first one, which sends.
fn waiting(alloc: Global, number: u32) -> Result<NodePlan, AllocError> {
    if number == 0 {
        node(alloc, &PING, &[ONWARD, BACK, BUFFER, LENGTH])
    } else {
        node(alloc, &PONG, &[BACK, ONWARD, BUFFER, LENGTH])
    }
}

/// The plan of a node that sends and receives `count` messages, and stops: a node of even number sends first, one of
/// odd number receives first.
fn exchanging(alloc: Global, number: u32, count: u32) -> Result<NodePlan, AllocError> {
    let (code, first, second): (&[u8], u32, u32) = if number % 2 == 0 {
        (&COUNTED_PING, ONWARD, BACK)
    } else {
        (&COUNTED_PONG, BACK, ONWARD)
    };
    node(alloc, code, &[first, second, BUFFER, LENGTH, 0, count])
}

/// A node with this load; one that sends and receives does so a hundred times for each of `thousands`.
fn loaded(alloc: Global, load: Load, number: u32, thousands: u32) -> Result<NodePlan, AllocError> {
    match load {
        Load::Computing => node(alloc, &LOOP, &[]),
        Load::Waiting => waiting(alloc, number),
        Load::Exchanging => exchanging(alloc, number, thousands.saturating_mul(100).max(1)),
    }
}

/// Nodes with this load; those that send and receive do so a hundred times for each thousand.
fn plan(alloc: Global, load: Load, thousands: u32) -> Result<Plan, AllocError> {
    let mut nodes = Vec::new(alloc);
    for number in 0..NODES {
        nodes.push(loaded(alloc, load, number, thousands)?)?;
    }
    wired(alloc, nodes)
}

/// Does `count` rounds, or `count` turns of each worker: answers how many events that was, and the net after them.
fn went_on<R: Threads + Sync>(
    rt: &R,
    alloc: Global,
    net: Net,
    crew: Crew,
    count: u32,
) -> Result<(u64, Net), Fault> {
    match crew.manner {
        Manner::Rounds => went_round(rt, alloc, net, crew, count),
        Manner::Free => turned(rt, alloc, net, crew, count),
    }
}

/// Goes on for `left` rounds or turns of each worker, or until the net is quiet, `at_once` at a time: answers how many
/// events that was, and the net after them.
fn went_through<R: Threads + Sync>(
    rt: &R,
    alloc: Global,
    mut net: Net,
    crew: Crew,
    mut left: u32,
    at_once: u32,
) -> Result<(u64, Net), Fault> {
    let mut operations = 0u64;
    for _ in 0..left.div_ceil(at_once.max(1)) {
        let count = left.min(at_once);
        let (done, after) = went_on(rt, alloc, net, crew, count)?;
        operations = operations.wrapping_add(done);
        net = after;
        if net.is_quiet() {
            break;
        }
        left = left.saturating_sub(count);
    }
    Ok((operations, net))
}

/// Does 1,000 Runs of each node for each of `thousands` where all compute, a hundred rounds for each where nearly all
/// wait, and a hundred messages of each node for each where all send and receive, until the net is quiet; a slice is
/// no longer than that. Answers with the number of events and a checksum of the memories.
pub fn worked<R: Threads + Sync>(
    rt: &R,
    alloc: Global,
    thousands: u32,
    crew: Crew,
) -> Result<Answer, Fault> {
    let runs = thousands.saturating_mul(1_000).max(1);
    let slice = crew.slice.clamp(1, runs);
    let crew = Crew { slice, ..crew };
    let left = match crew.load {
        Load::Computing => runs.div_ceil(slice),
        Load::Waiting => thousands.saturating_mul(100),
        Load::Exchanging => u32::MAX,
    };
    let at_once = (RUNS / slice).max(1);
    let net = Net::build(alloc, plan(alloc, crew.load, thousands)?)?;
    let (operations, net) = went_through(rt, alloc, net, crew, left, at_once)?;
    Ok(answered(&net, operations))
}
