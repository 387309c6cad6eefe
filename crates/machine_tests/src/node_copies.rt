//! Copies of nodes, of a processor, a source and a sink: each is like what it was made of, and goes on by itself.

use crate::alike::{EVENTS, are_nodes_alike};
use crate::examples::{SCRIPTED, built};
use crate::fault::{Fault, require};
use crate::rounds::after_rounds;
use std::alloc::Global;
use std::thread::Threads;
use tlink::Node;
use tnet::Net;

/// Whether a node does one of the events.
fn does_one(node: &mut Node) -> bool {
    for event in EVENTS {
        if node.step(*event).is_ok() {
            return true;
        }
    }
    false
}

/// A copy of a node is like the node. One that does an event no longer is, and the node is still like another copy.
/// Whether there was such an event.
fn changes_alone(node: &Node, copy: &mut Node, kept: &Node) -> Result<bool, Fault> {
    require(are_nodes_alike(node, copy), "a copy is another node")?;
    let does = does_one(copy);
    require(
        are_nodes_alike(node, copy) != does,
        "an event of a copy is not seen",
    )?;
    require(
        are_nodes_alike(node, kept),
        "a node does what its copy does",
    )?;
    Ok(does)
}

/// Two copies of a node, of which one does an event, if there is one. Whether there was one.
fn is_copied(alloc: Global, node: &Node) -> Result<bool, Fault> {
    let mut copy = node.try_copy(alloc)?;
    let kept = node.try_copy(alloc)?;
    changes_alone(node, &mut copy, &kept)
}

/// How many nodes of a net have copies that do an event.
fn count(alloc: Global, net: &Net) -> Result<u32, Fault> {
    let mut events = 0u32;
    for node in net.nodes() {
        events = events.saturating_add(u32::from(is_copied(alloc, node)?));
    }
    Ok(events)
}

/// How many copies do an event behind rounds of a net with a source and a sink, which comes to rest.
fn count_behind_rounds<R: Threads + Sync>(rt: &R, alloc: Global) -> Result<u32, Fault> {
    let mut net = built(alloc, &SCRIPTED)?;
    let mut events = 0u32;
    for _round in 0..40 {
        events = events.saturating_add(count(alloc, &net)?);
        net = after_rounds(rt, alloc, net, 1)?.net;
    }
    require(net.is_quiet(), "the net does not rest")?;
    Ok(events)
}

/// Behind each round of a net with a source and a sink, a copy of each node is like the node, until one of them does
/// an event.
#[test]
fn copies_of_nodes(rt: HostRuntime) -> Result<(), Fault> {
    require(
        count_behind_rounds(&rt, rt.alloc())? > 0,
        "no copy does an event",
    )
}
