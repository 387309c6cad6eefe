//! Whether two nodes, or two nets, are alike in all that they show.

use tlink::{Messages, Node, NodeEvent, Sink, Source};
use tnet::Net;
use tplan::End;
use tproc::Processor;

/// Events of a node, except for those that bring a byte.
pub const EVENTS: &[NodeEvent] = &[
    NodeEvent::Run,
    NodeEvent::Send(0),
    NodeEvent::Take(0),
    NodeEvent::Ack(0),
    NodeEvent::Send(1),
    NodeEvent::Take(1),
    NodeEvent::Ack(1),
    NodeEvent::Send(2),
    NodeEvent::Take(2),
    NodeEvent::Ack(2),
];

/// Whether two processors are alike except for their memories, or there is none.
fn are_processors_alike(one: Option<&Processor>, other: Option<&Processor>) -> bool {
    match (one, other) {
        (Some(mine), Some(theirs)) => are_processors_the_same(mine, theirs),
        (None, None) => true,
        _ => false,
    }
}

/// Whether two processors are alike except for their memories.
fn are_processors_the_same(one: &Processor, other: &Processor) -> bool {
    for link in 0..4u8 {
        if one.link(link) != other.link(link) {
            return false;
        }
    }
    one.is_halted() == other.is_halted()
        && one.current() == other.current()
        && one.registers() == other.registers()
        && one.interrupted() == other.interrupted()
}

/// Whether two scripts show the same messages.
fn are_messages_alike(mut mine: Messages<'_>, mut theirs: Messages<'_>) -> bool {
    let count = mine.count();
    if count != theirs.count() {
        return false;
    }
    for _message in 0..count {
        if mine.take_first() != theirs.take_first() {
            return false;
        }
    }
    true
}

/// Whether two sources are alike, or there is none.
fn are_sources_alike(one: Option<&Source>, other: Option<&Source>) -> bool {
    match (one, other) {
        (Some(mine), Some(theirs)) => {
            mine.done() == theirs.done() && are_messages_alike(mine.messages(), theirs.messages())
        }
        (None, None) => true,
        _ => false,
    }
}

/// Whether two sinks are alike, or there is none.
fn are_sinks_alike(one: Option<&Sink>, other: Option<&Sink>) -> bool {
    match (one, other) {
        (Some(mine), Some(theirs)) => {
            are_messages_alike(mine.kept(), theirs.kept()) && mine.part() == theirs.part()
        }
        (None, None) => true,
        _ => false,
    }
}

/// Whether the links of two nodes have counted the same.
fn have_counted_the_same(one: &Node, other: &Node) -> bool {
    for link in 0..4u8 {
        if one.counts(link) != other.counts(link) || one.due(link) != other.due(link) {
            return false;
        }
    }
    true
}

/// Whether the same events of two nodes are enabled.
fn are_ready_for_the_same(one: &Node, other: &Node) -> bool {
    for event in EVENTS {
        if one.enabled(*event) != other.enabled(*event) {
            return false;
        }
    }
    true
}

/// Whether two nodes are alike.
pub fn are_nodes_alike(one: &Node, other: &Node) -> bool {
    one.bytes() == other.bytes()
        && one.broken() == other.broken()
        && are_ready_for_the_same(one, other)
        && have_counted_the_same(one, other)
        && are_processors_alike(one.processor(), other.processor())
        && are_sources_alike(one.source(), other.source())
        && are_sinks_alike(one.sink(), other.sink())
}

/// Whether the same packets lie at the ends of a node.
fn are_inboxes_alike(one: &Net, other: &Net, node: u32) -> bool {
    for link in 0..4u32 {
        let end = End { node, link };
        if one.inbox(end) != other.inbox(end) {
            return false;
        }
    }
    true
}

/// Whether two nets are alike: their nodes, and the packets that lie at their ends.
pub fn are_alike(one: &Net, other: &Net) -> bool {
    if one.nodes().len() != other.nodes().len() {
        return false;
    }
    let mut number = 0u32;
    for (mine, theirs) in one.nodes().iter().zip(other.nodes()) {
        if !are_nodes_alike(mine, theirs) || !are_inboxes_alike(one, other, number) {
            return false;
        }
        number = number.saturating_add(1);
    }
    true
}
