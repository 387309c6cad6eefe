//! A net of which what is seen is over comes to rest.

ghost use Rattle.std.specs.Prelude.{◌≡◌, ◌≤◌, true, not, None, [], length, IfOk, OnErr, IfSome, MatchOption};
ghost use Rattle.std.specs.List.{list_all};
ghost use Rattle.tword.specs.Limits.{most_nodes};
ghost use Rattle.tnet.specs.Packets.{is_enabled, IsQuiet};
ghost use Rattle.tnet.specs.Quiet.{node_events};
ghost use Rattle.tevents.specs.Doing.{IsLogged, Logs, ComesToRest};

use crate::done_event::do_event;
use crate::finding::first_enabled;
use std::alloc::AllocError;
use tnet::Net;
use tplan::{Act, Event};
use tword::limits::MOST_NODES;

/// An event of a node.
fn event(node: u8, act: Act) -> Event
    ensures { result ≡ record { node = node; act = act } }
{
    Event { node, act }
}

/// All events of a node.
fn node_events(node: u8) -> [Event; 17]
    ensures { result ≡ node_events node }
{
    [
        event(node, Act::Run),
        event(node, Act::Send(0)),
        event(node, Act::Data(0)),
        event(node, Act::Take(0)),
        event(node, Act::Ack(0)),
        event(node, Act::Send(1)),
        event(node, Act::Data(1)),
        event(node, Act::Take(1)),
        event(node, Act::Ack(1)),
        event(node, Act::Send(2)),
        event(node, Act::Data(2)),
        event(node, Act::Take(2)),
        event(node, Act::Ack(2)),
        event(node, Act::Send(3)),
        event(node, Act::Data(3)),
        event(node, Act::Take(3)),
        event(node, Act::Ack(3)),
    ]
}

/// An event of a node that is enabled, if one is.
#[tactic(auto, using(crate::proofs::Tested::none_enabled))]
fn enabled_at(net: &Net, node: u8) -> Option<Event>
    ensures none { result ≡ None → list_all (λ e. not (is_enabled net.now e)) (node_events node) ≡ true }
    ensures enabled { IfSome result (λ e. is_enabled net.now e ≡ true) }
{
    first_enabled(net, &node_events(node))
}

/// An event of a net that is enabled, if one is; of a net of at most 64 nodes, where it says none, none is.
pub fn enabled_event(net: &Net) -> Option<Event>
    ensures { MatchOption result (length net.now.nodes ≤ most_nodes → IsQuiet net.now)
        (λ e. is_enabled net.now e ≡ true) }
{
    net.know_sound();
    let nodes = net.nodes().len();
    if nodes > MOST_NODES {
        return None;
    }
    for node in 0..nodes {
        if let Some(event) = enabled_at(net, node as u8) {
            return Some(event);
        }
    }
    None
}

/// Does events until none is enabled, and writes them behind a log, as long as nothing is seen of them. Answers whether
/// that was so to the end: it is where what is seen of the net is over.
///
/// # Errors
/// Where the allocator refuses: what was done so far is logged, and nothing is seen of it.
pub fn rest(net: &mut Net, log: &mut Vec<Event>) -> Result<bool, AllocError>
    ensures logged { IsLogged net.old log.old.items log.new.items net.new }
    ensures rests { IfOk result (λ rests. ComesToRest net.old rests log.old.items log.new.items net.new) }
    ensures refused { OnErr result (Logs net.old log.old.items log.new.items net.new []) }
{
    while let Some(event) = enabled_event(net) {
        net.know_sound();
        let done = do_event(net, event, log)?;
        if done.is_seen {
            return Ok(false);
        }
    }
    Ok(true)
}
