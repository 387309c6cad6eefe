//! A node at its place in a net: what lies at its links, and what an event of it takes, emits and tells. Nets, rounds
//! and free workers do their events by these.

ghost use Rattle.std.specs.Prelude.{◌≡◌, ◌+◌, ◌<◌, ◌^◌, ℕ, None, Option, slice_set, vec_capacity};
ghost use Rattle.tlink.specs.Events.{happens, node_left_by};
ghost use Rattle.tnet.specs.Stations as spec;
ghost use Rattle.tnet.specs.Stations.{box_at, emptied, put_in, answer_note, done_of, runs_done};
ghost use Rattle.tplan.specs.declared.plan.End.{End};
ghost use Rattle.tnet.specs.FarEnds.{far_in_row};
ghost use Rattle.tnet.specs.Answers.{HasMessageRoom};

use crate::inbox::Inbox;
use crate::messages::message;
use crate::wires::{Row, end_of};
use std::mem;
use tlink::{Arrival, Emitted, Mark, Node, NodeEvent, Packet, Runs, StepFault};
use tplan::{Act, End, Note};
use tproc::Offer;
use tword::Items;

/// What an event of a node did, as others see it.
#[derive(Drop)]
pub struct Done {
    /// The packet that the event emitted, with its link.
    pub packet: Option<(u8, Packet)>,
    /// The note that tells of the event.
    pub note: Option<Note>,
}

/// What runs of a node in a row did, as others see them.
#[derive(Drop)]
pub struct RunsDone {
    /// How many runs were done.
    pub count: u32,
    /// The note that tells of the last run.
    pub note: Option<Note>,
}

/// The event that an act asks a node for, if its packet lies there.
#[inline(always)]
pub fn asked(inboxes: &Row<Inbox>, act: Act) -> Option<NodeEvent>
    ensures { result ≡ spec.asked act inboxes.now }
{
    match act {
        Act::Run => Some(NodeEvent::Run),
        Act::Send(link) => Some(NodeEvent::Send(link)),
        Act::Data(link) => {
            let Arrival { byte, last } = inboxes.get(usize::from(link))?.carried?;
            Some(NodeEvent::Data(link, byte, last))
        }
        Act::Take(link) => Some(NodeEvent::Take(link)),
        Act::Ack(link) => {
            if inboxes.get(usize::from(link))?.acknowledged {
                Some(NodeEvent::Ack(link))
            } else {
                None
            }
        }
    }
}

/// The packet that an act takes is gone.
#[inline(always)]
pub fn empty(inboxes: &mut Row<Inbox>, act: Act)
    ensures { inboxes.new ≡ emptied act inboxes.old }
{
    match act {
        Act::Data(link) => {
            let link = usize::from(link);
            if link < inboxes.len() {
                inboxes[link].carried = None;
            }
        }
        Act::Ack(link) => {
            let link = usize::from(link);
            if link < inboxes.len() {
                inboxes[link].acknowledged = false;
            }
        }
        _ => {}
    }
}

/// A packet lies at a link.
#[inline(always)]
pub fn put(inboxes: &mut Row<Inbox>, link: u32, packet: Packet)
    ensures { inboxes.new ≡ slice_set inboxes.old link (put_in packet (box_at inboxes.old link)) }
{
    let link = link as usize;
    if link < inboxes.len() {
        inboxes[link].add(packet);
    }
}

/// The message that an event may complete.
#[inline(always)]
pub fn input_of(node: &Node, event: NodeEvent) -> Option<Offer>
    ensures { result ≡ spec.input_of event node.now }
{
    match event {
        NodeEvent::Take(link) => node.due(link),
        _ => None,
    }
}

/// What an event told, by the answer to its caller and the node that it left. The bytes of a message go into `room`,
/// which is used up.
#[inline(always)]
pub fn note_of(
    number: u8,
    far: &Row<Option<End>>,
    input: Option<Offer>,
    answer: &Result<Emitted, StepFault>,
    node: &Node,
    room: &mut Vec<u8>,
) -> Option<Note>
    requires room { HasMessageRoom input (vec_capacity room.old) }
    ensures note { result ≡ answer_note number (far_in_row far.now) input answer.now node.now }
    ensures kept { input ≡ None → room.new ≡ room.old }
{
    match answer {
        Ok(emitted) => match emitted.mark {
            Mark::Nothing => None,
            Mark::Halted => Some(Note::Halt(number)),
            Mark::Completed(link) => {
                let from = far.get(usize::from(link)).copied().unwrap_or(None);
                message_note(from, end_of(number, link), input, node, room)
            }
        },
        Err(StepFault::Frozen(broken)) => Some(Note::Freeze(number, *broken)),
        Err(StepFault::NotEnabled) => None,
    }
}

/// A message that has come to its end, if it came over a wire.
fn message_note(
    from: Option<End>,
    to: End,
    input: Option<Offer>,
    node: &Node,
    room: &mut Vec<u8>,
) -> Option<Note>
    requires room { HasMessageRoom input (vec_capacity room.old) }
    ensures note { result ≡ spec.message_note from to (spec.input_bytes input node.now) }
    ensures kept { input ≡ None → room.new ≡ room.old }
{
    let from = from?;
    let no_bytes = Vec::new(*room.allocator());
    let bytes = match input {
        Some(offer) => message(node, offer, mem::replace(room, no_bytes)),
        None => Items::new(no_bytes),
    };
    Some(Note::Msg { from, to, bytes })
}

/// Does an event of a node: what it emitted and told, or nothing where it is not enabled. The bytes of a message go
/// into `room`, which is used up.
#[inline(always)]
pub fn act(
    number: u8,
    far: &Row<Option<End>>,
    node: &mut Node,
    event: NodeEvent,
    room: &mut Vec<u8>,
) -> Option<Done>
    requires room { HasMessageRoom (spec.input_of event node.old) (vec_capacity room.old) }
    ensures done { result ≡ done_of number (far_in_row far.now) event node.old }
    ensures left { node.new ≡ node_left_by node.old (happens event node.old) }
    ensures rests { result ≡ None → node.new ≡ node.old }
    ensures kept { spec.input_of event node.old ≡ None → room.new ≡ room.old }
{
    let input = input_of(node, event);
    let answer = node.step(event);
    let note = note_of(number, far, input, &answer, node, room);
    match answer {
        Ok(emitted) => Some(Done {
            packet: emitted.packet,
            note,
        }),
        Err(StepFault::Frozen(_broken)) => Some(Done { packet: None, note }),
        Err(StepFault::NotEnabled) => None,
    }
}

/// Does runs of a node in a row, at most `most`, until one tells something or none is enabled: how many were done, and
/// what the last one told.
pub fn run(number: u8, node: &mut Node, most: u32) -> RunsDone
    ensures { (far : ℕ → Option End) → (node.new, result) ≡ runs_done number far most node.old }
{
    let Runs { count, last } = node.run_many(most);
    match last {
        None => RunsDone { count, note: None },
        Some(answer) => last_told(number, count, answer),
    }
}

/// What others see of `count` runs that told nothing, and of the answer of the one behind them.
fn last_told(number: u8, count: u32, answer: Result<Emitted, StepFault>) -> RunsDone
    requires { count + 1 < 2 ^ 32 }
    ensures { result ≡ spec.last_told number count answer }
{
    match answer {
        Ok(_halted) => RunsDone {
            count: count + 1,
            note: Some(Note::Halt(number)),
        },
        Err(StepFault::NotEnabled) => RunsDone { count, note: None },
        Err(StepFault::Frozen(broken)) => RunsDone {
            count: count + 1,
            note: Some(Note::Freeze(number, broken)),
        },
    }
}
