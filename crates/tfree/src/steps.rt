//! One event of a node at its rings: it takes from a ring where a packet is seen, and puts into one where room is
//! seen.

ghost use Rattle.std.specs.Prelude.{◌≡◌, ◌+◌, ◌<◌, [], ◌++◌, option_map};
ghost use Rattle.std.specs.Prelude.{IsSome, IsTrue, IfSome, IfErr, Ok, true, false, Option, Some, None};
ghost use Rattle.rtrb.specs.Ring.{known_items, known_free};
ghost use Rattle.tlink.specs.Events.{is_node_enabled};
ghost use Rattle.tfree.specs.Slots.{slot_at};
ghost use Rattle.tfree.specs.declared.steps.OwnLink as spec;
ghost use Rattle.tfree.specs.Ends.{in_view, out_view, ins_view, outs_view, seen_of, IsFront, HasFree};
ghost use Rattle.tword.specs.Limits.{most_nodes};
ghost use Rattle.tfree.specs.Kept.{expecting};
ghost use Rattle.tfree.specs.Views.{InView, OutView, got_of, with_put};
ghost use Rattle.tfree.specs.Logs.{log_view, Whether, sent_as};
ghost use Rattle.tfree.specs.Steps.{SameRing, SameRingBack, Received, NoneDue, Emitted, AnswersRoom};
ghost use Rattle.tfree.specs.Steps.{LeftAtFront, LeftWithRoom};

use crate::ends::{InEnd, OutEnd, Slots};
use crate::log::{Log, TurnFault, act, receive};
use crate::stamp::Sent;
use tlink::{Node, NodeEvent, Packet};
use tnet::{Row, Wires};
use tword::limits::MOST_NODES;

/// A link of one of a worker's own nodes.
#[derive(Clone, Copy)]
pub struct OwnLink {
    /// The place of the node among those of the worker.
    pub node: usize,
    pub link: usize,
}

/// The oldest packet that is seen in a ring. Where its other end is at hand, at the link `own` of `outs`, none is
/// missed.
fn look(end: &mut InEnd, outs: &mut Vec<Slots<OutEnd>>, own: Option<OwnLink>) -> Option<Sent>
    requires { SameRing own (in_view end.old) (outs_view outs.old.items) }
    ensures same { in_view end.new ≡ in_view end.old }
    ensures outs { outs_view outs.new.items ≡ outs_view outs.old.items }
    ensures front { IfSome result (λ p. IsFront p (known_items end.new.consumer)) }
    ensures all { (q : spec.OwnLink) (o : OutView) → own ≡ Some q
        → slot_at (outs_view outs.old.items) q.node q.link ≡ Some o
        → ((in_view end.old).got ++ known_items end.new.consumer ≡ o.put)
        × (result ≡ None → known_items end.new.consumer ≡ []) }
{
    let Some(own) = own else {
        return end.look();
    };
    match &mut outs[own.node][own.link] {
        Some(out) => end.look_beside(out),
        None => end.look(),
    }
}

/// A link at which packets are taken.
#[derive(Clone, Copy)]
pub struct Taker {
    /// The number of its node.
    pub number: u8,
    pub link: u8,
    /// Where the other end of its ring is, if it is at hand.
    pub own: Option<OwnLink>,
}

/// The packet in front of the ring of a link is taken, if one is seen and its event is enabled.
pub fn receive_at(
    node: &mut Node,
    slot: &mut Option<InEnd>,
    outs: &mut Vec<Slots<OutEnd>>,
    log: &mut Log,
    taker: Taker,
) -> Result<bool, TurnFault>
    requires { (v : InView) → option_map in_view slot.old ≡ Some v → SameRing taker.own v (outs_view outs.old.items) }
    ensures outs { outs_view outs.new.items ≡ outs_view outs.old.items }
    ensures did { Whether result
        (Received taker.number taker.link taker.own node.old node.new (log_view log.old) (log_view log.new)
        (option_map in_view slot.old) (option_map in_view slot.new) (outs_view outs.old.items))
        ((node.new ≡ node.old) × (log_view log.new ≡ log_view log.old)
        × (option_map in_view slot.new ≡ option_map in_view slot.old)) }
    ensures rests { result ≡ Ok false
        → NoneDue taker.link taker.own node.old (option_map in_view slot.old) (outs_view outs.old.items) }
    ensures left { IfErr result (LeftAtFront taker.link taker.own node.old log.old.clock (option_map in_view slot.old)
        (seen_of slot.new) (outs_view outs.old.items)) }
    ensures all { (q : spec.OwnLink) (o : OutView) → IsSome slot.old → taker.own ≡ Some q
        → slot_at (outs_view outs.old.items) q.node q.link ≡ Some o
        → got_of (option_map in_view slot.new) ++ seen_of slot.new ≡ o.put }
{
    match slot {
        None => Ok(false),
        Some(end) => match look(end, outs, taker.own) {
            None => Ok(false),
            Some(front) => receive(node, end, log, taker.number, taker.link, front),
        },
    }
}

/// Whether a packet may lie in a ring, behind a look at it: where its other end is at hand, whether one is seen.
#[inline(always)]
pub fn may_hold(slot: &Option<InEnd>, own: Option<OwnLink>) -> bool
    ensures { result ≡ false → (q : spec.OwnLink) → own ≡ Some q → seen_of slot.now ≡ [] }
{
    match slot {
        None => false,
        Some(end) => own.is_none() || end.consumer.cached_slots() > 0,
    }
}

/// Whether a ring has room, if there is a ring. Where its other end is at hand, at the link `own` of `ins`, the
/// answer is exact.
#[inline(always)]
fn room(slot: &mut Option<OutEnd>, ins: &mut Vec<Slots<InEnd>>, own: Option<OwnLink>) -> bool
    requires { (o : OutView) → option_map out_view slot.old ≡ Some o → SameRingBack own o (ins_view ins.old.items) }
    ensures same { option_map out_view slot.new ≡ option_map out_view slot.old }
    ensures ins { ins_view ins.new.items ≡ ins_view ins.old.items }
    ensures room { IsTrue result → HasFree slot.new }
    ensures exact { AnswersRoom own (option_map out_view slot.old) (ins_view ins.old.items) result }
{
    match slot {
        None => true,
        Some(out) => room_of(out, ins, own),
    }
}

/// Whether a ring has room.
#[inline(always)]
fn room_of(out: &mut OutEnd, ins: &mut Vec<Slots<InEnd>>, own: Option<OwnLink>) -> bool
    requires { SameRingBack own (out_view out.old) (ins_view ins.old.items) }
    ensures same { out_view out.new ≡ out_view out.old }
    ensures ins { ins_view ins.new.items ≡ ins_view ins.old.items }
    ensures room { IsTrue result → 0 < known_free out.new.producer }
    ensures exact { AnswersRoom own (Some (out_view out.old)) (ins_view ins.old.items) result }
{
    let Some(own) = own else {
        return out.has_room();
    };
    match &mut ins[own.node][own.link] {
        Some(end) => out.has_room_beside(end),
        None => out.has_room(),
    }
}

/// A packet goes into a ring, if there is one.
fn put(slot: &mut Option<OutEnd>, stamp: u64, packet: Option<Packet>)
    requires { HasFree slot.old }
    ensures { option_map out_view slot.new ≡ option_map (with_put (sent_as packet stamp))
        (option_map out_view slot.old) }
{
    match slot {
        None => {}
        Some(out) => match packet {
            None => {}
            Some(packet) => out.put(Sent { packet, stamp }),
        },
    }
}

/// Packets may lie at a link from now on, if there is one.
#[inline(always)]
pub fn expect(may_lie: &mut [Row<bool>; MOST_NODES], own: Option<OwnLink>)
    requires { (q : spec.OwnLink) → own ≡ Some q → (q.node < most_nodes) × (q.link < 4) }
    ensures { may_lie.new ≡ expecting own may_lie.old }
{
    if let Some(own) = own {
        may_lie[own.node][own.link] = true;
    }
}

/// A link on which packets are emitted.
#[derive(Clone, Copy)]
pub struct Emitter {
    /// The number of its node.
    pub number: u8,
    /// Where the other end of its ring is, if it is at hand.
    pub own: Option<OwnLink>,
}

/// An event that emits is done, if there is room in its ring and it is enabled.
#[inline(always)]
pub fn emit_at(
    node: &mut Node,
    slot: &mut Option<OutEnd>,
    ins: &mut Vec<Slots<InEnd>>,
    log: &mut Log,
    wires: &Wires,
    emitter: Emitter,
    event: NodeEvent,
) -> Result<bool, TurnFault>
    requires { (o : OutView) → option_map out_view slot.old ≡ Some o
        → SameRingBack emitter.own o (ins_view ins.old.items) }
    ensures ins { ins_view ins.new.items ≡ ins_view ins.old.items }
    ensures did { Whether result
        (Emitted emitter.number wires.now event emitter.own node.old node.new (log_view log.old)
        (log_view log.new) (option_map out_view slot.old) (option_map out_view slot.new) (ins_view ins.old.items))
        ((node.new ≡ node.old) × (log_view log.new ≡ log_view log.old)
        × (option_map out_view slot.new ≡ option_map out_view slot.old)) }
    ensures rests { result ≡ Ok false → is_node_enabled event node.old ≡ true
        → AnswersRoom emitter.own (option_map out_view slot.old) (ins_view ins.old.items) false }
    ensures left { IfErr result (LeftWithRoom event emitter.own node.old log.old.clock
        (option_map out_view slot.old) (ins_view ins.old.items)) }
{
    if !room(slot, ins, emitter.own) {
        return Ok(false);
    }
    match act(node, log, emitter.number, wires, event)? {
        None => Ok(false),
        Some((stamp, packet)) => {
            put(slot, stamp, packet);
            Ok(true)
        }
    }
}
