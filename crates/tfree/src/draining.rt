//! What is left in a ring, once both of its ends are at hand.

ghost use Rattle.std.specs.Prelude.{◌≡◌, ◌<◌, ◌≤◌, ℕ, length, vec_len, vec_capacity, None, Some};
ghost use Rattle.std.specs.Prelude.{option_map, slice_index_or};
ghost use Rattle.tplan.specs.Wires.{end_at};
ghost use Rattle.tnet.specs.Net.{empty_inbox};
ghost use Rattle.tword.specs.Limits.{most_nodes};
ghost use Rattle.tfree.specs.Ends.{in_view, out_view, ins_view, outs_view};
ghost use Rattle.tfree.specs.Slots.{slot_at};
ghost use Rattle.tfree.specs.Drained.{WasDrained, ArePaired, IsJoined, IsLeftAt, AreLeftAt};

use crate::ends::{InEnd, OutEnd, Slots};
use tnet::{Inbox, Row, Wires};
use tplan::End;

/// Takes out of a ring all that is left in it, as an inbox.
fn drain(end: &mut InEnd, out: &mut OutEnd) -> Inbox
    requires { (out_view out.old).id ≡ (in_view end.old).id }
    ensures drained { WasDrained (Some (in_view end.old)) (Some (out_view out.old)) result }
    ensures out { out_view out.new ≡ out_view out.old }
{
    let count = end.consumer.slots_beside(&mut out.producer);
    let mut lies = Inbox::EMPTY;
    if count > 0 {
        lies.add(end.take().packet);
    }
    if count > 1 {
        lies.add(end.take().packet);
    }
    lies
}

/// Takes out of a ring all that is left in it, as an inbox, where both its ends are there; else an empty inbox.
fn drain_slot(end: &mut Option<InEnd>, out: &mut Option<OutEnd>) -> Inbox
    requires { ArePaired (option_map in_view end.old) (option_map out_view out.old) }
    ensures drained { WasDrained (option_map in_view end.old) (option_map out_view out.old) result }
    ensures out { option_map out_view out.new ≡ option_map out_view out.old }
{
    match end {
        None => Inbox::EMPTY,
        Some(end) => match out {
            None => Inbox::EMPTY,
            Some(out) => drain(end, out),
        },
    }
}

/// What is left at an end, in the ring that leads there, if it has a wire. The end of it that takes is in `slot`.
fn drain_at(wires: &Wires, slot: &mut Option<InEnd>, outs: &mut [Slots<OutEnd>], end: End) -> Inbox
    requires joined { IsJoined wires.now (option_map in_view slot.old) (outs_view outs.old) end }
    ensures left { IsLeftAt wires.now (option_map in_view slot.old) (outs_view outs.old) end result }
    ensures outs { outs_view outs.new ≡ outs_view outs.old }
{
    let Some(far) = wires.far_end(end) else {
        return Inbox::EMPTY;
    };
    drain_slot(slot, &mut outs[far.node as usize][far.link as usize])
}

/// What is left at the links of a node.
fn drain_node(
    wires: &Wires,
    slots: &mut Slots<InEnd>,
    outs: &mut [Slots<OutEnd>],
    node: u32,
) -> Row<Inbox>
    requires { (l : ℕ) → l < 4
        → IsJoined wires.now (option_map in_view (slice_index_or slots.old l None)) (outs_view outs.old)
        (end_at node l) }
    ensures left { (l : ℕ) → l < 4
        → IsLeftAt wires.now (option_map in_view (slice_index_or slots.old l None)) (outs_view outs.old)
        (end_at node l) (slice_index_or result l empty_inbox) }
    ensures four { length result ≡ 4 }
    ensures outs { outs_view outs.new ≡ outs_view outs.old }
{
    let first = drain_at(wires, &mut slots[0], outs, End { node, link: 0 });
    let second = drain_at(wires, &mut slots[1], outs, End { node, link: 1 });
    let third = drain_at(wires, &mut slots[2], outs, End { node, link: 2 });
    let fourth = drain_at(wires, &mut slots[3], outs, End { node, link: 3 });
    [first, second, third, fourth]
}

/// What is left at the links of all nodes.
pub(crate) fn drain_all(
    wires: &Wires,
    ins: &mut [Slots<InEnd>],
    outs: &mut [Slots<OutEnd>],
    inboxes: &mut Vec<Row<Inbox>>,
)
    requires few { length ins.old ≤ most_nodes }
    requires joined { (n l : ℕ) → n < length ins.old → l < 4
        → IsJoined wires.now (slot_at (ins_view ins.old) n l) (outs_view outs.old) (end_at n l) }
    requires empty { vec_len inboxes.old ≡ 0 }
    requires room { length ins.old ≤ vec_capacity inboxes.old }
    ensures { AreLeftAt wires.now (ins_view ins.old) (outs_view outs.old) (length ins.old) inboxes.new.items }
{
    for node in 0..ins.len() {
        let left = drain_node(wires, &mut ins[node], outs, node as u32);
        inboxes.push_reserved(left);
    }
}
