//! The rings of a net that is opened: one for each direction of each wire, with what lay there.

ghost use Rattle.std.specs.Prelude.{◌≡◌, ◌+◌, ◌<◌, [], None, length, replicate, IfOk, IfSome, OnOk};
ghost use Rattle.tnet.specs.NetParts.{net_of_parts};
ghost use Rattle.tnet.specs.Sound.{AreWires, IsEnd};
ghost use Rattle.tplan.specs.Wires.{far_end};
ghost use Rattle.tfree.specs.Ends.{in_view, out_view, ins_view, outs_view};
ghost use Rattle.tfree.specs.Lists.{lying};
ghost use Rattle.tfree.specs.Views.{with_put};
ghost use Rattle.tfree.specs.Rings.{AreJoined, AreRings};

use crate::ends::{InEnd, OutEnd, Slots};
use crate::stamp::Sent;
use rtrb::RingBuffer;
use std::alloc::{AllocError, Global};
use tlink::{Arrival, Packet};
use tnet::{Inbox, NetParts};
use tplan::End;

/// What lay at an end when the net was opened goes into its ring, the acknowledge first.
fn preload(out: &mut OutEnd, lies: Inbox)
    requires { (out_view out.old).put ≡ [] }
    ensures { out_view out.new ≡ with_put (lying lies) (out_view out.old) }
{
    if lies.acknowledged {
        out.put(Sent {
            packet: Packet::Ack,
            stamp: 0,
        });
    }
    if let Some(arrival) = lies.carried {
        let Arrival { byte, last } = arrival;
        out.put(Sent {
            packet: Packet::Data { byte, last },
            stamp: 0,
        });
    }
}

/// A ring that leads to an end, with what lies there in it.
fn ring_with(alloc: Global, lies: Inbox) -> Result<(OutEnd, InEnd), AllocError>
    ensures ids { IfOk result (λ r. (out_view r.0).id ≡ (in_view r.1).id) }
    ensures put { IfOk result (λ r. (out_view r.0).put ≡ lying lies) }
    ensures got { IfOk result (λ r. (in_view r.1).got ≡ []) }
{
    let (producer, consumer) = RingBuffer::new(alloc, 2)?;
    let mut out = OutEnd::new(producer);
    preload(&mut out, lies);
    Ok((out, InEnd::new(consumer)))
}

/// Rows for the ends of rings that take, one for each node, in which nothing is held yet.
fn no_ins(alloc: Global, nodes: usize) -> Result<Vec<Slots<InEnd>>, AllocError>
    ensures { IfOk result (λ ins. ins.items ≡ replicate nodes (replicate 4 None)) }
{
    let mut ins = Vec::with_capacity(alloc, nodes)?;
    for _node in 0..nodes {
        ins.push([None, None, None, None])?;
    }
    Ok(ins)
}

/// Rows for the ends of rings that put, one for each node, in which nothing is held yet.
fn no_outs(alloc: Global, nodes: usize) -> Result<Vec<Slots<OutEnd>>, AllocError>
    ensures { IfOk result (λ outs. outs.items ≡ replicate nodes (replicate 4 None)) }
{
    let mut outs = Vec::with_capacity(alloc, nodes)?;
    for _node in 0..nodes {
        outs.push([None, None, None, None])?;
    }
    Ok(outs)
}

/// The far end of an end, which is one of the net too.
fn far_of(parts: &NetParts, end: End) -> Option<End>
    requires { AreWires (length parts.now.nodes.items) parts.now.wires }
    ensures far { result ≡ far_end parts.now.wires end }
    ensures there { IfSome result (λ f. IsEnd (length parts.now.nodes.items) f) }
{
    parts.wires.far_end(end)
}

/// The ring that leads from a link, if it has a wire.
fn join(
    alloc: Global,
    parts: &NetParts,
    ins: &mut Vec<Slots<InEnd>>,
    outs: &mut Vec<Slots<OutEnd>>,
    end: End,
) -> Result<(), AllocError>
    requires wires { AreWires (length parts.now.nodes.items) parts.now.wires }
    requires end { IsEnd (length parts.now.nodes.items) end }
    requires joined { AreJoined (net_of_parts parts.now) end.node end.link (ins_view ins.old.items)
        (outs_view outs.old.items) }
    ensures { OnOk result
        (AreJoined (net_of_parts parts.now) end.node (end.link + 1) (ins_view ins.new.items)
        (outs_view outs.new.items)) }
{
    let Some(far) = far_of(parts, end) else {
        return Ok(());
    };
    let (out, taker) = ring_with(alloc, parts.inbox(far))?;
    outs[end.node as usize][end.link as usize] = Some(out);
    ins[far.node as usize][far.link as usize] = Some(taker);
    Ok(())
}

/// The rings that lead from the links of a node.
fn join_node(
    alloc: Global,
    parts: &NetParts,
    ins: &mut Vec<Slots<InEnd>>,
    outs: &mut Vec<Slots<OutEnd>>,
    node: usize,
) -> Result<(), AllocError>
    requires wires { AreWires (length parts.now.nodes.items) parts.now.wires }
    requires node { node < length parts.now.nodes.items }
    requires joined { AreJoined (net_of_parts parts.now) node 0 (ins_view ins.old.items) (outs_view outs.old.items) }
    ensures { OnOk result
        (AreJoined (net_of_parts parts.now) (node + 1) 0 (ins_view ins.new.items) (outs_view outs.new.items)) }
{
    let node = node as u32;
    for link in 0..4_u32 {
        join(alloc, parts, ins, outs, End { node, link })?;
    }
    Ok(())
}

/// The rings of all wires: the ends that take and those that put, a row of four for each node.
pub fn rings(
    alloc: Global,
    parts: &NetParts,
) -> Result<(Vec<Slots<InEnd>>, Vec<Slots<OutEnd>>), AllocError>
    requires wires { AreWires (length parts.now.nodes.items) parts.now.wires }
    ensures { IfOk result (λ r. AreRings (net_of_parts parts.now) (ins_view r.0.items) (outs_view r.1.items)) }
{
    let nodes = parts.nodes.len();
    let mut ins = no_ins(alloc, nodes)?;
    let mut outs = no_outs(alloc, nodes)?;
    for node in 0..nodes {
        join_node(alloc, parts, &mut ins, &mut outs, node)?;
    }
    Ok((ins, outs))
}
