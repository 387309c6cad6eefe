//! What is wrong with a plan.

ghost use Rattle.std.specs.Prelude.{◌≡◌, ◌+◌, ◌++◌, ◌↔◌, [], IfOk, IsOk, OnOk, length, nat_lt};
ghost use Rattle.tword.specs.Limits.{most_nodes};
ghost use Rattle.tword.specs.Limits.{is_bad_message as spec_is_bad_message};
ghost use Rattle.tnet.specs.Building as build;
ghost use Rattle.tnet.specs.Building.{built};
ghost use Rattle.tcheck.specs.Wrongs as spec;
ghost use Rattle.tcheck.specs.Wrongs.{each_from};

use crate::ends::add_sharing_wrongs;
use crate::finding::{add_end_wrong, add_if, is_same_end};
use crate::flaws::{Flaw, Place, Plenty, Wrong};
use crate::nodes::{add_nodes_wrongs, is_bad_timeslice};
use std::alloc::{AllocError, Global};
use tplan::{Plan, SinkPlan, SourcePlan, Wire};
use tword::Items;
use tword::limits::{LARGEST_CAPACITY, LONGEST_MESSAGE, MOST_MESSAGES, MOST_NODES, MOST_WIRES};

/// Everything that is wrong with a plan: with the net as a whole, with each node, wire, source and sink, in this order,
/// and behind them the ends that are named twice. What a node holds is not judged where its memory has a wrong size.
/// Ends are not compared where there are too many nodes or wires.
///
/// # Errors
/// Where the allocator refuses. As much is asked for as the largest memory of a node has.
#[tactic(auto, unfolding(crate::specs::Wrongs::plan_wrongs))]
pub fn plan_wrongs(alloc: Global, plan: &Plan) -> Result<Items<Wrong>, AllocError>
    ensures exact { IfOk result (λ found. found ≡ spec.plan_wrongs plan.now) }

    // nothing is wrong just where a net is built of the plan
    ensures nothing { IfOk result (λ found. (found ≡ []) ↔ IsOk (built plan.now)) }
{
    let mut found = Vec::new(alloc);
    add_plan_wrongs(alloc, &mut found, plan)?;
    Ok(Items::new(found))
}

/// What is wrong with a plan, behind what was found before.
#[tactic(auto, unfolding(crate::specs::Wrongs::plan_wrongs))]
pub(crate) fn add_plan_wrongs(
    alloc: Global,
    found: &mut Vec<Wrong>,
    plan: &Plan,
) -> Result<(), AllocError>
    ensures { OnOk result (found.new.items ≡ found.old.items ++ spec.plan_wrongs plan.now) }
{
    add_net_wrongs(found, plan)?;
    add_nodes_wrongs(alloc, found, plan.timeslice, plan.nodes.as_slice())?;
    add_joint_wrongs(alloc, found, plan)
}

/// Whether there are more nodes, sources and sinks than may be.
fn are_many(nodes: usize, sources: usize, sinks: usize) -> bool
    ensures { result ≡ nat_lt most_nodes (nodes + sources + sinks) }
{
    nodes > MOST_NODES || sources > MOST_NODES - nodes || sinks > MOST_NODES - nodes - sources
}

/// Whether a plan has more nodes, sources and sinks than may be.
pub(crate) fn has_many_nodes(plan: &Plan) -> bool
    ensures { result ≡ spec.are_many plan.now }
{
    let sources = plan.sources.as_slice();
    let sinks = plan.sinks.as_slice();
    are_many(plan.nodes.as_slice().len(), sources.len(), sinks.len())
}

/// Whether a plan has more wires than may be.
pub(crate) fn has_many_wires(plan: &Plan) -> bool
    ensures { result ≡ spec.are_many_wires plan.now }
{
    plan.wires.as_slice().len() > MOST_WIRES
}

/// What is wrong with the net as a whole.
fn add_net_wrongs(found: &mut Vec<Wrong>, plan: &Plan) -> Result<(), AllocError>
    ensures { OnOk result (found.new.items ≡ found.old.items ++ spec.net_wrongs plan.now) }
{
    let wires = Flaw::TooMany(Plenty::Wires, plan.wires.as_slice().len());
    let timeslice = plan.timeslice;
    add_if(found, has_many_nodes(plan), Place::Net, Flaw::TooManyNodes)?;
    add_if(found, has_many_wires(plan), Place::Net, wires)?;
    let is_bad = is_bad_timeslice(timeslice);
    add_if(found, is_bad, Place::Net, Flaw::BadTimeslice(timeslice))
}

/// What is wrong with the wires, sources and sinks of a plan.
fn add_joint_wrongs(alloc: Global, found: &mut Vec<Wrong>, plan: &Plan) -> Result<(), AllocError>
    ensures { OnOk result (found.new.items ≡ found.old.items ++ spec.joint_wrongs plan.now) }
{
    let nodes = plan.nodes.as_slice().len();
    add_wires_wrongs(found, nodes, plan.wires.as_slice())?;
    add_sources_wrongs(found, nodes, plan.sources.as_slice())?;
    add_sinks_wrongs(found, nodes, plan.sinks.as_slice())?;
    add_sharing_wrongs(alloc, found, plan)
}

/// What is wrong with wires, each by itself.
fn add_wires_wrongs(found: &mut Vec<Wrong>, nodes: usize, wires: &[Wire]) -> Result<(), AllocError>
    ensures { OnOk result (found.new.items ≡ found.old.items ++ each_from (spec.wire_wrongs nodes) 0 wires.now) }
{
    for (number, wire) in wires.iter().enumerate() {
        add_wire_wrongs(found, nodes, number, *wire)?;
    }
    Ok(())
}

/// What is wrong with a wire by itself.
fn add_wire_wrongs(
    found: &mut Vec<Wrong>,
    nodes: usize,
    number: usize,
    wire: Wire,
) -> Result<(), AllocError>
    ensures { OnOk result (found.new.items ≡ found.old.items ++ spec.wire_wrongs nodes number wire) }
{
    let place = Place::Wire(number);
    add_end_wrong(found, nodes, place, wire.a)?;
    add_end_wrong(found, nodes, place, wire.b)?;
    add_if(
        found,
        is_same_end(wire.a, wire.b),
        place,
        Flaw::SameEnd(wire.a),
    )
}

/// What is wrong with sources, each by itself.
fn add_sources_wrongs(
    found: &mut Vec<Wrong>,
    nodes: usize,
    sources: &[SourcePlan],
) -> Result<(), AllocError>
    ensures { OnOk result (found.new.items ≡ found.old.items ++ each_from (spec.source_wrongs nodes) 0 sources.now) }
{
    for (number, source) in sources.iter().enumerate() {
        add_source_wrongs(found, nodes, number, source)?;
    }
    Ok(())
}

/// What is wrong with a source by itself.
fn add_source_wrongs(
    found: &mut Vec<Wrong>,
    nodes: usize,
    number: usize,
    source: &SourcePlan,
) -> Result<(), AllocError>
    ensures { OnOk result (found.new.items ≡ found.old.items ++ spec.source_wrongs nodes number source.now) }
{
    let place = Place::Source(number);
    let messages = source.messages.as_slice();
    let many = Flaw::TooMany(Plenty::Messages, messages.len());
    add_end_wrong(found, nodes, place, source.end)?;
    add_if(found, messages.len() > MOST_MESSAGES, place, many)?;
    add_messages_wrongs(found, number, messages)
}

/// What is wrong with the messages of a source.
fn add_messages_wrongs(
    found: &mut Vec<Wrong>,
    source: usize,
    messages: &[Items<u8>],
) -> Result<(), AllocError>
    ensures { OnOk result (found.new.items ≡ found.old.items ++ each_from (spec.message_wrongs source) 0 messages.now) }
{
    for (number, message) in messages.iter().enumerate() {
        add_message_wrong(found, source, number, message)?;
    }
    Ok(())
}

/// Whether a message is empty or too long.
fn is_bad_message(message: &Items<u8>) -> bool
    ensures { result ≡ spec_is_bad_message message.now }
{
    let size = message.as_slice().len();
    size < 1 || size > LONGEST_MESSAGE
}

/// What is wrong with a message of a source.
fn add_message_wrong(
    found: &mut Vec<Wrong>,
    source: usize,
    number: usize,
    message: &Items<u8>,
) -> Result<(), AllocError>
    ensures { OnOk result (found.new.items ≡ found.old.items ++ spec.message_wrongs source number message.now) }
{
    let flaw = Flaw::BadMessage {
        message: number,
        size: message.as_slice().len(),
    };
    add_if(found, is_bad_message(message), Place::Source(source), flaw)
}

/// What is wrong with sinks, each by itself.
fn add_sinks_wrongs(
    found: &mut Vec<Wrong>,
    nodes: usize,
    sinks: &[SinkPlan],
) -> Result<(), AllocError>
    ensures { OnOk result (found.new.items ≡ found.old.items ++ each_from (spec.sink_wrongs nodes) 0 sinks.now) }
{
    for (number, sink) in sinks.iter().enumerate() {
        add_sink_wrongs(found, nodes, number, sink)?;
    }
    Ok(())
}

/// Whether a capacity is none that a sink may have.
fn is_bad_capacity(sink: &SinkPlan) -> bool
    ensures { result ≡ build.is_bad_capacity sink.now }
{
    sink.capacity < 1 || sink.capacity > LARGEST_CAPACITY
}

/// What is wrong with a sink by itself.
fn add_sink_wrongs(
    found: &mut Vec<Wrong>,
    nodes: usize,
    number: usize,
    sink: &SinkPlan,
) -> Result<(), AllocError>
    ensures { OnOk result (found.new.items ≡ found.old.items ++ spec.sink_wrongs nodes number sink.now) }
{
    let place = Place::Sink(number);
    let capacity = Flaw::BadCapacity(sink.capacity);
    add_end_wrong(found, nodes, place, sink.end)?;
    add_if(found, is_bad_capacity(sink), place, capacity)
}
