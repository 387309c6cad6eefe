//! All wires of a plan, and the ends that are named twice.

ghost use Rattle.std.specs.Prelude.{◌≡◌, ◌<◌, ◌≤◌, ◌++◌, false, length, slice_get, take, Some, IfOk, OnOk};
ghost use Rattle.tplan.specs.Wires.{all_wires as spec_all_wires, script_ends};
ghost use Rattle.tplan.specs.Wires as wires_spec;
ghost use Rattle.tcheck.specs.Wrongs as spec;

use crate::finding::is_same_end;
use crate::flaws::{Flaw, Place, Wrong};
use crate::plans::{has_many_nodes, has_many_wires};
use std::alloc::{AllocError, Global};
use tplan::{End, Plan, Wire};

/// Whether there are too many nodes or wires for their ends to be compared.
pub(crate) fn is_crowded(plan: &Plan) -> bool
    ensures { result ≡ spec.is_crowded plan.now }
{
    has_many_nodes(plan) || has_many_wires(plan)
}

/// The number of all wires of a plan.
fn wire_count(plan: &Plan) -> usize
    requires { spec.is_crowded plan.now ≡ false }
    ensures { result ≡ length (spec_all_wires plan.now) }
{
    plan.wires.as_slice().len() + plan.sources.as_slice().len() + plan.sinks.as_slice().len()
}

/// The end that a source or a sink stands at, by its number among them.
fn script_end(plan: &Plan, script: usize) -> End
    requires { script < length (script_ends plan.now) }
    ensures { slice_get (script_ends plan.now) script ≡ Some result }
{
    let sources = plan.sources.as_slice();
    if script < sources.len() {
        return sources[script].end;
    }
    plan.sinks.as_slice()[script - sources.len()].end
}

/// The wire at a place among all wires of a plan.
fn wire_at(plan: &Plan, place: usize) -> Wire
    requires few { spec.is_crowded plan.now ≡ false }
    requires within { place < length (spec_all_wires plan.now) }
    ensures { slice_get (spec_all_wires plan.now) place ≡ Some result }
{
    let wires = plan.wires.as_slice();
    if place < wires.len() {
        return wires[place];
    }
    let script = place - wires.len();
    let node = (plan.nodes.as_slice().len() + script) as u32;
    Wire {
        a: End { node, link: 0 },
        b: script_end(plan, script),
    }
}

/// All wires of a plan: its own, then those of its sources, then those of its sinks.
///
/// # Errors
/// Where the allocator refuses.
pub(crate) fn all_wires(alloc: Global, plan: &Plan) -> Result<Vec<Wire>, AllocError>
    requires { spec.is_crowded plan.now ≡ false }
    ensures { IfOk result (λ wires. wires.items ≡ spec_all_wires plan.now) }
{
    let count = wire_count(plan);
    let mut wires = Vec::with_capacity(alloc, count)?;
    for place in 0..count {
        wires.push(wire_at(plan, place))?;
    }
    Ok(wires)
}

/// Each end of a plan that is named twice, where its wires are few enough to be compared.
pub(crate) fn add_sharing_wrongs(
    alloc: Global,
    found: &mut Vec<Wrong>,
    plan: &Plan,
) -> Result<(), AllocError>
    ensures { OnOk result (found.new.items ≡ found.old.items ++ spec.sharing_wrongs plan.now) }
{
    if is_crowded(plan) {
        return Ok(());
    }
    let all = all_wires(alloc, plan)?;
    let wires = plan.wires.as_slice().len();
    let sources = plan.sources.as_slice().len();
    add_twice_wrongs(found, wires, sources, all.as_slice())
}

/// Each wire with an end of an earlier one.
fn add_twice_wrongs(
    found: &mut Vec<Wrong>,
    wires: usize,
    sources: usize,
    all: &[Wire],
) -> Result<(), AllocError>
    ensures { OnOk result (found.new.items ≡ found.old.items ++ spec.twice_wrongs wires sources all.now) }
{
    for (number, wire) in all.iter().enumerate() {
        let shared = first_sharing(*wire, &all[..number]);
        add_shared_wrong(found, wires, sources, number, shared)?;
    }
    Ok(())
}

/// Whether an end is one of a wire.
fn joins(end: End, wire: Wire) -> bool
    ensures { result ≡ wires_spec.joins end wire }
{
    is_same_end(wire.a, end) || is_same_end(wire.b, end)
}

/// The end that a wire shares with an earlier one, if it does.
fn shared_end(wire: Wire, earlier: Wire) -> Option<End>
    ensures { result ≡ spec.shared_end wire earlier }
{
    if joins(wire.a, earlier) {
        Some(wire.a)
    } else if joins(wire.b, earlier) {
        Some(wire.b)
    } else {
        None
    }
}

/// The first of some wires with which a wire shares an end, and that end.
fn first_sharing(wire: Wire, earlier: &[Wire]) -> Option<(usize, End)>
    ensures { result ≡ spec.first_sharing wire 0 earlier.now }
{
    for (number, other) in earlier.iter().enumerate() {
        if let Some(end) = shared_end(wire, *other) {
            return Some((number, end));
        }
    }
    None
}

/// What stands at a number among all wires, which count over the wires, then the sources, then the sinks.
fn holder(wires: usize, sources: usize, number: usize) -> Place
    ensures { result ≡ spec.holder wires sources number }
{
    if number < wires {
        return Place::Wire(number);
    }
    let script = number - wires;
    if script < sources {
        Place::Source(script)
    } else {
        Place::Sink(script - sources)
    }
}

/// An end that is shared, if one is.
fn add_shared_wrong(
    found: &mut Vec<Wrong>,
    wires: usize,
    sources: usize,
    number: usize,
    shared: Option<(usize, End)>,
) -> Result<(), AllocError>
    ensures { OnOk result (found.new.items ≡ found.old.items ++ spec.shared_wrongs wires sources number shared) }
{
    if let Some((earlier, end)) = shared {
        let place = holder(wires, sources, number);
        let earlier = holder(wires, sources, earlier);
        let flaw = Flaw::SharedEnd { end, earlier };
        found.push(Wrong { place, flaw })?;
    }
    Ok(())
}
