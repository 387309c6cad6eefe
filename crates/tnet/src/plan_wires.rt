//! The wires of a plan: its own, and those between its nodes and its sources and sinks.

ghost use Rattle.std.specs.Prelude.{◌≡◌, ◌<◌, false, length, slice_get, Some, IfOk};
ghost use Rattle.tplan.specs.Wires.{script_ends, all_wires};
ghost use Rattle.tnet.specs.Building.{too_many, IsWellFormed};
ghost use Rattle.tnet.specs.Building as spec;

use crate::wires::Wires;
use std::alloc::{AllocError, Global};
use tplan::{End, Plan, Wire};

/// The number of all wires of a plan.
pub fn wire_count(plan: &Plan) -> usize
    requires { too_many plan.now ≡ false }
    ensures { result ≡ length (all_wires plan.now) }
{
    plan.wires.as_slice().len() + plan.sources.as_slice().len() + plan.sinks.as_slice().len()
}

/// The number of nodes, sources and sinks of a plan.
fn node_count(plan: &Plan) -> u32
    requires { too_many plan.now ≡ false }
    ensures { result ≡ spec.node_count plan.now }
{
    let scripts = plan.sources.as_slice().len() + plan.sinks.as_slice().len();
    (plan.nodes.as_slice().len() + scripts) as u32
}

/// The end that a source or a sink stands at, by its number among them.
fn script_end(plan: &Plan, script: usize) -> End
    requires { script < length (script_ends plan.now) }
    ensures { slice_get (script_ends plan.now) script ≡ Some result }
{
    let sources = plan.sources.as_slice();
    if script < sources.len() {
        return sources[script].end;
    }
    plan.sinks.as_slice()[script - sources.len()].end
}

/// The wire at a place among all wires of a plan.
pub fn wire_at(plan: &Plan, place: usize) -> Wire
    requires few { too_many plan.now ≡ false }
    requires within { place < length (all_wires plan.now) }
    ensures { slice_get (all_wires plan.now) place ≡ Some result }
{
    let wires = plan.wires.as_slice();
    if place < wires.len() {
        return wires[place];
    }
    let script = place - wires.len();
    let node = (plan.nodes.as_slice().len() + script) as u32;
    Wire {
        a: End { node, link: 0 },
        b: script_end(plan, script),
    }
}

/// All wires of a plan, with their far ends.
///
/// # Errors
/// Where the allocator refuses.
pub fn planned_wires(alloc: Global, plan: &Plan) -> Result<Wires, AllocError>
    requires { IsWellFormed plan.now }
    ensures { IfOk result (λ wires. wires ≡ all_wires plan.now) }
{
    let count = wire_count(plan);
    let mut wires = Vec::with_capacity(alloc, count)?;
    for place in 0..count {
        wires.push(wire_at(plan, place))?;
    }
    Wires::new(alloc, wires, node_count(plan))
}
