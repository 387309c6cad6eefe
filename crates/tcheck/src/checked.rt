//! A wiring with the files of its images, looked through.

ghost use Rattle.std.specs.Prelude.{◌≡◌, ◌++◌, ◌↔◌, [], false, IfErr, IfOk, IsTrue, OnOk, length};
ghost use Rattle.tfiles.specs.Failures.{HasRisen, HasStayed};
ghost use Rattle.tfiles.specs.Outputs.{IsOut, Tells};
ghost use Rattle.tplan.specs.Wires.{all_wires as spec_all_wires};
ghost use Rattle.tcheck.specs.Checks as spec;

use crate::ends::{all_wires, is_crowded};
use crate::flaws::Wrong;
use crate::holds::add_hold_wrongs;
use crate::images::planned_nodes;
use crate::plans::add_plan_wrongs;
use crate::sentences::put_wrongs;
use crate::summaries::put_net;
use std::alloc::{AllocError, Global};
use tfiles::writing::output::Output;
use tfiles::{CountedWrite, WriteFault};
use tplan::{Hold, Plan, Wire, Wiring, WiringNode};
use tword::Items;

/// A wiring with the files of its images, looked through.
#[derive(Drop)]
pub struct Checked {
    /// The nodes of the wiring, which name the images.
    pub nodes: Items<WiringNode>,
    /// The plan that they give. A node whose image cannot be read is loaded with nothing.
    pub plan: Plan,
    /// All wires of the plan; none, where there are too many nodes or wires.
    pub wires: Items<Wire>,
    /// What is wrong.
    pub wrongs: Items<Wrong>,
}

/// Looks through a wiring and the files of its images, one file a node, which is none where it cannot be read.
///
/// # Errors
/// Where the allocator refuses.
pub fn check(
    alloc: Global,
    wiring: Wiring,
    files: &[Option<Items<u8>>],
) -> Result<Checked, AllocError>
    requires { length files.now ≡ length wiring.nodes }
    ensures exact { IfOk result (λ checked. checked ≡ spec.checked_of wiring files.now) }

    // nothing is wrong just where the wiring can be run
    ensures nothing { IfOk result (λ checked. (checked.wrongs ≡ []) ↔ spec.IsAccepted wiring files.now) }
{
    let Wiring {
        timeslice,
        nodes,
        wires,
        sources,
        sinks,
        holds,
    } = wiring;
    let mut found = Vec::new(alloc);
    let planned = planned_nodes(alloc, &mut found, nodes.as_slice(), files)?;
    let plan = Plan {
        timeslice,
        nodes: planned,
        wires,
        sources,
        sinks,
    };
    add_plan_wrongs(alloc, &mut found, &plan)?;
    let wires = compared_wires(alloc, &plan)?;
    add_plan_hold_wrongs(&mut found, &plan, wires.as_slice(), holds.as_slice())?;
    Ok(Checked {
        nodes,
        plan,
        wires: Items::new(wires),
        wrongs: Items::new(found),
    })
}

/// All wires of a plan, where they are few enough to be compared.
fn compared_wires(alloc: Global, plan: &Plan) -> Result<Vec<Wire>, AllocError>
    ensures { IfOk result (λ wires. wires.items ≡ spec.compared_wires plan.now) }
{
    if is_crowded(plan) {
        return Ok(Vec::new(alloc));
    }
    all_wires(alloc, plan)
}

/// What is wrong with the holds of a plan, where its wires are few enough to be looked through for each.
fn add_plan_hold_wrongs(
    found: &mut Vec<Wrong>,
    plan: &Plan,
    wires: &[Wire],
    holds: &[Hold],
) -> Result<(), AllocError>
    requires { wires.now ≡ spec.compared_wires plan.now }
    ensures { OnOk result (found.new.items ≡ found.old.items ++ spec.plan_hold_wrongs plan.now holds.now) }
{
    if is_crowded(plan) {
        return Ok(());
    }
    add_hold_wrongs(found, wires, holds)
}

impl Checked {
    /// Whether nothing is wrong.
    pub fn is_good(&self) -> bool
        ensures { IsTrue result ↔ (self.now.wrongs ≡ []) }
    {
        self.wrongs.as_slice().is_empty()
    }

    /// Writes all that is wrong, a line each; or what the net is, where nothing is.
    ///
    /// # Errors
    /// Where the writer fails or takes nothing. Then only the first bytes are written, as many as the fault tells.
    pub fn write<W: CountedWrite>(&self, out: &mut W) -> Result<(), WriteFault>
        ensures text { IsOut (W.contents out.old) (W.contents out.new) (spec.checked_text self.now) result }
        ensures cause { IfErr result (λ _. HasRisen (W.failures out.old) (W.failures out.new)) }
        ensures stayed { OnOk result (HasStayed (W.failures out.old) (W.failures out.new)) }
    {
        let mut output = Output::new(out);
        put_checked(&mut output, self);
        output.finish()
    }
}

/// All that is wrong, a line each; or what the net is, where nothing is.
fn put_checked<W: CountedWrite>(out: &mut Output<'_, W>, checked: &Checked)
    ensures { Tells W.contents W.failures out.old out.new (spec.checked_text checked.now) }
{
    let nodes = checked.nodes.as_slice();
    match checked.wrongs.as_slice() {
        [] => put_net(out, nodes, checked.wires.as_slice(), &checked.plan),
        wrongs => put_wrongs(out, nodes, wrongs),
    }
}
