//! What is printed of a run of the process machine.

ghost use Rattle.std.specs.Prelude.{◌≡◌, ◌≤◌, IfErr, IfOk, OnOk};
ghost use Rattle.tword.specs.Limits.{most_nodes};
ghost use Rattle.tnet.specs.Building.{node_count};
ghost use Rattle.tfiles.specs.Failures.{HasRisen, HasStayed};
ghost use Rattle.tfiles.specs.Outputs.{IsOut, Tells};
ghost use Rattle.tverdict.specs.Agents.{IsThere};
ghost use Rattle.tverdict.specs.Machines.{IsSound};
ghost use Rattle.tfindings.specs.Agents.{AreNumbered};
ghost use Rattle.tfindings.specs.Telling as spec;

use crate::agents::put_agent;
use crate::ends::put_end;
use crate::finding::{Code, Finding, Made, Touch};
use crate::places::{node_with, put_access};
use crate::refusals::stop_name;
use std::alloc::{AllocError, Global};
use tcertify::Stop;
use tcode::Instruction;
use tfiles::dis::put_instruction;
use tfiles::writing::output::{Output, WriteFault};
use tfiles::writing::text::put_decimal;
use tfiles::{CountedWrite, Uncounted};
use tnames::{NodeNames, put_of_node};
use tplan::Plan;
use tverdict::{Agent, Machine};
use twhere::put_word;
use tword::Items;

/// What was found of a plan, by the machine as the run left it (own choice of format). body: the lines of the steps
/// that are told.
fn put_finding<W: CountedWrite>(
    out: &mut Output<'_, W>,
    names: &[NodeNames],
    plan: &Plan,
    machine: &Machine,
    finding: &Finding,
    body: &[u8],
)
    requires printed { spec.CanBePrinted plan.now machine.now finding.now }
    requires few { node_count plan.now ≤ most_nodes }
    requires body { body.now ≡ spec.body_text machine.now finding.now }
    ensures { Tells W.contents W.failures out.old out.new
        (spec.finding_text names.now plan.now machine.now finding.now) }
{
    match *finding {
        Finding::Certified => put_certified(out, plan, machine),
        Finding::Race { place, .. } => {
            out.put(b"race\n");
            put_of_node(out, names, node_of_place(machine, place), body);
            put_last(out, b"race", machine.done);
        }
        Finding::Stopped { made, .. } => {
            put_of_node(out, names, node_of(made.agent), body);
            put_last(out, b"refused", machine.done);
        }
        Finding::TooManyProcesses { node } => {
            put_node_refusal(out, b"TooManyProcesses", node, machine.done);
        }
        Finding::FlagsChanged { node } => {
            put_node_refusal(out, b"FlagsChanged", node, machine.done);
        }
        Finding::Cut => {
            out.put(b"refused Steps\n");
            put_last(out, b"refused", machine.done);
        }
    }
}

/// That the plan is certified, and the end.
fn put_certified<W: CountedWrite>(out: &mut Output<'_, W>, plan: &Plan, machine: &Machine)
    requires sound { IsSound plan.now machine.now }
    requires few { node_count plan.now ≤ most_nodes }
    ensures { Tells W.contents W.failures out.old out.new (spec.certified_text plan.now machine.now) }
{
    out.put(b"certified\n");
    put_end(out, plan, machine);
    put_last(out, b"certified", machine.done);
}

/// The number of the node that has a place; 0, where none has it.
fn node_of_place(machine: &Machine, place: u32) -> u32
    ensures { result ≡ spec.node_of_place machine.now place }
{
    match node_with(machine.nodes.as_slice(), place) {
        Some(node) => machine.nodes[node].words.number,
        None => 0,
    }
}

/// The number of the node of an agent: of a wire that of its end that receives.
fn node_of(agent: Agent) -> u32
    ensures { result ≡ spec.node_of agent }
{
    match agent {
        Agent::Process { node, .. } | Agent::Channel { node, .. } | Agent::Successor { node, .. } =>
            node,
        Agent::Wire(end) => end.node,
    }
}

/// The lines of the steps that are told.
fn put_body<W: CountedWrite>(out: &mut Output<'_, W>, machine: &Machine, finding: &Finding)
    requires { spec.CanBeTold machine.now finding.now }
    ensures { Tells W.contents W.failures out.old out.new (spec.body_text machine.now finding.now) }
{
    match *finding {
        Finding::Race {
            place,
            earlier,
            last,
        } => {
            put_touch(out, machine, place, &earlier);
            put_touch(out, machine, place, &last);
        }
        Finding::Stopped { made, why } => put_stopped(out, machine, &made, why),
        _ => {}
    }
}

/// An access, and its step.
fn put_touch<W: CountedWrite>(out: &mut Output<'_, W>, machine: &Machine, place: u32, touch: &Touch)
    requires there { IsThere machine.now.nodes.items touch.now.made.agent }
    requires numbered { AreNumbered machine.now.nodes.items }
    ensures { Tells W.contents W.failures out.old out.new (spec.touch_text machine.now place touch.now) }
{
    put_access(
        out,
        machine.nodes.as_slice(),
        machine.first_script,
        place,
        touch.mode,
    );
    out.put(b": ");
    put_made(out, machine, &touch.made);
    out.put(b"\n");
}

/// The step of an agent that stops, and why.
fn put_stopped<W: CountedWrite>(out: &mut Output<'_, W>, machine: &Machine, made: &Made, why: Stop)
    requires there { IsThere machine.now.nodes.items made.now.agent }
    requires numbered { AreNumbered machine.now.nodes.items }
    ensures { Tells W.contents W.failures out.old out.new (spec.stopped_text machine.now made.now why) }
{
    out.put(b"refused ");
    out.put(stop_name(why));
    out.put(b" ");
    put_made(out, machine, made);
    out.put(b"\n");
}

/// A refusal for a node.
fn put_node_refusal<W: CountedWrite>(out: &mut Output<'_, W>, why: &[u8], node: usize, steps: u64)
    ensures { Tells W.contents W.failures out.old out.new
        (spec.refusal_text why.now (spec.node_text node) steps) }
{
    out.put(b"refused ");
    out.put(why);
    out.put(b" node ");
    put_decimal(out, node as u64);
    out.put(b"\n");
    put_last(out, b"refused", steps);
}

/// A step.
fn put_made<W: CountedWrite>(out: &mut Output<'_, W>, machine: &Machine, made: &Made)
    requires there { IsThere machine.now.nodes.items made.now.agent }
    requires numbered { AreNumbered machine.now.nodes.items }
    ensures { Tells W.contents W.failures out.old out.new (spec.made_text machine.now made.now) }
{
    put_agent(out, machine.nodes.as_slice(), made.agent);
    out.put(b" step ");
    put_decimal(out, u64::from(made.number));
    put_code(out, &made.code);
}

/// The address of an instruction, and what is there.
fn put_code<W: CountedWrite>(out: &mut Output<'_, W>, code: &Option<Code>)
    ensures { Tells W.contents W.failures out.old out.new (spec.code_text code.now) }
{
    if let Some(code) = code {
        out.put(b" ");
        put_word(out, code.address);
        out.put(b" ");
        put_fetched(out, &code.fetched);
    }
}

/// What is fetched: an instruction, or why there is none.
fn put_fetched<W: CountedWrite>(out: &mut Output<'_, W>, fetched: &Result<Instruction, Stop>)
    ensures { Tells W.contents W.failures out.old out.new (spec.fetched_text fetched.now) }
{
    match fetched {
        Ok(instruction) => put_instruction(out, instruction),
        Err(why) => out.put(stop_name(*why)),
    }
}

/// The last line, which tells how many steps were done.
fn put_last<W: CountedWrite>(out: &mut Output<'_, W>, how: &[u8], steps: u64)
    ensures { Tells W.contents W.failures out.old out.new (spec.last_text how.now steps) }
{
    out.put(b"end ");
    out.put(how);
    out.put(b" ");
    put_decimal(out, steps);
    out.put(b"\n");
}

/// The lines of the steps that are told, as a text.
///
/// # Errors
/// Where the allocator refuses.
pub(crate) fn body_of(
    alloc: Global,
    machine: &Machine,
    finding: &Finding,
) -> Result<Items<u8>, AllocError>
    requires { spec.CanBeTold machine.now finding.now }
    ensures { IfOk result (λ text. text ≡ spec.body_text machine.now finding.now) }
{
    let mut text = Uncounted(Vec::new(alloc));
    match write_body(&mut text, machine, finding) {
        Ok(()) => Ok(Items::new(text.0)),
        Err(_) => Err(AllocError),
    }
}

/// Writes the lines of the steps that are told.
fn write_body<W: CountedWrite>(
    out: &mut W,
    machine: &Machine,
    finding: &Finding,
) -> Result<(), WriteFault>
    requires { spec.CanBeTold machine.now finding.now }
    ensures { IsOut (W.contents out.old) (W.contents out.new) (spec.body_text machine.now finding.now) result }
{
    let mut output = Output::new(out);
    put_body(&mut output, machine, finding);
    output.finish()
}

/// Writes the last line of a plan that is certified.
pub(crate) fn write_certified<W: CountedWrite>(
    out: &mut W,
    machine: &Machine,
) -> Result<(), WriteFault>
    ensures out { (plan : _) → IsOut (W.contents out.old) (W.contents out.new)
        (spec.certified_line plan machine.now) result }
    ensures cause { IfErr result (λ _. HasRisen (W.failures out.old) (W.failures out.new)) }
    ensures stayed { OnOk result (HasStayed (W.failures out.old) (W.failures out.new)) }
{
    let mut output = Output::new(out);
    put_last(&mut output, b"certified", machine.done);
    output.finish()
}

/// Writes what was found. body: the lines of the steps that are told.
pub(crate) fn write_finding<W: CountedWrite>(
    out: &mut W,
    names: &[NodeNames],
    plan: &Plan,
    machine: &Machine,
    finding: &Finding,
    body: &[u8],
) -> Result<(), WriteFault>
    requires printed { spec.CanBePrinted plan.now machine.now finding.now }
    requires few { node_count plan.now ≤ most_nodes }
    requires body { body.now ≡ spec.body_text machine.now finding.now }
    ensures out { IsOut (W.contents out.old) (W.contents out.new)
        (spec.finding_text names.now plan.now machine.now finding.now) result }
    ensures cause { IfErr result (λ _. HasRisen (W.failures out.old) (W.failures out.new)) }
    ensures stayed { OnOk result (HasStayed (W.failures out.old) (W.failures out.new)) }
{
    let mut output = Output::new(out);
    put_finding(&mut output, names, plan, machine, finding, body);
    output.finish()
}
