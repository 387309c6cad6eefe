//! The call of `temu certify`.

ghost use Rattle.std.specs.Prelude.{◌≡◌, ◌≢◌, ◌≤◌, IfErr, IfOk, IsOk, None, OnOk, length};
ghost use Rattle.tword.specs.Limits.{most_nodes};
ghost use Rattle.tnet.specs.Building.{IsFaultOf as IsPlanFault, built, fault_of, node_count};
ghost use Rattle.tfiles.specs.Failures.{HasRisen, HasStayed};
ghost use Rattle.topening.specs.Faults.{HasOutputCause, IsDue, IsFaultOf};
ghost use Rattle.topening.specs.Openings.{as_opened, opened_of};
ghost use Rattle.topening.specs.declared.verdict.Verdict.TheVariants.{Clear};
ghost use Rattle.tfindings.specs.declared.finding.Finding.TheVariants.{Certified};
ghost use Rattle.tfindings.specs.Findings as spec;
ghost use Rattle.tfindings.specs.Findings.{HasFound, HasRun, IsFindingLeft, IsFindingOf, IsRunOf};
ghost use Rattle.tfindings.specs.Nets.{TellsOfAllRuns, WritesOfAllRuns};
ghost use Rattle.tfindings.specs.Telling.{certified_text};

use crate::agents::is_there;
use crate::finding::{Finding, Touch};
use crate::parts::certify_in_parts;
use crate::progress::RunProgress;
use crate::steps::{has_number, made_by};
use crate::telling::{body_of, write_finding};
use std::alloc::{AllocError, Global};
use tbounds::know_plan;
use tcertify::Stop;
use tclocks::{Mode, Step};
use tfiles::CountedWrite;
use tnames::NodeNames;
use topening::opening::plan;
use topening::{Fault, Verdict as Outcome};
use tplan::{BuildFault, Plan, Wiring};
use tverdict::{Machine, Race, Refusal, Verdict};
use tword::Items;

/// `temu certify`: runs the process machine of the net of a wiring and the files of its images, one file a node, once,
/// for at most `most_steps` steps, and writes what was found: that all its runs end in one way, and this end; or two
/// steps that have a race; or why there is no certificate; behind each address of a race or a refusal its name, where
/// it has one. The wiring's holds are ignored. Nothing is written before the run has ended. progress: is told how far
/// it has come. Returns `Clear` if it is certified, `Marked` if there is a race, else `Cut`.
///
/// # Errors
/// The first of these: `Image` for the first file that is no image, `Net` for the lowest fault of the plan, `Output`
/// where the writer failed. `Memory` where the allocator refused, a number would not fit, or the run went another way
/// when it was made again to tell its steps. Unless the error is `Output`, nothing was written.
#[tactic(auto, using(crate::proofs::Runs::has_found, crate::proofs::Runs::finding_cut, crate::proofs::Nets::writes))]
pub fn certify_files<P: RunProgress, W: CountedWrite>(
    alloc: Global,
    wiring: &Wiring,
    files: Items<Items<u8>>,
    most_steps: u64,
    names: &[NodeNames],
    progress: &mut P,
    out: &mut W,
) -> Result<Outcome, Fault>
    requires { length files ≡ length wiring.now.nodes }
    // what is written is true of the plan, and the verdict is that of what was found
    ensures found { IfOk result
        (HasFound wiring.now files most_steps names.now (W.contents out.old) (W.contents out.new)) }

    // where it answers `Clear`, the certified end is written, and it is the end of all runs of the net, those of `run`,
    // `free` and `replay` among them: no node freezes or halts in any of them
    ensures all_runs { IfOk result (λ outcome. outcome ≡ Clear
        → WritesOfAllRuns wiring.now files certified_text (W.contents out.old) (W.contents out.new)) }

    // each fault is the first that is due
    ensures due { IfErr result (IsDue (opened_of wiring.now files)) }

    // and nothing is written, or the beginning of such a text
    ensures left { IfErr result
        (IsFindingLeft W.contents wiring.now files most_steps names.now out.old out.new) }

    // and the output failed just where a write did
    ensures cause { IfErr result (HasOutputCause (W.failures out.old) (W.failures out.new)) }
    ensures stayed { OnOk result (HasStayed (W.failures out.old) (W.failures out.new)) }
{
    let found = find(alloc, wiring, files, most_steps, progress)?;
    let Ok(body) = body_of(alloc, &found.machine, &found.finding) else {
        return Err(Fault::Memory);
    };
    match write_finding(
        out,
        names,
        &found.plan,
        &found.machine,
        &found.finding,
        body.as_slice(),
    ) {
        Ok(()) => Ok(outcome_of(&found.finding)),
        Err(cut) => Err(Fault::Output(cut)),
    }
}

/// A plan, its machine as its run left it, and what was found.
#[derive(Drop)]
pub(crate) struct FoundRun {
    pub(crate) plan: Plan,
    pub(crate) machine: Machine,
    pub(crate) finding: Finding,
}

/// What is found of a wiring and the files of its images.
///
/// # Errors
/// `Image` for the first file that is no image, `Net` for the lowest fault of the plan, `Memory`.
#[tactic(auto, using(crate::proofs::Runs::opened_files, crate::proofs::Runs::due_of_files))]
pub(crate) fn find<P: RunProgress>(
    alloc: Global,
    wiring: &Wiring,
    files: Items<Items<u8>>,
    most_steps: u64,
    progress: &mut P,
) -> Result<FoundRun, Fault>
    requires { length files ≡ length wiring.now.nodes }
    ensures found { IfOk result (λ x. IsRunOf wiring.now files most_steps x.plan x.machine x.finding) }
    ensures all_runs { IfOk result (λ x. x.finding ≡ Certified → TellsOfAllRuns wiring.now files x.plan x.machine) }
    ensures few { IfOk result (λ x. node_count x.plan ≤ most_nodes) }
    ensures opened { OnOk result (IsOk (opened_of wiring.now files)) }
    ensures due { IfErr result (IsFaultOf (opened_of wiring.now files)) }
{
    let plan = plan(alloc, wiring, files)?;
    know_plan(&plan);
    let Ran { machine, finding } = run_plan(alloc, &plan, most_steps, progress)?;
    Ok(FoundRun {
        plan,
        machine,
        finding,
    })
}

/// The run of a plan, and what is found.
///
/// # Errors
/// `Net` for the lowest fault of the plan; `Memory`.
#[tactic(auto, using(crate::proofs::Runs::few_nodes, crate::proofs::Runs::opened_plan, crate::proofs::Runs::fault_due))]
fn run_plan<P: RunProgress>(
    alloc: Global,
    plan: &Plan,
    most_steps: u64,
    progress: &mut P,
) -> Result<Ran, Fault>
    ensures ran { IfOk result (λ ran. HasRun plan.now most_steps ran.machine ran.finding) }
    ensures planned { OnOk result (fault_of plan.now ≡ None) }
    ensures few { OnOk result (node_count plan.now ≤ most_nodes) }
    ensures opened { OnOk result (IsOk (as_opened (built plan.now))) }
    ensures due { IfErr result (IsFaultOf (as_opened (built plan.now))) }
{
    Ok(run(alloc, plan, most_steps, progress)?)
}

/// The verdict of the command.
fn outcome_of(finding: &Finding) -> Outcome
    ensures { result ≡ spec.outcome_of finding.now }
{
    match finding {
        Finding::Certified => Outcome::Clear,
        Finding::Race { .. } => Outcome::Marked,
        Finding::Stopped { .. }
        | Finding::TooManyProcesses { .. }
        | Finding::FlagsChanged { .. }
        | Finding::Cut => Outcome::Cut,
    }
}

/// A machine as its run left it, and what was found.
#[derive(Drop)]
struct Ran {
    machine: Machine,
    finding: Finding,
}

/// Runs the process machine of a plan.
///
/// # Errors
/// The lowest fault of the plan; `OutOfMemory`.
fn run<P: RunProgress>(
    alloc: Global,
    plan: &Plan,
    most_steps: u64,
    progress: &mut P,
) -> Result<Ran, BuildFault>
    ensures ran { IfOk result (λ ran. HasRun plan.now most_steps ran.machine ran.finding) }
    ensures planned { OnOk result (fault_of plan.now ≡ None) }
    ensures due { IfErr result (IsPlanFault (fault_of plan.now)) }
{
    let mut machine = Machine::open(alloc, plan)?;
    let verdict = certify_in_parts(alloc, plan, &mut machine, most_steps, progress);
    progress.end();
    let verdict = verdict?;
    let finding = finding_of(alloc, plan, &machine, &verdict)?;
    Ok(Ran { machine, finding })
}

/// What is told of a verdict, with the machine as its run left it.
///
/// # Errors
/// Where the allocator refuses, a number would not fit, or the run goes another way when it is made again.
fn finding_of(
    alloc: Global,
    plan: &Plan,
    machine: &Machine,
    verdict: &Verdict,
) -> Result<Finding, AllocError>
    ensures { IfOk result (IsFindingOf plan.now machine.now verdict.now) }
{
    match *verdict {
        Verdict::Certified => Ok(Finding::Certified),
        Verdict::Race(race) => race_of(alloc, plan, machine, race),
        Verdict::Refused(Refusal::Stops { agent, why }) => {
            stop_of(alloc, plan, machine, agent, why)
        }
        Verdict::Refused(Refusal::TooManyProcesses { node }) => {
            Ok(Finding::TooManyProcesses { node })
        }
        Verdict::Refused(Refusal::FlagsChanged { node }) => Ok(Finding::FlagsChanged { node }),
        Verdict::Cut => Ok(Finding::Cut),
    }
}

/// What is told of a step that stops, of the agent of this number.
fn stop_of(
    alloc: Global,
    plan: &Plan,
    machine: &Machine,
    number: u32,
    why: Stop,
) -> Result<Finding, AllocError>
    ensures { IfOk result (spec.TellsStop plan.now machine.now number why) }
{
    let made = made_by(alloc, plan, number, None)?;
    if !has_number(machine, made.agent, number) {
        return Err(AllocError);
    }
    Ok(Finding::Stopped { made, why })
}

/// What is told of a race.
fn race_of(alloc: Global, plan: &Plan, machine: &Machine, race: Race) -> Result<Finding, AllocError>
    ensures { IfOk result (spec.IsRaceOf plan.now machine.now race) }
{
    let earlier = touch_of(alloc, plan, race.earlier.mode, race.earlier.step)?;
    let last = touch_of(alloc, plan, race.mode, race.step)?;
    if !is_there(machine.nodes.as_slice(), earlier.made.agent) {
        return Err(AllocError);
    }
    if !has_number(machine, last.made.agent, race.step.agent) {
        return Err(AllocError);
    }
    Ok(Finding::Race {
        place: race.place,
        earlier,
        last,
    })
}

/// What is told of an access of a step.
fn touch_of(alloc: Global, plan: &Plan, mode: Mode, step: Step) -> Result<Touch, AllocError>
    ensures { IfOk result (spec.IsTouchOf plan.now mode step) }
{
    let made = made_by(alloc, plan, step.agent, Some(step.number))?;
    Ok(Touch { mode, made })
}
