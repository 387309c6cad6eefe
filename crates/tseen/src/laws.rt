//! Laws of what the process machine shows of the rendezvous machine, each as the contract of a function that does
//! nothing.

ghost use Rattle.tseen.specs.Begun.{BeginningsAreSeen};
ghost use Rattle.tseen.specs.Freezes.{DispatchesBreakNothing, InstructionsBreakNothing, StepsThatLeadBreakNothing};
ghost use Rattle.tseen.specs.Ended.{EndsAreSeen, LastEndsAreSeen, SuccessorsAreDue};
ghost use Rattle.tseen.specs.AgentSteps.{CertifiedRunsNeverStop};
ghost use Rattle.tseen.specs.Rest.{RestsAreSeen};
ghost use Rattle.tseen.specs.Shown.{FreeWordsAreReadable, KnownWordsAreThere, OpeningIsShown, UnsentWordsAreWritable};
ghost use Rattle.tseen.specs.Interrupting.{InterruptionsAreSeen, ResumptionsAreSeen};
ghost use Rattle.tseen.specs.Throughout.{FewThroughout, KeptFlagsThroughout, RunsAreTold};
ghost use Rattle.tseen.specs.Steps.{DispatchesAreSeen, HighJumpsAreSeen, InstructionsAreDone, LoadedPrioritiesAreSeen};
ghost use Rattle.tseen.specs.Steps.{LocalInstructionsAreSeen, LowJumpsAreSeen, OpeningIsSteady, OwnStepsKeepSteady};
ghost use Rattle.tseen.specs.Steps.{NoticesAreSeen, OpeningNodesAreSteady, RunsStaySteady, StepsKeepSteady};
ghost use Rattle.tseen.specs.Steps.{SourceWakesAreSeen, StopsAreSeen, UnstoppedAreSeen, YieldsAreSeen};

/// The opening of each plan without a fault is shown: the state of its process machine before the first step tells of
/// the configuration of its rendezvous machine before the first step.
pub fn the_opening_is_shown()
    ensures { OpeningIsShown }
{}

/// A word that is free in the process machine is claimed by no saved word and no pending input of the node that is
/// shown, so a program may read it.
pub fn free_words_are_readable()
    ensures { FreeWordsAreReadable }
{}

/// If no pending output has a byte of it either, a program may write it.
pub fn unsent_words_are_writable()
    ensures { UnsentWordsAreWritable }
{}

/// A word of the memory whose bytes are all known in the process machine is the word that is there.
pub fn known_words_are_there()
    ensures { KnownWordsAreThere }
{}

/// If the step of a node's current process does not stop, the instruction of the node breaks no rule, and does not halt
/// the processor.
pub fn instructions_are_done()
    ensures { InstructionsAreDone }
{}

/// If it is a local instruction, the node's own step leads to a configuration that the state after the step shows.
pub fn local_instructions_are_seen()
    ensures { LocalInstructionsAreSeen }
{}

/// The same holds if it is a jump of a high process.
pub fn high_jumps_are_seen()
    ensures { HighJumpsAreSeen }
{}

/// After a jump of a low process that does not yield, the same holds once its process has gone on from its rest.
pub fn low_jumps_are_seen()
    ensures { LowJumpsAreSeen }
{}

/// After a jump at which a low process yields, the state after the jump itself shows what the node's own step leads
/// to.
pub fn yields_are_seen()
    ensures { YieldsAreSeen }
{}

/// If a node dispatches a process, the state after that process has gone on from its rest shows what the dispatch leads
/// to.
pub fn dispatches_are_seen()
    ensures { DispatchesAreSeen }
{}

/// What `ldpri` leads to is shown by the state after the step of its process.
pub fn loaded_priorities_are_seen()
    ensures { LoadedPrioritiesAreSeen }
{}

/// What `stoperr` leads to, where Error is clear, is shown by the state after the step of its process.
pub fn unstopped_are_seen()
    ensures { UnstoppedAreSeen }
{}

/// What `stopp` leads to, or `stoperr` where Error is set, is shown by the state after the step of its process.
pub fn stops_are_seen()
    ensures { StopsAreSeen }
{}

/// What `endp` leads to, where other processes have still to end at its count, is shown by the state after the step of
/// its process, if the step of their successor does not stop.
pub fn ends_are_seen()
    ensures { EndsAreSeen }
{}

/// What the last `endp` at its count leads to is shown by the state after the step of its process and the step of the
/// successor.
pub fn last_ends_are_seen()
    ensures { LastEndsAreSeen }
{}

/// After the step of the process that does the last `endp` the successor has its step.
pub fn successors_are_due()
    ensures { SuccessorsAreDue }
{}

/// Where no step of the rendezvous machine is lawful, no agent of a state that shows it has a step, if no step would
/// stop.
pub fn rests_are_seen()
    ensures { RestsAreSeen }
{}

/// Wherever a run of a plan with a certificate leads, no agent has a step that stops.
pub fn certified_runs_never_stop()
    ensures { CertifiedRunsNeverStop }
{}

/// The processors of a plan without a fault are steady before the first step.
pub fn the_opening_is_steady()
    ensures { OpeningIsSteady }
{}

/// A node's own step leaves its processor steady.
pub fn own_steps_keep_steady()
    ensures { OwnStepsKeepSteady }
{}

/// All nodes of a plan without a fault are steady before the first step: memories hold bytes, pending inputs are
/// hidden, and processors are steady.
pub fn all_nodes_open_steady()
    ensures { OpeningNodesAreSteady }
{}

/// Each step of the rendezvous machine leaves all nodes steady: own steps, notices, copies, wakes and freezes.
pub fn all_steps_keep_steady()
    ensures { StepsKeepSteady }
{}

/// So all nodes are steady wherever a run of a plan without a fault leads.
pub fn runs_stay_steady()
    ensures { RunsStaySteady }
{}

/// Where an end notices an offer, the state of the process machine that showed the net before shows it after; or, if a
/// process waits there for its alternative, the wire has a step, without a message, and the state after that shows it.
pub fn notices_are_seen()
    ensures { NoticesAreSeen }
{}

/// The same holds where a message of a source is over, and the source offers its next one.
pub fn source_wakes_are_seen()
    ensures { SourceWakesAreSeen }
{}

/// What `startp` and `runp` lead to is shown by the state after the step of their process, if no more processes live
/// at the node then than may.
pub fn beginnings_are_seen()
    ensures { BeginningsAreSeen }
{}

/// Where the own step of a node leads on, no break of it freezes the node.
pub fn steps_that_lead_break_nothing()
    ensures { StepsThatLeadBreakNothing }
{}

/// No break of a dispatch freezes the node either.
pub fn dispatches_break_nothing()
    ensures { DispatchesBreakNothing }
{}

/// No break of an instruction freezes the node either, if it is not `endp` or a communication and the step of its
/// process does not stop.
pub fn instructions_break_nothing()
    ensures { InstructionsBreakNothing }
{}

/// Wherever a run of a plan with a certificate leads, no more processes live at a node than may.
pub fn nodes_have_few_throughout()
    ensures { FewThroughout }
{}

/// Wherever a run from the opening leads, the flags are there that tell which priorities have run.
pub fn runs_are_told()
    ensures { RunsAreTold }
{}

/// If no flag was changed at the end where processes of both priorities have run, none was before.
pub fn flags_were_kept_throughout()
    ensures { KeptFlagsThroughout }
{}

/// Where a process that was interrupted goes on, the state that showed the net before shows it after.
pub fn resumptions_are_seen()
    ensures { ResumptionsAreSeen }
{}

/// If a high process interrupts a low one, the state after the high one has gone on from its rest shows what this leads
/// to.
pub fn interruptions_are_seen()
    ensures { InterruptionsAreSeen }
{}
