//! Laws of the process machine, each as the contract of a function that does nothing.

ghost use Rattle.tprocesses.specs.Depending.{FlagsAreTold, UsesAreTold};
ghost use Rattle.tprocesses.specs.Certified.{CertificatesTellOfAllRuns, ProcessMachineIsLawful, ProcessMachineIsTidy};
ghost use Rattle.tprocesses.specs.Certified.{HadFewIsEnough, LivingAreCounted, PlacesLetFewLive};
ghost use Rattle.tprocesses.specs.Lives.{EndedStayEnded, StepsTellLives};

/// The process machine of each plan is tidy: what its agents are and where they look is told, changes that may come in
/// either order do, and each agent leaves open the gates of all others.
pub fn the_process_machine_is_tidy()
    ensures { ProcessMachineIsTidy }
{}

/// The process machine of each plan is lawful: its steps have the same result in either order, except for those that
/// clash.
pub fn the_process_machine_is_lawful()
    ensures { ProcessMachineIsLawful }
{}

/// One run of a plan's process machine that is over, without a race and with no step that stops, tells of all its runs:
/// each other can be completed to the same end, and each that is over ends there.
pub fn certificates_tell_of_all_runs()
    ensures { CertificatesTellOfAllRuns }
{}

/// What an instruction touches, checks, writes and leaves depends on the registers and on what it reads as the table of
/// uses tells: registers that it does not need, and what it reads that need not be known, are at most moved.
pub fn what_instructions_use_is_told()
    ensures { UsesAreTold }
{}

/// What an instruction does that is not about flags is told by what it does with Error clear and HaltOnError set:
/// whether it sets Error, and whether the processor halts then.
pub fn what_flags_change_is_told()
    ensures { FlagsAreTold }
{}

/// If a plan's process machine has one run alone, and at its end a node has not had more processes than may live there,
/// then no run has more at the same time.
pub fn had_few_is_enough()
    ensures { HadFewIsEnough }
{}

/// If in one run without a race all that begins at a node has a place that is taken by turns, and these places and the
/// processes of the image are no more than may live there, then no run has more at the same time.
pub fn places_let_few_live()
    ensures { PlacesLetFewLive }
{}

/// After steps that do not stop as many processes live at a node as were in its image and have begun, but for those
/// that have ended.
pub fn living_are_counted()
    ensures { LivingAreCounted }
{}

/// The states before and after a step that does not stop tell which process it begins and which it ends: one at most,
/// it begins one if its node has had another number of processes, and it ends its own if that has ended.
pub fn steps_tell_lives()
    ensures { StepsTellLives }
{}

/// A process that has ended stays so after each step that does not stop.
pub fn ended_stay_ended()
    ensures { EndedStayEnded }
{}
