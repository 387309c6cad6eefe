//! Laws of the process machine as a program, each as the contract of a function that does nothing.

ghost use Rattle.tcertify.specs.Walked.{StepsAreRun};

/// What a run of a part does is what the walk of the machine of walkers does: it looks at the same places, makes the
/// same changes, leaves the same state, and stops for the same reason.
pub fn steps_are_run()
    ensures { StepsAreRun }
{}
