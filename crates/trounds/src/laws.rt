//! Laws of rounds, each as the contract of a function that does nothing.

ghost use Rattle.trounds.specs.Rounds.{RoundsAreRun};
ghost use Rattle.trounds.specs.GoingOn.{RoundsGoOn, GoingOnIsNotRefused};

/// The events of rounds are a run of the packet machine.
pub fn rounds_are_a_run()
    ensures { RoundsAreRun }
{}

/// Some rounds of a net, and then more of the net that they leave, with the holds as they stand then, are all these
/// rounds in one go: the end, the number of rounds, the events, the notes and the net.
pub fn rounds_go_on()
    ensures { RoundsGoOn }
{}

/// Where workers and holds are not refused, they are not refused when the rounds go on.
pub fn going_on_is_not_refused()
    ensures { GoingOnIsNotRefused }
{}
