//! Laws of messages on internal channels, each as the contract of a function that does nothing.

ghost use Rattle.tseen.specs.Messages.{FirstHalvesAreSeen, MeetingsAreSeen, MeetingsGoOn};

/// What the first of two processes at an internal channel leads to is shown by the state after its step: it waits, and
/// has its half of the channel.
pub fn first_halves_are_seen()
    ensures { FirstHalvesAreSeen }
{}

/// What the second leads to is shown after three steps: its own, that of the channel, and that it goes on from its
/// rest.
pub fn meetings_are_seen()
    ensures { MeetingsAreSeen }
{}

/// These steps are there to be made: after the first the channel has a step, and after that the process has one.
pub fn meetings_go_on()
    ensures { MeetingsGoOn }
{}
