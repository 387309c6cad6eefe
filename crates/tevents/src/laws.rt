//! Laws of steps and the events that do them, each as the contract of a function that does nothing.

ghost use Rattle.tevents.specs.Events.{StepsAreEvents, RunsAreEvents, RunsToFreezesAreEvents};
ghost use Rattle.tevents.specs.Events.{OverNetsCanRest, OutcomesAreShown, FreezesAreShown};

/// Each step that is lawful in what is seen of a net is done by events of it, except one that takes the offer of a
/// frozen node.
pub fn steps_are_events()
    ensures { StepsAreEvents }
{}

/// Each run of what is seen of a net to where no node is frozen is done by events of the net.
pub fn runs_are_events()
    ensures { RunsAreEvents }
{}

/// A run of what is seen of a net to where no node is frozen, and one more step, are done by events of the net: so
/// each run up to the first node that freezes is.
pub fn runs_to_freezes_are_events()
    ensures { RunsToFreezesAreEvents }
{}

/// Where what is seen of a net is over, events of which nothing is seen lead to where none is enabled.
pub fn over_nets_can_rest()
    ensures { OverNetsCanRest }
{}

/// Each outcome of a plan is what a net of it shows at rest, after some events.
pub fn outcomes_are_shown()
    ensures { OutcomesAreShown }
{}

/// Where a plan has a freeze, a node of a net of it freezes, after some events.
pub fn freezes_are_shown()
    ensures { FreezesAreShown }
{}
