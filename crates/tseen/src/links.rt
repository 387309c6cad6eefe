//! Laws of messages on links.

ghost use Rattle.tseen.specs.Linked.{CopiesAreSeen, LinkOperationsAreSeen, MismatchesStop, WakesAreSeen};

/// Where the message of a processor is over and its process is queued again, the state of the process machine that
/// showed the net before shows it after.
pub fn wakes_are_seen()
    ensures { WakesAreSeen }
{}

/// If the step of a wire does not stop, what a copy over the wire leads to is shown by the state after that step.
pub fn copies_are_seen()
    ensures { CopiesAreSeen }
{}

/// Where a link freezes its node, as an input and the offer wired to it differ in length, the step of the wire stops.
pub fn mismatches_stop()
    ensures { MismatchesStop }
{}

/// What `in`, `out`, `outbyte` or `outword` on a link leads to is shown by the state after the step of its process.
pub fn link_operations_are_seen()
    ensures { LinkOperationsAreSeen }
{}
