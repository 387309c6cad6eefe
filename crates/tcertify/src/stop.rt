//! Why a step stops.

ghost use Rattle.std.specs.Prelude.{◌≡◌};
ghost use Rattle.tcertify.specs.declared.stop.Stop.TheVariants as stops;

use tword::Break;

/// Why a step stops: there is no certificate of a run with such a step.
#[derive(Clone, Copy, Debug, PartialEq, Eq)]
pub enum Stop {
    /// A usage rule is broken.
    Breaks(Break),
    /// The processor halts.
    Halts,
    /// A register or a byte decides that the scheduler may have changed.
    SawTheScheduler,
    /// The scheduler, or the timing of links, decides which of several channels an alternative chooses.
    SeveralReady,
    /// A word is touched that is in use as a channel, as a count or for an alternative.
    WordInUse,
    /// A sink has no room for the message.
    FullSink,
    /// The agent has no step here. It is never the answer to a step of an agent whose gates are open.
    HasNoStep,
}

impl From<Break> for Stop {
    ghost from_gives = { λ broken stop. stop ≡ stops.Breaks broken };

    fn from(broken: Break) -> Stop {
        Stop::Breaks(broken)
    }
}
