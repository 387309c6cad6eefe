//! Why a step is the last one.

ghost use Rattle.std.specs.Prelude.{◌≡◌};
ghost use Rattle.tverdict.specs.declared.halt.Halt.TheVariants as halts;

use crate::verdict::Race;
use std::alloc::AllocError;
use tcertify::Stop;

/// Why a step is the last one.
#[derive(Clone, Copy, Debug)]
pub enum Halt {
    /// It stops.
    Stops(Stop),
    /// It has a race with an earlier one.
    Race(Race),
    /// The allocator refused, or a number would not fit.
    OutOfMemory,
}

impl From<AllocError> for Halt {
    ghost from_gives = { λ _ halt. halt ≡ halts.OutOfMemory };

    fn from(_error: AllocError) -> Halt {
        Halt::OutOfMemory
    }
}
