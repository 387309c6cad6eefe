//! Why an access was refused.

ghost use Rattle.std.specs.Prelude.{◌≡◌};
ghost use Rattle.tclocks.specs.declared.refusal.Refusal.TheVariants.{OutOfMemory};

use crate::step::Access;
use std::alloc::AllocError;

/// Why an access was refused.
#[derive(Clone, Copy, Debug)]
pub enum Refusal {
    /// It races with this earlier one.
    Race(Access),
    /// The allocator refused.
    OutOfMemory,
}

impl From<AllocError> for Refusal {
    ghost from_gives = { λ _ refusal. refusal ≡ OutOfMemory };

    fn from(_error: AllocError) -> Refusal {
        Refusal::OutOfMemory
    }
}
