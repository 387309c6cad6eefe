//! Why a call on a node does not go on.

ghost use Rattle.std.specs.Prelude.{◌≡◌};
ghost use Rattle.tcertify.specs.declared.fault.Fault.TheVariants as faults;

use crate::stop::Stop;
use std::alloc::{AllocError, AllocFailed};

/// Why a call on a node does not go on.
#[derive(Clone, Copy, Debug, PartialEq, Eq)]
pub enum Fault {
    /// The step stops.
    Stops(Stop),
    /// The allocator refused, or a number would not fit. The call may have done a part of what it does.
    OutOfMemory,
}

impl From<Stop> for Fault {
    ghost from_gives = { λ stop fault. fault ≡ faults.Stops stop };

    fn from(stop: Stop) -> Fault {
        Fault::Stops(stop)
    }
}

impl From<AllocError> for Fault {
    ghost from_gives = { λ _ fault. fault ≡ faults.OutOfMemory };

    fn from(_error: AllocError) -> Fault {
        Fault::OutOfMemory
    }
}

impl<T: Drop> From<AllocFailed<T>> for Fault {
    ghost from_gives = { λ _ fault. fault ≡ faults.OutOfMemory };

    fn from(_error: AllocFailed<T>) -> Fault {
        Fault::OutOfMemory
    }
}
