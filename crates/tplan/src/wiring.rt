//! What a wiring file says, and why a text is none.

use crate::event::Hold;
use crate::file_name::FileName;
use crate::plan::{SinkPlan, SourcePlan, Wire};
use std::alloc::{AllocError, AllocFailed};
use thiserror::Error;
use tword::{Items, Kind};

/// Why a text is no wiring. Where several hold, the first in this order is told.
#[derive(Clone, Copy, Debug, PartialEq, Eq, PartialOrd, Ord, Error)]
pub enum WiringFault {
    /// The allocator refused.
    #[error("out of memory")]
    OutOfMemory,
    /// The text is not TOML.
    #[error("the text is not TOML")]
    Syntax,
    /// A table has a key that its kind has not.
    #[error("there is an unknown key")]
    UnknownKey,
    /// A table lacks a key.
    #[error("a key is missing")]
    MissingKey,
    /// A value is not of its key's type.
    #[error("a value has the wrong type")]
    WrongType,
    /// The version is neither 1 nor 2.
    #[error("the version is neither 1 nor 2")]
    BadVersion,
    /// An integer is no number of 32 bits.
    #[error("an integer is outside 0 to 4294967295")]
    BadNumber,
    /// A message is not 1 to 4,096 bytes in pairs of hexadecimal digits.
    #[error("a message is not 1 to 4096 bytes in hexadecimal")]
    BadMessage,
    /// The kind of a node is neither 1 nor 2.
    #[error("the kind of a node is neither 1 nor 2")]
    BadKind,
}

/// A node of a wiring: the number of bytes of its memory, its kind and the name of its image.
#[derive(Drop)]
pub struct WiringNode {
    /// The number of bytes of the memory, a multiple of 4.
    pub memory: u32,
    pub kind: Kind,
    /// The name of the image's file, as the text has it.
    pub image: FileName,
}

/// What a wiring file says.
#[derive(Drop)]
pub struct Wiring {
    /// After how many instructions a low process may lose the processor: 1 to 65,536.
    pub timeslice: u32,
    pub nodes: Items<WiringNode>,
    pub wires: Items<Wire>,
    pub sources: Items<SourcePlan>,
    pub sinks: Items<SinkPlan>,
    pub holds: Items<Hold>,
}

impl From<AllocError> for WiringFault {
    ghost use Rattle.std.specs.Prelude.{◌≡◌};
    ghost use Rattle.tplan.specs.declared.wiring.WiringFault.TheVariants.{OutOfMemory};

    ghost from_gives = { λ _ fault. fault ≡ OutOfMemory };

    fn from(_error: AllocError) -> WiringFault {
        WiringFault::OutOfMemory
    }
}

impl<T: Drop> From<AllocFailed<T>> for WiringFault {
    ghost use Rattle.std.specs.Prelude.{◌≡◌};
    ghost use Rattle.tplan.specs.declared.wiring.WiringFault.TheVariants.{OutOfMemory};

    ghost from_gives = { λ _ fault. fault ≡ OutOfMemory };

    fn from(_error: AllocFailed<T>) -> WiringFault {
        WiringFault::OutOfMemory
    }
}
