//! Why a test fails.

use std::alloc::{AllocError, AllocFailed};
use tfiles::WriteFault;
use tword::MemoryFault;

/// Why a test fails.
#[derive(Clone, Copy, Debug)]
pub enum Fault {
    /// Memory was refused, beside the calls that are looked at.
    Memory,
    /// What is wrong.
    Wrong(&'static str),
}

impl From<AllocError> for Fault {
    fn from(_refused: AllocError) -> Fault {
        Fault::Memory
    }
}

impl<T: Drop> From<AllocFailed<T>> for Fault {
    fn from(_refused: AllocFailed<T>) -> Fault {
        Fault::Memory
    }
}

/// No size here is one that a memory may not have.
impl From<MemoryFault> for Fault {
    fn from(_refused: MemoryFault) -> Fault {
        Fault::Memory
    }
}

/// A text is only written into memory.
impl From<WriteFault> for Fault {
    fn from(_fault: WriteFault) -> Fault {
        Fault::Memory
    }
}

/// Holds, or tells what is wrong.
pub fn require(holds: bool, what: &'static str) -> Result<(), Fault> {
    if holds {
        Ok(())
    } else {
        Err(Fault::Wrong(what))
    }
}
