//! What a benchmark answers.

use std::alloc::AllocError;
use tplan::BuildFault;
use tword::{Break, MemoryFault};

/// What was done, and a checksum of what came out.
#[derive(Clone, Copy)]
pub struct Answer {
    /// How many operations were done.
    pub operations: u64,
    pub sum: u32,
}

/// What went wrong.
#[derive(Clone, Copy)]
pub struct Fault(pub &'static str);

impl From<AllocError> for Fault {
    fn from(_refused: AllocError) -> Fault {
        Fault("memory is refused")
    }
}

impl From<MemoryFault> for Fault {
    fn from(_fault: MemoryFault) -> Fault {
        Fault("a memory cannot be made")
    }
}

impl From<Break> for Fault {
    fn from(_broken: Break) -> Fault {
        Fault("an access breaks a rule")
    }
}

impl From<BuildFault> for Fault {
    fn from(_fault: BuildFault) -> Fault {
        Fault("a net cannot be built")
    }
}

/// Where a checksum begins: FNV-1a's number.
pub const BEGIN: u32 = 2_166_136_261;

/// The next number of a checksum.
pub fn mixed(sum: u32, word: u32) -> u32 {
    (sum ^ word).wrapping_mul(16_777_619)
}

/// The checksum of bytes, behind another.
pub fn checksum(sum: u32, bytes: &[u8]) -> u32 {
    let mut sum = sum;
    for byte in bytes {
        sum = mixed(sum, u32::from(*byte));
    }
    sum
}
