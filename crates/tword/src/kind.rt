//! The kinds of nodes.

ghost use Rattle.std.specs.Prelude.{◌≡◌};
ghost use Rattle.tword.specs.Limits as spec;

use crate::limits::{LARGEST_MEMORY_ONE, LARGEST_MEMORY_TWO};

/// What kind a node is of: how much memory it may have, and which operations.
#[derive(Clone, Copy, Debug, PartialEq, Eq)]
pub enum Kind {
    /// The T414, with a memory of at most `LARGEST_MEMORY_ONE` bytes.
    One,
    /// The T414 with `dup`, an operation of the T425 and the T800, and with a memory of at most `LARGEST_MEMORY_TWO`
    /// bytes (own choice).
    Two,
}

impl Kind {
    /// The greatest number of bytes of a memory of this kind.
    #[inline]
    pub fn largest_memory(self) -> u32
        ensures { result ≡ spec.largest_memory self }
    {
        match self {
            Kind::One => LARGEST_MEMORY_ONE,
            Kind::Two => LARGEST_MEMORY_TWO,
        }
    }
}
