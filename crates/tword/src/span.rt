//! Bytes in a row.

ghost use Rattle.std.specs.Prelude.{◌≡◌, ◌+◌, ◌<◌, ◌^◌};
ghost use Rattle.tword.specs.Claims.{overlap, saved_words};

use crate::word::Word;

/// Some bytes in a row: `size` of them, from the address `start` on.
#[derive(Clone, Copy, Debug, PartialEq, Eq)]
pub struct Span {
    /// The address of the first byte.
    pub start: Word,
    /// The number of bytes.
    pub size: u32,
}

impl Span {
    /// The three words below a workspace.
    #[inline]
    pub fn saved_words(workspace: Word) -> Span
        ensures { result ≡ saved_words workspace }
    {
        Span {
            start: workspace.below(3),
            size: 12,
        }
    }

    /// The address of the span's first byte and that behind its last, as whole numbers.
    #[inline(always)]
    pub(crate) fn bounds(&self) -> (u64, u64)
        ensures first { result.0 ≡ self.now.start }
        ensures behind { result.1 ≡ self.now.start + self.now.size }
        ensures within { result.1 < 2 ^ 33 }
    {
        let start = u64::from(self.start.get());
        (start, start + u64::from(self.size))
    }

    /// Whether the span has a byte in common with another one.
    #[inline]
    pub fn overlaps(&self, other: &Span) -> bool
        ensures { result ≡ overlap self.now other.now }
    {
        let (size, other_size) = (self.size, other.size);
        let (start, end) = self.bounds();
        let (other_start, other_end) = other.bounds();
        0 < size && 0 < other_size && start < other_end && other_start < end
    }
}
