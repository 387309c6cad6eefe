//! The bytes of a word, of which some may not be known.

ghost use Rattle.std.specs.Prelude.{◌≡◌, ◌<◌, ◌==◌, ◌∷◌, [], true, is_some, slice_set, if◌then◌else◌};
ghost use Rattle.std.specs.Int.{w32, from_le_bytes, to_le_bytes};
ghost use Rattle.tword.specs.Stores.{shown};
ghost use Rattle.tprocesses.specs.Values.{unknown};
ghost use Rattle.tprocesses.specs.Touching.{forgotten, kept};
ghost use Rattle.tprocesses.specs.Changes.{are_known};
ghost use Rattle.tprocesses.specs.Performing.{bytes_if};
ghost use Rattle.tcertify.specs.Cells.{cell_at, cells_of, has_bit};

use tword::Word;

/// The four bytes of a word, the lowest one first, and which of them are known.
#[derive(Clone, Copy)]
pub struct Cells {
    /// The bytes. What stands for one that is not known does not matter.
    pub bytes: [u8; 4],
    /// Bit k is set where the byte k is known.
    pub known: u8,
}

impl Cells {
    /// Four bytes of which none is known.
    #[inline(always)]
    pub fn unknown() -> Cells
        ensures { cells_of result ≡ unknown }
    {
        Cells {
            bytes: [0; 4],
            known: 0,
        }
    }

    /// The four bytes of a number, all of them known.
    #[inline(always)]
    pub fn known(value: Word) -> Cells
        ensures { cells_of result ≡ bytes_if true (to_le_bytes w32 value) }
    {
        Cells {
            bytes: value.get().to_le_bytes(),
            known: 15,
        }
    }

    /// The four bytes of a number, or as many that are not known.
    #[inline(always)]
    pub fn known_if(known: bool, value: Word) -> Cells
        ensures { cells_of result ≡ bytes_if known (to_le_bytes w32 value) }
    {
        if known {
            Cells::known(value)
        } else {
            Cells::unknown()
        }
    }

    /// The bytes as they are, or as many that are not known.
    #[inline(always)]
    pub fn kept_if(self, keeps: bool) -> Cells
        ensures { cells_of result ≡ (if keeps then kept else forgotten) (cells_of self) }
    {
        if keeps { self } else { Cells::unknown() }
    }

    /// Whether a byte is known.
    #[inline(always)]
    fn is_known(&self, number: u8) -> bool
        requires { number < 4 }
        ensures { result ≡ has_bit self.now.known number }
    {
        (self.known >> number) % 2 == 1
    }

    /// A byte, where it is known.
    #[inline(always)]
    pub fn byte(&self, number: u8) -> Option<u8>
        requires { number < 4 }
        ensures { result ≡ cell_at self.now number }
    {
        if self.is_known(number) {
            Some(self.bytes[usize::from(number)])
        } else {
            None
        }
    }

    /// Whether all bytes are known.
    #[inline(always)]
    pub fn are_known(&self) -> bool
        ensures { result ≡ are_known (cells_of self.now) }
    {
        self.known == 15
            || (self.is_known(0) && self.is_known(1) && self.is_known(2) && self.is_known(3))
    }

    /// The word that the bytes stand for, where an unknown one reads as 0.
    #[inline(always)]
    pub fn word(&self) -> Word
        ensures { result ≡ from_le_bytes w32 (shown (cells_of self.now)) }
    {
        if self.known == 15 {
            Word::new(u32::from_le_bytes(self.bytes))
        } else {
            self.partly_known_word()
        }
    }

    /// The word, byte by byte.
    #[cold]
    #[inline(never)]
    fn partly_known_word(&self) -> Word
        ensures { result ≡ from_le_bytes w32 (shown (cells_of self.now)) }
    {
        let lowest = self.byte(0).unwrap_or(0);
        let second = self.byte(1).unwrap_or(0);
        let third = self.byte(2).unwrap_or(0);
        let highest = self.byte(3).unwrap_or(0);
        Word::new(u32::from_le_bytes([lowest, second, third, highest]))
    }

    /// Four bytes, each where it is known.
    #[inline(always)]
    fn of_bytes(
        lowest: Option<u8>,
        second: Option<u8>,
        third: Option<u8>,
        highest: Option<u8>,
    ) -> Cells
        ensures { cells_of result ≡ lowest ∷ second ∷ third ∷ highest ∷ [] }
    {
        let known = bit(&lowest) + 2 * bit(&second) + 4 * (bit(&third) + 2 * bit(&highest));
        let first = lowest.unwrap_or(0);
        let next = second.unwrap_or(0);
        let upper = third.unwrap_or(0);
        let last = highest.unwrap_or(0);
        Cells {
            bytes: [first, next, upper, last],
            known,
        }
    }

    /// A byte, or another one in its place.
    #[inline(always)]
    fn byte_or(&self, place: u8, number: u8, cell: Option<u8>) -> Option<u8>
        requires { place < 4 }
        ensures { result ≡ (if place == number then cell else cell_at self.now place) }
    {
        if place == number {
            cell
        } else {
            self.byte(place)
        }
    }

    /// The bytes with one of them replaced.
    #[inline(always)]
    pub fn with_byte(&self, number: u8, cell: Option<u8>) -> Cells
        requires { number < 4 }
        ensures { cells_of result ≡ slice_set (cells_of self.now) number cell }
    {
        let lowest = self.byte_or(0, number, cell);
        let second = self.byte_or(1, number, cell);
        let third = self.byte_or(2, number, cell);
        let highest = self.byte_or(3, number, cell);
        Cells::of_bytes(lowest, second, third, highest)
    }
}

/// 1 where a byte is known, else 0.
#[inline(always)]
fn bit(cell: &Option<u8>) -> u8
    ensures is { result ≡ (if is_some cell.now then 1 else 0) }
    ensures low { result < 2 }
{
    u8::from(cell.is_some())
}
