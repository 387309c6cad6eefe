//! The bytes of a memory.

ghost use Rattle.std.specs.Prelude.{◌≡◌, ◌↔◌, ◌≤◌, ◌<◌, ◌+◌, ◌/◌, ◌∷◌, [], ◌++◌, take, drop, Some, None, IfOk, OnOk};
ghost use Rattle.std.specs.Prelude.{IfSome, IsErrOf, false, slice_index};
ghost use Rattle.std.specs.Prelude.{length, replicate, slice_range, unwrap_or, is_some, true, ◌&&◌};
ghost use Rattle.tword.specs.Accesses.{Changing, IsMemorySize};
ghost use Rattle.tword.specs.declared.kind.Kind.TheVariants.{Two};
ghost use Rattle.tword.specs.Actions.{or_break};
ghost use Rattle.std.specs.Int.{w32, from_le_bytes, to_le_bytes};
ghost use Rattle.tword.specs.Stores.{as_cells, word_at, with_word, cells, with_cells, byte_at};
ghost use Rattle.tword.specs.Stores as spec;
ghost use Rattle.tword.specs.Touches.{Reads, Writes, span_break, word_break, is_inside, word_span, byte_span};
ghost use Rattle.tword.specs.Touches.{is_aligned};
ghost use Rattle.tword.specs.Open.{AreOpenCounts, is_clear};
ghost use Rattle.tword.specs.Words.{mem_start, minus, most_neg};

use crate::breaks::{Break, MemoryFault};
use crate::kind::Kind;
use crate::limits::{CLOSED, MEM_START, MOST_NEG, SMALLEST_MEMORY};
use crate::marks::Marks;
use crate::span::Span;
use crate::word::Word;
use byteorder::{ByteOrder, LittleEndian};
use std::alloc::{AllocError, Global};
use std::marker::Model;

/// The bytes of a node's memory, from address #80000000 on. Contracts see them as a store whose cells are all there.
#[derive(Drop)]
pub struct Bytes {
    bytes: Vec<u8>,
    /// The number of bytes that programs may use: all but those below `MEM_START`.
    open: u32,
}

impl Model for Bytes {
    ghost use Rattle.std.specs.Prelude.{◌≡◌, ◌+◌, length};
    ghost use Rattle.tword.specs.Stores.{Store, as_cells};
    ghost use Rattle.tword.specs.Accesses.{IsMemorySize};
    ghost use Rattle.tword.specs.declared.kind.Kind.TheVariants.{Two};

    ghost Value = { Store };

    ghost view = { λ m. as_cells m.bytes.items };

    ghost invariant = { λ m. IsMemorySize Two (length m.bytes.items) × (m.open + 72 ≡ length m.bytes.items) };
}

impl Bytes {
    /// A memory of zeros. The size is a multiple of 4 between `SMALLEST_MEMORY` and the greatest of a memory of this
    /// kind (own choice).
    ///
    /// # Errors
    /// `BadSize` for any other size, and else `OutOfMemory` where the allocator refuses.
    pub fn new(alloc: Global, size: u32, kind: Kind) -> Result<Bytes, MemoryFault>
        ensures zeros { IfOk result (λ m. m ≡ replicate size (Some 0)) }
        ensures sized { OnOk result (IsMemorySize kind size) }
        ensures bad_size { IsErrOf result MemoryFault.BadSize ↔ ¬ IsMemorySize kind size }
    {
        if size < SMALLEST_MEMORY || kind.largest_memory() < size || size % 4 != 0 {
            return Err(MemoryFault::BadSize);
        }
        Ok(Bytes {
            bytes: vec![in alloc; 0; size as usize]?,
            open: size - CLOSED,
        })
    }

    /// A copy of the bytes.
    ///
    /// # Errors
    /// Where the allocator refuses.
    pub fn try_copy(&self, alloc: Global) -> Result<Bytes, AllocError>
        ensures { IfOk result (λ m. m ≡ self.now) }
    {
        Ok(Bytes {
            bytes: Vec::from_slice(alloc, self.bytes.as_slice())?,
            open: self.open,
        })
    }

    /// The number of bytes.
    #[inline(always)]
    pub fn size(&self) -> u32
        ensures is { result ≡ length self.now }
        ensures sized { IsMemorySize Two result }
    {
        self.bytes.len() as u32
    }

    /// The number of bytes that programs may use: those from `MEM_START` on.
    #[inline(always)]
    pub(crate) fn open_size(&self) -> u32
        ensures is { result + 72 ≡ length self.now }
        ensures sized { IsMemorySize Two (length self.now) }
    {
        self.open
    }

    /// The bytes of the memory, the one of the least address first.
    #[inline(always)]
    pub fn as_slice(&self) -> &[u8]
        ensures bytes { as_cells result.now ≡ self.now }
        ensures sized { IsMemorySize Two (length result.now) }
    {
        self.bytes.as_slice()
    }

    /// The word at an address. A word has its lowest byte first (the Compiler Writer's Guide).
    ///
    /// # Errors
    /// The first of `Unaligned`, `BadAddress`, `Reserved`, `InTransit`, `SavedWord` that holds of a read of the word
    /// (own choice of the checks).
    #[inline(always)]
    pub fn read_word(&self, marks: &Marks, address: Word) -> Result<Word, Break>
        ensures { result ≡ or_break (word_break (length self.now) marks.now Reads address)
            (word_at self.now address) }
    {
        self.may_read_word(marks, address)?;
        Ok(self.word(address))
    }

    /// The word at an address, for a row that may go on to write it: checked as a write.
    ///
    /// # Errors
    /// The breaks of `write_word`.
    #[inline(always)]
    pub fn take_word(&self, marks: &Marks, address: Word) -> Result<Word, Break>
        ensures { result ≡ or_break (word_break (length self.now) marks.now Writes address)
            (word_at self.now address) }
    {
        self.may_write_word(marks, address)?;
        let word = self.word(address);
        Ok(word)
    }

    /// Sets the word at an address.
    ///
    /// # Errors
    /// The first of `Unaligned`, `BadAddress`, `Reserved`, `InTransit`, `SavedWord` that holds of a write of the
    /// word; nothing is changed then.
    #[inline(always)]
    pub fn write_word(&mut self, marks: &Marks, address: Word, value: Word) -> Result<(), Break>
        ensures changes { Changing (word_break (length self.old) marks.now Writes address) self.old
            (with_word self.old address value) result self.new }
        ensures sized { length self.new ≡ length self.old }
    {
        self.may_write_word(marks, address)?;
        self.set_word(address, value);
        Ok(())
    }

    /// The byte at an address.
    ///
    /// # Errors
    /// The first of `BadAddress`, `Reserved`, `InTransit`, `SavedWord` that holds of a read of the byte.
    #[inline(always)]
    pub fn read_byte(&self, marks: &Marks, address: Word) -> Result<u8, Break>
        ensures { result ≡ or_break (span_break (length self.now) marks.now Reads (byte_span address))
            (unwrap_or (byte_at self.now address) 0) }
    {
        self.may_read(marks, address, 1)?;
        Ok(self.byte(address))
    }

    /// Sets the byte at an address.
    ///
    /// # Errors
    /// The first of `BadAddress`, `Reserved`, `InTransit`, `SavedWord` that holds of a write of the byte; nothing is
    /// changed then.
    #[inline(always)]
    pub fn write_byte(&mut self, marks: &Marks, address: Word, value: u8) -> Result<(), Break>
        ensures changes { Changing (span_break (length self.old) marks.now Writes (byte_span address)) self.old
            (with_cells self.old address (as_cells (value ∷ []))) result self.new }
        ensures sized { length self.new ≡ length self.old }
    {
        self.may_write(marks, address, 1)?;
        self.set_byte(address, value);
        Ok(())
    }

    /// The place of a word that programs may use, among the counts of such words, where its count shows that no claim
    /// has it.
    #[inline(always)]
    #[tactic(auto, unfolding(crate::specs::Open::is_clear))]
    fn clear_place(counts: &[u16], address: Word) -> Option<usize>
        ensures is { IfSome result (λ place. (place ≡ minus address mem_start) × (place / 4 < length counts.now)
            × (slice_index counts.now (place / 4) ≡ 0)) }
        ensures found { is_some result ≡ is_clear counts.now address }
    {
        let place = address.get().wrapping_sub(MEM_START) as usize;
        let slot = place / 4;
        if slot < counts.len() && counts[slot] == 0 {
            Some(place)
        } else {
            None
        }
    }

    /// The byte at an address, where the counts show at once that a read of it passes.
    #[inline(always)]
    pub fn open_byte(&self, marks: &Marks, counts: &[u16], address: Word) -> Option<u8>
        requires { AreOpenCounts counts.now (length self.now) marks.now }
        ensures free { IfSome result (λ byte. span_break (length self.now) marks.now Reads (byte_span address) ≡ None) }
        ensures is { IfSome result (λ byte. byte_at self.now address ≡ Some byte) }
        ensures found { is_some result ≡ is_clear counts.now address }
    {
        let place = Bytes::clear_place(counts, address)?;
        Some(self.bytes[place + CLOSED as usize])
    }

    /// The word at an address, where the counts show at once that a read of it passes.
    #[inline(always)]
    pub fn open_word(&self, marks: &Marks, counts: &[u16], address: Word) -> Option<Word>
        requires { AreOpenCounts counts.now (length self.now) marks.now }
        ensures free { IfSome result (λ word. word_break (length self.now) marks.now Reads address ≡ None) }
        ensures is { IfSome result (λ word. word ≡ word_at self.now address) }
        ensures found { is_some result ≡ (is_aligned address && is_clear counts.now address) }
    {
        let place = Bytes::clear_place(counts, address)?;
        if address.get() % 4 != 0 {
            return None;
        }
        Some(Word::new(word_in(self.bytes.as_slice(), place + CLOSED as usize)))
    }

    /// Sets the byte at an address, where the counts show at once that a write of it passes: whether it was set.
    #[inline(always)]
    pub fn set_open_byte(&mut self, marks: &Marks, counts: &[u16], address: Word, value: u8) -> bool
        requires { AreOpenCounts counts.now (length self.old) marks.now }
        ensures free { result ≡ true → span_break (length self.old) marks.now Writes (byte_span address) ≡ None }
        ensures set { result ≡ true → self.new ≡ with_cells self.old address (as_cells (value ∷ [])) }
        ensures kept { result ≡ false → self.new ≡ self.old }
        ensures sized { length self.new ≡ length self.old }
        ensures done { result ≡ is_clear counts.now address }
    {
        let Some(place) = Bytes::clear_place(counts, address) else {
            return false;
        };
        self.bytes[place + CLOSED as usize] = value;
        true
    }

    /// Sets the word at an address, where the counts show at once that a write of it passes: whether it was set.
    #[inline(always)]
    pub fn set_open_word(
        &mut self,
        marks: &Marks,
        counts: &[u16],
        address: Word,
        value: Word,
    ) -> bool
        requires { AreOpenCounts counts.now (length self.old) marks.now }
        ensures free { result ≡ true → word_break (length self.old) marks.now Writes address ≡ None }
        ensures set { result ≡ true → self.new ≡ with_word self.old address value }
        ensures kept { result ≡ false → self.new ≡ self.old }
        ensures sized { length self.new ≡ length self.old }
        ensures done { result ≡ (is_aligned address && is_clear counts.now address) }
    {
        let Some(place) = Bytes::clear_place(counts, address) else {
            return false;
        };
        if address.get() % 4 != 0 {
            return false;
        }
        put_word(
            self.bytes.as_mut_slice(),
            place + CLOSED as usize,
            value.get(),
        );
        true
    }

    /// Whether the counts show at once that a write of the word at an address passes.
    #[inline(always)]
    pub fn is_clear_word(&self, marks: &Marks, counts: &[u16], address: Word) -> bool
        requires { AreOpenCounts counts.now (length self.now) marks.now }
        ensures free { result ≡ true → word_break (length self.now) marks.now Writes address ≡ None }
        ensures inside { result ≡ true → is_inside (length self.now) (word_span address) ≡ true }
        ensures found { result ≡ (is_aligned address && is_clear counts.now address) }
    {
        // Asking for the size lets the prover know that no memory ends at the last address.
        let _ = self.size();
        if address.get() % 4 != 0 {
            return false;
        }
        let Some(_place) = Bytes::clear_place(counts, address) else {
            return false;
        };
        true
    }

    /// The word at an address, for a caller that has checked it.
    #[inline(always)]
    pub fn word(&self, address: Word) -> Word
        requires { is_inside (length self.now) (word_span address) ≡ true }
        ensures { result ≡ word_at self.now address }
    {
        Word::new(word_in(self.bytes.as_slice(), place(address)))
    }

    /// Sets the word at an address, for a caller that has checked it.
    #[inline(always)]
    pub fn set_word(&mut self, address: Word, value: Word)
        requires { is_inside (length self.old) (word_span address) ≡ true }
        ensures set { self.new ≡ with_word self.old address value }
        ensures sized { length self.new ≡ length self.old }
    {
        put_word(self.bytes.as_mut_slice(), place(address), value.get());
    }

    /// The byte at an address, for a caller that has checked it.
    #[inline(always)]
    pub fn byte(&self, address: Word) -> u8
        requires { is_inside (length self.now) (byte_span address) ≡ true }
        ensures { byte_at self.now address ≡ Some result }
    {
        self.bytes[place(address)]
    }

    /// The byte at an address, and `None` only outside the memory.
    #[inline]
    pub fn byte_at(&self, address: Word) -> Option<u8>
        ensures byte { result ≡ byte_at self.now address }
        ensures there { is_some result ≡ is_inside (length self.now) (byte_span address) }
    {
        if MOST_NEG <= address.get() && address.get() - MOST_NEG < self.size() {
            Some(self.byte(address))
        } else {
            None
        }
    }

    /// Sets the byte at an address, for a caller that has checked it.
    #[inline(always)]
    pub fn set_byte(&mut self, address: Word, value: u8)
        requires { is_inside (length self.old) (byte_span address) ≡ true }
        ensures set { self.new ≡ with_cells self.old address (as_cells (value ∷ [])) }
        ensures sized { length self.new ≡ length self.old }
    {
        self.bytes[place(address)] = value;
    }

    /// Copies bytes as if all were read before the first is written, for a caller that has checked both spans.
    pub fn copy(&mut self, from: Word, to: Word, size: u32)
        requires source { is_inside (length self.old) (record { start = from; size = size }) ≡ true }
        requires target { is_inside (length self.old) (record { start = to; size = size }) ≡ true }
        ensures copied { self.new ≡ with_cells self.old to (cells self.old from size) }
        ensures sized { length self.new ≡ length self.old }
    {
        if size == 0 {
            return;
        }
        let count = size as usize;
        let source = place(from);
        self.bytes
            .as_mut_slice()
            .copy_within(source..source + count, place(to));
    }

    /// Puts bytes at an address, for a caller that has checked the span.
    pub fn load(&mut self, start: Word, bytes: &[u8])
        requires { is_inside (length self.old) (record { start = start; size = length bytes.now }) ≡ true }
        ensures loaded { self.new ≡ with_cells self.old start (as_cells bytes.now) }
        ensures sized { length self.new ≡ length self.old }
    {
        if bytes.is_empty() {
            return;
        }
        let first = place(start);
        put_bytes(self.bytes.as_mut_slice(), first, bytes);
    }
}

/// How far an address lies above the least one, where it does not lie below.
#[inline(always)]
fn place(address: Word) -> usize
    requires { most_neg ≤ address }
    ensures { result ≡ spec.place address }
{
    address.get().wrapping_sub(MOST_NEG) as usize
}

/// Writes bytes among bytes.
fn put_bytes(all: &mut [u8], at: usize, bytes: &[u8])
    requires { at + length bytes.now ≤ length all.old }
    ensures { all.new ≡ take at all.old ++ bytes.now ++ drop (at + length bytes.now) all.old }
{
    all[at..at + bytes.len()].copy_from_slice(bytes);
}

/// The word that lies in bytes, the lowest byte first.
#[inline(always)]
fn word_in(bytes: &[u8], at: usize) -> u32
    requires { at + 4 ≤ length bytes.now }
    ensures { result ≡ from_le_bytes w32 (slice_range bytes.now at (at + 4)) }
{
    LittleEndian::read_u32(&bytes[at..at + 4])
}

/// Writes a word into bytes, the lowest byte first.
#[inline(always)]
fn put_word(bytes: &mut [u8], at: usize, value: u32)
    requires { at + 4 ≤ length bytes.old }
    ensures { bytes.new ≡ take at bytes.old ++ to_le_bytes w32 value ++ drop (at + 4) bytes.old }
{
    LittleEndian::write_u32(&mut bytes[at..at + 4], value);
}
