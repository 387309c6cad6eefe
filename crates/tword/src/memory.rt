//! The memory of a node.

ghost use Rattle.std.specs.Prelude.{◌≡◌, ◌↔◌, ◌∷◌, [], Some, IfErr, IfOk, OnOk, IsErrOf, length, replicate, unwrap_or};
ghost use Rattle.std.specs.Prelude.{true};
ghost use Rattle.tword.specs.Accesses.{Changing, IsMemorySize};
ghost use Rattle.tword.specs.Actions.{or_break};
ghost use Rattle.tword.specs.Stores.{as_cells, cells, word_at, with_word, with_cells, byte_at};
ghost use Rattle.tword.specs.Touches.{Reads, Writes, span_break, word_break, byte_span, is_inside};

use crate::breaks::{Break, MemoryFault};
use crate::bytes::Bytes;
use crate::kind::Kind;
use crate::marks::Marks;
use crate::word::Word;
use std::alloc::Global;
use std::marker::Model;

/// The memory of a node: its bytes, and what kind of node it belongs to. Contracts see both.
#[derive(Drop)]
pub struct Memory {
    pub bytes: Bytes,
    pub kind: Kind,
}

impl Model for Memory {
    ghost use Rattle.std.specs.Prelude.{length};
    ghost use Rattle.tword.specs.Accesses.{IsMemorySize};
    ghost use Rattle.tword.specs.Memories.{NodeMemory};

    ghost Value = { NodeMemory };

    ghost view = { λ m. record { bytes = m.bytes; kind = m.kind } };

    ghost invariant = { λ m. IsMemorySize m.kind (length m.bytes) };
}

impl Memory {
    /// A memory of zeros, of a node of this kind. Its size is a multiple of 4 between `SMALLEST_MEMORY` and the
    /// greatest of a memory of this kind (own choice).
    ///
    /// # Errors
    /// `BadSize` for any other size, and else `OutOfMemory` where the allocator refuses.
    pub fn new(alloc: Global, size: u32, kind: Kind) -> Result<Memory, MemoryFault>
        ensures zeros { IfOk result (λ m. m ≡ record { bytes = replicate size (Some 0); kind = kind }) }
        ensures sized { OnOk result (IsMemorySize kind size) }
        ensures bad_size { IsErrOf result MemoryFault.BadSize ↔ ¬ IsMemorySize kind size }
    {
        let bytes = Bytes::new(alloc, size, kind)?;
        Ok(Memory { bytes, kind })
    }

    /// A memory of the same kind with the same bytes.
    ///
    /// # Errors
    /// `OutOfMemory` where the allocator refuses.
    pub fn try_copy(&self, alloc: Global) -> Result<Memory, MemoryFault>
        ensures same { IfOk result (λ m. m ≡ self.now) }
        ensures fault { IfErr result (λ fault. fault ≡ MemoryFault.OutOfMemory) }
    {
        let bytes = self.bytes.try_copy(alloc)?;
        Ok(Memory {
            bytes,
            kind: self.kind,
        })
    }

    /// The kind of the memory's node.
    #[inline(always)]
    pub fn kind(&self) -> Kind
        ensures { result ≡ self.now.kind }
    {
        self.kind
    }

    /// The number of bytes.
    #[inline(always)]
    pub fn size(&self) -> u32
        ensures is { result ≡ length self.now.bytes }
        ensures sized { IsMemorySize self.now.kind result }
    {
        self.bytes.size()
    }

    /// The word at an address. A word has its lowest byte first (the Compiler Writer's Guide).
    ///
    /// # Errors
    /// The first of `Unaligned`, `BadAddress`, `Reserved`, `InTransit`, `SavedWord` that holds of a read of the word
    /// (own choice of the checks).
    #[inline(always)]
    pub fn read_word(&self, marks: &Marks, address: Word) -> Result<Word, Break>
        ensures { result ≡ or_break (word_break (length self.now.bytes) marks.now Reads address)
            (word_at self.now.bytes address) }
    {
        self.bytes.read_word(marks, address)
    }

    /// Sets the word at an address.
    ///
    /// # Errors
    /// The first of `Unaligned`, `BadAddress`, `Reserved`, `InTransit`, `SavedWord` that holds of a write of the
    /// word; nothing is changed then.
    #[inline(always)]
    pub fn write_word(&mut self, marks: &Marks, address: Word, value: Word) -> Result<(), Break>
        ensures { Changing (word_break (length self.old.bytes) marks.now Writes address) self.old
            (record self.old { bytes = with_word self.old.bytes address value }) result self.new }
    {
        self.bytes.write_word(marks, address, value)
    }

    /// The byte at an address.
    ///
    /// # Errors
    /// The first of `BadAddress`, `Reserved`, `InTransit`, `SavedWord` that holds of a read of the byte.
    #[inline(always)]
    pub fn read_byte(&self, marks: &Marks, address: Word) -> Result<u8, Break>
        ensures { result ≡ or_break (span_break (length self.now.bytes) marks.now Reads (byte_span address))
            (unwrap_or (byte_at self.now.bytes address) 0) }
    {
        self.bytes.read_byte(marks, address)
    }

    /// Sets the byte at an address.
    ///
    /// # Errors
    /// The first of `BadAddress`, `Reserved`, `InTransit`, `SavedWord` that holds of a write of the byte; nothing is
    /// changed then.
    #[inline(always)]
    pub fn write_byte(&mut self, marks: &Marks, address: Word, value: u8) -> Result<(), Break>
        ensures { Changing (span_break (length self.old.bytes) marks.now Writes (byte_span address)) self.old
            (record self.old { bytes = with_cells self.old.bytes address (as_cells (value ∷ [])) }) result self.new }
    {
        self.bytes.write_byte(marks, address, value)
    }

    /// Copies bytes as if all were read before the first is written, for a caller that has checked both spans.
    pub fn copy(&mut self, from: Word, to: Word, size: u32)
        requires source { is_inside (length self.old.bytes) (record { start = from; size = size }) ≡ true }
        requires target { is_inside (length self.old.bytes) (record { start = to; size = size }) ≡ true }
        ensures { self.new ≡ record self.old { bytes = with_cells self.old.bytes to (cells self.old.bytes from size) } }
    {
        self.bytes.copy(from, to, size);
    }
}
