//! The bytes of a node's memory with the claims on it.

ghost use Rattle.std.specs.Prelude.{ℕ, [], ◌∷◌, ◌≡◌, ◌<◌, ◌≤◌, ◌+◌, ◌↔◌, length, not, true, None, Some};
ghost use Rattle.std.specs.Prelude.{IfErr, IfOk, OnOk};
ghost use Rattle.std.specs.Prelude.{false, is_some, replicate, IsErrOf};
ghost use Rattle.tword.specs.Accesses.{Changing, Frees, IsMemorySize, no_claims, with_output, with_input};
ghost use Rattle.tword.specs.Accesses.{without_output, without_input};
ghost use Rattle.tword.specs.declared.breaks.Break.TheVariants.{SavedWord};
ghost use Rattle.tword.specs.Stores.{word_at, with_word, with_cells, cells, as_cells, byte_at};
ghost use Rattle.tword.specs.Claims.{saving, has_saved, is_input, saved_words, overlap};
ghost use Rattle.tword.specs.Touches.{Reads, Writes, claim_break, span_break, word_break, copy_break};
ghost use Rattle.tword.specs.Touches.{deschedule_break};
ghost use Rattle.tword.specs.Touches.{is_inside, byte_span};
ghost use Rattle.tword.specs.Words.{word_below};
ghost use Rattle.tword.specs.Actions.{or_break, is_slot, unmet};
ghost use Rattle.tproc.specs.Placement.{IsWorkspace};
ghost use Rattle.tproc.specs.Checks.{KeepsShape, may_touch};
ghost use Rattle.tword.specs.Limits.{largest_memory, most_processes};
ghost use Rattle.tword.specs.declared.kind.Kind.TheVariants.{Two};
ghost use Rattle.tcode.specs.Known.{AreFetched};

use std::alloc::Global;
use tcode::CodeTable;
use tword::{Break, Kind, Marks, Memory, MemoryFault, Span, Word};

/// A memory with its claims and its decoded code, of which each change forgets what it touches. Of each change there is
/// one call that checks it, or one for a caller that has checked it.
#[derive(Drop)]
pub struct ClaimedMemory {
    pub memory: Memory,
    pub marks: Marks,
    pub codes: CodeTable,
    ghost size: { length memory.bytes ≤ largest_memory Two },
    ghost inside: { (w : ℕ) → has_saved marks w ≡ true → is_inside (length memory.bytes) (saved_words w) ≡ true },
    ghost fetched: { AreFetched codes.entries.items memory.bytes marks },
}

/// Whether a span keeps clear of the three words below a workspace.
#[inline]
fn keep_clear(workspace: Word, start: Word, size: u32) -> Result<(), Break>
    ensures { result
        ≡ or_break (unmet (not (overlap (record { start = start; size = size }) (saved_words workspace))) SavedWord)
        tt }
{
    let span = Span { start, size };
    if span.overlaps(&Span::saved_words(workspace)) {
        Err(Break::SavedWord)
    } else {
        Ok(())
    }
}

impl ClaimedMemory {
    /// A memory of this many bytes, all 0, and no claims, for a node of a kind: no other call takes memory.
    ///
    /// # Errors
    /// `BadSize` for a size that no memory of the kind has, else `OutOfMemory` where the allocator refuses.
    pub fn new(alloc: Global, size: u32, kind: Kind) -> Result<ClaimedMemory, MemoryFault>
        ensures zeros { IfOk result
            (λ claimed. claimed.memory ≡ record { bytes = replicate size (Some 0); kind = kind }) }
        ensures free { IfOk result (λ claimed. claimed.marks ≡ no_claims) }
        ensures sized { OnOk result (IsMemorySize kind size) }
        ensures bad_size { IsErrOf result MemoryFault.BadSize ↔ ¬ IsMemorySize kind size }
    {
        let mut claimed = ClaimedMemory::without_codes(alloc, size, kind)?;
        claimed.codes = CodeTable::new(alloc, size)?;
        Ok(claimed)
    }

    /// A memory as `new` makes it, but with no room for decoded code.
    ///
    /// # Errors
    /// `BadSize` for a size that no memory of the kind has, else `OutOfMemory` where the allocator refuses.
    pub(crate) fn without_codes(
        alloc: Global,
        size: u32,
        kind: Kind,
    ) -> Result<ClaimedMemory, MemoryFault>
        ensures zeros { IfOk result
            (λ claimed. claimed.memory ≡ record { bytes = replicate size (Some 0); kind = kind }) }
        ensures free { IfOk result (λ claimed. claimed.marks ≡ no_claims) }
        ensures sized { OnOk result (IsMemorySize kind size) }
        ensures bad_size { IsErrOf result MemoryFault.BadSize ↔ ¬ IsMemorySize kind size }
    {
        let memory = Memory::new(alloc, size, kind)?;
        let marks = Marks::new(alloc, size)?;
        let codes = CodeTable::without_room(alloc);
        Ok(ClaimedMemory {
            memory,
            marks,
            codes,
        })
    }

    /// A copy of the memory and its claims, with no room for decoded code.
    ///
    /// # Errors
    /// `OutOfMemory` where the allocator refuses.
    pub fn try_copy(&self, alloc: Global) -> Result<ClaimedMemory, MemoryFault>
        ensures memory { IfOk result (λ claimed. claimed.memory ≡ self.now.memory) }
        ensures marks { IfOk result (λ claimed. claimed.marks ≡ self.now.marks) }
        ensures fault { IfErr result (λ fault. fault ≡ MemoryFault.OutOfMemory) }
    {
        let memory = self.memory.try_copy(alloc)?;
        let marks = self.marks.try_copy(alloc)?;
        let codes = CodeTable::without_room(alloc);
        Ok(ClaimedMemory {
            memory,
            marks,
            codes,
        })
    }

    /// Whether the words of a workspace are saved.
    #[inline]
    pub fn has_saved(&self, workspace: Word) -> bool
        ensures { result ≡ has_saved self.now.marks workspace }
    {
        self.marks.has_saved(workspace)
    }

    /// The word at an address.
    pub fn read_word(&self, address: Word) -> Result<Word, Break>
        ensures { result ≡ or_break (word_break (length self.now.memory.bytes) self.now.marks Reads address)
            (word_at self.now.memory.bytes address) }
    {
        self.memory.read_word(&self.marks, address)
    }

    /// The word at an address that may be written later.
    pub fn take_word(&self, address: Word) -> Result<Word, Break>
        ensures { result ≡ or_break (word_break (length self.now.memory.bytes) self.now.marks Writes address)
            (word_at self.now.memory.bytes address) }
    {
        self.memory.bytes.take_word(&self.marks, address)
    }

    /// Sets the word at an address.
    pub fn write_word(&mut self, address: Word, value: Word) -> Result<(), Break>
        ensures change { Changing (word_break (length self.old.memory.bytes) self.old.marks Writes address)
            self.old.memory.bytes (with_word self.old.memory.bytes address value) result self.new.memory.bytes }
        ensures shape { KeepsShape self.old.memory self.new.memory }
        ensures claims { self.new.marks ≡ self.old.marks }
    {
        self.may_write_word(address)?;
        self.set_word(address, value);
        Ok(())
    }

    /// Whether the word at an address may be written.
    pub fn may_write_word(&self, address: Word) -> Result<(), Break>
        ensures { result ≡ or_break (word_break (length self.now.memory.bytes) self.now.marks Writes address) tt }
    {
        self.memory.bytes.may_write_word(&self.marks, address)
    }

    /// Whether the word at an address may be written once the words of a workspace are saved.
    pub fn may_write_word_beside(&self, workspace: Word, address: Word) -> Result<(), Break>
        ensures { result
            ≡ or_break (word_break (length self.now.memory.bytes) (saving workspace self.now.marks) Writes address) tt }
    {
        self.may_write_word(address)?;
        keep_clear(workspace, address, 4)
    }

    /// Sets a word that may be written.
    #[tactic(auto, using(crate::proofs::Touching::word_inside))]
    pub fn set_word(&mut self, address: Word, value: Word)
        requires { word_break (length self.old.memory.bytes) self.old.marks Writes address ≡ None }
        ensures cells { self.new.memory.bytes ≡ with_word self.old.memory.bytes address value }
        ensures shape { KeepsShape self.old.memory self.new.memory }
        ensures claims { self.new.marks ≡ self.old.marks }
    {
        self.memory.bytes.set_word(address, value);
        self.codes.forget(address, 4);
    }

    /// Whether some bytes may be read.
    pub fn may_read(&self, start: Word, size: u32) -> Result<(), Break>
        ensures { result ≡ may_touch (length self.now.memory.bytes) self.now.marks Reads start size }
    {
        self.memory.bytes.may_read(&self.marks, start, size)
    }

    /// Whether some bytes may be read once the words of a workspace are saved.
    pub fn may_read_beside(&self, workspace: Word, start: Word, size: u32) -> Result<(), Break>
        ensures { result ≡ may_touch (length self.now.memory.bytes) (saving workspace self.now.marks) Reads start size }
    {
        self.may_read(start, size)?;
        keep_clear(workspace, start, size)
    }

    /// Whether some bytes may be written.
    pub fn may_write(&self, start: Word, size: u32) -> Result<(), Break>
        ensures { result ≡ may_touch (length self.now.memory.bytes) self.now.marks Writes start size }
    {
        self.memory.bytes.may_write(&self.marks, start, size)
    }

    /// Whether some bytes may be written once the words of a workspace are saved.
    pub fn may_write_beside(&self, workspace: Word, start: Word, size: u32) -> Result<(), Break>
        ensures { result ≡ may_touch (length self.now.memory.bytes) (saving workspace self.now.marks) Writes start
            size }
    {
        self.may_write(start, size)?;
        keep_clear(workspace, start, size)
    }

    /// Copies bytes that may be read to where they may be written.
    #[tactic(auto, using(crate::proofs::Touching::source_inside, crate::proofs::Touching::target_inside, crate::proofs::Touching::copy_free))]
    pub fn copy(&mut self, from: Word, to: Word, count: u32)
        requires reads { span_break (length self.old.memory.bytes) self.old.marks Reads
            (record { start = from; size = count }) ≡ None }
        requires writes { span_break (length self.old.memory.bytes) self.old.marks Writes
            (record { start = to; size = count }) ≡ None }
        ensures free { copy_break (length self.old.memory.bytes) self.old.marks from to count ≡ None }
        ensures cells { self.new.memory.bytes ≡ with_cells self.old.memory.bytes to (cells self.old.memory.bytes from
            count) }
        ensures shape { KeepsShape self.old.memory self.new.memory }
        ensures claims { self.new.marks ≡ self.old.marks }
    {
        self.memory.bytes.copy(from, to, count);
        self.codes.forget(to, count);
    }

    /// Whether a workspace may be descheduled.
    pub fn may_deschedule(&self, workspace: Word) -> Result<(), Break>
        ensures { result ≡ or_break (deschedule_break (length self.now.memory.bytes) self.now.marks workspace) tt }
    {
        self.memory.bytes.may_deschedule(&self.marks, workspace)
    }

    /// Saves the words of a workspace that may be descheduled.
    #[tactic(auto, using(crate::proofs::Touching::descheduled_workspace))]
    pub fn deschedule(&mut self, workspace: Word)
        requires free { deschedule_break (length self.old.memory.bytes) self.old.marks workspace ≡ None }
        requires room { length self.old.marks.saved < most_processes }
        ensures memory { self.new.memory ≡ self.old.memory }
        ensures fresh { has_saved self.old.marks workspace ≡ false }
        ensures claims { self.new.marks ≡ saving workspace self.old.marks }
    {
        self.marks.claim_saved_known(workspace);
        self.codes.forget(workspace.below(3), 12);
    }

    /// Saves the words of a workspace that lie in the memory, where no claim has a byte of them.
    #[tactic(auto, using(crate::proofs::Packing::claimable_there))]
    pub fn save(&mut self, workspace: Word)
        requires there { IsWorkspace (length self.old.memory.bytes) workspace }
        requires free { claim_break self.old.marks Writes (saved_words workspace) ≡ None }
        requires room { length self.old.marks.saved < most_processes }
        ensures memory { self.new.memory ≡ self.old.memory }
        ensures claims { self.new.marks ≡ saving workspace self.old.marks }
    {
        self.marks.claim_saved_known(workspace);
        let lowest = workspace.below(3);
        self.codes.forget(lowest, 12);
    }

    /// The words of a workspace are free again.
    pub fn free(&mut self, workspace: Word)
        requires { has_saved self.old.marks workspace ≡ true }
        ensures frees { Frees workspace self.old.marks self.new.marks }
        ensures counts { length self.new.marks.saved + 1 ≡ length self.old.marks.saved }
        ensures same { (self.new.marks.inputs ≡ self.old.marks.inputs)
            × (self.new.marks.outputs ≡ self.old.marks.outputs) }
        ensures memory { self.new.memory ≡ self.old.memory }
    {
        self.marks.release_saved(workspace);
    }

    /// Word `-k` of a workspace whose words are saved.
    #[tactic(auto, using(crate::proofs::Touching::saved_word_inside))]
    pub fn saved_word(&self, workspace: Word, k: u32) -> Word
        requires slot { is_slot k ≡ true }
        requires saved { has_saved self.now.marks workspace ≡ true }
        ensures { result ≡ word_at self.now.memory.bytes (word_below workspace k) }
    {
        self.memory.bytes.word(workspace.below(k))
    }

    /// Sets word `-k` of a workspace whose words are saved. No decoded code is forgotten: no byte of a saved word is
    /// fetched.
    #[tactic(auto, using(crate::proofs::Touching::saved_word_inside))]
    pub fn set_saved_word(&mut self, workspace: Word, k: u32, value: Word)
        requires slot { is_slot k ≡ true }
        requires saved { has_saved self.old.marks workspace ≡ true }
        ensures cells { self.new.memory.bytes ≡ with_word self.old.memory.bytes (word_below workspace k) value }
        ensures shape { KeepsShape self.old.memory self.new.memory }
        ensures claims { self.new.marks ≡ self.old.marks }
    {
        self.memory.bytes.set_word(workspace.below(k), value);
    }

    /// A link claims the buffer of its pending output.
    pub fn claim_output(&mut self, link: u8, buffer: Word, size: u32)
        requires { link < 4 }
        ensures memory { self.new.memory ≡ self.old.memory }
        ensures claims { self.new.marks ≡ with_output link (record { start = buffer; size = size }) self.old.marks }
    {
        self.marks.claim_out_known(link, buffer, size);
    }

    /// A link claims the buffer of its pending input.
    pub fn claim_input(&mut self, link: u8, buffer: Word, size: u32)
        requires { link < 4 }
        ensures memory { self.new.memory ≡ self.old.memory }
        ensures claims { self.new.marks ≡ with_input link (record { start = buffer; size = size }) self.old.marks }
    {
        self.marks.claim_in_known(link, buffer, size);
        self.codes.forget(buffer, size);
    }

    /// The output of a link claims nothing any more.
    pub fn release_output(&mut self, link: u8)
        requires { link < 4 }
        ensures memory { self.new.memory ≡ self.old.memory }
        ensures claims { self.new.marks ≡ without_output link self.old.marks }
    {
        self.marks.release_out(link);
    }

    /// The input of a link claims nothing any more.
    pub fn release_input(&mut self, link: u8)
        requires { link < 4 }
        ensures memory { self.new.memory ≡ self.old.memory }
        ensures claims { self.new.marks ≡ without_input link self.old.marks }
    {
        self.marks.release_in(link);
    }

    /// Puts bytes into the memory.
    pub fn load(&mut self, start: Word, bytes: &[u8])
        requires { is_inside (length self.old.memory.bytes) (record { start = start; size = length bytes.now }) ≡ true }
        ensures cells { self.new.memory.bytes ≡ with_cells self.old.memory.bytes start (as_cells bytes.now) }
        ensures shape { KeepsShape self.old.memory self.new.memory }
        ensures claims { self.new.marks ≡ self.old.marks }
    {
        self.memory.bytes.load(start, bytes);
        self.codes.forget(start, bytes.len() as u32);
    }

    /// Sets a byte in the buffer of a pending input. No decoded code is forgotten: no such byte is fetched.
    pub fn set_input_byte(&mut self, address: Word, byte: u8)
        requires inside { is_inside (length self.old.memory.bytes) (byte_span address) ≡ true }
        requires input { is_input self.old.marks (byte_span address) ≡ true }
        ensures cells { self.new.memory.bytes ≡ with_cells self.old.memory.bytes address (as_cells (byte ∷ [])) }
        ensures shape { KeepsShape self.old.memory self.new.memory }
        ensures claims { self.new.marks ≡ self.old.marks }
    {
        self.memory.bytes.set_byte(address, byte);
    }

    /// The byte at an address, and `None` only outside the memory.
    pub fn byte_at(&self, address: Word) -> Option<u8>
        ensures byte { result ≡ byte_at self.now.memory.bytes address }
        ensures there { is_some result ≡ is_inside (length self.now.memory.bytes) (byte_span address) }
    {
        self.memory.bytes.byte_at(address)
    }
}
