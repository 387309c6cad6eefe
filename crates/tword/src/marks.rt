//! Who claims bytes of a memory.

ghost use Rattle.std.specs.Prelude.{◌≡◌, ◌+◌, ◌%◌, ◌<◌, ◌≤◌, ◌==◌, ℕ, IfOk, IfErr, IfSome, None, length};
ghost use Rattle.std.specs.Prelude.{false, true};
ghost use Rattle.tword.specs.Accesses.{Changing, Frees, IsClaimableWorkspace, no_claims, with_input, with_output};
ghost use Rattle.tword.specs.Accesses.{without_input, without_output};
ghost use Rattle.tword.specs.Actions.{or_break};
ghost use Rattle.tword.specs.Claims.{saving, saved_words, has_saved, is_saved};
ghost use Rattle.tword.specs.Limits.{most_processes};
ghost use Rattle.tword.specs.Open.{AreOpenCounts};
ghost use Rattle.tword.specs.Slots.{IsPlaceIn, saved_in};
ghost use Rattle.tword.specs.Touches.{Reads, Writes, claim_break};

use crate::breaks::{Break, MemoryFault};
use crate::claim_table::ClaimTable;
use crate::limits::CLOSED;
use crate::link_buffers::LinkBuffers;
use crate::saved::Saved;
use crate::span::Span;
use crate::word::Word;
use std::alloc::Global;
use std::marker::Model;

/// The most words of a touch that are looked up in the table. Where fewer workspaces are saved than a sixteenth of
/// them, these are gone over instead.
const FEW: u64 = 4_096;

/// The bytes of a memory that are claimed: the buffers of pending link messages, and the saved words of processes
/// that are queued or wait.
///
/// `table` has for each word of the memory how many of these claims have it, so that most touches look at one count.
#[derive(Drop)]
pub struct Marks {
    inputs: LinkBuffers,
    outputs: LinkBuffers,
    saved: Saved,
    table: ClaimTable,
}

impl Model for Marks {
    ghost use Rattle.tword.specs.Claims.{Claims};
    ghost use Rattle.tword.specs.Slots.{IsTally};

    ghost Value = { Claims };

    ghost view = { λ m. record { inputs = m.inputs; outputs = m.outputs; saved = m.saved } };

    ghost invariant = { λ m. IsTally m.inputs m.outputs m.saved m.table };
}

impl Marks {
    /// No claims, and room for those of four inputs, four outputs and the workspaces of all processes: no other call
    /// takes memory. A claim in a memory of `size` bytes is found in constant time; to find another one, all are
    /// looked at.
    ///
    /// # Errors
    /// `OutOfMemory` where the allocator refuses.
    pub fn new(alloc: Global, size: u32) -> Result<Marks, MemoryFault>
        ensures none { IfOk result (λ m. m ≡ no_claims) }
        ensures fault { IfErr result (λ fault. fault ≡ MemoryFault.OutOfMemory) }
    {
        Ok(Marks {
            inputs: LinkBuffers::new(),
            outputs: LinkBuffers::new(),
            saved: Saved::new(alloc, size)?,
            table: ClaimTable::new(alloc, size)?,
        })
    }

    /// A copy of the claims, with the same room.
    ///
    /// # Errors
    /// `OutOfMemory` where the allocator refuses.
    pub fn try_copy(&self, alloc: Global) -> Result<Marks, MemoryFault>
        ensures same { IfOk result (λ m. m ≡ self.now) }
        ensures fault { IfErr result (λ fault. fault ≡ MemoryFault.OutOfMemory) }
    {
        Ok(Marks {
            inputs: self.inputs.copied(),
            outputs: self.outputs.copied(),
            saved: self.saved.try_copy(alloc)?,
            table: self.table.try_copy(alloc)?,
        })
    }

    /// Whether the words of a workspace are saved.
    pub fn has_saved(&self, workspace: Word) -> bool
        ensures { result ≡ has_saved self.now workspace }
    {
        self.place_of(workspace).is_some()
    }

    /// Where a workspace stands among those whose words are saved.
    #[inline]
    fn place_of(&self, workspace: Word) -> Option<usize>
        ensures found { IfSome result (λ i. IsPlaceIn self.now.saved i workspace) }
        ensures none { result ≡ None → has_saved self.now workspace ≡ false }
    {
        match self.saved.noted(workspace) {
            Some(place) => Some(place),
            None => self.sought_place_of(workspace),
        }
    }

    /// Where a workspace stands among those whose words are saved, where its hint does not tell. The list
    /// is searched only where the workspace's highest saved word is one of some workspace or is not counted.
    #[cold]
    #[inline(never)]
    fn sought_place_of(&self, workspace: Word) -> Option<usize>
        ensures found { IfSome result (λ i. IsPlaceIn self.now.saved i workspace) }
        ensures none { result ≡ None → has_saved self.now workspace ≡ false }
    {
        if self.saves_none_in(u64::from(workspace.below(3).get() / 4) + 2) {
            return None;
        }
        self.saved.position(workspace)
    }

    /// Whether the counts show that the word of this number is no saved one: all that is counted there are claims of
    /// links.
    #[inline]
    fn saves_none_in(&self, word: u64) -> bool
        ensures { result ≡ true → saved_in word self.now.saved ≡ 0 }
    {
        match self.table.count(word) {
            Some(count) => {
                count == 0 || count == self.inputs.count(word) + self.outputs.count(word)
            }
            None => false,
        }
    }

    /// Whether the counts show that no saved word is one of the words from `first` up to that before `behind`.
    fn saves_none_from(&self, first: u64, behind: u64) -> bool
        ensures { result ≡ true → (k : ℕ) → first ≤ k → k < behind → saved_in k self.now.saved ≡ 0 }
    {
        self.table.are_empty(first, behind) || self.saves_none_in_each(first, behind)
    }

    /// Whether the count of each word from `first` up to that before `behind` shows that it is no saved word.
    fn saves_none_in_each(&self, first: u64, behind: u64) -> bool
        ensures { result ≡ true → (k : ℕ) → first ≤ k → k < behind → saved_in k self.now.saved ≡ 0 }
    {
        for word in first..behind {
            if !self.saves_none_in(word) {
                return false;
            }
        }
        true
    }

    /// Whether a saved word has a byte in common with a span.
    fn overlaps_saved(&self, span: &Span) -> bool
        ensures { result ≡ is_saved self.now span.now }
    {
        let (start, end) = span.bounds();
        let first = start / 4;
        let behind = (end + 3) / 4;
        let words = behind - first;
        if words <= FEW
            && words / 16 <= self.saved.len() as u64
            && self.saves_none_from(first, behind)
        {
            return false;
        }
        self.saved.overlap(span)
    }

    /// Whether claims let the bytes of a span be read.
    ///
    /// # Errors
    /// `InTransit` where one of them belongs to a pending input, else `SavedWord`.
    // The look at each claim stays out of line, in one place, so that the common case is small where it is inlined.
    #[inline(always)]
    pub fn may_read(&self, start: Word, size: u32) -> Result<(), Break>
        ensures { result ≡ or_break (claim_break self.now Reads (record { start = start; size = size })) tt }
    {
        let span = Span { start, size };
        if !self.table.is_clear_of(&span) {
            self.may_read_closely(start, size)?;
        }
        Ok(())
    }

    /// Whether each claim lets the bytes of a span be read.
    ///
    /// # Errors
    /// The breaks of `may_read`.
    #[cold]
    #[inline(never)]
    fn may_read_closely(&self, start: Word, size: u32) -> Result<(), Break>
        ensures { result ≡ or_break (claim_break self.now Reads (record { start = start; size = size })) tt }
    {
        let span = Span { start, size };
        if self.inputs.overlap(&span) {
            return Err(Break::InTransit);
        }
        if self.overlaps_saved(&span) {
            return Err(Break::SavedWord);
        }
        Ok(())
    }

    /// Whether claims let the bytes of a span be written.
    ///
    /// # Errors
    /// `InTransit` where one of them belongs to a pending message, else `SavedWord`.
    #[inline(always)]
    pub fn may_write(&self, start: Word, size: u32) -> Result<(), Break>
        ensures { result ≡ or_break (claim_break self.now Writes (record { start = start; size = size })) tt }
    {
        let span = Span { start, size };
        if !self.table.is_clear_of(&span) {
            self.may_write_closely(start, size)?;
        }
        Ok(())
    }

    /// Whether each claim lets the bytes of a span be written.
    ///
    /// # Errors
    /// The breaks of `may_write`.
    #[cold]
    #[inline(never)]
    fn may_write_closely(&self, start: Word, size: u32) -> Result<(), Break>
        ensures { result ≡ or_break (claim_break self.now Writes (record { start = start; size = size })) tt }
    {
        let span = Span { start, size };
        if self.inputs.overlap(&span) || self.outputs.overlap(&span) {
            return Err(Break::InTransit);
        }
        if self.overlaps_saved(&span) {
            return Err(Break::SavedWord);
        }
        Ok(())
    }

    /// Whether the counts show that no claim has one of three whole words, from the one at an address on.
    #[inline(always)]
    pub fn are_three_clear(&self, lowest: Word) -> bool
        requires { lowest % 4 ≡ 0 }
        ensures { result ≡ true → claim_break self.now Writes (record { start = lowest; size = 12 }) ≡ None }
    {
        self.table.are_three_clear(lowest)
    }

    /// The counts of the words of a memory of `size` bytes, from the first that programs may use on, for those who
    /// touch many words in a row.
    #[inline(always)]
    pub fn open_counts(&self, size: u32) -> &[u16]
        requires { 72 ≤ size }
        ensures { AreOpenCounts result.now size self.now }
    {
        let open = size - CLOSED;
        self.table
            .from_slot((CLOSED / 4) as usize, (open / 4) as usize)
    }

    /// Claims the three words below a workspace, where the claims that there are let them be written.
    ///
    /// # Errors
    /// The breaks of `may_write` for these words; nothing is changed then.
    pub fn claim_saved(&mut self, workspace: Word) -> Result<(), Break>
        requires workspace { IsClaimableWorkspace workspace }
        requires room { length self.old.saved < most_processes }
        ensures { Changing (claim_break self.old Writes (saved_words workspace)) self.old
            (saving workspace self.old) result self.new }
    {
        self.may_write(workspace.below(3), 12)?;
        self.claim_saved_known(workspace);
        Ok(())
    }

    /// Claims the buffer of a pending link input, where the claims that there are let it be written.
    ///
    /// # Errors
    /// The breaks of `may_write` for the buffer; nothing is changed then.
    pub fn claim_in(&mut self, link: u8, start: Word, size: u32) -> Result<(), Break>
        requires { link < 4 }
        ensures { Changing (claim_break self.old Writes (record { start = start; size = size })) self.old
            (with_input link (record { start = start; size = size }) self.old) result self.new }
    {
        self.may_write(start, size)?;
        self.claim_in_known(link, start, size);
        Ok(())
    }

    /// Claims the buffer of a pending link output, where the claims that there are let it be read: two outputs may
    /// share bytes.
    ///
    /// # Errors
    /// The breaks of `may_read` for the buffer; nothing is changed then.
    pub fn claim_out(&mut self, link: u8, start: Word, size: u32) -> Result<(), Break>
        requires { link < 4 }
        ensures { Changing (claim_break self.old Reads (record { start = start; size = size })) self.old
            (with_output link (record { start = start; size = size }) self.old) result self.new }
    {
        self.may_read(start, size)?;
        self.claim_out_known(link, start, size);
        Ok(())
    }

    /// Claims the three words below a workspace, for a caller that knows that it may.
    pub fn claim_saved_known(&mut self, workspace: Word)
        requires workspace { IsClaimableWorkspace workspace }
        requires room { length self.old.saved < most_processes }
        requires free { claim_break self.old Writes (saved_words workspace) ≡ None }
        ensures { self.new ≡ saving workspace self.old }
    {
        self.table.raise(&Span::saved_words(workspace));
        self.saved.insert(workspace);
    }

    /// Claims the buffer of a pending link input, for a caller that knows that it may.
    pub fn claim_in_known(&mut self, link: u8, start: Word, size: u32)
        requires { link < 4 }
        ensures { self.new ≡ with_input link (record { start = start; size = size }) self.old }
    {
        let before = self.inputs.claim(link, Span { start, size });
        self.table.exchange(&before, &Some(Span { start, size }));
    }

    /// Claims the buffer of a pending link output, for a caller that knows that it may.
    pub fn claim_out_known(&mut self, link: u8, start: Word, size: u32)
        requires { link < 4 }
        ensures { self.new ≡ with_output link (record { start = start; size = size }) self.old }
    {
        let before = self.outputs.claim(link, Span { start, size });
        self.table.exchange(&before, &Some(Span { start, size }));
    }

    /// Gives the words below a workspace free, if they are saved. The order in which the others are kept is left
    /// open.
    pub fn release_saved(&mut self, workspace: Word)
        ensures frees { Frees workspace self.old self.new }
        ensures counts { has_saved self.old workspace ≡ true → length self.new.saved + 1 ≡ length self.old.saved }
        ensures same { has_saved self.old workspace ≡ false → self.new ≡ self.old }
        ensures inputs { self.new.inputs ≡ self.old.inputs }
        ensures outputs { self.new.outputs ≡ self.old.outputs }
    {
        if let Some(place) = self.place_of(workspace) {
            let removed = self.saved.remove(place);
            self.table.lower(&Span::saved_words(removed));
        }
    }

    /// Gives the buffer of a link input free.
    pub fn release_in(&mut self, link: u8)
        requires { link < 4 }
        ensures { self.new ≡ without_input link self.old }
    {
        let before = self.inputs.release(link);
        self.table.exchange(&before, &None);
    }

    /// Gives the buffer of a link output free.
    pub fn release_out(&mut self, link: u8)
        requires { link < 4 }
        ensures { self.new ≡ without_output link self.old }
    {
        let before = self.outputs.release(link);
        self.table.exchange(&before, &None);
    }
}
