//! The checks of touches, without an access: for a row that makes several before its first change.

ghost use Rattle.std.specs.Prelude.{◌≡◌, OnOk, length, true};
ghost use Rattle.tword.specs.Actions.{or_break};
ghost use Rattle.tword.specs.Touches.{Reads, Writes, place_break, word_place_break, span_break, word_break};
ghost use Rattle.tword.specs.Touches.{copy_break, deschedule_break, is_inside, word_span};

use crate::breaks::Break;
use crate::bytes::Bytes;
use crate::limits::{CLOSED, MEM_START, MOST_NEG};
use crate::marks::Marks;
use crate::word::Word;

impl Bytes {
    /// Whether the bytes of a span lie in the memory, where programs may use them.
    ///
    /// # Errors
    /// `BadAddress` where one lies outside, else `Reserved` where one lies below the first address that programs may
    /// use. A span without bytes passes.
    // An address below lies further from the first one that programs may use than any memory reaches.
    #[inline(always)]
    fn lies_open(&self, start: Word, size: u32) -> Result<(), Break>
        ensures { result ≡ or_break (place_break (length self.now) (record { start = start; size = size })) tt }
    {
        let place = u64::from(start.get().wrapping_sub(MEM_START));
        if place + u64::from(size) <= u64::from(self.open_size()) {
            return Ok(());
        }
        self.lies_open_closely(start, size)
    }

    /// Whether the bytes of a span lie in the memory, where programs may use them, by one check after another.
    ///
    /// # Errors
    /// The breaks of `lies_open`.
    #[cold]
    #[inline(never)]
    fn lies_open_closely(&self, start: Word, size: u32) -> Result<(), Break>
        ensures { result ≡ or_break (place_break (length self.now) (record { start = start; size = size })) tt }
    {
        let place = u64::from(start.get().wrapping_sub(MOST_NEG));
        if size == 0 {
            return Ok(());
        }
        if u64::from(self.size()) < place + u64::from(size) {
            return Err(Break::BadAddress);
        }
        if place < u64::from(CLOSED) {
            return Err(Break::Reserved);
        }
        Ok(())
    }

    /// Whether the bytes of a span may be read.
    ///
    /// # Errors
    /// The first of `BadAddress`, `Reserved`, `InTransit`, `SavedWord` that holds of one of them. A span without
    /// bytes passes.
    #[inline(always)]
    #[tactic(auto, unfolding(crate::specs::Touches::span_break))]
    pub fn may_read(&self, marks: &Marks, start: Word, size: u32) -> Result<(), Break>
        ensures checks { result ≡ or_break
            (span_break (length self.now) marks.now Reads (record { start = start; size = size })) tt }
        ensures inside { OnOk result (is_inside (length self.now) (record { start = start; size = size }) ≡ true) }
    {
        self.lies_open(start, size)?;
        marks.may_read(start, size)
    }

    /// Whether the bytes of a span may be written.
    ///
    /// # Errors
    /// The first of `BadAddress`, `Reserved`, `InTransit`, `SavedWord` that holds of one of them. A span without
    /// bytes passes.
    #[inline(always)]
    #[tactic(auto, unfolding(crate::specs::Touches::span_break))]
    pub fn may_write(&self, marks: &Marks, start: Word, size: u32) -> Result<(), Break>
        ensures checks { result ≡ or_break
            (span_break (length self.now) marks.now Writes (record { start = start; size = size })) tt }
        ensures inside { OnOk result (is_inside (length self.now) (record { start = start; size = size }) ≡ true) }
    {
        self.lies_open(start, size)?;
        marks.may_write(start, size)
    }

    /// Whether the word at an address is one that programs may use.
    ///
    /// # Errors
    /// `Unaligned` where the address is no multiple of 4, else `BadAddress`, else `Reserved`.
    #[inline(always)]
    fn is_open_word(&self, address: Word) -> Result<(), Break>
        ensures { result ≡ or_break (word_place_break (length self.now) address) tt }
    {
        if address.get() % 4 == 0 && address.get().wrapping_sub(MEM_START) < self.open_size() {
            return Ok(());
        }
        self.is_open_word_closely(address)
    }

    /// Whether the word at an address is one that programs may use, by one check after another.
    ///
    /// # Errors
    /// The breaks of `is_open_word`.
    #[cold]
    #[inline(never)]
    fn is_open_word_closely(&self, address: Word) -> Result<(), Break>
        ensures { result ≡ or_break (word_place_break (length self.now) address) tt }
    {
        if address.get() % 4 != 0 {
            return Err(Break::Unaligned);
        }
        let place = u64::from(address.get().wrapping_sub(MOST_NEG));
        if u64::from(self.size()) <= place {
            return Err(Break::BadAddress);
        }
        if place < u64::from(CLOSED) {
            return Err(Break::Reserved);
        }
        Ok(())
    }

    /// Whether the word at an address may be read.
    ///
    /// # Errors
    /// The first of `Unaligned`, `BadAddress`, `Reserved`, `InTransit`, `SavedWord` that holds of it.
    #[inline(always)]
    #[tactic(auto, unfolding(crate::specs::Touches::word_break, crate::specs::Touches::span_break))]
    pub fn may_read_word(&self, marks: &Marks, address: Word) -> Result<(), Break>
        ensures checks { result ≡ or_break (word_break (length self.now) marks.now Reads address) tt }
        ensures inside { OnOk result (is_inside (length self.now) (word_span address) ≡ true) }
    {
        self.is_open_word(address)?;
        marks.may_read(address, 4)
    }

    /// Whether the word at an address may be written.
    ///
    /// # Errors
    /// The first of `Unaligned`, `BadAddress`, `Reserved`, `InTransit`, `SavedWord` that holds of it.
    #[inline(always)]
    #[tactic(auto, unfolding(crate::specs::Touches::word_break, crate::specs::Touches::span_break))]
    pub fn may_write_word(&self, marks: &Marks, address: Word) -> Result<(), Break>
        ensures checks { result ≡ or_break (word_break (length self.now) marks.now Writes address) tt }
        ensures inside { OnOk result (is_inside (length self.now) (word_span address) ≡ true) }
    {
        self.is_open_word(address)?;
        marks.may_write(address, 4)
    }

    /// Whether bytes may be copied: the source is read, then the target written.
    ///
    /// # Errors
    /// The break of the source as a read, else that of the target as a write.
    #[tactic(auto, unfolding(crate::specs::Touches::copy_break))]
    pub fn may_copy(&self, marks: &Marks, from: Word, to: Word, size: u32) -> Result<(), Break>
        ensures checks { result ≡ or_break (copy_break (length self.now) marks.now from to size) tt }
        ensures source { OnOk result (is_inside (length self.now) (record { start = from; size = size }) ≡ true) }
        ensures target { OnOk result (is_inside (length self.now) (record { start = to; size = size }) ≡ true) }
    {
        self.may_read(marks, from, size)?;
        self.may_write(marks, to, size)
    }

    /// Whether the three words below a workspace may be written, from the lowest up: the check of descheduling its
    /// process.
    ///
    /// # Errors
    /// The break of the first word that may not.
    #[inline]
    pub fn may_deschedule(&self, marks: &Marks, workspace: Word) -> Result<(), Break>
        ensures { result ≡ or_break (deschedule_break (length self.now) marks.now workspace) tt }
    {
        // No memory ends at the last address.
        let _ = self.size();
        let lowest = workspace.below(3);
        if lowest.get() % 4 == 0
            && self.lies_open(lowest, 12).is_ok()
            && marks.are_three_clear(lowest)
        {
            return Ok(());
        }
        self.may_deschedule_closely(marks, workspace)
    }

    /// Whether the three words below a workspace may be written, from the lowest up, by a look at one word after
    /// another.
    #[cold]
    #[inline(never)]
    #[tactic(auto, unfolding(crate::specs::Touches::deschedule_break))]
    fn may_deschedule_closely(&self, marks: &Marks, workspace: Word) -> Result<(), Break>
        ensures { result ≡ or_break (deschedule_break (length self.now) marks.now workspace) tt }
    {
        self.may_write_word(marks, workspace.below(3))?;
        self.may_write_word(marks, workspace.below(2))?;
        self.may_write_word(marks, workspace.below(1))
    }
}
