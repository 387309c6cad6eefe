//! Spans of bytes in the words of a node.

ghost use Rattle.std.specs.Prelude.{◌≡◌, ◌<◌, ◌≤◌, ◌+◌, ◌*◌, ◌/◌, ◌∷◌, [], true, IfOk, OnOk, OnErr, Ok, Some, None};
ghost use Rattle.std.specs.Prelude.{length, replicate, slice_get, slice_range, false, pos, negsuc};
ghost use Rattle.tword.specs.Actions.{or_break};
ghost use Rattle.tword.specs.Stores.{place};
ghost use Rattle.tword.specs.Touches.{Reads, Writes, place_break};
ghost use Rattle.tagents.specs.WalkAccesses as walks;
ghost use Rattle.tprocesses.specs.Parts.{see};
ghost use Rattle.tprocesses.specs.Places.{WordAt};
ghost use Rattle.tprocesses.specs.Performing.{copied};
ghost use Rattle.tprocesses.specs.Touching as spec;
ghost use Rattle.tprocesses.specs.Values.{IsWord};
ghost use Rattle.tcertify.specs.Cells.{cells_of};
ghost use Rattle.tcertify.specs.Notes.{tells_of_outputs};
ghost use Rattle.tcertify.specs.Spans.{AreTouched, FitsIn, HasCount, HasWords, IsCounted, IsGiven, IsWritten};
ghost use Rattle.tcertify.specs.Spans.{bytes_in, span_cells};
ghost use Rattle.tcertify.specs.Words.{HasCells, Runs, site_of, told, use_of, word_of};

use crate::cells::Cells;
use crate::notes::Mode;
use crate::stop::Stop;
use crate::stored::{StoredWord, Words};
use crate::word_use::WordUse;
use std::alloc::{AllocError, Global};
use tword::limits::MOST_NEG;
use tword::{Break, Span, Word};

/// How many bytes at the lowest addresses are closed to programs.
const CLOSED_BYTES: usize = 72;

/// How many pending outputs may have a byte of a word.
const MOST_OUTPUTS: u8 = 255;

/// A count of pending outputs cannot rise or fall.
#[derive(Clone, Copy, Debug, PartialEq, Eq)]
pub struct CountOutOfRange;

/// How many bytes lie below an address.
#[inline(always)]
fn place_of(address: Word) -> usize
    ensures { result ≡ place address }
{
    address.get().saturating_sub(MOST_NEG) as usize
}

/// The number of the word that an address lies in.
#[inline(always)]
pub fn word_number(address: Word) -> usize
    ensures { result ≡ spec.word_number address }
{
    place_of(address) / 4
}

/// How many words a span has a byte of.
#[inline(always)]
pub fn word_count(span: &Span) -> usize
    ensures { result ≡ spec.word_count span.now }
{
    if span.size == 0 {
        0
    } else {
        (place_of(span.start) % 4 + span.size as usize + 3) / 4
    }
}

/// Whether two uses are the same.
#[inline(always)]
fn is_same(used: WordUse, other: WordUse) -> bool
    ensures { result ≡ spec.same_use (use_of used) (use_of other) }
{
    match (used, other) {
        (WordUse::Free, WordUse::Free)
        | (WordUse::Saved, WordUse::Saved)
        | (WordUse::Receiving, WordUse::Receiving)
        | (WordUse::Engaged, WordUse::Engaged)
        | (WordUse::Choosing, WordUse::Choosing)
        | (WordUse::Awaiting, WordUse::Awaiting)
        | (WordUse::Spoilt, WordUse::Spoilt)
        | (WordUse::LastHigh, WordUse::LastHigh)
        | (WordUse::LastLow, WordUse::LastLow) => true,
        _ => false,
    }
}

impl Words {
    /// A look at the word of this number, whatever it is in use for.
    #[inline(always)]
    pub fn look(&mut self, number: usize) -> StoredWord
        requires { number < length self.old.items.items }
        ensures change { Runs (see (WordAt self.old.number number)) self.old (Ok (IsWord (word_of result))) self.new }
        ensures words { self.new.items.items ≡ self.old.items.items }
        ensures site { site_of self.new ≡ site_of self.old }
    {
        self.note(number, Mode::Looks);
        self.items[number]
    }

    /// The bytes of the word of this number, which has this use.
    ///
    /// # Errors
    /// `WordInUse` where it has another use.
    #[inline(always)]
    pub fn expect_word(&mut self, number: usize, used: WordUse) -> Result<Cells, Stop>
        requires { number < length self.old.items.items }
        ensures change { Runs (spec.word_for (site_of self.old) (use_of used) number) self.old (told cells_of result)
            self.new }
        ensures words { self.new.items.items ≡ self.old.items.items }
        ensures site { site_of self.new ≡ site_of self.old }
        ensures cells { IfOk result (λ cells. HasCells self.old.items.items number (cells_of cells)) }
    {
        self.note(number, Mode::Looks);
        let stored = &self.items[number];
        if !is_same(stored.used, used) {
            return Err(Stop::WordInUse);
        }
        Ok(stored.cells)
    }

    /// Whether no pending output has a byte of the word of this number. mode: how the look is noted.
    ///
    /// # Errors
    /// `InTransit` where one has.
    #[inline(always)]
    pub fn unsent(&mut self, number: usize, mode: Mode) -> Result<(), Stop>
        requires word { number < length self.old.items.items }
        requires tells { tells_of_outputs mode walks.Looks ≡ true }
        ensures change { Runs (spec.unsent (site_of self.old) number) self.old (told (λ _. tt) result) self.new }
        ensures words { self.new.items.items ≡ self.old.items.items }
        ensures site { site_of self.new ≡ site_of self.old }
    {
        self.note(number, mode);
        if self.items[number].sending != 0 {
            return Err(Stop::Breaks(Break::InTransit));
        }
        Ok(())
    }

    /// Whether a span lies where programs may use the memory.
    ///
    /// # Errors
    /// `BadAddress` where the memory does not have all of its bytes, else `Reserved`.
    #[inline(always)]
    fn check_place(&self, span: &Span) -> Result<(), Break>
        ensures checks { result ≡ or_break (place_break (4 * length self.now.items.items) span.now) tt }
        ensures inside { OnOk result (HasWords (length self.now.items.items) span.now) }
    {
        if span.size == 0 {
            return Ok(());
        }
        let start = span.start.get();
        if start < MOST_NEG {
            return Err(Break::BadAddress);
        }
        let place = (start - MOST_NEG) as usize;
        if 4 * self.items.len() < place + span.size as usize {
            return Err(Break::BadAddress);
        }
        if place < CLOSED_BYTES {
            return Err(Break::Reserved);
        }
        Ok(())
    }

    /// The words of a span are touched, to be read.
    ///
    /// # Errors
    /// `BadAddress` or `Reserved` where the span may not lie there, else that of the first of its words that may not be
    /// read.
    pub fn see_span(&mut self, span: &Span) -> Result<(), Stop>
        ensures change { Runs (spec.touch (site_of self.old) Reads span.now) self.old
            (told (λ _. span_cells self.old span.now) result) self.new }
        ensures words { self.new.items.items ≡ self.old.items.items }
        ensures site { site_of self.new ≡ site_of self.old }
        ensures inside { OnOk result (HasWords (length self.old.items.items) span.now) }
    {
        self.check_place(span)?;
        let first = word_number(span.start);
        for k in 0..word_count(span) {
            self.see(first + k)?;
        }
        Ok(())
    }

    /// The words of a span are touched, to be written.
    ///
    /// # Errors
    /// `BadAddress` or `Reserved` where the span may not lie there, else that of the first of its words that may not be
    /// written.
    pub fn take_span(&mut self, span: &Span) -> Result<(), Stop>
        ensures change { Runs (spec.touch (site_of self.old) Writes span.now) self.old
            (told (λ _. span_cells self.old span.now) result) self.new }
        ensures words { self.new.items.items ≡ self.old.items.items }
        ensures site { site_of self.new ≡ site_of self.old }
        ensures inside { OnOk result (HasWords (length self.old.items.items) span.now) }
    {
        self.check_place(span)?;
        let first = word_number(span.start);
        for k in 0..word_count(span) {
            self.take(first + k)?;
        }
        Ok(())
    }

    /// Looks at the words of a span, each of which has this use.
    ///
    /// # Errors
    /// `WordInUse` where one has another use.
    pub fn expect_span(&mut self, span: &Span, used: WordUse) -> Result<(), Stop>
        requires { HasWords (length self.old.items.items) span.now }
        ensures change { Runs (spec.words_for (site_of self.old) (use_of used) (spec.word_number span.now.start)
            (spec.word_count span.now)) self.old (told (λ _. span_cells self.old span.now) result) self.new }
        ensures words { self.new.items.items ≡ self.old.items.items }
        ensures site { site_of self.new ≡ site_of self.old }
    {
        let first = word_number(span.start);
        for k in 0..word_count(span) {
            self.expect_word(first + k, used)?;
        }
        Ok(())
    }

    /// Notes that the words of a span are touched so.
    fn note_span(&mut self, span: &Span, mode: Mode)
        requires { HasWords (length self.old.items.items) span.now }
        ensures { AreTouched self.old span.now mode self.new }
    {
        let first = word_number(span.start);
        for k in 0..word_count(span) {
            self.note(first + k, mode);
        }
    }

    /// The words of a span get this use.
    fn give_use(&mut self, span: &Span, used: WordUse)
        requires { HasWords (length self.old.items.items) span.now }
        ensures { IsGiven self.old span.now used self.new }
    {
        let first = word_number(span.start);
        for k in 0..word_count(span) {
            let stored = &mut self.items[first + k];
            stored.used = used;
        }
    }

    /// The byte at a place, where it is known.
    #[inline(always)]
    fn byte_at(&self, place: usize) -> Option<u8>
        requires { place < 4 * length self.now.items.items }
        ensures { slice_get (bytes_in self.now.items.items) place ≡ Some result }
    {
        self.items[place / 4].cells.byte((place % 4) as u8)
    }

    /// Sets the byte at a place.
    #[inline(always)]
    fn set_byte(&mut self, place: usize, cell: Option<u8>)
        requires { place < 4 * length self.old.items.items }
        ensures { IsWritten self.old place (cell ∷ []) self.new }
    {
        let stored = &mut self.items[place / 4];
        stored.cells = stored.cells.with_byte((place % 4) as u8, cell);
    }

    /// Sets bytes from a place on.
    fn set_bytes(&mut self, place: usize, bytes: &[Option<u8>])
        requires { FitsIn (4 * length self.old.items.items) place (length bytes.now) }
        ensures { IsWritten self.old place bytes.now self.new }
    {
        for k in 0..bytes.len() {
            self.set_byte(place + k, bytes[k]);
        }
    }

    /// Bytes from a place on are not known any more.
    fn forget_bytes(&mut self, place: usize, size: usize)
        requires { FitsIn (4 * length self.old.items.items) place size }
        ensures { IsWritten self.old place (replicate size None) self.new }
    {
        for k in 0..size {
            self.set_byte(place + k, None);
        }
    }

    /// Copies bytes to a place that is not above theirs, from the lowest one on.
    fn copy_down(&mut self, from: usize, to: usize, size: usize)
        requires order { to ≤ from }
        requires inside { FitsIn (4 * length self.old.items.items) from size }
        ensures { IsWritten self.old to (slice_range (bytes_in self.old.items.items) from (from + size)) self.new }
    {
        for k in 0..size {
            let cell = self.byte_at(from + k);
            self.set_byte(to + k, cell);
        }
    }

    /// Copies bytes to a place that is not below theirs, from the highest one on.
    fn copy_up(&mut self, from: usize, to: usize, size: usize)
        requires order { from ≤ to }
        requires inside { FitsIn (4 * length self.old.items.items) to size }
        ensures { IsWritten self.old to (slice_range (bytes_in self.old.items.items) from (from + size)) self.new }
    {
        for k in 0..size {
            let left = size - 1 - k;
            let cell = self.byte_at(from + left);
            self.set_byte(to + left, cell);
        }
    }

    /// The words of a span get this use, and its bytes are set to these.
    pub fn set_span(&mut self, span: &Span, used: WordUse, bytes: &[Option<u8>])
        requires words { HasWords (length self.old.items.items) span.now }
        requires sized { length bytes.now ≡ span.now.size }
        ensures change { Runs (spec.put (site_of self.old) (use_of used) span.now
            (spec.replaced span.now (span_cells self.old span.now) bytes.now)) self.old (Ok tt) self.new }
        ensures site { site_of self.new ≡ site_of self.old }
    {
        self.note_span(span, Mode::Puts);
        self.give_use(span, used);
        self.set_bytes(place_of(span.start), bytes);
    }

    /// The words of a span get this use, and its bytes are not known any more.
    pub fn forget_span(&mut self, span: &Span, used: WordUse)
        requires { HasWords (length self.old.items.items) span.now }
        ensures change { Runs (spec.put (site_of self.old) (use_of used) span.now
            (spec.replaced span.now (span_cells self.old span.now) (replicate span.now.size None))) self.old (Ok tt)
            self.new }
        ensures site { site_of self.new ≡ site_of self.old }
    {
        self.note_span(span, Mode::Puts);
        self.give_use(span, used);
        self.forget_bytes(place_of(span.start), span.size as usize);
    }

    /// The bytes of a span, of which some may not be known.
    ///
    /// # Errors
    /// Where the allocator refuses.
    pub fn bytes_of(&self, alloc: Global, span: &Span) -> Result<Vec<Option<u8>>, AllocError>
        requires { HasWords (length self.now.items.items) span.now }
        ensures { IfOk result (λ bytes. bytes.items ≡ spec.part_of span.now (span_cells self.now span.now)) }
    {
        let mut bytes = Vec::with_capacity(alloc, span.size as usize)?;
        let place = place_of(span.start);
        for k in 0..span.size as usize {
            bytes.push(self.byte_at(place + k))?;
        }
        Ok(bytes)
    }

    /// The bytes of a span replace those of another one of the same size, as if all were read first.
    pub fn copy_span(&mut self, from: &Span, to: &Span)
        requires source { HasWords (length self.old.items.items) from.now }
        requires target { HasWords (length self.old.items.items) to.now }
        requires sized { from.now.size ≡ to.now.size }
        ensures change { Runs (spec.put (site_of self.old) (use_of WordUse.Free) to.now
            (spec.replaced to.now (span_cells self.old to.now) (spec.part_of from.now (span_cells self.old from.now))))
            self.old (Ok tt) self.new }
        ensures site { site_of self.new ≡ site_of self.old }
    {
        self.note_span(to, Mode::Puts);
        self.give_use(to, WordUse::Free);
        let source = place_of(from.start);
        let target = place_of(to.start);
        if target <= source {
            self.copy_down(source, target, to.size as usize);
        } else {
            self.copy_up(source, target, to.size as usize);
        }
    }

    /// Copies the bytes of a span to another one of the same size, as a program does.
    ///
    /// # Errors
    /// Those of `see_span` of the source, else those of `take_span` of the target; nothing is changed then.
    pub fn copy(&mut self, from: &Span, to: &Span) -> Result<(), Stop>
        requires { from.now.size ≡ to.now.size }
        ensures change { Runs (copied (site_of self.old) from.now to.now) self.old (told (λ _. tt) result) self.new }
        ensures site { site_of self.new ≡ site_of self.old }
    {
        self.see_span(from)?;
        self.take_span(to)?;
        self.copy_span(from, to);
        Ok(())
    }

    /// Whether the count of pending outputs of a word of a span is this.
    fn has_count(&self, span: &Span, count: u8) -> bool
        requires { HasWords (length self.now.items.items) span.now }
        ensures some { result ≡ true → HasCount self.now span.now count }
        ensures none { result ≡ false → HasCount self.now span.now count → ⊥ }
    {
        let first = word_number(span.start);
        for k in 0..word_count(span) {
            if self.items[first + k].sending == count {
                return true;
            }
        }
        false
    }

    /// One more pending output has the bytes of a span.
    ///
    /// # Errors
    /// Where 255 have a byte of one of its words already. Nothing is changed then.
    pub fn lend_span(&mut self, span: &Span) -> Result<(), CountOutOfRange>
        requires { HasWords (length self.old.items.items) span.now }
        ensures change { OnOk result (Runs (spec.count_outputs (site_of self.old) (pos 1) span.now) self.old (Ok tt)
            self.new) }
        ensures full { OnErr result (HasCount self.old span.now 255) }
        ensures kept { OnErr result (self.new ≡ self.old) }
        ensures site { site_of self.new ≡ site_of self.old }
    {
        if self.has_count(span, MOST_OUTPUTS) {
            return Err(CountOutOfRange);
        }
        self.note_span(span, Mode::Lends);
        self.add_one(span);
        Ok(())
    }

    /// A pending output that has the bytes of a span is over.
    ///
    /// # Errors
    /// Where none has a byte of one of its words. Nothing is changed then.
    pub fn give_back_span(&mut self, span: &Span) -> Result<(), CountOutOfRange>
        requires { HasWords (length self.old.items.items) span.now }
        ensures change { OnOk result (Runs (spec.count_outputs (site_of self.old) (negsuc 0) span.now) self.old (Ok tt)
            self.new) }
        ensures none { OnErr result (HasCount self.old span.now 0) }
        ensures kept { OnErr result (self.new ≡ self.old) }
        ensures site { site_of self.new ≡ site_of self.old }
    {
        if self.has_count(span, 0) {
            return Err(CountOutOfRange);
        }
        self.note_span(span, Mode::Lends);
        self.take_one(span);
        Ok(())
    }

    /// The counts of the words of a span rise by one.
    fn add_one(&mut self, span: &Span)
        requires words { HasWords (length self.old.items.items) span.now }
        requires room { HasCount self.old span.now 255 → ⊥ }
        ensures { IsCounted self.old span.now (pos 1) self.new }
    {
        let first = word_number(span.start);
        for k in 0..word_count(span) {
            let stored = &mut self.items[first + k];
            stored.sending += 1;
        }
    }

    /// The counts of the words of a span fall by one.
    fn take_one(&mut self, span: &Span)
        requires words { HasWords (length self.old.items.items) span.now }
        requires some { HasCount self.old span.now 0 → ⊥ }
        ensures { IsCounted self.old span.now (negsuc 0) self.new }
    {
        let first = word_number(span.start);
        for k in 0..word_count(span) {
            let stored = &mut self.items[first + k];
            stored.sending -= 1;
        }
    }
}
