//! Spans of bytes of a node, as messages touch them.

ghost use Rattle.std.specs.Prelude.{◌≡◌, ◌<◌, Ok, OnOk, length, replicate, pos, None};
ghost use Rattle.tprocesses.specs.Changes.{Put};
ghost use Rattle.tprocesses.specs.Parts.{change, see};
ghost use Rattle.tprocesses.specs.Performing.{copied};
ghost use Rattle.tprocesses.specs.Places.{WordAt};
ghost use Rattle.tprocesses.specs.Touching as spec;
ghost use Rattle.tprocesses.specs.Values.{IsWord};
ghost use Rattle.tword.specs.Touches.{Reads, Writes};
ghost use Rattle.tcertify.specs.Cells.{cells_of};
ghost use Rattle.tcertify.specs.Nodes.{Does, RunsAt, node_site, nothing};
ghost use Rattle.tcertify.specs.Spans.{HasWords, span_cells};
ghost use Rattle.tcertify.specs.Words.{told, use_of, word_of};

use crate::cells::Cells;
use crate::fault::Fault;
use crate::node::Node;
use crate::stop::Stop;
use crate::stored::StoredWord;
use crate::word_use::WordUse;
use tword::Span;

impl Node {
    /// A look at the word of this number, whatever it is in use for.
    pub(crate) fn look(&mut self, number: usize) -> StoredWord
        requires { number < length self.old.words.items.items }
        ensures looks { RunsAt (see (WordAt self.old.words.number number)) self.old (Ok (IsWord (word_of result)))
            self.new }
        ensures words { self.new.words.items.items ≡ self.old.words.items.items }
    {
        self.words.look(number)
    }

    /// Sets the word of this number, for a use.
    pub(crate) fn put(&mut self, number: usize, cells: Cells, used: WordUse)
        requires { number < length self.old.words.items.items }
        ensures { RunsAt (change (WordAt self.old.words.number number)
            (Put (IsWord (record { cells = cells_of cells; used = use_of used })))) self.old (Ok tt) self.new }
    {
        self.words.put(number, cells, used);
    }

    /// The bytes of the word of this number, which has this use.
    ///
    /// # Errors
    /// `WordInUse` where it has another use.
    pub(crate) fn expect_word(&mut self, number: usize, used: WordUse) -> Result<Cells, Stop>
        requires { number < length self.old.words.items.items }
        ensures looks { RunsAt (spec.word_for (node_site self.old) (use_of used) number) self.old (told cells_of result)
            self.new }
        ensures words { self.new.words.items.items ≡ self.old.words.items.items }
    {
        self.words.expect_word(number, used)
    }

    /// The words of a span are touched, to be read.
    ///
    /// # Errors
    /// Those of `Words::see_span`.
    pub(crate) fn see_span(&mut self, span: &Span) -> Result<(), Stop>
        ensures touched { RunsAt (spec.touch (node_site self.old) Reads span.now) self.old
            (told (λ _. span_cells self.old.words span.now) result) self.new }
        ensures words { self.new.words.items.items ≡ self.old.words.items.items }
        ensures inside { OnOk result (HasWords (length self.old.words.items.items) span.now) }
    {
        self.words.see_span(span)
    }

    /// The words of a span are touched, to be written.
    ///
    /// # Errors
    /// Those of `Words::take_span`.
    pub(crate) fn take_span(&mut self, span: &Span) -> Result<(), Stop>
        ensures touched { RunsAt (spec.touch (node_site self.old) Writes span.now) self.old
            (told (λ _. span_cells self.old.words span.now) result) self.new }
        ensures words { self.new.words.items.items ≡ self.old.words.items.items }
        ensures inside { OnOk result (HasWords (length self.old.words.items.items) span.now) }
    {
        self.words.take_span(span)
    }

    /// Looks at the words of a span, each of which has this use.
    ///
    /// # Errors
    /// `WordInUse` where one has another use.
    pub(crate) fn expect_span(&mut self, span: &Span, used: WordUse) -> Result<(), Stop>
        requires { HasWords (length self.old.words.items.items) span.now }
        ensures touched { RunsAt (spec.words_for (node_site self.old) (use_of used) (spec.word_number span.now.start)
            (spec.word_count span.now)) self.old (told (λ _. span_cells self.old.words span.now) result) self.new }
        ensures words { self.new.words.items.items ≡ self.old.words.items.items }
    {
        self.words.expect_span(span, used)
    }

    /// The words of a span get this use, and its bytes are set to these.
    pub(crate) fn set_span(&mut self, span: &Span, used: WordUse, bytes: &[Option<u8>])
        requires words { HasWords (length self.old.words.items.items) span.now }
        requires sized { length bytes.now ≡ span.now.size }
        ensures { RunsAt (spec.put (node_site self.old) (use_of used) span.now
            (spec.replaced span.now (span_cells self.old.words span.now) bytes.now)) self.old (Ok tt) self.new }
    {
        self.words.set_span(span, used, bytes);
    }

    /// The words of a span get this use, and its bytes are not known any more.
    pub(crate) fn forget_span(&mut self, span: &Span, used: WordUse)
        requires { HasWords (length self.old.words.items.items) span.now }
        ensures { RunsAt (spec.put (node_site self.old) (use_of used) span.now
            (spec.replaced span.now (span_cells self.old.words span.now) (replicate span.now.size None))) self.old
            (Ok tt) self.new }
    {
        self.words.forget_span(span, used);
    }

    /// Copies the bytes of a span to another one of the same size, as a program does.
    ///
    /// # Errors
    /// Those of `see_span` of the source, else those of `take_span` of the target.
    pub(crate) fn copy_span(&mut self, from: &Span, to: &Span) -> Result<(), Stop>
        requires { from.now.size ≡ to.now.size }
        ensures { RunsAt (copied (node_site self.old) from.now to.now) self.old (told nothing result) self.new }
    {
        self.words.copy(from, to)
    }

    /// One more pending output has the bytes of a span.
    ///
    /// # Errors
    /// `OutOfMemory` where 255 have a byte of one of its words already.
    pub(crate) fn lend_span(&mut self, span: &Span) -> Result<(), Fault>
        requires { HasWords (length self.old.words.items.items) span.now }
        ensures { Does (spec.count_outputs (node_site self.old) (pos 1) span.now) nothing self.old result self.new }
    {
        match self.words.lend_span(span) {
            Ok(()) => Ok(()),
            Err(_full) => Err(Fault::OutOfMemory),
        }
    }
}
