//! The words of a node, as its steps touch them.

ghost use Rattle.std.specs.Prelude.{◌≡◌, ◌<◌, ◌↔◌, IsTrue, Ok, length, if◌then◌else◌};
ghost use Rattle.tprocesses.specs.Changes.{Decrement, Engage};
ghost use Rattle.tprocesses.specs.Parts.{change};
ghost use Rattle.tprocesses.specs.Standing as spec;
ghost use Rattle.tprocesses.specs.Touching.{forgotten, kept, save, word_number, word_place};
ghost use Rattle.tword.specs.Words.{word_below};
ghost use Rattle.tcertify.specs.Nodes.{RunsAt, node_site, nothing};
ghost use Rattle.tcertify.specs.Spans.{HasWords};
ghost use Rattle.tcertify.specs.Words.{number_of, told};

use crate::lead::Lead;
use crate::node::Node;
use crate::priority::Priority;
use crate::spans::{word_count, word_number};
use crate::stop::Stop;
use tword::limits::MOST_NEG;
use tword::{Span, Word};

impl Node {
    /// The three words below a workspace become saved words. keeps: whether the lowest one stays as it is.
    ///
    /// # Errors
    /// Those of `Words::save`.
    pub fn save(&mut self, workspace: Word, keeps: bool) -> Result<(), Stop>
        ensures { RunsAt (save (node_site self.old) workspace (if keeps then kept else forgotten)) self.old
            (told nothing result) self.new }
    {
        self.words.save(workspace, keeps)
    }

    /// The channel word at an address is taken by one of its two processes, without a look at it.
    pub fn engage(&mut self, address: Word)
        requires { word_number address < length self.old.words.items.items }
        ensures { RunsAt (change (word_place (node_site self.old) address) Engage) self.old (Ok tt) self.new }
    {
        self.words.engage(address);
    }

    /// The count at an address falls as a process of this priority ends, without a look at it.
    #[inline(always)]
    fn counts_down(&mut self, address: Word, priority: Priority)
        requires { word_number address < length self.old.words.items.items }
        ensures { RunsAt (change (word_place (node_site self.old) address) (Decrement (number_of priority))) self.old
            (Ok tt) self.new }
    {
        self.words.decrement(address, priority);
    }

    /// The count at an address falls as a process of this priority ends, without a look at it. That may lead to a
    /// successor.
    pub fn decrement(&mut self, address: Word, priority: Priority)
        requires { word_number address < length self.old.words.items.items }
        ensures { RunsAt (change (word_place (node_site self.old) address) (Decrement (number_of priority))) self.old
            (Ok tt) self.new }
    {
        self.counts_down(address, priority);
        self.note_lead(Lead::Count(address.get().saturating_sub(MOST_NEG) / 4));
    }

    /// Whether the memory has all words of a span.
    #[inline(always)]
    pub fn has_words(&self, span: &Span) -> bool
        ensures { IsTrue result ↔ HasWords (length self.now.words.items.items) span.now }
    {
        let count = self.words.items.len();
        word_count(span) <= count.saturating_sub(word_number(span.start))
    }
}
