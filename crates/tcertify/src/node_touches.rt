//! The words of a node, as the instructions of its processes touch them.

ghost use Rattle.std.specs.Prelude.{◌≡◌, ◌<◌, length, true};
ghost use Rattle.std.specs.Int.{w32, to_le_bytes};
ghost use Rattle.tagents.specs.WalkAccesses as walks;
ghost use Rattle.tprocesses.specs.Performing.{bytes_if};
ghost use Rattle.tprocesses.specs.Touching.{touch_word_at, unsent, write_word_at};
ghost use Rattle.tword.specs.Touches.{Reads};
ghost use Rattle.tcertify.specs.Cells.{cells_of};
ghost use Rattle.tcertify.specs.Nodes.{RunsAt, node_site, nothing};
ghost use Rattle.tcertify.specs.Notes.{tells_of_outputs};
ghost use Rattle.tcertify.specs.Words.{told};

use crate::cells::Cells;
use crate::node::Node;
use crate::notes::Mode;
use crate::stop::Stop;
use tword::Word;

impl Node {
    /// The bytes of the word at an address that a program reads.
    ///
    /// # Errors
    /// Those of `Words::read_word`.
    #[inline(always)]
    pub(crate) fn read_word(&mut self, address: Word) -> Result<Cells, Stop>
        ensures { RunsAt (touch_word_at (node_site self.old) Reads address) self.old (told cells_of result) self.new }
    {
        self.words.read_word(address)
    }

    /// Stores a number into the word at an address, as a program does. known: whether the number is.
    ///
    /// # Errors
    /// Those of `Words::store`; nothing is changed then.
    #[inline(always)]
    pub(crate) fn store(&mut self, address: Word, known: bool, value: Word) -> Result<(), Stop>
        ensures { RunsAt (write_word_at (node_site self.old) address (bytes_if known (to_le_bytes w32 value))) self.old
            (told nothing result) self.new }
    {
        self.words.store(address, known, value)
    }

    /// Whether no pending output has a byte of the word of this number. mode: how the look is noted.
    ///
    /// # Errors
    /// `InTransit` where one has.
    #[inline(always)]
    pub(crate) fn unsent(&mut self, number: usize, mode: Mode) -> Result<(), Stop>
        requires word { number < length self.old.words.items.items }
        requires tells { tells_of_outputs mode walks.Looks ≡ true }
        ensures done { RunsAt (unsent (node_site self.old) number) self.old (told nothing result) self.new }
        ensures sized { length self.new.words.items.items ≡ length self.old.words.items.items }
    {
        self.words.unsent(number, mode)
    }
}
