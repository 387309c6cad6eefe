//! The words of a node, as programs and the scheduler touch them.

ghost use Rattle.std.specs.Prelude.{All, false, ◌≡◌, ◌<◌, ◌≤◌, ◌+◌, ◌*◌, ◌/◌, ◌^◌, ◌∷◌, [], IfOk, OnOk, Ok, length};
ghost use Rattle.std.specs.Prelude.{if◌then◌else◌};
ghost use Rattle.std.specs.Int.{w32, to_le_bytes};
ghost use Rattle.tword.specs.Stores.{Store};
ghost use Rattle.tword.specs.Actions.{or_break};
ghost use Rattle.tword.specs.Touches.{Reads, Writes, byte_span, place_break, word_place_break};
ghost use Rattle.tword.specs.Words.{most_neg, word_below};
ghost use Rattle.tprocesses.specs.Standing.{unsave, unsave_upper, unsave_word};
ghost use Rattle.tprocesses.specs.Values.{Saved};
ghost use Rattle.tprocesses.specs.Places.{WordAt};
ghost use Rattle.tprocesses.specs.Values.{IsWord};
ghost use Rattle.tprocesses.specs.Changes.{Decrement, Engage, Put, decremented, engaged, used_word};
ghost use Rattle.tprocesses.specs.Parts.{change};
ghost use Rattle.tprocesses.specs.Touching.{forgotten, free_cells, kept, same_use, save, save_upper, save_word};
ghost use Rattle.tprocesses.specs.Touching.{touch_word, touch_word_at, word_number, word_place, write, write_word_at};
ghost use Rattle.tprocesses.specs.Performing.{bytes_if};
ghost use Rattle.tcertify.specs.Cells.{cells_of};
ghost use Rattle.tcertify.specs.Instructions.{touch_byte};
ghost use Rattle.tcertify.specs.Running.{State, run_part};
ghost use Rattle.tword.specs.Accesses.{IsMemorySize};
ghost use Rattle.tcertify.specs.Words.{HasCells, IsFresh, IsSet, IsTouched, Runs, number_of, site_of};
ghost use Rattle.tcertify.specs.Words.{told, use_of};

use crate::cells::Cells;
use crate::notes::{Mode, Notes};
use crate::priority::Priority;
use crate::stop::Stop;
use crate::stored::{StoredWord, Words};
use crate::word_use::WordUse;
use std::alloc::{AllocError, Global};
use tword::limits::MOST_NEG;
use tword::{Break, Kind, Word};

/// How many words at the lowest addresses are closed to programs.
const CLOSED_WORDS: usize = 18;

/// A channel word that names no process (the Compiler Writer's Guide: NotProcess).
const NOT_PROCESS: u32 = MOST_NEG;

impl StoredWord {
    /// A word of a memory in which nothing was loaded.
    #[inline(always)]
    fn fresh() -> StoredWord
        ensures { IsFresh result }
    {
        StoredWord {
            cells: Cells::known(Word::new(0)),
            used: WordUse::Free,
            sending: 0,
        }
    }
}

impl Words {
    /// The words of a memory of this many bytes in which nothing was loaded, of the node of this number and kind.
    /// first_place: the number of the place of the first word.
    ///
    /// # Errors
    /// Where the allocator refuses.
    pub fn new(
        alloc: Global,
        size: u32,
        number: u32,
        kind: Kind,
        first_place: u32,
    ) -> Result<Words, AllocError>
        requires memory { IsMemorySize kind size }
        requires places { first_place + size / 4 ≤ 2 ^ 32 }
        ensures words { IfOk result (λ words. All IsFresh words.items.items) }
        ensures site { IfOk result (λ words. site_of words
            ≡ record { number = number; size = size; kind = kind }) }
        ensures first { IfOk result (λ words. words.first_place ≡ first_place) }
        ensures notes { IfOk result (λ words. (words.notes.items.items ≡ []) × (words.notes.is_lost ≡ false)) }
    {
        let word = StoredWord::fresh();
        let count = size as usize / 4;
        Ok(Words {
            items: vec![in alloc; word; count]?,
            number,
            kind,
            first_place,
            notes: Notes::new(alloc),
        })
    }

    /// Notes that the word of this number is touched so.
    #[inline(always)]
    pub(crate) fn note(&mut self, number: usize, mode: Mode)
        requires { number < length self.old.items.items }
        ensures { IsTouched self.old number mode self.new }
    {
        self.notes.add(self.first_place + number as u32, mode);
    }

    /// Sets a word, for a use, and notes nothing.
    #[inline(always)]
    pub(crate) fn set(&mut self, number: usize, cells: Cells, used: WordUse)
        requires { number < length self.old.items.items }
        ensures { IsSet self.old number cells used self.new }
    {
        let stored = &mut self.items[number];
        stored.cells = cells;
        stored.used = used;
    }

    /// The number of the word at an address that programs may use.
    ///
    /// # Errors
    /// `Unaligned` where the address is no multiple of 4, else `BadAddress`, else `Reserved`.
    #[inline(always)]
    pub fn number_at(&self, address: Word) -> Result<usize, Break>
        ensures checks { result ≡ or_break (word_place_break (4 * length self.now.items.items) address)
            (word_number address) }
        ensures inside { IfOk result (λ number. number < length self.now.items.items) }
    {
        if address.get() % 4 != 0 {
            return Err(Break::Unaligned);
        }
        let number = (address.get().wrapping_sub(MOST_NEG) / 4) as usize;
        if self.items.len() <= number {
            return Err(Break::BadAddress);
        }
        if number < CLOSED_WORDS {
            return Err(Break::Reserved);
        }
        Ok(number)
    }

    /// The number of the word that has the byte at an address that programs may use.
    ///
    /// # Errors
    /// `BadAddress` where the memory does not have it, else `Reserved`.
    #[inline(always)]
    pub fn byte_number_at(&self, address: Word) -> Result<usize, Break>
        ensures checks { result ≡ or_break (place_break (4 * length self.now.items.items) (byte_span address))
            (word_number address) }
        ensures inside { IfOk result (λ number. number < length self.now.items.items) }
        ensures above { OnOk result (most_neg ≤ address) }
    {
        let number = (address.get().wrapping_sub(MOST_NEG) / 4) as usize;
        if self.items.len() <= number {
            return Err(Break::BadAddress);
        }
        if number < CLOSED_WORDS {
            return Err(Break::Reserved);
        }
        Ok(number)
    }

    /// The bytes of a word that a program reads, by the number of the word.
    ///
    /// # Errors
    /// `SavedWord`, `InTransit` or `WordInUse`, by what the word is in use for.
    #[inline(always)]
    pub fn see(&mut self, number: usize) -> Result<Cells, Stop>
        requires { number < length self.old.items.items }
        ensures change { Runs (touch_word (site_of self.old) Reads number) self.old (told cells_of result) self.new }
        ensures site { site_of self.new ≡ site_of self.old }
        ensures words { self.new.items.items ≡ self.old.items.items }
        ensures cells { IfOk result (λ cells. HasCells self.old.items.items number (cells_of cells)) }
    {
        self.note(number, Mode::Looks);
        let stored = &self.items[number];
        free_for_programs(stored.used)?;
        Ok(stored.cells)
    }

    /// The bytes of a word that a program writes, by the number of the word.
    ///
    /// # Errors
    /// Those of `see`, else `InTransit` where a pending output has a byte of it.
    #[inline(always)]
    pub fn take(&mut self, number: usize) -> Result<Cells, Stop>
        requires { number < length self.old.items.items }
        ensures change { Runs (touch_word (site_of self.old) Writes number) self.old (told cells_of result) self.new }
        ensures site { site_of self.new ≡ site_of self.old }
        ensures words { self.new.items.items ≡ self.old.items.items }
        ensures cells { IfOk result (λ cells. HasCells self.old.items.items number (cells_of cells)) }
    {
        self.note(number, Mode::Claims);
        let stored = &self.items[number];
        free_for_programs(stored.used)?;
        if stored.sending != 0 {
            return Err(Stop::Breaks(Break::InTransit));
        }
        Ok(stored.cells)
    }

    /// Sets a word, for a use.
    #[inline(always)]
    pub fn put(&mut self, number: usize, cells: Cells, used: WordUse)
        requires { number < length self.old.items.items }
        ensures change { Runs (change (WordAt self.old.number number)
            (Put (IsWord (record { cells = cells_of cells; used = use_of used })))) self.old (Ok tt) self.new }
        ensures site { site_of self.new ≡ site_of self.old }
        ensures sized { length self.new.items.items ≡ length self.old.items.items }
    {
        self.note(number, Mode::Puts);
        self.set(number, cells, used);
    }

    /// The bytes of the word at an address that a program reads.
    ///
    /// # Errors
    /// Those of `number_at`, else those of `see`.
    #[inline(always)]
    pub fn read_word(&mut self, address: Word) -> Result<Cells, Stop>
        ensures change { Runs (touch_word_at (site_of self.old) Reads address) self.old (told cells_of result)
            self.new }
        ensures site { site_of self.new ≡ site_of self.old }
    {
        let number = self.number_at(address)?;
        self.see(number)
    }

    /// The byte at an address that a program reads, where it is known.
    ///
    /// # Errors
    /// Those of `byte_number_at`, else those of `see`.
    #[inline(always)]
    pub fn read_byte(&mut self, address: Word) -> Result<Option<u8>, Stop>
        ensures change { Runs (touch_byte (site_of self.old) Reads address) self.old (told (λ cell. cell ∷ []) result)
            self.new }
        ensures site { site_of self.new ≡ site_of self.old }
    {
        let number = self.byte_number_at(address)?;
        let cells = self.see(number)?;
        Ok(cells.byte((address.get() % 4) as u8))
    }

    /// The bytes of the word at an address that a program writes.
    ///
    /// # Errors
    /// Those of `number_at`, else those of `take`.
    #[inline(always)]
    pub fn take_word(&mut self, address: Word) -> Result<Cells, Stop>
        ensures change { Runs (touch_word_at (site_of self.old) Writes address) self.old (told cells_of result)
            self.new }
        ensures site { site_of self.new ≡ site_of self.old }
    {
        let number = self.number_at(address)?;
        self.take(number)
    }

    /// Sets the word at an address, as a program does.
    ///
    /// # Errors
    /// Those of `take_word`; nothing is changed then.
    #[inline(always)]
    pub fn write_word(&mut self, address: Word, cells: Cells) -> Result<(), Stop>
        ensures change { Runs (write_word_at (site_of self.old) address (cells_of cells)) self.old
            (told (λ _. tt) result) self.new }
        ensures site { site_of self.new ≡ site_of self.old }
    {
        let number = self.number_at(address)?;
        self.take(number)?;
        self.put(number, cells, WordUse::Free);
        Ok(())
    }

    /// Stores a number into the word at an address, as a program does. known: whether the number is.
    ///
    /// # Errors
    /// Those of `take_word`; nothing is changed then.
    #[inline(always)]
    pub fn store(&mut self, address: Word, known: bool, value: Word) -> Result<(), Stop>
        ensures change { Runs (write_word_at (site_of self.old) address (bytes_if known (to_le_bytes w32 value)))
            self.old (told (λ _. tt) result) self.new }
        ensures site { site_of self.new ≡ site_of self.old }
    {
        self.write_word(address, Cells::known_if(known, value))
    }

    /// The word at an address becomes a saved word: its bytes stay, or the scheduler may change them from here on.
    ///
    /// # Errors
    /// Those of `take_word`; nothing is changed then.
    #[inline(always)]
    pub fn save_word(&mut self, address: Word, keeps: bool) -> Result<(), Stop>
        ensures change { Runs (save_word (site_of self.old) address (if keeps then kept else forgotten)) self.old
            (told (λ _. tt) result) self.new }
        ensures site { site_of self.new ≡ site_of self.old }
    {
        let number = self.number_at(address)?;
        let cells = self.take(number)?;
        self.put(number, cells.kept_if(keeps), WordUse::Saved);
        Ok(())
    }

    /// The three words below a workspace become saved words. keeps: whether the lowest one stays as it is.
    ///
    /// # Errors
    /// Those of `take_word` of the first of them, from the lowest up, that may not be written.
    pub fn save(&mut self, workspace: Word, keeps: bool) -> Result<(), Stop>
        ensures change { Runs (save (site_of self.old) workspace (if keeps then kept else forgotten)) self.old
            (told (λ _. tt) result) self.new }
        ensures site { site_of self.new ≡ site_of self.old }
    {
        self.save_word(workspace.below(3), keeps)?;
        self.save_upper(workspace)
    }

    /// The upper two words below a workspace become saved words.
    ///
    /// # Errors
    /// Those of `take_word` of the first of them, from the lower up, that may not be written.
    #[inline(always)]
    pub fn save_upper(&mut self, workspace: Word) -> Result<(), Stop>
        ensures change { Runs (save_upper (site_of self.old) workspace) self.old (told (λ _. tt) result) self.new }
        ensures site { site_of self.new ≡ site_of self.old }
    {
        self.save_word(workspace.below(2), false)?;
        self.save_word(workspace.below(1), false)
    }

    /// Sets the byte at an address, as a program does.
    ///
    /// # Errors
    /// Those of `byte_number_at`, else those of `take`; nothing is changed then.
    #[inline(always)]
    pub fn write_byte(&mut self, address: Word, cell: Option<u8>) -> Result<(), Stop>
        ensures change { Runs (write (site_of self.old) (byte_span address) (cell ∷ [])) self.old
            (told (λ _. tt) result) self.new }
        ensures site { site_of self.new ≡ site_of self.old }
    {
        let number = self.byte_number_at(address)?;
        let cells = self.take(number)?;
        let left = cells.with_byte((address.get() % 4) as u8, cell);
        self.put(number, left, WordUse::Free);
        Ok(())
    }

    /// The saved word at an address is one for programs again.
    ///
    /// # Errors
    /// `WordInUse` where it is no saved word.
    #[inline(always)]
    pub fn unsave_word(&mut self, address: Word) -> Result<(), Stop>
        requires { word_number address < length self.old.items.items }
        ensures change { Runs (unsave_word (site_of self.old) address) self.old (told (λ _. tt) result) self.new }
        ensures site { site_of self.new ≡ site_of self.old }
        ensures sized { length self.new.items.items ≡ length self.old.items.items }
    {
        let number = (address.get().saturating_sub(MOST_NEG) / 4) as usize;
        self.note(number, Mode::Puts);
        let stored = &self.items[number];
        if !is_saved(stored.used) {
            return Err(Stop::WordInUse);
        }
        let cells = stored.cells;
        self.set(number, cells, WordUse::Free);
        Ok(())
    }

    /// The three words below a workspace are for programs again.
    ///
    /// # Errors
    /// `WordInUse` where one of them is no saved word.
    pub fn unsave(&mut self, workspace: Word) -> Result<(), Stop>
        requires lowest { word_number (word_below workspace 3) < length self.old.items.items }
        requires middle { word_number (word_below workspace 2) < length self.old.items.items }
        requires highest { word_number (word_below workspace 1) < length self.old.items.items }
        ensures change { Runs (unsave (site_of self.old) workspace) self.old (told (λ _. tt) result) self.new }
        ensures site { site_of self.new ≡ site_of self.old }
    {
        self.unsave_word(workspace.below(3))?;
        self.unsave_upper(workspace)
    }

    /// The upper two words below a workspace are for programs again.
    ///
    /// # Errors
    /// `WordInUse` where one of them is no saved word.
    #[inline(always)]
    pub fn unsave_upper(&mut self, workspace: Word) -> Result<(), Stop>
        requires lower { word_number (word_below workspace 2) < length self.old.items.items }
        requires upper { word_number (word_below workspace 1) < length self.old.items.items }
        ensures change { Runs (unsave_upper (site_of self.old) workspace) self.old (told (λ _. tt) result) self.new }
        ensures site { site_of self.new ≡ site_of self.old }
    {
        self.unsave_word(workspace.below(2))?;
        self.unsave_word(workspace.below(1))
    }

    /// The channel word at an address is taken by one of its two processes, without a look at it.
    #[inline(always)]
    pub fn engage(&mut self, address: Word)
        requires { word_number address < length self.old.items.items }
        ensures change { Runs (change (word_place (site_of self.old) address) Engage) self.old (Ok tt) self.new }
        ensures site { site_of self.new ≡ site_of self.old }
        ensures sized { length self.new.items.items ≡ length self.old.items.items }
    {
        let number = (address.get().saturating_sub(MOST_NEG) / 4) as usize;
        self.note(number, Mode::Engages);
        let stored = &self.items[number];
        let used = taken(stored.used, &stored.cells);
        self.set(number, Cells::unknown(), used);
    }

    /// The count at an address falls as a process of this priority ends, without a look at it.
    #[inline(always)]
    pub fn decrement(&mut self, address: Word, priority: Priority)
        requires { word_number address < length self.old.items.items }
        ensures change { Runs (change (word_place (site_of self.old) address) (Decrement (number_of priority)))
            self.old (Ok tt) self.new }
        ensures site { site_of self.new ≡ site_of self.old }
        ensures sized { length self.new.items.items ≡ length self.old.items.items }
    {
        let number = (address.get().saturating_sub(MOST_NEG) / 4) as usize;
        self.note(number, Mode::CountsDown(priority));
        let stored = &self.items[number];
        let left = counted_down(stored.used, &stored.cells, priority);
        self.set(number, left.0, left.1);
    }
}

/// Whether programs may use a word, by what it is in use for.
///
/// # Errors
/// `SavedWord`, `InTransit` or `WordInUse`.
#[inline(always)]
fn free_for_programs(used: WordUse) -> Result<(), Stop>
    ensures { (cells : Store) (s : State)
        → run_part (free_cells (use_of used) cells) s ≡ (told (λ _. cells) result, s) }
{
    match used {
        WordUse::Free => Ok(()),
        WordUse::Saved => Err(Stop::Breaks(Break::SavedWord)),
        WordUse::Receiving => Err(Stop::Breaks(Break::InTransit)),
        WordUse::Engaged
        | WordUse::Choosing
        | WordUse::Awaiting
        | WordUse::LastHigh
        | WordUse::LastLow
        | WordUse::Spoilt => Err(Stop::WordInUse),
    }
}

/// Whether a word is a saved word.
#[inline(always)]
fn is_saved(used: WordUse) -> bool
    ensures { result ≡ same_use (use_of used) Saved }
{
    match used {
        WordUse::Saved => true,
        WordUse::Free
        | WordUse::Receiving
        | WordUse::Engaged
        | WordUse::Choosing
        | WordUse::Awaiting
        | WordUse::LastHigh
        | WordUse::LastLow
        | WordUse::Spoilt => false,
    }
}

/// What a channel word is in use for once one of its two processes has come.
#[inline(always)]
fn taken(used: WordUse, cells: &Cells) -> WordUse
    ensures { used_word (use_of result) ≡ engaged (use_of used) (cells_of cells.now) }
{
    match used {
        WordUse::Free => {
            if !cells.are_known() {
                WordUse::Spoilt
            } else if cells.word().get() == NOT_PROCESS {
                WordUse::Engaged
            } else {
                WordUse::Spoilt
            }
        }
        WordUse::Engaged => WordUse::Engaged,
        WordUse::Saved
        | WordUse::Receiving
        | WordUse::Choosing
        | WordUse::Awaiting
        | WordUse::LastHigh
        | WordUse::LastLow
        | WordUse::Spoilt => WordUse::Spoilt,
    }
}

/// The bytes of a count, and what it is in use for, once a process of this priority has ended.
#[inline(always)]
fn counted_down(used: WordUse, cells: &Cells, priority: Priority) -> (Cells, WordUse)
    ensures { record { cells = cells_of result.0; used = use_of result.1 }
        ≡ decremented (number_of priority) (use_of used) (cells_of cells.now) }
{
    match used {
        WordUse::Free => {
            if !cells.are_known() {
                return (Cells::unknown(), WordUse::Spoilt);
            }
            let count = cells.word();
            if count.get() == 1 {
                return (Cells::unknown(), WordUse::last(priority));
            }
            (Cells::known(count.minus(Word::new(1))), WordUse::Free)
        }
        WordUse::Saved
        | WordUse::Receiving
        | WordUse::Engaged
        | WordUse::Choosing
        | WordUse::Awaiting
        | WordUse::LastHigh
        | WordUse::LastLow
        | WordUse::Spoilt => (Cells::unknown(), WordUse::Spoilt),
    }
}
