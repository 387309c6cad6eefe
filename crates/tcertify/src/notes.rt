//! Notes of what a step has touched.

ghost use Rattle.std.specs.Prelude.{false, true, ◌≡◌, [], length};
ghost use Rattle.tagents.specs.WalkAccesses as walks;
ghost use Rattle.tprocesses.specs.Changes.{ChangeKind};
ghost use Rattle.tprocesses.specs.Places.{Place};
ghost use Rattle.tcertify.specs.Notes.{Keeps, MayRaise, Tells, tells_of};

use crate::priority::Priority;
use std::alloc::Global;

/// How a step has touched a place. A word, and how many pending outputs have a byte of it, are one place.
#[derive(Clone, Copy, Debug)]
pub enum Mode {
    /// It looked at the value.
    Looks,
    /// It looked at the word, and at its pending outputs.
    Claims,
    /// It put a value there. It may have looked at it, and at its pending outputs.
    Puts,
    /// It changed the number of the pending outputs of the word, without a look.
    Lends,
    /// It took a channel word, without a look at it. It may have looked at its pending outputs.
    Engages,
    /// It counted down a count, as a process of this priority ended, without a look at it. It may have looked at its
    /// pending outputs.
    CountsDown(Priority),
    /// It added a number, without a look.
    Adds,
    /// It set a flag, without a look.
    Raises,
}

impl Mode {
    /// Whether a note of this mode tells of all accesses of which one of the other mode tells.
    #[inline(always)]
    fn tells(self, other: Mode) -> bool
        ensures { result ≡ true → (place : Place) (access : walks.Mode ChangeKind)
            → tells_of other place access ≡ true → tells_of self place access ≡ true }
    {
        match (self, other) {
            (Mode::Looks, Mode::Looks)
            | (Mode::Claims, Mode::Looks | Mode::Claims)
            | (Mode::Puts, Mode::Looks | Mode::Claims | Mode::Puts)
            | (Mode::Lends, Mode::Lends)
            | (Mode::Adds, Mode::Adds)
            | (Mode::Raises, Mode::Raises) => true,
            _ => false,
        }
    }
}

/// A step has touched the place of this number.
#[derive(Clone, Copy, Debug)]
pub struct Note {
    pub place: u32,
    pub mode: Mode,
}

/// How many hints there are.
const HINTS: usize = 256;

/// What a step has touched. Where memory is out, a note gets lost. Notes of earlier steps may stand first.
#[derive(Drop)]
pub struct Notes {
    pub items: Vec<Note>,
    /// Whether a note got lost.
    pub is_lost: bool,
    /// So many of the first items are those of earlier steps.
    pub earlier: usize,
    /// Where the last note of a place may be. It is only a hint, so the note that is there is looked at.
    hints: [u16; HINTS],
    /// Where that of another place may be which has the same hint.
    older_hints: [u16; HINTS],
}

impl Notes {
    /// No notes.
    pub fn new(alloc: Global) -> Notes
        ensures items { result.items.items ≡ [] }
        ensures none { result.is_lost ≡ false }
    {
        Notes {
            items: Vec::new(alloc),
            is_lost: false,
            earlier: 0,
            hints: [0; HINTS],
            older_hints: [0; HINTS],
        }
    }

    /// Notes that the place of this number is touched so. Nothing is done where a note tells of that already.
    #[inline(always)]
    pub fn add(&mut self, place: u32, mode: Mode)
        ensures keeps { Keeps self.old self.new }
        ensures tells { Tells self.new place mode }
    {
        if self.tells(place, mode) {
            return;
        }
        self.note(place, mode);
    }

    /// Whether the note of this number is one of the place, and tells of all accesses of which one of this mode tells.
    #[inline(always)]
    fn tells_at(&self, number: u16, place: u32, mode: Mode) -> bool
        ensures { result ≡ true → Tells self.now place mode }
    {
        match self.items.get(number as usize) {
            Some(known) => known.place == place && known.mode.tells(mode),
            None => false,
        }
    }

    /// Whether a note at a hint of a place tells of all accesses of which one of this mode tells.
    #[inline(always)]
    pub(crate) fn tells(&self, place: u32, mode: Mode) -> bool
        ensures { result ≡ true → Tells self.now place mode }
    {
        let slot = place as usize % HINTS;
        self.tells_at(self.hints[slot], place, mode)
            || self.tells_at(self.older_hints[slot], place, mode)
    }

    /// Whether the note of this number is one of this step at the place, and one of this mode tells of all accesses of
    /// which it tells.
    #[inline(always)]
    fn may_raise(&self, number: usize, place: u32, mode: Mode) -> bool
        ensures { result ≡ true → MayRaise self.now number place mode }
    {
        match self.items.get(number) {
            Some(known) => self.earlier <= number && known.place == place && mode.tells(known.mode),
            None => false,
        }
    }

    /// Notes it in place of the note at the hint, if that may be raised; else behind the other notes.
    #[inline(never)]
    fn note(&mut self, place: u32, mode: Mode)
        ensures keeps { Keeps self.old self.new }
        ensures tells { Tells self.new place mode }
    {
        let hint = self.hints[place as usize % HINTS] as usize;
        if self.may_raise(hint, place, mode) {
            self.items[hint].mode = mode;
            return;
        }
        self.push(place, mode);
    }

    /// Notes it behind the other notes.
    #[inline(always)]
    fn push(&mut self, place: u32, mode: Mode)
        ensures keeps { Keeps self.old self.new }
        ensures tells { Tells self.new place mode }
    {
        let count = self.items.len();
        if self.items.push(Note { place, mode }).is_err() {
            self.is_lost = true;
            return;
        }
        if let Ok(hint) = u16::try_from(count) {
            let slot = place as usize % HINTS;
            self.older_hints[slot] = self.hints[slot];
            self.hints[slot] = hint;
        }
    }

    /// Forgets all notes, before a step.
    pub fn clear(&mut self)
        ensures items { self.new.items.items ≡ [] }
        ensures none { self.new.is_lost ≡ false }
        ensures earlier { self.new.earlier ≡ length self.new.items.items }
    {
        self.items.clear();
        self.keep();
    }

    /// All notes are those of earlier steps, before a step.
    #[inline(always)]
    pub fn keep(&mut self)
        ensures items { self.new.items.items ≡ self.old.items.items }
        ensures none { self.new.is_lost ≡ false }
        ensures earlier { self.new.earlier ≡ length self.new.items.items }
    {
        self.is_lost = false;
        self.earlier = self.items.len();
    }
}
