//! What is kept of places, by their numbers.

ghost use Rattle.std.specs.Prelude.{◌≡◌, ◌<◌, ◌++◌, [], List, ℕ, length, replicate, slice_index_or, slice_set};
ghost use Rattle.std.specs.Prelude.{OnErr, OnOk, false, true};
ghost use Rattle.tclocks.specs.declared.kept.Kept.{Kept};
ghost use Rattle.tclocks.specs.Tables.{IsNotedByOwner, IsNotedOnly, IsSet};

use crate::kept::{Kept, NOTHING};
use crate::mode::Mode;
use crate::step::Step;
use std::alloc::{AllocError, Global};
use std::marker::Model;

/// How many places have a page.
const PAGE: usize = 256;

/// What is kept of 256 places. It takes no memory before something is kept of one of them.
#[derive(Drop)]
struct Page {
    kept: Vec<Kept>,
}

impl Model for Page {
    ghost use Rattle.std.specs.Prelude.{List};
    ghost use Rattle.tclocks.specs.declared.kept.Kept.{Kept};

    ghost Value = { List Kept };

    ghost view = { λ p. p.kept.items };
}

impl Page {
    /// A page of which nothing is kept.
    fn new(alloc: Global) -> Page
        ensures { result ≡ [] }
    {
        Page {
            kept: Vec::new(alloc),
        }
    }

    /// What is kept at an index.
    #[inline(always)]
    fn get(&self, index: usize) -> Kept
        ensures { result ≡ slice_index_or self.now index NOTHING }
    {
        match self.kept.get(index) {
            Some(kept) => *kept,
            None => NOTHING,
        }
    }

    /// This is kept at an index.
    ///
    /// # Errors
    /// Where the allocator refuses.
    fn set(&mut self, index: usize, kept: Kept) -> Result<(), AllocError>
        requires { index < 256 }
        ensures ok { OnOk result (IsSet index kept self.old self.new) }
        ensures err { OnErr result (self.new ≡ self.old) }
    {
        let count = self.kept.len();
        if count <= index {
            add_nothing(&mut self.kept, PAGE - count)?;
        }
        self.kept[index] = kept;
        Ok(())
    }

    /// Notes an access at an index, if all that is kept there is of the same agent, as `Kept::note_own` says.
    #[inline(always)]
    fn note_own(&mut self, index: usize, step: Step, mode: Mode) -> bool
        requires { 0 < step.number }
        ensures noted { result ≡ true
            → IsNotedByOwner (record { mode = mode; step = step }) index self.old self.new }
        ensures kept { result ≡ false → self.new ≡ self.old }
    {
        let Some(kept) = self.kept.get_mut(index) else {
            return false;
        };
        kept.note_own(step, mode)
    }
}

/// What is kept of each place.
#[derive(Drop)]
pub struct KeptTable {
    alloc: Global,
    pages: Vec<Page>,
    /// How many places there are.
    count: usize,
}

impl Model for KeptTable {
    ghost use Rattle.std.specs.Prelude.{List};
    ghost use Rattle.tclocks.specs.declared.kept.Kept.{Kept};

    ghost Value = { List Kept };

    ghost use Rattle.tclocks.specs.Tables.{all_in, HavePages};

    ghost view = { λ t. all_in t.pages.items t.count };

    ghost invariant = { λ t. HavePages t.pages.items t.count };
}

impl KeptTable {
    /// No places.
    pub fn new(alloc: Global) -> KeptTable
        ensures { result ≡ [] }
    {
        KeptTable {
            alloc,
            pages: Vec::new(alloc),
            count: 0,
        }
    }

    /// How many places there are.
    pub fn len(&self) -> usize
        ensures { result ≡ length self.now }
    {
        self.count
    }

    /// Adds `count` places, of which nothing is kept.
    ///
    /// # Errors
    /// Where the allocator refuses, or there would be too many.
    pub fn add(&mut self, count: usize) -> Result<(), AllocError>
        ensures ok { OnOk result (self.new ≡ self.old ++ replicate count NOTHING) }
        ensures err { OnErr result (self.new ≡ self.old) }
    {
        let Some(total) = self.count.checked_add(count) else {
            return Err(AllocError);
        };
        let more = (total / PAGE + 1).saturating_sub(self.pages.len());
        add_pages(self.alloc, &mut self.pages, more)?;
        self.count = total;
        Ok(())
    }

    /// What is kept of a place.
    #[inline(always)]
    pub fn get(&self, place: usize) -> Kept
        requires { place < length self.now }
        ensures { result ≡ slice_index_or self.now place NOTHING }
    {
        self.pages[place / PAGE].get(place % PAGE)
    }

    /// This is kept of a place.
    ///
    /// # Errors
    /// Where the allocator refuses.
    pub fn set(&mut self, place: usize, kept: Kept) -> Result<(), AllocError>
        requires { place < length self.old }
        ensures ok { OnOk result (self.new ≡ slice_set self.old place kept) }
        ensures err { OnErr result (self.new ≡ self.old) }
    {
        self.pages[place / PAGE].set(place % PAGE, kept)
    }

    /// Notes an access of a place, if all that is kept of it is of the same agent and it puts, claims or looks: whether
    /// it did. It does not where nothing is kept of the places around.
    #[inline(always)]
    pub fn note_own(&mut self, place: usize, step: Step, mode: Mode) -> bool
        requires number { 0 < step.number }
        requires place { place < length self.old }
        ensures noted { result ≡ true → IsNotedOnly (record { mode = mode; step = step }) place self.old self.new }
        ensures kept { result ≡ false → self.new ≡ self.old }
    {
        self.pages[place / PAGE].note_own(place % PAGE, step, mode)
    }
}

/// Adds `count` pages, of which nothing is kept.
fn add_pages(alloc: Global, pages: &mut Vec<Page>, count: usize) -> Result<(), AllocError>
    ensures ok { OnOk result (pages.new.items ≡ pages.old.items ++ replicate count []) }
    ensures err { OnErr result (pages.new.items ≡ pages.old.items) }
{
    pages.reserve(count)?;
    for _ in 0..count {
        pages.push_reserved(Page::new(alloc));
    }
    Ok(())
}

/// Adds `count` places, of which nothing is kept.
fn add_nothing(kept: &mut Vec<Kept>, count: usize) -> Result<(), AllocError>
    ensures ok { OnOk result (kept.new.items ≡ kept.old.items ++ replicate count NOTHING) }
    ensures err { OnErr result (kept.new.items ≡ kept.old.items) }
{
    kept.reserve(count)?;
    for _ in 0..count {
        kept.push_reserved(NOTHING);
    }
    Ok(())
}
