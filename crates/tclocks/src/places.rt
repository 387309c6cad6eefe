//! What is kept of all places.

ghost use Rattle.std.specs.Prelude.{◌≡◌, ◌<◌, ◌++◌, [], List, IfErr, IfOk, length, replicate, OnErr, OnOk};
ghost use Rattle.std.specs.Prelude.{◌≢◌, map, slice_index_or, true};
ghost use Rattle.tclocks.specs.declared.kept.Kept.TheVariants.{InList};
ghost use Rattle.tclocks.specs.declared.step.Access.{Access};
ghost use Rattle.tclocks.specs.Kept.{accesses_of, AreOwned, IsKeptAt, IsNotedAt, IsSpare};
ghost use Rattle.tclocks.specs.Places.{first_race};
ghost use Rattle.tclocks.specs.Refusals.{IsDue};

use crate::access_list::AccessList;
use crate::clock::Clock;
use crate::kept::{Kept, NOTHING};
use crate::kept_table::KeptTable;
use crate::mode::Mode;
use crate::refusal::Refusal;
use crate::step::{Access, Step};
use std::alloc::{AllocError, Global};
use std::marker::Model;
use std::mem;

/// What is kept of all places. A place takes 12 bytes, once something is kept of it or of one of those around it; those
/// of which more has to be kept have a list besides.
#[derive(Drop)]
pub struct Places {
    kept: KeptTable,
    lists: Vec<AccessList>,
    /// The place to which each list was given last.
    owners: Vec<usize>,
    /// Lists that places have given back.
    spare: Vec<u32>,
    /// A list for the time of one access.
    scratch: AccessList,
}

impl Model for Places {
    ghost use Rattle.std.specs.Prelude.{List, map};
    ghost use Rattle.tclocks.specs.declared.step.Access.{Access};

    ghost Value = { List (List Access) };

    ghost use Rattle.tclocks.specs.Kept.{accesses_of, AreOwned};

    ghost view = { λ p. map (accesses_of p.lists.items) p.kept };

    ghost invariant = { λ p. AreOwned p.kept p.lists.items p.owners.items };
}

impl Places {
    /// No places.
    pub fn new(alloc: Global) -> Places
        ensures { result ≡ [] }
    {
        Places {
            kept: KeptTable::new(alloc),
            lists: Vec::new(alloc),
            owners: Vec::new(alloc),
            spare: Vec::new(alloc),
            scratch: AccessList::new(alloc),
        }
    }

    /// How many places there are.
    pub fn len(&self) -> usize
        ensures { result ≡ length self.now }
    {
        self.kept.len()
    }

    /// Adds `count` places.
    pub fn add(&mut self, count: usize) -> Result<(), AllocError>
        ensures ok { OnOk result (self.new ≡ self.old ++ replicate count []) }
        ensures err { OnErr result (self.new ≡ self.old) }
    {
        self.kept.add(count)
    }

    /// An access of a step by an agent with this clock is noted at a place, if it races with none that is kept there.
    ///
    /// # Errors
    /// `Race` with the first that it races with; `OutOfMemory` where the allocator refuses.
    #[inline(always)]
    pub fn access(
        &mut self,
        alloc: Global,
        clock: &Clock,
        place: usize,
        step: Step,
        mode: Mode,
    ) -> Result<(), Refusal>
        requires number { 0 < step.number }
        requires place { place < length self.old }
        ensures ok { OnOk result (IsNotedAt clock.now (record { mode = mode; step = step }) place self.old self.new) }
        ensures refused { IfErr result (IsDue step.agent clock.now mode (slice_index_or self.old place [])) }
        ensures err { OnErr result (self.new ≡ self.old) }
    {
        if self.kept.note_own(place, step, mode) {
            return Ok(());
        }
        self.access_otherwise(alloc, clock, place, Access { mode, step })
    }

    /// An access is noted as `access` says. It stays out of line, so that what is inlined is small.
    #[inline(never)]
    fn access_otherwise(
        &mut self,
        alloc: Global,
        clock: &Clock,
        place: usize,
        access: Access,
    ) -> Result<(), Refusal>
        requires number { 0 < access.step.number }
        requires place { place < length self.old }
        ensures ok { OnOk result (IsNotedAt clock.now access place self.old self.new) }
        ensures refused { IfErr result
            (IsDue access.step.agent clock.now access.mode (slice_index_or self.old place [])) }
        ensures err { OnErr result (self.new ≡ self.old) }
    {
        if let Some(kept) = self.kept.get(place).with_known(clock, access) {
            self.kept.set(place, kept)?;
            return Ok(());
        }
        if let Some(race) = self.first_race(clock, place, access) {
            return Err(Refusal::Race(race));
        }
        self.note(alloc, clock, place, access)?;
        Ok(())
    }

    /// The first access that is kept of a place with which one by an agent with this clock races.
    fn first_race(&self, clock: &Clock, place: usize, access: Access) -> Option<Access>
        requires { place < length self.now }
        ensures { result
            ≡ first_race access.step.agent clock.now access.mode (slice_index_or self.now place []) }
    {
        match self.kept.get(place) {
            Kept::InList(list) => self.lists[list as usize].first_race(clock, access),
            kept => kept.first_race(clock, access),
        }
    }

    /// An access by an agent with this clock is noted at a place.
    fn note(
        &mut self,
        alloc: Global,
        clock: &Clock,
        place: usize,
        access: Access,
    ) -> Result<(), AllocError>
        requires { place < length self.old }
        ensures ok { OnOk result (IsKeptAt clock.now access place self.old self.new) }
        ensures err { OnErr result (self.new ≡ self.old) }
    {
        if let Kept::InList(list) = self.kept.get(place) {
            self.lists[list as usize].note(clock, access)?;
            self.shorten(place);
            return Ok(());
        }
        self.note_widely(alloc, clock, place, access)
    }

    /// An access is noted as `note` says, where what is kept may need a list from now on.
    fn note_widely(
        &mut self,
        alloc: Global,
        clock: &Clock,
        place: usize,
        access: Access,
    ) -> Result<(), AllocError>
        requires { place < length self.old }
        ensures ok { OnOk result (IsKeptAt clock.now access place self.old self.new) }
        ensures err { OnErr result (self.new ≡ self.old) }
    {
        self.scratch
            .copy_from(self.lists.as_slice(), self.kept.get(place))?;
        self.scratch.note(clock, access)?;
        if let Some(kept) = Kept::of(self.scratch.as_slice()) {
            return self.kept.set(place, kept);
        }
        let list = spare_list(
            alloc,
            &self.kept,
            &mut self.lists,
            &mut self.owners,
            &mut self.spare,
        )?;
        self.kept.set(place, Kept::InList(list))?;
        mem::swap(&mut self.lists[list as usize], &mut self.scratch);
        self.owners[list as usize] = place;
        Ok(())
    }

    /// What is kept of a place is kept without its list, where it fits.
    fn shorten(&mut self, place: usize)
        requires { place < length self.old }
        ensures { self.new ≡ self.old }
    {
        let Kept::InList(list) = self.kept.get(place) else {
            return;
        };
        if let Some(kept) = Kept::of(self.lists[list as usize].as_slice()) {
            if self.kept.set(place, kept).is_ok() {
                // Without memory for its number the list is not used again.
                let _ = self.spare.push(list);
            }
        }
    }
}

/// A list that no place has: one that was given back, or a new one.
fn spare_list(
    alloc: Global,
    kept: &KeptTable,
    lists: &mut Vec<AccessList>,
    owners: &mut Vec<usize>,
    spare: &mut Vec<u32>,
) -> Result<u32, AllocError>
    requires { AreOwned kept.now lists.old.items owners.old.items }
    ensures spare { IfOk result (λ list. IsSpare kept.now owners.new.items list) }
    ensures owned { AreOwned kept.now lists.new.items owners.new.items }
    ensures same { map (accesses_of lists.new.items) kept.now ≡ map (accesses_of lists.old.items) kept.now }
{
    if let Some(list) = spare.pop() {
        let number = list as usize;
        if number < owners.len() && is_spare(kept, owners[number], list) {
            return Ok(list);
        }
    }
    let Ok(list) = u32::try_from(lists.len()) else {
        return Err(AllocError);
    };
    lists.reserve(1)?;
    owners.push(0)?;
    lists.push_reserved(AccessList::new(alloc));
    Ok(list)
}

/// Whether a place does not have this list.
fn is_spare(kept: &KeptTable, place: usize, list: u32) -> bool
    ensures { result ≡ true → place < length kept.now → slice_index_or kept.now place NOTHING ≢ InList list }
{
    if kept.len() <= place {
        return true;
    }
    match kept.get(place) {
        Kept::InList(other) => other != list,
        _ => true,
    }
}
