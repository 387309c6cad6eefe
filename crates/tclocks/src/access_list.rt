//! Accesses of a place in a list.

ghost use Rattle.std.specs.Prelude.{◌≡◌, ◌++◌, [], OnErr, OnOk};
ghost use Rattle.tclocks.specs.Kept.{accesses_of, unless_none};
ghost use Rattle.tclocks.specs.Places.{first_race, is_replaced, NotesAccess};

use crate::clock::Clock;
use crate::kept::{Kept, knows, races};
use crate::step::Access;
use std::alloc::{AllocError, Global};
use std::marker::Model;

/// The accesses of a place that a later one may race with.
#[derive(Drop)]
pub struct AccessList {
    accesses: Vec<Access>,
}

impl Model for AccessList {
    ghost use Rattle.std.specs.Prelude.{List};
    ghost use Rattle.tclocks.specs.declared.step.Access.{Access};

    ghost Value = { List Access };

    ghost view = { λ a. a.accesses.items };
}

impl AccessList {
    /// None yet.
    pub fn new(alloc: Global) -> AccessList
        ensures { result ≡ [] }
    {
        AccessList {
            accesses: Vec::new(alloc),
        }
    }

    /// All of them.
    pub fn as_slice(&self) -> &[Access]
        ensures { result.now ≡ self.now }
    {
        self.accesses.as_slice()
    }

    /// The list becomes that of what is kept of a place.
    pub fn copy_from(&mut self, lists: &[AccessList], kept: Kept) -> Result<(), AllocError>
        ensures { OnOk result (self.new ≡ accesses_of lists.now kept) }
    {
        self.accesses.clear();
        if let Some((first, second)) = kept.two() {
            self.add(first)?;
            self.add(second)?;
        } else if let Kept::InList(list) = kept {
            if let Some(list) = lists.get(list as usize) {
                self.accesses.extend_from_slice(list.as_slice())?;
            }
        }
        Ok(())
    }

    /// An access is added, unless its number is 0.
    fn add(&mut self, access: Access) -> Result<(), AllocError>
        ensures { OnOk result (self.new ≡ self.old ++ unless_none access) }
    {
        if access.step.number != 0 {
            self.accesses.push(access)?;
        }
        Ok(())
    }

    /// The first that an access by an agent with this clock races with.
    pub fn first_race(&self, clock: &Clock, access: Access) -> Option<Access>
        ensures { result ≡ first_race access.step.agent clock.now access.mode self.now }
    {
        self.accesses.iter().copied().find(|earlier| races(
            clock,
            access.step.agent,
            access.mode,
            *earlier,
        ))
    }

    /// An access by an agent with this clock is noted.
    pub fn note(&mut self, clock: &Clock, access: Access) -> Result<(), AllocError>
        ensures noted { OnOk result (NotesAccess clock.now access self.old self.new) }
        ensures err { OnErr result (self.new ≡ self.old) }
    {
        note_among(clock, access, &mut self.accesses)
    }
}

/// An access is noted among others, in the place of those that it replaces.
fn note_among(clock: &Clock, access: Access, accesses: &mut Vec<Access>) -> Result<(), AllocError>
    ensures noted { OnOk result (NotesAccess clock.now access accesses.old.items accesses.new.items) }
    ensures err { OnErr result (accesses.new.items ≡ accesses.old.items) }
{
    accesses.reserve(1)?;
    accesses.retain(|earlier| !replaced(clock, access, *earlier));
    accesses.push_reserved(access);
    Ok(())
}

/// Whether an access replaces an earlier one.
fn replaced(clock: &Clock, access: Access, earlier: Access) -> bool
    ensures { result ≡ is_replaced clock.now access earlier }
{
    access.mode.covers(earlier.mode) && knows(clock, access.step.agent, earlier.step)
}
