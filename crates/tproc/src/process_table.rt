//! The processes that are queued or wait.

ghost use Rattle.std.specs.Prelude.{◌≡◌, ◌<◌, ◌≤◌, ◌==◌, ◌++◌, ◌∷◌, [], not, find, filter, length, true, false};
ghost use Rattle.std.specs.Prelude.{vec_len, vec_capacity, IfOk, IfSome, None};
ghost use Rattle.tproc.specs.Entries.{present, is_entry_of, AreSavedOf, IsEntryAt, ShareNoWorkspace};
ghost use Rattle.tword.specs.Limits.{most_processes};

use crate::claimed_memory::ClaimedMemory;
use crate::equal::same_entry;
use crate::state::workspace_of;
use crate::waiter::Entry;
use std::alloc::{AllocError, Global};
use std::marker::Model;
use tword::{Hints, Word};

/// How many entries there is room for: twice as many as processes may live.
const ENTRIES: usize = 1_024;

/// The processes that are queued or wait, each with what it waits for. Contracts see them as a list, in the order in
/// which they came.
///
/// A process that goes leaves its entry empty, so that the others stay where they are. When all entries are taken,
/// those that are empty are closed up: at least half of them are. The hints tell where to look first for a process.
#[derive(Drop)]
pub struct ProcessTable {
    entries: Vec<Option<Entry>>,
    count: usize,
    hints: Hints,
}

impl Model for ProcessTable {
    ghost use Rattle.tword.specs.Limits.{most_processes};
    ghost use Rattle.std.specs.Prelude.{◌≡◌, ◌≤◌, List, length, vec_capacity};
    ghost use Rattle.tproc.specs.declared.waiter.Entry.{Entry};
    ghost use Rattle.tproc.specs.Entries.{present};

    ghost Value = { List Entry };

    ghost view = { λ t. present t.entries.items };

    ghost invariant = { λ t. (1024 ≤ vec_capacity t.entries) × (length t.entries.items ≤ 1024)
        × (t.count ≡ length (present t.entries.items)) × (t.count ≤ most_processes) };
}

impl ProcessTable {
    /// A table without processes, with room for all that may live in a memory of `size` bytes.
    ///
    /// # Errors
    /// Where the allocator refuses.
    pub fn new(alloc: Global, size: u32) -> Result<ProcessTable, AllocError>
        ensures { IfOk result (λ t. t ≡ []) }
    {
        Ok(ProcessTable {
            entries: Vec::with_capacity(alloc, ENTRIES)?,
            count: 0,
            hints: Hints::new(alloc, size)?,
        })
    }

    /// A copy of the table, with the same room.
    ///
    /// # Errors
    /// Where the allocator refuses.
    pub fn try_copy(&self, alloc: Global) -> Result<ProcessTable, AllocError>
        ensures { IfOk result (λ t. t ≡ self.now) }
    {
        let mut entries = Vec::with_capacity(alloc, ENTRIES)?;
        entries.extend_from_slice(self.entries.as_slice())?;
        let hints = self.hints.try_copy(alloc)?;
        Ok(ProcessTable {
            entries,
            count: self.count,
            hints,
        })
    }

    /// The number of processes that are queued or wait.
    #[inline]
    pub fn len(&self) -> usize
        ensures is { result ≡ length self.now }
        ensures few { result ≤ most_processes }
    {
        self.count
    }

    /// The processes that are queued or wait, in the order in which they came.
    ///
    /// # Errors
    /// Where the allocator refuses.
    pub fn to_vec(&self, alloc: Global) -> Result<Vec<Entry>, AllocError>
        ensures { IfOk result (λ entries. entries.items ≡ self.now) }
    {
        let mut all = Vec::with_capacity(alloc, self.count)?;
        for entry in self.entries.as_slice() {
            if let Some(entry) = entry {
                all.push(*entry)?;
            }
        }
        Ok(all)
    }

    /// Whether the processes that are queued or wait are these entries, in the order in which they came. Where it says
    /// so, they are.
    pub fn is_just(&self, entries: &[Entry]) -> bool
        ensures { result ≡ true → entries.now ≡ self.now }
    {
        let mut rest = entries;
        for entry in self.entries.as_slice() {
            if let Some(entry) = entry {
                match rest {
                    [first, others @ ..] if same_entry(*first, *entry) => rest = others,
                    _ => return false,
                }
            }
        }
        rest.is_empty()
    }

    /// The entry of a process, if it has one. The words of each process of the table are saved, so that a process that
    /// runs is not sought.
    #[inline]
    pub fn find(&self, claimed: &ClaimedMemory, process: Word) -> Option<Entry>
        requires apart { ShareNoWorkspace self.now }
        requires saved { AreSavedOf claimed.now.marks self.now }
        ensures { result ≡ find (λ e. e.process == process) self.now }
    {
        let noted = self.noted(process);
        if noted < self.entries.len() && is_of(&self.entries[noted], process) {
            return self.entries[noted];
        }
        if !claimed.has_saved(workspace_of(process)) {
            return None;
        }
        let place = search(self.entries.as_slice(), process)?;
        self.entries[place]
    }

    /// Where a process was put, if it was and no other has taken its slot.
    #[inline]
    fn noted(&self, process: Word) -> usize {
        usize::from(self.hints.of(process))
    }

    /// A process comes into the table, behind the others.
    #[inline]
    pub fn push(&mut self, entry: Entry)
        requires { length self.old < most_processes }
        ensures { self.new ≡ self.old ++ entry ∷ [] }
    {
        make_room(&mut self.entries, &mut self.hints);
        self.hints.note(entry.process, self.entries.len() as u16);
        self.entries.push_reserved(Some(entry));
        self.count += 1;
    }

    /// A process is no longer queued, or waits no longer.
    #[inline]
    pub fn remove(&mut self, process: Word)
        requires { ShareNoWorkspace self.old }
        ensures { self.new ≡ filter (λ e. not (e.process == process)) self.old }
    {
        let noted = self.noted(process);
        if noted < self.entries.len() && is_of(&self.entries[noted], process) {
            self.entries[noted] = None;
            self.count -= 1;
        } else {
            self.remove_sought(process);
        }
    }

    /// A process is no longer queued, or waits no longer, where the hint does not tell its place.
    #[cold]
    #[inline(never)]
    fn remove_sought(&mut self, process: Word)
        requires { ShareNoWorkspace self.old }
        ensures { self.new ≡ filter (λ e. not (e.process == process)) self.old }
    {
        if let Some(place) = search(self.entries.as_slice(), process) {
            self.entries[place] = None;
            self.count -= 1;
        }
    }
}

/// Whether an entry is that of a process.
#[inline]
fn is_of(entry: &Option<Entry>, process: Word) -> bool
    ensures { result ≡ is_entry_of process entry.now }
{
    match entry {
        Some(entry) => entry.process == process,
        None => false,
    }
}

/// Where the entry of a process is.
#[cold]
#[inline(never)]
fn search(entries: &[Option<Entry>], process: Word) -> Option<usize>
    ensures found { IfSome result (λ i. IsEntryAt entries.now i process) }
    ensures none { result ≡ None → find (λ e. e.process == process) (present entries.now) ≡ None }
{
    for (i, entry) in entries.iter().enumerate() {
        if is_of(entry, process) {
            return Some(i);
        }
    }
    None
}

/// Closes the empty entries up where there is no room for another.
#[inline]
fn make_room(entries: &mut Vec<Option<Entry>>, hints: &mut Hints)
    requires some { vec_len entries.old ≤ 1024 }
    requires few { length (present entries.old.items) < 1024 }
    ensures same { present entries.new.items ≡ present entries.old.items }
    ensures room { vec_len entries.new < 1024 }
    ensures capacity { vec_capacity entries.new ≡ vec_capacity entries.old }
{
    if ENTRIES <= entries.len() {
        close_up(entries, hints);
    }
}

/// Closes the empty entries up, and notes where each process comes to be.
#[cold]
#[inline(never)]
fn close_up(entries: &mut Vec<Option<Entry>>, hints: &mut Hints)
    requires few { length (present entries.old.items) < 1024 }
    ensures same { present entries.new.items ≡ present entries.old.items }
    ensures room { vec_len entries.new < 1024 }
    ensures capacity { vec_capacity entries.new ≡ vec_capacity entries.old }
{
    let mut kept = 0;
    for place in 0..entries.len() {
        if let Some(entry) = entries[place] {
            hints.note(entry.process, (kept % 65_536) as u16);
            entries[kept] = Some(entry);
            kept += 1;
        }
    }
    entries.truncate(kept);
}
