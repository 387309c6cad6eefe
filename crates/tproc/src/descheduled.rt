//! The two queues, and the processes that wait.

ghost use Rattle.tproc.specs.Machine as spec;
ghost use Rattle.std.specs.Prelude.{ℕ, ◌≡◌, ◌≢◌, ◌+◌, ◌<◌, ◌≤◌, ◌++◌, ◌∷◌, [], ◌==◌, true, None, Some, AllPairs};
ghost use Rattle.std.specs.Prelude.{List, length, slice_get, filter, find, not, option_map, option_to_list};
ghost use Rattle.std.specs.Prelude.{IfOk, IfNone, IsSome};
ghost use Rattle.tword.specs.Claims.{has_saved};
ghost use Rattle.tproc.specs.Machine.{priority_of, workspace_of};
ghost use Rattle.tproc.specs.Queues.{last_of};
ghost use Rattle.tproc.specs.SavedWords.{IsThreaded};
ghost use Rattle.tproc.specs.Entries.{lists_of, queue_in, queue_of, queued_at, entry_in, workspaces_in};
ghost use Rattle.tproc.specs.Entries.{AreAllSaved, IsQueue};
ghost use Rattle.tword.specs.Limits.{most_processes};

use crate::claimed_memory::ClaimedMemory;
use crate::process_table::ProcessTable;
use crate::queues::LINK_WORD;
use crate::run_queue::RunQueue;
use crate::state::workspace_of;
use crate::waiter::{Entry, Reason};
use std::alloc::{AllocError, Global};
use std::marker::Model;
use tword::Word;

/// The processes that are queued or wait. A queue lies in the memory, from its front on from link to link; the table
/// tells of each process that it is queued, or what it waits for. Contracts see two queues and those that wait, each
/// as a list in the order in which they came.
#[derive(Drop)]
pub struct Descheduled {
    high: RunQueue,
    low: RunQueue,
    table: ProcessTable,
}

impl Model for Descheduled {
    ghost use Rattle.tproc.specs.Entries.{Lists, lists_of, queue_in, IsQueue};

    ghost Value = { Lists };

    ghost view = { λ d. lists_of d.table };

    ghost invariant = { λ d. IsQueue (queue_in 0 d.table) d.high × IsQueue (queue_in 1 d.table) d.low };
}

impl Descheduled {
    /// No queued and no waiting process, with room for all that may live in a memory of `size` bytes.
    ///
    /// # Errors
    /// Where the allocator refuses.
    pub fn new(alloc: Global, size: u32) -> Result<Descheduled, AllocError>
        ensures { IfOk result (λ d. d ≡ lists_of []) }
    {
        Ok(Descheduled {
            high: RunQueue::new(),
            low: RunQueue::new(),
            table: ProcessTable::new(alloc, size)?,
        })
    }

    /// A copy of the queues and the table, with the same room.
    ///
    /// # Errors
    /// Where the allocator refuses.
    pub fn try_copy(&self, alloc: Global) -> Result<Descheduled, AllocError>
        ensures { IfOk result (λ d. d ≡ self.now) }
    {
        Ok(Descheduled {
            high: self.high,
            low: self.low,
            table: self.table.try_copy(alloc)?,
        })
    }

    /// Whether the processes of the table are these entries, in the order in which they came. Where it says so, they
    /// are.
    pub fn has_just(&self, entries: &[Entry]) -> bool
        ensures { result ≡ true → lists_of entries.now ≡ self.now }
    {
        self.table.is_just(entries)
    }

    /// The number of processes that are queued or wait.
    #[inline]
    pub fn len(&self) -> usize
        ensures is { result ≡ length self.now.high + length self.now.low + length self.now.waiting }
        ensures few { result ≤ most_processes }
    {
        self.table.len()
    }

    /// The processes that are queued or wait, in the order in which they came.
    ///
    /// # Errors
    /// Where the allocator refuses.
    pub fn to_vec(&self, alloc: Global) -> Result<Vec<Entry>, AllocError>
        ensures { IfOk result (λ entries. lists_of entries.items ≡ self.now) }
    {
        self.table.to_vec(alloc)
    }

    /// Whether no process of high priority is queued.
    #[inline]
    pub fn is_high_empty(&self) -> bool
        ensures { result ≡ (length self.now.high == 0) }
    {
        self.high.is_empty()
    }

    /// Whether no process of low priority is queued.
    #[inline]
    pub fn is_low_empty(&self) -> bool
        ensures { result ≡ (length self.now.low == 0) }
    {
        self.low.is_empty()
    }

    /// The last of the queue of a process.
    #[inline]
    pub fn last(&self, process: Word) -> Option<Word>
        ensures { result ≡ last_of (queue_of self.now (priority_of process)) }
    {
        if process.get() % 2 == 0 {
            self.high.last()
        } else {
            self.low.last()
        }
    }

    /// The entry of a process, if it is queued or waits.
    #[inline]
    pub fn find(&self, claimed: &ClaimedMemory, process: Word) -> Option<Entry>
        requires apart { AllPairs (λ v w. v ≢ w) (workspaces_in self.now) }
        requires saved { AreAllSaved claimed.now.marks (workspaces_in self.now) }
        ensures { result ≡ entry_in self.now process }
    {
        self.table.find(claimed, process)
    }

    /// A process is put at the back of the queue of its priority, once the last one there is linked to it.
    #[inline]
    pub fn queue(&mut self, process: Word)
        requires { length self.old.high + length self.old.low + length self.old.waiting < most_processes }
        ensures { self.new ≡ queued_at (spec.workspace_of process) (priority_of process) self.old }
    {
        let workspace = workspace_of(process);
        if process.get() % 2 == 0 {
            self.high.push(workspace);
        } else {
            self.low.push(workspace);
        }
        self.table.push(Entry {
            process,
            reason: None,
        });
    }

    /// A process waits from now on.
    pub fn wait(&mut self, process: Word, reason: Reason)
        requires { length self.old.high + length self.old.low + length self.old.waiting < most_processes }
        ensures { self.new ≡ record self.old {
          waiting = self.old.waiting ++ record { process = process; reason = reason } ∷ [];
        } }
    {
        self.table.push(Entry {
            process,
            reason: Some(reason),
        });
    }

    /// A process waits no longer.
    pub fn forget(&mut self, process: Word)
        requires apart { AllPairs (λ v w. v ≢ w) (workspaces_in self.old) }
        requires waits { IsSome (option_map (λ w. w.reason) (find (λ w. w.process == process) self.old.waiting)) }
        ensures { self.new ≡ record self.old { waiting = filter (λ w. not (w.process == process)) self.old.waiting } }
    {
        self.table.remove(process);
    }

    /// The first of the high queue leaves it.
    #[inline]
    pub fn take_high(&mut self, claimed: &ClaimedMemory) -> Option<Word>
        requires apart { AllPairs (λ v w. v ≢ w) (workspaces_in self.old) }
        requires saved { AreAllSaved claimed.now.marks (workspaces_in self.old) }
        requires threaded { IsThreaded claimed.now.memory.bytes self.old.high }
        ensures first { self.old.high ≡ option_to_list result ++ self.new.high }
        ensures none { IfNone result ((self.old.high ≡ []) × (self.new ≡ self.old)) }
        ensures rest { self.new ≡ record self.old { high = self.new.high } }
    {
        let workspace = self.high.first()?;
        let next = behind(claimed, &self.high);
        self.high.pop(next);
        self.table.remove(workspace);
        Some(workspace)
    }

    /// The first of the low queue leaves it.
    #[inline]
    pub fn take_low(&mut self, claimed: &ClaimedMemory) -> Option<Word>
        requires apart { AllPairs (λ v w. v ≢ w) (workspaces_in self.old) }
        requires saved { AreAllSaved claimed.now.marks (workspaces_in self.old) }
        requires threaded { IsThreaded claimed.now.memory.bytes self.old.low }
        ensures first { self.old.low ≡ option_to_list result ++ self.new.low }
        ensures none { IfNone result ((self.old.low ≡ []) × (self.new ≡ self.old)) }
        ensures rest { self.new ≡ record self.old { low = self.new.low } }
    {
        let workspace = self.low.first()?;
        let next = behind(claimed, &self.low);
        self.low.pop(next);
        self.table.remove(Word::new(workspace.get() + 1));
        Some(workspace)
    }
}

/// The workspace behind the front of a queue, as its link tells. That of the only process of a queue is not read.
#[inline]
fn behind(claimed: &ClaimedMemory, queue: &RunQueue) -> Option<Word>
    requires { has_saved claimed.now.marks queue.now.front ≡ true }
    ensures { (w : ℕ) (q : List ℕ) → IsQueue (w ∷ q) queue.now → IsThreaded claimed.now.memory.bytes (w ∷ q)
        → result ≡ slice_get q 0 }
{
    if queue.count == 1 {
        None
    } else {
        Some(claimed.saved_word(queue.front, LINK_WORD))
    }
}
