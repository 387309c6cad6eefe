//! Where a process stands.

ghost use Rattle.std.specs.Prelude.{◌≡◌, false, true};
ghost use Rattle.tproc.specs.ProcessStatus.{is_live, is_queued, not_waiting, reason_of, status};
ghost use Rattle.tproc.specs.LinkChannels.{is_running};
ghost use Rattle.tproc.specs.Agreement.{Agrees, IsReady};
ghost use Rattle.tproc.specs.Requests.{IfQueued, reason_in};
ghost use Rattle.tproc.specs.Entries.{entry_in, lists_in};

use crate::claimed_memory::ClaimedMemory;
use crate::engine::Engine;
use crate::state::State;
use crate::waiter::{Entry, Reason};
use tword::Word;

/// Where a descriptor is found. One that is queued or waits comes first, since the process that runs may have moved
/// onto its workspace.
#[derive(Clone, Copy, Debug, PartialEq, Eq)]
pub enum ProcessStatus {
    /// The process waits for this.
    Waits(Reason),
    /// The process is in the queue of its priority.
    Queued,
    /// The process is the one that runs.
    Runs,
    /// The process is the low one that was interrupted.
    Interrupted,
    /// No live process has this descriptor.
    Unknown,
}

impl State {
    /// Whether the workspace belongs to a live process.
    pub fn is_live(&self, claimed: &ClaimedMemory, workspace: Word) -> bool
        requires ready { IsReady claimed.now.marks self.now }
        ensures { result ≡ is_live self.now workspace }
    {
        claimed.has_saved(workspace)
            || (self.current.is_some() && self.registers.wptr == workspace)
            || match self.interrupted {
                Some(kept) => kept.registers.wptr == workspace,
                None => false,
            }
    }

    /// The entry of a process, if it is queued or waits.
    #[inline]
    fn find(&self, claimed: &ClaimedMemory, process: Word) -> Option<Entry>
        requires agrees { Agrees claimed.now.marks self.now }
        ensures { result ≡ entry_in (lists_in self.now) process }
    {
        self.descheduled.find(claimed, process)
    }

    /// Where a descriptor is found that is neither queued nor waits.
    fn status_elsewhere(&self, process: Word) -> ProcessStatus
        requires { is_queued self.now process ≡ false }
        ensures { result ≡ not_waiting self.now process }
    {
        let sought = u64::from(process.get());
        if let Some(priority) = self.current
            && u64::from(self.registers.wptr.get()) + u64::from(priority.number()) == sought
        {
            return ProcessStatus::Runs;
        }
        match self.interrupted {
            Some(kept) if u64::from(kept.registers.wptr.get()) + 1 == sought =>
                ProcessStatus::Interrupted,
            _ => ProcessStatus::Unknown,
        }
    }
}

impl Engine {
    /// What a process waits for.
    #[inline]
    pub fn reason(&self, process: Word) -> Option<Reason>
        ensures { result ≡ reason_of self.now.state process }
    {
        self.state.find(&self.claimed, process)?.reason
    }

    /// Where a descriptor is found.
    pub fn status(&self, process: Word) -> ProcessStatus
        ensures stands { result ≡ status self.now.state process }
        ensures waits { reason_of self.now.state process ≡ reason_in result }
        ensures queued { IfQueued result (is_queued self.now.state process ≡ true) }
    {
        match self.state.find(&self.claimed, process) {
            Some(entry) => match entry.reason {
                Some(reason) => ProcessStatus::Waits(reason),
                None => ProcessStatus::Queued,
            },
            None => self.state.status_elsewhere(process),
        }
    }

    /// Whether a descriptor is found as the process that runs.
    pub fn runs(&self, process: Word) -> bool
        ensures { result ≡ is_running (status self.now.state process) }
    {
        match &self.status(process) {
            ProcessStatus::Runs => true,
            _ => false,
        }
    }
}
