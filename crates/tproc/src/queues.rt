//! Queueing and admission.

ghost use Rattle.std.specs.Prelude.{◌≡◌, ◌+◌, ◌∷◌, ◌++◌, [], IfNone, IfOk, IfSome, IsSome, Ok, OnErr, length};
ghost use Rattle.std.specs.Prelude.{◌≢◌, AllPairs, option_to_list, true};
ghost use Rattle.tproc.specs.Checks.{KeepsShape};
ghost use Rattle.tproc.specs.Machine.{descheduled, priority_of, workspace_of as spec_workspace_of};
ghost use Rattle.tword.specs.Actions.{or_break, unmet};
ghost use Rattle.tword.specs.Claims.{has_saved};
ghost use Rattle.tproc.specs.ProcessStatus.{has_room, queue, reason_of};
ghost use Rattle.tproc.specs.Queues.{appended, last_of, waiting_for, without_waiter};
ghost use Rattle.tproc.specs.Agreement.{Agrees, AgreesWith, AreSaved, HasPlace, IsPlain, IsReady, Settles};
ghost use Rattle.tproc.specs.Agreement.{StillAgrees, StillSaved, Unsettles, descheduled_count};
ghost use Rattle.tproc.specs.Doing.{Does, DoesAction, adding};
ghost use Rattle.tproc.specs.SavedWords.{IsThreaded};
ghost use Rattle.tproc.specs.Queues as spec;

use crate::claimed_memory::ClaimedMemory;
use crate::engine::Engine;
use crate::ran::Ran;
use crate::state::{State, workspace_of};
use crate::waiter::Reason;
use tword::limits::MOST_PROCESSES;
use tword::{Break, Word};

/// The word below a workspace that keeps Iptr.
pub const IPTR_WORD: u32 = 1;

/// The word below a workspace that links to the next of its queue.
pub const LINK_WORD: u32 = 2;

/// The word below a workspace that keeps the state of an alternative, or the buffer of a message.
pub const STATE_WORD: u32 = 3;

/// A condition, or its break.
#[inline]
pub fn require(holds: bool, fault: Break) -> Result<(), Break>
    ensures { result ≡ or_break (unmet holds fault) tt }
{
    if holds { Ok(()) } else { Err(fault) }
}

impl State {
    /// Whether another process may live.
    pub fn has_room(&self) -> bool
        ensures { result ≡ has_room self.now }
    {
        let others = usize::from(self.current.is_some()) + usize::from(self.interrupted.is_some());
        self.descheduled.len() + others < MOST_PROCESSES
    }

    /// Puts a process at the back of the queue of its priority.
    #[inline]
    fn append(&mut self, process: Word)
        requires place { HasPlace self.old }
        ensures done { self.new ≡ appended (spec_workspace_of process) (priority_of process) self.old }
        ensures settles { Settles (spec_workspace_of process) self.old self.new }
        ensures more { descheduled_count self.new ≡ descheduled_count self.old + 1 }
    {
        self.descheduled.queue(process);
    }

    /// The first of the high queue leaves it.
    #[inline]
    pub fn take_high(&mut self, claimed: &ClaimedMemory) -> Option<Word>
        requires agrees { Agrees claimed.now.marks self.old }
        requires threaded { IsThreaded claimed.now.memory.bytes self.old.high }
        ensures first { self.old.high ≡ option_to_list result ++ self.new.high }
        ensures none { IfNone result ((self.old.high ≡ []) × (self.new ≡ self.old)) }
        ensures unsettles { IfSome result (λ w. Unsettles w self.old self.new) }
        ensures rest { self.new ≡ record self.old { high = self.new.high } }
    {
        self.descheduled.take_high(claimed)
    }

    /// The first of the low queue leaves it.
    #[inline]
    pub fn take_low(&mut self, claimed: &ClaimedMemory) -> Option<Word>
        requires agrees { Agrees claimed.now.marks self.old }
        requires threaded { IsThreaded claimed.now.memory.bytes self.old.low }
        ensures first { self.old.low ≡ option_to_list result ++ self.new.low }
        ensures none { IfNone result ((self.old.low ≡ []) × (self.new ≡ self.old)) }
        ensures unsettles { IfSome result (λ w. Unsettles w self.old self.new) }
        ensures rest { self.new ≡ record self.old { low = self.new.low } }
    {
        self.descheduled.take_low(claimed)
    }

    /// The last of the queue of a process.
    fn last(&self, process: Word) -> Option<Word>
        ensures { result ≡ last_of (queue self.now (priority_of process)) }
    {
        self.descheduled.last(process)
    }

    /// The last of the queue of a process, whose words are saved.
    fn last_saved(&self, claimed: &ClaimedMemory, process: Word) -> Option<Word>
        requires saved { AreSaved claimed.now.marks self.now }
        ensures last { result ≡ last_of (queue self.now (priority_of process)) }
        ensures saved { IfSome result (λ last. has_saved claimed.now.marks last ≡ true) }
    {
        let _claims = claimed;
        self.last(process)
    }

    /// A process whose words are saved waits from now on, and none runs.
    fn begin_waiting(&mut self, process: Word, reason: Reason)
        requires place { HasPlace self.old }
        ensures done { self.new ≡ waiting_for process reason self.old }
        ensures settles { Settles (spec_workspace_of process) self.old self.new }
    {
        self.descheduled.wait(process, reason);
        self.rest();
    }

    /// A process waits no longer.
    fn forget(&mut self, process: Word)
        requires apart { AllPairs (λ v w. v ≢ w) (descheduled self.old) }
        requires waits { IsSome (reason_of self.old process) }
        ensures done { self.new ≡ without_waiter process self.old }
        ensures place { HasPlace self.new }
        ensures unsettles { Unsettles (spec_workspace_of process) self.old self.new }
        ensures fewer { descheduled_count self.new + 1 ≡ descheduled_count self.old }
        ensures saved { StillSaved self.old self.new }
    {
        // Counting them lets the prover know that there are no more than may live.
        let _count = self.descheduled.len();
        self.descheduled.forget(process);
    }
}

/// Lets a new process in.
///
/// # Errors
/// `Unaligned`, `AlreadyLive`, `TooManyProcesses`, or the first failing check of the words below the workspace.
#[tactic(auto, using(crate::proofs::Descheduling::admitted_process), unfolding(crate::specs::Queues::admit))]
pub fn admit(state: &State, claimed: &mut ClaimedMemory, process: Word) -> Result<(), Break>
    requires ready { IsReady claimed.old.marks state.now }
    ensures done { DoesAction (spec.admit process state.now) claimed.old result claimed.new }
    ensures agrees { IfOk result (λ _. AgreesWith (spec_workspace_of process ∷ []) claimed.new.marks state.now) }
    ensures kept { OnErr result (claimed.new.marks ≡ claimed.old.marks) }
    ensures place { IfOk result (λ _. HasPlace state.now) }
    ensures memory { claimed.new.memory ≡ claimed.old.memory }
{
    let workspace = workspace_of(process);
    require(workspace.get() % 4 == 0, Break::Unaligned)?;
    require(!state.is_live(claimed, workspace), Break::AlreadyLive)?;
    require(state.has_room(), Break::TooManyProcesses)?;
    claimed.may_deschedule(workspace)?;
    claimed.deschedule(workspace);
    Ok(())
}

/// Puts a process whose words are saved behind the others of its queue, and links the one before it.
#[tactic(auto, unfolding(crate::specs::Queues::enqueue))]
pub fn enqueue(state: &mut State, claimed: &mut ClaimedMemory, process: Word)
    requires place { HasPlace state.old }
    requires saved { AreSaved claimed.old.marks state.old }
    ensures done { DoesAction (spec.enqueue process state.old) claimed.old (Ok state.new) claimed.new }
    ensures settles { Settles (spec_workspace_of process) state.old state.new }
    ensures kind { state.new.kind ≡ state.old.kind }
    ensures more { descheduled_count state.new ≡ descheduled_count state.old + 1 }
    ensures claims { claimed.new.marks ≡ claimed.old.marks }
    ensures shape { KeepsShape claimed.old.memory claimed.new.memory }
{
    if let Some(last) = state.last_saved(claimed, process) {
        claimed.set_saved_word(last, LINK_WORD, workspace_of(process));
    }
    state.append(process);
}

/// A process whose words are saved waits from now on, and none runs.
pub fn wait(state: &mut State, claimed: &ClaimedMemory, process: Word, reason: Reason)
    requires place { HasPlace state.old }
    requires agrees { AgreesWith (spec_workspace_of process ∷ []) claimed.now.marks state.old }
    ensures done { state.new ≡ waiting_for process reason state.old }
    ensures agrees { Agrees claimed.now.marks state.new }
{
    let _claims = claimed;
    state.begin_waiting(process, reason);
}

/// A process that waits is queued.
#[tactic(auto, unfolding(crate::specs::Queues::release))]
pub fn release(state: &mut State, claimed: &mut ClaimedMemory, process: Word)
    requires apart { AllPairs (λ v w. v ≢ w) (descheduled state.old) }
    requires waits { IsSome (reason_of state.old process) }
    requires saved { AreSaved claimed.old.marks state.old }
    ensures done { DoesAction (spec.release process state.old) claimed.old (Ok state.new) claimed.new }
    ensures agrees { StillAgrees state.old state.new }
    ensures kind { state.new.kind ≡ state.old.kind }
    ensures same { descheduled_count state.new ≡ descheduled_count state.old }
    ensures claims { claimed.new.marks ≡ claimed.old.marks }
    ensures shape { KeepsShape claimed.old.memory claimed.new.memory }
{
    state.forget(process);
    enqueue(state, claimed, process);
}

impl Engine {
    /// A process from outside is let in, with its first address, behind the others of its queue.
    #[tactic(auto, using(crate::proofs::Saved::itself_saved, crate::proofs::Saved::are_saved))]
    pub fn add(&mut self, process: Word, iptr: Word) -> Result<Ran, Break>
        requires plain { IsPlain self.old.state }
        ensures { Does (adding process iptr self.old.state) self.old result self.new }
    {
        admit(&self.state, &mut self.claimed, process)?;
        self.claimed
            .set_saved_word(workspace_of(process), IPTR_WORD, iptr);
        enqueue(&mut self.state, &mut self.claimed, process);
        Ok(Ran::Instruction)
    }
}
