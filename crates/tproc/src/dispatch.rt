//! Which process runs next.

ghost use Rattle.std.specs.Prelude.{◌≡◌, ◌∷◌, [], Ok};
ghost use Rattle.tword.specs.Actions.{run};
ghost use Rattle.tproc.specs.Priorities.{number};
ghost use Rattle.tproc.specs.Queues.{started};
ghost use Rattle.tproc.specs.Steps.{dispatch};
ghost use Rattle.tproc.specs.Agreement.{Agrees, AgreesWith};
ghost use Rattle.tproc.specs.Doing.{Does, machine_of};
ghost use Rattle.tproc.specs.SavedWords.{AreThreaded};

use crate::claimed_memory::ClaimedMemory;
use crate::engine::Engine;
use crate::priority::Priority;
use crate::queues::IPTR_WORD;
use crate::ran::Ran;
use crate::state::State;
use tword::Word;

/// A process that has left its queue runs, with the flags as they are.
#[tactic(auto, using(crate::proofs::Saved::itself_saved))]
pub fn start_queued(
    state: &mut State,
    claimed: &mut ClaimedMemory,
    workspace: Word,
    priority: Priority,
)
    requires { AgreesWith (workspace ∷ []) claimed.old.marks state.old }
    ensures agrees { Agrees claimed.new.marks state.new }
    ensures done { run (started workspace (number priority) state.old) claimed.old.memory.bytes claimed.old.marks
        ≡ Ok (state.new, claimed.new.memory.bytes) }
    ensures memory { claimed.new.memory ≡ claimed.old.memory }
{
    let iptr = claimed.saved_word(workspace, IPTR_WORD);
    claimed.free(workspace);
    state.begin(workspace, iptr, priority);
}

impl Engine {
    /// The first process that may run is dispatched: a high one, the interrupted one, a low one.
    // Inlined, so that it costs little where there is none.
    #[inline(always)]
    pub fn dispatch(&mut self) -> Ran
        requires { AreThreaded (machine_of self.old) }
        ensures { Does (dispatch self.old.state.high self.old.state) self.old (Ok result) self.new }
    {
        if let Some(workspace) = self.state.take_high(&self.claimed) {
            start_queued(
                &mut self.state,
                &mut self.claimed,
                workspace,
                Priority::High,
            );
            return Ran::Dispatch;
        }
        if let Some(kept) = self.state.interrupted() {
            self.state.resume(&kept);
            return Ran::Dispatch;
        }
        if let Some(workspace) = self.state.take_low(&self.claimed) {
            start_queued(&mut self.state, &mut self.claimed, workspace, Priority::Low);
            return Ran::Dispatch;
        }
        Ran::Idle
    }
}
