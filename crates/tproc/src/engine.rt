//! The state of a processor with its memory.

ghost use Rattle.std.specs.Prelude.{◌≡◌};
ghost use Rattle.tproc.specs.Agreement.{Agrees};

use crate::claimed_memory::ClaimedMemory;
use crate::state::State;

/// The state of a processor with its memory. The memory is one of the state's kind, and the claims on it are those of
/// the state: its pending link messages, and the saved words of each process that is queued or waits. A call that
/// leaves this half way, as one that saves the words of a process that does not wait yet, takes the two apart.
#[derive(Drop)]
pub struct Engine {
    pub state: State,
    pub claimed: ClaimedMemory,
    ghost agrees: { Agrees claimed.marks state },
    ghost kind: { claimed.memory.kind ≡ state.kind },
}
