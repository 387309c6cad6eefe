//! What a step did, and several in a row.

use tword::Break;

/// What a run of one step did.
#[derive(Clone, Copy, Debug, PartialEq, Eq)]
pub enum Ran {
    /// One instruction.
    Instruction,
    /// A process was dispatched.
    Dispatch,
    /// An instruction that offers a message on a link. It tells whoever steps a processor by himself which link has
    /// something to send; nodes look at their links, and ask nothing of this answer but that a step was done.
    LinkOut(u8),
    /// An instruction that asks for a message on a link, told for the same reason.
    LinkIn(u8),
    /// An instruction that halted the processor.
    Halting,
    /// Nothing: no process can run.
    Idle,
    /// Nothing: the processor has halted.
    Halted,
}

/// What several steps in a row did.
#[derive(Clone, Copy, Debug, PartialEq, Eq)]
pub struct RanMany {
    /// How many steps were done that another may follow.
    pub count: u32,
    /// The answer of the step behind these, where no other may follow it: it halted the processor, there was none, or
    /// it breaks a rule. `None` where as many were done as were asked for.
    pub last: Option<Result<Ran, Break>>,
}
