//! Messages on internal channels: each is one step, at the arrival of the second process.

ghost use Rattle.std.specs.Prelude.{◌≡◌, ◌<◌, IfErr, Ok, OnOk, false, length, true, ℕ};
ghost use Rattle.tword.specs.Claims.{has_saved, saving};
ghost use Rattle.tproc.specs.Channels.{mode_of, own_side, reason_for, waits_on_channel};
ghost use Rattle.tproc.specs.Doing.{DoesActionFrom, DoesLaid, Refuses, laid};
ghost use Rattle.tproc.specs.Checks.{KeepsShape, may_touch};
ghost use Rattle.tproc.specs.Requests.{IsRequest, MayLay, MayLeave, request};
ghost use Rattle.tproc.specs.Channels as spec;
ghost use Rattle.tword.specs.Limits.{most_processes};

use crate::claimed_memory::ClaimedMemory;
use crate::engine::Engine;
use crate::queues::{IPTR_WORD, STATE_WORD, wait};
use crate::ran::Ran;
use crate::state::State;
use crate::waiter::Reason;
use tcpu::Registers;
use tword::limits::MOST_NEG;
use tword::{Break, Word};

/// The word of a channel in which no process waits.
pub const NOT_PROCESS: u32 = MOST_NEG;

/// The state of an alternative whose guards are being enabled.
pub const ENABLING: u32 = 0x8000_0001;

/// The state of an alternative whose process waits.
pub const WAITING: u32 = 0x8000_0002;

/// The state of an alternative with a ready guard.
pub const READY: u32 = 0x8000_0003;

/// Which way a process uses a channel.
#[derive(Clone, Copy, Debug, PartialEq, Eq)]
pub enum Side {
    Input,
    Output,
}

/// What a process asks for.
#[derive(Clone, Copy, Debug, PartialEq, Eq)]
pub struct Request {
    /// The descriptor of the process.
    pub process: Word,
    pub side: Side,
    pub channel: Word,
    pub buffer: Word,
    pub length: u32,
    /// The word that is first stored at the workspace, if the row does so.
    pub first: Option<Word>,
    /// The registers with which the process goes on, if it does not wait.
    pub after: Registers,
}

impl Request {
    /// What the process waits for where its request is not met at once.
    pub fn reason(&self) -> Reason
        ensures { result ≡ reason_for (request self.now) (request self.now).side }
    {
        match self.side {
            Side::Input => Reason::Receives {
                channel: self.channel,
                buffer: self.buffer,
                length: self.length,
            },
            Side::Output => Reason::Sends {
                channel: self.channel,
                buffer: self.buffer,
                length: self.length,
            },
        }
    }
}

/// An alternative is under way and does not wait.
pub fn is_choosing(state: Word) -> bool
    ensures { result ≡ spec.is_choosing state }
{
    state.get() == ENABLING || state.get() == READY
}

/// Stores the first word of a row at the workspace, if the row has one.
pub fn lay(claimed: &mut ClaimedMemory, workspace: Word, first: Option<Word>)
    requires free { MayLay claimed.old workspace first }
    ensures cells { claimed.new.memory.bytes ≡ laid first workspace claimed.old.memory.bytes }
    ensures shape { KeepsShape claimed.old.memory claimed.new.memory }
    ensures claims { claimed.new.marks ≡ claimed.old.marks }
{
    if let Some(word) = first {
        claimed.set_word(workspace, word);
    }
}

/// Whether the buffer of a request may be touched, once the words of a workspace are saved.
pub fn may_touch_beside(claimed: &ClaimedMemory, workspace: Word, q: &Request) -> Result<(), Break>
    ensures { result ≡ may_touch (length claimed.now.memory.bytes) (saving workspace claimed.now.marks) (mode_of
        (request q.now).side) q.now.buffer q.now.length }
{
    match q.side {
        Side::Input => claimed.may_write_beside(workspace, q.buffer, q.length),
        Side::Output => claimed.may_read_beside(workspace, q.buffer, q.length),
    }
}

/// The first of two processes leaves its descriptor in the channel and its buffer in its workspace.
#[tactic(auto, using(crate::proofs::Descheduling::saved_words), unfolding(crate::specs::Channels::own_side))]
pub fn leave(state: &State, claimed: &mut ClaimedMemory, q: &Request)
    requires first { MayLay claimed.old state.now.registers.wptr q.now.first }
    requires free { MayLeave claimed.old state.now.registers.wptr (request q.now) }
    requires room { length claimed.old.marks.saved < most_processes }
    ensures done { DoesActionFrom (own_side (request q.now) state.now) claimed.old (laid q.now.first
        state.now.registers.wptr claimed.old.memory.bytes) (Ok tt) claimed.new }
    ensures fresh { has_saved claimed.old.marks state.now.registers.wptr ≡ false }
    ensures claims { claimed.new.marks ≡ saving state.now.registers.wptr claimed.old.marks }
    ensures keeps { (v : ℕ) → has_saved claimed.old.marks v ≡ true → has_saved claimed.new.marks v ≡ true }
    ensures shape { KeepsShape claimed.old.memory claimed.new.memory }
{
    let own = state.registers.wptr;
    lay(claimed, own, q.first);
    claimed.deschedule(own);
    claimed.set_word(q.channel, q.process);
    claimed.set_saved_word(own, STATE_WORD, q.buffer);
    claimed.set_saved_word(own, IPTR_WORD, state.registers.iptr);
}

impl Engine {
    /// The checks of a process that leaves its side of a message at a channel and waits.
    #[tactic(auto, unfolding(crate::specs::Channels::own_side))]
    pub fn may_leave(&self, q: &Request) -> Result<(), Break>
        ensures refused { IfErr result
            (λ b. Refuses (own_side (request q.now) self.now.state) self.now.claimed b) }
        ensures free { OnOk result
            (MayLeave self.now.claimed self.now.state.registers.wptr (request q.now)) }
    {
        let own = self.state.wptr();
        self.claimed.may_deschedule(own)?;
        self.claimed.may_write_word_beside(own, q.channel)?;
        may_touch_beside(&self.claimed, own, q)
    }

    /// The first of two processes waits on the channel.
    #[tactic(auto, using(crate::proofs::Descheduling::own_process))]
    pub fn wait_on_channel(&mut self, q: &Request) -> Result<Ran, Break>
        requires asks { IsRequest q.now self.old }
        ensures { DoesLaid q.now.first (waits_on_channel (request q.now) self.old.state) self.old result self.new }
    {
        self.may_leave(q)?;
        leave(&self.state, &mut self.claimed, q);
        wait(&mut self.state, &self.claimed, q.process, q.reason());
        Ok(Ran::Instruction)
    }
}
