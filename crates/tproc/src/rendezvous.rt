//! Meetings of two processes on an internal channel.

ghost use Rattle.std.specs.Prelude.{◌≡◌, IfErr, IsSome, None, Ok, OnOk, false, length, true};
ghost use Rattle.tproc.specs.Checks.{KeepsShape};
ghost use Rattle.tproc.specs.Machine.{workspace_of as spec_workspace_of};
ghost use Rattle.tproc.specs.Requests.{IsRequest, MayLeave, MayTouch, MayWriteWord, is_own_word as spec_is_own_word};
ghost use Rattle.tproc.specs.Requests.{request};
ghost use Rattle.tword.specs.Claims.{has_saved, saving};
ghost use Rattle.tword.specs.Actions.{answer, set_saved_word};
ghost use Rattle.tword.specs.Touches.{Reads, Writes, word_break};
ghost use Rattle.tword.specs.Words.{word_below};
ghost use Rattle.tproc.specs.declared.process_status.ProcessStatus.TheVariants.{Interrupted, Queued};
ghost use Rattle.tproc.specs.ProcessStatus.{reason_of, status};
ghost use Rattle.tproc.specs.declared.channels.Side.TheVariants.{Input, Output};
ghost use Rattle.tproc.specs.Channels.{exchanged, input_meets, internal_message, meets, met, output_meets, own_side};
ghost use Rattle.tproc.specs.Channels.{ready, reason_for, wakes_choice};
ghost use Rattle.tproc.specs.Queues.{waiting_for};
ghost use Rattle.tproc.specs.Doing.{DoesAction, DoesLaid, RefusesAfter, in_turn};
ghost use Rattle.tproc.specs.Channels as spec;
ghost use Rattle.tproc.specs.declared.ran.Ran.TheVariants as ran;

use crate::channels::{NOT_PROCESS, READY, Request, Side, is_choosing, lay, leave};
use crate::claimed_memory::ClaimedMemory;
use crate::engine::Engine;
use crate::process_status::ProcessStatus;
use crate::queues::{STATE_WORD, release, require, wait};
use crate::ran::Ran;
use crate::state::workspace_of;
use crate::waiter::Reason;
use tword::{Break, Word};

/// Whether the address is that of a saved word of the workspace.
fn is_own_word(workspace: Word, address: Word) -> bool
    ensures { result ≡ spec_is_own_word workspace address }
{
    address == workspace.below(1) || address == workspace.below(2) || address == workspace.below(3)
}

/// Sets a word that was touched before the words of a workspace were saved; it may be one of them.
fn set_touched_word(claimed: &mut ClaimedMemory, workspace: Word, address: Word, value: Word)
    requires saved { has_saved claimed.old.marks workspace ≡ true }
    requires free { spec_is_own_word workspace address ≡ false
        → MayWriteWord claimed.old address }
    ensures done { DoesAction (spec.set_touched_word workspace address value) claimed.old (Ok tt) claimed.new }
    ensures claims { claimed.new.marks ≡ claimed.old.marks }
    ensures shape { KeepsShape claimed.old.memory claimed.new.memory }
{
    if address == workspace.below(1) {
        claimed.set_saved_word(workspace, 1, value);
    } else if address == workspace.below(2) {
        claimed.set_saved_word(workspace, 2, value);
    } else if address == workspace.below(3) {
        claimed.set_saved_word(workspace, 3, value);
    } else {
        claimed.set_word(address, value);
    }
}

impl Engine {
    /// The whole message, which may be read and written, is copied and the other process is queued; then the registers
    /// of the request go on.
    fn exchange(&mut self, q: &Request, other: Word, from: Word, to: Word) -> Result<Ran, Break>
        requires waits { IsSome (reason_of self.old.state other) }
        requires reads { MayTouch self.old.claimed Reads from q.now.length }
        requires writes { MayTouch self.old.claimed Writes to q.now.length }
        requires asks { IsRequest q.now self.old }
        ensures { DoesLaid q.now.first (exchanged q.now.after (request q.now) other from to self.old.state) self.old
            result self.new }
    {
        self.claimed.may_write_word(q.channel)?;
        lay(&mut self.claimed, self.state.wptr(), q.first);
        self.claimed.set_word(q.channel, Word::new(NOT_PROCESS));
        self.claimed.copy(from, to, q.length);
        release(&mut self.state, &mut self.claimed, other);
        self.state.go(q.after);
        Ok(Ran::Instruction)
    }

    /// An input finds a process in its channel.
    fn receive(&mut self, q: &Request, other: Word) -> Result<Ran, Break>
        requires side { (request q.now).side ≡ Input }
        requires asks { IsRequest q.now self.old }
        ensures { DoesLaid q.now.first (input_meets q.now.after (request q.now) other (status self.old.state other)
            self.old.state) self.old result self.new }
    {
        match &self.reason(other) {
            Some(
                Reason::Sends {
                    channel,
                    buffer,
                    length,
                },
            ) => {
                require(*channel == q.channel, Break::ChannelMisuse)?;
                require(*length == q.length, Break::LengthMismatch)?;
                self.claimed.may_write(q.buffer, q.length)?;
                self.claimed.may_read(*buffer, *length)?;
                self.exchange(q, other, *buffer, q.buffer)
            }
            _ => Err(Break::ChannelMisuse),
        }
    }

    /// An output finds a process that waits to receive with this channel, buffer and length.
    fn deliver(
        &mut self,
        q: &Request,
        other: Word,
        channel: Word,
        buffer: Word,
        size: u32,
    ) -> Result<Ran, Break>
        requires side { (request q.now).side ≡ Output }
        requires waits { IsSome (reason_of self.old.state other) }
        requires asks { IsRequest q.now self.old }
        ensures { DoesLaid q.now.first (met q.now.after (request q.now) other Output channel buffer size
            self.old.state) self.old result self.new }
    {
        require(channel == q.channel, Break::ChannelMisuse)?;
        require(size == q.length, Break::LengthMismatch)?;
        self.claimed.may_read(q.buffer, q.length)?;
        self.claimed.may_write(buffer, size)?;
        self.exchange(q, other, q.buffer, buffer)
    }

    /// An output finds a process that waits for its alternative: that becomes ready.
    #[tactic(auto, using(crate::proofs::Descheduling::own_process, crate::proofs::Saved::are_saved_beside))]
    fn wake_choice(&mut self, q: &Request, other: Word) -> Result<Ran, Break>
        requires waits { IsSome (reason_of self.old.state other) }
        requires saved { has_saved self.old.claimed.marks (spec_workspace_of other) ≡ true }
        requires asks { IsRequest q.now self.old }
        ensures { DoesLaid q.now.first (wakes_choice (request q.now) other self.old.state) self.old result self.new }
    {
        self.may_leave(q)?;
        leave(&self.state, &mut self.claimed, q);
        self.claimed
            .set_saved_word(workspace_of(other), STATE_WORD, Word::new(READY));
        release(&mut self.state, &mut self.claimed, other);
        wait(&mut self.state, &self.claimed, q.process, q.reason());
        Ok(Ran::Instruction)
    }

    /// A process waits on the channel, and the alternative of a queued process becomes ready.
    #[tactic(auto, using(crate::proofs::Descheduling::own_process))]
    fn wait_and_ready(&mut self, q: &Request, other: Word) -> Result<Ran, Break>
        requires asks { IsRequest q.now self.old }
        requires saved { has_saved self.old.claimed.marks (spec_workspace_of other) ≡ true }
        ensures { DoesLaid q.now.first (in_turn (own_side (request q.now) self.old.state)
            (set_saved_word (spec_workspace_of other) 3 ready)
            (answer (
              waiting_for q.now.process (reason_for (request q.now) (request q.now).side) self.old.state,
              ran.Instruction,
            ))) self.old result self.new }
    {
        let workspace = workspace_of(other);
        self.may_leave(q)?;
        leave(&self.state, &mut self.claimed, q);
        self.claimed
            .set_saved_word(workspace, STATE_WORD, Word::new(READY));
        wait(&mut self.state, &self.claimed, q.process, q.reason());
        Ok(Ran::Instruction)
    }

    /// An output finds a queued process that has enabled the channel: its alternative becomes ready.
    fn meet_queued(&mut self, q: &Request, other: Word) -> Result<Ran, Break>
        requires asks { IsRequest q.now self.old }
        requires saved { has_saved self.old.claimed.marks (spec_workspace_of other) ≡ true }
        ensures { DoesLaid q.now.first (output_meets q.now.after (request q.now) other Queued self.old.state) self.old
            result self.new }
    {
        let chosen = self.claimed.saved_word(workspace_of(other), STATE_WORD);
        require(is_choosing(chosen), Break::ChannelMisuse)?;
        self.wait_and_ready(q, other)
    }

    /// The checks of a process that leaves its side of a message, and then sets the state word of another, which was
    /// touched before.
    #[tactic(auto, unfolding(crate::specs::Channels::own_side))]
    fn may_leave_and_set(&self, q: &Request, other: Word) -> Result<(), Break>
        ensures refused { IfErr result (λ b. RefusesAfter (own_side (request q.now) self.now.state)
            (spec.set_touched_word self.now.state.registers.wptr (word_below (spec_workspace_of other) 3) ready)
            self.now.claimed b) }
        ensures free { OnOk result
            (MayLeave self.now.claimed self.now.state.registers.wptr (request q.now)) }
        ensures touched { OnOk result
            (spec_is_own_word self.now.state.registers.wptr (word_below (spec_workspace_of other) 3) ≡ false
            → word_break (length self.now.claimed.memory.bytes)
            (saving self.now.state.registers.wptr self.now.claimed.marks) Writes
            (word_below (spec_workspace_of other) 3) ≡ None) }
    {
        self.may_leave(q)?;
        let address = workspace_of(other).below(STATE_WORD);
        if is_own_word(self.state.wptr(), address) {
            return Ok(());
        }
        self.claimed
            .may_write_word_beside(self.state.wptr(), address)
    }

    /// A process waits on the channel, and the alternative of another that does not becomes ready.
    #[tactic(auto, using(crate::proofs::Descheduling::own_process))]
    fn wait_and_set(&mut self, q: &Request, other: Word) -> Result<Ran, Break>
        requires asks { IsRequest q.now self.old }
        ensures { DoesLaid q.now.first (in_turn (own_side (request q.now) self.old.state)
            (spec.set_touched_word self.old.state.registers.wptr (word_below (spec_workspace_of other) 3) ready)
            (answer (
              waiting_for q.now.process (reason_for (request q.now) (request q.now).side) self.old.state,
              ran.Instruction,
            ))) self.old result self.new }
    {
        let own = self.state.wptr();
        self.may_leave_and_set(q, other)?;
        leave(&self.state, &mut self.claimed, q);
        let address = workspace_of(other).below(STATE_WORD);
        set_touched_word(&mut self.claimed, own, address, Word::new(READY));
        wait(&mut self.state, &self.claimed, q.process, q.reason());
        Ok(Ran::Instruction)
    }

    /// An output finds the interrupted process, which has enabled the channel: its alternative becomes ready.
    fn meet_interrupted(&mut self, q: &Request, other: Word) -> Result<Ran, Break>
        requires asks { IsRequest q.now self.old }
        ensures { DoesLaid q.now.first (output_meets q.now.after (request q.now) other Interrupted self.old.state)
            self.old result self.new }
    {
        let chosen = self
            .claimed
            .take_word(workspace_of(other).below(STATE_WORD))?;
        require(is_choosing(chosen), Break::ChannelMisuse)?;
        self.wait_and_set(q, other)
    }

    /// An output finds a process in its channel.
    #[tactic(auto, using(crate::proofs::Saved::waiter_saved_now, crate::proofs::Saved::queued_saved_now))]
    fn send(&mut self, q: &Request, other: Word) -> Result<Ran, Break>
        requires side { (request q.now).side ≡ Output }
        requires asks { IsRequest q.now self.old }
        ensures { DoesLaid q.now.first (output_meets q.now.after (request q.now) other (status self.old.state other)
            self.old.state) self.old result self.new }
    {
        match &self.status(other) {
            ProcessStatus::Waits(
                Reason::Receives {
                    channel,
                    buffer,
                    length,
                },
            ) => self.deliver(q, other, *channel, *buffer, *length),
            ProcessStatus::Waits(Reason::Chooses) => self.wake_choice(q, other),
            ProcessStatus::Queued => self.meet_queued(q, other),
            ProcessStatus::Interrupted => self.meet_interrupted(q, other),
            _ => Err(Break::ChannelMisuse),
        }
    }

    /// A process finds another in its channel.
    fn meet(&mut self, q: &Request, other: Word) -> Result<Ran, Break>
        requires asks { IsRequest q.now self.old }
        ensures { DoesLaid q.now.first (meets (request q.now).side q.now.after (request q.now) other self.old.state)
            self.old result self.new }
    {
        match q.side {
            Side::Input => self.receive(q, other),
            Side::Output => self.send(q, other),
        }
    }

    /// A message on an internal channel: the first of two processes waits, and the second one meets it.
    pub fn internal_message(&mut self, q: &Request) -> Result<Ran, Break>
        requires asks { IsRequest q.now self.old }
        ensures { DoesLaid q.now.first (internal_message q.now.after (request q.now) self.old.state) self.old result
            self.new }
    {
        let found = self.claimed.take_word(q.channel)?;
        if found.get() == NOT_PROCESS {
            return self.wait_on_channel(q);
        }
        self.meet(q, found)
    }
}
