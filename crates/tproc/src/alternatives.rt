//! Alternatives: enable their guards, waiting, and the branch that is taken.

ghost use Rattle.std.specs.Prelude.{◌≡◌, ◌==◌, if◌then◌else◌, true};
ghost use Rattle.tword.specs.Actions.{answer};
ghost use Rattle.tproc.specs.Alternatives.{awaits_choice, begins_choice, enable, enable_internal, enables_channel};
ghost use Rattle.tproc.specs.Alternatives.{enables_skip, ends_choice};
ghost use Rattle.tproc.specs.Agreement.{IsOwn};
ghost use Rattle.tproc.specs.Doing.{Does};
ghost use Rattle.tproc.specs.Guards.{Enables, MayEnable, kept_after};
ghost use Rattle.tproc.specs.LinkChannels as spec;

use crate::channels::{ENABLING, NOT_PROCESS, READY, Side, WAITING, is_choosing};
use crate::engine::Engine;
use crate::link_channels::{is_link, link_at};
use crate::process_status::ProcessStatus;
use crate::queues::{IPTR_WORD, STATE_WORD, require, wait};
use crate::ran::Ran;
use crate::waiter::{LinkEnd, Reason};
use tcpu::Registers;
use tword::{Break, Word};

/// The offset of no guard.
pub const NONE_SELECTED: u32 = 0xffff_ffff;

impl Engine {
    /// An alternative begins.
    pub fn begin_choice(&mut self) -> Result<Ran, Break>
        ensures { Does (begins_choice self.old.state) self.old result self.new }
    {
        self.claimed
            .write_word(self.state.wptr().below(STATE_WORD), Word::new(ENABLING))?;
        Ok(Ran::Instruction)
    }

    /// A link channel is enabled: a byte waits already, or its coming is remembered.
    fn enable_link(&mut self, process: Word, channel: Word) -> Result<(), Break>
        requires link { spec.is_link channel ≡ true }
        requires may { MayEnable self.old }
        ensures { Enables (enable channel process self.old.state) self.old result self.new }
    {
        let link = link_at(Side::Input, channel)?;
        require(self.is_free(Side::Input, link), Break::LinkBusy)?;
        let end = self.state.link(link);
        if end.noticed {
            self.claimed
                .set_word(self.state.wptr().below(STATE_WORD), Word::new(READY));
        } else {
            self.state.set_link(
                link,
                LinkEnd {
                    remembered: Some(process),
                    ..end
                },
            );
        }
        Ok(())
    }

    /// An internal channel is enabled: its word names the process, or a process waits there already to output.
    fn enable_internal(&mut self, process: Word, channel: Word) -> Result<(), Break>
        requires may { MayEnable self.old }
        ensures { Enables (enable_internal channel process self.old.state) self.old result self.new }
    {
        let found = self.claimed.take_word(channel)?;
        if found.get() == NOT_PROCESS {
            self.claimed.set_word(channel, process);
            return Ok(());
        }
        match &self.status(found) {
            ProcessStatus::Waits(Reason::Sends { channel: other, .. }) => {
                require(*other == channel, Break::ChannelMisuse)?;
                self.claimed
                    .set_word(self.state.wptr().below(STATE_WORD), Word::new(READY));
                Ok(())
            }
            ProcessStatus::Runs => Ok(()),
            _ => Err(Break::ChannelMisuse),
        }
    }

    /// A channel is enabled.
    fn enable(&mut self, process: Word, channel: Word) -> Result<(), Break>
        requires may { MayEnable self.old }
        ensures { Enables (enable channel process self.old.state) self.old result self.new }
    {
        if is_link(channel) {
            self.enable_link(process, channel)
        } else {
            self.enable_internal(process, channel)
        }
    }

    /// The channel of the guard that `enbc` names is enabled, unless the guard is false.
    fn enable_guard(&mut self, process: Word) -> Result<(), Break>
        requires may { MayEnable self.old }
        ensures { Enables (if self.old.state.registers.a == 0 then answer self.old.state else enable
            self.old.state.registers.b process
            self.old.state) self.old result self.new }
    {
        let channel = self.state.registers().b;
        if self.state.registers().a.get() == 0 {
            Ok(())
        } else {
            self.enable(process, channel)
        }
    }

    /// The channel of the guard is enabled, and the guard is kept.
    fn enable_and_go(&mut self, process: Word) -> Result<Ran, Break>
        requires may { MayEnable self.old }
        ensures { Does (kept_after (if self.old.state.registers.a == 0 then answer self.old.state else enable
            self.old.state.registers.b process self.old.state) self.old.state.registers) self.old result self.new }
    {
        let r = self.state.registers();
        self.enable_guard(process)?;
        self.state.go(Registers { b: r.c, ..r });
        Ok(Ran::Instruction)
    }

    /// A guard on a channel is enabled, and kept.
    pub fn enable_channel(&mut self, process: Word) -> Result<Ran, Break>
        ensures { Does (enables_channel process self.old.state) self.old result self.new }
    {
        let chosen = self.claimed.take_word(self.state.wptr().below(STATE_WORD))?;
        require(is_choosing(chosen), Break::ChannelMisuse)?;
        self.enable_and_go(process)
    }

    /// A guard without a channel is enabled.
    pub fn enable_skip(&mut self) -> Result<Ran, Break>
        ensures { Does (enables_skip self.old.state) self.old result self.new }
    {
        let chosen = self.claimed.take_word(self.state.wptr().below(STATE_WORD))?;
        require(is_choosing(chosen), Break::ChannelMisuse)?;
        if self.state.registers().a.get() != 0 {
            self.claimed
                .set_word(self.state.wptr().below(STATE_WORD), Word::new(READY));
        }
        Ok(Ran::Instruction)
    }

    /// A process waits for a guard of its alternative, or goes on where one is ready.
    #[tactic(auto, using(crate::proofs::Descheduling::own_process, crate::proofs::Agreeing::saved_itself))]
    pub fn await_choice(&mut self, process: Word) -> Result<Ran, Break>
        requires own { IsOwn process self.old.state }
        ensures { Does (awaits_choice process self.old.state) self.old result self.new }
    {
        let r = self.state.registers();
        self.claimed.may_write_word(r.wptr)?;
        let chosen = self.claimed.take_word(r.wptr.below(STATE_WORD))?;
        require(is_choosing(chosen), Break::ChannelMisuse)?;
        if chosen.get() == READY {
            self.claimed.set_word(r.wptr, Word::new(NONE_SELECTED));
            return Ok(Ran::Instruction);
        }
        self.claimed.may_deschedule(r.wptr)?;
        self.claimed.set_word(r.wptr, Word::new(NONE_SELECTED));
        self.claimed.deschedule(r.wptr);
        self.claimed
            .set_saved_word(r.wptr, STATE_WORD, Word::new(WAITING));
        self.claimed.set_saved_word(r.wptr, IPTR_WORD, r.iptr);
        wait(&mut self.state, &self.claimed, process, Reason::Chooses);
        Ok(Ran::Instruction)
    }

    /// The branch of the guard that was selected follows.
    pub fn end_choice(&mut self) -> Result<Ran, Break>
        ensures { Does (ends_choice self.old.state) self.old result self.new }
    {
        let r = self.state.registers();
        let offset = self.claimed.read_word(r.wptr)?;
        self.state.go(Registers {
            iptr: r.iptr.plus(offset),
            ..r
        });
        Ok(Ran::Instruction)
    }
}
