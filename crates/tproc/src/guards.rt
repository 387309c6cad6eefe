//! Guards of an alternative as they are disabled, and the one that is selected.

ghost use Rattle.std.specs.Prelude.{◌≡◌, ◌==◌, if◌then◌else◌, IfOk, false, true};
ghost use Rattle.tword.specs.Actions.{answer};
ghost use Rattle.tword.specs.Stores.{with_word};
ghost use Rattle.tproc.specs.Checks.{KeepsShape};
ghost use Rattle.tproc.specs.Alternatives.{disable, disable_internal, disables_channel, disables_skip, selects};
ghost use Rattle.tproc.specs.Doing.{Does, DoesFrom};
ghost use Rattle.tproc.specs.Guards.{Disables, MayDisable, control_after, ready_as, store_after};
ghost use Rattle.tproc.specs.Requests.{MayWriteWord};
ghost use Rattle.tproc.specs.LinkChannels as spec;

use crate::alternatives::NONE_SELECTED;
use crate::channels::{NOT_PROCESS, Side};
use crate::claimed_memory::ClaimedMemory;
use crate::engine::Engine;
use crate::link_channels::{is_link, link_at};
use crate::process_status::ProcessStatus;
use crate::queues::require;
use crate::ran::Ran;
use crate::waiter::{LinkEnd, Reason};
use tcpu::Registers;
use tword::{Break, Word};

/// What a guard shows when it is disabled.
#[derive(Clone, Copy, Debug, PartialEq, Eq)]
pub enum Guard {
    /// A link, which forgets the process. The guard is ready where a byte was noticed.
    Link(u8, bool),
    /// An internal channel that still names the process, and so is not ready.
    Enabled(Word),
    Ready,
    NotReady,
}

/// Whether a guard is ready.
fn is_ready(guard: &Guard) -> bool
    ensures { result ≡ ready_as guard.now }
{
    match guard {
        Guard::Link(_, noticed) => *noticed,
        Guard::Ready => true,
        Guard::Enabled(_) | Guard::NotReady => false,
    }
}

/// Sets a word where a test says so.
fn store_if(test: bool, claimed: &mut ClaimedMemory, address: Word, value: Word)
    requires { MayWriteWord claimed.old address }
    ensures cells { claimed.new.memory.bytes
        ≡ (if test then with_word claimed.old.memory.bytes address value else claimed.old.memory.bytes) }
    ensures shape { KeepsShape claimed.old.memory claimed.new.memory }
    ensures claims { claimed.new.marks ≡ claimed.old.marks }
{
    if test {
        claimed.set_word(address, value);
    }
}

impl Engine {
    /// The guard of a link channel.
    fn link_guard(&self, channel: Word) -> Result<Guard, Break>
        requires { spec.is_link channel ≡ true }
        ensures done { Disables (disable channel self.now.state) self.now result }
        ensures may { IfOk result (λ g. MayDisable self.now.claimed g) }
    {
        let link = link_at(Side::Input, channel)?;
        require(self.is_free(Side::Input, link), Break::LinkBusy)?;
        Ok(Guard::Link(link, self.state.link(link).noticed))
    }

    /// The guard of an internal channel.
    fn internal_guard(&self, channel: Word) -> Result<Guard, Break>
        ensures done { Disables (disable_internal channel self.now.state) self.now result }
        ensures may { IfOk result (λ g. MayDisable self.now.claimed g) }
    {
        let found = self.claimed.take_word(channel)?;
        if found.get() == NOT_PROCESS {
            return Ok(Guard::NotReady);
        }
        match &self.status(found) {
            ProcessStatus::Waits(Reason::Sends { channel: other, .. }) => {
                require(*other == channel, Break::ChannelMisuse)?;
                Ok(Guard::Ready)
            }
            ProcessStatus::Runs => Ok(Guard::Enabled(channel)),
            _ => Err(Break::ChannelMisuse),
        }
    }

    /// The guard of a channel.
    fn channel_guard(&self, channel: Word) -> Result<Guard, Break>
        ensures done { Disables (disable channel self.now.state) self.now result }
        ensures may { IfOk result (λ g. MayDisable self.now.claimed g) }
    {
        if is_link(channel) {
            self.link_guard(channel)
        } else {
            self.internal_guard(channel)
        }
    }

    /// The guard that `disc` names: one that is false is not ready.
    fn guard_of(&self) -> Result<Guard, Break>
        ensures done { Disables (if self.now.state.registers.b == 0 then answer (self.now.state, false) else disable
            self.now.state.registers.c self.now.state) self.now result }
        ensures may { IfOk result (λ g. MayDisable self.now.claimed g) }
    {
        if self.state.registers().b.get() == 0 {
            Ok(Guard::NotReady)
        } else {
            self.channel_guard(self.state.registers().c)
        }
    }

    /// A guard is disabled.
    fn disable(&mut self, guard: &Guard)
        requires may { MayDisable self.old.claimed guard.now }
        ensures control { self.new.state ≡ control_after guard.now self.old.state }
        ensures cells { self.new.claimed.memory.bytes ≡ store_after guard.now self.old.claimed.memory.bytes }
        ensures shape { KeepsShape self.old.claimed.memory self.new.claimed.memory }
        ensures claims { self.new.claimed.marks ≡ self.old.claimed.marks }
    {
        match guard {
            Guard::Link(link, _) => {
                let end = self.state.link(*link);
                self.state.set_link(
                    *link,
                    LinkEnd {
                        remembered: None,
                        ..end
                    },
                );
            }
            Guard::Enabled(channel) => self.claimed.set_word(*channel, Word::new(NOT_PROCESS)),
            Guard::Ready | Guard::NotReady => {}
        }
    }

    /// A guard is disabled, and selected where it is ready and none was before it.
    fn select(&mut self, guard: &Guard) -> Result<Ran, Break>
        requires may { MayDisable self.old.claimed guard.now }
        ensures { DoesFrom (store_after guard.now self.old.claimed.memory.bytes) (selects self.old.state.registers.a
            (ready_as guard.now) (control_after guard.now self.old.state)) self.old result self.new }
    {
        let r = self.state.registers();
        let selected = self.claimed.take_word(r.wptr)?;
        let chosen = is_ready(guard) && selected.get() == NONE_SELECTED;
        self.disable(guard);
        store_if(chosen, &mut self.claimed, r.wptr, r.a);
        self.state.go(Registers {
            a: Word::new(u32::from(chosen)),
            b: r.c,
            ..r
        });
        Ok(Ran::Instruction)
    }

    /// A guard on a channel is disabled.
    pub fn disable_channel(&mut self) -> Result<Ran, Break>
        ensures { Does (disables_channel self.old.state) self.old result self.new }
    {
        let guard = self.guard_of()?;
        self.select(&guard)
    }

    /// A guard without a channel is disabled.
    pub fn disable_skip(&mut self) -> Result<Ran, Break>
        ensures { Does (disables_skip self.old.state) self.old result self.new }
    {
        if self.state.registers().b.get() == 0 {
            self.select(&Guard::NotReady)
        } else {
            self.select(&Guard::Ready)
        }
    }
}
