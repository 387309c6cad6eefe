//! All of a processor but its memory.

ghost use Rattle.tproc.specs.Priorities.{number};
ghost use Rattle.tproc.specs.Machine as spec;
ghost use Rattle.std.specs.Prelude.{◌≡◌, ◌+◌, ◌<◌, ◌||◌, ◌==◌, not, nat_le, true, option_map, Some, IfOk, length};
ghost use Rattle.tproc.specs.LinkChannels.{link_end, with_link};
ghost use Rattle.tproc.specs.Machine.{workspace_of};
ghost use Rattle.tproc.specs.Queues.{at_rest, suspended, resumed};
ghost use Rattle.tproc.specs.Scheduler.{counted, counted_by};
ghost use Rattle.tproc.specs.Opening.{no_processes};
ghost use Rattle.tproc.specs.Resting.{is_idle};
ghost use Rattle.tproc.specs.Agreement.{IsOwn, RunsAt, StillAgrees, is_over};
ghost use Rattle.tproc.specs.Runs.{RunsAlone};
ghost use Rattle.tproc.specs.Stretches.{alone_for};

use crate::descheduled::Descheduled;
use crate::offer::Offer;
use crate::priority::Priority;
use crate::waiter::{LinkEnd, Suspended};
use std::alloc::{AllocError, Global};
use std::marker::Model;
use tcode::Operation;
use tcpu::Registers;
use tword::{Kind, Word};

/// A processor without its memory.
#[derive(Drop)]
pub struct State {
    pub registers: Registers,
    /// The priority of the process that runs, if one does.
    pub current: Option<Priority>,
    pub count: u32,
    pub interrupted: Option<Suspended>,
    /// The processes that are queued or wait.
    pub descheduled: Descheduled,
    pub links: [LinkEnd; 4],
    pub timeslice: u32,
    /// The kind of the node.
    pub kind: Kind,
    pub halted: bool,
}

impl Model for State {
    ghost use Rattle.std.specs.Prelude.{option_map};
    ghost use Rattle.tproc.specs.Machine.{Control};
    ghost use Rattle.tproc.specs.Priorities.{number};

    ghost Value = { Control };

    ghost view = { λ s. record {
      registers = s.registers;
      current = option_map number s.current;
      count = s.count;
      interrupted = s.interrupted;
      high = s.descheduled.high;
      low = s.descheduled.low;
      waiting = s.descheduled.waiting;
      links = s.links;
      timeslice = s.timeslice;
      kind = s.kind;
      halted = s.halted;
    } };
}

/// A link where nothing is pending, noticed or remembered.
const QUIET: LinkEnd = LinkEnd {
    output: None,
    input: None,
    noticed: false,
    remembered: None,
};

/// The workspace of a descriptor.
#[inline]
pub fn workspace_of(process: Word) -> Word
    ensures { result ≡ spec.workspace_of process }
{
    Word::new(process.get() - process.get() % 2)
}

impl State {
    /// No process, nothing pending and both flags clear, on a node of a kind, with room for all processes that may live
    /// in a memory of `size` bytes.
    ///
    /// # Errors
    /// Where the allocator refuses.
    pub fn new(alloc: Global, size: u32, timeslice: u32, kind: Kind) -> Result<State, AllocError>
        ensures { IfOk result (λ s. s ≡ no_processes timeslice kind) }
    {
        let zero = Word::new(0);
        let descheduled = Descheduled::new(alloc, size)?;
        Ok(State {
            registers: Registers {
                a: zero,
                b: zero,
                c: zero,
                iptr: zero,
                wptr: zero,
                error: false,
                halt_on_error: false,
            },
            current: None,
            count: 0,
            interrupted: None,
            descheduled,
            links: [QUIET; 4],
            timeslice,
            kind,
            halted: false,
        })
    }

    /// A copy of the state, with the same room.
    ///
    /// # Errors
    /// Where the allocator refuses.
    pub fn try_copy(&self, alloc: Global) -> Result<State, AllocError>
        ensures { IfOk result (λ s. s ≡ self.now) }
    {
        let descheduled = self.descheduled.try_copy(alloc)?;
        let mut links = [QUIET; 4];
        links.copy_from_slice(&self.links);
        Ok(State {
            registers: self.registers,
            current: self.current,
            count: self.count,
            interrupted: self.interrupted,
            descheduled,
            links,
            timeslice: self.timeslice,
            kind: self.kind,
            halted: self.halted,
        })
    }

    /// The registers of the process that runs.
    #[inline(always)]
    pub fn registers(&self) -> Registers
        ensures { result ≡ self.now.registers }
    {
        self.registers
    }

    /// The workspace of the process that runs.
    #[inline(always)]
    pub fn wptr(&self) -> Word
        ensures { result ≡ self.now.registers.wptr }
    {
        self.registers.wptr
    }

    /// The priority of the process that runs, if one does.
    #[inline(always)]
    pub fn current(&self) -> Option<Priority>
        ensures { option_map number result ≡ self.now.current }
    {
        self.current
    }

    /// How many instructions the process that runs has done since it was dispatched.
    #[inline(always)]
    pub fn count(&self) -> u32
        ensures { result ≡ self.now.count }
    {
        self.count
    }

    /// The low process that a high one interrupted, if one did.
    #[inline(always)]
    pub fn interrupted(&self) -> Option<Suspended>
        ensures { result ≡ self.now.interrupted }
    {
        self.interrupted
    }

    /// Whether an instruction has halted the processor.
    #[inline(always)]
    pub fn is_halted(&self) -> bool
        ensures { result ≡ self.now.halted }
    {
        self.halted
    }

    /// Whether no low process is queued.
    #[inline(always)]
    pub fn is_low_empty(&self) -> bool
        ensures { result ≡ (length self.now.low == 0) }
    {
        self.descheduled.is_low_empty()
    }

    /// Whether the process that runs has done as many instructions as a timeslice has.
    #[inline(always)]
    pub fn is_slice_over(&self) -> bool
        ensures { result ≡ nat_le self.now.timeslice self.now.count }
    {
        self.timeslice <= self.count
    }

    /// The timeslice of the process that runs begins again.
    #[inline(always)]
    pub fn restart_count(&mut self)
        ensures done { self.new ≡ record self.old { count = 0 } }
        ensures agrees { StillAgrees self.old self.new }
    {
        self.count = 0;
    }

    /// The processor halts.
    #[inline(always)]
    pub fn halt(&mut self)
        ensures done { self.new ≡ record self.old { halted = true } }
        ensures agrees { StillAgrees self.old self.new }
    {
        self.halted = true;
    }

    /// The descriptor of the process that runs.
    #[tactic(auto, using(crate::proofs::Agreeing::own_workspace, crate::proofs::Places::place_running))]
    #[inline]
    pub fn own(&self, priority: Priority) -> Word
        requires { RunsAt (number priority) self.now }
        ensures is { result ≡ self.now.registers.wptr + (number priority) }
        ensures own { IsOwn result self.now }
    {
        Word::new(self.registers.wptr.get() + u32::from(priority.number()))
    }

    /// The process goes on with these registers.
    #[inline]
    pub fn go(&mut self, registers: Registers)
        ensures done { self.new ≡ record self.old { registers = registers } }
        ensures agrees { StillAgrees self.old self.new }
    {
        self.registers = registers;
    }

    /// A process runs from its beginning on, with the flags as they are.
    pub fn begin(&mut self, workspace: Word, iptr: Word, priority: Priority)
        ensures done { self.new ≡ record self.old {
          registers =
              record self.old.registers { a = 0; b = 0; c = 0; iptr = iptr; wptr = workspace };
          current =
              Some (number priority);
          count = 0;
        } }
        ensures agrees { StillAgrees self.old self.new }
    {
        let zero = Word::new(0);
        self.registers = Registers {
            a: zero,
            b: zero,
            c: zero,
            iptr,
            wptr: workspace,
            ..self.registers
        };
        self.current = Some(priority);
        self.count = 0;
    }

    /// The interrupted process runs again.
    pub fn resume(&mut self, kept: &Suspended)
        ensures done { self.new ≡ resumed kept.now self.old }
        ensures agrees { StillAgrees self.old self.new }
    {
        self.registers = kept.registers;
        self.current = Some(Priority::Low);
        self.count = kept.count;
        self.interrupted = None;
    }

    /// The low process that runs is interrupted.
    pub fn suspend(&mut self)
        ensures done { self.new ≡ suspended self.old }
        ensures agrees { StillAgrees self.old self.new }
    {
        self.interrupted = Some(Suspended {
            registers: self.registers,
            count: self.count,
        });
    }

    /// No process runs any more.
    pub fn rest(&mut self)
        ensures done { self.new ≡ at_rest self.old }
        ensures agrees { StillAgrees self.old self.new }
    {
        let zero = Word::new(0);
        self.registers = Registers {
            a: zero,
            b: zero,
            c: zero,
            iptr: zero,
            wptr: zero,
            ..self.registers
        };
        self.current = None;
        self.count = 0;
    }

    /// Registers and count are set back.
    pub fn take_back(&mut self, registers: Registers, count: u32)
        ensures done { self.new ≡ record self.old { registers = registers; count = count } }
        ensures agrees { StillAgrees self.old self.new }
    {
        self.registers = registers;
        self.count = count;
    }

    /// The state of a link.
    #[inline]
    pub fn link(&self, link: u8) -> LinkEnd
        requires { link < 4 }
        ensures { result ≡ link_end self.now link }
    {
        self.links[usize::from(link)]
    }

    /// The pending output of a link, if the link is there and has one.
    #[inline]
    pub fn output(&self, link: u8) -> Option<Offer>
        ensures { result ≡ (link_end self.now link).output }
    {
        self.links.get(usize::from(link))?.output
    }

    /// The pending input of a link, if the link is there and has one.
    #[inline]
    pub fn input(&self, link: u8) -> Option<Offer>
        ensures { result ≡ (link_end self.now link).input }
    {
        self.links.get(usize::from(link))?.input
    }

    /// Whether a process runs or can be dispatched, and the processor has not halted.
    #[inline]
    pub fn can_run(&self) -> bool
        ensures { result ≡ not (self.now.halted || is_idle self.now) }
    {
        let is_idle = self.current.is_none()
            && self.descheduled.is_high_empty()
            && self.interrupted.is_none()
            && self.descheduled.is_low_empty();
        !(self.halted || is_idle)
    }

    /// A link is set.
    pub fn set_link(&mut self, link: u8, end: LinkEnd)
        requires { link < 4 }
        ensures { self.new ≡ with_link link end self.old }
    {
        self.links[usize::from(link)] = end;
    }

    /// The count of a low process rises, up to the timeslice.
    #[inline]
    pub fn count_one(&mut self, priority: Priority)
        ensures done { self.new ≡ counted (number priority) self.old }
        ensures agrees { StillAgrees self.old self.new }
    {
        match priority {
            Priority::High => {}
            Priority::Low => {
                self.count = u32::min(self.count.saturating_add(1), self.timeslice);
            }
        }
    }

    /// `count` instructions of a process that runs alone are counted, if it is low.
    #[inline]
    pub fn count_alone(&mut self, priority: Priority, count: u32)
        requires { RunsAlone (number priority) count self.old }
        ensures done { self.new ≡ alone_for (number priority) count self.old }
        ensures agrees { StillAgrees self.old self.new }
    {
        match priority {
            Priority::High => {}
            Priority::Low => {
                prove!(u64::from(self.count) + u64::from(count) < u64::from(self.timeslice));
                self.count += count;
            }
        }
    }

    /// The priority of the process that runs, and how many instructions it does before another may run: none
    /// where no process runs.
    #[inline]
    pub fn stretch(&self) -> (Priority, u32)
        ensures { 0 < result.1 → RunsAlone (number result.0) result.1 self.now }
    {
        if self.halted {
            return (Priority::High, 0);
        }
        match self.current {
            None => (Priority::High, 0),
            Some(Priority::High) => (Priority::High, u32::MAX),
            Some(Priority::Low) => {
                let left = self.timeslice.saturating_sub(self.count).saturating_sub(1);
                if self.descheduled.is_high_empty() {
                    (Priority::Low, left)
                } else {
                    (Priority::Low, 0)
                }
            }
        }
    }

    /// The count after an operation of the scheduler.
    pub fn count_by(&mut self, operation: Operation, priority: Priority)
        ensures done { self.new ≡ counted_by operation (number priority) self.old }
        ensures agrees { StillAgrees self.old self.new }
    {
        match operation {
            Operation::Endp => {}
            _ => self.count_one(priority),
        }
    }

    /// Whether the timeslice of a process is over, once this jump is counted, and another low one is queued.
    #[inline]
    pub fn will_be_over(&self, priority: Priority) -> bool
        ensures { result ≡ is_over (number priority) (counted (number priority) self.now) }
    {
        match priority {
            Priority::High => false,
            Priority::Low => self.timeslice
                <= u32::min(self.count.saturating_add(1), self.timeslice)
                && !self.descheduled.is_low_empty(),
        }
    }
}
