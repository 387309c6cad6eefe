//! The operations of the scheduler, and the end of a timeslice.

ghost use Rattle.std.specs.Prelude.{◌≡◌, ◌<◌, ◌+◌, if◌then◌else◌, Ok, Some, true};
ghost use Rattle.tcpu.specs.Outcomes.{pop, push};
ghost use Rattle.tproc.specs.Priorities.{number};
ghost use Rattle.tproc.specs.Channels.{goes_on};
ghost use Rattle.tproc.specs.LinkChannels.{message};
ghost use Rattle.tproc.specs.Scheduler.{communicates, ends, jumped, runs, sends_from_workspace, starts, stops};
ghost use Rattle.tproc.specs.Scheduler.{yields};
ghost use Rattle.tproc.specs.Agreement.{IsPlain, RunsAt, is_over};
ghost use Rattle.tproc.specs.Doing.{Does, DoesLaid, Follows};
ghost use Rattle.tproc.specs.Requests.{IsRequest, MayDeschedule, MayWriteWord, offers_at_workspace, request};

use crate::channels::{Request, Side};
use crate::engine::Engine;
use crate::link_channels::is_link;
use crate::priority::Priority;
use crate::queues::{IPTR_WORD, admit, enqueue, require};
use crate::ran::Ran;
use tcpu::Registers;
use tword::{Break, Word};

/// The registers with which a process goes on behind a message: what asked for it is popped from the stack.
#[inline]
fn behind_message(registers: Registers) -> Registers
    ensures { result ≡ pop (pop registers) }
{
    Registers {
        a: registers.c,
        b: registers.c,
        ..registers
    }
}

impl Engine {
    /// The current process is no longer live.
    pub fn stop(&mut self) -> Result<Ran, Break>
        ensures { Does (stops self.old.state) self.old result self.new }
    {
        self.claimed.write_word(
            self.state.wptr().below(IPTR_WORD),
            self.state.registers().iptr,
        )?;
        self.state.rest();
        Ok(Ran::Instruction)
    }

    /// The current process ends if Error is set.
    pub fn stop_on_error(&mut self) -> Result<Ran, Break>
        ensures { Does (if self.old.state.registers.error then stops self.old.state else goes_on
            self.old.state.registers self.old.state) self.old result self.new }
    {
        if self.state.registers().error {
            return self.stop();
        }
        Ok(Ran::Instruction)
    }

    /// The priority of the current process is pushed.
    pub fn load_priority(&mut self, priority: Priority) -> Ran
        ensures { Does (goes_on (push (number priority) self.old.state.registers) self.old.state) self.old (Ok result)
            self.new }
    {
        let r = self.state.registers();
        self.state.go(Registers {
            a: Word::new(u32::from(priority.number())),
            b: r.a,
            c: r.b,
            ..r
        });
        Ran::Instruction
    }

    /// A new process starts, at an address relative to the next instruction.
    #[tactic(auto, using(crate::proofs::Descheduling::started_process))]
    pub fn start(&mut self, priority: Priority) -> Result<Ran, Break>
        requires runs { RunsAt (number priority) self.old.state }
        ensures { Does (starts (number priority) self.old.state) self.old result self.new }
    {
        let r = self.state.registers();
        require(r.a.get() % 4 == 0, Break::Unaligned)?;
        let process = Word::new(r.a.get() + u32::from(priority.number()));
        admit(&self.state, &mut self.claimed, process)?;
        self.claimed
            .set_saved_word(r.a, IPTR_WORD, r.iptr.plus(r.b));
        enqueue(&mut self.state, &mut self.claimed, process);
        self.state.go(Registers {
            a: r.c,
            b: r.c,
            ..r
        });
        Ok(Ran::Instruction)
    }

    /// A process that was stopped runs again.
    #[tactic(auto, using(crate::proofs::Saved::are_saved))]
    pub fn run_process(&mut self) -> Result<Ran, Break>
        requires plain { IsPlain self.old.state }
        ensures { Does (runs self.old.state) self.old result self.new }
    {
        let r = self.state.registers();
        admit(&self.state, &mut self.claimed, r.a)?;
        enqueue(&mut self.state, &mut self.claimed, r.a);
        self.state.go(Registers {
            a: r.b,
            b: r.c,
            ..r
        });
        Ok(Ran::Instruction)
    }

    /// One of several processes ends, and the last one goes on as their successor.
    pub fn end(&mut self) -> Result<Ran, Break>
        requires plain { IsPlain self.old.state }
        ensures { Does (ends self.old.state) self.old result self.new }
    {
        let r = self.state.registers();
        let zero = Word::new(0);
        let successor = self.claimed.read_word(r.a)?;
        let count = r.a.plus(Word::new(4));
        let left = self.claimed.take_word(count)?;
        if left.get() == 1 {
            require(
                r.a == r.wptr || !self.state.is_live(&self.claimed, r.a),
                Break::AlreadyLive,
            )?;
            self.claimed.set_word(count, zero);
            self.state.go(Registers {
                a: zero,
                b: zero,
                c: zero,
                iptr: successor,
                wptr: r.a,
                ..r
            });
        } else {
            self.claimed
                .set_word(count, Word::new(left.get().wrapping_sub(1)));
            self.state.rest();
        }
        Ok(Ran::Instruction)
    }

    /// The low process that runs goes behind the others of its queue.
    #[tactic(auto, using(crate::proofs::Descheduling::running_process))]
    #[inline(never)]
    fn yield_now(&mut self)
        requires runs { RunsAt 1 self.old.state }
        requires free { MayDeschedule self.old.claimed self.old.state.registers.wptr }
        ensures { Follows (yields (self.old.state.registers.wptr + 1) self.old.state) self.old self.new }
    {
        let r = self.state.registers();
        let process = self.state.own(Priority::Low);
        self.claimed.deschedule(r.wptr);
        self.claimed.set_saved_word(r.wptr, IPTR_WORD, r.iptr);
        self.state.rest();
        enqueue(&mut self.state, &mut self.claimed, process);
    }

    /// What follows a jump: a low process whose timeslice is over yields, or its timeslice begins again.
    #[inline]
    pub fn jumped(&mut self, priority: Priority)
        requires runs { RunsAt (number priority) self.old.state }
        requires free { is_over (number priority) self.old.state ≡ true
            → MayDeschedule self.old.claimed self.old.state.registers.wptr }
        ensures { Follows (jumped (number priority) self.old.state) self.old self.new }
    {
        if matches!(priority, Priority::High) {
            return;
        }
        if self.state.is_slice_over() {
            if self.state.is_low_empty() {
                self.state.restart_count();
            } else {
                self.yield_now();
            }
        }
    }

    /// A message on any channel.
    fn message(&mut self, q: &Request) -> Result<Ran, Break>
        requires asks { IsRequest q.now self.old }
        ensures { DoesLaid q.now.first (message q.now.after (request q.now) self.old.state) self.old result self.new }
    {
        if is_link(q.channel) {
            self.link_message(q)
        } else {
            self.internal_message(q)
        }
    }

    /// A process asks for a message, or offers one, with length, channel and buffer on its stack.
    pub fn communicate(&mut self, side: Side, priority: Priority) -> Result<Ran, Break>
        requires runs { RunsAt (number priority) self.old.state }
        ensures { Does (communicates side (self.old.state.registers.wptr + (number priority)) self.old.state) self.old
            result self.new }
    {
        let r = self.state.registers();
        let q = Request {
            process: self.state.own(priority),
            side,
            channel: r.b,
            buffer: r.c,
            length: r.a.get(),
            first: None,
            after: behind_message(r),
        };
        self.message(&q)
    }

    /// A process offers the message of this length that it stores at its workspace, which it may write.
    fn send_laid(&mut self, size: u32, priority: Priority) -> Result<Ran, Break>
        requires runs { RunsAt (number priority) self.old.state }
        requires free { MayWriteWord self.old.claimed self.old.state.registers.wptr }
        ensures { DoesLaid (Some self.old.state.registers.a) (offers_at_workspace size (self.old.state.registers.wptr
            + (number priority)) self.old.state) self.old result self.new }
    {
        let r = self.state.registers();
        let q = Request {
            process: self.state.own(priority),
            side: Side::Output,
            channel: r.b,
            buffer: r.wptr,
            length: size,
            first: Some(r.a),
            after: behind_message(r),
        };
        self.message(&q)
    }

    /// A process stores a message of this length at its workspace and offers it.
    pub fn send_from_workspace(&mut self, size: u32, priority: Priority) -> Result<Ran, Break>
        requires runs { RunsAt (number priority) self.old.state }
        ensures { Does (sends_from_workspace size (self.old.state.registers.wptr + (number priority)) self.old.state)
            self.old result self.new }
    {
        self.claimed.may_write_word(self.state.wptr())?;
        self.send_laid(size, priority)
    }
}
