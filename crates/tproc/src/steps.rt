//! One step of a processor.

ghost use Rattle.std.specs.Prelude.{◌≡◌, ◌≤◌, Err, IfErr, IfNone, IfOk, Ok, OnErr, Some, true};
ghost use Rattle.tword.specs.Actions.{run, value_of};
ghost use Rattle.tcpu.specs.Effects.{effect};
ghost use Rattle.tcpu.specs.Local.{StandsWhereLeft, StaysWhereJumped, would_jump};
ghost use Rattle.tproc.specs.Priorities.{number};
ghost use Rattle.tproc.specs.Checks.{KeepsShape};
ghost use Rattle.tproc.specs.Scheduler.{counted, counted_by, operation_step};
ghost use Rattle.tproc.specs.Steps.{control_step, instruction_step};
ghost use Rattle.tproc.specs.Agreement.{IsPlain, RunsAt, StillAgrees, is_over};
ghost use Rattle.tcpu.specs.Stretches.{gone_on};
ghost use Rattle.tproc.specs.Runs.{RunsAlone, answer_of};
ghost use Rattle.tproc.specs.Stretches.{alone_for};
ghost use Rattle.tproc.specs.SavedWords.{AreThreaded};
ghost use Rattle.tproc.specs.Doing.{Begins, Does, Foresees, jumps_as, machine_of, moved_on, rest_of, with_registers};
ghost use Rattle.tproc.specs.Requests.{MayDeschedule};
ghost use Rattle.tcode.specs.Decoding as spec;
ghost use Rattle.tcode.specs.Known.{AreForgotten};
ghost use Rattle.tcpu.specs.Written.{written as written_bytes};

use crate::channels::Side;
use crate::claimed_memory::ClaimedMemory;
use crate::dispatch::start_queued;
use crate::engine::Engine;
use crate::priority::Priority;
use crate::ran::Ran;
use crate::state::State;
use tcode::{CodeTable, Function, Instruction, Operation, decode};
use tcpu::{Next, Registers, local, may_write, written};
use tword::{Break, Kind, Word};

/// The instruction with which a step begins.
#[inline(always)]
fn fetch(state: &State, claimed: &ClaimedMemory) -> Result<Instruction, Break>
    ensures { Begins (spec.decode claimed.now.memory.kind state.now.registers.iptr) claimed.now result claimed.now }
{
    decode(&claimed.memory, &claimed.marks, state.registers.iptr)
}

/// Whether the instruction of a step jumps. That of a `j` is plain to see.
#[inline(always)]
fn jumps(state: &State, claimed: &ClaimedMemory, i: Instruction) -> Result<bool, Break>
    ensures told { result ≡ would_jump
        (run (effect claimed.now.memory.kind i state.now.registers) claimed.now.memory.bytes claimed.now.marks) }
    ensures foreseen { Foresees (effect claimed.now.memory.kind i state.now.registers) claimed.now state.now.registers
        result }
{
    match i.function {
        Function::J => Ok(true),
        _ => jumps_otherwise(state, claimed, i),
    }
}

/// Whether the instruction of a step jumps, whichever it is.
#[cold]
#[inline(never)]
fn jumps_otherwise(state: &State, claimed: &ClaimedMemory, i: Instruction) -> Result<bool, Break>
    ensures { result ≡ would_jump
        (run (effect claimed.now.memory.kind i state.now.registers) claimed.now.memory.bytes claimed.now.marks) }
{
    tcpu::jumps(&state.registers, &claimed.memory, &claimed.marks, i)
}

/// The effect of the instruction of a step, on registers that are worked on in place. Decoded code of the bytes that it
/// may write is forgotten.
#[inline(always)]
fn perform(state: &mut State, claimed: &mut ClaimedMemory, i: &Instruction) -> Result<Next, Break>
    ensures begins { Begins (effect claimed.old.memory.kind i.now state.old.registers) claimed.old
        (with_registers result state.new.registers) claimed.new }
    ensures kept { OnErr result ((claimed.new.memory.bytes ≡ claimed.old.memory.bytes) × (state.new ≡ state.old)) }
    ensures left { IfOk result (λ next. StandsWhereLeft next claimed.old.memory.bytes state.old.registers
        claimed.new.memory.bytes state.new.registers) }
    ensures told { would_jump (run (effect claimed.old.memory.kind i.now state.old.registers) claimed.old.memory.bytes
        claimed.old.marks) ≡ jumps_as result }
    ensures stays { IfOk result (λ next. StaysWhereJumped next state.old.registers state.new.registers) }
    ensures rest { state.new ≡ record state.old { registers = state.new.registers } }
    ensures agrees { StillAgrees state.old state.new }
    ensures shape { KeepsShape claimed.old.memory claimed.new.memory }
    ensures claims { claimed.new.marks ≡ claimed.old.marks }
{
    forget_written(
        &mut claimed.codes,
        &state.registers,
        i,
        claimed.memory.kind(),
    );
    local(
        &mut state.registers,
        &mut claimed.memory,
        &claimed.marks,
        *i,
    )
}

/// Forgets decoded code of the bytes that an instruction may write, from the registers before it.
// Where nothing is kept, and for most instructions, nothing more is asked.
#[inline(always)]
fn forget_written(codes: &mut CodeTable, registers: &Registers, i: &Instruction, kind: Kind)
    ensures { AreForgotten (written_bytes kind i.now.function i.now.operand registers.now) codes.old.entries.items
        codes.new.entries.items }
{
    if codes.may_keep_any() && may_write(*i) {
        forget_written_closely(codes, registers, i, kind);
    }
}

/// Forgets decoded code as `forget_written` does, whatever the instruction.
#[inline(never)]
fn forget_written_closely(codes: &mut CodeTable, registers: &Registers, i: &Instruction, kind: Kind)
    ensures { AreForgotten (written_bytes kind i.now.function i.now.operand registers.now) codes.old.entries.items
        codes.new.entries.items }
{
    let span = written(registers, *i, kind);
    codes.forget(span.start, span.size);
}

/// Instructions of the current process in a row, on registers that are worked on in place: how many were done.
fn go_on(state: &mut State, claimed: &mut ClaimedMemory, most: u32) -> u32
    ensures gone { gone_on result claimed.old.memory.kind claimed.old.marks state.old.registers claimed.old.memory.bytes
        ≡ Some (state.new.registers, claimed.new.memory.bytes) }
    ensures rest { state.new ≡ record state.old { registers = state.new.registers } }
    ensures agrees { StillAgrees state.old state.new }
    ensures shape { KeepsShape claimed.old.memory claimed.new.memory }
    ensures claims { claimed.new.marks ≡ claimed.old.marks }
    ensures within { result ≤ most }
{
    tcpu::local_row(
        &mut state.registers,
        &mut claimed.memory,
        &claimed.marks,
        &mut claimed.codes,
        most,
    )
}

impl Engine {
    /// An operation of the scheduler.
    #[tactic(auto, unfolding(crate::specs::Scheduler::operation_step))]
    fn operation(&mut self, operation: Operation, priority: Priority) -> Result<Ran, Break>
        requires runs { RunsAt (number priority) self.old.state }
        ensures { Does (operation_step operation (number priority) self.old.state) self.old result self.new }
    {
        match operation {
            Operation::Startp => self.start(priority),
            Operation::Endp => self.end(),
            Operation::Runp => self.run_process(),
            Operation::Stopp => self.stop(),
            Operation::Stoperr => self.stop_on_error(),
            Operation::Ldpri => Ok(self.load_priority(priority)),
            Operation::In => self.communicate(Side::Input, priority),
            Operation::Out => self.communicate(Side::Output, priority),
            Operation::Outbyte => self.send_from_workspace(1, priority),
            Operation::Outword => self.send_from_workspace(4, priority),
            Operation::Alt => self.begin_choice(),
            Operation::Enbc => {
                let process = self.state.own(priority);
                self.enable_channel(process)
            }
            Operation::Enbs => self.enable_skip(),
            Operation::Altwt => {
                let process = self.state.own(priority);
                self.await_choice(process)
            }
            Operation::Disc => self.disable_channel(),
            Operation::Diss => self.disable_skip(),
            Operation::Altend => self.end_choice(),
            _ => Err(Break::NoSuchOperation),
        }
    }

    /// An operation of the scheduler, whose instruction has this length, out of line.
    #[inline(never)]
    fn scheduled(&mut self, o: Operation, priority: Priority, size: u8) -> Result<Ran, Break>
        requires runs { RunsAt (number priority) self.old.state }
        ensures { Does (operation_step o (number priority) (counted_by o (number priority) (moved_on size
            self.old.state))) self.old result self.new }
    {
        let before = self.state.registers();
        let count = self.state.count();
        self.state.go(Registers {
            iptr: before.iptr.plus(Word::new(u32::from(size))),
            ..before
        });
        self.state.count_by(o, priority);
        match self.operation(o, priority) {
            Ok(ran) => Ok(ran),
            Err(broken) => {
                self.state.take_back(before, count);
                Err(broken)
            }
        }
    }

    /// The instruction at an address, as a process that runs there would fetch it.
    pub fn fetch_at(&self, address: Word) -> Result<Instruction, Break>
        ensures { result ≡ value_of (run (spec.decode self.now.state.kind address) self.now.claimed.memory.bytes
            self.now.claimed.marks) }
    {
        decode(&self.claimed.memory, &self.claimed.marks, address)
    }

    /// The checks of a yield that may follow an instruction.
    #[inline(always)]
    fn foresee(&self, i: &Instruction, priority: Priority) -> Result<(), Break>
        ensures ends { IfErr result (λ b. run (rest_of i.now (number priority) self.now.state)
            self.now.claimed.memory.bytes self.now.claimed.marks ≡ Err b) }
        ensures free { IfOk result (λ _. is_over (number priority) (counted (number priority) self.now.state) ≡ true →
            would_jump (run (effect self.now.state.kind i.now self.now.state.registers) self.now.claimed.memory.bytes
            self.now.claimed.marks) ≡ Ok true → MayDeschedule self.now.claimed self.now.state.registers.wptr) }
    {
        if self.state.will_be_over(priority) && jumps(&self.state, &self.claimed, *i)? {
            self.claimed.may_deschedule(self.state.wptr())?;
        }
        Ok(())
    }

    /// One instruction of the current process, whose registers are worked on in place.
    #[tactic(auto, unfolding(crate::specs::Steps::instruction_step))]
    #[inline(always)]
    fn instruction(&mut self, priority: Priority) -> Result<Ran, Break>
        requires runs { RunsAt (number priority) self.old.state }
        ensures { Does (instruction_step (number priority) self.old.state) self.old result self.new }
    {
        let i = fetch(&self.state, &self.claimed)?;
        self.foresee(&i, priority)?;
        match perform(&mut self.state, &mut self.claimed, &i)? {
            Next::Go => {
                self.state.count_one(priority);
                Ok(Ran::Instruction)
            }
            Next::Jumped => {
                self.state.count_one(priority);
                self.jumped(priority);
                Ok(Ran::Instruction)
            }
            // So that only the answer of this call lies in memory.
            Next::Schedule(o) => match self.scheduled(o, priority, i.length) {
                Ok(ran) => Ok(ran),
                Err(broken) => Err(broken),
            },
            Next::Halt => {
                self.state.count_one(priority);
                self.state.halt();
                Ok(Ran::Halting)
            }
        }
    }

    /// At most `most` instructions of the current process in a row, while no other may run and as long as each
    /// is one of the most common ones and the process goes on behind it: how many were done.
    pub fn go_on_alone(&mut self, priority: Priority, most: u32) -> u32
        requires { RunsAlone (number priority) most self.old.state }
        ensures gone { gone_on result self.old.claimed.memory.kind self.old.claimed.marks self.old.state.registers
            self.old.claimed.memory.bytes ≡ Some (self.new.state.registers, self.new.claimed.memory.bytes) }
        ensures state { self.new.state ≡ alone_for (number priority) result (record self.old.state {
          registers = self.new.state.registers;
        }) }
        ensures within { result ≤ most }
    {
        let count = go_on(&mut self.state, &mut self.claimed, most);
        self.state.count_alone(priority, count);
        count
    }

    /// One instruction of the current process, while no other may run. `None` where the process goes on, and nothing
    /// is changed but its registers, its count and the memory; else the answer of the step.
    #[tactic(auto, unfolding(crate::specs::Steps::instruction_step))]
    #[inline(always)]
    pub fn instruction_alone(&mut self, priority: Priority) -> Option<Result<Ran, Break>>
        requires alone { RunsAlone (number priority) 1 self.old.state }
        requires runs { RunsAt (number priority) self.old.state }
        ensures done { Does (instruction_step (number priority) self.old.state) self.old (answer_of result) self.new }
        ensures goes_on { IfNone result (self.new.state
            ≡ counted (number priority) (record self.old.state { registers = self.new.state.registers })) }
    {
        let i = match fetch(&self.state, &self.claimed) {
            Ok(i) => i,
            Err(broken) => return Some(Err(broken)),
        };
        match perform(&mut self.state, &mut self.claimed, &i) {
            Ok(Next::Go | Next::Jumped) => {
                self.state.count_one(priority);
                None
            }
            Ok(Next::Schedule(o)) => Some(self.scheduled(o, priority, i.length)),
            Ok(Next::Halt) => {
                self.state.count_one(priority);
                self.state.halt();
                Some(Ok(Ran::Halting))
            }
            Err(broken) => Some(Err(broken)),
        }
    }

    /// One step, as `step` does it, with all that is large out of line, so that a dispatch costs little.
    #[inline(always)]
    pub fn step_apart(&mut self) -> Result<Ran, Break>
        requires plain { IsPlain self.old.state }
        requires threaded { AreThreaded (machine_of self.old) }
        ensures { Does (control_step self.old.state.halted self.old.state) self.old result self.new }
    {
        if self.state.is_halted() {
            return Ok(Ran::Halted);
        }
        match self.state.current() {
            None => Ok(self.dispatch()),
            Some(_) => self.step_out_of_line(),
        }
    }

    /// One step, out of line.
    #[inline(never)]
    fn step_out_of_line(&mut self) -> Result<Ran, Break>
        requires plain { IsPlain self.old.state }
        requires threaded { AreThreaded (machine_of self.old) }
        ensures { Does (control_step self.old.state.halted self.old.state) self.old result self.new }
    {
        self.step()
    }

    /// One step by the process that runs, or a dispatch, unless the processor has halted. A high process that is queued
    /// interrupts a low one.
    #[inline(always)]
    pub fn step(&mut self) -> Result<Ran, Break>
        requires plain { IsPlain self.old.state }
        requires threaded { AreThreaded (machine_of self.old) }
        ensures { Does (control_step self.old.state.halted self.old.state) self.old result self.new }
    {
        if self.state.is_halted() {
            return Ok(Ran::Halted);
        }
        let priority = match self.state.current() {
            None => return Ok(self.dispatch()),
            Some(Priority::High) => Priority::High,
            Some(Priority::Low) => {
                if let Some(workspace) = self.state.take_high(&self.claimed) {
                    self.state.suspend();
                    start_queued(
                        &mut self.state,
                        &mut self.claimed,
                        workspace,
                        Priority::High,
                    );
                    return Ok(Ran::Dispatch);
                }
                Priority::Low
            }
        };
        self.instruction(priority)
    }
}
