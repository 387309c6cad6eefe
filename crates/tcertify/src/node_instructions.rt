//! The instructions of a node's processes, and their steps.

ghost use Rattle.std.specs.Prelude.{◌≡◌, ◌<◌, Ok, length};
ghost use Rattle.tprocesses.specs.Instructions as spec;
ghost use Rattle.tprocesses.specs.Parts.{see};
ghost use Rattle.tprocesses.specs.Places.{Standing};
ghost use Rattle.tprocesses.specs.Values.{IsStand, Runs};
ghost use Rattle.tword.specs.Words.{plus};
ghost use Rattle.tcertify.specs.Carried.{followed, with_left};
ghost use Rattle.tcertify.specs.Contexts.{context_of};
ghost use Rattle.tcertify.specs.declared.context.Context.{Context};
ghost use Rattle.tcertify.specs.Instructions.{decoded, outcome};
ghost use Rattle.tcertify.specs.Nodes.{Does, RunsAt, name_at, node_site, nothing};
ghost use Rattle.tcertify.specs.Steps.{IsRunning, ended, instructed, performed, step_of_process};
ghost use Rattle.tcertify.specs.Words.{told};

use crate::alone::IdleMemory;
use crate::carrying::{Carried, has_flags};
use crate::choosing::may_move;
use crate::context::Context;
use crate::decoding::decode;
use crate::fault::Fault;
use crate::local::do_local;
use crate::node::Node;
use crate::notes::Mode;
use crate::performing::Done;
use crate::standing::Stand;
use crate::stop::Stop;
use crate::uses::Uses;
use std::alloc::Global;
use tcode::Instruction;
use tcpu::{Next, Registers};
use tword::Word;

impl Node {
    /// The instruction at an address.
    ///
    /// # Errors
    /// Those of `decode`.
    #[inline(always)]
    fn decodes(&mut self, iptr: Word) -> Result<Instruction, Stop>
        ensures done { RunsAt (decoded (node_site self.old) iptr) self.old (told (λ i. i) result) self.new }
        ensures kind { self.new.words.kind ≡ self.old.words.kind }
    {
        decode(&mut self.words, iptr)
    }

    /// Does an instruction of a process with this context, or leaves an operation to the scheduler with nothing
    /// changed. idle: a memory of the node's kind that is not touched.
    ///
    /// # Errors
    /// Those of `do_local`.
    #[inline(always)]
    fn performs(
        &mut self,
        context: &Context,
        registers: &mut Registers,
        idle: &mut IdleMemory,
        instruction: Instruction,
    ) -> Result<Done, Stop>
        requires kind { idle.old.memory.kind ≡ self.old.words.kind }
        ensures done { RunsAt (performed (node_site self.old) (context_of context.now) instruction registers.old)
            self.old (told (outcome registers.new) result) self.new }
        ensures idle { idle.new.memory.kind ≡ idle.old.memory.kind }
    {
        do_local(context, registers, &mut self.words, idle, instruction)
    }

    /// Does an instruction of a process up to what follows it. idle: a memory of the node's kind that is not touched.
    ///
    /// # Errors
    /// `SawTheScheduler` where a register that it needs is not known, or what it reads and has to know; else those of
    /// what it touches, `Unaligned` of a workspace, `NoSuchOperation`.
    #[inline(always)]
    fn instructs(
        &mut self,
        context: &Context,
        idle: &mut IdleMemory,
        instruction: Instruction,
    ) -> Result<Carried, Stop>
        requires kind { idle.old.memory.kind ≡ self.old.words.kind }
        ensures done { RunsAt (instructed (node_site self.old) (context_of context.now) instruction) self.old
            (told (followed (context_of context.now)) result) self.new }
        ensures idle { idle.new.memory.kind ≡ idle.old.memory.kind }
    {
        let top = context.a.unwrap_or(Word::new(0));
        let uses = Uses::of_instruction(self.words.kind, &instruction, top);
        if !context.has_needed(uses.needs) {
            return Err(Stop::SawTheScheduler);
        }
        let looks = has_flags(self.words.kind, &instruction);
        let before = self.flags_before(looks);
        let mut registers = context.registers(before.error, before.halt_on_error);
        let done = self.performs(context, &mut registers, idle, instruction)?;
        if !uses.are_met(done.known) {
            return Err(Stop::SawTheScheduler);
        }
        self.flags_after(looks, before, &registers);
        let left = context.behind(&uses, done.known, &registers);
        Ok(Carried {
            next: done.next,
            left,
        })
    }

    /// What follows an instruction of a process that had this context.
    ///
    /// # Errors
    /// `Halts` where Error is set and HaltOnError is; those of the scheduler's operation; those of a rest;
    /// `OutOfMemory`.
    #[inline(always)]
    fn follows(
        &mut self,
        alloc: Global,
        process: u32,
        context: &Context,
        instruction: &Instruction,
        carried: &Carried,
    ) -> Result<(), Fault>
        requires { process < length self.old.processes.items.items }
        ensures { Does (spec.followed carried.now.next (node_site self.old) (name_at self.old process)
            (record (context_of context.now) { iptr = plus context.now.iptr instruction.now.length })
            (with_left (context_of context.now) carried.now.left)) nothing self.old result self.new }
    {
        if let Next::Go = carried.next {
            self.goes_on(process, &context.with_left(&carried.left));
            return Ok(());
        }
        self.follows_else(alloc, process, context, instruction, carried)
    }

    /// What follows an instruction, as `follows` does it, where that is not just the next one.
    ///
    /// # Errors
    /// Those of `follows`.
    // Apart, so that its contexts are made here alone.
    #[inline(always)]
    fn follows_else(
        &mut self,
        alloc: Global,
        process: u32,
        context: &Context,
        instruction: &Instruction,
        carried: &Carried,
    ) -> Result<(), Fault>
        requires { process < length self.old.processes.items.items }
        ensures { Does (spec.followed carried.now.next (node_site self.old) (name_at self.old process)
            (record (context_of context.now) { iptr = plus context.now.iptr instruction.now.length })
            (with_left (context_of context.now) carried.now.left)) nothing self.old result self.new }
    {
        match carried.next {
            Next::Go => self.goes_on(process, &context.with_left(&carried.left)),
            Next::Jumped => self.jumps(process, &context.with_left(&carried.left))?,
            Next::Halt => self.sets_error(process, &context.with_left(&carried.left))?,
            Next::Schedule(operation) => {
                return self.schedules(alloc, process, operation, &context.past(instruction));
            }
        }
        Ok(())
    }

    /// The end of an instruction of a process that had this context.
    ///
    /// # Errors
    /// `WordInUse` where it has another workspace now and an alternative is under way, those of `follows`;
    /// `OutOfMemory`.
    #[inline(always)]
    fn completes(
        &mut self,
        alloc: Global,
        process: u32,
        context: &Context,
        instruction: &Instruction,
        carried: &Carried,
    ) -> Result<(), Fault>
        requires { process < length self.old.processes.items.items }
        ensures { Does (ended (context_of context.now) instruction.now (node_site self.old) (name_at self.old process)
            (followed (context_of context.now) carried.now)) nothing self.old result self.new }
    {
        may_move(context.choice, context.wptr, carried.left.wptr)?;
        self.moves(context.wptr, carried.left.wptr)?;
        self.follows(alloc, process, context, instruction, carried)
    }

    /// Does an instruction of a process. idle: a memory of the node's kind that is not touched.
    ///
    /// # Errors
    /// Those of `instructs` and of what follows.
    #[inline(always)]
    fn executes(
        &mut self,
        alloc: Global,
        idle: &mut IdleMemory,
        process: u32,
        context: &Context,
        instruction: Instruction,
    ) -> Result<(), Fault>
        requires there { process < length self.old.processes.items.items }
        requires kind { idle.old.memory.kind ≡ self.old.words.kind }
        ensures done { Does (spec.executed (node_site self.old) (name_at self.old process) (context_of context.now)
            instruction) nothing self.old result self.new }
        ensures idle { idle.new.memory.kind ≡ idle.old.memory.kind }
    {
        match self.instructs(context, idle, instruction) {
            Ok(carried) => self.completes(alloc, process, context, &instruction, &carried),
            Err(stop) => Err(Fault::Stops(stop)),
        }
    }

    /// Does the instruction at a process's address. idle: a memory of the node's kind that is not touched.
    ///
    /// # Errors
    /// Those of a read of its code, `SawTheScheduler` where that is not known, those of the instruction.
    #[inline(always)]
    fn runs(
        &mut self,
        alloc: Global,
        idle: &mut IdleMemory,
        process: u32,
        context: &Context,
    ) -> Result<(), Fault>
        requires there { process < length self.old.processes.items.items }
        requires kind { idle.old.memory.kind ≡ self.old.words.kind }
        ensures done { Does (spec.runs (node_site self.old) (name_at self.old process) (context_of context.now)) nothing
            self.old result self.new }
        ensures idle { idle.new.memory.kind ≡ idle.old.memory.kind }
    {
        let instruction = self.decodes(context.iptr)?;
        self.executes(alloc, idle, process, context, instruction)
    }

    /// A look at a process that runs with this context.
    #[inline(always)]
    fn sees_running(&mut self, process: u32, context: &Context)
        requires there { process < length self.old.processes.items.items }
        requires runs { IsRunning self.old process context.now }
        ensures { RunsAt (see (Standing (name_at self.old process))) self.old
            (Ok (IsStand (Runs (context_of context.now)))) self.new }
    {
        let place = self.processes.items[process as usize].place;
        self.words.notes.add(place, Mode::Looks);
    }

    /// A step of a process: its next instruction, or that it goes on where it rests or was chosen. idle: a memory of
    /// the node's kind that is not touched.
    ///
    /// # Errors
    /// `HasNoStep` where it is not ready, or listens; those of the instruction, those of `resumes` and of
    /// `goes_on_chosen`; `OutOfMemory`.
    pub fn process_step(
        &mut self,
        alloc: Global,
        idle: &mut IdleMemory,
        process: u32,
    ) -> Result<(), Fault>
        requires there { process < length self.old.processes.items.items }
        requires kind { idle.old.memory.kind ≡ self.old.words.kind }
        ensures done { Does (step_of_process (node_site self.old) (name_at self.old process)) nothing self.old result
            self.new }
        ensures idle { idle.new.memory.kind ≡ idle.old.memory.kind }
    {
        match &self.processes.items[process as usize].stand {
            Stand::Runs(seen) => {
                let context = *seen;
                self.sees_running(process, &context);
                self.runs(alloc, idle, process, &context)
            }
            _ => self.still_step(process),
        }
    }

    /// A step of a process that does not run.
    ///
    /// # Errors
    /// `HasNoStep` where it is not ready, or listens; those of `resumes` and of `goes_on_chosen`; `OutOfMemory`.
    #[inline(never)]
    fn still_step(&mut self, process: u32) -> Result<(), Fault>
        requires there { process < length self.old.processes.items.items }
        requires still { (context : Context) → ¬ IsRunning self.old process context }
        ensures { Does (step_of_process (node_site self.old) (name_at self.old process)) nothing self.old result
            self.new }
    {
        match self.stand(process) {
            Stand::Rests(context) => self.resumes(process, &context),
            Stand::Chosen(context) => self.goes_on_chosen(process, &context),
            Stand::Runs(_) => unreachable!(),
            Stand::Absent
            | Stand::Waits(_)
            | Stand::Chooses(_)
            | Stand::Listens { .. }
            | Stand::Ended => Err(Fault::Stops(Stop::HasNoStep)),
        }
    }
}
