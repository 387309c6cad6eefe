//! Steps of a node's processes that touch nothing which was not noted before.

ghost use Rattle.std.specs.Prelude.{◌≡◌, ◌<◌, IfNone, IfSome, Ok, false, length, true};
ghost use Rattle.tprocesses.specs.Standing.{goes_on};
ghost use Rattle.tcertify.specs.Carried.{with_left, with_registers};
ghost use Rattle.tcertify.specs.Contexts.{context_of};
ghost use Rattle.tcertify.specs.Instructions.{decoded};
ghost use Rattle.tcertify.specs.Nodes.{AreBesides, RunsAt, name_at, node_site};
ghost use Rattle.tcertify.specs.Quiet.{IsExecuted, IsQuietStep, IsStandNoted};
ghost use Rattle.tcertify.specs.Steps.{IsRunning};

use crate::context::{Context, Left};
use crate::node::Node;
use crate::notes::Mode;
use crate::standing::Stand;
use tcode::Instruction;
use tword::Word;

impl Node {
    /// Whether notes tell that the process of this number is put elsewhere.
    #[inline(always)]
    fn is_stand_noted(&self, process: u32) -> bool
        requires { process < length self.now.processes.items.items }
        ensures { result ≡ true → IsStandNoted self.now process }
    {
        let place = self.processes.items[process as usize].place;
        self.words.notes.tells(place, Mode::Puts)
    }

    /// The instruction of one or two bytes at an address, if their touch is noted.
    #[inline(always)]
    fn decodes_noted(&self, iptr: Word) -> Option<Instruction>
        ensures { IfSome result (λ instruction. RunsAt (decoded (node_site self.now) iptr) self.now (Ok instruction)
            self.now) }
    {
        self.words.decodes_noted(iptr)
    }

    /// Does an instruction of a process, if it is one of the commonest and all that it touches is noted. Answers the
    /// registers with which it goes on; else nothing is changed.
    #[inline(always)]
    fn executes_noted(
        &mut self,
        process: u32,
        context: &Context,
        instruction: &Instruction,
    ) -> Option<Left>
        requires { process < length self.old.processes.items.items }
        ensures done { IfSome result (λ left. IsExecuted process (context_of context.now) instruction.now self.old
            (with_left (context_of context.now) left) self.new) }
        ensures workspace { IfSome result (λ left. left.wptr ≡ context.now.wptr) }
        ensures notes { self.new.words.notes ≡ self.old.words.notes }
        ensures same { self.new.processes ≡ self.old.processes }
        ensures besides { AreBesides self.old self.new }
        ensures leads { self.new.leads ≡ self.old.leads }
        ensures channels { self.new.channels ≡ self.old.channels }
        ensures kept { IfNone result (self.new ≡ self.old) }
    {
        self.words.executes_noted(context, instruction)
    }

    /// A process that runs with this context goes on with these registers, at the same workspace, which is noted.
    #[inline(always)]
    fn goes_on_noted(&mut self, process: u32, context: &Context, left: Left)
        requires there { process < length self.old.processes.items.items }
        requires runs { IsRunning self.old process context.now }
        requires workspace { left.wptr ≡ context.now.wptr }
        requires noted { IsStandNoted self.old process }
        ensures done { RunsAt (goes_on (name_at self.old process) (with_left (context_of context.now) left)) self.old
            (Ok tt) self.new }
        ensures goes { IsRunning self.new process (with_registers context.now left) }
        ensures words { self.new.words ≡ self.old.words }
        ensures leads { self.new.leads ≡ self.old.leads }
        ensures channels { self.new.channels ≡ self.old.channels }
        ensures population { self.new.population ≡ self.old.population }
        ensures processes { length self.new.processes.items.items ≡ length self.old.processes.items.items }
    {
        let _place = self.processes.set_left(process as usize, context, left);
    }

    /// A step of a process that runs, if its instruction is one of the commonest and all that it touches is noted:
    /// whether it was made; else nothing is changed.
    #[inline(always)]
    pub fn quiet_step(&mut self, process: u32) -> bool
        requires { process < length self.old.processes.items.items }
        ensures done { result ≡ true → IsQuietStep process self.old self.new }
        ensures kept { result ≡ false → self.new ≡ self.old }
    {
        if !self.is_stand_noted(process) {
            return false;
        }
        let Stand::Runs(running) = &self.processes.items[process as usize].stand else {
            return false;
        };
        let context = *running;
        let Some(instruction) = self.decodes_noted(context.iptr) else {
            return false;
        };
        let Some(left) = self.executes_noted(process, &context, &instruction) else {
            return false;
        };
        self.goes_on_noted(process, &context, left);
        true
    }
}
