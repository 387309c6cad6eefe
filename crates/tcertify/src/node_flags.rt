//! The flags of a node, and what it tells of its processes as a whole.

ghost use Rattle.std.specs.Prelude.{◌≡◌, Ok, pos};
ghost use Rattle.tprocesses.specs.Changes.{Add, Put, Raise};
ghost use Rattle.tprocesses.specs.Instructions as spec;
ghost use Rattle.tprocesses.specs.Parts.{change, see};
ghost use Rattle.tprocesses.specs.Places.{Error, FlagChanged, HaltOnError, HasRun, Population};
ghost use Rattle.tprocesses.specs.Values.{IsFlag};
ghost use Rattle.tcertify.specs.Contexts.{context_of};
ghost use Rattle.tcertify.specs.Flags.{flags_of};
ghost use Rattle.tcertify.specs.Nodes.{Does, RunsAt, name_at, node_site, nothing};
ghost use Rattle.tcertify.specs.Words.{number_of, told};
ghost use Rattle.std.specs.Prelude.{◌<◌, length};

use crate::context::Context;
use crate::fault::Fault;
use crate::flags::Flags;
use crate::node::Node;
use crate::notes::Mode;
use crate::priority::Priority;
use crate::standing::Stand;
use crate::stop::Stop;
use tcpu::Registers;

/// Whether two flags are alike.
#[inline(always)]
fn is_same_flag(one: bool, other: bool) -> bool
    ensures { result ≡ spec.is_same_flag one other }
{
    (one && other) || !(one || other)
}

impl Node {
    /// Whether Error is set.
    #[inline(always)]
    pub fn sees_error(&mut self) -> bool
        ensures { RunsAt (see (Error self.old.words.number)) self.old (Ok (IsFlag result)) self.new }
    {
        self.words.notes.add(self.fixed_place, Mode::Looks);
        self.error
    }

    /// Whether HaltOnError is set.
    #[inline(always)]
    pub fn sees_halt_on_error(&mut self) -> bool
        ensures { RunsAt (see (HaltOnError self.old.words.number)) self.old (Ok (IsFlag result)) self.new }
    {
        self.words.notes.add(self.fixed_place + 1, Mode::Looks);
        self.halt_on_error
    }

    /// The flags before an instruction, if it looks at them; else Error clear and HaltOnError set.
    #[inline(always)]
    pub fn flags_before(&mut self, looks: bool) -> Flags
        ensures { RunsAt (spec.flags_before (node_site self.old) looks) self.old (Ok (flags_of result)) self.new }
    {
        if !looks {
            return Flags {
                error: false,
                halt_on_error: true,
            };
        }
        let error = self.sees_error();
        let halt_on_error = self.sees_halt_on_error();
        Flags {
            error,
            halt_on_error,
        }
    }

    /// Error is put.
    #[inline(always)]
    fn put_error(&mut self, error: bool)
        ensures { RunsAt (change (Error self.old.words.number) (Put (IsFlag error))) self.old (Ok tt) self.new }
    {
        self.error = error;
        self.words.notes.add(self.fixed_place, Mode::Puts);
    }

    /// HaltOnError is put.
    #[inline(always)]
    fn put_halt_on_error(&mut self, halt_on_error: bool)
        ensures { RunsAt (change (HaltOnError self.old.words.number) (Put (IsFlag halt_on_error))) self.old (Ok tt)
            self.new }
    {
        self.halt_on_error = halt_on_error;
        self.words.notes.add(self.fixed_place + 1, Mode::Puts);
    }

    /// Error is set to what an instruction left.
    #[inline(always)]
    fn puts_error(&mut self, before: bool, after: bool)
        ensures { RunsAt (spec.sets_flag (node_site self.old) (Error self.old.words.number) before after) self.old
            (Ok tt) self.new }
    {
        if !is_same_flag(before, after) {
            self.put_error(after);
            self.raises_flag_changed();
        }
    }

    /// HaltOnError is set to what an instruction left.
    #[inline(always)]
    fn puts_halt_on_error(&mut self, before: bool, after: bool)
        ensures { RunsAt (spec.sets_flag (node_site self.old) (HaltOnError self.old.words.number) before after)
            self.old (Ok tt) self.new }
    {
        if !is_same_flag(before, after) {
            self.put_halt_on_error(after);
            self.raises_flag_changed();
        }
    }

    /// A flag of the node was changed.
    #[inline(always)]
    fn raises_flag_changed(&mut self)
        ensures { RunsAt (change (FlagChanged self.old.words.number) Raise) self.old (Ok tt) self.new }
    {
        self.is_flag_changed = true;
        self.words.notes.add(self.fixed_place + 2, Mode::Raises);
    }

    /// The flags after an instruction that left these registers, if it looked at them.
    #[inline(always)]
    pub fn flags_after(&mut self, looked: bool, before: Flags, registers: &Registers)
        ensures { RunsAt (spec.flags_after (node_site self.old) looked (flags_of before) registers.now) self.old
            (Ok tt) self.new }
    {
        if looked {
            self.puts_error(before.error, registers.error);
            self.puts_halt_on_error(before.halt_on_error, registers.halt_on_error);
        }
    }

    /// Error is raised, without a look.
    #[inline(always)]
    fn raises_error(&mut self)
        ensures { RunsAt (change (Error self.old.words.number) Raise) self.old (Ok tt) self.new }
    {
        self.error = true;
        self.words.notes.add(self.fixed_place, Mode::Raises);
    }

    /// Error is set by a process, which goes on with this context.
    ///
    /// # Errors
    /// `Halts` where HaltOnError is set.
    pub fn sets_error(&mut self, process: u32, context: &Context) -> Result<(), Stop>
        requires { process < length self.old.processes.items.items }
        ensures { RunsAt (spec.sets_error (node_site self.old) (name_at self.old process) (context_of context.now))
            self.old (told nothing result) self.new }
    {
        if self.sees_halt_on_error() {
            return Err(Stop::Halts);
        }
        self.raises_error();
        self.raises_flag_changed();
        let now = *context;
        self.stands(process, Stand::Runs(now));
        Ok(())
    }

    /// One more process has come.
    ///
    /// # Errors
    /// `OutOfMemory` where the number does not fit; nothing is changed then.
    #[inline(always)]
    pub(crate) fn counts_process(&mut self) -> Result<(), Fault>
        ensures { Does (change (Population self.old.words.number) (Add (pos 1))) nothing self.old result self.new }
    {
        self.population = self.population.checked_add(1).ok_or(Fault::OutOfMemory)?;
        self.words.notes.add(self.fixed_place + 3, Mode::Adds);
        Ok(())
    }

    /// A process of this priority has run.
    #[inline(always)]
    pub(crate) fn raises_has_run(&mut self, priority: Priority)
        ensures { RunsAt (change (HasRun self.old.words.number (number_of priority)) Raise) self.old (Ok tt) self.new }
    {
        match priority {
            Priority::High => {
                self.has_run_high = true;
                self.words.notes.add(self.fixed_place + 4, Mode::Raises);
            }
            Priority::Low => {
                self.has_run_low = true;
                self.words.notes.add(self.fixed_place + 5, Mode::Raises);
            }
        }
    }
}
