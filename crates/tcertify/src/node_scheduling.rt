//! The operations of the scheduler.

ghost use Rattle.std.specs.Prelude.{◌≡◌, ◌<◌, Ok, Some, length};
ghost use Rattle.tword.specs.Touches.{is_aligned};
ghost use Rattle.tprocesses.specs.Places.{child_of};
ghost use Rattle.tprocesses.specs.Scheduling as spec;
ghost use Rattle.tprocesses.specs.Standing as standing;
ghost use Rattle.tproc.specs.LinkChannels as links;
ghost use Rattle.tproc.specs.Machine.{priority_of};
ghost use Rattle.tcertify.specs.Contexts.{context_of};
ghost use Rattle.tcertify.specs.Nodes.{Does, RunsAt, name_at, node_site, nothing};
ghost use Rattle.tcertify.specs.Scheduling.{counts_down, first_address};
ghost use Rattle.tcertify.specs.Sides.{side_of};
ghost use Rattle.tcertify.specs.Words.{number_of, told};

use crate::context::Context;
use crate::fault::Fault;
use crate::node::Node;
use crate::notes::Mode;
use crate::priority::Priority;
use crate::side::Side;
use crate::stop::Stop;
use std::alloc::Global;
use tcode::Operation;
use tproc::workspace_of;
use tword::limits::MOST_NEG;
use tword::{Break, Span, Word};

/// Whether an address is a multiple of 4.
#[inline(always)]
pub(crate) fn is_aligned(address: Word) -> bool
    ensures { result ≡ is_aligned address }
{
    address.get() % 4 == 0
}

/// The priority that a descriptor names.
#[inline(always)]
fn priority_of(process: Word) -> Priority
    ensures { number_of result ≡ priority_of process }
{
    if process.get() % 2 == 0 {
        Priority::High
    } else {
        Priority::Low
    }
}

/// A priority as a word: 0 is high, 1 is low.
#[inline(always)]
fn priority_word(priority: Priority) -> Word
    ensures { result ≡ number_of priority }
{
    match priority {
        Priority::High => Word::new(0),
        Priority::Low => Word::new(1),
    }
}

/// Whether a channel is a link: those have the eight lowest words.
#[inline(always)]
pub(crate) fn is_link(channel: Word) -> bool
    ensures { result ≡ links.is_link channel }
{
    MOST_NEG <= channel.get() && channel.get() < MOST_NEG + 32
}

impl Node {
    /// The address that the word at an address has, which has to be known.
    ///
    /// # Errors
    /// Those of a read of the word, else `SawTheScheduler`.
    pub(crate) fn first_address(&mut self, address: Word) -> Result<Word, Stop>
        ensures { RunsAt (first_address (node_site self.old) address) self.old (told (λ n. n) result) self.new }
    {
        let cells = self.read_word(address)?;
        if !cells.are_known() {
            return Err(Stop::SawTheScheduler);
        }
        Ok(cells.word())
    }

    /// A child of a process begins with this context, and rests.
    ///
    /// # Errors
    /// `Unaligned`, `AlreadyLive`, those of the words below its workspace; `OutOfMemory`.
    fn starts(
        &mut self,
        alloc: Global,
        process: u32,
        child: u32,
        context: &Context,
    ) -> Result<(), Fault>
        requires { process < length self.old.processes.items.items }
        ensures { Does (standing.starts (node_site self.old) (child_of (name_at self.old process) child)
            (context_of context.now)) nothing self.old result self.new }
    {
        if !is_aligned(context.wptr) {
            return Err(Fault::Stops(Stop::Breaks(Break::Unaligned)));
        }
        self.child_comes(alloc, process, child, context)?;
        self.save(context.wptr, true)?;
        Ok(())
    }

    /// `startp`: a child begins at the workspace in A, at an offset of B behind the instruction.
    ///
    /// # Errors
    /// `SawTheScheduler` where A or B is not known, else those of `starts`.
    fn starts_child(&mut self, alloc: Global, process: u32, context: &Context) -> Result<(), Fault>
        requires { process < length self.old.processes.items.items }
        ensures { Does (spec.starts_child (node_site self.old) (name_at self.old process) (context_of context.now))
            nothing self.old result self.new }
    {
        let Some(workspace) = context.a else {
            return Err(Fault::Stops(Stop::SawTheScheduler));
        };
        let Some(offset) = context.b else {
            return Err(Fault::Stops(Stop::SawTheScheduler));
        };
        let child = Context::fresh(context.priority, workspace, context.iptr.plus(offset));
        self.starts(alloc, process, context.children, &child)?;
        let Some(left) = context.with_child() else {
            return Err(Fault::OutOfMemory);
        };
        self.goes_on(process, &left.pop().pop());
        Ok(())
    }

    /// `runp`: a child begins that the descriptor in A names. Its first address is the saved one of its workspace.
    ///
    /// # Errors
    /// `SawTheScheduler` where A is not known, those of a read of the saved address, `SawTheScheduler` where that is
    /// not known, else those of `starts`.
    fn runs_child(&mut self, alloc: Global, process: u32, context: &Context) -> Result<(), Fault>
        requires { process < length self.old.processes.items.items }
        ensures { Does (spec.runs_child (node_site self.old) (name_at self.old process) (context_of context.now))
            nothing self.old result self.new }
    {
        let Some(descriptor) = context.a else {
            return Err(Fault::Stops(Stop::SawTheScheduler));
        };
        let workspace = workspace_of(descriptor);
        let iptr = self.first_address(workspace.below(1))?;
        let child = Context::fresh(priority_of(descriptor), workspace, iptr);
        self.starts(alloc, process, context.children, &child)?;
        let Some(left) = context.with_child() else {
            return Err(Fault::OutOfMemory);
        };
        self.goes_on(process, &left.pop());
        Ok(())
    }

    /// `stopp`: a process ends, and leaves the address where it could go on below its workspace.
    ///
    /// # Errors
    /// Those of a write of the address; `OutOfMemory`.
    fn stops_itself(&mut self, process: u32, context: &Context) -> Result<(), Fault>
        requires { process < length self.old.processes.items.items }
        ensures { Does (spec.stops_itself (node_site self.old) (name_at self.old process) (context_of context.now))
            nothing self.old result self.new }
    {
        self.store(context.wptr.below(1), true, context.iptr)?;
        self.ends(process, context)
    }

    /// `stoperr`: a process ends as by `stopp` if Error is set, else it goes on.
    ///
    /// # Errors
    /// Those of `stops_itself`.
    fn stops_by_error(&mut self, process: u32, context: &Context) -> Result<(), Fault>
        requires { process < length self.old.processes.items.items }
        ensures { Does (spec.stops_by_error (node_site self.old) (name_at self.old process) (context_of context.now))
            nothing self.old result self.new }
    {
        if self.sees_error() {
            return self.stops_itself(process, context);
        }
        self.goes_on(process, context);
        Ok(())
    }

    /// The count that stands behind a workspace falls as a process of this priority ends, without a look at it.
    ///
    /// # Errors
    /// Those of the checks of the two words, where the first may not be read, `InTransit` where a pending output has
    /// a byte of the count.
    fn lowers_count(&mut self, workspace: Word, priority: Priority) -> Result<(), Stop>
        ensures { RunsAt (counts_down (node_site self.old) workspace (number_of priority)) self.old
            (told nothing result) self.new }
    {
        self.read_word(workspace)?;
        let count = workspace.plus(Word::new(4));
        let number = self.words.number_at(count)?;
        self.unsent(number, Mode::CountsDown(priority))?;
        self.decrement(count, priority);
        Ok(())
    }

    /// `endp`: a process ends with others, whose count is the word behind the one at A.
    ///
    /// # Errors
    /// `SawTheScheduler` where A is not known, else those of `lowers_count`; `OutOfMemory`.
    fn ends_among_others(&mut self, process: u32, context: &Context) -> Result<(), Fault>
        requires { process < length self.old.processes.items.items }
        ensures { Does (spec.ends_among_others (node_site self.old) (name_at self.old process) (context_of context.now))
            nothing self.old result self.new }
    {
        let Some(workspace) = context.a else {
            return Err(Fault::Stops(Stop::SawTheScheduler));
        };
        self.lowers_count(workspace, context.priority)?;
        self.ends(process, context)
    }

    /// A process communicates on a channel, which may be a link.
    ///
    /// # Errors
    /// Those of `takes_link` and of `takes_half`.
    fn communicates(
        &mut self,
        process: u32,
        context: &Context,
        side: Side,
        channel: Word,
        buffer: Span,
    ) -> Result<(), Fault>
        requires { process < length self.old.processes.items.items }
        ensures { Does (spec.communicates (node_site self.old) (name_at self.old process) (context_of context.now)
            (side_of side) channel buffer) nothing self.old result self.new }
    {
        if is_link(channel) {
            self.takes_link(process, context, side, channel, buffer)
        } else {
            self.takes_half(process, context, side, channel, buffer)
        }
    }

    /// `in` and `out`: A has the length of the message, B the channel, C where it lies.
    ///
    /// # Errors
    /// `SawTheScheduler` where A, B or C is not known, else those of `communicates`.
    fn sends_or_receives(
        &mut self,
        process: u32,
        context: &Context,
        side: Side,
    ) -> Result<(), Fault>
        requires { process < length self.old.processes.items.items }
        ensures { Does (spec.sends_or_receives (side_of side) (node_site self.old) (name_at self.old process)
            (context_of context.now)) nothing self.old result self.new }
    {
        let Some(length) = context.a else {
            return Err(Fault::Stops(Stop::SawTheScheduler));
        };
        let Some(channel) = context.b else {
            return Err(Fault::Stops(Stop::SawTheScheduler));
        };
        let Some(start) = context.c else {
            return Err(Fault::Stops(Stop::SawTheScheduler));
        };
        let size = length.get();
        self.communicates(process, context, side, channel, Span { start, size })
    }

    /// `outbyte` and `outword`: `size` bytes of A are stored at the workspace, and sent. A need not be known.
    ///
    /// # Errors
    /// `SawTheScheduler` where B is not known, those of a write of the word, else those of `communicates`.
    fn sends_from_workspace(
        &mut self,
        process: u32,
        context: &Context,
        size: u32,
    ) -> Result<(), Fault>
        requires { process < length self.old.processes.items.items }
        ensures { Does (spec.sends_from_workspace size (node_site self.old) (name_at self.old process)
            (context_of context.now)) nothing self.old result self.new }
    {
        let Some(channel) = context.b else {
            return Err(Fault::Stops(Stop::SawTheScheduler));
        };
        let value = context.a.unwrap_or(Word::new(0));
        self.store(context.wptr, context.a.is_some(), value)?;
        let start = context.wptr;
        self.communicates(
            process,
            context,
            Side::Output,
            channel,
            Span { start, size },
        )
    }

    /// Does an operation of the scheduler.
    ///
    /// # Errors
    /// Those of the operation; `NoSuchOperation` where it is none of the scheduler.
    pub(crate) fn schedules(
        &mut self,
        alloc: Global,
        process: u32,
        operation: Operation,
        context: &Context,
    ) -> Result<(), Fault>
        requires { process < length self.old.processes.items.items }
        ensures { Does (spec.schedules operation (node_site self.old) (name_at self.old process)
            (context_of context.now)) nothing self.old result self.new }
    {
        match operation {
            Operation::Startp => self.starts_child(alloc, process, context),
            Operation::Runp => self.runs_child(alloc, process, context),
            Operation::Endp => self.ends_among_others(process, context),
            Operation::Stopp => self.stops_itself(process, context),
            Operation::Stoperr => self.stops_by_error(process, context),
            Operation::Ldpri => {
                self.loads_priority(process, context);
                Ok(())
            }
            Operation::In => self.sends_or_receives(process, context, Side::Input),
            Operation::Out => self.sends_or_receives(process, context, Side::Output),
            Operation::Outbyte => self.sends_from_workspace(process, context, 1),
            Operation::Outword => self.sends_from_workspace(process, context, 4),
            Operation::Alt => self.begins_choice(process, context),
            Operation::Enbc => self.enables_channel(process, context),
            Operation::Enbs => self.enables_skip(process, context),
            Operation::Altwt => self.awaits_choice(process, context),
            Operation::Disc => self.disables_channel(process, context),
            Operation::Diss => self.disables_skip(process, context),
            Operation::Altend => self.ends_choice(process, context),
            _ => Err(Fault::Stops(Stop::Breaks(Break::NoSuchOperation))),
        }
    }

    /// `ldpri`: pushes the priority.
    fn loads_priority(&mut self, process: u32, context: &Context)
        requires { process < length self.old.processes.items.items }
        ensures { RunsAt (standing.goes_on (name_at self.old process)
            (standing.push (Some (number_of context.now.priority)) (context_of context.now))) self.old (Ok tt)
            self.new }
    {
        let priority = priority_word(context.priority);
        self.goes_on(process, &context.push(Some(priority)));
    }
}
