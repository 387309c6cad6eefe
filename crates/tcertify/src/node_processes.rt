//! Where the processes of a node stand, and how they come, wait and end.

ghost use Rattle.std.specs.Prelude.{◌≡◌, ◌<◌, ◌∷◌, [], None, Ok, length};
ghost use Rattle.tprocesses.specs.Machine.{is_ready};
ghost use Rattle.tprocesses.specs.Parts.{see};
ghost use Rattle.tprocesses.specs.Places.{Standing, child_of};
ghost use Rattle.tprocesses.specs.Standing as spec;
ghost use Rattle.tprocesses.specs.Values.{IsStand, Rests};
ghost use Rattle.tcertify.specs.Contexts.{context_of, lent_of};
ghost use Rattle.tcertify.specs.Nodes.{Does, RunsAt, name_at, node_site, nothing};
ghost use Rattle.tcertify.specs.Finding.{IsFound};
ghost use Rattle.tcertify.specs.Processes.{name_of, named};
ghost use Rattle.tcertify.specs.Standing.{stand_of};
ghost use Rattle.tcertify.specs.Starts.{joins, start_of};
ghost use Rattle.tcertify.specs.Words.{told};

use crate::choosing::no_choice;
use crate::context::{Context, Lent};
use crate::fault::Fault;
use crate::lead::Lead;
use crate::node::Node;
use crate::node_lives::next_place;
use crate::notes::Mode;
use crate::priority::Priority;
use crate::process::{Process, Root};
use crate::standing::Stand;
use crate::start::Start;
use crate::stop::Stop;
use std::alloc::Global;

impl Start {
    /// Where a process stands that begins so with this context.
    #[inline(always)]
    fn stand(self, context: Context) -> Stand
        ensures { stand_of result ≡ start_of self (context_of context) }
    {
        match self {
            Start::Rests => Stand::Rests(context),
            Start::Runs => Stand::Runs(context),
        }
    }
}

/// Whether a process that stands there is ready.
#[inline(always)]
fn is_ready(stand: &Stand) -> bool
    ensures { result ≡ is_ready (stand_of stand.now) }
{
    match stand {
        Stand::Rests(_) | Stand::Runs(_) | Stand::Chosen(_) | Stand::Listens { .. } => true,
        Stand::Absent | Stand::Waits(_) | Stand::Chooses(_) | Stand::Ended => false,
    }
}

/// A context with another output of a link that is not over, or with none.
#[inline(always)]
fn with_lent(context: &Context, lent: Option<Lent>) -> Context
    ensures { context_of result ≡ record (context_of context.now) { lent = lent_of lent } }
{
    Context {
        priority: context.priority,
        choice: context.choice,
        wptr: context.wptr,
        iptr: context.iptr,
        a: context.a,
        b: context.b,
        c: context.c,
        children: context.children,
        lent,
    }
}

impl Node {
    /// Where a process stands, by its number.
    #[inline(always)]
    pub fn stand(&mut self, process: u32) -> Stand
        requires { process < length self.old.processes.items.items }
        ensures { RunsAt (see (Standing (name_at self.old process))) self.old (Ok (IsStand (stand_of result)))
            self.new }
    {
        let seen = &self.processes.items[process as usize];
        let stand = seen.stand;
        let place = seen.place;
        self.words.notes.add(place, Mode::Looks);
        if !is_ready(&stand) {
            self.note_lead(Lead::Process(process));
        }
        stand
    }

    /// A process stands there now.
    #[inline(always)]
    pub fn stands(&mut self, process: u32, stand: Stand)
        requires { process < length self.old.processes.items.items }
        ensures { RunsAt (spec.stands (name_at self.old process) (stand_of stand)) self.old (Ok tt) self.new }
    {
        let place = self.processes.set_stand(process as usize, stand);
        self.words.notes.add(place, Mode::Puts);
    }

    /// The message of a process has passed, and it is ready. lent: its output of a link, which is not over yet.
    ///
    /// # Errors
    /// `HasNoStep` where it does not wait.
    pub fn wakes(&mut self, process: u32, lent: Option<Lent>) -> Result<(), Stop>
        requires { process < length self.old.processes.items.items }
        ensures { RunsAt (spec.wakes (name_at self.old process) (lent_of lent)) self.old (told nothing result)
            self.new }
    {
        let Stand::Waits(context) = self.stand(process) else {
            return Err(Stop::HasNoStep);
        };
        self.stands(process, Stand::Rests(with_lent(&context, lent)));
        Ok(())
    }

    /// A process is added, under its name.
    ///
    /// # Errors
    /// `HasNoStep` where there ever was one of this name; `OutOfMemory`.
    fn joins(&mut self, process: Process) -> Result<(), Fault>
        requires { process.ports.items ≡ [] }
        ensures { Does (joins (name_of self.old.words.number process) (stand_of process.stand)) nothing self.old
            result self.new }
    {
        let found = self.processes.find(&process);
        match found {
            Some(number) => {
                let stand = process.stand;
                self.joins_again(number, stand)
            }
            None => self.joins_newly(process),
        }
    }

    /// A process that was not there stands there now.
    ///
    /// # Errors
    /// `OutOfMemory`.
    fn joins_newly(&mut self, process: Process) -> Result<(), Fault>
        requires new { IsFound (name_of 0) (name_of 0 process) self.old.processes.items.items None }
        requires none { process.ports.items ≡ [] }
        ensures { Does (joins (name_of self.old.words.number process) (stand_of process.stand)) nothing self.old
            result self.new }
    {
        let Ok(number) = u32::try_from(self.processes.items.len()) else {
            return Err(Fault::OutOfMemory);
        };
        let place = process.place;
        self.processes.push(process)?;
        self.words.notes.add(place, Mode::Puts);
        self.note_lead(Lead::Process(number));
        Ok(())
    }

    /// A process that was there before stands there now, if it is absent.
    ///
    /// # Errors
    /// `HasNoStep` where it is not.
    #[cold]
    fn joins_again(&mut self, number: usize, stand: Stand) -> Result<(), Fault>
        requires { number < length self.old.processes.items.items }
        ensures { Does (joins (name_at self.old number) (stand_of stand)) nothing self.old result self.new }
    {
        let Ok(process) = u32::try_from(number) else {
            return Err(Fault::OutOfMemory);
        };
        let Stand::Absent = self.stand(process) else {
            return Err(Fault::Stops(Stop::HasNoStep));
        };
        self.stands(process, stand);
        Ok(())
    }

    /// A process is added, under this name, with a workspace that no other one has.
    ///
    /// # Errors
    /// `AlreadyLive` where another one has it, `HasNoStep` where there ever was one of this name; `OutOfMemory`.
    pub fn comes(
        &mut self,
        alloc: Global,
        root: Root,
        path: Vec<u32>,
        context: &Context,
        start: Start,
    ) -> Result<(), Fault>
        ensures { Does (spec.comes (node_site self.old) (named self.old.words.number root path.items)
            (context_of context.now) (start_of start)) nothing self.old result self.new }
    {
        self.begins_life(context.wptr)?;
        let Some(place) = next_place(&mut self.fresh_place) else {
            return Err(Fault::OutOfMemory);
        };
        let now = *context;
        let stand = start.stand(now);
        self.joins(Process {
            root,
            path,
            stand,
            ports: Vec::new(alloc),
            place,
        })?;
        self.counts_process()?;
        self.raises_has_run(context.priority);
        Ok(())
    }

    /// A child of a process is added, by its number, with a workspace that no other one has.
    ///
    /// # Errors
    /// Those of `comes`.
    pub fn child_comes(
        &mut self,
        alloc: Global,
        parent: u32,
        child: u32,
        context: &Context,
    ) -> Result<(), Fault>
        requires { parent < length self.old.processes.items.items }
        ensures { Does (spec.comes (node_site self.old) (child_of (name_at self.old parent) child)
            (context_of context.now) Rests) nothing self.old result self.new }
    {
        let path = self.processes.child_path(alloc, parent as usize, child)?;
        let root = self.processes.items[parent as usize].root;
        self.comes(alloc, root, path, context, Start::Rests)
    }

    /// A process ends.
    ///
    /// # Errors
    /// `WordInUse` where it has an alternative under way; `OutOfMemory`.
    pub fn ends(&mut self, process: u32, context: &Context) -> Result<(), Fault>
        requires { process < length self.old.processes.items.items }
        ensures { Does (spec.ends (node_site self.old) (name_at self.old process) (context_of context.now)) nothing
            self.old result self.new }
    {
        no_choice(context.choice)?;
        self.adds_life(context.wptr, -1)?;
        self.stands(process, Stand::Ended);
        Ok(())
    }
}
