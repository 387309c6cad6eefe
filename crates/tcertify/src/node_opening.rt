//! A node before the first step.

ghost use Rattle.std.specs.Prelude.{◌≡◌, IfErr, IfOk, MatchResult, [], false};
ghost use Rattle.tword.specs.Accesses.{IsMemorySize};
ghost use Rattle.tproc.specs.Machine.{priority_of, workspace_of};
ghost use Rattle.tprocesses.specs.Standing.{comes, fresh};
ghost use Rattle.tprocesses.specs.Values.{Rests};
ghost use Rattle.tcertify.specs.Contexts.{context_of};
ghost use Rattle.tcertify.specs.declared.fault.Fault.TheVariants.{OutOfMemory};
ghost use Rattle.tcertify.specs.NodeOpened.{HasNothing, IsOpen, IsOpeningFault};
ghost use Rattle.tcertify.specs.Nodes.{Does, node_site, nothing};
ghost use Rattle.tcertify.specs.Processes.{named};

use crate::channel::Links;
use crate::channel_table::Channels;
use crate::context::Context;
use crate::fault::Fault;
use crate::life_table::Lives;
use crate::node::Node;
use crate::priority::Priority;
use crate::process::Root;
use crate::process_table::Processes;
use crate::start::Start;
use crate::stored::Words;
use std::alloc::Global;
use tplan::{NodePlan, Process};
use tproc::workspace_of;
use tword::Word;

/// How many places each node has besides its words, processes, channels and workspaces.
const FIXED_PLACES: u32 = 18;

/// The context of a process of an image before its first step.
fn first_context(process: &Process) -> Context
    ensures { context_of result ≡ fresh (priority_of process.now.wdesc) (workspace_of process.now.wdesc)
        process.now.iptr }
{
    let priority = if process.wdesc.get() % 2 == 0 {
        Priority::High
    } else {
        Priority::Low
    };
    Context {
        priority,
        choice: None,
        wptr: workspace_of(process.wdesc),
        iptr: process.iptr,
        a: Some(Word::new(0)),
        b: Some(Word::new(0)),
        c: Some(Word::new(0)),
        children: 0,
        lent: None,
    }
}

impl Node {
    /// A node of a plan, with what is loaded into its memory, and without its processes.
    ///
    /// # Errors
    /// `OutOfMemory` where the allocator refuses, or the numbers of the places would not fit.
    fn without_processes(
        alloc: Global,
        plan: &NodePlan,
        number: u32,
        first_place: u32,
    ) -> Result<Node, Fault>
        requires { IsMemorySize plan.now.kind plan.now.memory }
        ensures node { IfOk result (HasNothing plan.now number first_place) }
        ensures fault { IfErr result (λ fault. fault ≡ OutOfMemory) }
    {
        let Some(fixed_place) = first_place.checked_add(plan.memory / 4) else {
            return Err(Fault::OutOfMemory);
        };
        let Some(fresh_place) = fixed_place.checked_add(FIXED_PLACES) else {
            return Err(Fault::OutOfMemory);
        };
        let words = Words::open(alloc, plan, number, first_place)?;
        let channels = Channels::new(alloc, plan.memory)?;
        let lives = Lives::new(alloc, plan.memory)?;
        Ok(Node {
            words,
            processes: Processes::new(alloc),
            channels,
            links: Links::new(),
            lives,
            error: false,
            halt_on_error: false,
            is_flag_changed: false,
            has_run_high: false,
            has_run_low: false,
            population: 0,
            fixed_place,
            fresh_place,
            leads: Vec::new(alloc),
        })
    }

    /// A process of the image is added, by its number in the image.
    ///
    /// # Errors
    /// Those of `comes`.
    fn opens_process(&mut self, alloc: Global, index: usize, process: &Process) -> Result<(), Fault>
        ensures { Does (comes (node_site self.old) (named self.old.words.number (Root.Image index) [])
            (fresh (priority_of process.now.wdesc) (workspace_of process.now.wdesc) process.now.iptr) Rests) nothing
            self.old result self.new }
    {
        let Ok(number) = u32::try_from(index) else {
            return Err(Fault::OutOfMemory);
        };
        let context = first_context(process);
        self.comes(
            alloc,
            Root::Image(number),
            Vec::new(alloc),
            &context,
            Start::Rests,
        )
    }

    /// A node of a plan before the first step, by its number in the plan. first_place: the number of the place of its
    /// first word; `fresh_place` of the node is the lowest one after all its places.
    ///
    /// # Errors
    /// `AlreadyLive` where two processes of the image have one workspace, which no plan has that a net is built of;
    /// `OutOfMemory` where the allocator refuses, or the numbers of the places would not fit.
    pub fn open(
        alloc: Global,
        plan: &NodePlan,
        number: u32,
        first_place: u32,
    ) -> Result<Node, Fault>
        requires { IsMemorySize plan.now.kind plan.now.memory }
        ensures { MatchResult result (IsOpen plan.now number first_place) (IsOpeningFault plan.now) }
    {
        let mut node = Node::without_processes(alloc, plan, number, first_place)?;
        let processes = plan.image.processes.as_slice();
        for index in 0..processes.len() {
            node.opens_process(alloc, index, &processes[index])?;
        }
        node.begin_step();
        Ok(node)
    }
}
