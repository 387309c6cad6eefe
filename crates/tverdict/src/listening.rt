//! The step of a process that listens to the input of a link, which did not make it go on: nobody may send there.

ghost use Rattle.std.specs.Prelude.{ℕ, ◌≡◌, Ok, OnOk, Some, slice_get};
ghost use Rattle.tproc.specs.LinkChannels as links;
ghost use Rattle.tproc.specs.declared.channels.Side.TheVariants as sides;
ghost use Rattle.tplan.specs.Wires.{end_at};
ghost use Rattle.tplan.specs.declared.plan.NodePlan.{NodePlan};
ghost use Rattle.tplan.specs.declared.plan.Plan.{Plan};
ghost use Rattle.tprocesses.specs.Choosing.{goes_on_unfired};
ghost use Rattle.tprocesses.specs.Machine as machine;
ghost use Rattle.tprocesses.specs.Machine.{site_of, step_of};
ghost use Rattle.tprocesses.specs.Parts.{see};
ghost use Rattle.tprocesses.specs.Places.{Standing};
ghost use Rattle.tprocesses.specs.Values.{IsStand};
ghost use Rattle.tcertify.specs.Contexts.{context_of};
ghost use Rattle.tcertify.specs.Nodes.{nothing};
ghost use Rattle.tcertify.specs.Standing.{stand_of};
ghost use Rattle.tcertify.specs.declared.notes.Notes as noted;
ghost use Rattle.tverdict.specs.Agents.{HasProcess, name_there};
ghost use Rattle.tverdict.specs.Listening as spec;
ghost use Rattle.tverdict.specs.Listening.{ListensAt};
ghost use Rattle.tverdict.specs.Machines.{Follows, HasStep};
ghost use Rattle.tverdict.specs.Passing.{DoesHalf, RunsHalf};
ghost use Rattle.tverdict.specs.Stepping.{Fits, KeepsAgents};
ghost use Rattle.tverdict.specs.Verdicts.{IsStepped};
ghost use Rattle.tverdict.specs.Wired.{DoesAtTwo};
ghost use Rattle.tverdict.specs.declared.agent.Agent.TheVariants as agents;

use crate::halt::Halt;
use crate::looks::sender_to;
use crate::machine::Machine;
use std::alloc::Global;
use tcertify::{Context, Fault, Notes, Stand, Stop};
use tplan::{End, Plan};
use tword::Word;
use tword::limits::MOST_NEG;

/// The link whose input a link channel names.
#[inline(always)]
fn input_link(channel: Word) -> u32
    ensures { result ≡ links.link_of sides.Input channel }
{
    (channel.get().saturating_sub(MOST_NEG) / 4).saturating_sub(4)
}

/// The node of an end, or else this one.
#[inline(always)]
fn far_node(node: u32, end: Option<End>) -> u32
    ensures { result ≡ spec.far_node node end }
{
    match end {
        Some(far) => far.node,
        None => node,
    }
}

impl Machine {
    /// Where a process of a node stands.
    fn node_stand(&mut self, node: u32, process: u32) -> Stand
        requires { HasProcess self.old.nodes.items node process }
        ensures { (plan : Plan) (notes : noted.Notes) → Fits plan self.old
            → RunsHalf plan (see (Standing (name_there self.old.nodes.items node process))) node self.old notes
            (Ok (IsStand (stand_of result))) self.new notes }
    {
        self.nodes[node as usize].stand(process)
    }

    /// A process of a node that has listened goes on.
    ///
    /// # Errors
    /// Those of `Node::goes_on_unfired`.
    fn node_goes_on(
        &mut self,
        node: u32,
        process: u32,
        channel: Word,
        context: &Context,
    ) -> Result<(), Fault>
        requires { HasProcess self.old.nodes.items node process }
        ensures { (plan : Plan) (notes : noted.Notes) (planned : NodePlan) → Fits plan self.old
            → slice_get plan.nodes node ≡ Some planned
            → DoesHalf plan (goes_on_unfired (site_of node planned) (name_there self.old.nodes.items node process)
            channel (context_of context.now)) nothing node self.old notes result self.new notes }
    {
        self.nodes[node as usize].goes_on_unfired(process, channel, context)
    }

    /// Nobody sends at an end. notes: those of sources and sinks.
    ///
    /// # Errors
    /// `SeveralReady` where somebody does; those of `offers`.
    fn requires_no_sender(
        &mut self,
        plan: &Plan,
        from: Option<End>,
        notes: &mut Notes,
    ) -> Result<(), Fault>
        requires { Fits plan.now self.old }
        ensures { (node other : ℕ) → DoesAtTwo plan.now (machine.requires_no_sender plan.now from)
            (spec.far_node node from) other self.old notes.old result self.new notes.new }
    {
        let Some(end) = from else {
            return Ok(());
        };
        if self.offers(plan, end, notes)? {
            return Err(Fault::Stops(Stop::SeveralReady));
        }
        Ok(())
    }

    /// A process of a node listens to the input of its link, at whose far end somebody may send, and goes on where
    /// nobody does. notes: those of sources and sinks.
    ///
    /// # Errors
    /// Those of `requires_no_sender` and `node_goes_on`; `OutOfMemory` where the process does not listen.
    fn listens(
        &mut self,
        plan: &Plan,
        from: Option<End>,
        node: u32,
        process: u32,
        notes: &mut Notes,
    ) -> Result<(), Fault>
        requires fits { Fits plan.now self.old }
        requires there { HasProcess self.old.nodes.items node process }
        ensures { (channel : ℕ) → ListensAt self.old.nodes.items node process channel
            → from ≡ machine.sender_to plan.now (end_at node (links.link_of sides.Input channel))
            → DoesAtTwo plan.now (step_of plan.now (machine.Process (name_there self.old.nodes.items node process)))
            (spec.far_node node from) node self.old notes.old result self.new notes.new }
    {
        let Stand::Listens { channel, context } = self.node_stand(node, process) else {
            return Err(Fault::OutOfMemory);
        };
        self.requires_no_sender(plan, from, notes)?;
        self.node_goes_on(node, process, channel, &context)
    }

    /// The step of a process that listens to the input of the link that this channel names. It is the agent of this
    /// number.
    ///
    /// # Errors
    /// Those of `end_pass`.
    #[inline(never)]
    pub(crate) fn listening_step(
        &mut self,
        alloc: Global,
        plan: &Plan,
        number: u32,
        node: u32,
        process: u32,
        channel: Word,
    ) -> Result<(), Halt>
        requires follows { Follows plan.now self.old }
        requires open { HasStep plan.now self.old number }
        requires agent { slice_get self.old.agents.items number ≡ Some (agents.Process node process) }
        requires listens { ListensAt self.old.nodes.items node process channel }
        ensures stepped { IsStepped plan.now self.old number result self.new }
        ensures kept { OnOk result (KeepsAgents self.old self.new) }
    {
        let link = input_link(channel);
        let from = sender_to(&self.wires, End { node, link });
        let far = far_node(node, from);
        let before = (self.counts_at(far), self.counts_at(node));
        self.begin_at(far);
        self.begin_at(node);
        let mut notes = Notes::new(alloc);
        let outcome = self.listens(plan, from, node, process, &mut notes);
        self.end_pass(number, far, node, before, &notes, outcome)
    }
}
