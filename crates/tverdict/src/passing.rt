//! The steps of wires, over which messages pass, and the ends of all steps that are done at two nodes.

ghost use Rattle.std.specs.Prelude.{◌≡◌, ◌<◌, ◌∷◌, [], IfErr, OnOk, Err, None, Some, length, slice_get};
ghost use Rattle.tplan.specs.declared.plan.Plan.{Plan};
ghost use Rattle.tprocesses.specs.Machine as machine;
ghost use Rattle.tprocesses.specs.Machine.{role_at};
ghost use Rattle.tcertify.specs.Nodes.{nothing};
ghost use Rattle.tcertify.specs.declared.notes.Notes as noted;
ghost use Rattle.tcertify.specs.declared.fault.Fault.TheVariants as faults;
ghost use Rattle.tverdict.specs.declared.halt.Halt.TheVariants as halts;
ghost use Rattle.tverdict.specs.Machines.{Follows, HasStep};
ghost use Rattle.tverdict.specs.Passing.{DoesHalf, notes_or};
ghost use Rattle.tverdict.specs.Stepping.{Fits, HasMore, HasTold, KeepsAgents};
ghost use Rattle.tverdict.specs.Verdicts.{IsStepped};
ghost use Rattle.tverdict.specs.Wired.{AreCounts, BeginsAt, DoesAtTwo, IsDoneAt, IsOutcomeAt, IsUntoldAt};
ghost use Rattle.tverdict.specs.declared.agent.Agent.TheVariants as agents;

use crate::calls::begin;
use crate::finishing::Counts;
use crate::halt::Halt;
use crate::looks::sender_to;
use crate::machine::Machine;
use crate::telling::tell_both;
use std::alloc::Global;
use tcertify::{Fault, Node, Notes, Stop};
use tplan::{End, Plan};

/// The notes of the node of this number, if there is one; else the others.
fn notes_of<'a>(nodes: &'a [Node], number: u32, others: &'a Notes) -> &'a Notes
    ensures { result.now ≡ notes_or others.now (slice_get nodes.now number) }
{
    match nodes.get(number as usize) {
        Some(node) => &node.words.notes,
        None => others,
    }
}

impl Machine {
    /// The node of this number begins afresh, if there is one.
    pub(crate) fn begin_at(&mut self, node: u32)
        ensures { BeginsAt self.old node self.new }
    {
        if (node as usize) < self.nodes.len() {
            begin(&mut self.nodes[node as usize], self.fresh_place);
        }
    }

    /// How many processes and channels the node of this number has, if there is one.
    pub(crate) fn counts_at(&self, node: u32) -> Counts
        ensures { AreCounts self.now node result }
    {
        match self.nodes.get(node as usize) {
            Some(at) => Counts::of(at),
            None => Counts {
                processes: 0,
                channels: 0,
            },
        }
    }

    /// A node sends the message that is offered at an end: its bytes.
    ///
    /// # Errors
    /// Those of `Node::sends`; `OutOfMemory` where the end is at none of the four links, at which nothing is offered.
    fn node_sends(&mut self, alloc: Global, from: End) -> Result<Vec<Option<u8>>, Fault>
        requires { from.node < length self.old.nodes.items }
        ensures { (plan : Plan) (notes : noted.Notes) → Fits plan self.old
            → DoesHalf plan (machine.sends plan (role_at plan from.node) from) (λ m. m.items) from.node self.old notes
            result self.new notes }
    {
        if 4 <= from.link {
            return Err(Fault::OutOfMemory);
        }
        self.nodes[from.node as usize].sends(alloc, from.link)
    }

    /// A node receives a message at an end.
    ///
    /// # Errors
    /// Those of `Node::receives`; `OutOfMemory` where the end is at none of the four links, at which nothing is asked
    /// for.
    fn node_receives(&mut self, to: End, message: &[Option<u8>]) -> Result<(), Fault>
        requires { to.node < length self.old.nodes.items }
        ensures { (plan : Plan) (notes : noted.Notes) → Fits plan self.old
            → DoesHalf plan (machine.receives plan (role_at plan to.node) to message.now) nothing to.node self.old notes
            result self.new notes }
    {
        if 4 <= to.link {
            return Err(Fault::OutOfMemory);
        }
        self.nodes[to.node as usize].receives(to.link, message)
    }

    /// The message that goes over from an end: its bytes. notes: those of sources.
    ///
    /// # Errors
    /// Those of `node_sends` and `source_sends`; `HasNoStep` where nobody sends at the end.
    fn sends(
        &mut self,
        alloc: Global,
        plan: &Plan,
        from: End,
        notes: &mut Notes,
    ) -> Result<Vec<Option<u8>>, Fault>
        requires { Fits plan.now self.old }
        ensures { DoesHalf plan.now (machine.sends plan.now (role_at plan.now from.node) from) (λ m. m.items) from.node
            self.old notes.old result self.new notes.new }
    {
        let number = from.node as usize;
        if number < self.nodes.len() {
            return self.node_sends(alloc, from);
        }
        if number - self.nodes.len() < self.sent.len() {
            return self.source_sends(alloc, plan, from, notes);
        }
        Err(Fault::Stops(Stop::HasNoStep))
    }

    /// A message comes in at an end. notes: those of sinks.
    ///
    /// # Errors
    /// Those of `node_receives` and `sink_receives`; `HasNoStep` where nobody receives at the end.
    fn receives(
        &mut self,
        plan: &Plan,
        to: End,
        message: Vec<Option<u8>>,
        notes: &mut Notes,
    ) -> Result<(), Fault>
        requires { Fits plan.now self.old }
        ensures { DoesHalf plan.now (machine.receives plan.now (role_at plan.now to.node) to message.items) nothing
            to.node self.old notes.old result self.new notes.new }
    {
        let number = to.node as usize;
        if number < self.nodes.len() {
            return self.node_receives(to, message.as_slice());
        }
        let beyond = number - self.nodes.len();
        if self.sent.len() <= beyond && beyond - self.sent.len() < self.sinks.len() {
            return self.sink_receives(plan, to, message, notes);
        }
        Err(Fault::Stops(Stop::HasNoStep))
    }

    /// A message goes over a wire, at whose end nobody waits for it and for others. notes: those of sources and sinks.
    ///
    /// # Errors
    /// Those of `sends` and `receives`.
    fn pass(
        &mut self,
        alloc: Global,
        plan: &Plan,
        from: End,
        to: End,
        notes: &mut Notes,
    ) -> Result<(), Fault>
        requires { Fits plan.now self.old }
        ensures { DoesAtTwo plan.now (machine.crosses plan.now from to None) from.node to.node self.old notes.old
            result self.new notes.new }
    {
        let message = self.sends(alloc, plan, from, notes)?;
        self.receives(plan, to, message, notes)
    }

    /// A message goes over a wire, or makes the process go on that waits for it and for others. notes: those of sources
    /// and sinks.
    ///
    /// # Errors
    /// Those of `asks`, `fires` and `pass`.
    fn crosses(
        &mut self,
        alloc: Global,
        plan: &Plan,
        from: End,
        to: End,
        notes: &mut Notes,
    ) -> Result<(), Fault>
        requires { Fits plan.now self.old }
        ensures { DoesAtTwo plan.now (machine.passes plan.now (Some from) to) from.node to.node self.old notes.old
            result self.new notes.new }
    {
        match self.asks(to)? {
            Some(process) => self.fires(plan, from, to, process, notes),
            None => self.pass(alloc, plan, from, to, notes),
        }
    }

    /// The step of the agent of this number, done at two nodes, sources or sinks, is told to the check. others: the
    /// notes of sources and sinks.
    ///
    /// # Errors
    /// Those of `tell_both`; `OutOfMemory` where a note got lost.
    fn tell_at(&mut self, number: u32, one: u32, other: u32, others: &Notes) -> Result<(), Halt>
        requires { (plan : Plan) × IsUntoldAt plan number one other others.now self.old }
        ensures ok { OnOk result ((plan : Plan) → IsUntoldAt plan number one other others.now self.old
            → HasTold plan number (one ∷ other ∷ []) self.new) }
        ensures more { OnOk result (HasMore self.old self.new) }
        ensures err { IfErr result (λ halt. (plan : Plan) → IsUntoldAt plan number one other others.now self.old
            → IsStepped plan self.old number (Err halt) self.new) }
    {
        let first = notes_of(self.nodes.as_slice(), one, others);
        let second = notes_of(self.nodes.as_slice(), other, others);
        if first.is_lost || second.is_lost {
            return Err(Halt::OutOfMemory);
        }
        tell_both(
            &mut self.check,
            number,
            first.items.as_slice(),
            second.items.as_slice(),
        )
    }

    /// A step that was done at two nodes, sources or sinks is told to the check, and to the agents to which it leads.
    ///
    /// # Errors
    /// Those of `tell_at`; `OutOfMemory`.
    fn finish_at(
        &mut self,
        number: u32,
        one: u32,
        other: u32,
        before: (Counts, Counts),
        others: &Notes,
    ) -> Result<(), Halt>
        requires { (plan : Plan) × IsDoneAt plan number one before.0.processes before.0.channels other
            before.1.processes before.1.channels others.now self.old }
        ensures stepped { (plan : Plan) → IsDoneAt plan number one before.0.processes before.0.channels other
            before.1.processes before.1.channels others.now self.old → IsStepped plan self.old number result self.new }
        ensures kept { OnOk result (KeepsAgents self.old self.new) }
    {
        self.add_places(one)?;
        self.add_places(other)?;
        self.tell_at(number, one, other, others)?;
        self.lead_on(number, one)?;
        self.lead_on(number, other)?;
        self.find_new(number, one, before.0)?;
        self.find_new(number, other, before.1)?;
        self.lodge_both(number, one, other)?;
        self.close(number, None)?;
        Ok(())
    }

    /// The step of the agent of this number was done at two nodes, sources or sinks, and this was answered. before: how
    /// many processes and channels the nodes had; others: the notes of sources and sinks.
    ///
    /// # Errors
    /// `Stops` where the step stops; those of `finish_at`.
    pub(crate) fn end_pass(
        &mut self,
        number: u32,
        one: u32,
        other: u32,
        before: (Counts, Counts),
        others: &Notes,
        outcome: Result<(), Fault>,
    ) -> Result<(), Halt>
        requires { (plan : Plan) × IsOutcomeAt plan number one before.0.processes before.0.channels other
            before.1.processes before.1.channels others.now outcome self.old }
        ensures stepped { (plan : Plan) → IsOutcomeAt plan number one before.0.processes before.0.channels other
            before.1.processes before.1.channels others.now outcome self.old
            → IsStepped plan self.old number result self.new }
        ensures kept { OnOk result (KeepsAgents self.old self.new) }
        ensures memory { outcome ≡ Err faults.OutOfMemory → result ≡ Err halts.OutOfMemory }
    {
        match outcome {
            Ok(()) => self.finish_at(number, one, other, before, others),
            Err(fault) => match fault {
                Fault::Stops(why) => Err(Halt::Stops(why)),
                Fault::OutOfMemory => Err(Halt::OutOfMemory),
            },
        }
    }

    /// The step of a wire, which is the agent of this number.
    ///
    /// # Errors
    /// Those of `end_pass`.
    #[inline(never)]
    pub(crate) fn wire_step(
        &mut self,
        alloc: Global,
        plan: &Plan,
        number: u32,
        to: End,
    ) -> Result<(), Halt>
        requires follows { Follows plan.now self.old }
        requires open { HasStep plan.now self.old number }
        requires agent { slice_get self.old.agents.items number ≡ Some (agents.Wire to) }
        ensures stepped { IsStepped plan.now self.old number result self.new }
        ensures kept { OnOk result (KeepsAgents self.old self.new) }
    {
        let Some(from) = sender_to(&self.wires, to) else {
            return Err(Halt::Stops(Stop::HasNoStep));
        };
        let before = (self.counts_at(from.node), self.counts_at(to.node));
        self.begin_at(from.node);
        self.begin_at(to.node);
        let mut notes = Notes::new(alloc);
        let outcome = self.crosses(alloc, plan, from, to, &mut notes);
        self.end_pass(number, from.node, to.node, before, &notes, outcome)
    }
}
