//! What follows a call that has done the step of an agent: it is told to the check, and to the agents to which it
//! leads.

ghost use Rattle.std.specs.Prelude.{◌≡◌, ◌≤◌, ◌<◌, ℕ, [], ◌∷◌, Contains, IfErr, OnOk, Err, length};
ghost use Rattle.tplan.specs.declared.plan.Plan.{Plan};
ghost use Rattle.tverdict.specs.Agents.{HasChannel, HasProcess, IsMet};
ghost use Rattle.tverdict.specs.Stepping.{AddsPlaces, Closes, HasMore, HasTold, IsDone, IsOutcome, IsTelling, IsUntold};
ghost use Rattle.tverdict.specs.Stepping.{KeepsAgents, KeepsTold};
ghost use Rattle.tverdict.specs.Verdicts.{IsStepped};
ghost use Rattle.tverdict.specs.declared.agent.Agent.TheVariants as agents;

use crate::agent::Agent;
use crate::coming::has_ended;
use crate::halt::Halt;
use crate::machine::{LastStep, Machine};
use crate::telling::{new_notes, tell_step};
use std::alloc::AllocError;
use tcertify::{Fault, Node};

/// How many processes and channels a node has.
#[derive(Clone, Copy)]
pub(crate) struct Counts {
    pub processes: usize,
    pub channels: usize,
}

impl Counts {
    /// Those of a node.
    #[inline(always)]
    pub(crate) fn of(node: &Node) -> Counts
        ensures processes { result.processes ≡ length node.now.processes.items.items }
        ensures channels { result.channels ≡ length node.now.channels.items.items }
    {
        Counts {
            processes: node.processes.items.len(),
            channels: node.channels.items.len(),
        }
    }
}

impl Machine {
    /// A call on a node has done the step of the agent of this number, and has answered this. before: how many
    /// processes and channels the node had.
    ///
    /// # Errors
    /// `Stops` where the step stops; those of `finish`.
    #[inline(always)]
    pub(crate) fn end_call(
        &mut self,
        number: u32,
        node: u32,
        before: Counts,
        outcome: Result<(), Fault>,
    ) -> Result<(), Halt>
        requires { (plan : Plan)
            × IsOutcome plan number node before.processes before.channels outcome self.old }
        ensures stepped { (plan : Plan) → IsOutcome plan number node before.processes before.channels outcome self.old
            → IsStepped plan self.old number result self.new }
        ensures kept { OnOk result (KeepsAgents self.old self.new) }
    {
        match outcome {
            Ok(()) => self.finish(number, node, before),
            Err(fault) => match fault {
                Fault::Stops(why) => Err(Halt::Stops(why)),
                Fault::OutOfMemory => Err(Halt::OutOfMemory),
            },
        }
    }

    /// A step that was done is told to the check, and to the agents to which it leads.
    ///
    /// # Errors
    /// Those of `tell`; `OutOfMemory`.
    #[inline(always)]
    fn finish(&mut self, number: u32, node: u32, before: Counts) -> Result<(), Halt>
        requires { (plan : Plan) × IsDone plan number node before.processes before.channels self.old }
        ensures stepped { (plan : Plan) → IsDone plan number node before.processes before.channels self.old
            → IsStepped plan self.old number result self.new }
        ensures kept { OnOk result (KeepsAgents self.old self.new) }
    {
        self.add_places(node)?;
        self.tell(number, node)?;
        self.lead_on(number, node)?;
        self.find_new(number, node, before)?;
        self.lodge(number, node)?;
        self.close(number, Some(LastStep { number, node }))?;
        Ok(())
    }

    /// The check has the places of a node that came in its step.
    ///
    /// # Errors
    /// Where the allocator refuses.
    #[inline(always)]
    pub(crate) fn add_places(&mut self, node: u32) -> Result<(), AllocError>
        ensures { OnOk result ((count : ℕ) × AddsPlaces self.old count self.new) }
    {
        let known = self.fresh_place;
        if (node as usize) < self.nodes.len() {
            let fresh_place = self.nodes[node as usize].fresh_place;
            if known < fresh_place {
                self.check.add_places((fresh_place - known) as usize)?;
                self.fresh_place = fresh_place;
            }
        }
        Ok(())
    }

    /// The step of the agent of this number is told to the check, except for what is noted of earlier steps.
    ///
    /// # Errors
    /// Those of `tell_step`; `OutOfMemory` where a note got lost.
    #[inline(always)]
    fn tell(&mut self, number: u32, node: u32) -> Result<(), Halt>
        requires { (plan : Plan) × IsUntold plan number node self.old }
        ensures ok { OnOk result ((plan : Plan) → IsUntold plan number node self.old
            → HasTold plan number (node ∷ []) self.new) }
        ensures more { OnOk result (HasMore self.old self.new) }
        ensures err { IfErr result (λ halt. (plan : Plan) → IsUntold plan number node self.old
            → IsStepped plan self.old number (Err halt) self.new) }
    {
        let notes = &self.nodes[node as usize].words.notes;
        if notes.is_lost {
            return Err(Halt::OutOfMemory);
        }
        tell_step(&mut self.check, number, new_notes(notes))
    }

    /// The processes and channels of a node that came in the last step are agents, unless a process has ended. before:
    /// how many the node had.
    ///
    /// # Errors
    /// Those of `find_processes` and `find_channels`.
    #[inline(always)]
    pub(crate) fn find_new(
        &mut self,
        number: u32,
        node: u32,
        before: Counts,
    ) -> Result<(), AllocError>
        requires { IsTelling number node self.old }
        ensures keeps { OnOk result (KeepsTold number node self.old self.new) }
        ensures processes { OnOk result ((k : ℕ) → before.processes ≤ k → HasProcess self.new.nodes.items node k
            → IsMet self.new.nodes.items self.new.agents.items (agents.Process node k)) }
        ensures channels { OnOk result ((k : ℕ) → before.channels ≤ k → HasChannel self.new.nodes.items node k
            → Contains self.new.agents.items (agents.Channel node k)) }
    {
        if (node as usize) < self.nodes.len() {
            self.find_processes(number, node, before.processes)?;
            self.find_channels(number, node, before.channels)?;
        }
        Ok(())
    }

    /// The processes of a node from this one on are agents, which may have come in the last step, or have ended.
    ///
    /// # Errors
    /// Where the allocator refuses, or a number would not fit.
    #[inline(always)]
    fn find_processes(&mut self, number: u32, node: u32, first: usize) -> Result<(), AllocError>
        requires node { node < length self.old.nodes.items }
        requires told { IsTelling number node self.old }
        ensures keeps { OnOk result (KeepsTold number node self.old self.new) }
        ensures found { OnOk result ((k : ℕ) → first ≤ k → HasProcess self.new.nodes.items node k
            → IsMet self.new.nodes.items self.new.agents.items (agents.Process node k)) }
    {
        for process in first..self.nodes[node as usize].processes.items.len() {
            let Ok(process) = u32::try_from(process) else {
                return Err(AllocError);
            };
            self.meet(Agent::Process { node, process })?;
        }
        Ok(())
    }

    /// The channels of a node from this one on are agents, which may have come in the last step.
    ///
    /// # Errors
    /// Where the allocator refuses, or a number would not fit.
    #[inline(always)]
    fn find_channels(&mut self, number: u32, node: u32, first: usize) -> Result<(), AllocError>
        requires node { node < length self.old.nodes.items }
        requires told { IsTelling number node self.old }
        ensures keeps { OnOk result (KeepsTold number node self.old self.new) }
        ensures found { OnOk result ((k : ℕ) → first ≤ k → HasChannel self.new.nodes.items node k
            → Contains self.new.agents.items (agents.Channel node k)) }
    {
        for channel in first..self.nodes[node as usize].channels.items.len() {
            let Ok(channel) = u32::try_from(channel) else {
                return Err(AllocError);
            };
            self.meet(Agent::Channel { node, channel })?;
        }
        Ok(())
    }

    /// The number of an agent may be noted as a spare one, if it is a process that has ended. It is only a hint.
    ///
    /// # Errors
    /// Where the allocator refuses.
    #[inline(always)]
    fn spare_ended(&mut self, number: u32) -> Result<(), AllocError>
        ensures { OnOk result (self.new ≡ record self.old { spare = self.new.spare }) }
    {
        let Some(agent) = self.agents.get(number as usize) else {
            return Ok(());
        };
        if has_ended(self.nodes.as_slice(), *agent) {
            self.spare.push(number)?;
        }
        Ok(())
    }

    /// The step of the agent of this number is over. last: that step, if it was done at one node.
    ///
    /// # Errors
    /// Where the allocator refuses, or the number of steps would not fit.
    #[inline(always)]
    pub(crate) fn close(&mut self, number: u32, last: Option<LastStep>) -> Result<(), AllocError>
        requires { number < length self.old.check.slots }
        ensures { OnOk result (Closes self.old number last self.new) }
    {
        let Some(done) = self.done.checked_add(1) else {
            return Err(AllocError);
        };
        self.check.clear(number as usize);
        self.spare_ended(number)?;
        self.done = done;
        self.last = last;
        Ok(())
    }
}
