//! The steps of agents.

ghost use Rattle.std.specs.Prelude.{◌≡◌, OnOk, Some, slice_get, true};
ghost use Rattle.tplan.specs.declared.plan.Plan.{Plan};
ghost use Rattle.tverdict.specs.Machines.{Follows, HasStep, IsLast};
ghost use Rattle.tverdict.specs.Stepping.{KeepsAgents};
ghost use Rattle.tverdict.specs.Verdicts.{IsStepped};
ghost use Rattle.tverdict.specs.declared.agent.Agent.TheVariants as agents;

use crate::agent::Agent;
use crate::calls::{do_channel, do_process, do_successor};
use crate::finishing::Counts;
use crate::halt::Halt;
use crate::machine::Machine;
use std::alloc::Global;
use tplan::Plan;

impl Machine {
    /// The agent of this number, which has a step, makes it.
    ///
    /// # Errors
    /// `Stops` where the step stops; `Race` with the first of its accesses that races with an earlier one;
    /// `OutOfMemory` where the allocator refuses, or a number would not fit.
    #[inline(always)]
    pub fn step(&mut self, alloc: Global, plan: &Plan, number: u32) -> Result<(), Halt>
        requires follows { Follows plan.now self.old }
        requires step { HasStep plan.now self.old number }
        ensures stepped { IsStepped plan.now self.old number result self.new }

        // each agent that was there has its number still, or is a process that has ended
        ensures kept { OnOk result (KeepsAgents self.old self.new) }
    {
        match self.agents[number as usize] {
            Agent::Process { node, process } => {
                self.process_step(alloc, plan, number, node, process)
            }
            Agent::Channel { node, channel } => self.channel_step(number, node, channel),
            Agent::Wire(end) => self.wire_step(alloc, plan, number, end),
            Agent::Successor { node, word } => self.successor_step(alloc, number, node, word),
        }
    }

    /// Whether the last step was that of the agent of this number, at this node.
    #[inline(always)]
    pub(crate) fn was_last(&self, number: u32, node: u32) -> bool
        ensures { result ≡ true → IsLast self.now number node }
    {
        match self.last {
            Some(last) => last.number == number && last.node == node,
            None => false,
        }
    }

    /// The step of a process, which is the agent of this number.
    ///
    /// # Errors
    /// Those of `end_call` and `listening_step`.
    #[inline(always)]
    fn process_step(
        &mut self,
        alloc: Global,
        plan: &Plan,
        number: u32,
        node: u32,
        process: u32,
    ) -> Result<(), Halt>
        requires follows { Follows plan.now self.old }
        requires open { HasStep plan.now self.old number }
        requires agent { slice_get self.old.agents.items number ≡ Some (agents.Process node process) }
        ensures stepped { IsStepped plan.now self.old number result self.new }
        ensures kept { OnOk result (KeepsAgents self.old self.new) }
    {
        if let Some(channel) = self.listened_at(node, process) {
            return self.listening_step(alloc, plan, number, node, process, channel);
        }
        let goes_on = self.was_last(number, node);
        let fresh_place = self.fresh_place;
        let at = &mut self.nodes[node as usize];
        let counts = Counts::of(at);
        let outcome = do_process(at, alloc, &mut self.idle, fresh_place, process, goes_on);
        self.end_call(number, node, counts, outcome)
    }

    /// The step of a channel, which is the agent of this number.
    ///
    /// # Errors
    /// Those of `end_call`.
    #[inline(never)]
    fn channel_step(&mut self, number: u32, node: u32, channel: u32) -> Result<(), Halt>
        requires open { (plan : Plan) × Follows plan self.old × HasStep plan self.old number }
        requires agent { slice_get self.old.agents.items number ≡ Some (agents.Channel node channel) }
        ensures stepped { (plan : Plan) → Follows plan self.old → HasStep plan self.old number
            → IsStepped plan self.old number result self.new }
        ensures kept { OnOk result (KeepsAgents self.old self.new) }
    {
        let fresh_place = self.fresh_place;
        let at = &mut self.nodes[node as usize];
        let counts = Counts::of(at);
        let outcome = do_channel(at, fresh_place, channel);
        self.end_call(number, node, counts, outcome)
    }

    /// The step of a successor, which is the agent of this number.
    ///
    /// # Errors
    /// Those of `end_call`.
    #[inline(never)]
    fn successor_step(
        &mut self,
        alloc: Global,
        number: u32,
        node: u32,
        word: u32,
    ) -> Result<(), Halt>
        requires open { (plan : Plan) × Follows plan self.old × HasStep plan self.old number }
        requires agent { slice_get self.old.agents.items number ≡ Some (agents.Successor node word) }
        ensures stepped { (plan : Plan) → Follows plan self.old → HasStep plan self.old number
            → IsStepped plan self.old number result self.new }
        ensures kept { OnOk result (KeepsAgents self.old self.new) }
    {
        let fresh_place = self.fresh_place;
        let at = &mut self.nodes[node as usize];
        let counts = Counts::of(at);
        let outcome = do_successor(at, alloc, fresh_place, word);
        self.end_call(number, node, counts, outcome)
    }
}
