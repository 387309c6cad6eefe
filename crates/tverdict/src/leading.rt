//! The agents to which a step leads.

ghost use Rattle.std.specs.Prelude.{◌≡◌, ◌<◌, IfSome, OnOk, length};
ghost use Rattle.tplan.specs.declared.plan.Plan.{Plan};
ghost use Rattle.tplan.specs.Wires.{all_wires};
ghost use Rattle.tverdict.specs.Agents.{IsThere};
ghost use Rattle.tverdict.specs.Stepping.{HandsOn, HasLead, IsLedTo, IsTelling, KeepsTold, Receives};

use crate::agent::Agent;
use crate::looks::sender_to;
use crate::machine::Machine;
use std::alloc::AllocError;
use tcertify::{Lead, Side};
use tnet::Wires;
use tplan::End;

/// The end that receives over the wire of an end, which has its input or output there.
fn receiver(wires: &Wires, end: End, side: Side) -> Option<End>
    ensures { IfSome result (λ e. (plan : Plan) → wires.now ≡ all_wires plan → Receives plan end side e) }
{
    match side {
        Side::Input => {
            let _sender = sender_to(wires, end)?;
            Some(end)
        }
        Side::Output => {
            let far = wires.far_end(end)?;
            let sender = sender_to(wires, far)?;
            (sender.node == end.node && sender.link == end.link).then_some(far)
        }
    }
}

impl Machine {
    /// The agent that a lead of a node names, if there is one.
    fn led_by(&self, node: u32, lead: Lead) -> Option<Agent>
        requires { node < length self.now.nodes.items }
        ensures there { IfSome result (λ agent. IsThere self.now.nodes.items agent) }
        ensures led { IfSome result
            (λ agent. (plan : Plan) → self.now.wires ≡ all_wires plan → IsLedTo plan node lead agent) }
    {
        let at = &self.nodes[node as usize];
        match lead {
            Lead::Process(process) => {
                let is_there = (process as usize) < at.processes.items.len();
                is_there.then_some(Agent::Process { node, process })
            }
            Lead::Channel(channel) => {
                let is_there = (channel as usize) < at.channels.items.len();
                is_there.then_some(Agent::Channel { node, channel })
            }
            Lead::Count(word) => {
                let is_there = (word as usize) < at.words.items.len();
                is_there.then_some(Agent::Successor { node, word })
            }
            Lead::Link { link, side } => {
                let end = receiver(&self.wires, End { node, link }, side)?;
                Some(Agent::Wire(end))
            }
        }
    }

    /// The clock of the agent of this number is handed on to another one, which may have a step now.
    ///
    /// # Errors
    /// Where the allocator refuses.
    fn hand_on(&mut self, number: u32, to: u32) -> Result<(), AllocError>
        requires agent { number < length self.old.check.clocks }
        requires slot { to < length self.old.check.slots }
        ensures { OnOk result (HandsOn self.old number to self.new) }
    {
        self.check.add_to(number, to as usize)?;
        self.candidates.push(to)?;
        Ok(())
    }

    /// The clock of the last step, of the agent of this number, is handed on by a lead of its node. An agent that was
    /// not found before comes, unless it is a process that has ended, which gets no clock.
    ///
    /// # Errors
    /// Where the allocator refuses, or a number would not fit.
    #[inline(never)]
    fn lead_by(&mut self, number: u32, node: u32, lead: Lead) -> Result<(), AllocError>
        requires told { IsTelling number node self.old }
        requires lead { HasLead self.old.nodes.items node lead }
        ensures { OnOk result (KeepsTold number node self.old self.new) }
    {
        let Some(agent) = self.led_by(node, lead) else {
            return Ok(());
        };
        let Some(to) = self.number_of(number, agent)? else {
            return Ok(());
        };
        if to != number {
            self.hand_on(number, to)?;
        }
        Ok(())
    }

    /// The clock of the last step, of the agent of this number, is handed on by each lead of its node.
    ///
    /// # Errors
    /// Those of `lead_by`.
    #[inline(always)]
    pub(crate) fn lead_on(&mut self, number: u32, node: u32) -> Result<(), AllocError>
        requires { IsTelling number node self.old }
        ensures { OnOk result (KeepsTold number node self.old self.new) }
    {
        if self.nodes.len() <= node as usize {
            return Ok(());
        }
        for index in 0..self.nodes[node as usize].leads.len() {
            if let Some(lead) = self.nodes[node as usize].leads.get(index) {
                let led = *lead;
                self.lead_by(number, node, led)?;
            }
        }
        Ok(())
    }
}
