//! Which agents have a step.

ghost use Rattle.std.specs.Prelude.{◌≡◌, ◌<◌, ◌↔◌, ◌&&◌, ℕ, false, length, nat_lt, IfNone, IfSome, IsTrue, List, Some};
ghost use Rattle.std.specs.Prelude.{slice_get, slice_index};
ghost use Rattle.tplan.specs.declared.plan.Plan.{Plan};
ghost use Rattle.tagents.specs.Walks.{are_open};
ghost use Rattle.tproc.specs.declared.channels.Side.TheVariants.{Input, Output};
ghost use Rattle.tprocesses.specs.Machine.{awaits_successor, is_due_at, is_met_at, is_ready, process_machine, role_at};
ghost use Rattle.tprocesses.specs.Machine.{sender_to};
ghost use Rattle.tprocesses.specs.Places.{Half};
ghost use Rattle.tplan.specs.Wires.{all_wires};
ghost use Rattle.tcertify.specs.Channels.{holder_of, link_of, link_or_empty};
ghost use Rattle.tcertify.specs.Standing.{stand_of};
ghost use Rattle.tcertify.specs.Words.{use_of};
ghost use Rattle.tfollow.specs.Sites.{is_listening};
ghost use Rattle.tverdict.specs.Agents.{HasChannel, HasProcess, HasWord, IsThere, agent_of};
ghost use Rattle.tverdict.specs.Listening.{IsListening, ListensAt, ListensNowhere};
ghost use Rattle.tverdict.specs.Machines.{AreNodesOf, HasStep, IsSound, machine_at};
ghost use Rattle.tverdict.specs.Wires.{has_message, has_taker, is_sink, messages_at};
ghost use Rattle.tverdict.specs.declared.agent.Agent.TheVariants as agents;

use crate::agent::Agent;
use crate::machine::Machine;
use crate::scripts::messages_at;
use tcertify::{Holder, LinkHalf, Stand, WordUse};
use tnet::Wires;
use tplan::{End, Plan};
use tword::Word;

/// Whether a process that stands so has a step.
#[inline(always)]
fn is_ready_at(stand: &Stand) -> bool
    ensures { result ≡ is_ready (stand_of stand.now) }
{
    match stand {
        Stand::Rests(_) | Stand::Runs(_) | Stand::Chosen(_) | Stand::Listens { .. } => true,
        Stand::Absent | Stand::Waits(_) | Stand::Chooses(_) | Stand::Ended => false,
    }
}

/// The channel of the link to which a process listens that stands so, if it does.
#[inline(always)]
fn listened(stand: &Stand) -> Option<Word>
    ensures some { IfSome result (λ channel. IsListening channel stand.now) }
    ensures none { IfNone result (is_listening (stand_of stand.now) ≡ false) }
{
    match stand {
        Stand::Listens { channel, .. } => Some(*channel),
        Stand::Absent
        | Stand::Rests(_)
        | Stand::Runs(_)
        | Stand::Waits(_)
        | Stand::Chooses(_)
        | Stand::Chosen(_)
        | Stand::Ended => None,
    }
}

/// Whether a channel may go on at its input with this holder.
#[inline(always)]
fn is_met_at_input(holder: &Holder) -> bool
    ensures { (n c : ℕ) (names : _) → result ≡ is_met_at (Half n c Input) (holder_of names holder.now) }
{
    match holder {
        Holder::Taken(_) | Holder::Awaited(_) => true,
        Holder::Nobody | Holder::Enabled(_) => false,
    }
}

/// Whether a channel may go on at its output with this holder.
#[inline(always)]
fn is_met_at_output(holder: &Holder) -> bool
    ensures { (n c : ℕ) (names : _) → result ≡ is_met_at (Half n c Output) (holder_of names holder.now) }
{
    match holder {
        Holder::Taken(_) => true,
        Holder::Nobody | Holder::Enabled(_) | Holder::Awaited(_) => false,
    }
}

/// Whether a message is offered at the output of a link.
#[inline(always)]
fn is_offered_at(half: &LinkHalf) -> bool
    ensures { (names : _) → result ≡ is_due_at Output (link_of names half.now) }
{
    match half {
        LinkHalf::Offered(_) => true,
        LinkHalf::Empty | LinkHalf::Enabled(_) | LinkHalf::Awaited(_) | LinkHalf::Fired(_) => false,
    }
}

/// Whether a message is asked for at the input of a link, alone or among others.
#[inline(always)]
fn is_asked_at(half: &LinkHalf) -> bool
    ensures { (names : _) → result ≡ is_due_at Input (link_of names half.now) }
{
    match half {
        LinkHalf::Offered(_) | LinkHalf::Awaited(_) => true,
        LinkHalf::Empty | LinkHalf::Enabled(_) | LinkHalf::Fired(_) => false,
    }
}

/// Whether a message is offered at the output of the link of this number, if there is one.
#[inline(always)]
fn is_offered_among(halves: &[LinkHalf; 4], link: u32) -> bool
    ensures { (names : _) → result ≡ is_due_at Output (link_or_empty names (slice_get halves.now link)) }
{
    match halves.get(link as usize) {
        Some(half) => is_offered_at(half),
        None => false,
    }
}

/// Whether a message is asked for at the input of the link of this number, if there is one.
#[inline(always)]
fn is_asked_among(halves: &[LinkHalf; 4], link: u32) -> bool
    ensures { (names : _) → result ≡ is_due_at Input (link_or_empty names (slice_get halves.now link)) }
{
    match halves.get(link as usize) {
        Some(half) => is_asked_at(half),
        None => false,
    }
}

/// Whether a sink has this number, among those of nodes, sources and sinks.
#[inline(always)]
fn is_sink(plan: &Plan, number: usize) -> bool
    ensures { result ≡ is_sink (role_at plan.now number) }
{
    let nodes = plan.nodes.as_slice().len();
    let sources = plan.sources.as_slice().len();
    let sinks = plan.sinks.as_slice().len();
    number >= nodes && number - nodes >= sources && number - nodes - sources < sinks
}

/// Whether the successor has a step that waits at a word of this use.
#[inline(always)]
pub(crate) fn awaits(used: WordUse) -> bool
    ensures { result ≡ awaits_successor (use_of used) }
{
    match used {
        WordUse::LastHigh | WordUse::LastLow | WordUse::Spoilt => true,
        WordUse::Free
        | WordUse::Saved
        | WordUse::Receiving
        | WordUse::Engaged
        | WordUse::Choosing
        | WordUse::Awaiting => false,
    }
}

/// The end that sends to an end, over a wire that joins the two.
#[inline(always)]
pub(crate) fn sender_to(wires: &Wires, end: End) -> Option<End>
    ensures { (plan : Plan) → wires.now ≡ all_wires plan → result ≡ sender_to plan end }
{
    let sender = wires.far_end(end)?;
    let back = wires.far_end(sender)?;
    if back.node == end.node && back.link == end.link {
        Some(sender)
    } else {
        None
    }
}

impl Machine {
    /// Whether a process of a node has a step.
    #[inline(always)]
    pub fn is_process_open(&self, node: u32, process: u32) -> bool
        requires { HasProcess self.now.nodes.items node process }
        ensures { (plan : Plan) → AreNodesOf plan self.now.nodes.items → result ≡ are_open (process_machine plan)
            (agent_of self.now.nodes.items (agents.Process node process)) (machine_at plan self.now) }
    {
        let process = &self.nodes[node as usize].processes.items[process as usize];
        is_ready_at(&process.stand)
    }

    /// The channel of the link to which a process of a node listens, if it does.
    #[inline(always)]
    pub(crate) fn listened_at(&self, node: u32, process: u32) -> Option<Word>
        requires { HasProcess self.now.nodes.items node process }
        ensures some { IfSome result (λ channel. ListensAt self.now.nodes.items node process channel) }
        ensures none { IfNone result (ListensNowhere self.now.nodes.items node process) }
    {
        let process = &self.nodes[node as usize].processes.items[process as usize];
        listened(&process.stand)
    }

    /// Whether a channel of a node has a step.
    #[inline(always)]
    pub fn is_channel_open(&self, node: u32, channel: u32) -> bool
        requires { HasChannel self.now.nodes.items node channel }
        ensures { (plan : Plan) → AreNodesOf plan self.now.nodes.items → result ≡ are_open (process_machine plan)
            (agent_of self.now.nodes.items (agents.Channel node channel)) (machine_at plan self.now) }
    {
        let channel = &self.nodes[node as usize].channels.items[channel as usize];
        is_met_at_input(&channel.input.holder) && is_met_at_output(&channel.output.holder)
    }

    /// Whether a message is there to be sent at an end.
    #[inline(always)]
    pub(crate) fn has_message(&self, plan: &Plan, end: End) -> bool
        ensures { AreNodesOf plan.now self.now.nodes.items → result ≡ has_message plan.now self.now end }
    {
        let number = end.node as usize;
        match self.nodes.get(number) {
            Some(node) => is_offered_among(&node.links.outputs, end.link),
            None => self.has_message_left(plan, number - self.nodes.len(), end.link),
        }
    }

    /// Whether the source of this number has a message left, if its end is at this link.
    #[inline(always)]
    fn has_message_left(&self, plan: &Plan, number: usize, link: u32) -> bool
        ensures { result ≡ nat_lt (slice_index self.now.sent.items number) (length (messages_at plan.now number link)) }
    {
        let sent = self.sent.get(number).copied().unwrap_or(0);
        (sent as usize) < messages_at(plan, number, link).len()
    }

    /// Whether a message may be received at an end, or would make a process go on.
    #[inline(always)]
    fn has_taker(&self, plan: &Plan, end: End) -> bool
        ensures { IsSound plan.now self.now → result ≡ has_taker plan.now self.now end }
    {
        let number = end.node as usize;
        match self.nodes.get(number) {
            Some(node) => is_asked_among(&node.links.inputs, end.link),
            None => is_sink(plan, number),
        }
    }

    /// Whether a wire has a step, by the end that receives.
    #[inline(always)]
    pub fn is_wire_open(&self, plan: &Plan, end: End) -> bool
        ensures { IsSound plan.now self.now → result ≡ are_open (process_machine plan.now)
            (agent_of self.now.nodes.items (agents.Wire end)) (machine_at plan.now self.now) }
    {
        match sender_to(&self.wires, end) {
            Some(sender) => self.has_message(plan, sender) && self.has_taker(plan, end),
            None => false,
        }
    }

    /// Whether a successor has a step, which waits at this word of a node.
    #[inline(always)]
    pub fn is_successor_open(&self, node: u32, word: u32) -> bool
        requires { HasWord self.now.nodes.items node word }
        ensures { (plan : Plan) → AreNodesOf plan self.now.nodes.items → result ≡ are_open (process_machine plan)
            (agent_of self.now.nodes.items (agents.Successor node word)) (machine_at plan self.now) }
    {
        let word = &self.nodes[node as usize].words.items[word as usize];
        awaits(word.used)
    }

    /// Whether the agent of this number has a step.
    #[inline(always)]
    pub fn is_open(&self, plan: &Plan, number: u32) -> bool
        requires { IsSound plan.now self.now }
        ensures { IsTrue result ↔ HasStep plan.now self.now number }
    {
        match self.agents.get(number as usize) {
            Some(agent) => self.is_agent_open(plan, *agent),
            None => false,
        }
    }

    /// Whether an agent has a step.
    #[inline(always)]
    fn is_agent_open(&self, plan: &Plan, agent: Agent) -> bool
        requires sound { IsSound plan.now self.now }
        requires there { IsThere self.now.nodes.items agent }
        ensures { result ≡ are_open (process_machine plan.now) (agent_of self.now.nodes.items agent)
            (machine_at plan.now self.now) }
    {
        match agent {
            Agent::Process { node, process } => self.is_process_open(node, process),
            Agent::Channel { node, channel } => self.is_channel_open(node, channel),
            Agent::Wire(end) => self.is_wire_open(plan, end),
            Agent::Successor { node, word } => self.is_successor_open(node, word),
        }
    }
}
