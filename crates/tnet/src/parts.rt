//! The pieces of a net, and an event of one of its nodes.

ghost use Rattle.std.specs.Prelude.{◌≡◌, ◌≤◌, length, IfErr, IfOk};
ghost use Rattle.tword.specs.Limits.{most_nodes};

use crate::inbox::Inbox;
use crate::station::{self, empty, put};
use crate::wires::{Row, Wires, end_of};
use std::alloc::Global;
use tlink::{Emitted, Node, NodeEvent, Packet, Role, StepFault};
use tplan::{Act, End, Event};
use tword::MemoryFault;

/// The pieces of a net: its nodes, its wires, and what lies at the links of each node. `Net` holds them, and knows that
/// they fit one another.
#[derive(Drop)]
pub struct NetParts {
    pub nodes: Vec<Node>,
    pub wires: Wires,
    /// For each node, what lies at its links.
    pub inboxes: Vec<Row<Inbox>>,
    /// The number of a node fits its events.
    pub ghost few: { length nodes.items ≤ most_nodes },
}

/// All acts of a node.
const ALL_ACTS: [Act; 17] = [
    Act::Run,
    Act::Send(0),
    Act::Data(0),
    Act::Take(0),
    Act::Ack(0),
    Act::Send(1),
    Act::Data(1),
    Act::Take(1),
    Act::Ack(1),
    Act::Send(2),
    Act::Data(2),
    Act::Take(2),
    Act::Ack(2),
    Act::Send(3),
    Act::Data(3),
    Act::Take(3),
    Act::Ack(3),
];

/// Nodes in the same states.
fn copies(alloc: Global, nodes: &[Node]) -> Result<Vec<Node>, MemoryFault>
    ensures same { IfOk result (λ copies. copies.items ≡ nodes.now) }
    ensures fault { IfErr result (λ fault. fault ≡ MemoryFault.OutOfMemory) }
{
    let mut copies = Vec::with_capacity(alloc, nodes.len())?;
    for node in nodes {
        let copy = node.try_copy(alloc)?;
        if let Err(_refused) = copies.push(copy) {
            return Err(MemoryFault::OutOfMemory);
        }
    }
    Ok(copies)
}

impl NetParts {
    ghost use Rattle.std.specs.Prelude.{◌≡◌, not};
    ghost use Rattle.std.specs.List.{list_all};
    ghost use Rattle.tnet.specs.Quiet.{node_events, is_quiet};
    ghost use Rattle.tnet.specs.Net.{inbox_at, node_at};
    ghost use Rattle.tnet.specs.Packets.{received, sent_off, is_enabled};
    ghost use Rattle.tnet.specs.Packets as spec;
    ghost use Rattle.tnet.specs.Answers.{DoesAt, DoesEvent};
    ghost use Rattle.tnet.specs.NetParts.{net_of_parts};

    /// Pieces in the same states.
    ///
    /// # Errors
    /// `OutOfMemory` where the allocator refuses.
    pub fn try_copy(&self, alloc: Global) -> Result<NetParts, MemoryFault>
        ensures same { IfOk result (λ parts. net_of_parts parts ≡ net_of_parts self.now) }
        ensures fault { IfErr result (λ fault. fault ≡ MemoryFault.OutOfMemory) }
    {
        let nodes = copies(alloc, self.nodes.as_slice())?;
        let wires = self.wires.try_copy(alloc)?;
        let inboxes = Vec::from_slice(alloc, self.inboxes.as_slice())?;
        Ok(NetParts {
            nodes,
            wires,
            inboxes,
        })
    }

    /// The event that a node is asked for, if its packet lies there.
    #[inline(always)]
    fn node_event(&self, event: Event) -> Option<NodeEvent>
        ensures { result ≡ spec.node_event (net_of_parts self.now) event.node event.act }
    {
        match self.inboxes.get(usize::from(event.node)) {
            Some(inboxes) => station::asked(inboxes, event.act),
            None => station::asked(&[Inbox::EMPTY; 4], event.act),
        }
    }

    /// The packet that an event takes is gone.
    #[inline(always)]
    fn receive(&mut self, event: Event)
        ensures { net_of_parts self.new ≡ received event.node event.act (net_of_parts self.old) }
    {
        let (Act::Data(_) | Act::Ack(_)) = event.act else {
            return;
        };
        let place = usize::from(event.node);
        if place < self.inboxes.len() {
            empty(&mut self.inboxes[place], event.act);
        }
    }

    /// What lies at an end.
    pub fn inbox(&self, end: End) -> Inbox
        ensures { result ≡ inbox_at (net_of_parts self.now) end }
    {
        match self.inboxes.get(end.node as usize) {
            Some(links) => links
                .get(end.link as usize)
                .copied()
                .unwrap_or(Inbox::EMPTY),
            None => Inbox::EMPTY,
        }
    }

    /// What was emitted lies at the far end.
    #[inline(always)]
    fn send_off(&mut self, node: u8, packet: Option<(u8, Packet)>)
        ensures { net_of_parts self.new ≡ sent_off node packet (net_of_parts self.old) }
    {
        let Some((link, packet)) = packet else {
            return;
        };
        let Some(far) = self.wires.far_end(end_of(node, link)) else {
            return;
        };
        let place = far.node as usize;
        if place < self.inboxes.len() {
            put(&mut self.inboxes[place], far.link, packet);
        }
    }

    /// Whether an event would be done.
    #[tactic(auto, using(crate::proofs::Stepping::asked_at), unfolding(crate::specs::Packets::net_happens))]
    pub fn enabled(&self, event: Event) -> bool
        ensures { result ≡ is_enabled (net_of_parts self.now) event }
    {
        match self.node_event(event) {
            None => false,
            Some(asked) => match self.nodes.get(usize::from(event.node)) {
                None => false,
                Some(node) => node.enabled(asked),
            },
        }
    }

    /// Whether a node does none of these acts.
    fn refuses(&self, node: u8, acts: &[Act]) -> bool
        ensures { result ≡ list_all
            (λ act. not (is_enabled (net_of_parts self.now) (record { node = node; act = act }))) acts.now }
    {
        acts.iter()
            .all(|act| !self.enabled(Event { node, act: *act }))
    }

    /// Whether no event of a node is enabled.
    fn node_is_quiet(&self, node: u8) -> bool
        ensures { result ≡ list_all (λ e. not (is_enabled (net_of_parts self.now) e)) (node_events node) }
    {
        self.refuses(node, &ALL_ACTS)
    }

    /// Whether no event is enabled.
    #[tactic(auto, using(crate::proofs::Quietness::quiet_next, crate::proofs::Quietness::quiet_stops))]
    pub fn is_quiet(&self) -> bool
        ensures { result ≡ is_quiet (net_of_parts self.now) }
    {
        for node in 0..self.nodes.len() as u8 {
            if !self.node_is_quiet(node) {
                return false;
            }
        }
        true
    }

    /// Does one event of the node with this number.
    #[inline(always)]
    fn step_node(&mut self, node: u8, event: NodeEvent) -> Result<Emitted, StepFault>
        ensures { DoesAt node event (node_at (net_of_parts self.old) node) (net_of_parts self.old) result
            (net_of_parts self.new) }
    {
        let place = usize::from(node);
        if place >= self.nodes.len() {
            return Err(StepFault::NotEnabled);
        }
        self.nodes[place].step(event)
    }

    /// Does one event. That of a script stands out of line, so that those of processors stay small.
    #[inline(always)]
    pub fn step(&mut self, event: Event) -> Result<Emitted, StepFault>
        ensures { DoesEvent event (net_of_parts self.old) result (net_of_parts self.new) }
    {
        let place = usize::from(event.node);
        if place >= self.nodes.len() {
            return Err(StepFault::NotEnabled);
        }
        match self.nodes[place].role() {
            Role::Processor(_) => self.step_any(event),
            Role::Source(_) | Role::Sink(_) => {
                // In memory of its own: so those of processors need none.
                let answer = self.step_script(event.node, event.act);
                answer
            }
        }
    }

    /// Does one event of a script.
    #[inline(never)]
    fn step_script(&mut self, node: u8, act: Act) -> Result<Emitted, StepFault>
        ensures { DoesEvent (record { node = node; act = act }) (net_of_parts self.old) result
            (net_of_parts self.new) }
    {
        self.step_any(Event { node, act })
    }

    /// Does one event of any node.
    #[inline(always)]
    #[tactic(auto, using(crate::proofs::Stepping::event_done), unfolding(crate::specs::Packets::net_happens))]
    fn step_any(&mut self, event: Event) -> Result<Emitted, StepFault>
        ensures { DoesEvent event (net_of_parts self.old) result (net_of_parts self.new) }
    {
        let Some(asked) = self.node_event(event) else {
            return Err(StepFault::NotEnabled);
        };
        match self.step_node(event.node, asked) {
            Ok(emitted) => {
                self.receive(event);
                self.send_off(event.node, emitted.packet);
                Ok(emitted)
            }
            Err(fault) => Err(fault),
        }
    }
}
