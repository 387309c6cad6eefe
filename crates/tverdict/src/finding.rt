//! The agents that there are before the first step.

ghost use Rattle.std.specs.Prelude.{◌≡◌, ◌++◌, ◌↔◌, Contains, IfOk, IsTrue, OnOk, map};
ghost use Rattle.std.specs.List.{range_with_len};
ghost use Rattle.tverdict.specs.Opening.{AddsEnd, AreAgents, AreEnds, agents_from};
ghost use Rattle.tverdict.specs.declared.agent.Agent.TheVariants as kinds;

use crate::agent::Agent;
use std::alloc::{AllocError, Global};
use tcertify::Node;
use tnet::Wires;
use tplan::End;

/// Whether an agent is the wire to an end.
fn is_wire_to(agent: &Agent, end: End) -> bool
    ensures { IsTrue result ↔ (agent.now ≡ kinds.Wire end) }
{
    match agent {
        Agent::Wire(other) => other.node == end.node && other.link == end.link,
        Agent::Process { .. } | Agent::Channel { .. } | Agent::Successor { .. } => false,
    }
}

/// Whether the wire to an end is among agents.
fn has_wire_to(agents: &[Agent], end: End) -> bool
    ensures { IsTrue result ↔ Contains agents.now (kinds.Wire end) }
{
    agents.iter().any(|agent| is_wire_to(agent, end))
}

/// The wire to an end is found, once.
///
/// # Errors
/// Where the allocator refuses.
fn find_wire_to(agents: &mut Vec<Agent>, end: End) -> Result<(), AllocError>
    ensures { OnOk result (AddsEnd agents.old.items end agents.new.items) }
{
    if !has_wire_to(agents.as_slice(), end) {
        agents.push(Agent::Wire(end))?;
    }
    Ok(())
}

/// The wires in both directions.
///
/// # Errors
/// Where the allocator refuses.
fn found_wires(alloc: Global, wires: &Wires) -> Result<Vec<Agent>, AllocError>
    ensures { IfOk result (λ found. AreEnds wires.now found.items) }
{
    let mut agents = Vec::new(alloc);
    for wire in wires.as_slice() {
        find_wire_to(&mut agents, wire.a)?;
        find_wire_to(&mut agents, wire.b)?;
    }
    Ok(agents)
}

/// The processes of a node are found, which are as many as this.
///
/// # Errors
/// Where the allocator refuses, or there are too many.
fn find_processes(agents: &mut Vec<Agent>, node: u32, count: usize) -> Result<(), AllocError>
    ensures { OnOk result (agents.new.items
        ≡ agents.old.items ++ map (kinds.Process node) (range_with_len 0 count)) }
{
    let Ok(count) = u32::try_from(count) else {
        return Err(AllocError);
    };
    for process in 0..count {
        agents.push(Agent::Process { node, process })?;
    }
    Ok(())
}

/// The channels of a node are found, which are as many as this.
///
/// # Errors
/// Where the allocator refuses, or there are too many.
fn find_channels(agents: &mut Vec<Agent>, node: u32, count: usize) -> Result<(), AllocError>
    ensures { OnOk result (agents.new.items
        ≡ agents.old.items ++ map (kinds.Channel node) (range_with_len 0 count)) }
{
    let Ok(count) = u32::try_from(count) else {
        return Err(AllocError);
    };
    for channel in 0..count {
        agents.push(Agent::Channel { node, channel })?;
    }
    Ok(())
}

/// The processes and channels of these nodes are found.
///
/// # Errors
/// Where the allocator refuses, or there are too many.
fn find_at_nodes(agents: &mut Vec<Agent>, nodes: &[Node]) -> Result<(), AllocError>
    ensures { OnOk result (agents.new.items ≡ agents.old.items ++ agents_from 0 nodes.now) }
{
    for (number, node) in nodes.iter().enumerate() {
        let Ok(number) = u32::try_from(number) else {
            return Err(AllocError);
        };
        find_processes(agents, number, node.processes.items.len())?;
        find_channels(agents, number, node.channels.items.len())?;
    }
    Ok(())
}

/// All agents that there are: the wires, then the processes and channels of the nodes.
///
/// # Errors
/// Where the allocator refuses, or there are too many.
pub(crate) fn found_agents(
    alloc: Global,
    wires: &Wires,
    nodes: &[Node],
) -> Result<Vec<Agent>, AllocError>
    ensures { IfOk result (λ found. AreAgents wires.now nodes.now found.items) }
{
    let mut agents = found_wires(alloc, wires)?;
    find_at_nodes(&mut agents, nodes)?;
    Ok(agents)
}
