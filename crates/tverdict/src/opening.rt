//! The whole machine before the first step.

ghost use Rattle.std.specs.Prelude.{◌≡◌, ◌+◌, ◌≤◌, ◌^◌, IfOk, IfSome, MatchResult, None, OnOk, length};
ghost use Rattle.std.specs.List.{range_with_len};
ghost use Rattle.tword.specs.Accesses.{IsMemorySize};
ghost use Rattle.tplan.specs.Wires.{all_wires};
ghost use Rattle.tnet.specs.Building.{fault_of, IsFaultOf};
ghost use Rattle.tcertify.specs.NodeOpened.{HaveOwnWorkspaces, IsOpen};
ghost use Rattle.tverdict.specs.Machines.{IsAtStart};
ghost use Rattle.tverdict.specs.Opening.{AllMayHaveSteps, AreAgents, AreEmpty, AreOpen, AreScriptPlaces};
ghost use Rattle.tverdict.specs.Opening.{CanOpen, HasPlacesInOrder};
ghost use Rattle.tverdict.specs.Opening.{fresh_after};
ghost use Rattle.tverdict.specs.Opening as spec;

use crate::agent::Agent;
use crate::finding::found_agents;
use crate::hints::AgentHints;
use crate::idle::Idle;
use crate::lodging::first_lodgings;
use crate::machine::Machine;
use crate::planned::planned_wires;
use std::alloc::{AllocError, Global};
use tcertify::{Fault, Node, Sink};
use tclocks::RaceCheck;
use tnet::Wires;
use tplan::{BuildFault, NodePlan, Plan, SinkPlan};

/// The lowest number that no place of these nodes has, if those of each come after those of the node before.
fn next_place(nodes: &[Node]) -> u32
    ensures { result ≡ fresh_after nodes.now }
{
    match nodes.last() {
        Some(node) => node.fresh_place,
        None => 0,
    }
}

/// A node of a plan before the first step, with its number in the plan and the number of its first place.
///
/// # Errors
/// Where the allocator refuses, or the numbers of the places would not fit.
fn opened_node(
    alloc: Global,
    plan: &NodePlan,
    number: u32,
    first_place: u32,
) -> Result<Node, AllocError>
    requires size { IsMemorySize plan.now.kind plan.now.memory }
    requires own { HaveOwnWorkspaces plan.now.image.processes }
    ensures { IfOk result (IsOpen plan.now number first_place) }
{
    match Node::open(alloc, plan, number, first_place) {
        Ok(node) => Ok(node),
        Err(Fault::OutOfMemory) => Err(AllocError),
        Err(Fault::Stops(_)) => unreachable!(),
    }
}

/// The nodes of a plan before the first step.
///
/// # Errors
/// Where the allocator refuses, or the numbers of the places would not fit.
fn opened_nodes(alloc: Global, plans: &[NodePlan]) -> Result<Vec<Node>, AllocError>
    requires { CanOpen plans.now }
    ensures { IfOk result (λ nodes. AreOpen plans.now nodes.items) }
{
    let mut nodes = Vec::with_capacity(alloc, plans.len())?;
    for (number, plan) in plans.iter().enumerate() {
        let first_place = next_place(nodes.as_slice());
        let node = opened_node(alloc, plan, number as u32, first_place)?;
        nodes.push(node)?;
    }
    Ok(nodes)
}

/// The sinks of a plan before the first step, with the number of the place of the first of them.
///
/// # Errors
/// Where the allocator refuses.
fn empty_sinks(alloc: Global, plans: &[SinkPlan], first_place: u32) -> Result<Vec<Sink>, AllocError>
    requires { first_place + length plans.now ≤ 2 ^ 32 }
    ensures { IfOk result (λ sinks. AreEmpty plans.now first_place sinks.items) }
{
    let mut sinks = Vec::with_capacity(alloc, plans.len())?;
    for (number, plan) in plans.iter().enumerate() {
        sinks.push(Sink {
            messages: Vec::new(alloc),
            room: plan.capacity as usize,
            place: first_place + number as u32,
        })?;
    }
    Ok(sinks)
}

/// A check of `places` places and `agents` agents, before the first step.
///
/// # Errors
/// Where the allocator refuses.
fn first_check(alloc: Global, places: u32, agents: usize) -> Result<RaceCheck, AllocError>
    ensures { IfOk result (λ check. check ≡ spec.first_check places agents) }
{
    let mut check = RaceCheck::new(alloc);
    check.add_places(places as usize)?;
    for _agent in 0..agents {
        check.add_agent()?;
        check.add_slot()?;
    }
    Ok(check)
}

/// The numbers of all agents.
///
/// # Errors
/// Where the allocator refuses, or there are too many.
fn all_numbers(alloc: Global, agents: usize) -> Result<Vec<u32>, AllocError>
    ensures { IfOk result (λ numbers. numbers.items ≡ range_with_len 0 agents) }
{
    let Ok(count) = u32::try_from(agents) else {
        return Err(AllocError);
    };
    let mut numbers = Vec::with_capacity(alloc, agents)?;
    for number in 0..count {
        numbers.push(number)?;
    }
    Ok(numbers)
}

/// The agents that there are before the first step, and what is kept of them.
#[derive(Drop)]
struct CheckedAgents {
    agents: Vec<Agent>,
    hints: AgentHints,
    check: RaceCheck,
    candidates: Vec<u32>,
}

/// All agents that there are before the first step, with a check of them and of `places` places. Each may have a step.
///
/// # Errors
/// Where the allocator refuses, or there are too many.
fn checked_agents(
    alloc: Global,
    wires: &Wires,
    nodes: &[Node],
    places: u32,
) -> Result<CheckedAgents, AllocError>
    ensures agents { IfOk result (λ found. AreAgents wires.now nodes.now found.agents.items) }
    ensures check { IfOk result (λ found. found.check ≡ spec.first_check places (length found.agents.items)) }
    ensures candidates { IfOk result
        (λ found. found.candidates.items ≡ range_with_len 0 (length found.agents.items)) }
{
    let agents = found_agents(alloc, wires, nodes)?;
    let hints = AgentHints::of_list(alloc, agents.as_slice())?;
    let candidates = all_numbers(alloc, agents.len())?;
    let check = first_check(alloc, places, agents.len())?;
    Ok(CheckedAgents {
        agents,
        hints,
        check,
        candidates,
    })
}

/// The number that comes `count` places behind another, if it fits.
fn place_behind(place: u32, count: usize) -> Option<u32>
    ensures { IfSome result (λ behind. behind ≡ place + count) }
{
    place.checked_add(u32::try_from(count).ok()?)
}

/// The numbers of the first place of a sink, and of the first place of none, where sources and sinks have theirs from
/// this one and the number of their node on; nothing, where they would not fit.
fn script_places(plan: &Plan, first_script: u32) -> Option<(u32, u32)>
    ensures { IfSome result (AreScriptPlaces plan.now first_script) }
{
    let first_source = place_behind(first_script, plan.nodes.as_slice().len())?;
    let first_sink = place_behind(first_source, plan.sources.as_slice().len())?;
    let fresh_place = place_behind(first_sink, plan.sinks.as_slice().len())?;
    Some((first_sink, fresh_place))
}

impl Machine {
    /// The machine of a plan with these wires and nodes before the first step.
    ///
    /// # Errors
    /// Where the allocator refuses, or the numbers of the places would not fit.
    fn with_nodes(
        alloc: Global,
        plan: &Plan,
        wires: Wires,
        nodes: Vec<Node>,
    ) -> Result<Machine, AllocError>
        requires wires { wires ≡ all_wires plan.now }
        requires nodes { AreOpen plan.now.nodes nodes.items }
        ensures start { IfOk result (IsAtStart plan.now) }
        ensures places { IfOk result (HasPlacesInOrder plan.now) }
        ensures candidates { IfOk result AllMayHaveSteps }
    {
        let first_script = next_place(nodes.as_slice());
        let Some((first_sink, fresh_place)) = script_places(plan, first_script) else {
            return Err(AllocError);
        };
        let idle = Idle::new(alloc)?;
        let sent = vec![in alloc; 0; plan.sources.as_slice().len()]?;
        let sinks = empty_sinks(alloc, plan.sinks.as_slice(), first_sink)?;
        let lodgings = first_lodgings(alloc, nodes.as_slice())?;
        let found = checked_agents(alloc, &wires, nodes.as_slice(), fresh_place)?;
        Ok(Machine {
            nodes,
            sent,
            sinks,
            wires,
            agents: found.agents,
            spare: Vec::new(alloc),
            hints: found.hints,
            check: found.check,
            lodgings,
            candidates: found.candidates,
            first_script,
            fresh_place,
            done: 0,
            last: None,
            idle,
        })
    }

    /// The process machine of a plan before the first step. Each agent may have a step.
    ///
    /// # Errors
    /// The lowest fault of the plan, with its first place; `OutOfMemory` where the allocator refuses, or the numbers of
    /// the places would not fit.
    pub fn open(alloc: Global, plan: &Plan) -> Result<Machine, BuildFault>
        ensures start { MatchResult result (IsAtStart plan.now) (IsFaultOf (fault_of plan.now)) }
        ensures planned { OnOk result (fault_of plan.now ≡ None) }
        ensures places { IfOk result (HasPlacesInOrder plan.now) }
        ensures candidates { IfOk result AllMayHaveSteps }
    {
        let wires = planned_wires(alloc, plan)?;
        let nodes = opened_nodes(alloc, plan.nodes.as_slice())?;
        Ok(Machine::with_nodes(alloc, plan, wires, nodes)?)
    }
}
