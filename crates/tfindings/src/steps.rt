//! Who made a step that is told, and where, by a run that is made again.

ghost use Rattle.std.specs.Prelude.{◌≡◌, ◌+◌, true, IfOk, IfSome, Some, if◌then◌else◌};
ghost use Rattle.tverdict.specs.Machines.{IsAtStart};
ghost use Rattle.tfindings.specs.Steps as spec;
ghost use Rattle.tfindings.specs.Steps.{AreEarlier, IsCounted, IsMadeBy};

use crate::finding::{Code, Made};
use std::alloc::{AllocError, Global};
use tcertify::{Node, Stand, decode};
use tplan::Plan;
use tverdict::{Agent, Machine, Turn};
use tword::Word;

/// The address of the instruction that a process does next, if it runs.
fn stood_at(stand: &Stand) -> Option<Word>
    ensures { result ≡ spec.stood_at stand.now }
{
    match stand {
        Stand::Runs(context) => Some(context.iptr),
        Stand::Absent
        | Stand::Rests(_)
        | Stand::Waits(_)
        | Stand::Chooses(_)
        | Stand::Chosen(_)
        | Stand::Listens { .. }
        | Stand::Ended => None,
    }
}

/// The address at which a process of a node stands, if there is the process.
fn process_at(nodes: &[Node], node: u32, process: u32) -> Option<Word>
    ensures { result ≡ spec.process_at nodes.now node process }
{
    let node = nodes.get(node as usize)?;
    let process = node.processes.items.as_slice().get(process as usize)?;
    stood_at(&process.stand)
}

/// The address at which an agent stands, if it is a process.
fn stands_at(nodes: &[Node], agent: Agent) -> Option<Word>
    ensures { result ≡ spec.stands_at nodes.now agent }
{
    match agent {
        Agent::Process { node, process } => process_at(nodes, node, process),
        Agent::Channel { .. } | Agent::Wire(_) | Agent::Successor { .. } => None,
    }
}

/// The address at which an agent stands, if there is one and it is a process.
fn address_of(machine: &Machine, agent: Option<Agent>) -> Option<Word>
    ensures { result ≡ spec.address_of machine.now.nodes.items agent }
{
    stands_at(machine.nodes.as_slice(), agent?)
}

/// The agent that has a number, if there is one.
fn holder(machine: &Machine, number: u32) -> Option<Agent>
    ensures { result ≡ spec.holder machine.now number }
{
    let agent = machine.agents.as_slice().get(number as usize)?;
    Some(*agent)
}

/// Whether these are the same agent, or both are none.
fn are_same(one: Option<Agent>, other: Option<Agent>) -> bool
    ensures yes { result ≡ true → one ≡ other }
    ensures no { one ≡ other → result ≡ true }
{
    match (one, other) {
        (Some(one), Some(other)) => one.is_same(other),
        (None, None) => true,
        _ => false,
    }
}

/// Whether an agent of a machine has this number.
pub(crate) fn has_number(machine: &Machine, agent: Agent, number: u32) -> bool
    ensures yes { result ≡ true → spec.holder machine.now number ≡ Some agent }
    ensures no { spec.holder machine.now number ≡ Some agent → result ≡ true }
{
    are_same(holder(machine, number), Some(agent))
}

/// What is fetched at an address of a node, if there is the node.
fn code_of(nodes: &mut [Node], node: u32, address: Word) -> Option<Code>
    ensures { IfSome result (λ code. code.address ≡ address) }
{
    let node = nodes.get_mut(node as usize)?;
    Some(Code {
        address,
        fetched: decode(&mut node.words, address),
    })
}

/// The code of a step of an agent that stood at this address before it.
fn code_at(machine: &mut Machine, agent: Agent, address: Option<Word>) -> Option<Code>
    ensures { IfSome result (λ code. address ≡ Some code.address) }
{
    let address = address?;
    match agent {
        Agent::Process { node, .. } => code_of(machine.nodes.as_mut_slice(), node, address),
        Agent::Channel { .. } | Agent::Wire(_) | Agent::Successor { .. } => None,
    }
}

/// The agent that has a number after a turn, unless another one had it before.
fn maker(before: Option<Agent>, after: Option<Agent>) -> Option<Agent>
    ensures after { IfSome result (λ agent. after ≡ Some agent) }
    ensures before { IfSome result (λ agent. IfSome before (λ other. other ≡ agent)) }
{
    let agent = after?;
    let Some(other) = before else {
        return Some(agent);
    };
    if other.is_same(agent) {
        Some(agent)
    } else {
        None
    }
}

/// How many steps with a number were made before its agent came to have it, where `count` were made with it before the
/// last turn, and so many before the agent of that time came to have it.
fn earlier_steps(before: Option<Agent>, after: Option<Agent>, count: u32, earlier: u32) -> u32
    ensures { AreEarlier before after count earlier result }
{
    if are_same(before, after) {
        earlier
    } else {
        count
    }
}

/// Whether a turn is, or would be, a step of the agent of this number.
fn is_by(turn: &Turn, number: u32) -> bool
    ensures { result ≡ spec.is_by turn.now number }
{
    match turn {
        Turn::Made(agent) => *agent == number,
        Turn::Over => false,
        Turn::Stops { agent, .. } => *agent == number,
        Turn::Race(race) => race.step.agent == number,
    }
}

/// How many steps are those of agents that had this number, after a turn behind `count` of them.
///
/// # Errors
/// Where the number would not fit.
fn count_on(turn: &Turn, number: u32, count: u32) -> Result<u32, AllocError>
    ensures { IfOk result (λ now. now ≡ (if spec.is_by turn.now number then count + 1 else count)) }
{
    if is_by(turn, number) {
        count.checked_add(1).ok_or(AllocError)
    } else {
        Ok(count)
    }
}

/// Whether a run goes on after a turn.
fn goes_on(turn: &Turn) -> bool
    ensures { result ≡ spec.goes_on turn.now }
{
    match turn {
        Turn::Made(_) => true,
        Turn::Over | Turn::Stops { .. } | Turn::Race(_) => false,
    }
}

/// Whether a step stops at a turn.
fn stops(turn: &Turn) -> bool
    ensures { result ≡ spec.stops turn.now }
{
    match turn {
        Turn::Stops { .. } => true,
        Turn::Made(_) | Turn::Over | Turn::Race(_) => false,
    }
}

/// Whether the step of a turn is counted so among those with its number, or, if no count is named, stops.
fn is_counted(turn: &Turn, count: u32, which: Option<u32>) -> bool
    ensures { result ≡ true → IsCounted which count turn.now }
{
    match which {
        Some(wanted) => wanted == count,
        None => stops(turn),
    }
}

/// Whether a turn is the step that is told of the agent of this number.
fn is_told(turn: &Turn, number: u32, count: u32, which: Option<u32>) -> bool
    ensures by { result ≡ true → spec.is_by turn.now number ≡ true }
    ensures counted { result ≡ true → IsCounted which count turn.now }
{
    is_by(turn, number) && is_counted(turn, count, which)
}

/// The step that is counted so among those with a number, or, if no count is named, the one that stops. The run is made
/// again up to this step, to see who makes it, and where its agent stood before it.
///
/// # Errors
/// Where the allocator refuses, a number would not fit, or the run that is made again has no such step.
pub(crate) fn made_by(
    alloc: Global,
    plan: &Plan,
    number: u32,
    which: Option<u32>,
) -> Result<Made, AllocError>
    ensures { IfOk result (λ made. IsMadeBy plan.now number which made) }
{
    match Machine::open(alloc, plan) {
        Ok(mut machine) => made_on(alloc, plan, &mut machine, number, which),
        Err(_) => Err(AllocError),
    }
}

/// The same on a machine that has made no step.
fn made_on(
    alloc: Global,
    plan: &Plan,
    machine: &mut Machine,
    number: u32,
    which: Option<u32>,
) -> Result<Made, AllocError>
    requires { IsAtStart plan.now machine.old }
    ensures { IfOk result (λ made. IsMadeBy plan.now number which made) }
{
    let mut count = 0_u32;
    let mut earlier = 0_u32;
    for _ in 0..u64::MAX {
        let before = holder(machine, number);
        let address = address_of(machine, before);
        let turn = machine.turn(alloc, plan)?;
        let after = holder(machine, number);
        earlier = earlier_steps(before, after, count, earlier);
        count = count_on(&turn, number, count)?;
        if is_told(&turn, number, count, which) {
            let Some(agent) = maker(before, after) else {
                return Err(AllocError);
            };
            let code = code_at(machine, agent, address);
            return Ok(Made {
                agent,
                number: count.saturating_sub(earlier),
                code,
            });
        }
        if !goes_on(&turn) {
            return Err(AllocError);
        }
    }
    Err(AllocError)
}
