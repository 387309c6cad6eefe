//! Where to look first for an agent.

use crate::agent::Agent;
use std::alloc::{AllocError, Global};

/// How many hints there are.
const HINTS: usize = 65_536;

/// The numbers that agents may have. It is only a hint, which whoever takes it has to check: two agents may share one.
#[derive(Drop)]
pub struct AgentHints {
    numbers: Vec<u32>,
    noted: u64,
}

impl AgentHints {
    /// Hints for the agents of a list.
    ///
    /// # Errors
    /// Where the allocator refuses.
    pub(crate) fn of_list(alloc: Global, agents: &[Agent]) -> Result<AgentHints, AllocError> {
        let mut hints = AgentHints {
            numbers: vec![in alloc; 0; HINTS]?,
            noted: 0,
        };
        for (number, agent) in agents.iter().enumerate() {
            if let Ok(number) = u32::try_from(number) {
                hints.note(*agent, number);
            }
        }
        Ok(hints)
    }

    /// The number that an agent may have.
    #[inline(always)]
    pub(crate) fn of(&self, agent: Agent) -> u32 {
        match self.numbers.get(place_of(agent)) {
            Some(number) => *number,
            None => 0,
        }
    }

    /// How many agents have come, unless there were more than can be counted.
    #[inline(always)]
    pub(crate) fn noted(&self) -> u64 {
        self.noted
    }

    /// Notes the number of an agent.
    pub(crate) fn note(&mut self, agent: Agent, number: u32) {
        self.noted = self.noted.wrapping_add(1);
        if let Some(hint) = self.numbers.get_mut(place_of(agent)) {
            *hint = number;
        }
    }
}

/// Where the hint for an agent stands.
#[inline(always)]
fn place_of(agent: Agent) -> usize {
    let (node, number) = match agent {
        Agent::Process { node, process } => (node, process.wrapping_mul(4)),
        Agent::Channel { node, channel } => (node, channel.wrapping_mul(4).wrapping_add(1)),
        Agent::Wire(end) => (end.node, end.link.wrapping_mul(4).wrapping_add(2)),
        Agent::Successor { node, word } => (node, word.wrapping_mul(4).wrapping_add(3)),
    };
    node.wrapping_mul(0x9E37_79B1).wrapping_add(number) as usize % HINTS
}
