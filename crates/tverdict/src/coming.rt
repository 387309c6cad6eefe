//! Agents that come.

ghost use Rattle.std.specs.Prelude.{◌≡◌, ◌<◌, ◌↔◌, true, length, vec_len, IfOk, IfSome, IsTrue, OnOk};
ghost use Rattle.tclocks.specs.Checks.{KnowsAll};
ghost use Rattle.tcertify.specs.Finding.{IsFound};
ghost use Rattle.tverdict.specs.Agents.{HasEndedAt, IsEnded};
ghost use Rattle.tverdict.specs.Coming.{AddsAgent, Comes, HasClocks, HasComeIfLives, MayBeTaken, Meets};

use crate::agent::Agent;
use crate::lodging::is_ended;
use crate::machine::Machine;
use std::alloc::AllocError;
use tcertify::Node;

/// How many spare numbers are looked at.
const MOST_LOOKS: usize = 64;

/// No more steps may be done with a number that is taken again, so that its next agent can do many.
const MOST_STEPS: u32 = 1_073_741_824;

/// Whether a process of a node has ended.
#[inline(always)]
fn has_process_ended(nodes: &[Node], node: u32, process: u32) -> bool
    ensures { IsTrue result ↔ HasEndedAt nodes.now node process }
{
    let Some(at) = nodes.get(node as usize) else {
        return false;
    };
    match at.processes.items.get(process as usize) {
        Some(known) => is_ended(&known.stand),
        None => false,
    }
}

/// Whether an agent is a process that has ended.
#[inline(always)]
pub(crate) fn has_ended(nodes: &[Node], agent: Agent) -> bool
    ensures { IsTrue result ↔ IsEnded nodes.now agent }
{
    match agent {
        Agent::Process { node, process } => has_process_ended(nodes, node, process),
        Agent::Channel { .. } | Agent::Wire(_) | Agent::Successor { .. } => false,
    }
}

impl Machine {
    /// The number of an agent, if it was found before. Mostly one look is enough.
    #[inline(always)]
    fn find_agent(&self, agent: Agent) -> Option<usize>
        ensures { IsFound (λ a. a) agent self.now.agents.items result }
    {
        let hint = self.hints.of(agent) as usize;
        match self.agents.get(hint) {
            Some(there) if there.is_same(agent) => Some(hint),
            _ => self.seek_agent(agent),
        }
    }

    /// The number of an agent, if it was found before, by a look at all of them.
    fn seek_agent(&self, agent: Agent) -> Option<usize>
        ensures { IsFound (λ a. a) agent self.now.agents.items result }
    {
        for number in 0..self.agents.len() {
            if self.agents[number].is_same(agent) {
                return Some(number);
            }
        }
        None
    }

    /// One more agent, with a clock and a slot: its number.
    ///
    /// # Errors
    /// Where the allocator refuses, or the number would not fit.
    pub(crate) fn add_agent(&mut self, agent: Agent) -> Result<u32, AllocError>
        ensures { IfOk result (λ number. AddsAgent self.old agent number self.new) }
    {
        let Ok(number) = u32::try_from(self.agents.len()) else {
            return Err(AllocError);
        };
        self.check.add_agent()?;
        self.check.add_slot()?;
        self.agents.push(agent)?;
        self.candidates.push(number)?;
        self.hints.note(agent, number);
        Ok(number)
    }

    /// An agent that was not found before comes, unless it is a process that has ended.
    ///
    /// # Errors
    /// Those of `add_agent`.
    pub(crate) fn meet(&mut self, agent: Agent) -> Result<(), AllocError>
        ensures { OnOk result (Meets self.old agent self.new) }
    {
        if self.find_agent(agent).is_some() || has_ended(self.nodes.as_slice(), agent) {
            return Ok(());
        }
        let _number = self.add_agent(agent)?;
        Ok(())
    }

    /// Whether the clock of a number has counted all steps with another one, which are not too many.
    fn knows_all(&self, number: u32, other: u32) -> bool
        requires clock { number < length self.now.check.clocks }
        requires other { other < length self.now.check.clocks }
        ensures { result ≡ true → KnowsAll self.now.check number other }
    {
        let last = self.check.last_step(other);
        last.number < MOST_STEPS && self.check.has_counted(number, last)
    }

    /// Whether another number is that of a process that has ended, and the clock of this one has counted all steps
    /// with it.
    fn may_be_taken(&self, number: u32, other: u32) -> bool
        requires { HasClocks self.now number }
        ensures { result ≡ true → MayBeTaken self.now number other }
    {
        match self.agents.get(other as usize) {
            Some(holder) => other != number
                && has_ended(self.nodes.as_slice(), *holder)
                && self.knows_all(number, other),
            None => false,
        }
    }

    /// A number that may be taken, and a place among the spare ones. It looks at the last few of these.
    fn spare_number(&self, number: u32) -> Option<(usize, u32)>
        requires { HasClocks self.now number }
        ensures place { IfSome result (λ spare. spare.0 < vec_len self.now.spare) }
        ensures taken { IfSome result (λ spare. MayBeTaken self.now number spare.1) }
    {
        let count = self.spare.len();
        for back in 0..count.min(MOST_LOOKS) {
            let place = count - 1 - back;
            let other = self.spare[place];
            if self.may_be_taken(number, other) {
                return Some((place, other));
            }
        }
        None
    }

    /// The number of an agent that comes, since the last step leads to it, of the agent of this number: a spare one, if
    /// there is one that may be taken.
    ///
    /// # Errors
    /// Those of `add_agent`.
    fn come(&mut self, number: u32, agent: Agent) -> Result<u32, AllocError>
        requires { HasClocks self.old number }
        ensures { IfOk result (λ to. Comes self.old number agent to self.new) }
    {
        let Some((place, taken)) = self.spare_number(number) else {
            return self.add_agent(agent);
        };
        let _spare = self.spare.swap_remove(place);
        self.agents[taken as usize] = agent;
        self.check.clear(taken as usize);
        self.candidates.push(taken)?;
        self.hints.note(agent, taken);
        Ok(taken)
    }

    /// The number of an agent to which the last step leads, of the agent of this number. It comes if it was not found
    /// before, unless it is a process that has ended.
    ///
    /// # Errors
    /// Those of `come`.
    pub(crate) fn number_of(&mut self, number: u32, agent: Agent) -> Result<Option<u32>, AllocError>
        requires { HasClocks self.old number }
        ensures { IfOk result (λ to. HasComeIfLives self.old number agent to self.new) }
    {
        if let Some(found) = self.find_agent(agent) {
            let Ok(to) = u32::try_from(found) else {
                return Err(AllocError);
            };
            return Ok(Some(to));
        }
        if has_ended(self.nodes.as_slice(), agent) {
            return Ok(None);
        }
        Ok(Some(self.come(number, agent)?))
    }
}
