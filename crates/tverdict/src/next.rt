//! Which agent makes the next step.

ghost use Rattle.std.specs.Prelude.{ℕ, ◌≡◌, [], position, All, IfNone, IfOk, IfSome, OnOk};
ghost use Rattle.tplan.specs.declared.plan.Plan.{Plan};
ghost use Rattle.tverdict.specs.Machines.{Follows, HasStep, IsSound};
ghost use Rattle.tverdict.specs.Next as spec;
ghost use Rattle.tverdict.specs.Next.{AreThoseWithSteps, AwaitNothing, IsLookedAt, IsLookedOver, IsNext};
ghost use Rattle.tverdict.specs.Next.{IsReadySuccessor};

use crate::agent::Agent;
use crate::looks::awaits;
use crate::machine::Machine;
use std::alloc::AllocError;
use tcertify::{Node, StoredWord};
use tplan::Plan;

/// The number of the first word at which a successor waits that has a step.
fn first_awaited(words: &[StoredWord]) -> Option<usize>
    ensures { result ≡ position spec.awaits words.now }
{
    words.iter().position(|word| awaits(word.used))
}

/// A successor that has a step, if there is one. It looks at all words.
fn ready_successor(nodes: &[Node]) -> Option<Agent>
    ensures found { IfSome result (λ agent. IsReadySuccessor nodes.now agent) }
    ensures none { IfNone result (All AwaitNothing nodes.now) }
{
    for node in nodes {
        if let Some(word) = first_awaited(node.words.items.as_slice()) {
            return Some(Agent::Successor {
                node: node.words.number,
                word: word as u32,
            });
        }
    }
    None
}

impl Machine {
    /// The last candidate that has a step is taken out, with all behind it; all are, if none has one.
    #[inline(always)]
    fn take_candidate(&mut self, plan: &Plan) -> Option<u32>
        requires { IsSound plan.now self.old }
        ensures sound { IsSound plan.now self.new }
        ensures looked { IsLookedAt self.old self.new }
        ensures some { IfSome result (λ number. HasStep plan.now self.new number) }
        ensures none { IfNone result (self.new.candidates.items ≡ []) }
    {
        while let Some(number) = self.candidates.pop() {
            if self.is_open(plan, number) {
                return Some(number);
            }
        }
        None
    }

    /// All agents that have a step become candidates.
    ///
    /// # Errors
    /// Where the allocator refuses, or the numbers of agents do not fit.
    #[inline(never)]
    fn find_candidates(&mut self, plan: &Plan) -> Result<(), AllocError>
        requires sound { IsSound plan.now self.old }
        requires nobody { self.old.candidates.items ≡ [] }
        ensures sound { IsSound plan.now self.new }
        ensures looked { IsLookedAt self.old self.new }
        ensures ok { OnOk result (AreThoseWithSteps plan.now self.new) }
    {
        let Ok(count) = u32::try_from(self.agents.len()) else {
            return Err(AllocError);
        };
        for number in 0..count {
            if self.is_open(plan, number) {
                self.candidates.push(number)?;
            }
        }
        Ok(())
    }

    /// The number of a successor that has a step, where no agent in the list has one. It is added to the list: its
    /// word was spoilt by a step that has not looked at it.
    ///
    /// # Errors
    /// Those of `add_agent`. Then nothing is told of the machine.
    #[inline(never)]
    fn find_successor(&mut self) -> Result<Option<u32>, AllocError>
        ensures found { IfOk result (λ next. (plan : Plan) → Follows plan self.old
            → ((number : ℕ) → HasStep plan self.old number → ⊥)
            → Follows plan self.new × IsNext plan self.new next) }
        ensures looked { OnOk result (IsLookedOver self.old self.new) }
    {
        match ready_successor(self.nodes.as_slice()) {
            Some(successor) => Ok(Some(self.add_agent(successor)?)),
            None => Ok(None),
        }
    }

    /// The number of an agent that has a step; nothing, if no agent at all has one.
    ///
    /// It takes one look at the last candidate, mostly. Once there are no candidates left, it looks at all agents, and
    /// if none has a step at all words; whoever has a step is a candidate then.
    ///
    /// # Errors
    /// Where the allocator refuses, or the numbers of agents do not fit. Then nothing is told of the machine.
    #[inline(always)]
    pub fn next_agent(&mut self, plan: &Plan) -> Result<Option<u32>, AllocError>
        requires { Follows plan.now self.old }
        ensures follows { OnOk result (Follows plan.now self.new) }
        ensures next { IfOk result (λ next. IsNext plan.now self.new next) }
        ensures looked { OnOk result (IsLookedOver self.old self.new) }
    {
        if let Some(number) = self.take_candidate(plan) {
            return Ok(Some(number));
        }
        self.find_candidates(plan)?;
        if let Some(number) = self.candidates.pop() {
            return Ok(Some(number));
        }
        self.find_successor()
    }
}
