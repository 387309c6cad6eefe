//! One step of the run after another.

ghost use Rattle.std.specs.Prelude.{ℕ, ◌≡◌, ◌≤◌, IfOk, OnOk};
ghost use Rattle.tverdict.specs.Machines.{Follows};
ghost use Rattle.tverdict.specs.Still.{HasTurned};
ghost use Rattle.tverdict.specs.Turns.{IsTurned};
ghost use Rattle.tverdict.specs.Verdicts.{IsTold};
ghost use Rattle.tverdict.specs.declared.verdict.Verdict.TheVariants as verdicts;

use crate::halt::Halt;
use crate::machine::Machine;
use crate::verdict::{Race, Refusal, Verdict};
use std::alloc::{AllocError, Global};
use tcertify::Stop;
use tplan::Plan;

/// What a turn has done.
#[derive(Clone, Copy)]
pub enum Turn {
    /// The agent of this number has made its step.
    Made(u32),
    /// No agent has a step.
    Over,
    /// The step of the agent of this number stops.
    Stops { agent: u32, why: Stop },
    /// The step that was made has a race with an earlier one.
    Race(Race),
}

impl Machine {
    /// The next step of the run is made, if there is one. An agent goes on until it waits: it is the last candidate.
    ///
    /// # Errors
    /// Where the allocator refuses, or a number does not fit. Then nothing is told of the machine.
    #[inline(always)]
    pub fn turn(&mut self, alloc: Global, plan: &Plan) -> Result<Turn, AllocError>
        requires { Follows plan.now self.old }
        ensures { IfOk result (λ turn. IsTurned plan.now self.old turn self.new) }
    {
        let Some(agent) = self.next_agent(plan)? else {
            return Ok(Turn::Over);
        };
        match self.step(alloc, plan, agent) {
            Ok(()) => {
                self.candidates.push(agent)?;
                Ok(Turn::Made(agent))
            }
            Err(Halt::Stops(why)) => Ok(Turn::Stops { agent, why }),
            Err(Halt::Race(race)) => Ok(Turn::Race(race)),
            Err(Halt::OutOfMemory) => Err(AllocError),
        }
    }

    /// The same, and its agent goes on at its node, as long as permitted. Where an agent has come it does not: the node
    /// may be too full then.
    ///
    /// # Errors
    /// Those of `turn`.
    #[inline(always)]
    fn turns(&mut self, alloc: Global, plan: &Plan, most_steps: u64) -> Result<Turn, AllocError>
        requires { Follows plan.now self.old }
        ensures { IfOk result (λ turn. HasTurned plan.now self.old turn self.new) }
    {
        let noted = self.hints.noted();
        match self.turn(alloc, plan)? {
            Turn::Made(number) if noted == self.hints.noted() => {
                self.go_further(alloc, number, most_steps)
            }
            other => Ok(other),
        }
    }

    /// The verdict where as many steps as permitted are done.
    fn at_limit(&mut self, plan: &Plan) -> Result<Verdict, AllocError>
        requires { Follows plan.now self.old }
        ensures told { IfOk result (λ verdict. (most : ℕ) → most ≤ self.old.done
            → IsTold plan.now most self.new verdict) }
        ensures follows { OnOk result (Follows plan.now self.new) }
    {
        let Some(agent) = self.next_agent(plan)? else {
            return Ok(self.ending());
        };
        self.candidates.push(agent)?;
        Ok(Verdict::Cut)
    }

    /// Goes on with the run, until no agent has a step, a step stops or has a race, a node is too full, or as many
    /// steps as permitted are done in all and an agent has one more. Where it was cut it goes on with the same run, if
    /// it is called again.
    ///
    /// # Errors
    /// Those of `turn`.
    pub fn certify(
        &mut self,
        alloc: Global,
        plan: &Plan,
        most_steps: u64,
    ) -> Result<Verdict, AllocError>
        requires { Follows plan.now self.old }
        ensures told { IfOk result (λ verdict. IsTold plan.now most_steps self.new verdict) }
        ensures follows { IfOk result (λ verdict. verdict ≡ verdicts.Certified → Follows plan.now self.new) }
    {
        let mut noted = self.hints.noted();
        while self.done < most_steps {
            match self.turns(alloc, plan, most_steps)? {
                Turn::Made(_) => {
                    if noted != self.hints.noted() {
                        noted = self.hints.noted();
                        if let Some(refusal) = self.crowding() {
                            return Ok(Verdict::Refused(refusal));
                        }
                    }
                }
                Turn::Over => return Ok(self.ending()),
                Turn::Stops { agent, why } => {
                    return Ok(Verdict::Refused(Refusal::Stops { agent, why }));
                }
                Turn::Race(race) => return Ok(Verdict::Race(race)),
            }
        }
        self.at_limit(plan)
    }
}
