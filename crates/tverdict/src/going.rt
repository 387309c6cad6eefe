//! The steps of a process that goes on, in one call.

ghost use Rattle.std.specs.Prelude.{◌≡◌, ◌<◌, ℕ, IfOk, OnOk, length};
ghost use Rattle.tplan.specs.declared.plan.Plan.{Plan};
ghost use Rattle.tverdict.specs.Machines.{Follows};
ghost use Rattle.tverdict.specs.Next.{IsLookedAt};
ghost use Rattle.tverdict.specs.Still.{CountsStill, HasGone, still_checked};

use crate::agent::Agent;
use crate::calls::do_steps;
use crate::finishing::Counts;
use crate::halt::Halt;
use crate::machine::Machine;
use crate::turn::Turn;
use std::alloc::{AllocError, Global};
use tclocks::RaceCheck;

/// So many steps of the agent of this number are told to the check, without an access. Behind the first one nothing is
/// in the agent's slot.
///
/// # Errors
/// Where the allocator refuses, or the agent has done as many steps as a check can count.
fn tell_still(check: &mut RaceCheck, number: u32, count: u32) -> Result<(), AllocError>
    requires agent { number < length check.old.clocks }
    requires slot { number < length check.old.slots }
    ensures { OnOk result (check.new ≡ still_checked count number check.old) }
{
    if count == 0 {
        return Ok(());
    }
    let Some(_) = check.begin(number) else {
        return Err(AllocError);
    };
    check.join(number, number as usize)?;
    check.clear(number as usize);
    let Some(_) = check.begin_many(number, count - 1) else {
        return Err(AllocError);
    };
    Ok(())
}

impl Machine {
    /// So many steps of the agent of this number are told to the check, without an access, and counted.
    ///
    /// # Errors
    /// Those of `tell_still`; where the number of steps would not fit.
    fn count_still(&mut self, number: u32, count: u32) -> Result<(), AllocError>
        requires agent { number < length self.old.check.clocks }
        requires slot { number < length self.old.check.slots }
        ensures { OnOk result (CountsStill self.old number count self.new) }
    {
        let Some(done) = self.done.checked_add(u64::from(count)) else {
            return Err(AllocError);
        };
        tell_still(&mut self.check, number, count)?;
        self.done = done;
        Ok(())
    }

    /// Whether the agent of this number is the last candidate.
    #[inline(always)]
    fn is_next(&self, number: u32) -> bool {
        match self.candidates.last() {
            Some(last) => *last == number,
            None => false,
        }
    }

    /// The agent of this number is no candidate any more, if it was the last one.
    fn steps_aside(&mut self, number: u32)
        ensures looked { IsLookedAt self.old self.new }
        ensures follows { (plan : Plan) → Follows plan self.old → Follows plan self.new }
    {
        if self.is_next(number) {
            let _last = self.candidates.pop();
        }
    }

    /// The agent of this number is the last candidate.
    ///
    /// # Errors
    /// Where the allocator refuses.
    fn comes_next(&mut self, number: u32) -> Result<(), AllocError>
        requires { number < length self.old.agents.items }
        ensures looked { OnOk result (IsLookedAt self.old self.new) }
        ensures follows { OnOk result ((plan : Plan) → Follows plan self.old → Follows plan self.new) }
    {
        self.candidates.push(number)?;
        Ok(())
    }

    /// The process that made the last step, if it was the agent of this number, goes on at its node, until a step
    /// touches something new or leads to somebody, or as many steps as permitted are done in all.
    ///
    /// # Errors
    /// Those of `turn`.
    pub(crate) fn go_further(
        &mut self,
        alloc: Global,
        number: u32,
        most_steps: u64,
    ) -> Result<Turn, AllocError>
        requires { (plan : Plan) × Follows plan self.old }
        ensures { IfOk result (λ turn. (plan : Plan) → Follows plan self.old → HasGone plan self.old turn self.new) }
    {
        let Some(Agent::Process { node, process }) = self.agents.get(number as usize).copied()
        else {
            return Ok(Turn::Made(number));
        };
        if !self.was_last(number, node) {
            return Ok(Turn::Made(number));
        }
        self.steps_aside(number);
        let left = most_steps.saturating_sub(self.done);
        let most = u32::try_from(left).unwrap_or(u32::MAX);
        let fresh_place = self.fresh_place;
        let at = &mut self.nodes[node as usize];
        let counts = Counts::of(at);
        let steps = do_steps(at, alloc, &mut self.idle, fresh_place, process, most);
        self.count_still(number, steps.still)?;
        let Some(outcome) = steps.last else {
            self.comes_next(number)?;
            return Ok(Turn::Made(number));
        };
        match self.end_call(number, node, counts, outcome) {
            Ok(()) => {
                self.comes_next(number)?;
                Ok(Turn::Made(number))
            }
            Err(Halt::Stops(why)) => Ok(Turn::Stops { agent: number, why }),
            Err(Halt::Race(race)) => Ok(Turn::Race(race)),
            Err(Halt::OutOfMemory) => Err(AllocError),
        }
    }
}
