//! The check of a run, in one pass.

ghost use Rattle.std.specs.Prelude.{◌≡◌, ◌<◌, ◌++◌, [], length, replicate, All, IfErr, IfNone, IfSome, OnErr, OnOk};
ghost use Rattle.std.specs.Prelude.{◌↔◌, ◌+◌, IsTrue, OnSome};
ghost use Rattle.tclocks.specs.Checks.{accesses_at, begun, begun_times, clock_of, next_step, nothing_checked, steps_of};
ghost use Rattle.tclocks.specs.Checks.{with_added, with_agent, with_cleared, with_handed, with_joined, with_places};
ghost use Rattle.tclocks.specs.Checks.{last_step, with_slot, HasCounted, IsAccessed};
ghost use Rattle.tclocks.specs.Refusals.{IsDue};

use crate::clock::Clock;
use crate::mode::Mode;
use crate::places::Places;
use crate::refusal::Refusal;
use crate::step::Step;
use std::alloc::{AllocError, Global};
use std::marker::Model;

/// The check that no step of a run races with an earlier one.
///
/// Agents, slots and places have numbers, in the order in which they are added. A step begins, joins the clocks in the
/// slots that were written by the steps that lead to it, and tells its accesses. Where it leads to steps of others, its
/// agent's clock is handed on in a slot.
#[derive(Drop)]
pub struct RaceCheck {
    alloc: Global,
    clocks: Vec<Clock>,
    slots: Vec<Clock>,
    places: Places,
}

impl Model for RaceCheck {
    ghost use Rattle.tclocks.specs.Checks.{Check, CountThemselves};

    ghost Value = { Check };

    ghost view = { λ c. record { clocks = c.clocks.items; slots = c.slots.items; places = c.places } };

    ghost invariant = { λ c. CountThemselves c.clocks.items };
}

impl RaceCheck {
    /// A check of nothing.
    pub fn new(alloc: Global) -> RaceCheck
        ensures { result ≡ nothing_checked }
    {
        RaceCheck {
            alloc,
            clocks: Vec::new(alloc),
            slots: Vec::new(alloc),
            places: Places::new(alloc),
        }
    }

    /// How many agents there are.
    pub fn agents(&self) -> usize
        ensures { result ≡ length self.now.clocks }
    {
        self.clocks.len()
    }

    /// How many slots there are.
    pub fn slots(&self) -> usize
        ensures { result ≡ length self.now.slots }
    {
        self.slots.len()
    }

    /// How many places there are.
    pub fn places(&self) -> usize
        ensures { result ≡ length self.now.places }
    {
        self.places.len()
    }

    /// Whether an agent's clock has counted a step.
    pub fn has_counted(&self, agent: u32, step: Step) -> bool
        requires { agent < length self.now.clocks }
        ensures { IsTrue result ↔ HasCounted self.now agent step }
    {
        step.number <= self.clocks[agent as usize].count(step.agent)
    }

    /// The last step that an agent has begun, with number 0 if it has begun none.
    pub fn last_step(&self, agent: u32) -> Step
        requires { agent < length self.now.clocks }
        ensures { result ≡ last_step self.now agent }
    {
        let number = self.clocks[agent as usize].count(agent);
        Step { agent, number }
    }

    /// One more agent.
    pub fn add_agent(&mut self) -> Result<(), AllocError>
        ensures ok { OnOk result (self.new ≡ with_agent self.old) }
        ensures err { OnErr result (self.new ≡ self.old) }
    {
        let clock = Clock::zeros(self.alloc, self.clocks.len() + 1)?;
        self.clocks.push(clock)?;
        Ok(())
    }

    /// One more slot, with an empty clock.
    pub fn add_slot(&mut self) -> Result<(), AllocError>
        ensures ok { OnOk result (self.new ≡ with_slot self.old) }
        ensures err { OnErr result (self.new ≡ self.old) }
    {
        self.slots.push(Clock::new(self.alloc))?;
        Ok(())
    }

    /// Adds `count` places.
    pub fn add_places(&mut self, count: usize) -> Result<(), AllocError>
        ensures ok { OnOk result (self.new ≡ with_places count self.old) }
        ensures err { OnErr result (self.new ≡ self.old) }
    {
        self.places.add(count)
    }

    /// The next step of an agent begins; nothing, where the agent has done as many steps as a check can count.
    #[inline(always)]
    pub fn begin(&mut self, agent: u32) -> Option<Step>
        requires { agent < length self.old.clocks }
        ensures step { IfSome result (λ step. step ≡ next_step self.old agent) }
        ensures begun { OnSome result (self.new ≡ begun agent self.old) }
        ensures limit { IfNone result (steps_of self.old agent ≡ u32.MAX) }
        ensures none { IfNone result (self.new ≡ self.old) }
    {
        let number = self.clocks[agent as usize].raise(agent)?;
        Some(Step { agent, number })
    }

    /// The next `count` steps of an agent begin, and the last one that it has begun is told; nothing, where the agent
    /// would have done more steps than a check can count.
    #[inline(always)]
    pub fn begin_many(&mut self, agent: u32, count: u32) -> Option<Step>
        requires { agent < length self.old.clocks }
        ensures step { IfSome result (λ step. step ≡ last_step self.new agent) }
        ensures begun { OnSome result (self.new ≡ begun_times count agent self.old) }
        ensures limit { IfNone result (u32.MAX < steps_of self.old agent + count) }
        ensures none { IfNone result (self.new ≡ self.old) }
    {
        let number = self.clocks[agent as usize].raise_by(agent, count)?;
        Some(Step { agent, number })
    }

    /// An agent knows what the clock in a slot knows, since steps that lead to its own one wrote it.
    #[inline(always)]
    pub fn join(&mut self, agent: u32, slot: usize) -> Result<(), AllocError>
        requires agent { agent < length self.old.clocks }
        requires slot { slot < length self.old.slots }
        ensures ok { OnOk result (self.new ≡ with_joined agent slot self.old) }
        ensures err { OnErr result (self.new ≡ self.old) }
    {
        self.clocks[agent as usize].join(&self.slots[slot])
    }

    /// An access of a step to a place is noted, if it races with none that is kept.
    ///
    /// # Errors
    /// `Race` with the first kept access that it races with; `OutOfMemory` where the allocator refuses.
    #[inline(always)]
    pub fn access(&mut self, step: Step, place: usize, mode: Mode) -> Result<(), Refusal>
        requires counted { 0 < step.number }
        requires agent { step.agent < length self.old.clocks }
        requires place { place < length self.old.places }
        ensures ok { OnOk result (IsAccessed step (record { place = place; mode = mode }) self.old self.new) }
        ensures refused { IfErr result
            (IsDue step.agent (clock_of self.old step.agent) mode (accesses_at self.old place)) }
        ensures err { OnErr result (self.new ≡ self.old) }
    {
        let clock = &self.clocks[step.agent as usize];
        self.places.access(self.alloc, clock, place, step, mode)
    }

    /// An agent's clock is handed on in a slot, in the place of the clock there.
    pub fn hand_on(&mut self, agent: u32, slot: usize) -> Result<(), AllocError>
        requires agent { agent < length self.old.clocks }
        requires slot { slot < length self.old.slots }
        ensures ok { OnOk result (self.new ≡ with_handed agent slot self.old) }
        ensures err { OnErr result (self.new ≡ self.old) }
    {
        self.slots[slot].copy_from(&self.clocks[agent as usize])
    }

    /// An agent's clock is handed on in a slot, joined with the clock there.
    pub fn add_to(&mut self, agent: u32, slot: usize) -> Result<(), AllocError>
        requires agent { agent < length self.old.clocks }
        requires slot { slot < length self.old.slots }
        ensures ok { OnOk result (self.new ≡ with_added agent slot self.old) }
        ensures err { OnErr result (self.new ≡ self.old) }
    {
        self.slots[slot].join(&self.clocks[agent as usize])
    }

    /// The clock in a slot is empty again.
    #[inline(always)]
    pub fn clear(&mut self, slot: usize)
        requires { slot < length self.old.slots }
        ensures { self.new ≡ with_cleared slot self.old }
    {
        self.slots[slot].clear();
    }
}
