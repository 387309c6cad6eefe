//! How many steps of each agent are known.

ghost use Rattle.std.specs.Prelude.{◌≡◌, ◌+◌, ◌<◌, ◌≤◌, [], length, replicate, slice_index, IfNone, IfOk, IfSome};
ghost use Rattle.std.specs.Prelude.{OnErr, OnOk, ◌-◌, ◌++◌};
ghost use Rattle.tclocks.specs.Clocks.{joined, raised, raised_by};

use std::alloc::{AllocError, Global};
use std::marker::Model;

/// How many steps of each agent are known, by the agent's number; of the agents behind the last one, none.
#[derive(Drop)]
pub struct Clock {
    counts: Vec<u32>,
}

impl Model for Clock {
    ghost use Rattle.std.specs.Prelude.{List, ℕ};

    ghost Value = { List ℕ };

    ghost view = { λ c. c.counts.items };
}

impl Clock {
    /// No step is known.
    pub fn new(alloc: Global) -> Clock
        ensures { result ≡ [] }
    {
        Clock {
            counts: Vec::new(alloc),
        }
    }

    /// No step is known, and there is room for the counts of `agents` agents.
    pub fn zeros(alloc: Global, agents: usize) -> Result<Clock, AllocError>
        ensures { IfOk result (λ clock. clock ≡ replicate agents 0) }
    {
        Ok(Clock {
            counts: vec![in alloc; 0; agents]?,
        })
    }

    /// How many steps of an agent are known.
    #[inline]
    pub fn count(&self, agent: u32) -> u32
        ensures { result ≡ slice_index self.now agent }
    {
        match self.counts.get(agent as usize) {
            Some(count) => *count,
            None => 0,
        }
    }

    /// One more step is known of an agent that has a count: its number, or nothing where the count has no room.
    #[inline]
    pub fn raise(&mut self, agent: u32) -> Option<u32>
        requires { agent < length self.old }
        ensures number { IfSome result (λ number. number ≡ slice_index self.old agent + 1) }
        ensures raised { IfSome result (λ _. self.new ≡ raised self.old agent) }
        ensures limit { IfNone result (slice_index self.old agent ≡ u32.MAX) }
        ensures none { IfNone result (self.new ≡ self.old) }
    {
        let count = &mut self.counts[agent as usize];
        if *count == u32::MAX {
            return None;
        }
        *count += 1;
        Some(*count)
    }

    /// So many more steps are known of an agent that has a count: how many in all, or nothing where the count has no
    /// room.
    #[inline]
    pub fn raise_by(&mut self, agent: u32, steps: u32) -> Option<u32>
        requires { agent < length self.old }
        ensures number { IfSome result (λ number. number ≡ slice_index self.old agent + steps) }
        ensures raised { IfSome result (λ _. self.new ≡ raised_by self.old agent steps) }
        ensures limit { IfNone result (u32.MAX < slice_index self.old agent + steps) }
        ensures none { IfNone result (self.new ≡ self.old) }
    {
        let count = &mut self.counts[agent as usize];
        *count = count.checked_add(steps)?;
        Some(*count)
    }

    /// What another clock knows is known too. Mostly it is empty.
    #[inline(always)]
    pub fn join(&mut self, other: &Clock) -> Result<(), AllocError>
        ensures ok { OnOk result (self.new ≡ joined self.old other.now) }
        ensures err { OnErr result (self.new ≡ self.old) }
        ensures longer { length self.old ≤ length self.new }
    {
        if other.counts.as_slice().is_empty() {
            return Ok(());
        }
        self.join_counts(other)
    }

    /// What another clock knows is known too.
    #[inline(never)]
    fn join_counts(&mut self, other: &Clock) -> Result<(), AllocError>
        ensures ok { OnOk result (self.new ≡ joined self.old other.now) }
        ensures err { OnErr result (self.new ≡ self.old) }
        ensures longer { length self.old ≤ length self.new }
    {
        widen(&mut self.counts, other.counts.len())?;
        raise_each(self.counts.as_mut_slice(), other.counts.as_slice());
        Ok(())
    }

    /// What another clock knows is known, and nothing else.
    pub fn copy_from(&mut self, other: &Clock) -> Result<(), AllocError>
        ensures ok { OnOk result (self.new ≡ other.now) }
        ensures err { OnErr result (self.new ≡ self.old) }
    {
        self.counts.resize(other.counts.len(), 0)?;
        self.counts
            .as_mut_slice()
            .copy_from_slice(other.counts.as_slice());
        Ok(())
    }

    /// Nothing is known any more.
    #[inline(always)]
    pub fn clear(&mut self)
        ensures { self.new ≡ [] }
    {
        self.counts.clear();
    }
}

/// Adds zeros until there are at least `agents` counts.
fn widen(counts: &mut Vec<u32>, agents: usize) -> Result<(), AllocError>
    ensures ok { OnOk result (counts.new.items ≡ counts.old.items ++ replicate (agents - length counts.old.items) 0) }
    ensures err { OnErr result (counts.new.items ≡ counts.old.items) }
{
    if counts.len() < agents {
        counts.resize(agents, 0)?;
    }
    Ok(())
}

/// Each of the first counts becomes that of the other clock, if that is greater.
fn raise_each(counts: &mut [u32], others: &[u32])
    requires { length others.now ≤ length counts.old }
    ensures { counts.new ≡ joined counts.old others.now }
{
    for (place, other) in others.iter().enumerate() {
        counts[place] = counts[place].max(*other);
    }
}
