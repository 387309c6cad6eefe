//! The berths of nodes, which their processes take by turns.

ghost use Rattle.std.specs.Prelude.{◌≡◌, ◌<◌, ◌∷◌, ◌↔◌, [], ℕ, true, false, IfNone, IfOk, IfSome, IsTrue, OnOk};
ghost use Rattle.std.specs.Prelude.{length};
ghost use Rattle.tprocesses.specs.Standing.{is_absent};
ghost use Rattle.tcertify.specs.Standing.{stand_of};
ghost use Rattle.tcertify.specs.declared.standing.Stand.TheVariants as stands;
ghost use Rattle.tfollow.specs.Lodging.{HasCountedIfAny};
ghost use Rattle.tverdict.specs.Lodging as spec;
ghost use Rattle.tverdict.specs.Lodging.{AreFirstLodgings, HasEnded, HasHomes, IsFirst, IsHomeOf, IsKnown, IsPresent};
ghost use Rattle.tverdict.specs.Lodging.{Leaves, Lodges, LodgesAt, Takes};

use crate::agent::Agent;
use crate::machine::Machine;
use std::alloc::{AllocError, Global};
use tcertify::{Node, Stand};
use tclocks::RaceCheck;
use tfollow::Berth;
use tword::limits::MOST_PROCESSES;

/// The berths of a node.
#[derive(Drop)]
pub struct Lodging {
    pub berths: Vec<Berth>,
    /// The berth of each process of the node, by its number.
    pub homes: Vec<u32>,
    /// A process has come for which no berth was known to be free, or has ended without one that was known to be its
    /// own. From then on nothing is known of the berths.
    pub is_crowded: bool,
}

/// Whether a process that stands there has ended.
#[inline(always)]
pub(crate) fn is_ended(stand: &Stand) -> bool
    ensures { IsTrue result ↔ (stand.now ≡ stands.Ended) }
{
    match stand {
        Stand::Ended => true,
        Stand::Absent
        | Stand::Rests(_)
        | Stand::Runs(_)
        | Stand::Waits(_)
        | Stand::Chooses(_)
        | Stand::Chosen(_)
        | Stand::Listens { .. } => false,
    }
}

/// The number of a process of a node, if it is this agent and has ended.
#[inline(always)]
fn ended(node: &Node, agent: Agent) -> Option<u32>
    ensures some { IfSome result (λ process. HasEnded node.now agent process) }
    ensures none { IfNone result ((process : ℕ) → HasEnded node.now agent process → ⊥) }
{
    let Agent::Process { node: at, process } = agent else {
        return None;
    };
    let known = node.processes.items.get(process as usize)?;
    if at == node.words.number && is_ended(&known.stand) {
        return Some(process);
    }
    None
}

/// Whether a process that stands there is absent.
fn is_absent(stand: &Stand) -> bool
    ensures { result ≡ is_absent (stand_of stand.now) }
{
    match stand {
        Stand::Absent => true,
        Stand::Rests(_)
        | Stand::Runs(_)
        | Stand::Waits(_)
        | Stand::Chooses(_)
        | Stand::Chosen(_)
        | Stand::Listens { .. }
        | Stand::Ended => false,
    }
}

/// Whether a node has a process of this number, which is not absent.
fn is_present(node: &Node, process: usize) -> bool
    ensures { result ≡ true → IsPresent node.now process }
{
    match node.processes.items.get(process) {
        Some(known) => !is_absent(&known.stand),
        None => false,
    }
}

/// Whether a berth is free, or is taken, and the clock of an agent has counted the last step that took or left it.
fn is_known(check: &RaceCheck, number: u32, is_free: bool, berth: Berth) -> bool
    requires { number < length check.now.clocks }
    ensures free { result ≡ true → berth.is_free ≡ is_free }
    ensures counted { result ≡ true → HasCountedIfAny check.now number berth.last }
{
    if berth.is_free != is_free {
        return false;
    }
    match berth.last {
        Some(step) => check.has_counted(number, step),
        None => true,
    }
}

/// A berth that the last step of an agent takes or leaves.
fn moved(check: &RaceCheck, number: u32, is_free: bool) -> Berth
    requires { number < length check.now.clocks }
    ensures { result ≡ spec.moved_berth check.now number is_free }
{
    Berth {
        is_free,
        last: Some(check.last_step(number)),
    }
}

/// As many berths as processes may live at a node at the same time, the first `count` of them taken.
///
/// # Errors
/// Where the allocator refuses.
fn first_berths(alloc: Global, count: usize) -> Result<Vec<Berth>, AllocError>
    ensures { IfOk result (λ berths. berths.items ≡ spec.first_berths count) }
{
    let mut berths = Vec::with_capacity(alloc, MOST_PROCESSES)?;
    for place in 0..MOST_PROCESSES {
        berths.push(Berth {
            is_free: count <= place,
            last: None,
        })?;
    }
    Ok(berths)
}

impl Lodging {
    /// The lodging of a node before the first step.
    ///
    /// # Errors
    /// Where the allocator refuses.
    fn first(alloc: Global, node: &Node) -> Result<Lodging, AllocError>
        ensures { IfOk result (λ lodging. IsFirst node.now lodging) }
    {
        let count = node.population as usize;
        let berths = first_berths(alloc, count)?;
        let mut homes = Vec::new(alloc);
        for home in 0..node.population {
            homes.push(home)?;
        }
        let is_crowded = MOST_PROCESSES < count || node.processes.items.len() != count;
        Ok(Lodging {
            berths,
            homes,
            is_crowded,
        })
    }

    /// Whether each process that a node has ever had has a berth, and it knows no others.
    #[inline(always)]
    fn has_homes(&self, node: &Node) -> bool
        ensures { IsTrue result ↔ HasHomes node.now self.now }
    {
        let homes = self.homes.len();
        node.population as usize == homes && node.processes.items.len() == homes
    }

    /// The first berth that is known to be free.
    fn free_berth(&self, check: &RaceCheck, number: u32) -> Option<usize>
        requires { number < length check.now.clocks }
        ensures { IfSome result (λ place. IsKnown check.now number true self.now place) }
    {
        for place in 0..self.berths.len() {
            if is_known(check, number, true, self.berths[place]) {
                return Some(place);
            }
        }
        None
    }

    /// The berth of a process, if it is known to be taken.
    fn home_of(&self, check: &RaceCheck, number: u32, process: u32) -> Option<usize>
        requires { number < length check.now.clocks }
        ensures { IfSome result (λ place. IsHomeOf check.now number process self.now place) }
    {
        let place = *self.homes.get(process as usize)? as usize;
        let berth = *self.berths.get(place)?;
        is_known(check, number, false, berth).then_some(place)
    }

    /// The process that has come takes the first berth that is known to be free.
    ///
    /// # Errors
    /// Where the allocator refuses, or the number of the berth would not fit.
    #[inline(never)]
    fn take(&mut self, check: &RaceCheck, number: u32, node: &Node) -> Result<(), AllocError>
        requires { number < length check.now.clocks }
        ensures { OnOk result (self.new.is_crowded ≡ false → Takes check.now number node.now self.old self.new) }
    {
        let comer = self.homes.len();
        let Some(place) = self.free_berth(check, number) else {
            self.is_crowded = true;
            return Ok(());
        };
        let Ok(home) = u32::try_from(place) else {
            return Err(AllocError);
        };
        self.berths[place] = moved(check, number, false);
        self.homes.push(home)?;
        self.is_crowded = !(is_present(node, comer) && self.has_homes(node));
        Ok(())
    }

    /// A process that has ended leaves its berth.
    #[inline(never)]
    fn leave(&mut self, check: &RaceCheck, number: u32, process: u32)
        requires { number < length check.now.clocks }
        ensures { self.new.is_crowded ≡ false → Leaves check.now number process self.old self.new }
    {
        match self.home_of(check, number, process) {
            Some(place) => self.berths[place] = moved(check, number, true),
            None => self.is_crowded = true,
        }
    }

    /// The berths of a node follow a step of an agent that was done there and told.
    ///
    /// # Errors
    /// Those of `take`.
    #[inline(always)]
    fn follow(
        &mut self,
        check: &RaceCheck,
        number: u32,
        node: &Node,
        agent: Agent,
    ) -> Result<(), AllocError>
        requires { number < length check.now.clocks }
        ensures { OnOk result (Lodges check.now number node.now agent self.old self.new) }
    {
        if self.is_crowded {
            return Ok(());
        }
        if !self.has_homes(node) {
            return self.take(check, number, node);
        }
        if let Some(process) = ended(node, agent) {
            self.leave(check, number, process);
        }
        Ok(())
    }
}

/// The lodgings of nodes before the first step.
///
/// # Errors
/// Where the allocator refuses.
pub(crate) fn first_lodgings(alloc: Global, nodes: &[Node]) -> Result<Vec<Lodging>, AllocError>
    ensures { IfOk result (λ lodgings. AreFirstLodgings nodes.now lodgings.items) }
{
    let mut lodgings = Vec::with_capacity(alloc, nodes.len())?;
    for node in nodes {
        lodgings.push(Lodging::first(alloc, node)?)?;
    }
    Ok(lodgings)
}

impl Machine {
    /// The berths of a node follow the last step, of the agent of this number, which was told.
    ///
    /// # Errors
    /// Where the allocator refuses, or a number would not fit.
    #[inline(always)]
    pub(crate) fn lodge(&mut self, number: u32, node: u32) -> Result<(), AllocError>
        requires clock { number < length self.old.check.clocks }
        requires agent { number < length self.old.agents.items }
        ensures { OnOk result (LodgesAt number (node ∷ []) self.old self.new) }
    {
        let agent = self.agents[number as usize];
        let at = node as usize;
        if at < self.nodes.len() && at < self.lodgings.len() {
            self.lodgings[at].follow(&self.check, number, &self.nodes[at], agent)?;
        }
        Ok(())
    }

    /// The same for a step at two nodes, sources or sinks, which may be one.
    ///
    /// # Errors
    /// Those of `lodge`.
    pub(crate) fn lodge_both(&mut self, number: u32, one: u32, other: u32) -> Result<(), AllocError>
        requires clock { number < length self.old.check.clocks }
        requires agent { number < length self.old.agents.items }
        ensures { OnOk result (LodgesAt number (one ∷ other ∷ []) self.old self.new) }
    {
        self.lodge(number, one)?;
        if other != one {
            self.lodge(number, other)?;
        }
        Ok(())
    }
}
