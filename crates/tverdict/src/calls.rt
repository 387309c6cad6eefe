//! Steps as calls on one node. Nothing is noted before one, unless its agent goes on from the last step.

ghost use Rattle.std.specs.Prelude.{◌<◌, ◌≤◌, ◌↔◌, false, length, IfSome, IsTrue};
ghost use Rattle.tprocesses.specs.ChannelMessages.{channel_step};
ghost use Rattle.tprocesses.specs.Scheduling.{successor_step};
ghost use Rattle.tcertify.specs.Nodes.{address_at, name_at, node_site};
ghost use Rattle.tcertify.specs.Steps.{step_of_process};
ghost use Rattle.tverdict.specs.Calls.{DoesAfresh, IsAfresh, Recalls};
ghost use Rattle.tverdict.specs.Still.{AreStill, EndsWith, GoesOnAt, IsSettled, StaysStill};

use crate::finishing::Counts;
use crate::idle::Idle;
use std::alloc::Global;
use tcertify::{Fault, Node, Stand};
use tword::Kind;

/// What the steps of a process that goes on have come to.
#[derive(Clone, Copy)]
pub(crate) struct Steps {
    /// How many touched nothing new, led to nobody, and let the process go on.
    pub still: u32,
    /// What the step behind them answered, if there was one.
    pub last: Option<Result<(), Fault>>,
}

/// Nothing is noted at a node any more, and the next place that comes there has this number.
#[inline(always)]
pub(crate) fn begin(node: &mut Node, fresh_place: u32)
    ensures afresh { IsAfresh node.old node.new }
    ensures recalls { Recalls false node.old node.new }
{
    node.fresh_place = fresh_place;
    node.begin_step();
}

/// The same, but what is noted may stay as that of earlier steps where the agent goes on, if the last step of the node
/// led nowhere.
#[inline(always)]
fn begin_or_go_on(node: &mut Node, fresh_place: u32, goes_on: bool)
    ensures afresh { IsAfresh node.old node.new }
    ensures recalls { Recalls goes_on node.old node.new }
{
    if !goes_on {
        begin(node, fresh_place);
        return;
    }
    node.fresh_place = fresh_place;
    node.go_on();
}

/// The step of a process. goes_on: whether it has made the last step, at this node.
///
/// # Errors
/// Those of `Node::process_step`.
#[inline(always)]
pub(crate) fn do_process(
    node: &mut Node,
    alloc: Global,
    idle: &mut Idle,
    fresh_place: u32,
    process: u32,
    goes_on: bool,
) -> Result<(), Fault>
    requires { process < length node.old.processes.items.items }
    ensures { DoesAfresh goes_on (step_of_process (node_site node.old) (name_at node.old process)) node.old result
        node.new }
{
    begin_or_go_on(node, fresh_place, goes_on);
    match node.words.kind {
        Kind::One => node.process_step(alloc, &mut idle.one, process),
        Kind::Two => node.process_step(alloc, &mut idle.two, process),
    }
}

/// The step of a channel.
///
/// # Errors
/// Those of `Node::channel_step`.
pub(crate) fn do_channel(node: &mut Node, fresh_place: u32, channel: u32) -> Result<(), Fault>
    requires { channel < length node.old.channels.items.items }
    ensures { DoesAfresh false (channel_step (address_at node.old channel) (node_site node.old)) node.old result
        node.new }
{
    begin(node, fresh_place);
    node.channel_step(channel)
}

/// The step of a successor.
///
/// # Errors
/// Those of `Node::successor_step`.
pub(crate) fn do_successor(
    node: &mut Node,
    alloc: Global,
    fresh_place: u32,
    word: u32,
) -> Result<(), Fault>
    requires { word < length node.old.words.items.items }
    ensures { DoesAfresh false (successor_step word (node_site node.old)) node.old result node.new }
{
    begin(node, fresh_place);
    node.successor_step(alloc, word)
}

/// Whether the process of this number goes on by a step of its own node.
#[inline(always)]
pub(crate) fn goes_on(node: &Node, process: u32) -> bool
    requires { process < length node.now.processes.items.items }
    ensures { IsTrue result ↔ GoesOnAt node.now process }
{
    match node.processes.items[process as usize].stand {
        Stand::Runs(_) | Stand::Rests(_) => true,
        Stand::Absent
        | Stand::Waits(_)
        | Stand::Chooses(_)
        | Stand::Chosen(_)
        | Stand::Listens { .. }
        | Stand::Ended => false,
    }
}

/// The next steps of a process that made the last step, at this node, up to one that touches something new or leads on,
/// and at most so many.
pub(crate) fn do_steps(
    node: &mut Node,
    alloc: Global,
    idle: &mut Idle,
    fresh_place: u32,
    process: u32,
    most: u32,
) -> Steps
    requires { process < length node.old.processes.items.items }
    ensures steps { (mid : Node) × AreStill result.still process node.old mid × EndsWith process result.last mid
        node.new }
    ensures few { result.still ≤ most }
    ensures fewer { IfSome result.last (λ _. result.still < most) }
{
    if !goes_on(node, process) {
        return Steps {
            still: 0,
            last: None,
        };
    }
    let mut still = 0;
    while still < most {
        let before = Counts::of(node);
        let population = node.population;
        let outcome = do_process(node, alloc, idle, fresh_place, process, true);
        if outcome.is_err() || !is_still(node, process, before, population) {
            return Steps {
                still,
                last: Some(outcome),
            };
        }
        still += 1;
        still += do_quiet_steps(node, process, most - still);
    }
    Steps { still, last: None }
}

/// The next steps of a process that runs, as long as they are of the commonest instructions and touch nothing new, and
/// at most so many: how many were made. Nothing was noted in the last step of the node.
#[inline(always)]
fn do_quiet_steps(node: &mut Node, process: u32, most: u32) -> u32
    requires there { process < length node.old.processes.items.items }
    requires settled { IsSettled node.old }
    ensures still { AreStill result process node.old node.new }
    ensures few { result ≤ most }
    ensures goes { GoesOnAt node.old process → GoesOnAt node.new process }
{
    for done in 0..most {
        if !node.quiet_step(process) {
            return done;
        }
    }
    most
}

/// Whether nothing was noted in the last step of a node and it leads to nobody, nobody has come since the node had so
/// many processes and channels and this population, and the process goes on.
#[inline(always)]
fn is_still(node: &Node, process: u32, before: Counts, population: u32) -> bool
    requires { process < before.processes }
    ensures { IsTrue result ↔ StaysStill process before.processes before.channels population node.now }
{
    let notes = &node.words.notes;
    notes.earlier == notes.items.len()
        && !notes.is_lost
        && node.leads.is_empty()
        && node.processes.items.len() == before.processes
        && node.channels.items.len() == before.channels
        && node.population == population
        && goes_on(node, process)
}
