//! Workers that make many turns, in stages, each on a thread of its own.

ghost use Rattle.std.specs.Prelude.{◌≡◌, ◌<◌, ◌≤◌, ◌⊎◌, is_ok, length, map, max, replicate, IfErr, IfOk, Ok, Err};
ghost use Rattle.std.specs.Prelude.{false, true};
ghost use Rattle.std.specs.List.{list_all};
ghost use Rattle.std.specs.Thread.{IsSync};
ghost use Rattle.tfree.specs.Opened.{share_of};
ghost use Rattle.tfree.specs.Resting.{HaveMade, AreStaged};
ghost use Rattle.tfree.specs.Turning.{AreTurned, AreEachGoneOn, GoesOn, HoldsBetween, IsTurned, had_memory};
ghost use Rattle.tfree.specs.Turns.{IsTurn, IsClockFull};
ghost use Rattle.tfree.specs.declared.log.TurnFault.TheVariants.{ClockFull};

use crate::log::TurnFault;
use crate::resting::are_idle;
use crate::worker::Worker;
use std::alloc::{AllocError, Global};
use std::thread::{Threads, join_mut, yield_now};

/// How many turns the first stage has.
const FIRST_STAGE: u32 = 64;

/// How many turns a stage has at most.
const LONGEST_STAGE: u32 = 65_536;

/// A stage is made on threads where, in the stage before, the workers did this number of events for each of them. If
/// the calling thread makes the stage before, that stage ends as soon as they are done.
const EVENTS_WORTH_A_THREAD: usize = 16_000;

/// How many turns in a row find nothing to do, at least, before a worker on a thread leaves its stage.
const SHORTEST_WAIT: u32 = 64;

/// What part of a stage a worker on a thread waits for something to do before it leaves the stage.
const PART_TO_WAIT: u32 = 64;

/// The stage in which the next turns are made: each worker on a thread of its own, or all by the calling thread, one
/// turn of each after another.
#[derive(Clone, Copy)]
struct Pace {
    /// How many turns the stage has.
    stage: u32,
    /// How many of them are left.
    left: u32,
    /// Whether each worker makes them on a thread of its own.
    apart: bool,
    /// How many events the workers did in the stage.
    events: usize,
    ghost stages: { (0 < stage) × (stage ≤ 65536) × (0 < left) × (left ≤ stage) },
}

impl Pace {
    /// The calling thread makes the first turns.
    fn first() -> Self {
        Pace {
            stage: FIRST_STAGE,
            left: FIRST_STAGE,
            apart: false,
            events: 0,
        }
    }

    /// What `workers` workers make next, where `turns` turns are left to make. One alone waits for no other, and makes
    /// all turns that are left of the stage at once.
    fn task(self, turns: u32, slice: u32, workers: usize) -> Task
        requires { 0 < turns }
        ensures { (0 < result.turns) × (result.turns ≤ turns) × (result.slice ≡ slice) }
    {
        if !self.apart {
            return Task {
                turns: if workers == 1 {
                    self.left.min(turns)
                } else {
                    1
                },
                slice,
                patience: 1,
                apart: false,
            };
        }
        Task {
            turns: self.left.min(turns),
            slice,
            patience: if workers == 1 {
                1
            } else {
                SHORTEST_WAIT.max(self.stage / PART_TO_WAIT)
            },
            apart: true,
        }
    }

    /// What comes behind turns of `workers` workers: the rest of the stage, where the calling thread makes it; else a
    /// stage that is twice as long, on threads if they are worth it.
    fn next(self, stint: Stint, workers: usize) -> Self {
        let events = self.events.saturating_add(stint.events);
        let apart = events >= workers.saturating_mul(EVENTS_WORTH_A_THREAD);
        let made = stint.made.max(1);
        if !self.apart && !apart && self.left > made {
            return Pace {
                stage: self.stage,
                left: self.left - made,
                apart: false,
                events,
            };
        }
        let stage = LONGEST_STAGE.min(2 * self.stage);
        Pace {
            stage,
            left: stage,
            apart,
            events: 0,
        }
    }

    /// Whether none of the stage's turns are made yet.
    fn begins(self) -> bool {
        self.left == self.stage
    }
}

/// The turns that each worker makes next.
#[derive(Clone, Copy)]
struct Task {
    turns: u32,
    slice: u32,
    /// After how many turns in a row that find nothing to do the rest are left out.
    patience: u32,
    /// Whether each worker makes them on a thread of its own, where one can be started.
    apart: bool,
}

/// What some workers did of a task.
#[derive(Clone, Copy)]
struct Stint {
    /// How many turns the one made that made most. One that finds nothing to do does not count, and may be left out
    /// or made any number of times.
    made: u32,
    /// How many events they did.
    events: usize,
}

impl Stint {
    /// What these workers and others did.
    fn with(self, other: Stint) -> Self
        ensures { result.made ≡ max self.made other.made }
    {
        Stint {
            made: self.made.max(other.made),
            events: self.events.saturating_add(other.events),
        }
    }
}

/// How the turns of a worker ended: all were made, or one stopped for a fault.
pub(crate) type Ended = Result<(), TurnFault>;

impl Worker {
    /// A turn, and whether it found anything to do. It is the first that does, of at most `patience`: between two
    /// turns other threads go first.
    fn next_turn(&mut self, slice: u32, patience: u32) -> Result<bool, TurnFault>
        ensures same { self.new.share ≡ self.old.share }
        ensures turn { IsTurn self.old.share slice self.old.events (is_ok result) self.new.events }
        ensures nothing { result ≡ Ok false → self.new.events ≡ self.old.events }
        ensures full { result ≡ Err ClockFull → IsClockFull self.new }
    {
        for _wait in 1..patience {
            let turned = self.turn(slice)?;
            if turned.events > 0 {
                return Ok(true);
            }
            yield_now();
        }
        let last = self.turn(slice)?;
        Ok(last.events > 0)
    }

    /// The turns of a task, one after another, or until one stops for a fault. Those that find nothing to do do not
    /// count, and after `task.patience` of them in a row the rest are left out. How they ended, and how many counted.
    fn turns(&mut self, task: Task) -> (Ended, u32)
        ensures { HoldsBetween result.1 task.turns (λ n. IsTurned n task.slice self.old result.0 self.new) }
    {
        for made in 0..task.turns {
            match self.next_turn(task.slice, task.patience) {
                Ok(true) => {}
                Ok(false) => return (Ok(()), made),
                Err(fault) => return (Err(fault), made + 1),
            }
        }
        (Ok(()), task.turns)
    }

    /// Makes the turns of a task, unless it has stopped for a fault before.
    fn go_on(&mut self, ended: &mut Ended, task: Task) -> Stint
        ensures { HoldsBetween result.made task.turns
            (λ n. GoesOn n task.slice self.old ended.old ended.new self.new) }
    {
        let before = self.events();
        let made = if ended.is_ok() {
            let (ending, made) = self.turns(task);
            *ended = ending;
            made
        } else {
            0
        };
        Stint {
            made,
            events: self.events().saturating_sub(before),
        }
    }
}

/// The endings of `count` workers that have not stopped.
fn going(alloc: Global, count: usize) -> Result<Vec<Ended>, AllocError>
    ensures { IfOk result (λ endings. endings.items ≡ replicate count (Ok tt)) }
{
    let mut endings = Vec::with_capacity(alloc, count)?;
    for _worker in 0..count {
        endings.push(Ok(()))?;
    }
    Ok(endings)
}

/// Whether turns that ended so were refused memory. A full clock is no fault.
fn refusal(endings: &[Ended]) -> Result<(), AllocError>
    ensures { is_ok result ≡ list_all had_memory endings.now }
{
    for ended in endings {
        if *ended == Err(TurnFault::OutOfMemory) {
            return Err(AllocError);
        }
    }
    Ok(())
}

/// Each worker makes `turns` turns, or stops at a turn's fault, and its list is one that `turns` turns leave. The
/// turns are made in stages, of 64 turns, then 128, and so on up to 65,536. In the first the calling thread makes them,
/// one of each worker after another, and so in each that comes behind one in which the workers did fewer than 16,000
/// events each, taken together; such a stage ends where they have done that many. In any other each worker is on a
/// thread of its own where one can be started, else on that of another worker; with one worker no thread is started.
/// There a turn that finds nothing to do does not count, so that a worker that waits for another does not use up its
/// turns; one that waits for long leaves the stage. Behind a stage, and behind the first turn of each in which none
/// found anything, with all workers in hand, the calling thread looks whether anything is left to do: where nothing
/// is, the turns that are left would add nothing, and are left out. Workers that may still get a packet from one that
/// is not among them make all their turns.
///
/// # Errors
/// A worker was refused memory in a turn, or there was none before the first turn. A full clock ends the turns of
/// its worker and is no fault.
pub fn turn_all<R: Threads + Sync>(
    rt: &R,
    alloc: Global,
    workers: &mut [Worker],
    turns: u32,
    slice: u32,
) -> Result<(), AllocError>
    ensures turned { IfOk result (λ _. AreTurned turns slice workers.old true workers.new) }
    ensures made { IfOk result (λ _. HaveMade turns slice workers.old workers.new) }
    ensures refused { IfErr result (λ _. (workers.new ≡ workers.old)
        ⊎ AreTurned turns slice workers.old false workers.new) }
    ensures same { map share_of workers.new ≡ map share_of workers.old }
{
    let mut endings = going(alloc, workers.len())?;
    turn_in_stages(rt, workers, endings.as_mut_slice(), turns, slice);
    refusal(endings.as_slice())
}

/// Workers of which none has stopped make `turns` turns, in stages, or fewer where they come to rest.
fn turn_in_stages<R: Threads + Sync>(
    rt: &R,
    workers: &mut [Worker],
    endings: &mut [Ended],
    turns: u32,
    slice: u32,
)
    requires { endings.old ≡ replicate (length workers.old) (Ok tt) }
    ensures { AreStaged turns slice workers.old endings.new workers.new }
{
    let mut made = 0;
    let mut pace = Pace::first();
    let mut found = true;
    while made < turns {
        let task = pace.task(turns - made, slice, workers.len());
        let stint = turn_some(rt, task, workers, endings);
        made += stint.made.max(1);
        pace = pace.next(stint, workers.len());
        let found_before = found;
        found = stint.events > 0;
        let looks = pace.begins() || (found_before && !found);
        if looks && are_idle(workers, endings) {
            return;
        }
        if !found {
            yield_now();
        }
    }
}

/// Some workers make turns more, except for those that have stopped, on threads or one after another. They are halved
/// down to one worker.
#[cycle(turning)]
fn turn_some<R: Threads + Sync>(
    rt: &R,
    task: Task,
    workers: &mut [Worker],
    endings: &mut [Ended],
) -> Stint
    requires { length endings.old ≡ length workers.old }
    ensures { HoldsBetween result.made task.turns
        (λ n. AreEachGoneOn n task.slice workers.old endings.old endings.new workers.new) }
{
    if workers.is_empty() {
        return Stint { made: 0, events: 0 };
    }
    if workers.len() == 1 {
        return workers[0].go_on(&mut endings[0], task);
    }
    let half = workers.len() / 2;
    let (front, back) = workers.split_at_mut(half);
    let (first, second) = endings.split_at_mut(half);
    turn_both(rt, task, front, first, back, second)
}

/// The halves of some workers, side by side or one after the other.
#[cycle(turning)]
fn turn_both<R: Threads + Sync>(
    rt: &R,
    task: Task,
    front: &mut [Worker],
    first: &mut [Ended],
    back: &mut [Worker],
    second: &mut [Ended],
) -> Stint
    requires some { 0 < length front.old }
    requires more { 0 < length back.old }
    requires first { length first.old ≡ length front.old }
    requires second { length second.old ≡ length back.old }
    ensures front { HoldsBetween result.made task.turns
        (λ n. AreEachGoneOn n task.slice front.old first.old first.new front.new) }
    ensures back { HoldsBetween result.made task.turns
        (λ n. AreEachGoneOn n task.slice back.old second.old second.new back.new) }
{
    if !task.apart {
        let one = turn_some(rt, task, front, first);
        let other = turn_some(rt, task, back, second);
        return one.with(other);
    }
    let mut one = || -> Stint
        requires sync { IsSync R.row }
        requires alike { length first.now ≡ length front.now }
        ensures { HoldsBetween result.made task.turns
            (λ n. AreEachGoneOn n task.slice front.entry.now first.entry.now first.exit.now front.exit.now) }
    { turn_some(rt, task, front, first) };
    let mut other = || -> Stint
        requires sync { IsSync R.row }
        requires alike { length second.now ≡ length back.now }
        ensures { HoldsBetween result.made task.turns
            (λ n. AreEachGoneOn n task.slice back.entry.now second.entry.now second.exit.now back.exit.now) }
    { turn_some(rt, task, back, second) };
    let (one, other) = join_mut(rt, &mut one, &mut other);
    one.with(other)
}
