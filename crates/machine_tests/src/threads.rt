//! Free workers on threads: three that make turns, and some in calls of `turn_all`.

ghost use Rattle.std.specs.Prelude.{◌≡◌, ◌∷◌, [], IfSome, map};
ghost use Rattle.std.specs.Thread.{IsSync};
ghost use Rattle.tfree.specs.Opened.{share_of, ComeFromOneOpen};

use crate::workers::SLICE;
use std::alloc::{AllocError, Global};
use std::snapshot::Snapshot;
use std::sync::Wait;
use std::thread::{self, Promise, Threads, join_mut, yield_now};
use tfree::laws::one_opening_stays;
use tfree::{Worker, turn_all};

/// A worker that came back from a thread, and how many events it did there.
#[derive(Drop)]
struct Back {
    worker: Worker,
    events: u64,
}

/// The promise that a worker comes back with the share with which it went.
#[derive(Drop)]
struct SameShare(Snapshot<Worker>);

impl Promise<Back> for SameShare {
    ghost kept_by = { λ promise back. back.worker.share ≡ promise.0.value.share };
}

/// A worker makes 100,000 turns, unless one stops for a fault. After one that did nothing it lets other threads go
/// first.
fn make_turns(mut worker: Worker) -> Back
    ensures { result.worker.share ≡ worker.share }
{
    let mut events: u64 = 0;
    for _turn in 0..100_000 {
        match worker.turn(SLICE) {
            Ok(turned) => {
                events = events.saturating_add(turned.events);
                if turned.events == 0 {
                    yield_now();
                }
            }
            Err(_fault) => break,
        }
    }
    Back { worker, events }
}

/// Lets three workers make their turns, each on a thread of its own.
fn on_threads<R: Threads + Wait + Sync>(
    rt: &R,
    first: Worker,
    second: Worker,
    third: Worker,
) -> Option<(Back, Back, Back)>
    ensures { IfSome result (λ back. (back.0.worker.share ≡ first.share) × (back.1.worker.share ≡ second.share)
        × (back.2.worker.share ≡ third.share)) }
{
    thread::scope(
        thread::scope_env(),
        rt,
        |scope| -> Option<(Back, Back, Back)>
            ensures { IfSome result (λ back. (back.0.worker.share ≡ first.share)
                × (back.1.worker.share ≡ second.share) × (back.2.worker.share ≡ third.share)) }
        {
            let one = scope
                .spawn_with(SameShare(Snapshot::of(&first)), move || make_turns(first))
                .ok()?;
            let two = scope
                .spawn_with(SameShare(Snapshot::of(&second)), move || make_turns(second))
                .ok()?;
            let three = scope
                .spawn_with(SameShare(Snapshot::of(&third)), move || make_turns(third))
                .ok()?;
            Some((one.join(rt), two.join(rt), three.join(rt)))
        },
    )
}

/// The only three of a list.
fn three_of(mut workers: Vec<Worker>) -> Option<(Worker, Worker, Worker)>
    ensures { IfSome result (λ r. workers.items ≡ r.0 ∷ r.1 ∷ r.2 ∷ []) }
{
    let third = workers.pop()?;
    let second = workers.pop()?;
    let first = workers.pop()?;
    if !workers.is_empty() {
        return None;
    }
    Some((first, second, third))
}

/// A list of three.
fn list_of(alloc: Global, first: Worker, second: Worker, third: Worker) -> Option<Vec<Worker>>
    ensures { IfSome result (λ workers. workers.items ≡ first ∷ second ∷ third ∷ []) }
{
    let mut workers = Vec::new(alloc);
    workers.push(first).ok()?;
    workers.push(second).ok()?;
    workers.push(third).ok()?;
    Some(workers)
}

/// Three workers once on three threads, and how many events they did there. None where a thread cannot be started.
fn once_on_threads<R: Threads + Wait + Sync>(
    rt: &R,
    alloc: Global,
    workers: Vec<Worker>,
) -> Option<(Vec<Worker>, u64)>
    requires { ComeFromOneOpen workers.items }
    ensures { IfSome result (λ r. ComeFromOneOpen r.0.items) }
{
    one_opening_stays();
    let (first, second, third) = three_of(workers)?;
    let (first, second, third) = on_threads(rt, first, second, third)?;
    let events = first
        .events
        .saturating_add(second.events)
        .saturating_add(third.events);
    let workers = list_of(alloc, first.worker, second.worker, third.worker)?;
    Some((workers, events))
}

/// Three workers on three threads, again and again until they do nothing there: so all is done, however the threads
/// are timed. None where a thread cannot be started.
pub fn on_threads_until_idle<R: Threads + Wait + Sync>(
    rt: &R,
    alloc: Global,
    mut workers: Vec<Worker>,
) -> Option<Vec<Worker>>
    requires { ComeFromOneOpen workers.items }
    ensures { IfSome result (λ r. ComeFromOneOpen r.items) }
{
    for _time in 0..1_000 {
        let (back, events) = once_on_threads(rt, alloc, workers)?;
        workers = back;
        if events == 0 {
            return Some(workers);
        }
    }
    None
}

/// Some workers in one call, which makes this number of turns.
fn turn_list<R: Threads + Sync>(
    rt: &R,
    alloc: Global,
    workers: &mut Vec<Worker>,
    turns: u32,
) -> Result<(), AllocError>
    ensures { map share_of workers.new.items ≡ map share_of workers.old.items }
{
    turn_all(rt, alloc, workers.as_mut_slice(), turns, SLICE)
}

/// All workers in one call, which makes this number of turns.
pub fn turn_together<R: Threads + Sync>(
    rt: &R,
    alloc: Global,
    workers: &mut Vec<Worker>,
    turns: u32,
) -> Result<(), AllocError>
    requires { ComeFromOneOpen workers.old.items }
    ensures { ComeFromOneOpen workers.new.items }
{
    one_opening_stays();
    turn_list(rt, alloc, workers, turns)
}

/// Two lists of workers in calls of their own, side by side. Each makes this number of turns.
fn turn_both<R: Threads + Sync>(
    rt: &R,
    alloc: Global,
    front: &mut [Worker],
    back: &mut [Worker],
    turns: u32,
) -> Result<(), AllocError>
    ensures front { map share_of front.new ≡ map share_of front.old }
    ensures back { map share_of back.new ≡ map share_of back.old }
{
    let mut one = || -> Result<(), AllocError>
        requires { IsSync R.row }
        ensures { map share_of front.exit.now ≡ map share_of front.entry.now }
    { turn_all(rt, alloc, front, turns, SLICE) };
    let mut other = || -> Result<(), AllocError>
        requires { IsSync R.row }
        ensures { map share_of back.exit.now ≡ map share_of back.entry.now }
    { turn_all(rt, alloc, back, turns, SLICE) };
    let (first, second) = join_mut(rt, &mut one, &mut other);
    first.and(second)
}

/// The two halves of some workers.
fn turn_halves<R: Threads + Sync>(
    rt: &R,
    alloc: Global,
    workers: &mut [Worker],
    turns: u32,
) -> Result<(), AllocError>
    ensures { map share_of workers.new ≡ map share_of workers.old }
{
    let (front, back) = workers.split_at_mut(workers.len() / 2);
    turn_both(rt, alloc, front, back, turns)
}

/// The two halves of a list.
fn turn_list_by_halves<R: Threads + Sync>(
    rt: &R,
    alloc: Global,
    workers: &mut Vec<Worker>,
    turns: u32,
) -> Result<(), AllocError>
    ensures { map share_of workers.new.items ≡ map share_of workers.old.items }
{
    turn_halves(rt, alloc, workers.as_mut_slice(), turns)
}

/// The two halves of all workers in calls of their own, side by side.
pub fn turn_by_halves<R: Threads + Sync>(
    rt: &R,
    alloc: Global,
    workers: &mut Vec<Worker>,
    turns: u32,
) -> Result<(), AllocError>
    requires { ComeFromOneOpen workers.old.items }
    ensures { ComeFromOneOpen workers.new.items }
{
    one_opening_stays();
    turn_list_by_halves(rt, alloc, workers, turns)
}
