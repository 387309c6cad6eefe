//! Free workers: what their turns do with packets between them, on one thread and on three.

ghost use Rattle.std.specs.Prelude.{◌≤◌, length, IfOk};
ghost use Rattle.std.specs.List.{insert};
ghost use Rattle.tfree.specs.Opened.{ComeFromOneOpen};

use crate::examples::{Example, LENGTHS, MESSAGE, RING, SCRIPTED, built};
use crate::fault::{Fault, require};
use crate::rounds::{ROUNDS, after_rounds};
use crate::texts::{LENGTHS_LINES, Lines, MESSAGE_LINES, RING_LINES, SCRIPTED_LINES, shows};
use crate::threads::{on_threads_until_idle, turn_by_halves, turn_together};
use crate::workers::{gathered, hold_back, opened, put_back, rotate, rotate_until_idle, turn_at};
use std::alloc::Global;
use std::sync::Wait;
use std::thread::Threads;
use tfree::{GatherFault, Gathered, OpenFault, Turned, Worker, gather, open};
use tnet::Net;
use tplan::{Act, Event};
use trounds::{Ending, Report, replay};

/// A net is opened for `count` workers.
fn open_for(alloc: Global, example: &Example, count: usize) -> Result<Vec<Worker>, Fault>
    ensures { IfOk result (λ workers. ComeFromOneOpen workers.items) }
{
    opened(alloc, built(alloc, example)?, count, &mut None)
}

/// How workers make their turns.
#[derive(Clone, Copy)]
enum Way {
    /// One after another, until a rotation does nothing.
    InRotation,
    /// The worker at each of these places has a turn, which does this number of events.
    Counted(&'static [(usize, u64)]),
    /// In one call of more turns than anyone can wait for: those that would add nothing are left out.
    Together,
    /// In two calls side by side, each of half of the workers. A worker in a call of its own makes all its turns, since
    /// it is not all of its opening: so it is still there when a packet comes from the other.
    ByHalves,
}

/// The worker at each of these places has a turn, which does this number of events.
fn turn_counted(workers: &mut Vec<Worker>, turns: &[(usize, u64)]) -> Result<(), Fault>
    requires { ComeFromOneOpen workers.old.items }
    ensures { ComeFromOneOpen workers.new.items }
{
    for (place, events) in turns {
        if turn_at(workers, *place) != Ok(Turned { events: *events }) {
            return Err(Fault::Wrong("a turn does another number of events"));
        }
    }
    Ok(())
}

/// The workers make their turns.
fn make_turns<R: Threads + Sync>(
    rt: &R,
    alloc: Global,
    workers: &mut Vec<Worker>,
    way: Way,
) -> Result<(), Fault>
    requires { ComeFromOneOpen workers.old.items }
    ensures { ComeFromOneOpen workers.new.items }
{
    match way {
        Way::InRotation => rotate_until_idle(workers, &mut None),
        Way::Counted(turns) => turn_counted(workers, turns),
        Way::Together => Ok(turn_together(rt, alloc, workers, u32::MAX)?),
        Way::ByHalves => Ok(turn_by_halves(rt, alloc, workers, 1_000_000)?),
    }
}

/// A net, how many events its workers do, where that is known, and what is shown then.
#[derive(Clone, Copy)]
struct Run {
    example: Example,
    events: Option<usize>,
    lines: Lines,
}

const MESSAGE_RUN: Run = Run {
    example: MESSAGE,
    events: Some(32),
    lines: MESSAGE_LINES,
};

/// The node that asks for four bytes of eight is frozen with the fourth; the sender waits for ever.
const LENGTHS_RUN: Run = Run {
    example: LENGTHS,
    events: None,
    lines: LENGTHS_LINES,
};

const RING_RUN: Run = Run {
    example: RING,
    events: None,
    lines: RING_LINES,
};

const SCRIPTED_RUN: Run = Run {
    example: SCRIPTED,
    events: None,
    lines: SCRIPTED_LINES,
};

/// Whether a replay of what workers did shows these lines.
fn replays(alloc: Global, run: &Run, done: &Gathered) -> Result<bool, Fault> {
    match replay(alloc, built(alloc, &run.example)?, done.history.as_slice()) {
        Ok(again) => shows(alloc, again.notes.as_slice(), &again.net, &run.lines),
        Err(_fault) => Err(Fault::Wrong("the history is not replayed")),
    }
}

/// The net has come to rest after all its events, and it and a replay of its history show the lines that are due.
fn is_due(alloc: Global, run: &Run, done: &Gathered) -> Result<(), Fault> {
    let count = done.history.as_slice().len();
    require(
        run.events.unwrap_or(count) == count,
        "there is another number of events",
    )?;
    require(done.net.is_quiet(), "the workers did not do all")?;
    require(
        shows(alloc, done.notes.as_slice(), &done.net, &run.lines)?,
        "the workers did something else",
    )?;
    require(
        replays(alloc, run, done)?,
        "the history does something else",
    )
}

/// The workers are gathered, and what they did is what is due.
fn gather_due(alloc: Global, run: &Run, workers: Vec<Worker>) -> Result<(), Fault>
    requires { ComeFromOneOpen workers.items }
{
    let done = gathered(alloc, workers, &mut None)?;
    is_due(alloc, run, &done)
}

/// A net by `count` workers, which make their turns.
fn attempt<R: Threads + Sync>(
    rt: &R,
    alloc: Global,
    run: &Run,
    count: usize,
    way: Way,
) -> Result<(), Fault> {
    let mut workers = open_for(alloc, &run.example, count)?;
    require(workers.len() == count, "there are more workers, or fewer")?;
    make_turns(rt, alloc, &mut workers, way)?;
    gather_due(alloc, run, workers)
}

/// Nets, each with the numbers of workers and the ways of their turns.
fn attempt_all<R: Threads + Sync>(
    rt: &R,
    alloc: Global,
    run: &Run,
    trials: &[(usize, Way)],
) -> Result<(), Fault> {
    for (count, way) in trials {
        attempt(rt, alloc, run, *count, *way)?;
    }
    Ok(())
}

/// One worker of both nodes: both run until they wait, and the first byte comes in; it is taken; then twice an
/// acknowledge, the next byte, its arrival and its taking; then the same with the end of the receiver; then the last
/// acknowledge with that of the sender.
const TURNS_OF_ONE: Way = Way::Counted(&[(0, 14), (0, 1), (0, 4), (0, 4), (0, 6), (0, 3), (0, 0)]);

/// Two workers do the same, each its part.
const TURNS_OF_TWO: Way = Way::Counted(&[
    (0, 7),
    (1, 7),
    (0, 0),
    (1, 1),
    (0, 2),
    (1, 2),
    (0, 2),
    (1, 2),
    (0, 2),
    (1, 4),
    (0, 3),
    (1, 0),
    (0, 0),
    (1, 0),
]);

#[test]
fn turns_of_a_message(rt: HostRuntime) -> Result<(), Fault> {
    attempt_all(
        &rt,
        rt.alloc(),
        &MESSAGE_RUN,
        &[(1, TURNS_OF_ONE), (2, TURNS_OF_TWO)],
    )
}

/// A worker for each node, and 64 workers, of which 61 have none.
#[test]
fn a_ring_by_turns_in_rotation(rt: HostRuntime) -> Result<(), Fault> {
    attempt_all(
        &rt,
        rt.alloc(),
        &RING_RUN,
        &[(3, Way::InRotation), (64, Way::InRotation)],
    )
}

/// Of more turns than anyone can wait for, those that would add nothing are left out.
#[test]
fn turns_are_left_out_at_rest(rt: HostRuntime) -> Result<(), Fault> {
    attempt_all(
        &rt,
        rt.alloc(),
        &MESSAGE_RUN,
        &[(1, Way::Together), (2, Way::Together), (64, Way::Together)],
    )
}

#[test]
fn one_of_two_workers_makes_all_its_turns(rt: HostRuntime) -> Result<(), Fault> {
    attempt_all(&rt, rt.alloc(), &MESSAGE_RUN, &[(2, Way::ByHalves)])
}

#[test]
fn lengths_that_differ(rt: HostRuntime) -> Result<(), Fault> {
    attempt_all(&rt, rt.alloc(), &LENGTHS_RUN, &[(2, Way::InRotation)])
}

/// A worker of all, and one each for a node, its source and its sink.
#[test]
fn a_source_and_a_sink_by_turns_in_rotation(rt: HostRuntime) -> Result<(), Fault> {
    attempt_all(
        &rt,
        rt.alloc(),
        &SCRIPTED_RUN,
        &[(1, Way::InRotation), (3, Way::InRotation)],
    )
}

/// The ring by three workers on three threads.
fn attempt_on_threads<R: Threads + Wait + Sync>(rt: &R, alloc: Global) -> Result<(), Fault> {
    match on_threads_until_idle(rt, alloc, open_for(alloc, &RING, 3)?) {
        Some(workers) => gather_due(alloc, &RING_RUN, workers),
        None => Err(Fault::Wrong("no three threads were started")),
    }
}

#[test]
fn a_ring_by_three_threads(rt: HostRuntime) -> Result<(), Fault> {
    attempt_on_threads(&rt, rt.alloc())
}

/// What each worker of the ring leaves after one turn, the last worker first: the first byte then lies in the ring
/// that leads to node 1.
fn left_of_ring(alloc: Global) -> Result<Net, Fault> {
    let mut workers = open_for(alloc, &RING, 3)?;
    turn_counted(&mut workers, &[(2, 6), (1, 6), (0, 7)])?;
    let done = gathered(alloc, workers, &mut None)?;
    require(
        done.notes.as_slice().is_empty() && has_packet(&done.net),
        "no packet was left, or a message is over",
    )?;
    Ok(done.net)
}

/// The packet that was left of the ring comes next.
fn has_packet(net: &Net) -> bool {
    net.enabled(Event {
        node: 1,
        act: Act::Data(2),
    })
}

/// The rounds have come to rest, and did what is due.
fn are_due(alloc: Global, report: &Report) -> Result<(), Fault> {
    require(report.end == Ending::Quiet, "the net does not rest")?;
    require(
        shows(alloc, report.notes.as_slice(), &report.net, &RING_LINES)?,
        "the rounds did something else",
    )
}

/// Rounds of the net go on from what was left.
fn attempt_rounds<R: Threads + Sync>(rt: &R, alloc: Global) -> Result<(), Fault> {
    let report = after_rounds(rt, alloc, left_of_ring(alloc)?, ROUNDS)?;
    are_due(alloc, &report)
}

#[test]
fn rounds_go_on_from_packets_that_were_left(rt: HostRuntime) -> Result<(), Fault> {
    attempt_rounds(&rt, rt.alloc())
}

/// The workers of two nets turn side by side, three times each, and then those of one net after those of the other
/// until they rest.
fn turn_side_by_side(some: &mut Vec<Worker>, others: &mut Vec<Worker>) -> Result<(), Fault>
    requires one { ComeFromOneOpen some.old.items }
    requires another { ComeFromOneOpen others.old.items }
    ensures one { ComeFromOneOpen some.new.items }
    ensures another { ComeFromOneOpen others.new.items }
{
    for _rotation in 0..3 {
        rotate(some, &mut None)?;
        rotate(others, &mut None)?;
    }
    rotate_until_idle(some, &mut None)?;
    rotate_until_idle(others, &mut None)
}

/// Two nets side by side, of which neither gets packets of the other.
fn attempt_both(alloc: Global) -> Result<(), Fault> {
    let mut some = open_for(alloc, &MESSAGE, 2)?;
    let mut others = open_for(alloc, &LENGTHS, 2)?;
    turn_side_by_side(&mut some, &mut others)?;
    gather_due(alloc, &MESSAGE_RUN, some)?;
    gather_due(alloc, &LENGTHS_RUN, others)
}

#[test]
fn two_nets_side_by_side(rt: HostRuntime) -> Result<(), Fault> {
    attempt_both(rt.alloc())
}

/// Workers without the one that is held back from this place are not gathered; it is put back.
fn miss(
    alloc: Global,
    workers: Vec<Worker>,
    place: usize,
    held: Worker,
) -> Result<Vec<Worker>, Fault>
    requires there { place ≤ length workers.items }
    requires one { ComeFromOneOpen workers.items }
    requires whole { ComeFromOneOpen (insert workers.items place held) }
    ensures { IfOk result (λ workers. ComeFromOneOpen workers.items) }
{
    match gather(alloc, workers) {
        Ok(_done) => Err(Fault::Wrong("two of three workers are gathered")),
        Err((fault, mut others)) => {
            require(
                fault == GatherFault::Missing(place),
                "another worker is missing",
            )?;
            put_back(&mut others, place, held)?;
            Ok(others)
        }
    }
}

/// The worker at a place is held back for a while, behind a turn of each.
fn hold_for_a_while(
    alloc: Global,
    mut workers: Vec<Worker>,
    place: usize,
) -> Result<Vec<Worker>, Fault>
    requires { ComeFromOneOpen workers.items }
    ensures { IfOk result (λ workers. ComeFromOneOpen workers.items) }
{
    rotate(&mut workers, &mut None)?;
    if place >= workers.len() {
        return Err(Fault::Wrong("there are fewer workers"));
    }
    let held = hold_back(&mut workers, place);
    miss(alloc, workers, place, held)
}

/// Each worker of three is held back for a while.
fn attempt_without(alloc: Global) -> Result<(), Fault> {
    let mut workers = open_for(alloc, &MESSAGE, 3)?;
    for place in 0..3 {
        workers = hold_for_a_while(alloc, workers, place)?;
    }
    rotate_until_idle(&mut workers, &mut None)?;
    gather_due(alloc, &MESSAGE_RUN, workers)
}

#[test]
fn the_others_alone_are_not_gathered(rt: HostRuntime) -> Result<(), Fault> {
    attempt_without(rt.alloc())
}

/// The worker in the middle of three is let go, with its ends of the rings.
fn let_go(workers: &mut Vec<Worker>) -> Result<(), Fault>
    requires { ComeFromOneOpen workers.old.items }
    ensures { ComeFromOneOpen workers.new.items }
{
    rotate(workers, &mut None)?;
    if workers.len() != 3 {
        return Err(Fault::Wrong("there are fewer workers"));
    }
    drop(hold_back(workers, 1));
    rotate_until_idle(workers, &mut None)
}

/// A worker is let go: the others still have their turns.
fn attempt_less(alloc: Global) -> Result<(), Fault> {
    let mut workers = open_for(alloc, &RING, 3)?;
    let_go(&mut workers)?;
    match gather(alloc, workers) {
        Ok(_done) => Err(Fault::Wrong("two of three workers are gathered")),
        Err((fault, _others)) => {
            require(
                fault == GatherFault::Missing(1),
                "another worker is missing",
            )
        }
    }
}

#[test]
fn a_worker_is_let_go(rt: HostRuntime) -> Result<(), Fault> {
    attempt_less(rt.alloc())
}

/// A net that is not opened for this number of workers comes back whole.
fn given_back(alloc: Global, net: Net, count: usize) -> Result<Net, Fault> {
    match open(alloc, net, count) {
        Ok(_workers) => Err(Fault::Wrong("a net is opened for no workers, or for 65")),
        Err((fault, back)) => {
            require(
                fault == OpenFault::BadWorkers,
                "the opening has another fault",
            )?;
            Ok(back)
        }
    }
}

/// A net that is not opened where there are no workers, or too many, is opened for two.
fn attempt_bad_workers(alloc: Global) -> Result<(), Fault> {
    let net = given_back(alloc, built(alloc, &MESSAGE)?, 0)?;
    let back = given_back(alloc, net, 65)?;
    let mut workers = opened(alloc, back, 2, &mut None)?;
    rotate_until_idle(&mut workers, &mut None)?;
    gather_due(alloc, &MESSAGE_RUN, workers)
}

#[test]
fn a_net_is_not_opened_for_bad_workers(rt: HostRuntime) -> Result<(), Fault> {
    attempt_bad_workers(rt.alloc())
}
