//! Rounds: for which numbers of workers they are refused; and rounds that are refused memory, and go on with the holds
//! that are left.

ghost use Rattle.std.specs.Prelude.{◌≡◌, IfOk};
ghost use Rattle.trounds.specs.GoingOn.{hold_after, holds_after};

use crate::alike::are_alike;
use crate::examples::{MESSAGE, built};
use crate::fault::{Fault, require};
use crate::story::{Call, Story};
use std::alloc::{AllocError, Global};
use std::thread::Threads;
use tnet::Net;
use tplan::{Event, Hold, Note};
use trounds::{Ending, NetFault, Open, Report, run_rounds};

/// More rounds than any of the nets makes.
pub const ROUNDS: u32 = 100_000;

/// How many Runs a node makes in a round at most.
const SLICE: u32 = 64;

/// Whether rounds of two nodes are refused for this number of workers.
fn are_bad<R: Threads + Sync>(rt: &R, alloc: Global, workers: usize) -> Result<bool, Fault> {
    let net = built(alloc, &MESSAGE)?;
    let answer = run_rounds(rt, alloc, net, 1, SLICE, &[], workers, &Open);
    Ok(matches!(answer, Err((NetFault::BadWorkers, _net))))
}

/// Numbers of workers, and whether rounds are refused for them.
const WORKERS: &[(usize, bool)] = &[(0, true), (1, false), (64, false), (65, true)];

#[test]
fn workers_are_from_1_to_64(rt: HostRuntime) -> Result<(), Fault> {
    for (workers, bad) in WORKERS {
        require(
            are_bad(&rt, rt.alloc(), *workers)? == *bad,
            "the workers are not from 1 to 64",
        )?;
    }
    Ok(())
}

/// Rounds of a net by this number of workers, with these holds.
fn made<R: Threads + Sync>(
    rt: &R,
    alloc: Global,
    net: Net,
    rounds: u32,
    holds: &[Hold],
    workers: usize,
) -> Result<Report, Fault> {
    match run_rounds(rt, alloc, net, rounds, SLICE, holds, workers, &Open) {
        Ok(report) => Ok(report),
        Err(_refused) => Err(Fault::Wrong("rounds are refused")),
    }
}

/// `rounds` rounds of a net by one worker.
pub fn after_rounds<R: Threads + Sync>(
    rt: &R,
    alloc: Global,
    net: Net,
    rounds: u32,
) -> Result<Report, Fault> {
    made(rt, alloc, net, rounds, &[], 1)
}

/// A hold, where the rounds are counted anew after `done` rounds.
fn later(hold: Hold, done: u32) -> Hold
    ensures { result ≡ hold_after done hold }
{
    Hold {
        from: hold.from.saturating_sub(done),
        until: hold.until.saturating_sub(done),
        ..hold
    }
}

/// The holds that are left after `done` rounds.
fn holds_left(alloc: Global, holds: &[Hold], done: u32) -> Result<Vec<Hold>, AllocError>
    ensures { IfOk result (λ left. left.items ≡ holds_after done holds.now) }
{
    holds.iter().map(|hold| later(*hold, done)).collect(alloc)
}

/// `rounds` more rounds of a net, of which `done` rounds were done before.
fn more<R: Threads + Sync>(
    rt: &R,
    alloc: Global,
    net: Net,
    rounds: u32,
    holds: &[Hold],
    done: u32,
    workers: usize,
) -> Result<Report, Fault> {
    let left = holds_left(alloc, holds, done)?;
    made(rt, alloc, net, rounds, left.as_slice(), workers)
}

/// What rounds did, one run of them after another.
#[derive(Drop)]
struct Joined {
    rounds: u32,
    events: Vec<Event>,
    notes: Vec<Note>,
}

impl Joined {
    fn new(alloc: Global) -> Joined {
        Joined {
            rounds: 0,
            events: Vec::new(alloc),
            notes: Vec::new(alloc),
        }
    }

    /// Adds what a report tells, and answers its net.
    fn add(&mut self, report: Report) -> Result<Net, Fault> {
        self.rounds = self.rounds.saturating_add(report.rounds);
        self.events.extend_from_slice(report.events.as_slice())?;
        for note in report.notes.into_vec() {
            self.notes.push(note)?;
        }
        Ok(report.net)
    }
}

/// The rounds, from the opening, after which a net is like the one that came back.
fn rounds_until<R: Threads + Sync>(
    rt: &R,
    alloc: Global,
    mut net: Net,
    holds: &[Hold],
    stopped: &Net,
) -> Result<Joined, Fault> {
    let mut first = Joined::new(alloc);
    for _round in 0..ROUNDS {
        if are_alike(&net, stopped) {
            return Ok(first);
        }
        let done = first.rounds;
        net = first.add(more(rt, alloc, net, 1, holds, done, 1)?)?;
    }
    Err(Fault::Wrong("the net that came back is not at the end of a round"))
}

/// What the rounds did is told: a net that is quiet at their end.
fn tell_end(
    alloc: Global,
    mut joined: Joined,
    report: Report,
    story: &mut Story,
) -> Result<(), Fault> {
    require(report.end == Ending::Quiet, "rounds do not end quiet")?;
    let net = joined.add(report)?;
    story.count(alloc, "rounds", u64::from(joined.rounds))?;
    story.tell(
        alloc,
        joined.events.as_slice(),
        joined.notes.as_slice(),
        &net,
    )
}

/// A net that came back is as after whole rounds from the opening, and goes on from there until it is quiet.
fn go_on<R: Threads + Sync>(
    rt: &R,
    alloc: Global,
    first: Joined,
    stopped: Net,
    holds: &[Hold],
    workers: usize,
    story: &mut Story,
) -> Result<(), Fault> {
    let done = first.rounds;
    story.refused = Some(Call::Rounds(done));
    let report = more(rt, alloc, stopped, ROUNDS, holds, done, workers)?;
    tell_end(alloc, first, report, story)
}

/// A net runs in rounds until it is quiet. Where that is refused, the net that came back goes on.
pub fn run<R: Threads + Sync>(
    rt: &R,
    alloc: Global,
    net: Net,
    holds: &[Hold],
    workers: usize,
    story: &mut Story,
) -> Result<(), Fault> {
    let opened = net.try_copy(alloc)?;
    match run_rounds(rt, alloc, net, ROUNDS, SLICE, holds, workers, &Open) {
        Ok(report) => tell_end(alloc, Joined::new(alloc), report, story),
        Err((fault, stopped)) => {
            require(fault == NetFault::OutOfMemory, "rounds have another fault")?;
            let first = rounds_until(rt, alloc, opened, holds, &stopped)?;
            go_on(rt, alloc, first, stopped, holds, workers, story)
        }
    }
}
