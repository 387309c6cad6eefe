//! When the workers of rounds enter their gate.

use crate::examples::{Example, MESSAGE, SEVEN_RUNNERS, SIX_RUNNERS, built};
use crate::fault::{Fault, require};
use std::alloc::Global;
use std::sync::atomic::{AtomicU64, Ordering};
use std::thread::Threads;
use trounds::{Ending, Gate, Report, run_rounds};

/// Each of two workers raises its flag at its first entry, and looks for the other's.
#[derive(Drop)]
struct Flags {
    first: AtomicU64,
    second: AtomicU64,
    first_saw: AtomicU64,
    second_saw: AtomicU64,
}

/// Raises a flag that was down, and looks for another.
fn look(mine: &AtomicU64, theirs: &AtomicU64, saw: &AtomicU64) {
    if mine.swap(1, Ordering::SeqCst) == 1 {
        return;
    }
    for _look in 0..1_000_000_000u32 {
        if theirs.load(Ordering::SeqCst) == 1 {
            saw.store(1, Ordering::SeqCst);
            return;
        }
    }
}

impl Gate for Flags {
    ghost has_entered = { λ _ _ _. Unit {0} };

    fn enter(&self, worker: usize, _round: u32) {
        if worker == 0 {
            look(&self.first, &self.second, &self.first_saw);
        } else {
            look(&self.second, &self.first, &self.second_saw);
        }
    }
}

/// Which worker entered which round, a bit for each pair: worker 1 in round 2 is bit 10. Workers and rounds are
/// below 8.
#[derive(Drop)]
struct Entries {
    entered: AtomicU64,
    /// How many entries came a second time, or from elsewhere.
    strange: AtomicU64,
}

impl Gate for Entries {
    ghost has_entered = { λ _ _ _. Unit {0} };

    fn enter(&self, worker: usize, round: u32) {
        if worker < 8 && round < 8 {
            let pair = 1u64 << (8 * worker as u32 + round);
            if self.entered.fetch_or(pair, Ordering::SeqCst) & pair == 0 {
                return;
            }
        }
        self.strange.fetch_add(1, Ordering::SeqCst);
    }
}

/// Rounds of a net by this number of workers, through their gate.
fn made<R: Threads + Sync, G: Gate + Sync>(
    rt: &R,
    alloc: Global,
    example: &Example,
    rounds: u32,
    workers: usize,
    gate: &G,
) -> Result<Report, Fault> {
    let net = built(alloc, example)?;
    match run_rounds(rt, alloc, net, rounds, 64, &[], workers, gate) {
        Ok(report) => Ok(report),
        Err(_refused) => Err(Fault::Wrong("rounds are refused")),
    }
}

/// Two workers make rounds, and each sees that the other has entered too.
fn attempt_two<R: Threads + Sync>(rt: &R, alloc: Global) -> Result<(), Fault> {
    let flags = Flags {
        first: AtomicU64::new(0),
        second: AtomicU64::new(0),
        first_saw: AtomicU64::new(0),
        second_saw: AtomicU64::new(0),
    };
    made(rt, alloc, &MESSAGE, 20, 2, &flags)?;
    require(
        flags.first_saw.load(Ordering::SeqCst) == 1 && flags.second_saw.load(Ordering::SeqCst) == 1,
        "a worker does not see the other",
    )
}

#[test]
fn two_workers_overlap(rt: HostRuntime) -> Result<(), Fault> {
    attempt_two(&rt, rt.alloc())
}

/// Nodes that run for ever, how many there are, workers, and the pairs that are due in five rounds: each worker has as
/// many nodes as the others, the last fewer, and one that would have none does not start.
const ENTRIES: &[(Example, usize, usize, u64)] = &[
    (SIX_RUNNERS, 6, 1, 0x1f),
    (SIX_RUNNERS, 6, 3, 0x1f_1f1f),
    (SIX_RUNNERS, 6, 4, 0x1f_1f1f),
    (SIX_RUNNERS, 6, 7, 0x1f1f_1f1f_1f1f),
    (SEVEN_RUNNERS, 7, 1, 0x1f),
    (SEVEN_RUNNERS, 7, 3, 0x1f_1f1f),
    (SEVEN_RUNNERS, 7, 4, 0x1f1f_1f1f),
    (SEVEN_RUNNERS, 7, 7, 0x1f_1f1f_1f1f_1f1f),
];

/// Whether five rounds of `nodes` nodes that run for ever are over.
fn are_done(report: &Report, nodes: usize) -> bool {
    report.end == Ending::Rounds
        && nodes.checked_mul(5 * 64) == Some(report.events.as_slice().len())
}

/// Five rounds of nodes by this number of workers, who enter as is due.
fn attempt_entries<R: Threads + Sync>(
    rt: &R,
    alloc: Global,
    example: &Example,
    nodes: usize,
    workers: usize,
    due: u64,
) -> Result<(), Fault> {
    let entries = Entries {
        entered: AtomicU64::new(0),
        strange: AtomicU64::new(0),
    };
    let report = made(rt, alloc, example, 5, workers, &entries)?;
    require(are_done(&report, nodes), "the rounds end otherwise")?;
    require(
        entries.entered.load(Ordering::SeqCst) == due
            && entries.strange.load(Ordering::SeqCst) == 0,
        "workers enter otherwise",
    )
}

#[test]
fn each_started_worker_enters_once_a_round(rt: HostRuntime) -> Result<(), Fault> {
    for (example, nodes, workers, due) in ENTRIES {
        attempt_entries(&rt, rt.alloc(), example, *nodes, *workers, *due)?;
    }
    Ok(())
}
