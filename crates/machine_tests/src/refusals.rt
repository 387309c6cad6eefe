//! Calls that are refused memory: a net is built, and runs by a given number of workers, in rounds and free, or only in
//! rounds, with packets that are held. A call that is refused gives back what it took, and is called again. It is
//! printed which call was refused, and then the result of the net, which is the same whichever request for memory is
//! refused.
//!
//! Here nothing is refused. `tests/sweep` lets each of these tests run again and again, and refuses each request in
//! turn, by a library that is preloaded: at most one of a run.

use crate::examples::{Example, FIRST, MESSAGE, RING, TWO_MESSAGES, built, net_of, plan_of};
use crate::fault::{Fault, require};
use crate::rounds;
use crate::story::{Call, Story};
use crate::workers::{gathered, opened, rotate_until_idle};
use std::alloc::Global;
use std::io::Write;
use std::thread::Threads;
use tnet::Net;
use tplan::{End, Hold, PacketKind};

/// A net, what is held in it, and the beginning of what is told of it.
struct Trial {
    example: Example,
    holds: &'static [Hold],
    due: &'static [&'static str],
}

static ADDER: Trial = Trial {
    example: FIRST,
    holds: &[],
    due: &["rounds 1\nevents 7\nnode 0 ok\n"],
};

static ONE_MESSAGE: Trial = Trial {
    example: MESSAGE,
    holds: &[],
    due: &["rounds 9\nevents 32\nmsg 0.1 1.2 4 01020304\nnode 0 ok\n"],
};

static ROUND_THE_RING: Trial = Trial {
    example: RING,
    holds: &[],
    due: &["rounds 2102\n"],
};

/// The first byte of one of two messages is held until round 10, the second byte of the other until round 14, and the
/// acknowledge of its third byte until round 20.
static HELD: Trial = Trial {
    example: TWO_MESSAGES,
    holds: &[
        Hold {
            end: End { node: 1, link: 2 },
            kind: PacketKind::Data,
            from: 0,
            until: 10,
        },
        Hold {
            end: End { node: 3, link: 2 },
            kind: PacketKind::Data,
            from: 3,
            until: 14,
        },
        Hold {
            end: End { node: 2, link: 1 },
            kind: PacketKind::Ack,
            from: 16,
            until: 20,
        },
    ],
    due: &["rounds 23\nevents 64\nmsg 0.1 1.2 4 01020304\nmsg 2.1 3.2 4 01020304\nnode 0 ok\n"],
};

/// A net is built. Where that is refused, its plan is made and built again.
fn built_at_last(
    alloc: Global,
    example: &Example,
    refused: &mut Option<Call>,
) -> Result<Net, Fault> {
    match net_of(alloc, plan_of(alloc, example)?) {
        Err(Fault::Memory) => {
            *refused = Some(Call::Build);
            built(alloc, example)
        }
        answer => answer,
    }
}

/// A net runs by free workers, in rotation, until none does anything more.
fn run_free(alloc: Global, net: Net, count: usize, story: &mut Story) -> Result<(), Fault> {
    let mut workers = opened(alloc, net, count, &mut story.refused)?;
    rotate_until_idle(&mut workers, &mut story.refused)?;
    let done = gathered(alloc, workers, &mut story.refused)?;
    require(done.net.is_quiet(), "the workers did not do all")?;
    story.tell(
        alloc,
        done.history.as_slice(),
        done.notes.as_slice(),
        &done.net,
    )
}

/// A net runs in rounds, and a copy of it by free workers, which have no holds.
fn run<R: Threads + Sync>(
    rt: &R,
    alloc: Global,
    trial: &Trial,
    workers: usize,
    story: &mut Story,
) -> Result<(), Fault> {
    let net = built_at_last(alloc, &trial.example, &mut story.refused)?;
    if trial.holds.is_empty() {
        let copy = net.try_copy(alloc)?;
        rounds::run(rt, alloc, net, trial.holds, workers, story)?;
        run_free(alloc, copy, workers, story)
    } else {
        rounds::run(rt, alloc, net, trial.holds, workers, story)
    }
}

/// The result of the calls, as a page that begins with what is due.
fn told<R: Threads + Sync>(
    rt: &R,
    alloc: Global,
    trial: &Trial,
    workers: usize,
) -> Result<Vec<u8>, Fault> {
    let mut story = Story::new(alloc);
    run(rt, alloc, trial, workers, &mut story)?;
    require(story.begins_with(trial.due), "something else is told")?;
    story.page(alloc)
}

/// The result of the calls, as a page, by a second attempt where memory was refused beside the calls that are looked
/// at.
fn told_at_last<R: Threads + Sync>(
    rt: &R,
    alloc: Global,
    trial: &Trial,
    workers: usize,
) -> Result<Vec<u8>, Fault> {
    match told(rt, alloc, trial, workers) {
        Err(Fault::Memory) => told(rt, alloc, trial, workers),
        answer => answer,
    }
}

/// Lets a net run by `workers` workers, and prints the result.
fn attempt<R: Threads + Sync>(
    host: &HostRuntime,
    rt: &R,
    trial: &Trial,
    workers: usize,
) -> Result<(), Fault> {
    let page = told_at_last(rt, host.alloc(), trial, workers)?;
    require(
        host.stdout().write_all(page.as_slice()).is_ok(),
        "the result is not printed",
    )
}

#[test]
fn first_by_1(rt: HostRuntime) -> Result<(), Fault> {
    attempt(&rt, &rt, &ADDER, 1)
}

#[test]
fn first_by_2(rt: HostRuntime) -> Result<(), Fault> {
    attempt(&rt, &rt, &ADDER, 2)
}

#[test]
fn message_by_1(rt: HostRuntime) -> Result<(), Fault> {
    attempt(&rt, &rt, &ONE_MESSAGE, 1)
}

#[test]
fn message_by_2(rt: HostRuntime) -> Result<(), Fault> {
    attempt(&rt, &rt, &ONE_MESSAGE, 2)
}

#[test]
fn ring_by_1(rt: HostRuntime) -> Result<(), Fault> {
    attempt(&rt, &rt, &ROUND_THE_RING, 1)
}

#[test]
fn ring_by_2(rt: HostRuntime) -> Result<(), Fault> {
    attempt(&rt, &rt, &ROUND_THE_RING, 2)
}

#[test]
fn held_by_1(rt: HostRuntime) -> Result<(), Fault> {
    attempt(&rt, &rt, &HELD, 1)
}

#[test]
fn held_by_2(rt: HostRuntime) -> Result<(), Fault> {
    attempt(&rt, &rt, &HELD, 2)
}
