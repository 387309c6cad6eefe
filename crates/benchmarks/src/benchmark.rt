//! Benchmarks, each by its name: a given amount of its work is done, and its name, how many operations it did, and
//! their answer are printed. `bench/run` times them against plain Rust.

use crate::answer::{Answer, Fault};
use crate::crew::{Crew, Load, Manner};
use crate::local_loop::Claims;
use crate::nets::Ring;
use crate::scheduling::{Job, Others};
use crate::{crew, idle, local_loop, mixed_code, nets, pipeline, scheduling};
use std::alloc::Global;
use std::io;
use std::thread::Threads;

/// A benchmark.
#[derive(Clone, Copy)]
enum Benchmark {
    Decode,
    Local(Claims),
    Processor(Job),
    /// A ring with this number of nodes, and messages of this length in bytes.
    Ring(u8, u32),
    Pipeline,
    /// A load for workers that go on in rounds: how many runs a slice has, and how many workers there are.
    Rounds(Load, u32, usize),
    /// A load for free workers: how many runs a slice has, and how many workers there are.
    Turns(Load, u32, usize),
    /// Turns over this number of nodes, which wait for ever.
    Idle(u8),
}

/// The benchmarks, by name.
const BENCHMARKS: &[(&str, Benchmark)] = &[
    ("decode", Benchmark::Decode),
    ("local", Benchmark::Local(Claims::Nothing)),
    ("local-links", Benchmark::Local(Claims::LinkBuffers)),
    ("local-saved", Benchmark::Local(Claims::SavedWords)),
    ("processor", Benchmark::Processor(Job::Loop(Others::Nobody))),
    (
        "processor-queued",
        Benchmark::Processor(Job::Loop(Others::Queued(500))),
    ),
    (
        "processor-waiting",
        Benchmark::Processor(Job::Loop(Others::Waiting(500))),
    ),
    ("switch", Benchmark::Processor(Job::Switch(2))),
    ("switch-500", Benchmark::Processor(Job::Switch(500))),
    (
        "message",
        Benchmark::Processor(Job::Message(4, Others::Nobody)),
    ),
    (
        "message-500",
        Benchmark::Processor(Job::Message(4, Others::Waiting(498))),
    ),
    (
        "message-1024",
        Benchmark::Processor(Job::Message(1_024, Others::Nobody)),
    ),
    (
        "message-1024-500",
        Benchmark::Processor(Job::Message(1_024, Others::Waiting(498))),
    ),
    ("net-byte", Benchmark::Ring(2, 1)),
    ("net-kilobyte", Benchmark::Ring(2, 1_024)),
    ("net-ring", Benchmark::Ring(64, 4)),
    ("net-pipeline", Benchmark::Pipeline),
    ("rounds-1024", Benchmark::Rounds(Load::Computing, 1_024, 1)),
    (
        "rounds-1024-2",
        Benchmark::Rounds(Load::Computing, 1_024, 2),
    ),
    (
        "rounds-1024-4",
        Benchmark::Rounds(Load::Computing, 1_024, 4),
    ),
    (
        "rounds-65536",
        Benchmark::Rounds(Load::Computing, 65_536, 1),
    ),
    (
        "rounds-65536-2",
        Benchmark::Rounds(Load::Computing, 65_536, 2),
    ),
    (
        "rounds-65536-4",
        Benchmark::Rounds(Load::Computing, 65_536, 4),
    ),
    ("rounds-idle", Benchmark::Rounds(Load::Waiting, 1_024, 1)),
    ("run-ring", Benchmark::Rounds(Load::Exchanging, 64, 1)),
    ("free-compute", Benchmark::Turns(Load::Computing, 1_024, 1)),
    (
        "free-compute-2",
        Benchmark::Turns(Load::Computing, 1_024, 2),
    ),
    (
        "free-compute-4",
        Benchmark::Turns(Load::Computing, 1_024, 4),
    ),
    ("free-ring", Benchmark::Turns(Load::Exchanging, 64, 1)),
    ("free-ring-2", Benchmark::Turns(Load::Exchanging, 64, 2)),
    ("free-ring-4", Benchmark::Turns(Load::Exchanging, 64, 4)),
    ("turn-idle", Benchmark::Idle(1)),
    ("turn-idle-2", Benchmark::Idle(2)),
    ("turn-idle-64", Benchmark::Idle(64)),
];

/// Does this amount of work of a benchmark.
fn done<R: Threads + Sync>(
    rt: &R,
    alloc: Global,
    benchmark: Benchmark,
    amount: u32,
) -> Result<Answer, Fault> {
    match benchmark {
        Benchmark::Decode => mixed_code::decoded(alloc, amount),
        Benchmark::Local(claims) => local_loop::looped(alloc, amount, claims),
        Benchmark::Processor(job) => scheduling::worked(alloc, amount, job),
        Benchmark::Ring(nodes, length) => nets::went_round(alloc, amount, Ring { nodes, length }),
        Benchmark::Pipeline => pipeline::went_through(alloc, amount),
        Benchmark::Rounds(load, slice, workers) => {
            let crew = Crew {
                manner: Manner::Rounds,
                load,
                slice,
                workers,
            };
            crew::worked(rt, alloc, amount, crew)
        }
        Benchmark::Turns(load, slice, workers) => {
            let crew = Crew {
                manner: Manner::Free,
                load,
                slice,
                workers,
            };
            crew::worked(rt, alloc, amount, crew)
        }
        Benchmark::Idle(nodes) => idle::waited(alloc, amount, nodes),
    }
}

/// Does this amount of work of the benchmark of a name, or of each by the name `all`, and prints the result.
pub fn run<R: Threads + Sync>(
    host: &HostRuntime,
    rt: &R,
    wanted: &str,
    amount: u32,
) -> io::Result<()> {
    for (name, benchmark) in BENCHMARKS {
        if wanted == "all" || wanted == *name {
            match done(rt, host.alloc(), *benchmark, amount) {
                Ok(answer) => println!(host; "{name} {} {}", answer.operations, answer.sum)?,
                Err(Fault(what)) => println!(host; "{name}: {what}")?,
            }
        }
    }
    Ok(())
}
