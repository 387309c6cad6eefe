//! Benchmarks of the crates that run nets: `benchmarks NAME AMOUNT` does this amount of work of a benchmark, or of each
//! by the name `all`. Several may follow one another. `bench/run` times them against plain Rust.
#![tactic(auto)]

mod answer;
mod benchmark;
mod crew;
mod free;
mod idle;
mod local_loop;
mod mixed_code;
mod nets;
mod pipeline;
mod programs;
mod rounds;
mod scheduling;

use std::env::{self, Args};
use std::io::Write;
use std::process::ExitCode;
use std::thread::Threads;

/// Why no more benchmarks are run.
#[derive(Drop)]
enum Stop {
    /// There are no more words.
    End,
    /// The words ask for no benchmark.
    Unknown,
    /// What a benchmark prints cannot be written.
    Failed,
}

/// The words behind the program's name.
fn words_of(rt: &HostRuntime) -> Option<Args> {
    let mut words = env::args(rt).ok()?;
    words.next()?;
    Some(words)
}

/// Runs what the next two words ask for.
fn run_next<R: Threads + Sync>(host: &HostRuntime, rt: &R, words: &mut Args) -> Result<(), Stop> {
    let Some(name) = words.next() else {
        return Err(Stop::End);
    };
    let Some(amount) = words.next() else {
        return Err(Stop::Unknown);
    };
    let Ok(amount) = amount.as_str().parse::<u32>() else {
        return Err(Stop::Unknown);
    };
    match benchmark::run(host, rt, name.as_str(), amount) {
        Ok(()) => Ok(()),
        Err(_fault) => Err(Stop::Failed),
    }
}

/// Runs all that the words ask for: answers why there is no more.
fn run_all<R: Threads + Sync>(host: &HostRuntime, rt: &R, words: &mut Args) -> Stop {
    for _benchmark in 0..u64::MAX {
        if let Err(stop) = run_next(host, rt, words) {
            return stop;
        }
    }
    Stop::End
}

fn main(rt: HostRuntime) -> ExitCode {
    let stop = match words_of(&rt) {
        Some(mut words) => run_all(&rt, &rt, &mut words),
        None => Stop::Unknown,
    };
    match stop {
        Stop::End => ExitCode::SUCCESS,
        Stop::Failed => ExitCode::FAILURE,
        Stop::Unknown => {
            let _ = rt.stdout().write_all(b"benchmarks [NAME AMOUNT]..\n");
            ExitCode::from(2)
        }
    }
}
