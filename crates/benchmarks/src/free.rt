//! Workers that make turns of their own, and are gathered.

ghost use Rattle.std.specs.Prelude.{◌≡◌, IfOk, map};
ghost use Rattle.tfree.specs.Opened.{share_of, ComeFromOneOpen};

use crate::answer::Fault;
use crate::crew::Crew;
use std::alloc::{AllocError, Global};
use std::thread::Threads;
use tfree::laws::one_opening_stays;
use tfree::{Worker, gather, open, turn_all};
use tnet::Net;

/// A net is opened for workers.
fn opened(alloc: Global, net: Net, workers: usize) -> Result<Vec<Worker>, Fault>
    ensures { IfOk result (λ workers. ComeFromOneOpen workers.items) }
{
    match open(alloc, net, workers) {
        Ok(workers) => Ok(workers),
        Err(_refused) => Err(Fault("a net is not opened")),
    }
}

/// Does `count` turns of each worker.
fn turn<R: Threads + Sync>(
    rt: &R,
    alloc: Global,
    workers: &mut Vec<Worker>,
    count: u32,
    slice: u32,
) -> Result<(), AllocError>
    ensures { map share_of workers.new.items ≡ map share_of workers.old.items }
{
    turn_all(rt, alloc, workers.as_mut_slice(), count, slice)
}

/// Gathers the workers: how many events they did, and the net after them.
fn gathered(alloc: Global, workers: Vec<Worker>) -> Result<(u64, Net), Fault>
    requires { ComeFromOneOpen workers.items }
{
    match gather(alloc, workers) {
        Ok(gathered) => Ok((gathered.history.as_slice().len() as u64, gathered.net)),
        Err(_refused) => Err(Fault("workers are not gathered")),
    }
}

/// Does `count` turns of each worker on a net: how many events that was, and the net after them.
pub fn turned<R: Threads + Sync>(
    rt: &R,
    alloc: Global,
    net: Net,
    crew: Crew,
    count: u32,
) -> Result<(u64, Net), Fault> {
    let mut workers = opened(alloc, net, crew.workers)?;
    turn(rt, alloc, &mut workers, count, crew.slice)?;
    one_opening_stays();
    gathered(alloc, workers)
}
