//! Free workers that turn one after another, and are gathered. A call that is refused memory gives back what it took,
//! and is called again; it is noted which call that was.

ghost use Rattle.std.specs.Prelude.{◌≡◌, ◌<◌, ◌≤◌, length, IfOk};
ghost use Rattle.std.specs.List.{insert};
ghost use Rattle.tfree.specs.Opened.{ComeFromOneOpen};

use crate::alike::are_alike;
use crate::fault::{Fault, require};
use crate::story::Call;
use std::alloc::{AllocError, Global};
use tfree::laws::{one_opening_stays, some_come_from_one_open};
use tfree::{GatherFault, Gathered, OpenFault, TurnFault, Turned, Worker, gather, open};
use tnet::Net;

/// How many Runs a node makes in a turn at most.
pub const SLICE: u32 = 64;

/// More rotations than any of the nets needs.
const ROTATIONS: u32 = 100_000;

/// The net that came back is opened again, since lack of memory was the fault.
fn opened_again(
    alloc: Global,
    back: Net,
    count: usize,
    fault: OpenFault,
) -> Result<Vec<Worker>, Fault>
    ensures { IfOk result (λ workers. ComeFromOneOpen workers.items) }
{
    require(
        fault == OpenFault::OutOfMemory,
        "the opening has another fault",
    )?;
    match open(alloc, back, count) {
        Ok(workers) => Ok(workers),
        Err(_refused) => Err(Fault::Wrong("the net is not opened again")),
    }
}

/// A net is opened for workers. Where that is refused, it comes back as it was, and is opened again.
pub fn opened(
    alloc: Global,
    net: Net,
    count: usize,
    refused: &mut Option<Call>,
) -> Result<Vec<Worker>, Fault>
    ensures { IfOk result (λ workers. ComeFromOneOpen workers.items) }
{
    let copy = net.try_copy(alloc)?;
    match open(alloc, net, count) {
        Ok(workers) => Ok(workers),
        Err((fault, back)) => {
            *refused = Some(Call::Open);
            require(are_alike(&back, &copy), "the net that came back is another")?;
            opened_again(alloc, back, count, fault)
        }
    }
}

/// A turn of the worker at a place, if there is one.
pub fn turn_at(workers: &mut Vec<Worker>, place: usize) -> Result<Turned, TurnFault>
    requires { ComeFromOneOpen workers.old.items }
    ensures { ComeFromOneOpen workers.new.items }
{
    one_opening_stays();
    if place >= workers.len() {
        return Ok(Turned { events: 0 });
    }
    workers[place].turn(SLICE)
}

/// How many events a turn did. One that was refused ended early, and another has to go on: that counts as an event.
fn counted(turned: Result<Turned, TurnFault>, refused: &mut Option<Call>) -> Result<u64, Fault> {
    match turned {
        Ok(Turned { events }) => Ok(events),
        Err(TurnFault::OutOfMemory) => {
            *refused = Some(Call::Turn);
            Ok(1)
        }
        Err(_fault) => Err(Fault::Wrong("a turn has another fault")),
    }
}

/// A turn of each worker, one after another: how many events they did together.
pub fn rotate(workers: &mut Vec<Worker>, refused: &mut Option<Call>) -> Result<u64, Fault>
    requires { ComeFromOneOpen workers.old.items }
    ensures { ComeFromOneOpen workers.new.items }
{
    let mut events: u64 = 0;
    for place in 0..workers.len() {
        let turned = turn_at(workers, place);
        events = events.saturating_add(counted(turned, refused)?);
    }
    Ok(events)
}

/// The workers turn in rotation until a rotation does nothing.
pub fn rotate_until_idle(workers: &mut Vec<Worker>, refused: &mut Option<Call>) -> Result<(), Fault>
    requires { ComeFromOneOpen workers.old.items }
    ensures { ComeFromOneOpen workers.new.items }
{
    for _rotation in 0..ROTATIONS {
        if rotate(workers, refused)? == 0 {
            return Ok(());
        }
    }
    Err(Fault::Wrong("the workers do not rest"))
}

/// The workers that came back are gathered, since lack of memory was the fault.
fn gathered_again(
    alloc: Global,
    workers: Vec<Worker>,
    fault: GatherFault,
) -> Result<Gathered, Fault>
    requires { ComeFromOneOpen workers.items }
{
    require(
        fault == GatherFault::OutOfMemory,
        "gathering has another fault",
    )?;
    match gather(alloc, workers) {
        Ok(done) => Ok(done),
        Err(_refused) => Err(Fault::Wrong("the workers are not gathered again")),
    }
}

/// The workers are gathered. Where that is refused, they come back, and are gathered again.
pub fn gathered(
    alloc: Global,
    workers: Vec<Worker>,
    refused: &mut Option<Call>,
) -> Result<Gathered, Fault>
    requires { ComeFromOneOpen workers.items }
{
    match gather(alloc, workers) {
        Ok(done) => Ok(done),
        Err((fault, back)) => {
            *refused = Some(Call::Gather);
            gathered_again(alloc, back, fault)
        }
    }
}

/// The worker at a place is held back from the others.
pub fn hold_back(workers: &mut Vec<Worker>, place: usize) -> Worker
    requires there { place < length workers.old.items }
    requires one { ComeFromOneOpen workers.old.items }
    ensures others { ComeFromOneOpen workers.new.items }
    ensures whole { insert workers.new.items place result ≡ workers.old.items }
{
    some_come_from_one_open();
    workers.remove(place)
}

/// A worker that was held back is put back at its place.
pub fn put_back(workers: &mut Vec<Worker>, place: usize, worker: Worker) -> Result<(), AllocError>
    requires there { place ≤ length workers.old.items }
    requires whole { ComeFromOneOpen (insert workers.old.items place worker) }
    ensures { IfOk result (λ _. ComeFromOneOpen workers.new.items) }
{
    workers.insert(place, worker)?;
    Ok(())
}
