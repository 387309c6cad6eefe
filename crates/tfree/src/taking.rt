//! Workers taken apart, in the order of their numbers.

ghost use Rattle.std.specs.Prelude.{◌≡◌, ◌≢◌, ◌<◌, ◌≤◌, ◌+◌, ◌++◌, ℕ, vec_len, vec_capacity, IfOk, IfSome};
ghost use Rattle.std.specs.Option.{IsSome};
ghost use Rattle.tfree.specs.Opened.{worker_of, AreOfOpening};
ghost use Rattle.tfree.specs.TakenApart.{IsAdded, HasRoomForParts, KeepsRoom, AreTaken, IsRoom};

use crate::ends::{InEnd, OutEnd, Slots};
use crate::event_list::EventList;
use crate::gathering::place_of;
use crate::stamp::StampedNote;
use crate::worker::{Worker, WorkerParts};
use std::alloc::{AllocError, Global};
use std::collections::VecDeque;
use tlink::Node;
use tnet::Wires;
use tword::limits::MOST_NODES;

/// What a worker did, of which the list knows no more than how much it is where it keeps none, and what it told of it,
/// the earliest in front.
#[derive(Drop)]
pub(crate) struct Taken {
    pub(crate) events: EventList,
    pub(crate) told: VecDeque<StampedNote>,
}

/// What workers bring, one behind another in the order of their numbers.
#[derive(Drop)]
pub(crate) struct Brought {
    pub(crate) nodes: Vec<Node>,
    /// The ends of rings that take, a row for each node.
    pub(crate) ins: Vec<Slots<InEnd>>,
    /// The ends of rings that put, a row for each node.
    pub(crate) outs: Vec<Slots<OutEnd>>,
    /// What each worker did and told.
    pub(crate) taken: Vec<Taken>,
}

impl Brought {
    /// Room for what `count` workers bring.
    pub(crate) fn room(alloc: Global, count: usize) -> Result<Brought, AllocError>
        ensures { IfOk result (IsRoom count) }
    {
        Ok(Brought {
            nodes: Vec::with_capacity(alloc, MOST_NODES)?,
            ins: Vec::with_capacity(alloc, MOST_NODES)?,
            outs: Vec::with_capacity(alloc, MOST_NODES)?,
            taken: Vec::with_capacity(alloc, count)?,
        })
    }
}

/// The elements of a list go behind those of another, where there is room.
fn move_all<T: Drop>(from: Vec<T>, to: &mut Vec<T>)
    requires { vec_len to.old + vec_len from ≤ vec_capacity to.old }
    ensures items { to.new.items ≡ to.old.items ++ from.items }
    ensures capacity { vec_capacity to.old ≤ vec_capacity to.new }
{
    let mut from = from;
    let _there_is_room = to.append(&mut from);
}

/// The parts of a worker go behind the rest. Its wires are left.
fn add(worker: Worker, all: &mut Brought) -> Wires
    requires { HasRoomForParts worker.share.owned all.old }
    ensures added { IsAdded worker all.old all.new result }
    ensures room { KeepsRoom all.old all.new }
{
    let WorkerParts {
        wires,
        nodes,
        ins,
        outs,
        log,
    } = worker.into_parts();
    move_all(nodes, &mut all.nodes);
    move_all(ins, &mut all.ins);
    move_all(outs, &mut all.outs);
    all.taken.push_reserved(Taken {
        events: log.events,
        told: VecDeque::from(log.told),
    });
    wires
}

/// The worker of a number is taken out of a list, and apart.
fn take_one(workers: &mut Vec<Worker>, number: usize, all: &mut Brought) -> Wires
    requires there { IsSome (worker_of number workers.old.items) }
    requires room { IfSome (worker_of number workers.old.items) (λ v. HasRoomForParts v.share.owned all.old) }
    ensures added { IfSome (worker_of number workers.old.items) (λ v. IsAdded v all.old all.new result) }
    ensures others { (j : ℕ) → j ≢ number → worker_of j workers.new.items ≡ worker_of j workers.old.items }
    ensures room { KeepsRoom all.old all.new }
{
    let Some(place) = place_of(workers.as_slice(), number) else {
        unreachable!()
    };
    add(workers.remove(place), all)
}

/// All workers are taken apart, in the order of their numbers. The wires are left.
pub(crate) fn take_all(workers: Vec<Worker>, count: usize, all: &mut Brought) -> Wires
    requires some { 0 < count }
    requires there { (j : ℕ) → j < count → IsSome (worker_of j workers.items) }
    requires opening { AreOfOpening count workers.items }
    requires room { IsRoom count all.old }
    ensures taken { AreTaken workers.items count all.new }
    ensures wires { IfSome (worker_of 0 workers.items) (λ v. result ≡ v.share.opened.wires) }
{
    let mut workers = workers;
    let wires = take_one(&mut workers, 0, all);
    for number in 1..count {
        take_one(&mut workers, number, all);
    }
    wires
}
