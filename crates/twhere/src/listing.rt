//! The processes of a net that are queued or wait, in the order in which they are told. All memory that the text
//! takes is taken here.

ghost use Rattle.std.specs.Prelude.{◌≡◌, ◌≤◌, ◌==◌, ◌&&◌, [], IfOk, is_none, length, map, nat_le};
ghost use Rattle.std.specs.List.{position_or_len};
ghost use Rattle.tproc.specs.Entries.{queue_in, waiting_in};
ghost use Rattle.tproc.specs.Machine.{priority_of};
ghost use Rattle.tlink.specs.Whole.{IsWhole};
ghost use Rattle.twhere.specs.Standing.{by_descriptor, descriptors, inserted, listed_of};

use std::alloc::{AllocError, Global};
use tlink::{Node, Role};
use tnet::Net;
use tproc::{Entry, Processor, Waiter};
use tword::{Items, Word};

/// The processes of a node that are queued or wait.
#[derive(Drop)]
pub struct Listed {
    /// The descriptors of the high queue, from its front on.
    pub high: Items<Word>,
    /// The descriptors of the low queue, from its front on.
    pub low: Items<Word>,
    /// The processes that wait, in the order of their descriptors.
    pub waiting: Items<Waiter>,
}

/// The processes of each node of a net that are queued or wait.
///
/// # Errors
/// Where the allocator refuses.
pub fn list_net(alloc: Global, net: &Net) -> Result<Items<Listed>, AllocError>
    ensures { IfOk result (λ all. all ≡ map (λ n. listed_of n.machine.control) net.now.nodes) }
{
    let mut all = Vec::new(alloc);
    for node in net.nodes() {
        all.push(list_node(alloc, node)?)?;
    }
    Ok(Items::new(all))
}

/// The processes of a node that are queued or wait. A script has none.
fn list_node(alloc: Global, node: &Node) -> Result<Listed, AllocError>
    requires { IsWhole node.now }
    ensures { IfOk result (λ l. l ≡ listed_of node.now.machine.control) }
{
    match node.role() {
        Role::Processor(processor) => list_processes(alloc, processor),
        Role::Source(_) => Ok(none_listed(alloc)),
        Role::Sink(_) => Ok(none_listed(alloc)),
    }
}

/// No processes. It takes no memory.
fn none_listed(alloc: Global) -> Listed
    ensures { result ≡ record { high = []; low = []; waiting = [] } }
{
    Listed {
        high: Items::new(Vec::new(alloc)),
        low: Items::new(Vec::new(alloc)),
        waiting: Items::new(Vec::new(alloc)),
    }
}

/// The processes of a processor that are queued or wait.
fn list_processes(alloc: Global, processor: &Processor) -> Result<Listed, AllocError>
    ensures { IfOk result (λ l. l ≡ listed_of processor.now.control) }
{
    let entries = processor.processes(alloc)?;
    Ok(Listed {
        high: queued(alloc, entries.as_slice(), 0)?,
        low: queued(alloc, entries.as_slice(), 1)?,
        waiting: waiting(alloc, entries.as_slice())?,
    })
}

/// The descriptors of the processes that are queued with this priority.
fn queued(alloc: Global, entries: &[Entry], priority: u32) -> Result<Items<Word>, AllocError>
    ensures { IfOk result (λ all. all ≡ descriptors priority (queue_in priority entries.now)) }
{
    let mut all = Vec::new(alloc);
    for entry in entries {
        if is_queued(entry, priority) {
            all.push(entry.process)?;
        }
    }
    Ok(Items::new(all))
}

/// Whether a process is queued with this priority.
fn is_queued(entry: &Entry, priority: u32) -> bool
    ensures { result ≡ (is_none entry.now.reason && (priority_of entry.now.process == priority)) }
{
    entry.reason.is_none() && entry.process.get() % 2 == priority
}

/// The processes of a list that wait, in the order of their descriptors.
fn waiting(alloc: Global, entries: &[Entry]) -> Result<Items<Waiter>, AllocError>
    ensures { IfOk result (λ all. all ≡ by_descriptor (waiting_in entries.now)) }
{
    let mut all = Vec::new(alloc);
    for entry in entries {
        if let Some(reason) = entry.reason {
            insert(
                &mut all,
                Waiter {
                    process: entry.process,
                    reason,
                },
            )?;
        }
    }
    Ok(Items::new(all))
}

/// Puts a waiting process before the first whose descriptor is not below its own.
fn insert(sorted: &mut Vec<Waiter>, waiter: Waiter) -> Result<(), AllocError>
    ensures { IfOk result (λ _. sorted.new.items ≡ inserted sorted.old.items waiter) }
{
    let place = place_of(sorted.as_slice(), waiter.process);
    sorted.insert(place, waiter)?;
    Ok(())
}

/// The place of the first process of a list whose descriptor is not below this one; behind all where there is none.
fn place_of(sorted: &[Waiter], process: Word) -> usize
    ensures place { result ≡ position_or_len (λ v. nat_le process v.process) sorted.now }
    ensures within { result ≤ length sorted.now }
{
    for (place, other) in sorted.iter().enumerate() {
        if process.get() <= other.process.get() {
            return place;
        }
    }
    sorted.len()
}
