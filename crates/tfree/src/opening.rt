//! Opening a net for free workers.

ghost use Rattle.std.specs.Prelude.{◌≡◌, ◌+◌, ◌<◌, ◌≤◌, ◌++◌, [], length, take, drop, vec_len, vec_capacity, IfOk};
ghost use Rattle.std.specs.Prelude.{IfErr, IsTrue, Err};
ghost use Rattle.tnet.specs.NetParts.{net_of_parts};
ghost use Rattle.tnet.specs.Sound.{IsSound};
ghost use Rattle.tnet.specs.Sharing as spec;
ghost use Rattle.tword.specs.Limits.{most_workers};
ghost use Rattle.tfree.specs.Opened.{IsOpened, ComeFromOneOpen};
ghost use Rattle.tfree.specs.Allotments.{AreAllotted};
ghost use Rattle.tfree.specs.declared.opening.OpenFault.TheVariants as fault;

use crate::allotments::{Allotment, allotments};
use crate::worker::Worker;
use std::alloc::{AllocError, Global};
use tlink::Node;
use tnet::sharing::{is_bad_count, share};
use tnet::{Net, NetParts};

/// Why a net was not opened.
#[derive(Clone, Copy, Debug, PartialEq, Eq)]
pub enum OpenFault {
    /// There are no workers, or more than 64.
    BadWorkers,
    /// The allocator refused.
    OutOfMemory,
}

/// The first nodes move behind others, where there is room.
fn move_front(from: &mut Vec<Node>, to: &mut Vec<Node>, count: usize)
    requires count { count ≤ length from.old.items }
    requires room { vec_len to.old + count ≤ vec_capacity to.old }
    ensures from { from.new.items ≡ drop count from.old.items }
    ensures to { to.new.items ≡ to.old.items ++ take count from.old.items }
{
    for _moved in 0..count {
        to.push_reserved(from.remove(0));
    }
}

/// Each worker gets its allotment and its nodes, and keeps its events or not.
fn share_out(
    alloc: Global,
    parts: NetParts,
    mut allotments: Vec<Allotment>,
    mut workers: Vec<Worker>,
    kept: bool,
) -> Vec<Worker>
    requires sound { IsSound (net_of_parts parts) }
    requires some { (0 < length allotments.items) × (length allotments.items ≤ most_workers) }
    requires allotted { AreAllotted (net_of_parts parts) (length allotments.items) allotments.items }
    requires empty { workers.items ≡ [] }
    requires room { length allotments.items ≤ vec_capacity workers }
    ensures { IsOpened (net_of_parts parts) (length allotments.items) result.items }
{
    let NetParts {
        mut nodes,
        wires: _,
        inboxes: _,
    } = parts;
    let count = allotments.len();
    let size = share(nodes.len(), count);
    let mut first = 0;
    for number in 0..count {
        let mut allotment = allotments.remove(0);
        let owned = size.min(nodes.len());
        move_front(&mut nodes, &mut allotment.nodes, owned);
        workers.push_reserved(Worker::new(alloc, number, count, first, allotment, kept));
        first += owned;
    }
    workers
}

/// All that an opening takes memory for: the allotments, and room for the workers.
fn room(
    alloc: Global,
    parts: &NetParts,
    workers: usize,
) -> Result<(Vec<Allotment>, Vec<Worker>), AllocError>
    requires sound { IsSound (net_of_parts parts.now) }
    requires workers { (0 < workers) × (workers ≤ most_workers) }
    ensures allotted { IfOk result (λ r. AreAllotted (net_of_parts parts.now) workers r.0.items) }
    ensures empty { IfOk result (λ r. r.1.items ≡ []) }
    ensures room { IfOk result (λ r. workers ≤ vec_capacity r.1) }
{
    let allotments = allotments(alloc, parts, workers)?;
    let list = Vec::with_capacity(alloc, workers)?;
    Ok((allotments, list))
}

/// Opens a net for `workers` workers, from 1 to 64. The nodes, and behind them the sources and the sinks, are shared
/// out in their order, each worker gets as many as the others, rounded up, and the last may get fewer. What lay at the
/// ends of wires lies in the rings.
///
/// # Errors
/// `BadWorkers`, or `OutOfMemory`; the net comes back as it was.
pub fn open(alloc: Global, net: Net, workers: usize) -> Result<Vec<Worker>, (OpenFault, Net)>
    ensures opened { IfOk result (λ ws. IsOpened net workers ws.items) }
    ensures one { IfOk result (λ ws. ComeFromOneOpen ws.items) }
    ensures bad { IsTrue (spec.is_bad_count workers) → result ≡ Err (fault.BadWorkers, net) }
    ensures counted { IfErr result (λ e. e.0 ≡ fault.BadWorkers → IsTrue (spec.is_bad_count workers)) }
    ensures same { IfErr result (λ e. e.1 ≡ net) }
{
    open_keeping(alloc, net, workers, true)
}

/// Opens a net as `open` does, for workers that keep no event: only what they tell can be gathered, by
/// `gather_notes`.
///
/// # Errors
/// Those of `open`.
pub fn open_without_events(
    alloc: Global,
    net: Net,
    workers: usize,
) -> Result<Vec<Worker>, (OpenFault, Net)>
    ensures opened { IfOk result (λ ws. IsOpened net workers ws.items) }
    ensures one { IfOk result (λ ws. ComeFromOneOpen ws.items) }
    ensures bad { IsTrue (spec.is_bad_count workers) → result ≡ Err (fault.BadWorkers, net) }
    ensures counted { IfErr result (λ e. e.0 ≡ fault.BadWorkers → IsTrue (spec.is_bad_count workers)) }
    ensures same { IfErr result (λ e. e.1 ≡ net) }
{
    open_keeping(alloc, net, workers, false)
}

/// Opens a net for `workers` workers, which keep their events or not.
fn open_keeping(
    alloc: Global,
    net: Net,
    workers: usize,
    kept: bool,
) -> Result<Vec<Worker>, (OpenFault, Net)>
    ensures opened { IfOk result (λ ws. IsOpened net workers ws.items) }
    ensures one { IfOk result (λ ws. ComeFromOneOpen ws.items) }
    ensures bad { IsTrue (spec.is_bad_count workers) → result ≡ Err (fault.BadWorkers, net) }
    ensures counted { IfErr result (λ e. e.0 ≡ fault.BadWorkers → IsTrue (spec.is_bad_count workers)) }
    ensures same { IfErr result (λ e. e.1 ≡ net) }
{
    if is_bad_count(workers) {
        return Err((OpenFault::BadWorkers, net));
    }
    let parts = net.into_parts();
    match room(alloc, &parts, workers) {
        Ok((allotments, list)) => Ok(share_out(alloc, parts, allotments, list, kept)),
        Err(_refused) => Err((OpenFault::OutOfMemory, Net::from_parts(parts))),
    }
}
