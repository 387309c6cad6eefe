//! Free workers, and what is printed of what they did: trace, what is shown of the net, and last line.

ghost use Rattle.std.specs.Prelude.{◌≡◌, Ok, Err, IfOk, IfErr, IsTrue, MatchResult, length, map, true, OnOk};
ghost use Rattle.std.specs.Io.KnownBytes.{Appends};
ghost use Rattle.tnet.specs.Notes.{notes};
ghost use Rattle.tnet.specs.Quiet.{is_quiet};
ghost use Rattle.tnet.specs.Runs.{IsSeenRun};
ghost use Rattle.tnet.specs.Sharing.{is_bad_count};
ghost use Rattle.tnet.specs.Sound.{IsSound};
ghost use Rattle.tfree.specs.Opened.{share_of, IsOpened};
ghost use Rattle.tfree.specs.Turning.{AreTurned};
ghost use Rattle.tfree.specs.declared.opening.OpenFault.TheVariants.{BadWorkers};
ghost use Rattle.tfiles.specs.Failures.{HasStayed};
ghost use Rattle.topening.specs.declared.fault.Fault.TheVariants.{Memory};
ghost use Rattle.ttext.specs.declared.printed_run.RunEnd.TheVariants.{Turns};
ghost use Rattle.ttext.specs.Free as spec;
ghost use Rattle.ttext.specs.Free.{shared_of, shared_with, AreFree, AreFreeUnkept, IsFreeLeft, IsFreeRun};
ghost use Rattle.ttext.specs.Free.{IsFreeShown};
ghost use Rattle.topening.specs.Faults.{HasOutputCause, IsDue, IsFaultOf};
ghost use Rattle.ttext.specs.Outcomes.{ShowsOneRun};

use crate::printed_run::{RunEnd, lists_for, write_run};
use std::alloc::Global;
use std::thread::Threads;
use tfiles::counted::CountedWrite;
use tfree::laws::opened_workers_stay;
use tfree::{
    GatherFault, Gathered, OpenFault, Told, Worker, gather, gather_notes, open,
    open_without_events, turn_all,
};
use tnet::Net;
use tnet::laws::quiet_is_nothing_enabled;
use topening::Fault;
use topening::opening::open_net;
use tplan::{Options, Wiring};
use trounds::NetFault;
use tword::Items;
use twords::Printing;

/// Runs the net of a wiring and the files of its images, one file a node, by free workers: each makes as many turns as
/// the options have rounds, on a thread of its own where one can be started, or stops at a full clock, or when none
/// finds anything more to do; then they are gathered. It writes the trace, what is to be shown of the net then (the
/// dump of each node, source and sink, where the net stands, or nothing), and a last line `end quiet`, or `end turns`
/// where the net is not quiet. The wiring's holds are ignored. Nothing is written before the workers are gathered and
/// all memory is taken.
///
/// # Errors
/// The first of these: `Image` for the first file that is no image, `Net` for the lowest fault of the plan,
/// `Rounds` with `BadWorkers` outside 1 to 64, `Output` where the writer failed. `Memory` where the allocator
/// refused, in a turn too. Unless the error is `Output`, nothing was written.
pub fn free_text<R: Threads + Sync, W: CountedWrite>(
    rt: &R,
    alloc: Global,
    wiring: &Wiring,
    files: Items<Items<u8>>,
    options: &Options,
    printing: Printing,
    out: &mut W,
) -> Result<Gathered, Fault>
    requires { length files ≡ length wiring.now.nodes }
    // what workers did on the net of the wiring; and each fault is the first that is due
    ensures answer { MatchResult result
        (IsFreeRun wiring.now files options.now)
        (IsDue (shared_of wiring.now files options.now)) }

    // what is printed of free workers is written
    ensures text { IfOk result (λ g. Appends (W.contents out.old) (W.contents out.new) (spec.free_text printing g)) }

    // the headline: this is the text of one run of the rendezvous machine, in which each message that is complete
    // is one step that copies it whole; what is shown is that of the net that it leaves
    ensures run { IfOk result
        (λ g. ShowsOneRun printing wiring.now files g.history (spec.end_of g) (W.contents out.old)
        (W.contents out.new)) }

    // where a fault is answered nothing is written, or the beginning of the text of what workers did
    ensures left { IfErr result
        (IsFreeLeft W.contents printing (IsFreeRun wiring.now files options.now) out.old out.new) }

    // the output failed just where a write did
    ensures cause { IfErr result (HasOutputCause (W.failures out.old) (W.failures out.new)) }
    ensures stayed { OnOk result (HasStayed (W.failures out.old) (W.failures out.new)) }
{
    let net = open_net(alloc, wiring, files)?;
    let gathered = run_free(rt, alloc, net, options)?;
    let end = end_of(&gathered.net);
    let lists = lists_for(alloc, printing, &gathered.net)?;
    let notes = gathered.notes.as_slice();
    write_run(out, notes, &gathered.net, end, printing, lists.as_slice())?;
    Ok(gathered)
}

/// Does what `free_text` does by workers that keep no event, and answers the net.
///
/// # Errors
/// Those of `free_text`.
pub(crate) fn free_net<R: Threads + Sync, W: CountedWrite>(
    rt: &R,
    alloc: Global,
    wiring: &Wiring,
    files: Items<Items<u8>>,
    options: &Options,
    printing: Printing,
    out: &mut W,
) -> Result<Net, Fault>
    requires { length files ≡ length wiring.now.nodes }
    ensures answer { MatchResult result
        (λ net. IsFreeShown W.contents printing wiring.now files options.now net out.old out.new)
        (IsDue (shared_of wiring.now files options.now)) }
    ensures left { IfErr result
        (IsFreeLeft W.contents printing (IsFreeRun wiring.now files options.now) out.old out.new) }
    ensures cause { IfErr result (HasOutputCause (W.failures out.old) (W.failures out.new)) }
    ensures stayed { OnOk result (HasStayed (W.failures out.old) (W.failures out.new)) }
{
    let net = open_net(alloc, wiring, files)?;
    let told = tell_free(rt, alloc, net, options)?;
    let end = end_of(&told.net);
    let lists = lists_for(alloc, printing, &told.net)?;
    let notes = told.notes.as_slice();
    write_run(out, notes, &told.net, end, printing, lists.as_slice())?;
    Ok(told.net)
}

/// What free workers do on a net, and tell, of which no event is kept.
fn tell_free<R: Threads + Sync>(
    rt: &R,
    alloc: Global,
    net: Net,
    options: &Options,
) -> Result<Told, Fault>
    ensures answer { MatchResult result
        (AreFreeUnkept net options.now)
        (IsFaultOf (shared_with options.now (Ok net))) }
    ensures due { IfOk result (λ _. shared_with options.now (Ok net) ≡ Ok net) }
    ensures sound { IfOk result (λ t. IsSound t.net) }
{
    let workers = turned(rt, alloc, share(alloc, net, options, false)?, options)?;
    opened_workers_stay();
    match gather_notes(alloc, workers) {
        Ok(told) => Ok(told),
        Err((GatherFault::OutOfMemory, _refused)) => Err(Fault::Memory),
        Err((GatherFault::Missing(_number), _refused)) => unreachable!(),
    }
}

/// What free workers do on a net.
fn run_free<R: Threads + Sync>(
    rt: &R,
    alloc: Global,
    net: Net,
    options: &Options,
) -> Result<Gathered, Fault>
    ensures answer { MatchResult result (AreFree net options.now) (IsFaultOf (shared_with options.now (Ok net))) }
    ensures due { IfOk result (λ _. shared_with options.now (Ok net) ≡ Ok net) }
    ensures run { IfOk result (λ g. IsSeenRun net g.history g.net) }
    ensures told { IfOk result (λ g. g.notes ≡ notes g.history net) }
    ensures sound { IfOk result (λ g. IsSound g.net) }
{
    let workers = turned(rt, alloc, share(alloc, net, options, true)?, options)?;
    opened_workers_stay();
    match gather(alloc, workers) {
        Ok(gathered) => Ok(gathered),
        Err((GatherFault::OutOfMemory, _workers)) => Err(Fault::Memory),
        Err((GatherFault::Missing(_number), _workers)) => unreachable!(),
    }
}

/// The workers that share a net, and keep their events or not.
fn share(
    alloc: Global,
    net: Net,
    options: &Options,
    with_events: bool,
) -> Result<Vec<Worker>, Fault>
    ensures answer { MatchResult result
        (λ workers. IsOpened net options.now.workers workers.items)
        (IsFaultOf (shared_with options.now (Ok net))) }
    ensures due { IfOk result (λ _. shared_with options.now (Ok net) ≡ Ok net) }
{
    match open_for(alloc, net, options.workers, with_events) {
        Ok(workers) => Ok(workers),
        Err((OpenFault::BadWorkers, _net)) => Err(Fault::Rounds(NetFault::BadWorkers)),
        Err((OpenFault::OutOfMemory, _net)) => Err(Fault::Memory),
    }
}

/// Opens a net for workers that keep their events or not.
fn open_for(
    alloc: Global,
    net: Net,
    workers: usize,
    with_events: bool,
) -> Result<Vec<Worker>, (OpenFault, Net)>
    ensures opened { IfOk result (λ ws. IsOpened net workers ws.items) }
    ensures bad { IsTrue (is_bad_count workers) → result ≡ Err (BadWorkers, net) }
    ensures counted { IfErr result (λ e. e.0 ≡ BadWorkers → IsTrue (is_bad_count workers)) }
    ensures same { IfErr result (λ e. e.1 ≡ net) }
{
    if with_events {
        open(alloc, net, workers)
    } else {
        open_without_events(alloc, net, workers)
    }
}

/// Workers that made their turns.
fn turned<R: Threads + Sync>(
    rt: &R,
    alloc: Global,
    mut workers: Vec<Worker>,
    options: &Options,
) -> Result<Vec<Worker>, Fault>
    ensures turns { IfOk result
        (λ turned. AreTurned options.now.rounds options.now.slice workers.items true turned.items) }
    ensures same { IfOk result (λ turned. map share_of turned.items ≡ map share_of workers.items) }
    ensures memory { IfErr result (λ fault. fault ≡ Memory) }
{
    turn_all(
        rt,
        alloc,
        workers.as_mut_slice(),
        options.rounds,
        options.slice,
    )?;
    Ok(workers)
}

/// How the turns of free workers ended.
fn end_of(net: &Net) -> RunEnd
    requires { IsSound net.now }
    ensures { result ≡ Turns (is_quiet net.now) }
{
    quiet_is_nothing_enabled();
    RunEnd::Turns {
        is_quiet: net.is_quiet(),
    }
}
