//! What is printed of a run, whichever way it was done: trace, what is shown of the net that it leaves, and last line;
//! in lines, or as JSON.

ghost use Rattle.std.specs.Prelude.{◌≡◌, ◌≤◌, IfErr, IfOk, OnOk, length};
ghost use Rattle.tword.specs.Limits.{most_nodes};
ghost use Rattle.tfiles.specs.Failures.{HasRisen, HasStayed};
ghost use Rattle.tfiles.specs.Outputs.{IsOut, Tells};
ghost use Rattle.twords.specs.declared.table.Printing.TheVariants.{Json, Lines};
ghost use Rattle.ttext.specs.PrintedRuns.{json_last, json_net, last_line, listed_for, listed_to_print, printed_run};
ghost use Rattle.ttext.specs.PrintedRuns.{shown_net};

use std::alloc::{AllocError, Global};
use tfiles::counted::CountedWrite;
use tfiles::writing::dump::put_dump;
use tfiles::writing::end::{put_free_end, put_replay_end, put_rounds_end};
use tfiles::writing::output::{Output, WriteFault};
use tfiles::writing::trace::put_trace;
use tjson::{
    put_json_free_end, put_json_nodes, put_json_replay_end, put_json_rounds_end, put_json_trace,
};
use tnet::Net;
use tplan::Note;
use twhere::{Listed, list_net, put_where};
use tword::Items;
use twords::{Printing, Show};

/// How a run has ended, as its last line tells.
#[derive(Clone, Copy)]
pub enum RunEnd {
    /// After `rounds` rounds, in a net that is quiet or is not.
    Rounds { is_quiet: bool, rounds: u32 },
    /// After the turns of free workers, in a net that is quiet or is not.
    Turns { is_quiet: bool },
    /// After `events` events of a log.
    Replay { events: u64 },
}

/// The lists that it takes to print this of a run that leaves a net: of where the net stands the processes of each
/// node, else none.
///
/// # Errors
/// Where the allocator refuses.
pub(crate) fn lists_for(
    alloc: Global,
    printing: Printing,
    net: &Net,
) -> Result<Items<Listed>, AllocError>
    ensures { IfOk result (λ lists. lists ≡ listed_to_print printing net.now) }
{
    match printing {
        Printing::Lines(Show::Where) => list_net(alloc, net),
        Printing::Lines(Show::Dump | Show::Nothing) | Printing::Json { .. } => {
            Ok(Items::new(Vec::new(alloc)))
        }
    }
}

/// Writes what is printed of a run that told these notes, left this net and ended so; the lists are those that this
/// takes.
pub(crate) fn write_run<W: CountedWrite>(
    out: &mut W,
    notes: &[Note],
    net: &Net,
    end: RunEnd,
    printing: Printing,
    lists: &[Listed],
) -> Result<(), WriteFault>
    requires listed { lists.now ≡ listed_to_print printing net.now }
    requires few { length net.now.nodes ≤ most_nodes }
    ensures out { IsOut (W.contents out.old) (W.contents out.new) (printed_run printing notes.now net.now end) result }
    ensures cause { IfErr result (λ _. HasRisen (W.failures out.old) (W.failures out.new)) }
    ensures stayed { OnOk result (HasStayed (W.failures out.old) (W.failures out.new)) }
{
    let mut output = Output::new(out);
    put_run(&mut output, notes, net, end, printing, lists);
    output.finish()
}

/// What is printed of a run, with the lists that it takes.
fn put_run<W: CountedWrite>(
    out: &mut Output<'_, W>,
    notes: &[Note],
    net: &Net,
    end: RunEnd,
    printing: Printing,
    lists: &[Listed],
)
    requires listed { lists.now ≡ listed_to_print printing net.now }
    requires few { length net.now.nodes ≤ most_nodes }
    ensures { Tells W.contents W.failures out.old out.new (printed_run printing notes.now net.now end) }
{
    match printing {
        Printing::Lines(show) => put_lines(out, notes, net, end, show, lists),
        Printing::Json { with_nodes } => put_json(out, notes, net, end, with_nodes),
    }
}

/// What is printed of a run in lines, with the lists that it takes.
fn put_lines<W: CountedWrite>(
    out: &mut Output<'_, W>,
    notes: &[Note],
    net: &Net,
    end: RunEnd,
    show: Show,
    lists: &[Listed],
)
    requires listed { lists.now ≡ listed_for show net.now }
    requires few { length net.now.nodes ≤ most_nodes }
    ensures { Tells W.contents W.failures out.old out.new (printed_run (Lines show) notes.now net.now end) }
{
    put_trace(out, notes);
    put_shown(out, net, show, lists);
    put_end(out, end);
}

/// What is printed of a run as JSON.
fn put_json<W: CountedWrite>(
    out: &mut Output<'_, W>,
    notes: &[Note],
    net: &Net,
    end: RunEnd,
    with_nodes: bool,
)
    ensures { Tells W.contents W.failures out.old out.new (printed_run (Json with_nodes) notes.now net.now end) }
{
    put_json_trace(out, notes);
    put_json_net(out, net, with_nodes);
    put_json_end(out, end);
}

/// What is shown of a net, with the lists that it takes.
fn put_shown<W: CountedWrite>(out: &mut Output<'_, W>, net: &Net, show: Show, lists: &[Listed])
    requires listed { lists.now ≡ listed_for show net.now }
    requires few { length net.now.nodes ≤ most_nodes }
    ensures { Tells W.contents W.failures out.old out.new (shown_net show net.now) }
{
    match show {
        Show::Dump => put_dump(out, net),
        Show::Where => put_where(out, net, lists),
        Show::Nothing => {}
    }
}

/// The last line of what is printed of a run.
fn put_end<W: CountedWrite>(out: &mut Output<'_, W>, end: RunEnd)
    ensures { Tells W.contents W.failures out.old out.new (last_line end) }
{
    match end {
        RunEnd::Rounds { is_quiet, rounds } => put_rounds_end(out, is_quiet, rounds),
        RunEnd::Turns { is_quiet } => put_free_end(out, is_quiet),
        RunEnd::Replay { events } => put_replay_end(out, events),
    }
}

/// What is told of a net as JSON: its nodes, sources and sinks, or nothing.
fn put_json_net<W: CountedWrite>(out: &mut Output<'_, W>, net: &Net, with_nodes: bool)
    ensures { Tells W.contents W.failures out.old out.new (json_net with_nodes net.now) }
{
    if with_nodes {
        put_json_nodes(out, net);
    }
}

/// The last line of what is printed of a run as JSON.
fn put_json_end<W: CountedWrite>(out: &mut Output<'_, W>, end: RunEnd)
    ensures { Tells W.contents W.failures out.old out.new (json_last end) }
{
    match end {
        RunEnd::Rounds { is_quiet, rounds } => put_json_rounds_end(out, is_quiet, rounds),
        RunEnd::Turns { is_quiet } => put_json_free_end(out, is_quiet),
        RunEnd::Replay { events } => put_json_replay_end(out, events),
    }
}
