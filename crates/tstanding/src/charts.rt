//! A picture of the events of a log.

ghost use Rattle.std.specs.Prelude.{◌≡◌, IfErr, IsOkAnd, OnOk, MatchResult, length};
ghost use Rattle.std.specs.Io.KnownBytes.{Appends};
ghost use Rattle.tchart.specs.Drawing as drawing;
ghost use Rattle.tfiles.specs.Failures.{HasRisen, HasStayed};
ghost use Rattle.tfiles.specs.Outputs.{IsOut};
ghost use Rattle.thistory.specs.Steps.{net_after};
ghost use Rattle.tstanding.specs.Charts.{charted_of, picture_text};
ghost use Rattle.topening.specs.Faults.{HasOutputCause, IsDue, IsLeft};

use crate::histories::try_events;
use std::alloc::Global;
use tchart::{Chart, lay_out, put_chart};
use tfiles::counted::CountedWrite;
use tfiles::writing::output::{Output, WriteFault};
use tnet::Net;
use topening::Fault;
use topening::opening::open_net;
use tplan::{Event, Wiring};
use tword::Items;

/// Does the events of a log on the net of a wiring and the files of its images, one file a node, as `replay_text` of
/// `ttext` does them, and writes a picture of them, in the form SVG. The wiring's holds are ignored. Nothing is written
/// before all events were found to be enabled and all memory is taken.
///
/// # Errors
/// The faults of `replay_text`. Unless the error is `Output`, nothing was written.
pub fn chart_text<W: CountedWrite>(
    alloc: Global,
    wiring: &Wiring,
    files: Items<Items<u8>>,
    events: &[Event],
    out: &mut W,
) -> Result<Net, Fault>
    requires { length files ≡ length wiring.now.nodes }
    // the net is where all the events lead, and each fault is the first that is due
    ensures answer { MatchResult result
        (λ left. IsOkAnd (charted_of wiring.now files events.now) (λ net. left ≡ net_after events.now net))
        (IsDue (charted_of wiring.now files events.now)) }

    // the picture is written
    ensures text { OnOk result (IsOkAnd
        (charted_of wiring.now files events.now)
        (λ net. Appends (W.contents out.old) (W.contents out.new) (picture_text events.now net))) }

    // where a fault is answered nothing is written, or the beginning of the text that was due
    ensures left { IfErr result
        (IsLeft W.contents (picture_text events.now) (charted_of wiring.now files events.now) out.old out.new) }

    // the output failed just where a write did
    ensures cause { IfErr result (HasOutputCause (W.failures out.old) (W.failures out.new)) }
    ensures stayed { OnOk result (HasStayed (W.failures out.old) (W.failures out.new)) }
{
    let mut net = open_net(alloc, wiring, files)?;
    try_events(alloc, &net, events)?;
    let chart = lay_out(alloc, &mut net, events)?;
    write_chart(out, &chart)?;
    Ok(net)
}

/// Writes a picture.
fn write_chart<W: CountedWrite>(out: &mut W, chart: &Chart) -> Result<(), WriteFault>
    ensures out { IsOut (W.contents out.old) (W.contents out.new) (drawing.chart_text chart.now) result }
    ensures cause { IfErr result (λ _. HasRisen (W.failures out.old) (W.failures out.new)) }
    ensures stayed { OnOk result (HasStayed (W.failures out.old) (W.failures out.new)) }
{
    let mut output = Output::new(out);
    put_chart(&mut output, chart);
    output.finish()
}
