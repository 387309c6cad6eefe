//! The commands that print where a net stands, histories, pictures and disassemblies, over the bytes of files and over
//! writers: who calls them opens the files.

ghost use Rattle.std.specs.Prelude.{◌≡◌, IfErr, IsErrOf, IsOk, IsOkAnd, OnOk, MatchResult, length, option_copied};
ghost use Rattle.std.specs.Io.KnownBytes.{Appends};
ghost use Rattle.tfiles.specs.Failures.{HasStayed};
ghost use Rattle.tfiles.specs.Images.{image_of};
ghost use Rattle.topening.specs.declared.fault.Fault.TheVariants.{Memory};
ghost use Rattle.topening.specs.Faults.{HasOutputCause, IsDue, IsLeft};
ghost use Rattle.topening.specs.Openings.{as_image};
ghost use Rattle.topening.specs.Verdicts.{net_verdict};
ghost use Rattle.tstanding.specs.Charts.{log_charted_of, log_picture_text};
ghost use Rattle.tstanding.specs.Histories.{log_history_of, log_history_text, log_net_after};
ghost use Rattle.tstanding.specs.Labels.{labelled_dis};
ghost use Rattle.tstanding.specs.NetStanding.{log_reached_of, log_where_text};

use crate::charts::chart_text;
use crate::histories::{History, history_text};
use crate::labels::write_dis;
use crate::net_standing::where_text;
use std::alloc::Global;
use tfiles::counted::CountedWrite;
use tnames::{Names, NodeNames};
use topening::log_events::{events_of_log, first_of};
use topening::opening::image_of_node;
use topening::{Fault, Verdict};
use tplan::Wiring;
use tword::{Items, Kind};

/// `temu where`: does the events of a log as `replay_files` of `ttext` does, and writes where the net stands then, as
/// `where_text` does. Answers its verdict, by whether a node is frozen.
///
/// # Errors
/// `Log` with the first bad line of the log, behind these events too, else those of `where_text`. Unless the error is
/// `Output`, nothing was written.
pub fn where_files<W: CountedWrite>(
    alloc: Global,
    wiring: &Wiring,
    files: Items<Items<u8>>,
    log: &[u8],
    most: i64,
    names: &[NodeNames],
    out: &mut W,
) -> Result<Verdict, Fault>
    requires { length files ≡ length wiring.now.nodes }
    // the verdict of the net that the events leave, by whether a node of it is frozen; and each fault is the first
    // that is due
    ensures answer { MatchResult result
        (λ verdict. IsOkAnd (log_reached_of names.now wiring.now files most log.now) (λ r. verdict ≡ net_verdict r.net))
        (IsDue (log_reached_of names.now wiring.now files most log.now)) }

    // where the net stands is written
    ensures text { OnOk result (IsOkAnd
        (log_reached_of names.now wiring.now files most log.now)
        (λ r. Appends (W.contents out.old) (W.contents out.new) (log_where_text names.now most log.now r))) }

    // where a fault is answered nothing is written, or the beginning of the text that was due
    ensures left { IfErr result (IsLeft W.contents (log_where_text names.now most log.now)
        (log_reached_of names.now wiring.now files most log.now) out.old out.new) }

    // the output failed just where a write did
    ensures cause { IfErr result (HasOutputCause (W.failures out.old) (W.failures out.new)) }
    ensures stayed { OnOk result (HasStayed (W.failures out.old) (W.failures out.new)) }
{
    let events = events_of_log(alloc, log)?;
    let first = first_of(events.as_slice(), most);
    let left = where_text(alloc, wiring, files, first, names, out)?;
    Ok(Verdict::of_net(&left))
}

/// `temu steps`, `temu watch`: does the events of a log as `replay_files` of `ttext` does, and writes their history, as
/// `history_text` does. Answers its verdict, by whether a node is frozen.
///
/// # Errors
/// `Log` with the first bad line of the log, behind these events too, else those of `history_text`. Unless the error
/// is `Output`, nothing was written.
pub fn history_files<W: CountedWrite>(
    alloc: Global,
    wiring: &Wiring,
    files: Items<Items<u8>>,
    log: &[u8],
    most: i64,
    history: &History,
    names: &[NodeNames],
    out: &mut W,
) -> Result<Verdict, Fault>
    requires { length files ≡ length wiring.now.nodes }
    // the verdict of the net that the events leave, by whether a node of it is frozen; and each fault is the first
    // that is due
    ensures answer { MatchResult result
        (λ verdict. IsOkAnd (log_history_of history.now wiring.now files most log.now)
        (λ net. verdict ≡ net_verdict (log_net_after most log.now net)))
        (IsDue (log_history_of history.now wiring.now files most log.now)) }

    // the history is written
    ensures text { OnOk result (IsOkAnd
        (log_history_of history.now wiring.now files most log.now)
        (λ net. Appends (W.contents out.old) (W.contents out.new)
        (log_history_text names.now history.now most log.now net))) }

    // where a fault is answered nothing is written, or the beginning of the text that was due
    ensures left { IfErr result (IsLeft W.contents (log_history_text names.now history.now most log.now)
        (log_history_of history.now wiring.now files most log.now) out.old out.new) }

    // the output failed just where a write did
    ensures cause { IfErr result (HasOutputCause (W.failures out.old) (W.failures out.new)) }
    ensures stayed { OnOk result (HasStayed (W.failures out.old) (W.failures out.new)) }
{
    let events = events_of_log(alloc, log)?;
    let first = first_of(events.as_slice(), most);
    let behind = history_text(alloc, wiring, files, first, history, names, out)?;
    Ok(Verdict::of_net(&behind))
}

/// `temu chart`: does the events of a log as `replay_files` of `ttext` does, and writes a picture of them, as
/// `chart_text` does. Answers its verdict, by whether a node is frozen.
///
/// # Errors
/// `Log` with the first bad line of the log, behind these events too, else those of `chart_text`. Unless the error is
/// `Output`, nothing was written.
pub fn chart_files<W: CountedWrite>(
    alloc: Global,
    wiring: &Wiring,
    files: Items<Items<u8>>,
    log: &[u8],
    most: i64,
    out: &mut W,
) -> Result<Verdict, Fault>
    requires { length files ≡ length wiring.now.nodes }
    // the verdict of the net that the events leave, by whether a node of it is frozen; and each fault is the first
    // that is due
    ensures answer { MatchResult result
        (λ verdict. IsOkAnd (log_charted_of wiring.now files most log.now)
        (λ net. verdict ≡ net_verdict (log_net_after most log.now net)))
        (IsDue (log_charted_of wiring.now files most log.now)) }

    // the picture is written
    ensures text { OnOk result (IsOkAnd
        (log_charted_of wiring.now files most log.now)
        (λ net. Appends (W.contents out.old) (W.contents out.new) (log_picture_text most log.now net))) }

    // where a fault is answered nothing is written, or the beginning of the text that was due
    ensures left { IfErr result (IsLeft W.contents (log_picture_text most log.now)
        (log_charted_of wiring.now files most log.now) out.old out.new) }

    // the output failed just where a write did
    ensures cause { IfErr result (HasOutputCause (W.failures out.old) (W.failures out.new)) }
    ensures stayed { OnOk result (HasStayed (W.failures out.old) (W.failures out.new)) }
{
    let events = events_of_log(alloc, log)?;
    let first = first_of(events.as_slice(), most);
    let charted = chart_text(alloc, wiring, files, first, out)?;
    Ok(Verdict::of_net(&charted))
}

/// `temu dis`: writes the instructions of the file of an image, as those of a node of a kind, as `dis_text` does; with
/// names, a line `got:` before each instruction whose address has one, and memory is taken for the text.
///
/// # Errors
/// `Image` of node 0 where the file is no image, else `Output` where the writer failed. `Memory` where the
/// allocator refused, but never where the file is no image. Unless the error is `Output`, nothing was written.
pub fn dis_file<W: CountedWrite>(
    alloc: Global,
    file: &[u8],
    kind: Kind,
    names: Option<&Names>,
    out: &mut W,
) -> Result<(), Fault>
    // each fault is the first that is due, and memory can be lacking only for an image
    ensures answer { MatchResult result
        (λ _. IsOk (as_image 0 (image_of file.now)))
        (IsDue (as_image 0 (image_of file.now))) }
    ensures wanted { IsErrOf result Memory → IsOk (as_image 0 (image_of file.now)) }

    // the instructions are written
    ensures text { OnOk result (IsOkAnd
        (as_image 0 (image_of file.now))
        (λ image. Appends (W.contents out.old) (W.contents out.new)
        (labelled_dis (option_copied names.entry) kind image))) }

    // where a fault is answered nothing is written, or the beginning of the text that was due
    ensures left { IfErr result (IsLeft W.contents (labelled_dis (option_copied names.entry) kind)
        (as_image 0 (image_of file.now)) out.old out.new) }

    // the output failed just where a write did
    ensures cause { IfErr result (HasOutputCause (W.failures out.old) (W.failures out.new)) }
    ensures stayed { OnOk result (HasStayed (W.failures out.old) (W.failures out.new)) }
{
    let image = image_of_node(alloc, 0, file)?;
    write_dis(alloc, &image, kind, names, out)?;
    Ok(())
}
