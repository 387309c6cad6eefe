//! The trace of a run: a line for each note.

ghost use Rattle.std.specs.Prelude.{IfErr, OnOk, [], ◌∷◌, codes, decimal, length};
ghost use Rattle.hex.specs.Hex.{encode_lower};
ghost use Rattle.tfiles.specs.Logs.{line};
ghost use Rattle.tfiles.specs.Texts as spec;
ghost use Rattle.tfiles.specs.Texts.{end_text, note_text, trace_text, words};
ghost use Rattle.tfiles.specs.Failures.{HasRisen, HasStayed};
ghost use Rattle.tfiles.specs.Outputs.{IsOut, Tells};

use crate::break_names::break_name;
use crate::counted::CountedWrite;
use crate::writing::output::{Output, WriteFault};
use crate::writing::text::{put_decimal, put_end, put_hex};
use tplan::Note;
use tplan::plan::End;
use tword::Break;

/// Writes the trace (own choice of format): for each note, in order, a line `msg 0.1 1.2 4 01020304` (from, to,
/// length and bytes), `halt 0` or `freeze 1 LengthMismatch`.
///
/// # Errors
/// Where the writer fails or takes nothing. Then only the first bytes are written, as many as the fault tells.
pub fn write_trace<W: CountedWrite>(out: &mut W, notes: &[Note]) -> Result<(), WriteFault>
    ensures out { IsOut (W.contents out.old) (W.contents out.new) (trace_text notes.now) result }
    ensures cause { IfErr result (λ _. HasRisen (W.failures out.old) (W.failures out.new)) }
    ensures stayed { OnOk result (HasStayed (W.failures out.old) (W.failures out.new)) }
{
    let mut output = Output::new(out);
    put_trace(&mut output, notes);
    output.finish()
}

/// The lines of notes.
pub fn put_trace<W: CountedWrite>(out: &mut Output<'_, W>, notes: &[Note])
    ensures { Tells W.contents W.failures out.old out.new (trace_text notes.now) }
{
    for note in notes {
        put_line(out, note);
    }
}

/// The line of a note.
fn put_line<W: CountedWrite>(out: &mut Output<'_, W>, note: &Note)
    ensures { Tells W.contents W.failures out.old out.new (line (note_text note.now)) }
{
    put_note(out, note);
    out.put(b"\n");
}

/// A note.
fn put_note<W: CountedWrite>(out: &mut Output<'_, W>, note: &Note)
    ensures { Tells W.contents W.failures out.old out.new (note_text note.now) }
{
    match note {
        Note::Msg { from, to, bytes } => put_message(out, from, to, bytes.as_slice()),
        Note::Halt(node) => put_halt(out, *node),
        Note::Freeze(node, broken) => put_freeze(out, *node, *broken),
    }
}

/// A message: its two ends, its length and its bytes.
fn put_message<W: CountedWrite>(out: &mut Output<'_, W>, from: &End, to: &End, bytes: &[u8])
    ensures { Tells W.contents W.failures out.old out.new
        (words (codes "msg" ∷ end_text from.now ∷ end_text to.now ∷ decimal (length bytes.now)
        ∷ encode_lower bytes.now ∷ [])) }
{
    out.put(b"msg ");
    put_end(out, from);
    out.put(b" ");
    put_end(out, to);
    out.put(b" ");
    put_decimal(out, bytes.len() as u64);
    out.put(b" ");
    put_hex(out, bytes);
}

/// A node that halted.
fn put_halt<W: CountedWrite>(out: &mut Output<'_, W>, node: u8)
    ensures { Tells W.contents W.failures out.old out.new (words (codes "halt" ∷ decimal node ∷ [])) }
{
    out.put(b"halt ");
    put_decimal(out, u64::from(node));
}

/// A node that froze.
fn put_freeze<W: CountedWrite>(out: &mut Output<'_, W>, node: u8, broken: Break)
    ensures { Tells W.contents W.failures out.old out.new
        (words (codes "freeze" ∷ decimal node ∷ spec.break_name broken ∷ [])) }
{
    out.put(b"freeze ");
    put_decimal(out, u64::from(node));
    out.put(b" ");
    out.put(break_name(broken));
}
