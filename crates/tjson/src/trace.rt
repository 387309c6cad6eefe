//! What a run told: a line for each note.

ghost use Rattle.std.specs.Prelude.{codes, decimal};
ghost use Rattle.tfiles.specs.Logs.{line};
ghost use Rattle.tfiles.specs.Outputs.{Tells};
ghost use Rattle.tjson.specs.Json.{member, object};
ghost use Rattle.tjson.specs.Runs as spec;
ghost use Rattle.tjson.specs.Runs.{json_trace, note_member, note_object};

use crate::values::{put_bytes, put_end, put_string};
use tfiles::break_names::break_name;
use tfiles::counted::CountedWrite;
use tfiles::writing::output::Output;
use tfiles::writing::text::put_decimal;
use tplan::Note;
use tplan::plan::End;
use tword::Break;

/// The lines of notes (own choice of format), as `{"msg": {"from": [0, 1], "to": [1, 2], "bytes": "01020304"}}`,
/// `{"halt": 0}` or `{"freeze": {"node": 1, "break": "LengthMismatch"}}`.
pub fn put_json_trace<W: CountedWrite>(out: &mut Output<'_, W>, notes: &[Note])
    ensures { Tells W.contents W.failures out.old out.new (json_trace notes.now) }
{
    for note in notes {
        put_note(out, note);
    }
}

/// The line of a note.
fn put_note<W: CountedWrite>(out: &mut Output<'_, W>, note: &Note)
    ensures { Tells W.contents W.failures out.old out.new (line (note_object note.now)) }
{
    out.put(b"{");
    put_member(out, note);
    out.put(b"}\n");
}

/// What a note tells, as the member of an object.
fn put_member<W: CountedWrite>(out: &mut Output<'_, W>, note: &Note)
    ensures { Tells W.contents W.failures out.old out.new (note_member note.now) }
{
    match note {
        Note::Msg { from, to, bytes } => put_message(out, from, to, bytes.as_slice()),
        Note::Halt(node) => put_halt(out, *node),
        Note::Freeze(node, broken) => put_freeze(out, *node, *broken),
    }
}

/// A message: its two ends and its bytes.
fn put_message<W: CountedWrite>(out: &mut Output<'_, W>, from: &End, to: &End, bytes: &[u8])
    ensures { Tells W.contents W.failures out.old out.new (spec.message_member from.now to.now bytes.now) }
{
    out.put(b"\"msg\": {\"from\": ");
    put_end(out, from);
    out.put(b", \"to\": ");
    put_end(out, to);
    out.put(b", \"bytes\": ");
    put_bytes(out, bytes);
    out.put(b"}");
}

/// A node that halted.
fn put_halt<W: CountedWrite>(out: &mut Output<'_, W>, node: u8)
    ensures { Tells W.contents W.failures out.old out.new (member (codes "halt") (decimal node)) }
{
    out.put(b"\"halt\": ");
    put_decimal(out, u64::from(node));
}

/// A node that froze.
fn put_freeze<W: CountedWrite>(out: &mut Output<'_, W>, node: u8, broken: Break)
    ensures { Tells W.contents W.failures out.old out.new (spec.freeze_member node broken) }
{
    out.put(b"\"freeze\": {\"node\": ");
    put_decimal(out, u64::from(node));
    out.put(b", \"break\": ");
    put_string(out, break_name(broken));
    out.put(b"}");
}
