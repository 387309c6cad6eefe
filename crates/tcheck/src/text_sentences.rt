//! What is told of a text that is no wiring: a line for each flaw, the number of its line in the text first, then the
//! table.

ghost use Rattle.std.specs.Prelude.{◌≡◌, get_or, IfErr, IfOk, None, OnOk};
ghost use Rattle.tfiles.specs.Failures.{HasRisen, HasStayed};
ghost use Rattle.tfiles.specs.Logs.{line};
ghost use Rattle.tfiles.specs.Outputs.{IsOut, Tells};
ghost use Rattle.tcheck.specs.TextSentences as spec;

use crate::sentences::put_numbered;
use std::alloc::{AllocError, Global};
use tfiles::writing::output::Output;
use tfiles::{CountedWrite, Uncounted, WriteFault};
use tnames::put_escaped;
use tplan::{FileName, WiringFault};
use twiring::{Key, Part, TextFlaw};
use tword::Items;

/// Writes all that keeps a text from being a wiring, a line each, behind the numbers of the lines in the text that are
/// known (own choice of format, `specs/TextSentences`).
///
/// # Errors
/// Where the writer fails or takes nothing. Then only the first bytes are written, as many as the fault tells.
pub fn write_text_flaws<W: CountedWrite>(
    flaws: &[TextFlaw],
    lines: &[Option<usize>],
    out: &mut W,
) -> Result<(), WriteFault>
    ensures text { IsOut (W.contents out.old) (W.contents out.new) (spec.flaws_text lines.now flaws.now) result }
    ensures cause { IfErr result (λ _. HasRisen (W.failures out.old) (W.failures out.new)) }
    ensures stayed { OnOk result (HasStayed (W.failures out.old) (W.failures out.new)) }
{
    let mut output = Output::new(out);
    put_flaws(&mut output, lines, flaws);
    output.finish()
}

/// All flaws, a line each.
fn put_flaws<W: CountedWrite>(out: &mut Output<'_, W>, lines: &[Option<usize>], flaws: &[TextFlaw])
    ensures { Tells W.contents W.failures out.old out.new (spec.flaws_text lines.now flaws.now) }
{
    for (number, flaw) in flaws.iter().enumerate() {
        put_line(out, line_at(lines, number), flaw);
    }
}

/// The line of a number, if it is known.
fn line_at(lines: &[Option<usize>], number: usize) -> Option<usize>
    ensures { result ≡ get_or lines.now number None }
{
    match lines.get(number) {
        Some(line) => *line,
        None => None,
    }
}

/// The line of a flaw.
fn put_line<W: CountedWrite>(out: &mut Output<'_, W>, place: Option<usize>, flaw: &TextFlaw)
    ensures { Tells W.contents W.failures out.old out.new (line (spec.told_text place flaw.now)) }
{
    put_place(out, place);
    put_flaw(out, flaw);
    put_advice(out, flaw);
    out.put(b"\n");
}

/// The number of a line, if it is known.
fn put_place<W: CountedWrite>(out: &mut Output<'_, W>, place: Option<usize>)
    ensures { Tells W.contents W.failures out.old out.new (spec.line_text place) }
{
    if let Some(number) = place {
        put_numbered(out, b"line ", number);
        out.put(b", ");
    }
}

/// What a flaw is told by, without advice.
pub(crate) fn flaw_sentence(alloc: Global, flaw: &TextFlaw) -> Result<Items<u8>, AllocError>
    ensures { IfOk result (λ sentence. sentence ≡ spec.flaw_text flaw.now) }
{
    let mut text = Uncounted(Vec::new(alloc));
    match write_flaw(&mut text, flaw) {
        Ok(()) => Ok(Items::new(text.0)),
        Err(_) => Err(AllocError),
    }
}

/// Writes a flaw.
fn write_flaw<W: CountedWrite>(out: &mut W, flaw: &TextFlaw) -> Result<(), WriteFault>
    ensures { IsOut (W.contents out.old) (W.contents out.new) (spec.flaw_text flaw.now) result }
{
    let mut output = Output::new(out);
    put_flaw(&mut output, flaw);
    output.finish()
}

/// A flaw.
fn put_flaw<W: CountedWrite>(out: &mut Output<'_, W>, flaw: &TextFlaw)
    ensures { Tells W.contents W.failures out.old out.new (spec.flaw_text flaw.now) }
{
    match flaw {
        TextFlaw::NoToml => out.put(b"wiring: the text is not TOML"),
        TextFlaw::UnknownKey(part, key, _) => put_unknown(out, *part, key.as_str()),
        TextFlaw::BadKey(part, key, fault) => put_bad_key(out, *part, *key, *fault),
        TextFlaw::NoTable(part) => put_no_table(out, *part),
    }
}

/// A key that a table has not.
fn put_unknown<W: CountedWrite>(out: &mut Output<'_, W>, part: Part, key: &str)
    ensures { Tells W.contents W.failures out.old out.new (spec.unknown_text part key.now) }
{
    put_part(out, part);
    out.put(b": the key ");
    put_escaped(out, key);
    out.put(b" is unknown");
}

/// What may help behind a flaw; only an unknown key has such a help.
fn put_advice<W: CountedWrite>(out: &mut Output<'_, W>, flaw: &TextFlaw)
    ensures { Tells W.contents W.failures out.old out.new (spec.advice_text flaw.now) }
{
    if let TextFlaw::UnknownKey(part, _, near) = flaw {
        put_meant(out, *part, near);
    }
}

/// The key that may be meant by an unknown one, or else those that the table may have.
fn put_meant<W: CountedWrite>(out: &mut Output<'_, W>, part: Part, near: &Option<FileName>)
    ensures { Tells W.contents W.failures out.old out.new (spec.meant_text part near.now) }
{
    match near {
        Some(near) => put_near(out, near.as_str()),
        None => out.put(keys_text(part)),
    }
}

/// A key that may be meant.
fn put_near<W: CountedWrite>(out: &mut Output<'_, W>, near: &str)
    ensures { Tells W.contents W.failures out.old out.new (spec.near_text near.now) }
{
    out.put(b"; did you mean ");
    out.put(near.as_bytes());
    out.put(b"?");
}

/// What is wrong with what stands at a key.
fn put_bad_key<W: CountedWrite>(out: &mut Output<'_, W>, part: Part, key: Key, fault: WiringFault)
    ensures { Tells W.contents W.failures out.old out.new (spec.bad_key_text part key fault) }
{
    put_part(out, part);
    out.put(b": ");
    out.put(key_text(key));
    out.put(fault_text(part, key, fault));
}

/// An entry that is no table.
fn put_no_table<W: CountedWrite>(out: &mut Output<'_, W>, part: Part)
    ensures { Tells W.contents W.failures out.old out.new (spec.no_table_text part) }
{
    put_part(out, part);
    out.put(b": it has to be a table");
}

/// A table.
fn put_part<W: CountedWrite>(out: &mut Output<'_, W>, part: Part)
    ensures { Tells W.contents W.failures out.old out.new (spec.part_text part) }
{
    match part {
        Part::Whole => out.put(b"wiring"),
        Part::Node(number) => put_numbered(out, b"node ", number),
        Part::Wire(number) => put_numbered(out, b"wire ", number),
        Part::Source(number) => put_numbered(out, b"source ", number),
        Part::Sink(number) => put_numbered(out, b"sink ", number),
        Part::Hold(number) => put_numbered(out, b"hold ", number),
    }
}

/// The name of a key.
fn key_text(key: Key) -> &'static [u8]
    ensures { result.now ≡ spec.key_text key }
{
    match key {
        Key::Version => b"version",
        Key::Timeslice => b"timeslice",
        Key::Nodes => b"node",
        Key::Wires => b"wire",
        Key::Sources => b"source",
        Key::Sinks => b"sink",
        Key::Holds => b"hold",
        Key::Memory => b"memory",
        Key::Kind => b"kind",
        Key::Image => b"image",
        Key::A => b"a",
        Key::B => b"b",
        Key::End => b"end",
        Key::Messages => b"messages",
        Key::Capacity => b"capacity",
        Key::From => b"from",
        Key::Until => b"until",
    }
}

/// The keys that a table may have.
fn keys_text(part: Part) -> &'static [u8]
    ensures { result.now ≡ spec.keys_text part }
{
    match part {
        Part::Whole => {
            b"; there may be version, timeslice, node, wire and hold, under version 2 source and sink"
        }
        Part::Node(_) => b"; a node has memory and image, under version 2 it may have kind",
        Part::Wire(_) => b"; a wire has a and b",
        Part::Source(_) => b"; a source has end and messages",
        Part::Sink(_) => b"; a sink has end and capacity",
        Part::Hold(_) => b"; a hold has end, kind, from and until",
    }
}

/// What the kind at a table has to be.
fn kind_text(part: Part) -> &'static [u8]
    ensures { result.now ≡ spec.kind_text part }
{
    match part {
        Part::Hold(_) => b" has to be the text data or the text ack",
        _ => b" has to be a number, 1 or 2",
    }
}

/// What stands at a key has to be.
fn form_text(part: Part, key: Key) -> &'static [u8]
    ensures { result.now ≡ spec.form_text part key }
{
    match key {
        Key::Version => b" has to be a number, 1 or 2",
        Key::Timeslice => b" has to be a number",
        Key::Nodes => b" has to be a list of tables",
        Key::Wires => b" has to be a list of tables",
        Key::Sources => b" has to be a list of tables",
        Key::Sinks => b" has to be a list of tables",
        Key::Holds => b" has to be a list of tables",
        Key::Memory => b" has to be a number",
        Key::Kind => kind_text(part),
        Key::Image => b" has to be a text",
        Key::A => b" has to be a list of two numbers, a node and a link",
        Key::B => b" has to be a list of two numbers, a node and a link",
        Key::End => b" has to be a list of two numbers, a node and a link",
        Key::Messages => b" has to be a list of texts",
        Key::Capacity => b" has to be a number",
        Key::From => b" has to be a number",
        Key::Until => b" has to be a number",
    }
}

/// What is wrong with what stands at a key.
fn fault_text(part: Part, key: Key, fault: WiringFault) -> &'static [u8]
    ensures { result.now ≡ spec.fault_text part key fault }
{
    match fault {
        WiringFault::WrongType => form_text(part, key),
        WiringFault::BadVersion => b" has to be 1 or 2",
        WiringFault::BadNumber => b" has a number that is not 0 to 4294967295",
        WiringFault::BadMessage => {
            b" has a text that is not 1 to 4096 bytes in pairs of hexadecimal digits"
        }
        WiringFault::BadKind => b" has to be 1 or 2",
        WiringFault::MissingKey => b" is missing",
        _ => b" is wrong",
    }
}
