//! The dumps of sources and sinks.

ghost use Rattle.std.specs.List.{flat_map};
ghost use Rattle.tlink.specs.Scripts.{all_messages, done_messages, kept_messages};
ghost use Rattle.tfiles.specs.Texts.{kept_line, sink_dump, sink_line, source_line};
ghost use Rattle.tfiles.specs.Outputs.{Tells};

use crate::counted::CountedWrite;
use crate::writing::output::Output;
use crate::writing::text::{put_decimal, put_hex};
use tlink::{Messages, Sink, Source};

/// The line of a source, as `put_source_line` writes it.
pub fn put_source<W: CountedWrite>(out: &mut Output<'_, W>, number: usize, source: &Source)
    ensures { Tells W.contents W.failures out.old out.new
        (source_line number (done_messages source.now.role) (all_messages source.now.role)) }
{
    put_source_line(out, number, source.done(), source.count());
}

/// The line of a source (own choice of format), as `source 2 done 1 of 2`: its number, how many of its messages are
/// over, and how many there are.
pub fn put_source_line<W: CountedWrite>(
    out: &mut Output<'_, W>,
    number: usize,
    done: usize,
    count: usize,
)
    ensures { Tells W.contents W.failures out.old out.new (source_line number done count) }
{
    out.put(b"source ");
    put_decimal(out, number as u64);
    out.put(b" done ");
    put_decimal(out, done as u64);
    out.put(b" of ");
    put_decimal(out, count as u64);
    out.put(b"\n");
}

/// The first line of a sink (own choice of format), as `sink 3 messages 2`: its number, and how many messages it has
/// kept.
pub fn put_sink_line<W: CountedWrite>(out: &mut Output<'_, W>, number: usize, messages: usize)
    ensures { Tells W.contents W.failures out.old out.new (sink_line number messages) }
{
    out.put(b"sink ");
    put_decimal(out, number as u64);
    out.put(b" messages ");
    put_decimal(out, messages as u64);
    out.put(b"\n");
}

/// The dump of a sink, as `put_sink_dump` writes it.
pub(crate) fn put_sink<W: CountedWrite>(out: &mut Output<'_, W>, number: usize, sink: &Sink)
    ensures { Tells W.contents W.failures out.old out.new (sink_dump number (kept_messages sink.now)) }
{
    put_sink_dump(out, number, sink.kept());
}

/// The dump of a sink (own choice of format): its first line, and then for each message that it has kept, in their
/// order, a line `kept 01020304`.
pub fn put_sink_dump<W: CountedWrite>(out: &mut Output<'_, W>, number: usize, kept: Messages<'_>)
    ensures { Tells W.contents W.failures out.old out.new (sink_dump number kept.entry) }
{
    put_sink_line(out, number, kept.count());
    put_messages(out, kept);
}

/// The lines of the messages that a sink has kept.
fn put_messages<W: CountedWrite>(out: &mut Output<'_, W>, kept: Messages<'_>)
    ensures { Tells W.contents W.failures out.old out.new (flat_map kept_line kept.entry) }
{
    let mut messages = kept;
    while let Some(message) = messages.take_first() {
        put_message(out, message);
    }
}

/// Writes the line of a message that a sink has kept.
fn put_message<W: CountedWrite>(out: &mut Output<'_, W>, message: &[u8])
    ensures { Tells W.contents W.failures out.old out.new (kept_line message.now) }
{
    out.put(b"kept ");
    put_hex(out, message);
    out.put(b"\n");
}
