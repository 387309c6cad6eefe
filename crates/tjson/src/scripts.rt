//! Sources and sinks.

ghost use Rattle.std.specs.Prelude.{map};
ghost use Rattle.tlink.specs.Scripts.{all_messages, done_messages, kept_messages};
ghost use Rattle.tfiles.specs.Outputs.{Tells};
ghost use Rattle.tjson.specs.Json.{array, listed};
ghost use Rattle.tjson.specs.Runs.{bytes_value, sink_object, source_object};

use crate::values::{put_bytes, put_comma};
use tfiles::counted::CountedWrite;
use tfiles::writing::output::Output;
use tfiles::writing::text::put_decimal;
use tlink::{Messages, Sink, Source};

/// A source, as `{"source": 2, "done": 1, "of": 3}`: its number, how many of its messages are over, and how many there
/// are.
pub(crate) fn put_source<W: CountedWrite>(out: &mut Output<'_, W>, number: usize, source: &Source)
    ensures { Tells W.contents W.failures out.old out.new
        (source_object number (done_messages source.now.role) (all_messages source.now.role)) }
{
    out.put(b"{\"source\": ");
    put_decimal(out, number as u64);
    out.put(b", \"done\": ");
    put_decimal(out, source.done() as u64);
    out.put(b", \"of\": ");
    put_decimal(out, source.count() as u64);
    out.put(b"}");
}

/// A sink, as `{"sink": 3, "kept": ["0102", "03"]}`: its number, and the messages that it has kept, in their order.
pub(crate) fn put_sink<W: CountedWrite>(out: &mut Output<'_, W>, number: usize, sink: &Sink)
    ensures { Tells W.contents W.failures out.old out.new (sink_object number (kept_messages sink.now)) }
{
    out.put(b"{\"sink\": ");
    put_decimal(out, number as u64);
    out.put(b", \"kept\": ");
    put_kept(out, sink.kept());
    out.put(b"}");
}

/// The messages that a sink has kept, as an array.
fn put_kept<W: CountedWrite>(out: &mut Output<'_, W>, kept: Messages<'_>)
    ensures { Tells W.contents W.failures out.old out.new (array (map bytes_value kept.entry)) }
{
    out.put(b"[");
    put_messages(out, kept);
    out.put(b"]");
}

/// Messages, as the values of an array.
fn put_messages<W: CountedWrite>(out: &mut Output<'_, W>, kept: Messages<'_>)
    ensures { Tells W.contents W.failures out.old out.new (listed (map bytes_value kept.entry)) }
{
    let mut messages = kept;
    let mut is_first = true;
    while let Some(message) = messages.take_first() {
        put_comma(out, is_first);
        put_bytes(out, message);
        is_first = false;
    }
}
