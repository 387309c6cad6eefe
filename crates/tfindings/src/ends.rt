//! The end of a certified run: memories, sources and sinks.

ghost use Rattle.std.specs.Prelude.{◌≡◌, ◌≤◌, ◌+◌, flat_map, length};
ghost use Rattle.tfiles.specs.Outputs.{Tells};
ghost use Rattle.tverdict.specs.Machines.{IsSound, machine_at};
ghost use Rattle.tword.specs.Limits.{most_nodes};
ghost use Rattle.tnet.specs.Building.{node_count};
ghost use Rattle.tfindings.specs.Cells.{known_text};
ghost use Rattle.tfindings.specs.Ends as spec;

use crate::cells::{put_known, put_words};
use tcertify::{Node, Sink};
use tfiles::CountedWrite;
use tfiles::writing::node_dump::put_node_line;
use tfiles::writing::output::Output;
use tfiles::writing::scripts::{put_sink_line, put_source_line};
use tplan::{Plan, SourcePlan};
use tverdict::Machine;

/// The end of a run of the process machine of a plan (own choice of format): the dump of each node with `~~` for each
/// byte that is not known, and then sources and sinks, as in other dumps.
pub fn put_end<W: CountedWrite>(out: &mut Output<'_, W>, plan: &Plan, machine: &Machine)
    requires sound { IsSound plan.now machine.now }
    requires few { node_count plan.now ≤ most_nodes }
    ensures { Tells W.contents W.failures out.old out.new (spec.end_text plan.now (machine_at plan.now machine.now)) }
{
    let (nodes, sources) = (machine.nodes.as_slice(), plan.sources.as_slice());
    put_nodes(out, nodes);
    put_sources(out, nodes.len(), sources, machine.sent.as_slice());
    put_sinks(out, nodes.len() + sources.len(), machine.sinks.as_slice());
}

/// The nodes.
fn put_nodes<W: CountedWrite>(out: &mut Output<'_, W>, nodes: &[Node])
    ensures { Tells W.contents W.failures out.old out.new (spec.each_from spec.kept_node 0 nodes.now) }
{
    for (number, node) in nodes.iter().enumerate() {
        put_node(out, number, node);
    }
}

/// A node: no node is halted or frozen where a run is certified.
fn put_node<W: CountedWrite>(out: &mut Output<'_, W>, number: usize, node: &Node)
    ensures { Tells W.contents W.failures out.old out.new (spec.kept_node number node.now) }
{
    put_node_line(out, number, None, false);
    put_words(out, node.words.items.as_slice());
}

/// The sources, numbered from one on.
fn put_sources<W: CountedWrite>(
    out: &mut Output<'_, W>,
    first: usize,
    sources: &[SourcePlan],
    sent: &[u32],
)
    requires sent { length sent.now ≡ length sources.now }
    requires few { first + length sources.now ≤ most_nodes }
    ensures { Tells W.contents W.failures out.old out.new (spec.sent_from first sources.now sent.now) }
{
    for (number, source) in sources.iter().enumerate() {
        put_source(out, first + number, source, sent[number]);
    }
}

/// A source, of which `sent` messages have gone over.
fn put_source<W: CountedWrite>(
    out: &mut Output<'_, W>,
    number: usize,
    source: &SourcePlan,
    sent: u32,
)
    ensures { Tells W.contents W.failures out.old out.new (spec.sent_text number source.now sent) }
{
    let count = source.messages.as_slice().len();
    let left = count.saturating_sub(sent as usize);
    put_source_line(out, number, count - left, count);
}

/// The sinks, numbered from one on.
fn put_sinks<W: CountedWrite>(out: &mut Output<'_, W>, first: usize, sinks: &[Sink])
    requires { first + length sinks.now ≤ most_nodes }
    ensures { Tells W.contents W.failures out.old out.new (spec.each_from spec.kept_sink first sinks.now) }
{
    for (number, sink) in sinks.iter().enumerate() {
        put_sink(out, first + number, sink);
    }
}

/// A sink: the messages that it has kept.
fn put_sink<W: CountedWrite>(out: &mut Output<'_, W>, number: usize, sink: &Sink)
    ensures { Tells W.contents W.failures out.old out.new (spec.kept_sink number sink.now) }
{
    let messages = sink.messages.as_slice();
    put_sink_line(out, number, messages.len());
    put_messages(out, messages);
}

/// The messages that a sink has kept.
fn put_messages<W: CountedWrite>(out: &mut Output<'_, W>, messages: &[Vec<Option<u8>>])
    ensures { Tells W.contents W.failures out.old out.new (flat_map (λ m. spec.kept_line m.items) messages.now) }
{
    for message in messages {
        put_kept(out, message);
    }
}

/// A message that a sink has kept.
fn put_kept<W: CountedWrite>(out: &mut Output<'_, W>, message: &Vec<Option<u8>>)
    ensures { Tells W.contents W.failures out.old out.new (spec.kept_line message.now.items) }
{
    out.put(b"kept ");
    put_bytes(out, message.as_slice());
    out.put(b"\n");
}

/// Bytes, where they are known.
fn put_bytes<W: CountedWrite>(out: &mut Output<'_, W>, cells: &[Option<u8>])
    ensures { Tells W.contents W.failures out.old out.new (flat_map known_text cells.now) }
{
    for cell in cells {
        put_known(out, *cell);
    }
}
