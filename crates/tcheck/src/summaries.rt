//! What is told of a net with which nothing is wrong.

ghost use Rattle.std.specs.Prelude.{◌≡◌, is_some};
ghost use Rattle.std.specs.List.{list_any};
ghost use Rattle.tplan.specs.Wires.{end_at, far_end, same_end};
ghost use Rattle.tfiles.specs.Outputs.{Tells};
ghost use Rattle.tcheck.specs.Summaries as spec;
ghost use Rattle.tcheck.specs.Summaries.{texts_from};

use crate::flaws::Place;
use crate::sentences::{image_name, put_behind, put_numbered};
use tfiles::CountedWrite;
use tfiles::writing::output::Output;
use tfiles::writing::text::{put_decimal, put_end};
use tnames::put_escaped;
use tplan::{End, NodePlan, Plan, Process, Segment, SinkPlan, SourcePlan, Wire, WiringNode};
use twhere::put_word;
use tword::{Kind, Word};

/// A net, with the nodes that name its images and all of its wires (own choice of format, `specs/Summaries`).
pub(crate) fn put_net<W: CountedWrite>(
    out: &mut Output<'_, W>,
    nodes: &[WiringNode],
    wires: &[Wire],
    plan: &Plan,
)
    ensures { Tells W.contents W.failures out.old out.new (spec.net_text nodes.now wires.now plan.now) }
{
    out.put(b"nothing is wrong\n");
    put_nodes(out, nodes, wires, plan.nodes.as_slice());
    put_wires(out, plan.wires.as_slice());
    put_sources(out, plan.sources.as_slice());
    put_sinks(out, plan.sinks.as_slice());
}

/// The nodes of a net.
fn put_nodes<W: CountedWrite>(
    out: &mut Output<'_, W>,
    named: &[WiringNode],
    wires: &[Wire],
    nodes: &[NodePlan],
)
    ensures { Tells W.contents W.failures out.old out.new
        (texts_from (spec.node_text named.now wires.now) 0 nodes.now) }
{
    for (number, node) in nodes.iter().enumerate() {
        put_node(out, named, wires, number, node);
    }
}

/// A node: its kind, its memory and its image, the processes that begin nowhere, and the links that have no wire.
fn put_node<W: CountedWrite>(
    out: &mut Output<'_, W>,
    named: &[WiringNode],
    wires: &[Wire],
    number: usize,
    node: &NodePlan,
)
    ensures { Tells W.contents W.failures out.old out.new
        (spec.node_text named.now wires.now number node.now) }
{
    put_node_line(out, image_name(named, Place::Node(number)), number, node);
    let segments = node.image.segments.as_slice();
    put_process_notes(out, number, segments, node.image.processes.as_slice());
    put_link_notes(out, wires, number);
}

/// A node by itself, whose image has this name.
fn put_node_line<W: CountedWrite>(
    out: &mut Output<'_, W>,
    name: &str,
    number: usize,
    node: &NodePlan,
)
    ensures { Tells W.contents W.failures out.old out.new (spec.node_line name.now number node.now) }
{
    put_numbered(out, b"node ", number);
    out.put(kind_text(node.kind));
    put_decimal(out, u64::from(node.memory));
    out.put(b" bytes, image ");
    put_escaped(out, name);
    out.put(b"\n");
}

/// The number of a kind.
fn kind_text(kind: Kind) -> &'static [u8]
    ensures { result.now ≡ spec.kind_text kind }
{
    match kind {
        Kind::One => b": kind 1, memory ",
        Kind::Two => b": kind 2, memory ",
    }
}

/// The processes of a node that begin where no segment has a byte.
fn put_process_notes<W: CountedWrite>(
    out: &mut Output<'_, W>,
    node: usize,
    segments: &[Segment],
    processes: &[Process],
)
    ensures { Tells W.contents W.failures out.old out.new
        (texts_from (spec.process_note node segments.now) 0 processes.now) }
{
    for (number, process) in processes.iter().enumerate() {
        put_process_note(out, node, number, segments, process);
    }
}

/// Whether a segment has the byte at an address.
fn has_byte(address: Word, segment: &Segment) -> bool
    ensures { result ≡ spec.has_byte address segment.now }
{
    let address = u64::from(address.get());
    let start = u64::from(segment.address.get());
    start <= address && address < start + segment.bytes.as_slice().len() as u64
}

/// Whether some segment has the byte at an address.
fn is_held(address: Word, segments: &[Segment]) -> bool
    ensures { result ≡ list_any (spec.has_byte address) segments.now }
{
    segments.iter().any(|segment| has_byte(address, segment))
}

/// A process, where it begins where no segment has a byte.
fn put_process_note<W: CountedWrite>(
    out: &mut Output<'_, W>,
    node: usize,
    number: usize,
    segments: &[Segment],
    process: &Process,
)
    ensures { Tells W.contents W.failures out.old out.new
        (spec.process_note node segments.now number process.now) }
{
    if is_held(process.iptr, segments) {
        return;
    }
    put_process_line(out, node, number, process);
}

/// A process that begins where no segment has a byte.
fn put_process_line<W: CountedWrite>(
    out: &mut Output<'_, W>,
    node: usize,
    number: usize,
    process: &Process,
)
    ensures { Tells W.contents W.failures out.old out.new (spec.process_line node number process.now) }
{
    put_numbered(out, b"node ", node);
    put_numbered(out, b": process ", number);
    out.put(b", ");
    put_word(out, process.wdesc);
    out.put(b", begins at ");
    put_word(out, process.iptr);
    out.put(b", which no segment holds\n");
}

/// The links of a node that have no wire.
fn put_link_notes<W: CountedWrite>(out: &mut Output<'_, W>, wires: &[Wire], node: usize)
    ensures { Tells W.contents W.failures out.old out.new (spec.link_notes wires.now node) }
{
    put_link_note(out, wires, node, 0);
    put_link_note(out, wires, node, 1);
    put_link_note(out, wires, node, 2);
    put_link_note(out, wires, node, 3);
}

/// Whether there is a wire at a link of a node.
fn is_link_wired(wires: &[Wire], node: usize, link: u32) -> bool
    ensures { result ≡ is_some (far_end wires.now (end_at node link)) }
{
    for wire in wires {
        if is_link(wire.a, node, link) || is_link(wire.b, node, link) {
            return true;
        }
    }
    false
}

/// Whether an end is this link of this node.
fn is_link(end: End, node: usize, link: u32) -> bool
    ensures { result ≡ same_end end (end_at node link) }
{
    end.node as usize == node && end.link == link
}

/// A link, where it has no wire.
fn put_link_note<W: CountedWrite>(out: &mut Output<'_, W>, wires: &[Wire], node: usize, link: u32)
    ensures { Tells W.contents W.failures out.old out.new (spec.link_note wires.now node link) }
{
    if is_link_wired(wires, node, link) {
        return;
    }
    put_link_line(out, node, link);
}

/// A link that has no wire.
fn put_link_line<W: CountedWrite>(out: &mut Output<'_, W>, node: usize, link: u32)
    ensures { Tells W.contents W.failures out.old out.new (spec.link_line node link) }
{
    put_numbered(out, b"node ", node);
    put_numbered(out, b": no wire is at link ", link as usize);
    out.put(b"\n");
}

/// The wires of a net.
fn put_wires<W: CountedWrite>(out: &mut Output<'_, W>, wires: &[Wire])
    ensures { Tells W.contents W.failures out.old out.new (texts_from spec.wire_text 0 wires.now) }
{
    for (number, wire) in wires.iter().enumerate() {
        put_wire(out, number, *wire);
    }
}

/// A wire.
fn put_wire<W: CountedWrite>(out: &mut Output<'_, W>, number: usize, wire: Wire)
    ensures { Tells W.contents W.failures out.old out.new (spec.wire_text number wire) }
{
    put_numbered(out, b"wire ", number);
    out.put(b": ");
    put_end(out, &wire.a);
    put_behind(out, b" and ", wire.b);
    out.put(b"\n");
}

/// The sources of a net.
fn put_sources<W: CountedWrite>(out: &mut Output<'_, W>, sources: &[SourcePlan])
    ensures { Tells W.contents W.failures out.old out.new (texts_from spec.source_text 0 sources.now) }
{
    for (number, source) in sources.iter().enumerate() {
        put_source(out, number, source);
    }
}

/// A source.
fn put_source<W: CountedWrite>(out: &mut Output<'_, W>, number: usize, source: &SourcePlan)
    ensures { Tells W.contents W.failures out.old out.new (spec.source_text number source.now) }
{
    put_numbered(out, b"source ", number);
    put_numbered(out, b": messages ", source.messages.as_slice().len());
    put_behind(out, b", to ", source.end);
    out.put(b"\n");
}

/// The sinks of a net.
fn put_sinks<W: CountedWrite>(out: &mut Output<'_, W>, sinks: &[SinkPlan])
    ensures { Tells W.contents W.failures out.old out.new (texts_from spec.sink_text 0 sinks.now) }
{
    for (number, sink) in sinks.iter().enumerate() {
        put_sink(out, number, sink);
    }
}

/// A sink.
fn put_sink<W: CountedWrite>(out: &mut Output<'_, W>, number: usize, sink: &SinkPlan)
    ensures { Tells W.contents W.failures out.old out.new (spec.sink_text number sink.now) }
{
    put_numbered(out, b"sink ", number);
    put_numbered(out, b": bytes ", sink.capacity as usize);
    put_behind(out, b", from ", sink.end);
    out.put(b"\n");
}
