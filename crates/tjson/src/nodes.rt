//! The nodes of a net in their order, and behind them its sources and sinks.

ghost use Rattle.tproc.specs.Hidden.{hidden};
ghost use Rattle.tlink.specs.Whole.{IsWhole};
ghost use Rattle.tnet.specs.View.{view};
ghost use Rattle.tfiles.specs.Logs.{line};
ghost use Rattle.tfiles.specs.Outputs.{Tells};
ghost use Rattle.tjson.specs.Runs.{json_nodes, role_object};

use crate::node::put_processor;
use crate::scripts::{put_sink, put_source};
use tfiles::counted::CountedWrite;
use tfiles::writing::output::Output;
use tlink::Node;
use tnet::Net;

/// The lines of nodes, sources and sinks (own choice of format), as
/// `{"node": 0, "state": "ok", "memory": [{"at": "80000080", "bytes": "1124f2"}]}`,
/// `{"source": 2, "done": 1, "of": 3}` and `{"sink": 3, "kept": ["0102"]}`. A byte that a pending link input is to
/// write is hidden, as `--`; of a sink the messages that it has kept whole are told.
pub fn put_json_nodes<W: CountedWrite>(out: &mut Output<'_, W>, net: &Net)
    ensures { Tells W.contents W.failures out.old out.new (json_nodes (view net.now)) }
{
    for (number, node) in net.nodes().iter().enumerate() {
        put_line(out, number, node);
    }
}

/// The line of a node.
fn put_line<W: CountedWrite>(out: &mut Output<'_, W>, number: usize, node: &Node)
    requires { IsWhole node.now }
    ensures { Tells W.contents W.failures out.old out.new
        (line (role_object node.now.role number node.now.broken (hidden node.now.machine))) }
{
    put_node(out, number, node);
    out.put(b"\n");
}

/// A node: its processor, or the script in the place of one.
fn put_node<W: CountedWrite>(out: &mut Output<'_, W>, number: usize, node: &Node)
    requires { IsWhole node.now }
    ensures { Tells W.contents W.failures out.old out.new
        (role_object node.now.role number node.now.broken (hidden node.now.machine)) }
{
    if let Some(processor) = node.processor() {
        put_processor(out, number, node.broken(), processor);
    } else if let Some(source) = node.source() {
        put_source(out, number, source);
    } else if let Some(sink) = node.sink() {
        put_sink(out, number, sink);
    }
}
