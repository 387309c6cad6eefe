//! Where the processes, the links and the scripts of a net stand, as text.

ghost use Rattle.std.specs.Prelude.{◌≡◌, ◌≤◌, length, map};
ghost use Rattle.tword.specs.Limits.{most_nodes};
ghost use Rattle.tlink.specs.Whole.{IsWhole};
ghost use Rattle.tfiles.specs.Outputs.{Tells};
ghost use Rattle.twhere.specs.Standing as spec;

use crate::links::put_links;
use crate::listing::Listed;
use crate::net_node::ProcessorNode;
use crate::processes::{put_interrupted, put_queue, put_running};
use crate::stuck::put_stuck;
use crate::waiting::put_waiting;
use tfiles::CountedWrite;
use tfiles::writing::node_dump::put_node_line;
use tfiles::writing::output::Output;
use tfiles::writing::scripts::{put_sink_line, put_source};
use tlink::{Node, Role};
use tnet::Net;

/// Where the processes and the links of each node stand (own choice of format, `specs/Standing`), in the order of the
/// nodes, sources and sinks behind them; behind all nodes, where no event is enabled, who waits at a link and what is
/// lacking there, and each circle of nodes that wait for one another. The processes that are queued or wait are those
/// that `list_net` lists. It takes no memory.
pub fn put_where<W: CountedWrite>(out: &mut Output<'_, W>, net: &Net, listed: &[Listed])
    requires listed { listed.now ≡ map (λ n. spec.listed_of n.machine.control) net.now.nodes }
    requires few { length net.now.nodes ≤ most_nodes }
    ensures { Tells W.contents W.failures out.old out.new (spec.where_text net.now) }
{
    put_nodes(out, net, listed);
    put_stuck(out, net, listed);
}

/// Where a node of this number and its links stand, as `put_where` writes it. Its processes that are queued or wait are
/// those that `list_net` lists. It takes no memory.
pub fn put_node_where<W: CountedWrite>(
    out: &mut Output<'_, W>,
    net: &Net,
    number: u32,
    node: &Node,
    listed: &Listed,
)
    requires whole { IsWhole node.now }
    requires listed { listed.now ≡ spec.listed_of node.now.machine.control }
    ensures { Tells W.contents W.failures out.old out.new (spec.node_where net.now number node.now) }
{
    put_node(out, net, number, node, listed);
}

/// Where each node stands.
fn put_nodes<W: CountedWrite>(out: &mut Output<'_, W>, net: &Net, listed: &[Listed])
    requires listed { listed.now ≡ map (λ n. spec.listed_of n.machine.control) net.now.nodes }
    requires few { length net.now.nodes ≤ most_nodes }
    ensures { Tells W.contents W.failures out.old out.new
        (spec.texts_from (spec.node_where net.now) 0 net.now.nodes) }
{
    for (number, node) in net.nodes().iter().enumerate() {
        put_node(out, net, number as u32, node, &listed[number]);
    }
}

/// One node, whose number is given, with its links.
fn put_node<W: CountedWrite>(
    out: &mut Output<'_, W>,
    net: &Net,
    number: u32,
    node: &Node,
    listed: &Listed,
)
    requires { IsWhole node.now }
    ensures { Tells W.contents W.failures out.old out.new (spec.listed_where net.now number node.now listed.now) }
{
    put_role(out, net, number, node, listed);
    put_links(out, net, number, node);
}

/// What stands behind the links: a processor, a source or a sink.
fn put_role<W: CountedWrite>(
    out: &mut Output<'_, W>,
    net: &Net,
    number: u32,
    node: &Node,
    listed: &Listed,
)
    ensures { Tells W.contents W.failures out.old out.new
        (spec.role_where node.now.role net.now number node.now listed.now) }
{
    match node.role() {
        Role::Processor(processor) => put_processor(
            out,
            &ProcessorNode {
                net,
                number,
                node,
                processor,
            },
            listed,
        ),
        Role::Source(source) => put_source(out, number as usize, source),
        Role::Sink(sink) => put_sink_line(out, number as usize, sink.kept().count()),
    }
}

/// The processor of a node.
fn put_processor<W: CountedWrite>(out: &mut Output<'_, W>, at: &ProcessorNode<'_>, listed: &Listed)
    ensures { Tells W.contents W.failures out.old out.new
        (spec.processor_where at.now.net.now at.now.number at.now.node.now listed.now) }
{
    let processor = at.processor;
    put_node_line(
        out,
        at.number as usize,
        at.node.broken(),
        processor.is_halted(),
    );
    put_running(out, processor);
    put_interrupted(out, processor);
    put_queue(out, b"  high queue    ", processor, listed.high.as_slice());
    put_queue(out, b"  low queue     ", processor, listed.low.as_slice());
    put_waiting(out, at, listed.waiting.as_slice());
}
