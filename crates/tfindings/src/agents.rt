//! Agents of the process machine, as they are printed.

ghost use Rattle.std.specs.Prelude.{◌≡◌, flat_map, length};
ghost use Rattle.tfiles.specs.Outputs.{Tells};
ghost use Rattle.tcertify.specs.Processes.{name_of, root_of};
ghost use Rattle.tverdict.specs.Agents.{IsThere, agent_of};
ghost use Rattle.tfindings.specs.Agents as spec;
ghost use Rattle.tfindings.specs.Agents.{count_at};

use tcertify::{Node, Process, Root};
use tfiles::CountedWrite;
use tfiles::writing::output::Output;
use tfiles::writing::text::{put_decimal, put_end};
use tverdict::Agent;
use twhere::put_word;
use tword::Word;
use tword::limits::MOST_NEG;

/// How many processes a node has, if there is the node.
fn processes_at(nodes: &[Node], node: u32) -> usize
    ensures { result ≡ count_at (λ at. length at.processes.items.items) nodes.now node }
{
    match nodes.get(node as usize) {
        Some(at) => at.processes.items.len(),
        None => 0,
    }
}

/// How many channels a node has, if there is the node.
fn channels_at(nodes: &[Node], node: u32) -> usize
    ensures { result ≡ count_at (λ at. length at.channels.items.items) nodes.now node }
{
    match nodes.get(node as usize) {
        Some(at) => at.channels.items.len(),
        None => 0,
    }
}

/// How many words a node has, if there is the node.
fn words_at(nodes: &[Node], node: u32) -> usize
    ensures { result ≡ count_at (λ at. length at.words.items.items) nodes.now node }
{
    match nodes.get(node as usize) {
        Some(at) => at.words.items.len(),
        None => 0,
    }
}

/// Whether what an agent is named by is at these nodes.
pub(crate) fn is_there(nodes: &[Node], agent: Agent) -> bool
    ensures { result ≡ spec.is_there nodes.now agent }
{
    match agent {
        Agent::Process { node, process } => (process as usize) < processes_at(nodes, node),
        Agent::Channel { node, channel } => (channel as usize) < channels_at(nodes, node),
        Agent::Wire(_) => true,
        Agent::Successor { node, word } => (word as usize) < words_at(nodes, node),
    }
}

/// An agent of these nodes.
pub(crate) fn put_agent<W: CountedWrite>(out: &mut Output<'_, W>, nodes: &[Node], agent: Agent)
    requires there { IsThere nodes.now agent }
    requires numbered { spec.AreNumbered nodes.now }
    ensures { Tells W.contents W.failures out.old out.new (spec.agent_text (agent_of nodes.now agent)) }
{
    match agent {
        Agent::Process { node, process } => {
            put_node(out, node, b"process");
            put_name(out, &nodes[node as usize].processes.items[process as usize]);
        }
        Agent::Channel { node, channel } => {
            put_node(out, node, b"channel");
            put_word(
                out,
                nodes[node as usize].channels.items[channel as usize].address,
            );
        }
        Agent::Wire(end) => {
            out.put(b"wire to ");
            put_end(out, &end);
        }
        Agent::Successor { node, word } => {
            put_node(out, node, b"successor");
            put_word(out, Word::new(MOST_NEG + 4 * word));
        }
    }
}

/// A node, and what of it is meant.
pub(crate) fn put_node<W: CountedWrite>(out: &mut Output<'_, W>, node: u32, what: &[u8])
    ensures { Tells W.contents W.failures out.old out.new (spec.node_head node what.now) }
{
    out.put(b"node ");
    put_decimal(out, u64::from(node));
    out.put(b" ");
    out.put(what);
    out.put(b" ");
}

/// The name of a process.
pub(crate) fn put_name<W: CountedWrite>(out: &mut Output<'_, W>, process: &Process)
    ensures { (node : _) → Tells W.contents W.failures out.old out.new (spec.name_text (name_of node process.now)) }
{
    put_root(out, process.root);
    put_path(out, process.path.as_slice());
}

/// The children that lead to a process.
fn put_path<W: CountedWrite>(out: &mut Output<'_, W>, path: &[u32])
    ensures { Tells W.contents W.failures out.old out.new (flat_map spec.child_text path.now) }
{
    for child in path {
        put_child(out, *child);
    }
}

/// Where the name of a process begins.
fn put_root<W: CountedWrite>(out: &mut Output<'_, W>, root: Root)
    ensures { Tells W.contents W.failures out.old out.new (spec.root_text (root_of root)) }
{
    match root {
        Root::Image(number) => put_decimal(out, u64::from(number)),
        Root::After { workspace, earlier } => {
            out.put(b"after ");
            put_word(out, workspace);
            out.put(b".");
            put_decimal(out, u64::from(earlier));
        }
    }
}

/// A child, by its number.
fn put_child<W: CountedWrite>(out: &mut Output<'_, W>, child: u32)
    ensures { Tells W.contents W.failures out.old out.new (spec.child_text child) }
{
    out.put(b".");
    put_decimal(out, u64::from(child));
}
