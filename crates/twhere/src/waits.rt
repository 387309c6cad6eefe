//! What a process, a source or a sink waits for at a link, and what it lacks there.

ghost use Rattle.std.specs.Prelude.{◌≡◌, ◌<◌, is_some};
ghost use Rattle.tproc.specs.LinkChannels.{link_end};
ghost use Rattle.tlink.specs.Node.{input_at, output_at};
ghost use Rattle.tlink.specs.Whole.{IsWhole};
ghost use Rattle.tplan.specs.Wires as wires;
ghost use Rattle.twhere.specs.Waits as spec;

use crate::net_node::NetNode;
use tlink::{Node, Role};
use tplan::plan::End;
use tword::Word;

/// What is waited for at a link.
#[derive(Clone, Copy)]
pub(crate) enum Want {
    /// An output waits to be taken.
    Output,
    /// An input waits for a message.
    Input,
    /// An alternative waits for a byte.
    Alternative,
}

/// A wait at a link.
#[derive(Clone, Copy)]
pub(crate) struct Wait {
    pub(crate) want: Want,
    pub(crate) link: u8,
}

/// What is lacking at a link that is waited for.
#[derive(Clone, Copy)]
pub(crate) enum Lack {
    /// The node of this number is frozen.
    Frozen(u32),
    /// The node of this number has halted.
    Halted(u32),
    /// A sink has no room for what was sent.
    Room,
    /// The other half of the message.
    Partner,
}

/// The end at a link of a node.
pub(crate) fn end_at(node: u32, link: u8) -> End
    ensures { result ≡ wires.end_at node link }
{
    End {
        node,
        link: u32::from(link),
    }
}

/// Whether an output is pending at a link. A source offers at link 0 the first of its messages that are not over.
pub(crate) fn has_output(node: &Node, link: u8) -> bool
    requires { IsWhole node.now }
    ensures { result ≡ is_some (output_at node.now link) }
{
    match node.role() {
        Role::Processor(processor) => processor.pending_out(link).is_some(),
        Role::Source(source) => link == 0 && source.done() < source.count(),
        Role::Sink(_) => false,
    }
}

/// Whether an input is pending at a link.
pub(crate) fn has_input(node: &Node, link: u8) -> bool
    ensures { result ≡ is_some (input_at node.now link) }
{
    node.due(link).is_some()
}

/// The process that enabled a link. A script has none.
pub(crate) fn remembered(node: &Node, link: u8) -> Option<Word>
    requires whole { IsWhole node.now }
    requires link { link < 4 }
    ensures { result ≡ (link_end node.now.machine.control link).remembered }
{
    match node.role() {
        Role::Processor(processor) => processor.link(link).remembered,
        Role::Source(_) => None,
        Role::Sink(_) => None,
    }
}

/// Whether the process that enabled a link is this one.
pub(crate) fn is_enabled_by(process: Word, remembered: Option<Word>) -> bool
    ensures { result ≡ spec.is_enabled_by process remembered }
{
    match remembered {
        Some(other) => other.get() == process.get(),
        None => false,
    }
}

/// Whether the other half of a message is pending at the far end.
fn is_met(want: Want, far: &Node, link: u8) -> bool
    requires { IsWhole far.now }
    ensures { result ≡ spec.is_met want far.now link }
{
    match want {
        Want::Output => has_input(far, link),
        Want::Input => has_output(far, link),
        Want::Alternative => has_output(far, link),
    }
}

/// Whether a node has halted. A script never does.
fn is_halted(node: &Node) -> bool
    requires { IsWhole node.now }
    ensures { result ≡ node.now.machine.control.halted }
{
    match node.role() {
        Role::Processor(processor) => processor.is_halted(),
        Role::Source(_) => false,
        Role::Sink(_) => false,
    }
}

/// What is lacking at the far end, which is a link of this node.
fn lack_there(want: Want, end: End, far: &Node) -> Lack
    requires whole { IsWhole far.now }
    requires link { end.link < 4 }
    ensures { result ≡ spec.lack_there want end far.now }
{
    if far.broken().is_some() {
        Lack::Frozen(end.node)
    } else if is_met(want, far, end.link as u8) {
        Lack::Room
    } else if is_halted(far) {
        Lack::Halted(end.node)
    } else {
        Lack::Partner
    }
}

/// What a node lacks at a link that is wired to an end.
pub(crate) fn lacking(at: &NetNode<'_>, want: Want, end: End) -> Lack
    requires { end.link < 4 }
    ensures { result ≡ spec.lack at.now.net.now at.now.number at.now.node.now want end }
{
    if at.node.broken().is_some() {
        return Lack::Frozen(at.number);
    }
    match at.net.nodes().get(end.node as usize) {
        Some(far) => lack_there(want, end, far),
        None => Lack::Partner,
    }
}
