//! For which nodes each node of a net waits.

ghost use Rattle.std.specs.Prelude.{◌≡◌, ◌≤◌, ◌<◌, ℕ, [], ◌∷◌, length, map};
ghost use Rattle.std.specs.List.{flat_map};
ghost use Rattle.tword.specs.Limits.{most_nodes};
ghost use Rattle.tlink.specs.Whole.{IsWhole};
ghost use Rattle.tnet.specs.Net.{four_links};
ghost use Rattle.twhere.specs.NodeSets.{Adds, set_waits};
ghost use Rattle.twhere.specs.Standing.{by_descriptor, listed_of};
ghost use Rattle.twhere.specs.Waits.{guard_at, role_waits, sink_waits, source_waits, wait_at, waiter_waits, waits_for};
ghost use Rattle.twhere.specs.declared.waits.Want.{Want};

use crate::listing::Listed;
use crate::net_node::NetNode;
use crate::node_set::NodeSet;
use crate::waits::{end_at, has_output, is_enabled_by, remembered};
use tlink::Role;
use tnet::Net;
use tproc::{Reason, Waiter};
use tword::Word;
use tword::limits::MOST_NODES;

/// For each node of a net, by its number, the nodes that it waits for.
pub(crate) fn all_awaited(net: &Net, listed: &[Listed]) -> [NodeSet; MOST_NODES]
    requires listed { listed.now ≡ map (λ n. listed_of n.machine.control) net.now.nodes }
    requires few { length net.now.nodes ≤ most_nodes }
    ensures { (a b : ℕ) → set_waits result a b ≡ waits_for net.now a b }
{
    let mut all = [NodeSet::none(); MOST_NODES];
    for (number, node) in net.nodes().iter().enumerate() {
        let at = NetNode {
            net,
            number: number as u32,
            node,
        };
        all[number] = with_node(&at, NodeSet::none(), listed[number].waiting.as_slice());
    }
    all
}

/// A set with the nodes that a node waits for: its processes of this list, the source or the sink.
fn with_node(at: &NetNode<'_>, set: NodeSet, waiting: &[Waiter]) -> NodeSet
    requires whole { IsWhole at.now.node.now }
    requires few { length at.now.net.now.nodes ≤ most_nodes }
    ensures { Adds at.now.net.now at.now.number set result
        (role_waits at.now.node.now.role at.now.node.now waiting.now) }
{
    match at.node.role() {
        Role::Processor(_) => with_processes(at, set, waiting),
        Role::Source(_) => with_source(at, set),
        Role::Sink(_) => with_sink(at, set),
    }
}

/// A set with those that processes wait for.
fn with_processes(at: &NetNode<'_>, set: NodeSet, waiting: &[Waiter]) -> NodeSet
    requires whole { IsWhole at.now.node.now }
    requires few { length at.now.net.now.nodes ≤ most_nodes }
    ensures { Adds at.now.net.now at.now.number set result
        (flat_map (waiter_waits at.now.node.now.machine.control) waiting.now) }
{
    let mut all = set;
    for waiter in waiting {
        all = with_process(at, all, waiter);
    }
    all
}

/// A set with those that a process waits for. One that waits for an internal channel waits for none.
fn with_process(at: &NetNode<'_>, set: NodeSet, waiter: &Waiter) -> NodeSet
    requires whole { IsWhole at.now.node.now }
    requires few { length at.now.net.now.nodes ≤ most_nodes }
    ensures { Adds at.now.net.now at.now.number set result
        (waiter_waits at.now.node.now.machine.control waiter.now) }
{
    match waiter.reason {
        Reason::Receives { .. } => set,
        Reason::Sends { .. } => set,
        Reason::LinkInput(link) => with_far_node(at, set, link),
        Reason::LinkOutput(link) => with_far_node(at, set, link),
        Reason::Chooses => with_guards(at, set, waiter.process),
    }
}

/// A set with those at the links that the alternative of a process has enabled.
fn with_guards(at: &NetNode<'_>, set: NodeSet, process: Word) -> NodeSet
    requires whole { IsWhole at.now.node.now }
    requires few { length at.now.net.now.nodes ≤ most_nodes }
    ensures { Adds at.now.net.now at.now.number set result
        (flat_map (guard_at at.now.node.now.machine.control process) four_links) }
{
    let first = with_guard(at, set, process, 0);
    let second = with_guard(at, first, process, 1);
    let third = with_guard(at, second, process, 2);
    with_guard(at, third, process, 3)
}

/// A set with the one at a link, if the alternative of a process has enabled it.
fn with_guard(at: &NetNode<'_>, set: NodeSet, process: Word, link: u8) -> NodeSet
    requires whole { IsWhole at.now.node.now }
    requires few { length at.now.net.now.nodes ≤ most_nodes }
    requires link { link < 4 }
    ensures { Adds at.now.net.now at.now.number set result
        (guard_at at.now.node.now.machine.control process link) }
{
    if is_enabled_by(process, remembered(at.node, link)) {
        with_far_node(at, set, link)
    } else {
        set
    }
}

/// A set with the one that a source waits for, while it has a message to send.
fn with_source(at: &NetNode<'_>, set: NodeSet) -> NodeSet
    requires whole { IsWhole at.now.node.now }
    requires few { length at.now.net.now.nodes ≤ most_nodes }
    ensures { Adds at.now.net.now at.now.number set result (source_waits at.now.node.now) }
{
    if has_output(at.node, 0) {
        with_far_node(at, set, 0)
    } else {
        set
    }
}

/// A set with the one that a sink waits for, while it has a part of a message.
fn with_sink(at: &NetNode<'_>, set: NodeSet) -> NodeSet
    requires few { length at.now.net.now.nodes ≤ most_nodes }
    ensures { Adds at.now.net.now at.now.number set result (sink_waits at.now.node.now) }
{
    if at.node.counts(0).got != 0 {
        with_far_node(at, set, 0)
    } else {
        set
    }
}

/// A set with the node at the far end of a link, if there is one.
fn with_far_node(at: &NetNode<'_>, set: NodeSet, link: u8) -> NodeSet
    requires few { length at.now.net.now.nodes ≤ most_nodes }
    ensures { (want : Want) → Adds at.now.net.now at.now.number set result (wait_at want link ∷ []) }
{
    at.net.know_sound();
    match at.net.far_end(end_at(at.number, link)) {
        Some(end) => set.with(end.node as usize),
        None => set,
    }
}
