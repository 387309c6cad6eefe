//! Circles of nodes that wait for one another.

ghost use Rattle.std.specs.Prelude.{◌≡◌, ◌≤◌, ◌<◌, ℕ, List, length, map};
ghost use Rattle.std.specs.List.{flat_map};
ghost use Rattle.tword.specs.Limits.{most_nodes};
ghost use Rattle.tfiles.specs.Outputs.{Tells};
ghost use Rattle.twhere.specs.Circles as circles;
ghost use Rattle.twhere.specs.NodeSets.{IsSetOf, set_waits};
ghost use Rattle.twhere.specs.Standing as spec;

use crate::awaited::all_awaited;
use crate::listing::Listed;
use crate::node_set::NodeSet;
use tfiles::CountedWrite;
use tfiles::writing::output::Output;
use tfiles::writing::text::put_decimal;
use tnet::Net;

/// The circles of nodes that wait for one another, each on a line, in the order of their lowest nodes.
pub(crate) fn put_circles<W: CountedWrite>(out: &mut Output<'_, W>, net: &Net, listed: &[Listed])
    requires listed { listed.now ≡ map (λ n. spec.listed_of n.machine.control) net.now.nodes }
    requires few { length net.now.nodes ≤ most_nodes }
    ensures { Tells W.contents W.failures out.old out.new (spec.circles_text net.now) }
{
    let waits = all_awaited(net, listed);
    put_all(out, &waits[..net.nodes().len()]);
}

/// The circles of some nodes, by the nodes that each of them waits for.
fn put_all<W: CountedWrite>(out: &mut Output<'_, W>, waits: &[NodeSet])
    requires { length waits.now ≤ most_nodes }
    ensures { Tells W.contents W.failures out.old out.new
        (spec.circle_facts (length waits.now) (set_waits waits.now)) }
{
    for lowest in 0..waits.len() {
        put_circle(out, waits, lowest);
    }
}

/// The shortest circle whose lowest node this is, if there is one.
fn put_circle<W: CountedWrite>(out: &mut Output<'_, W>, waits: &[NodeSet], lowest: usize)
    requires few { length waits.now ≤ most_nodes }
    requires there { lowest < length waits.now }
    ensures { Tells W.contents W.failures out.old out.new
        (spec.circle_fact lowest (circles.circle (length waits.now) (set_waits waits.now) lowest)) }
{
    if let Some(steps) = circle_size(waits, lowest) {
        out.put(b"circle ");
        put_decimal(out, lowest as u64);
        put_way(out, waits, lowest, steps);
        out.put(b"\n");
    }
}

/// The nodes of a circle of `steps` steps behind its lowest node, up to that one again.
fn put_way<W: CountedWrite>(out: &mut Output<'_, W>, waits: &[NodeSet], lowest: usize, steps: usize)
    requires few { length waits.now ≤ most_nodes }
    requires there { lowest < length waits.now }
    ensures { Tells W.contents W.failures out.old out.new (flat_map spec.awaited_text
        (circles.way (length waits.now) (set_waits waits.now) lowest steps lowest)) }
{
    let mut node = lowest;
    for done in 0..steps {
        node = first_of(
            waits,
            lowest,
            node,
            leading(waits, lowest, steps - done - 1),
        );
        out.put(b" waits for ");
        put_decimal(out, node as u64);
    }
}

/// How many steps the shortest circle has whose lowest node this is, if there is one.
fn circle_size(waits: &[NodeSet], lowest: usize) -> Option<usize>
    requires few { length waits.now ≤ most_nodes }
    requires there { lowest < length waits.now }
    ensures { result ≡ circles.circle_size (length waits.now) (set_waits waits.now) lowest }
{
    let mut ends = NodeSet::only(lowest);
    for done in 0..waits.len() {
        ends = waiting_for(waits, lowest, ends);
        if ends.has(lowest) {
            return Some(done + 1);
        }
    }
    None
}

/// The nodes from which exactly `steps` steps lead to the lowest.
fn leading(waits: &[NodeSet], lowest: usize, steps: usize) -> NodeSet
    requires few { length waits.now ≤ most_nodes }
    requires there { lowest < length waits.now }
    ensures { IsSetOf result (circles.leading (length waits.now) (set_waits waits.now) lowest steps) }
{
    let mut ends = NodeSet::only(lowest);
    for _done in 0..steps {
        ends = waiting_for(waits, lowest, ends);
    }
    ends
}

/// The nodes from the lowest on that wait for one of these.
fn waiting_for(waits: &[NodeSet], lowest: usize, ends: NodeSet) -> NodeSet
    requires { length waits.now ≤ most_nodes }
    ensures { (xs : List ℕ) → IsSetOf ends xs
        → IsSetOf result (circles.waiting_for (length waits.now) (set_waits waits.now) lowest xs) }
{
    let mut all = NodeSet::none();
    for node in lowest..waits.len() {
        if !waits[node].both(ends).is_empty() {
            all = all.with(node);
        }
    }
    all
}

/// The first of these nodes from the lowest on, in the order of numbers, that a node waits for.
fn first_of(waits: &[NodeSet], lowest: usize, node: usize, ends: NodeSet) -> usize
    requires few { length waits.now ≤ most_nodes }
    requires there { lowest < length waits.now }
    requires node { node < length waits.now }
    ensures within { result < length waits.now }
    ensures first { (xs : List ℕ) → IsSetOf ends xs
        → result ≡ circles.first_of (length waits.now) (set_waits waits.now) lowest node xs }
{
    let next = waits[node].both(ends);
    for other in lowest..waits.len() {
        if next.has(other) {
            return other;
        }
    }
    lowest
}
