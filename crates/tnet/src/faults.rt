//! The faults of a plan that show before anything is built.

ghost use Rattle.std.specs.Prelude.{◌≡◌, ◌<◌, ◌≤◌, ◌+◌, ◌||◌, false, nat_lt, take, [], length, position, is_some};
ghost use Rattle.std.specs.Prelude.{slice_index_or, MatchOption};
ghost use Rattle.std.specs.List.{list_any};
ghost use Rattle.tword.specs.Limits.{most_nodes};
ghost use Rattle.tword.specs.Limits.{is_bad_message as spec_is_bad_message};
ghost use Rattle.tplan.specs.Wires.{same_end};
ghost use Rattle.tnet.specs.Building as spec;
ghost use Rattle.tplan.specs.Wires.{all_wires};
ghost use Rattle.tnet.specs.Building.{too_many, named_ends, first_with_fault};
ghost use Rattle.tnet.specs.Building.{fault_of, IsWellFormed};

use crate::plan_wires::{wire_at, wire_count};
use tplan::{BuildFault, End, Image, NodePlan, Plan, Segment, SinkPlan, SourcePlan, Wire};
use tword::Items;
use tword::limits::{
    LARGEST_CAPACITY, LONGEST_MESSAGE, LONGEST_TIMESLICE, MEM_START, MOST_MESSAGES, MOST_NEG,
    MOST_NODES, MOST_PROCESSES, MOST_SEGMENTS, MOST_WIRES, SMALLEST_MEMORY,
};

/// The lowest fault that shows before anything is built.
#[tactic(auto, unfolding(crate::specs::Building::fault_of))]
pub fn first_fault(plan: &Plan) -> Option<BuildFault>
    ensures { MatchOption result (IsWellFormed plan.now) (λ f. fault_of plan.now ≡ Some f) }
{
    let nodes = plan.nodes.as_slice();
    if is_too_many(plan) {
        return Some(BuildFault::TooMany);
    }
    if let Some(node) = first_bad_size(nodes) {
        return Some(BuildFault::BadSize(node));
    }
    if is_bad_timeslice(plan.timeslice) {
        return Some(BuildFault::BadTimeslice);
    }
    if let Some(place) = first_bad_end(plan) {
        return Some(BuildFault::BadEnd(place));
    }
    if let Some(wire) = first_same_end(plan.wires.as_slice()) {
        return Some(BuildFault::SameEnd(wire));
    }
    if let Some(place) = first_end_twice(plan) {
        return Some(BuildFault::EndTwice(place));
    }
    if let Some((node, segment)) = first_bad_segment(nodes) {
        return Some(BuildFault::BadSegment(node, segment));
    }
    None
}

/// Whether an image has too many segments or processes.
fn is_too_large(image: &Image) -> bool
    ensures { result ≡ spec.is_too_large image.now }
{
    image.segments.as_slice().len() > MOST_SEGMENTS
        || image.processes.as_slice().len() > MOST_PROCESSES
}

/// Whether a message is empty or too long.
fn is_bad_message(message: &Items<u8>) -> bool
    ensures { result ≡ spec_is_bad_message message.now }
{
    let size = message.as_slice().len();
    size < 1 || size > LONGEST_MESSAGE
}

/// Whether some message is empty or too long.
fn any_bad_message(messages: &[Items<u8>]) -> bool
    ensures { result ≡ list_any spec_is_bad_message messages.now }
{
    messages.iter().any(is_bad_message)
}

/// Whether a source has too many messages, or one that is empty or too long.
fn has_too_many(source: &SourcePlan) -> bool
    ensures { result ≡ spec.has_too_many source.now }
{
    let messages = source.messages.as_slice();
    messages.len() > MOST_MESSAGES || any_bad_message(messages)
}

/// Whether some source has too many messages, or one that is empty or too long.
fn any_has_too_many(sources: &[SourcePlan]) -> bool
    ensures { result ≡ list_any spec.has_too_many sources.now }
{
    sources.iter().any(has_too_many)
}

/// Whether there are more nodes, sources and sinks than may be.
fn are_many(nodes: usize, sources: usize, sinks: usize) -> bool
    ensures { result ≡ nat_lt most_nodes (nodes + sources + sinks) }
{
    nodes > MOST_NODES || sources > MOST_NODES - nodes || sinks > MOST_NODES - nodes - sources
}

/// Whether something of a plan is over its limit.
fn is_too_many(plan: &Plan) -> bool
    ensures { result ≡ too_many plan.now }
{
    let nodes = plan.nodes.as_slice();
    let sources = plan.sources.as_slice();
    are_many(nodes.len(), sources.len(), plan.sinks.as_slice().len())
        || plan.wires.as_slice().len() > MOST_WIRES
        || any_too_large(nodes)
        || any_has_too_many(sources)
}

/// Whether some node's image has too many segments or processes.
fn any_too_large(nodes: &[NodePlan]) -> bool
    ensures { result ≡ list_any (λ n. spec.is_too_large n.image) nodes.now }
{
    nodes.iter().any(|node| is_too_large(&node.image))
}

/// Whether a memory has a size that none of its node's kind may have.
fn is_bad_size(node: &NodePlan) -> bool
    ensures { result ≡ spec.is_bad_size node.now }
{
    node.memory < SMALLEST_MEMORY
        || node.memory > node.kind.largest_memory()
        || node.memory % 4 != 0
}

/// The first node whose memory has a size that none of its kind may have.
fn first_bad_size(nodes: &[NodePlan]) -> Option<usize>
    ensures { result ≡ position spec.is_bad_size nodes.now }
{
    nodes.iter().position(is_bad_size)
}

/// Whether a timeslice is none that a processor may have.
fn is_bad_timeslice(timeslice: u32) -> bool
    ensures { result ≡ spec.is_bad_timeslice timeslice }
{
    timeslice < 1 || timeslice > LONGEST_TIMESLICE
}

/// Whether an end is no link of a node.
fn is_bad_end(nodes: usize, end: End) -> bool
    ensures { result ≡ spec.is_bad_end nodes end }
{
    end.node as usize >= nodes || end.link >= 4
}

/// Whether one of a wire's two ends is no link of a node.
fn has_bad_end(nodes: usize, wire: Wire) -> bool
    ensures { result ≡ (spec.is_bad_end nodes wire.a || spec.is_bad_end nodes wire.b) }
{
    is_bad_end(nodes, wire.a) || is_bad_end(nodes, wire.b)
}

/// Whether a wire, a source or a sink names an end that is no link of a node.
fn names_bad_end(plan: &Plan, place: usize) -> bool
    requires few { too_many plan.now ≡ false }
    requires within { place < length (all_wires plan.now) }
    ensures { result ≡ list_any (spec.is_bad_end (length plan.now.nodes))
        (slice_index_or (named_ends plan.now) place []) }
{
    let nodes = plan.nodes.as_slice().len();
    let wire = wire_at(plan, place);
    if place < plan.wires.as_slice().len() {
        return has_bad_end(nodes, wire);
    }
    is_bad_end(nodes, wire.b)
}

/// The first wire, source or sink that names an end that is no link of a node.
fn first_bad_end(plan: &Plan) -> Option<usize>
    requires { too_many plan.now ≡ false }
    ensures { result ≡ position (list_any (spec.is_bad_end (length plan.now.nodes))) (named_ends plan.now) }
{
    for place in 0..wire_count(plan) {
        if names_bad_end(plan, place) {
            return Some(place);
        }
    }
    None
}

/// Whether two ends are the same.
fn is_same_end(e: End, f: End) -> bool
    ensures { result ≡ same_end e f }
{
    e.node == f.node && e.link == f.link
}

/// The first wire whose two ends are the same.
fn first_same_end(wires: &[Wire]) -> Option<usize>
    ensures { result ≡ position (λ w. same_end w.a w.b) wires.now }
{
    wires.iter().position(|wire| is_same_end(wire.a, wire.b))
}

/// Whether two wires have an end in common.
fn share_an_end(v: Wire, w: Wire) -> bool
    ensures { result ≡ spec.share_an_end w v }
{
    is_same_end(v.a, w.a) || is_same_end(v.b, w.a) || is_same_end(v.a, w.b) || is_same_end(v.b, w.b)
}

/// Whether a wire has an end in common with one of the wires before a place.
fn is_end_twice(plan: &Plan, place: usize, wire: Wire) -> bool
    requires few { too_many plan.now ≡ false }
    requires within { place ≤ length (all_wires plan.now) }
    ensures { result ≡ list_any (spec.share_an_end wire) (take place (all_wires plan.now)) }
{
    for earlier in 0..place {
        if share_an_end(wire_at(plan, earlier), wire) {
            return true;
        }
    }
    false
}

/// The first wire with an end of an earlier one.
fn first_end_twice(plan: &Plan) -> Option<usize>
    requires { too_many plan.now ≡ false }
    ensures { result ≡ spec.first_end_twice (all_wires plan.now) }
{
    for place in 0..wire_count(plan) {
        if is_end_twice(plan, place, wire_at(plan, place)) {
            return Some(place);
        }
    }
    None
}

/// Whether a segment does not lie in the memory that programs may use.
fn is_bad_segment(memory: u32, segment: &Segment) -> bool
    ensures { result ≡ spec.is_bad_segment memory segment.now }
{
    let size = segment.bytes.as_slice().len() as u64;
    let start = u64::from(segment.address.get());
    size != 0
        && (start < u64::from(MEM_START)
            || size > u64::from(memory)
            || start - u64::from(MOST_NEG) > u64::from(memory) - size)
}

/// The first segment of a node that does not lie in the memory that programs may use.
fn bad_segment(node: &NodePlan) -> Option<usize>
    ensures { result ≡ spec.bad_segment node.now }
{
    let memory = node.memory;
    node.image
        .segments
        .as_slice()
        .iter()
        .position(|segment| is_bad_segment(memory, segment))
}

/// Whether a node has a segment that does not lie in the memory that programs may use.
fn has_bad_segment(node: &NodePlan) -> bool
    ensures { result ≡ is_some (spec.bad_segment node.now) }
{
    bad_segment(node).is_some()
}

/// The first node with a segment that does not lie in the memory that programs may use.
fn first_with_bad_segment(nodes: &[NodePlan]) -> Option<usize>
    ensures { result ≡ position (λ n. is_some (spec.bad_segment n)) nodes.now }
{
    nodes.iter().position(has_bad_segment)
}

/// The first segment of all nodes, with its node, that does not lie in the memory that programs may use.
#[tactic(auto, using(crate::proofs::FirstFaults::fault_told))]
fn first_bad_segment(nodes: &[NodePlan]) -> Option<(usize, usize)>
    ensures { result ≡ first_with_fault spec.bad_segment nodes.now }
{
    let number = first_with_bad_segment(nodes)?;
    let segment = bad_segment(&nodes[number])?;
    Some((number, segment))
}

/// Whether a capacity is none that a sink may have.
fn is_bad_capacity(sink: &SinkPlan) -> bool
    ensures { result ≡ spec.is_bad_capacity sink.now }
{
    sink.capacity < 1 || sink.capacity > LARGEST_CAPACITY
}

/// The first sink with a capacity that none may have.
pub fn first_bad_capacity(sinks: &[SinkPlan]) -> Option<usize>
    ensures { result ≡ position spec.is_bad_capacity sinks.now }
{
    sinks.iter().position(is_bad_capacity)
}
