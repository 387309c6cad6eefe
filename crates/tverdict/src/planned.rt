//! What a plan has to have before its machine opens: no fault. A net is built of a copy of the plan, to find that out.

ghost use Rattle.std.specs.Prelude.{◌≡◌, IfOk, MatchResult};
ghost use Rattle.tnet.specs.Building.{fault_of, IsFaultOf};
ghost use Rattle.tverdict.specs.Opening.{HasWires};

use std::alloc::{AllocError, Global};
use tnet::{Net, NetParts, Wires};
use tplan::{BuildFault, Image, NodePlan, Plan, Segment, SourcePlan};
use tword::Items;

/// The same bytes.
fn copied_bytes(alloc: Global, bytes: &Items<u8>) -> Result<Items<u8>, AllocError>
    ensures { IfOk result (λ copy. copy ≡ bytes.now) }
{
    Ok(Items::new(Vec::from_slice(alloc, bytes.as_slice())?))
}

/// The same segments.
fn copied_segments(alloc: Global, segments: &[Segment]) -> Result<Items<Segment>, AllocError>
    ensures { IfOk result (λ copies. copies ≡ segments.now) }
{
    let mut copies = Vec::with_capacity(alloc, segments.len())?;
    for segment in segments {
        let bytes = copied_bytes(alloc, &segment.bytes)?;
        let address = segment.address;
        copies.push(Segment { address, bytes })?;
    }
    Ok(Items::new(copies))
}

/// The same image.
fn copied_image(alloc: Global, image: &Image) -> Result<Image, AllocError>
    ensures { IfOk result (λ copy. copy ≡ image.now) }
{
    let segments = copied_segments(alloc, image.segments.as_slice())?;
    let processes = Vec::from_slice(alloc, image.processes.as_slice())?;
    Ok(Image {
        segments,
        processes: Items::new(processes),
    })
}

/// The same nodes.
fn copied_nodes(alloc: Global, nodes: &[NodePlan]) -> Result<Items<NodePlan>, AllocError>
    ensures { IfOk result (λ copies. copies ≡ nodes.now) }
{
    let mut copies = Vec::with_capacity(alloc, nodes.len())?;
    for node in nodes {
        let image = copied_image(alloc, &node.image)?;
        let memory = node.memory;
        let kind = node.kind;
        copies.push(NodePlan {
            memory,
            kind,
            image,
        })?;
    }
    Ok(Items::new(copies))
}

/// The same messages.
fn copied_messages(alloc: Global, messages: &[Items<u8>]) -> Result<Items<Items<u8>>, AllocError>
    ensures { IfOk result (λ copies. copies ≡ messages.now) }
{
    let mut copies = Vec::with_capacity(alloc, messages.len())?;
    for message in messages {
        copies.push(copied_bytes(alloc, message)?)?;
    }
    Ok(Items::new(copies))
}

/// The same sources.
fn copied_sources(alloc: Global, sources: &[SourcePlan]) -> Result<Items<SourcePlan>, AllocError>
    ensures { IfOk result (λ copies. copies ≡ sources.now) }
{
    let mut copies = Vec::with_capacity(alloc, sources.len())?;
    for source in sources {
        let messages = copied_messages(alloc, source.messages.as_slice())?;
        let end = source.end;
        copies.push(SourcePlan { end, messages })?;
    }
    Ok(Items::new(copies))
}

/// The same plan.
fn copied_plan(alloc: Global, plan: &Plan) -> Result<Plan, AllocError>
    ensures { IfOk result (λ copy. copy ≡ plan.now) }
{
    let nodes = copied_nodes(alloc, plan.nodes.as_slice())?;
    let wires = Vec::from_slice(alloc, plan.wires.as_slice())?;
    let sources = copied_sources(alloc, plan.sources.as_slice())?;
    let sinks = Vec::from_slice(alloc, plan.sinks.as_slice())?;
    Ok(Plan {
        timeslice: plan.timeslice,
        nodes,
        wires: Items::new(wires),
        sources,
        sinks: Items::new(sinks),
    })
}

/// The wires of a plan without a fault.
///
/// # Errors
/// The lowest fault of the plan, with its first place; `OutOfMemory` where the allocator refuses.
pub(crate) fn planned_wires(alloc: Global, plan: &Plan) -> Result<Wires, BuildFault>
    ensures { MatchResult result (HasWires plan.now) (IsFaultOf (fault_of plan.now)) }
{
    let copy = copied_plan(alloc, plan)?;
    let net = Net::build(alloc, copy)?;
    let NetParts {
        nodes: _,
        wires,
        inboxes: _,
    } = net.into_parts();
    Ok(wires)
}
