//! The net of a wiring and the files of its images, before its first event.

ghost use Rattle.std.specs.Prelude.{◌≡◌, Ok, IfOk, MatchResult, length, IsErrOf, IsOk};
ghost use Rattle.tnet.specs.Building.{built, opening_configuration};
ghost use Rattle.tnet.specs.View.{view};
ghost use Rattle.tfiles.specs.Images.{image_of};
ghost use Rattle.topening.specs.declared.fault.Fault.TheVariants.{Memory};
ghost use Rattle.topening.specs.Faults.{IsFaultOf};
ghost use Rattle.topening.specs.Openings.{as_image, as_opened, images_of, opened_of, ArePlansOf, IsOpening, IsPlanOf};

use crate::fault::Fault;
use std::alloc::{AllocError, Global};
use tfiles::image::{ImageFault, read_image};
use tnet::Net;
use tplan::plan::Image;
use tplan::{NodePlan, Plan, SourcePlan, Wiring, WiringNode};
use tword::Items;

/// The net that a wiring and the files of its images stand for, one file a node, before its first event. The bytes of
/// a file are given back once its image is read, and an image once its node is built.
///
/// # Errors
/// `Image` with the number of the first node whose file is no image, else `Net` with the lowest fault of the plan.
/// `Memory` where the allocator refused.
pub fn open_net(alloc: Global, wiring: &Wiring, files: Items<Items<u8>>) -> Result<Net, Fault>
    requires { length files ≡ length wiring.now.nodes }
    ensures answer { MatchResult result (λ net. opened_of wiring.now files ≡ Ok net)
        (IsFaultOf (opened_of wiring.now files)) }

    // nothing is offered in the net
    ensures opening { IfOk result (IsOpening wiring.now files) }
{
    let plan = plan(alloc, wiring, files)?;
    build(alloc, plan)
}

/// The net of a plan.
fn build(alloc: Global, plan: Plan) -> Result<Net, Fault>
    ensures answer { MatchResult result (λ net. built plan ≡ Ok net) (IsFaultOf (as_opened (built plan))) }
    ensures alike { IfOk result (λ net. view net ≡ opening_configuration plan) }
{
    Ok(Net::build(alloc, plan)?)
}

/// The plan of a wiring and the files of its images, one file a node.
///
/// # Errors
/// `Image` with the number of the first node whose file is no image. `Memory` where the allocator refused.
#[tactic(auto, unfolding(crate::specs::Plans::plan_of))]
pub fn plan(alloc: Global, wiring: &Wiring, files: Items<Items<u8>>) -> Result<Plan, Fault>
    requires { length files ≡ length wiring.now.nodes }
    ensures { MatchResult result (IsPlanOf wiring.now files) (IsFaultOf (images_of files)) }
{
    let nodes = node_plans(alloc, wiring.nodes.as_slice(), files)?;
    let wires = Vec::from_slice(alloc, wiring.wires.as_slice())?;
    let sources = source_plans(alloc, wiring.sources.as_slice())?;
    let sinks = Vec::from_slice(alloc, wiring.sinks.as_slice())?;
    Ok(Plan {
        timeslice: wiring.timeslice,
        nodes,
        wires: Items::new(wires),
        sources,
        sinks: Items::new(sinks),
    })
}

/// A copy of the sources.
fn source_plans(alloc: Global, sources: &[SourcePlan]) -> Result<Items<SourcePlan>, AllocError>
    ensures { IfOk result (λ copies. copies ≡ sources.now) }
{
    let mut copies = Vec::with_capacity(alloc, sources.len())?;
    for source in sources {
        copies.push(SourcePlan {
            end: source.end,
            messages: copied_lists(alloc, source.messages.as_slice())?,
        })?;
    }
    Ok(Items::new(copies))
}

/// Copies of lists of bytes, such as messages or the bytes of files.
///
/// # Errors
/// Where the allocator refuses.
pub fn copied_lists(alloc: Global, lists: &[Items<u8>]) -> Result<Items<Items<u8>>, AllocError>
    ensures { IfOk result (λ copies. copies ≡ lists.now) }
{
    let mut copies = Vec::with_capacity(alloc, lists.len())?;
    for list in lists {
        copies.push(Items::new(Vec::from_slice(alloc, list.as_slice())?))?;
    }
    Ok(Items::new(copies))
}

/// Each node with the image of its file.
fn node_plans(
    alloc: Global,
    nodes: &[WiringNode],
    files: Items<Items<u8>>,
) -> Result<Items<NodePlan>, Fault>
    requires { length files ≡ length nodes.now }
    ensures { MatchResult result (ArePlansOf nodes.now files) (IsFaultOf (images_of files)) }
{
    let mut plans = Vec::new(alloc);
    for file in files.into_vec() {
        let node = plans.len();
        let image = image_of_node(alloc, node, file.as_slice())?;
        let planned = &nodes[node];
        plans.push(NodePlan {
            memory: planned.memory,
            kind: planned.kind,
            image,
        })?;
    }
    Ok(Items::new(plans))
}

/// The image of a node.
///
/// # Errors
/// `Image` with the number of the node where the file is no image. `Memory` where the allocator refused, but never
/// where the file is no image.
pub fn image_of_node(alloc: Global, node: usize, file: &[u8]) -> Result<Image, Fault>
    ensures answer { MatchResult result (λ image. image_of file.now ≡ Ok image)
        (IsFaultOf (as_image node (image_of file.now))) }
    ensures wanted { IsErrOf result Memory → IsOk (as_image node (image_of file.now)) }
{
    match read_image(alloc, file) {
        Ok(image) => Ok(image),
        Err(ImageFault::OutOfMemory) => Err(Fault::Memory),
        Err(fault) => Err(Fault::Image(node, fault)),
    }
}
