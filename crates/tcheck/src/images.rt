//! What is wrong with the files of images, and the plan that they give.

ghost use Rattle.std.specs.Prelude.{◌≡◌, ◌++◌, IfOk, OnOk, length, map, zip};
ghost use Rattle.tfiles.specs.Images.{image_of};
ghost use Rattle.tcheck.specs.Checks as spec;
ghost use Rattle.tcheck.specs.Wrongs.{each_from};

use crate::flaws::{Flaw, Place, Wrong};
use std::alloc::{AllocError, Global};
use tfiles::{ImageFault, read_image};
use tplan::{Image, NodePlan, WiringNode};
use tword::Items;

/// The nodes of a wiring with the images of their files, and behind what was found before what is wrong with the files.
/// A node whose image cannot be read is loaded with nothing.
pub(crate) fn planned_nodes(
    alloc: Global,
    found: &mut Vec<Wrong>,
    nodes: &[WiringNode],
    files: &[Option<Items<u8>>],
) -> Result<Items<NodePlan>, AllocError>
    requires { length files.now ≡ length nodes.now }
    ensures plans { IfOk result (λ plans. plans ≡ map spec.planned (zip nodes.now files.now)) }
    ensures found { OnOk result (found.new.items ≡ found.old.items ++ each_from spec.file_wrongs 0 files.now) }
{
    let mut plans = Vec::with_capacity(alloc, nodes.len())?;
    for (number, node) in nodes.iter().enumerate() {
        let image = image_in(alloc, found, number, &files[number])?;
        plans.push(NodePlan {
            memory: node.memory,
            kind: node.kind,
            image,
        })?;
    }
    Ok(Items::new(plans))
}

/// An image of nothing. It takes no memory.
fn empty_image(alloc: Global) -> Image
    ensures { result ≡ spec.empty_image }
{
    Image {
        segments: Items::new(Vec::new(alloc)),
        processes: Items::new(Vec::new(alloc)),
    }
}

/// What a node is loaded with, by its file, and behind what was found before what is wrong with that.
fn image_in(
    alloc: Global,
    found: &mut Vec<Wrong>,
    node: usize,
    file: &Option<Items<u8>>,
) -> Result<Image, AllocError>
    ensures image { IfOk result (λ image. image ≡ spec.image_in file.now) }
    ensures found { OnOk result (found.new.items ≡ found.old.items ++ spec.file_wrongs node file.now) }
{
    match file {
        Some(bytes) => image_of_bytes(alloc, found, node, bytes.as_slice()),
        None => {
            add_flaw(found, node, Flaw::NoFile)?;
            Ok(empty_image(alloc))
        }
    }
}

/// What a node is loaded with, by the bytes of its file.
fn image_of_bytes(
    alloc: Global,
    found: &mut Vec<Wrong>,
    node: usize,
    bytes: &[u8],
) -> Result<Image, AllocError>
    ensures image { IfOk result (λ image. image ≡ spec.or_empty (image_of bytes.now)) }
    ensures found { OnOk result
        (found.new.items ≡ found.old.items ++ spec.image_wrongs node (image_of bytes.now)) }
{
    match read_image(alloc, bytes) {
        Ok(image) => Ok(image),
        Err(ImageFault::OutOfMemory) => Err(AllocError),
        Err(fault) => {
            add_flaw(found, node, Flaw::BadImage(fault))?;
            Ok(empty_image(alloc))
        }
    }
}

/// A flaw of a node.
fn add_flaw(found: &mut Vec<Wrong>, node: usize, flaw: Flaw) -> Result<(), AllocError>
    ensures { OnOk result (found.new.items ≡ found.old.items ++ spec.flaw_of_node node flaw) }
{
    found.push(Wrong {
        place: Place::Node(node),
        flaw,
    })?;
    Ok(())
}
