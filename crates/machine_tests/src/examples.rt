//! Small nets.

use crate::fault::Fault;
use std::alloc::{AllocError, Global};
use tfiles::read_image;
use tnet::Net;
use tplan::{BuildFault, End, NodePlan, Plan, SinkPlan, SourcePlan, Wire};
use tword::{Items, Kind};

/// `ldc 4; stl 0; ldl 0; adc 1; stl 1; stopp` at #80000080, and the low process of the workspace #80000100 that begins
/// there, as in all of these images.
const ADDER: &[u8] = b"TEMUIMG1\x01\0\0\0\x01\0\0\0\
    \x80\0\0\x80\x07\0\0\0\x44\xd0\x70\x81\xd1\x21\xf5\
    \x01\x01\0\x80\x80\0\0\x80";

/// `j -2`: it jumps to itself for ever.
const RUNNER: &[u8] = b"TEMUIMG1\x01\0\0\0\x01\0\0\0\
    \x80\0\0\x80\x02\0\0\0\x60\x0e\
    \x01\x01\0\x80\x80\0\0\x80";

/// `ldlp 1; mint; ldnlp 1; ldc 4; out; stopp`, and four bytes at #80000104: they are sent on link 1.
const SENDER: &[u8] = b"TEMUIMG1\x02\0\0\0\x01\0\0\0\
    \x80\0\0\x80\x08\0\0\0\x11\x24\xf2\x51\x44\xfb\x21\xf5\
    \x04\x01\0\x80\x04\0\0\0\x01\x02\x03\x04\
    \x01\x01\0\x80\x80\0\0\x80";

/// The same with `ldc 8`: eight bytes are sent.
const LONG_SENDER: &[u8] = b"TEMUIMG1\x02\0\0\0\x01\0\0\0\
    \x80\0\0\x80\x08\0\0\0\x11\x24\xf2\x51\x48\xfb\x21\xf5\
    \x04\x01\0\x80\x04\0\0\0\x01\x02\x03\x04\
    \x01\x01\0\x80\x80\0\0\x80";

/// `ldlp 1; mint; ldnlp 6; ldc 4; in; stopp`: four bytes are received on link 2.
const RECEIVER: &[u8] = b"TEMUIMG1\x01\0\0\0\x01\0\0\0\
    \x80\0\0\x80\x08\0\0\0\x11\x24\xf2\x56\x44\xf7\x21\xf5\
    \x01\x01\0\x80\x80\0\0\x80";

/// `ldlp 1; mint; ldnlp 1; ldc 4; out; ldlp 1; mint; ldnlp 6; ldc 4; in; ldlp 2; ldc 17; lend; stopp`, and the word,
/// index and count at #80000104: a hundred times the word is sent on link 1 and then received on link 2.
const RING_FIRST: &[u8] = b"TEMUIMG1\x02\0\0\0\x01\0\0\0\
    \x80\0\0\x80\x13\0\0\0\x11\x24\xf2\x51\x44\xfb\x11\x24\xf2\x56\x44\xf7\x12\x21\x41\x22\xf1\x21\xf5\
    \x04\x01\0\x80\x0c\0\0\0\x2a\0\0\0\0\0\0\0\x64\0\0\0\
    \x01\x01\0\x80\x80\0\0\x80";

/// The image of a ring's other nodes: as that of the first, but the word is received first, and then sent.
const RING_OTHER: &[u8] = b"TEMUIMG1\x02\0\0\0\x01\0\0\0\
    \x80\0\0\x80\x13\0\0\0\x11\x24\xf2\x56\x44\xf7\x11\x24\xf2\x51\x44\xfb\x12\x21\x41\x22\xf1\x21\xf5\
    \x04\x01\0\x80\x0c\0\0\0\0\0\0\0\0\0\0\0\x64\0\0\0\
    \x01\x01\0\x80\x80\0\0\x80";

/// `ldlp 1; mint; ldnlp 6; ldc 4; in; ldlp 1; mint; ldnlp 1; ldc 4; out; j -14`: again and again the 4 bytes of word 1
/// are received on link 2 and sent on link 1.
const COPIER: &[u8] = b"TEMUIMG1\x01\0\0\0\x01\0\0\0\
    \x80\0\0\x80\x0e\0\0\0\x11\x24\xf2\x56\x44\xf7\x11\x24\xf2\x51\x44\xfb\x60\x02\
    \x01\x01\0\x80\x80\0\0\x80";

/// Where a source of two messages feeds a net, and where a sink with just room for them drains it.
#[derive(Clone, Copy)]
pub struct Scripts {
    pub fed: End,
    pub drained: End,
}

/// A net of nodes of 2,048 bytes.
#[derive(Clone, Copy)]
pub struct Example {
    /// Of each node the image.
    images: &'static [&'static [u8]],
    /// Of each wire the two nodes: it leads from link 1 of the first to link 2 of the second.
    joined: &'static [(u32, u32)],
    scripts: Option<Scripts>,
}

/// One node, which adds.
pub const FIRST: Example = Example {
    images: &[ADDER],
    joined: &[],
    scripts: None,
};

/// A node sends four bytes to another.
pub const MESSAGE: Example = Example {
    images: &[SENDER, RECEIVER],
    joined: &[(0, 1)],
    scripts: None,
};

/// A node sends eight bytes to one that asks for four.
pub const LENGTHS: Example = Example {
    images: &[LONG_SENDER, RECEIVER],
    joined: &[(0, 1)],
    scripts: None,
};

/// Two nodes send four bytes each, to two others.
pub const TWO_MESSAGES: Example = Example {
    images: &[SENDER, RECEIVER, SENDER, RECEIVER],
    joined: &[(0, 1), (2, 3)],
    scripts: None,
};

/// Three nodes hand four bytes round a hundred times.
pub const RING: Example = Example {
    images: &[RING_FIRST, RING_OTHER, RING_OTHER],
    joined: &[(0, 1), (1, 2), (2, 0)],
    scripts: None,
};

/// A node that passes on what a source sends it to a sink.
pub const SCRIPTED: Example = Example {
    images: &[COPIER],
    joined: &[],
    scripts: Some(Scripts {
        fed: End { node: 0, link: 2 },
        drained: End { node: 0, link: 1 },
    }),
};

/// Six nodes that run for ever.
pub const SIX_RUNNERS: Example = Example {
    images: &[RUNNER, RUNNER, RUNNER, RUNNER, RUNNER, RUNNER],
    joined: &[],
    scripts: None,
};

/// Seven nodes that run for ever.
pub const SEVEN_RUNNERS: Example = Example {
    images: &[RUNNER, RUNNER, RUNNER, RUNNER, RUNNER, RUNNER, RUNNER],
    joined: &[],
    scripts: None,
};

/// What the sources send: two messages of four bytes.
const MESSAGES: &[[u8; 4]] = &[[1, 2, 3, 4], [10, 11, 12, 13]];

/// The messages of a source.
fn messages(alloc: Global) -> Result<Vec<Items<u8>>, AllocError> {
    let mut messages = Vec::new(alloc);
    for message in MESSAGES {
        messages.push(Items::new(Vec::from_slice(alloc, message)?))?;
    }
    Ok(messages)
}

/// The source, if there is one.
fn sources(alloc: Global, scripts: Option<Scripts>) -> Result<Vec<SourcePlan>, AllocError> {
    let mut sources = Vec::new(alloc);
    if let Some(Scripts { fed, .. }) = scripts {
        sources.push(SourcePlan {
            end: fed,
            messages: Items::new(messages(alloc)?),
        })?;
    }
    Ok(sources)
}

/// The sink, if there is one.
fn sinks(alloc: Global, scripts: Option<Scripts>) -> Result<Vec<SinkPlan>, AllocError> {
    let mut sinks = Vec::new(alloc);
    if let Some(Scripts { drained, .. }) = scripts {
        sinks.push(SinkPlan {
            end: drained,
            capacity: 8,
        })?;
    }
    Ok(sinks)
}

/// A plan of these nodes and wires.
pub fn plan(
    alloc: Global,
    nodes: Vec<NodePlan>,
    wires: Vec<Wire>,
    scripts: Option<Scripts>,
) -> Result<Plan, AllocError> {
    Ok(Plan {
        timeslice: 1_024,
        nodes: Items::new(nodes),
        wires: Items::new(wires),
        sources: Items::new(sources(alloc, scripts)?),
        sinks: Items::new(sinks(alloc, scripts)?),
    })
}

/// The node of an image.
fn node(alloc: Global, bytes: &[u8]) -> Result<NodePlan, Fault> {
    match read_image(alloc, bytes) {
        Ok(image) => Ok(NodePlan {
            memory: 2_048,
            kind: Kind::One,
            image,
        }),
        Err(_fault) => Err(Fault::Memory),
    }
}

/// The nodes of images.
fn nodes(alloc: Global, images: &[&[u8]]) -> Result<Vec<NodePlan>, Fault> {
    let mut nodes = Vec::new(alloc);
    for bytes in images {
        nodes.push(node(alloc, bytes)?)?;
    }
    Ok(nodes)
}

/// The wires from link 1 of nodes to link 2 of others.
fn wires(alloc: Global, joined: &[(u32, u32)]) -> Result<Vec<Wire>, AllocError> {
    let mut wires = Vec::new(alloc);
    for (from, to) in joined {
        wires.push(Wire {
            a: End {
                node: *from,
                link: 1,
            },
            b: End { node: *to, link: 2 },
        })?;
    }
    Ok(wires)
}

/// The plan of a net.
pub fn plan_of(alloc: Global, example: &Example) -> Result<Plan, Fault> {
    let wires = wires(alloc, example.joined)?;
    Ok(plan(alloc, nodes(alloc, example.images)?, wires, example.scripts)?)
}

/// A net of a plan.
pub fn net_of(alloc: Global, plan: Plan) -> Result<Net, Fault> {
    match Net::build(alloc, plan) {
        Ok(net) => Ok(net),
        Err(BuildFault::OutOfMemory) => Err(Fault::Memory),
        Err(_fault) => Err(Fault::Wrong("the plan is not built")),
    }
}

/// A net is built.
pub fn built(alloc: Global, example: &Example) -> Result<Net, Fault> {
    net_of(alloc, plan_of(alloc, example)?)
}
