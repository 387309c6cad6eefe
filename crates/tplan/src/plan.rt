//! A plan: the nodes, images and wires of a net.

ghost use Rattle.std.specs.Prelude.{◌≡◌};
ghost use Rattle.tplan.specs.declared.plan.BuildFault.TheVariants.{OutOfMemory};

use std::alloc::{AllocError, AllocFailed};
use tword::{Break, Items, Kind, Word};

/// The end of a wire: a node and one of its links.
#[derive(Clone, Copy, Debug, PartialEq, Eq)]
pub struct End {
    /// The number of the node, from 0 on.
    pub node: u32,
    /// The number of the link, 0 to 3.
    pub link: u32,
}

/// A wire joins two ends.
#[derive(Clone, Copy, Debug, PartialEq, Eq)]
pub struct Wire {
    pub a: End,
    pub b: End,
}

/// Bytes that are loaded at an address.
#[derive(Drop)]
pub struct Segment {
    /// The address of the first byte.
    pub address: Word,
    pub bytes: Items<u8>,
}

/// A process that is added, with its first address.
#[derive(Clone, Copy, Debug, PartialEq, Eq)]
pub struct Process {
    /// The descriptor: the address of the workspace, plus 1 for a low process.
    pub wdesc: Word,
    /// The address of the process's first instruction.
    pub iptr: Word,
}

/// What is loaded into a node.
#[derive(Drop)]
pub struct Image {
    pub segments: Items<Segment>,
    pub processes: Items<Process>,
}

/// One node of a plan: the number of bytes of its memory, its kind, and what is loaded.
#[derive(Drop)]
pub struct NodePlan {
    /// The number of bytes of the memory, a multiple of 4.
    pub memory: u32,
    pub kind: Kind,
    pub image: Image,
}

/// A source, which stands at the far side of a node's link and offers messages there, one after another.
#[derive(Drop)]
pub struct SourcePlan {
    /// The end that the source feeds.
    pub end: End,
    /// The bytes of each message: 1 to 4,096.
    pub messages: Items<Items<u8>>,
}

/// A sink, which stands at the far side of a node's link and keeps the messages that come there.
#[derive(Clone, Copy, Debug, PartialEq, Eq)]
pub struct SinkPlan {
    /// The end that the sink takes from.
    pub end: End,
    /// How many bytes the sink takes: 1 to 65,536.
    pub capacity: u32,
}

/// A net before it is built.
#[derive(Drop)]
pub struct Plan {
    /// After how many instructions a low process may lose the processor: 1 to 65,536.
    pub timeslice: u32,
    pub nodes: Items<NodePlan>,
    pub wires: Items<Wire>,
    pub sources: Items<SourcePlan>,
    pub sinks: Items<SinkPlan>,
}

/// Why a plan cannot be built: the lowest of these that holds, in this order, with its first place. The places of ends
/// count over the wires, then the sources, then the sinks.
#[derive(Clone, Copy, Debug, PartialEq, Eq)]
pub enum BuildFault {
    /// The allocator refused.
    OutOfMemory,
    /// Over 64 nodes, sources and sinks together, over 128 wires, an image with over 4,096 segments or 512 processes, a
    /// source with over 256 messages, or a message that has not 1 to 4,096 bytes.
    TooMany,
    /// The memory of this node has not 2,048 to 1,048,576 bytes, of kind 2 to 16,777,216, or no multiple of 4.
    BadSize(usize),
    /// The timeslice is not 1 to 65,536 instructions.
    BadTimeslice,
    /// An end of this wire, source or sink is no link of a node.
    BadEnd(usize),
    /// The two ends of this wire are the same.
    SameEnd(usize),
    /// An end of this wire, source or sink is one of an earlier one.
    EndTwice(usize),
    /// This segment of this node does not lie in the memory that programs may use. An empty one may lie anywhere.
    BadSegment(usize, usize),
    /// This process of this node is refused, with this break.
    BadProcess(usize, usize, Break),
    /// The capacity of this sink is not 1 to 65,536 bytes.
    BadCapacity(usize),
}

impl From<AllocError> for BuildFault {
    ghost from_gives = { λ _ fault. fault ≡ OutOfMemory };

    fn from(_error: AllocError) -> BuildFault {
        BuildFault::OutOfMemory
    }
}

impl<T: Drop> From<AllocFailed<T>> for BuildFault {
    ghost from_gives = { λ _ fault. fault ≡ OutOfMemory };

    fn from(_error: AllocFailed<T>) -> BuildFault {
        BuildFault::OutOfMemory
    }
}
