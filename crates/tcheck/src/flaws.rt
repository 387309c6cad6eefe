//! What may be wrong with a net that is to be, and where.

use tfiles::ImageFault;
use tplan::End;
use tword::{Break, Kind, Word};

/// Where something is wrong. Numbers begin at 0.
#[derive(Clone, Copy, Debug, PartialEq, Eq)]
pub enum Place {
    /// In the net as a whole.
    Net,
    /// At this node.
    Node(usize),
    /// At this wire.
    Wire(usize),
    /// At this source.
    Source(usize),
    /// At this sink.
    Sink(usize),
    /// At this hold.
    Hold(usize),
}

/// Of what there may be too many.
#[derive(Clone, Copy, Debug, PartialEq, Eq)]
pub enum Plenty {
    /// The wires of a net: at most 128.
    Wires,
    /// The holds of a run: at most 256.
    Holds,
    /// The segments of an image: at most 4,096.
    Segments,
    /// The processes of an image: at most 512.
    Processes,
    /// The messages of a source: at most 256.
    Messages,
}

/// What is wrong somewhere.
#[derive(Clone, Copy, Debug, PartialEq, Eq)]
pub enum Flaw {
    /// There are over 64 nodes, sources and sinks together.
    TooManyNodes,
    /// There are too many of these: as many as the number says.
    TooMany(Plenty, usize),
    /// The timeslice is this, and not 1 to 65,536 instructions.
    BadTimeslice(u32),
    /// The file of the image cannot be read.
    NoFile,
    /// The file is no image.
    BadImage(ImageFault),
    /// The memory has this size in bytes, which no node of this kind may have.
    BadSize(u32, Kind),
    /// A segment does not lie in the memory that programs may use.
    BadSegment {
        /// The number of the segment.
        segment: usize,
        /// The address of its first byte.
        address: Word,
        /// How many bytes it has.
        size: usize,
        /// How many bytes the memory has.
        memory: u32,
    },
    /// A process is refused.
    BadProcess {
        /// The number of the process.
        process: usize,
        /// Its descriptor.
        descriptor: Word,
        /// The rule that adding it would break.
        broken: Break,
    },
    /// A message of a source has not 1 to 4,096 bytes.
    BadMessage {
        /// The number of the message.
        message: usize,
        /// How many bytes it has.
        size: usize,
    },
    /// An end is no link of a node.
    BadEnd(End),
    /// Both ends of a wire are this one.
    SameEnd(End),
    /// An end is one of an earlier wire or source as well.
    SharedEnd {
        /// The end that is named twice.
        end: End,
        /// What names it first.
        earlier: Place,
    },
    /// The capacity of a sink is this, and not 1 to 65,536 bytes.
    BadCapacity(u32),
    /// There is no wire at the end that a hold names.
    NoWire(End),
    /// A hold begins behind its end.
    EndsEarly {
        /// The first round in which it holds.
        from: u32,
        /// The first round in which it does not.
        until: u32,
    },
}

/// Something that is wrong: where, and what.
#[derive(Clone, Copy, Debug, PartialEq, Eq)]
pub struct Wrong {
    pub place: Place,
    pub flaw: Flaw,
}
