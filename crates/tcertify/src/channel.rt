//! Channels and links, as the processes that use them stand there.

use tword::{Span, Word};

/// A process that waits at a channel.
#[derive(Clone, Copy)]
pub struct Request {
    /// The number of the process among those of its node.
    pub process: u32,
    pub buffer: Span,
}

/// A half of a link.
#[derive(Clone, Copy)]
pub enum LinkHalf {
    Empty,
    /// A process offers a message, or asks for one.
    Offered(Request),
    /// A process, by its number, that has enabled the input.
    Enabled(u32),
    /// Such a process that waits for the input and for others.
    Awaited(u32),
    /// A process that the input made go on.
    Fired(u32),
}

/// Who has a half of an internal channel.
#[derive(Clone, Copy)]
pub enum Holder {
    Nobody,
    /// A process that waits for a message to pass.
    Taken(Request),
    /// A process, by its number, whose alternative the channel may make go on once it waits.
    Enabled(u32),
    /// Such a process that waits.
    Awaited(u32),
}

/// A half of an internal channel.
#[derive(Clone, Copy)]
pub struct Half {
    /// Who has it.
    pub holder: Holder,
    /// The number of its place.
    pub place: u32,
}

/// An internal channel.
#[derive(Clone, Copy)]
pub struct Channel {
    /// The address of its word.
    pub address: Word,
    pub input: Half,
    pub output: Half,
}

/// The links of a node, by their numbers.
#[derive(Clone, Copy)]
pub struct Links {
    pub inputs: [LinkHalf; 4],
    pub outputs: [LinkHalf; 4],
    /// The message of an output has gone over, and its process has not gone on.
    pub unfinished: [bool; 4],
}
