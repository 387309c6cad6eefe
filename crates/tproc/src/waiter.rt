//! What processes wait for, and the state of a link.

use crate::offer::Offer;
use tcpu::Registers;
use tword::Word;

/// What a process waits for that neither runs nor is queued.
#[derive(Clone, Copy, Debug, PartialEq, Eq)]
pub enum Reason {
    /// The process waits to receive a message on an internal channel.
    Receives {
        channel: Word,
        buffer: Word,
        length: u32,
    },
    /// The process waits to send a message on an internal channel.
    Sends {
        channel: Word,
        buffer: Word,
        length: u32,
    },
    /// The process waits to receive a message on this link.
    LinkInput(u8),
    /// The process waits to send a message on this link.
    LinkOutput(u8),
    /// The process waits until a guard of its alternative is ready.
    Chooses,
}

/// A process that waits.
#[derive(Clone, Copy, Debug, PartialEq, Eq)]
pub struct Waiter {
    /// The descriptor of the process.
    pub process: Word,
    pub reason: Reason,
}

/// A process that is queued or waits.
#[derive(Clone, Copy, Debug, PartialEq, Eq)]
pub struct Entry {
    /// The descriptor of the process.
    pub process: Word,
    /// What the process waits for, unless it is queued.
    pub reason: Option<Reason>,
}

/// One link of a processor.
#[derive(Clone, Copy, Debug, PartialEq, Eq)]
pub struct LinkEnd {
    /// The pending output.
    pub output: Option<Offer>,
    /// The pending input.
    pub input: Option<Offer>,
    /// Whether a byte was noticed that nobody asked for.
    pub noticed: bool,
    /// The process that enabled the link.
    pub remembered: Option<Word>,
}

/// The low process that a high one interrupted.
#[derive(Clone, Copy, Debug, PartialEq, Eq)]
pub struct Suspended {
    pub registers: Registers,
    /// How many instructions the process has done since it was dispatched.
    pub count: u32,
}
