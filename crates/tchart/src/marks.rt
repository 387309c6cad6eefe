//! The marks of a picture, and what is known of each node and of each end while it is laid out.

ghost use Rattle.std.specs.Prelude.{◌≡◌};
ghost use Rattle.tchart.specs.Marks as spec;

use crate::shown::Message;
use crate::waits::Need;
use tplan::plan::End;
use tword::{Break, Word};

/// Instructions and dispatches of a node that stand in one row.
#[derive(Clone, Copy)]
pub struct Bar {
    /// The row; the first of all is 1.
    pub row: u32,
    /// The number of the first event; that of the first of all is 0.
    pub first: u64,
    /// The number of the last event.
    pub last: u64,
    /// How many there are.
    pub count: u64,
    /// The descriptor of the process of the first event, if it has one.
    pub process: Option<Word>,
}

/// A process waits, from a row on.
#[derive(Clone, Copy)]
pub struct Pause {
    pub from: u32,
    /// The number of the event in which it began to wait.
    pub first: u64,
    /// The descriptor of the process.
    pub process: Word,
    /// What it waits for.
    pub need: Need,
}

/// A place beside a column, for the pause of one process at a time.
#[derive(Clone, Copy)]
pub struct Lane {
    pub pause: Option<Pause>,
}

/// A mark of a picture.
#[derive(Drop)]
pub enum Mark {
    /// Instructions and dispatches of a node.
    Bar {
        node: u8,
        bar: Bar,
    },
    /// A process of a node waits, down to this row.
    Pause {
        node: u8,
        /// Its place beside the column, among those of other processes that wait meanwhile.
        lane: u8,
        pause: Pause,
        to: u32,
        /// The number of the event after which it waits no more, if there was one.
        last: Option<u64>,
    },
    /// The first byte of a message is sent on a link.
    Begin {
        node: u8,
        row: u32,
        number: u64,
        link: u8,
        process: Option<Word>,
    },
    /// A message, from the row of its first byte at its sender to that of its last one at its receiver.
    Message {
        to: End,
        begun: Begun,
        row: u32,
        number: u64,
        message: Message,
    },
    /// The processor of a node halts.
    Halt {
        node: u8,
        row: u32,
        number: u64,
    },
    /// A node is frozen.
    Freeze {
        node: u8,
        row: u32,
        number: u64,
        broken: Break,
    },
}

impl Mark {
    /// The layer that a mark lies in: pauses below arrows, and arrows below all else.
    pub(crate) fn layer(&self) -> u8
        ensures { result ≡ spec.layer_of self.now }
    {
        match self {
            Mark::Pause { .. } => 0,
            Mark::Message { .. } => 1,
            _ => 2,
        }
    }

    /// The lowest row in which there is something of a mark.
    pub(crate) fn last_row(&self) -> u32
        ensures { result ≡ spec.last_row self.now }
    {
        match self {
            Mark::Bar { bar, .. } => bar.row,
            Mark::Pause { to, .. } => *to,
            Mark::Begin { row, .. } => *row,
            Mark::Message { row, .. } => *row,
            Mark::Halt { row, .. } => *row,
            Mark::Freeze { row, .. } => *row,
        }
    }
}

/// The row and the event in which the first byte of a message was sent.
#[derive(Clone, Copy)]
pub struct Begun {
    pub row: u32,
    pub number: u64,
}

/// What is known of a node.
#[derive(Clone, Copy)]
pub struct Track {
    /// The row of the last thing that it did or knows of; 0 before the first.
    pub row: u32,
    /// Its last instructions and dispatches.
    pub bar: Option<Bar>,
}

/// What is known of an end.
#[derive(Clone, Copy)]
pub struct Way {
    /// Where the message that comes to the end was begun.
    pub begun: Begun,
    /// The row of the sender at the byte that came last.
    pub sent_row: u32,
    /// The row of the receiver at the acknowledge that came last.
    pub ack_row: u32,
}
