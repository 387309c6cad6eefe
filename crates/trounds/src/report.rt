//! What a run of rounds did, and how it ended.

use crate::event_rows::EventRows;
use tnet::Net;
use tplan::{Event, Note};
use tword::Items;

/// How a run of rounds ended.
#[derive(Clone, Copy, Debug, PartialEq, Eq)]
pub enum Ending {
    /// No event is enabled.
    Quiet,
    /// The rounds that were asked for are done.
    Rounds,
}

/// What a run of rounds did.
#[derive(Drop)]
pub struct Report {
    pub end: Ending,
    /// How many rounds were done.
    pub rounds: u32,
    /// The events that were done, in their order.
    pub events: Items<Event>,
    /// The notes of the events, in their order.
    pub notes: Items<Note>,
    /// The net after the events.
    pub net: Net,
}

/// Whether a run of rounds keeps what it does.
#[derive(Clone, Copy, Debug, PartialEq, Eq)]
pub enum Recording {
    /// Its events are kept.
    Events,
    /// Only its notes are kept: it takes no more memory the more events it does.
    NoEvents,
}

/// What a run of rounds did, as it was recorded.
#[derive(Drop)]
pub struct RunRecord {
    pub end: Ending,
    /// How many rounds were done.
    pub rounds: u32,
    /// The events that were done, in their order, where they were kept.
    pub events: Option<EventRows>,
    /// The notes of the events, in their order.
    pub notes: Items<Note>,
    /// The net after the events.
    pub net: Net,
}

/// Why rounds did not come to their end: `BadWorkers`, else `BadHold`, else `OutOfMemory`.
#[derive(Clone, Copy, Debug, PartialEq, Eq)]
pub enum NetFault {
    /// The allocator refused.
    OutOfMemory,
    /// There are no workers, or over 64.
    BadWorkers,
    /// This hold names no wired end or ends before it begins, or is the first one over 256.
    BadHold(usize),
}
