//! What rounds did and told.

ghost use Rattle.std.specs.Prelude.{◌≡◌, [], OnOk};
ghost use Rattle.trounds.specs.Reports.{kept};
ghost use Rattle.trounds.specs.RoundNodes.{with_more};
ghost use Rattle.trounds.specs.Rows.{in_rows};

use crate::event_rows::{EventRow, EventRows};
use crate::report::Recording;
use std::alloc::{AllocError, Global};
use tplan::Note;

/// What rounds did and told, in its order.
#[derive(Drop)]
pub struct Account {
    /// The events, where they are kept.
    pub events: Option<EventRows>,
    pub notes: Vec<Note>,
}

impl Account {
    /// Nothing was done yet. It takes no memory.
    pub fn new(alloc: Global, recording: Recording) -> Self
        ensures events { result.events ≡ kept recording [] }
        ensures notes { result.notes.items ≡ [] }
    {
        let events = match recording {
            Recording::Events => Some(EventRows::new(alloc)),
            Recording::NoEvents => None,
        };
        Account {
            events,
            notes: Vec::new(alloc),
        }
    }

    /// The events of rows go behind those before, where events are kept.
    pub fn add(&mut self, rows: &[EventRow]) -> Result<(), AllocError>
        ensures events { OnOk result (self.new.events ≡ with_more (in_rows rows.now) self.old.events) }
        ensures notes { self.new.notes ≡ self.old.notes }
    {
        match &mut self.events {
            Some(events) => events.append(rows),
            None => Ok(()),
        }
    }
}
