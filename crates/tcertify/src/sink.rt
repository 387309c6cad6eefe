//! Sinks, as the process machine has them.

ghost use Rattle.std.specs.Prelude.{◌≡◌};
ghost use Rattle.tplan.specs.declared.plan.End.{End};
ghost use Rattle.tprocesses.specs.LinkMessages as spec;
ghost use Rattle.tprocesses.specs.Places.{Kept};
ghost use Rattle.tcertify.specs.Ends.{DoesThere, messages_kept};
ghost use Rattle.tcertify.specs.Nodes.{nothing};

use crate::fault::Fault;
use crate::notes::{Mode, Notes};
use crate::stop::Stop;

/// A sink: the messages that it has kept.
#[derive(Drop)]
pub struct Sink {
    /// The messages, the first one first. A byte may not be known.
    pub messages: Vec<Vec<Option<u8>>>,
    /// How many bytes there is room for.
    pub room: usize,
    /// The number of the place of the messages.
    pub place: u32,
}

impl Sink {
    /// Receives a message, and keeps it behind the others.
    ///
    /// # Errors
    /// `FullSink` where there is no room for it; `OutOfMemory`.
    pub fn receives(&mut self, message: Vec<Option<u8>>, notes: &mut Notes) -> Result<(), Fault>
        ensures kept { (e : End) → DoesThere (Kept e) self.old.place (spec.sink_receives message.items e) nothing
            (record { value = messages_kept self.old; notes = notes.old }) result
            (record { value = messages_kept self.new; notes = notes.new }) }
        ensures place { self.new.place ≡ self.old.place }
    {
        notes.add(self.place, Mode::Puts);
        let Some(left) = self.room.checked_sub(message.len()) else {
            return Err(Fault::Stops(Stop::FullSink));
        };
        self.messages.push(message)?;
        self.room = left;
        Ok(())
    }
}
