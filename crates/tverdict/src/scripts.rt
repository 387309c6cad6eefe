//! Sources and sinks, as the whole machine has them.

ghost use Rattle.std.specs.Prelude.{◌≡◌, IfOk};
ghost use Rattle.tword.specs.Stores.{as_cells};
ghost use Rattle.tprocesses.specs.LinkMessages as spec;
ghost use Rattle.tprocesses.specs.Machine.{Sink, Source, role_at};
ghost use Rattle.tcertify.specs.Nodes.{nothing};
ghost use Rattle.tverdict.specs.Passing.{DoesHalf};
ghost use Rattle.tverdict.specs.Stepping.{Fits};
ghost use Rattle.tverdict.specs.Wires.{messages_at};

use crate::machine::Machine;
use std::alloc::{AllocError, Global};
use tcertify::{Fault, Mode, Notes, Stop};
use tplan::{End, Plan};
use tword::Items;

/// The messages of the source of this number, if its end is at this link.
#[inline(always)]
pub(crate) fn messages_at(plan: &Plan, number: usize, link: u32) -> &[Items<u8>]
    ensures { result.now ≡ messages_at plan.now number link }
{
    match plan.sources.as_slice().get(number) {
        Some(source) if link == 0 => source.messages.as_slice(),
        _ => &[],
    }
}

/// The bytes of a message, all of them known.
fn known_bytes(alloc: Global, message: &[u8]) -> Result<Vec<Option<u8>>, AllocError>
    ensures { IfOk result (λ bytes. bytes.items ≡ as_cells message.now) }
{
    message.iter().map(|byte| Some(*byte)).collect(alloc)
}

impl Machine {
    /// A source sends its next message: its bytes.
    ///
    /// # Errors
    /// `HasNoStep` where none is left; `OutOfMemory` also where a number would not fit.
    pub(crate) fn source_sends(
        &mut self,
        alloc: Global,
        plan: &Plan,
        from: End,
        notes: &mut Notes,
    ) -> Result<Vec<Option<u8>>, Fault>
        requires fits { Fits plan.now self.old }
        requires role { role_at plan.now from.node ≡ Source }
        ensures { DoesHalf plan.now (spec.source_sends from) (λ m. m.items) from.node self.old notes.old result self.new
            notes.new }
    {
        let Some(place) = self.first_script.checked_add(from.node) else {
            return Err(Fault::OutOfMemory);
        };
        notes.add(place, Mode::Puts);
        let number = from.node as usize - plan.nodes.as_slice().len();
        let sent = self.sent[number];
        let Some(message) = messages_at(plan, number, from.link).get(sent as usize) else {
            return Err(Fault::Stops(Stop::HasNoStep));
        };
        let bytes = known_bytes(alloc, message.as_slice())?;
        let Some(more) = sent.checked_add(1) else {
            return Err(Fault::OutOfMemory);
        };
        self.sent[number] = more;
        Ok(bytes)
    }

    /// A sink receives a message, and keeps it behind the others.
    ///
    /// # Errors
    /// `FullSink` where there is no room for it; `OutOfMemory` also where the end has no sink, which no plan without a
    /// fault has.
    pub(crate) fn sink_receives(
        &mut self,
        plan: &Plan,
        end: End,
        message: Vec<Option<u8>>,
        notes: &mut Notes,
    ) -> Result<(), Fault>
        requires fits { Fits plan.now self.old }
        requires role { role_at plan.now end.node ≡ Sink }
        ensures { DoesHalf plan.now (spec.sink_receives message.items end) nothing end.node self.old notes.old result
            self.new notes.new }
    {
        if end.link != 0 {
            return Err(Fault::OutOfMemory);
        }
        let scripts = end.node as usize - plan.nodes.as_slice().len();
        let number = scripts - plan.sources.as_slice().len();
        self.sinks[number].receives(message, notes)
    }
}
