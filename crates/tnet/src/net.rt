//! A net of nodes and wires, with the packets that lie at the ends of its wires.

ghost use Rattle.std.specs.Prelude.{◌≡◌, ◌≢◌, ◌≤◌, Some, length, IsTrue, IfErr, IfOk, ◌↔◌};
ghost use Rattle.tword.specs.Limits.{most_nodes};
ghost use Rattle.tnet.specs.Net.{NetState, inbox_at, sources_in, sinks_in};
ghost use Rattle.tnet.specs.Packets.{net_happens, answered, net_left_by, after_event, after_events, applied};
ghost use Rattle.tnet.specs.Packets.{is_enabled, IsQuiet};
ghost use Rattle.tnet.specs.Sound.{IsSound};
ghost use Rattle.tnet.specs.Answers.{Did};
ghost use Rattle.tnet.specs.View.{view};
ghost use Rattle.tplan.specs.declared.plan.BuildFault.TheVariants.{OutOfMemory};
ghost use Rattle.tnet.specs.Building.{built, opening_configuration, IsWellFormed};
ghost use Rattle.tplan.specs.Wires.{far_end};
ghost use Rattle.tnet.specs.FarEnds.{IsRow};
ghost use Rattle.tnet.specs.NetParts.{net_of_parts};
ghost use Rattle.tnet.specs.Runs.{IsSeenRun, done, done_one};
ghost use Rattle.tnet.specs.WireLaw.{WiresCarryInOrder};

use crate::faults::first_fault;
use crate::inbox::Inbox;
use crate::opening::open;
use crate::parts::NetParts;
use crate::scripts::{Sinks, Sources};
use crate::wires::Row;
use std::alloc::Global;
use std::marker::Model;
use tlink::{Emitted, Node, StepFault};
use tplan::{BuildFault, End, Event, Plan};
use tword::MemoryFault;

/// A net of nodes and wires, with the packets that lie at the ends of its wires.
///
/// What is counted, what waits and what lies there fit one another at all times (`IsSound`).
#[derive(Drop)]
pub struct Net {
    parts: NetParts,
}

impl Model for Net {
    ghost use Rattle.tnet.specs.Net.{NetState};
    ghost use Rattle.tnet.specs.NetParts.{net_of_parts};
    ghost use Rattle.tnet.specs.Sound.{IsSound};

    ghost Value = { NetState };

    ghost view = { λ n. net_of_parts n.parts };

    ghost invariant = { λ n. IsSound (net_of_parts n.parts) };
}

impl Net {
    /// The net of a plan: of each node the segments are loaded in their order, later over earlier, and then the
    /// processes are added in theirs; no packet and no byte is on its way.
    ///
    /// # Errors
    /// The lowest fault of the plan, with its first place; `OutOfMemory` where the allocator refused, but never for a
    /// plan whose fault shows before anything is built. The plan is dropped.
    pub fn build(alloc: Global, plan: Plan) -> Result<Self, BuildFault>
        ensures exact { result ≢ Err OutOfMemory → result ≡ built plan }
        ensures sound { IfOk result IsSound }

        // memory can be lacking only for a plan without the faults that show before anything is built
        ensures wanted { result ≡ Err OutOfMemory → IsWellFormed plan }

        // what is seen of the net is the rendezvous machine's opening of the same plan
        ensures alike { IfOk result (λ net. view net ≡ opening_configuration plan) }
    {
        match first_fault(&plan) {
            Some(fault) => Err(fault),
            None => Ok(Net {
                parts: open(alloc, plan)?,
            }),
        }
    }

    /// A net in the same state. It takes memory: as much as the net has.
    ///
    /// # Errors
    /// `OutOfMemory` where the allocator refuses.
    pub fn try_copy(&self, alloc: Global) -> Result<Net, MemoryFault>
        ensures same { IfOk result (λ net. net ≡ self.now) }
        ensures fault { IfErr result (λ fault. fault ≡ MemoryFault.OutOfMemory) }
    {
        Ok(Net {
            parts: self.parts.try_copy(alloc)?,
        })
    }

    /// Does one event. An event on a node, a link or a packet that is not there is not enabled.
    ///
    /// # Errors
    /// `NotEnabled` where the machine does not enable the event: nothing has changed. `Frozen` where the event breaks a
    /// rule: its node is frozen with that break, and nothing else has changed.
    #[inline(always)]
    pub fn step(&mut self, event: Event) -> Result<Emitted, StepFault>
        ensures told { result ≡ answered (net_happens event self.old) }
        ensures left { self.new ≡ net_left_by event self.old (net_happens event self.old) }

        // what the net shows of the event is no step, or one lawful step, of the rendezvous machine
        ensures run { IsSeenRun self.old (done_one event result) self.new }
    {
        self.parts.step(event)
    }

    /// Does events in their order, up to the first that is not enabled. An event that freezes its node is done.
    ///
    /// # Errors
    /// The place of the first event that is not enabled: those before it are done, it and the rest are not.
    pub fn apply(&mut self, events: &[Event]) -> Result<(), usize>
        ensures told { result ≡ applied events.now self.old }
        ensures left { after_events (done events.now result) self.old ≡ Some self.new }

        // the headline: whatever was done, what the net shows of it is one run of the rendezvous machine, in which each
        // message that is complete is one step that copies it whole
        ensures run { IsSeenRun self.old (done events.now result) self.new }

        // along every wire and in each direction the bytes are taken in the order in which they were sent, and at most
        // one is not acknowledged
        ensures wires { WiresCarryInOrder self.old (done events.now result) self.new }
    {
        self.know_sound();
        for (place, event) in events.iter().enumerate() {
            if !self.does(*event) {
                return Err(place);
            }
        }
        Ok(())
    }

    /// Whether `step` would do an event, a freezing one too.
    #[inline]
    pub fn enabled(&self, event: Event) -> bool
        ensures { result ≡ is_enabled self.now event }
    {
        self.parts.enabled(event)
    }

    /// Whether no event at all is enabled.
    pub fn is_quiet(&self) -> bool
        ensures { IsTrue result ↔ IsQuiet self.now }
    {
        self.parts.is_quiet()
    }

    /// The nodes, by their numbers.
    pub fn nodes(&self) -> &[Node]
        ensures held { result.now ≡ self.now.nodes }
        ensures sound { IsSound self.now }
    {
        self.parts.nodes.as_slice()
    }

    /// The sources, by their numbers, each with the end that it sends to. It takes no memory.
    pub fn sources(&self) -> Sources<'_>
        ensures { result ≡ sources_in self.now }
    {
        Sources::new(&self.parts)
    }

    /// The sinks, by their numbers, each with the end that it takes from. It takes no memory.
    pub fn sinks(&self) -> Sinks<'_>
        ensures { result ≡ sinks_in self.now }
    {
        Sinks::new(&self.parts)
    }

    /// What lies at an end; at one that is no link of a node, nothing.
    pub fn inbox(&self, end: End) -> Inbox
        ensures { result ≡ inbox_at self.now end }
    {
        self.parts.inbox(end)
    }

    /// The far end of an end, if it is a wired link.
    pub fn far_end(&self, end: End) -> Option<End>
        ensures { result ≡ far_end self.now.wires end }
    {
        self.parts.wires.far_end(end)
    }

    /// The far ends of a node's links.
    pub fn far_ends(&self, node: u8) -> Row<Option<End>>
        ensures { IsRow self.now.wires node result }
    {
        self.parts.wires.far_ends(node)
    }

    /// The nodes, the wires and the packets of the net. It takes no memory.
    pub fn into_parts(self) -> NetParts
        ensures same { net_of_parts result ≡ self }
        ensures sound { IsSound self }
        ensures few { length self.nodes ≤ most_nodes }
    {
        let Net { parts } = self;
        parts
    }

    /// The net of these parts. It takes no memory.
    pub fn from_parts(parts: NetParts) -> Net
        requires { IsSound (net_of_parts parts) }
        ensures { result ≡ net_of_parts parts }
    {
        Net { parts }
    }

    /// Does an event, if it is enabled.
    #[inline]
    #[tactic(auto, using(crate::proofs::Applying::event_did))]
    fn does(&mut self, event: Event) -> bool
        ensures { Did (after_event self.old event) self.old result self.new }
    {
        match self.step(event) {
            Err(StepFault::NotEnabled) => false,
            _ => true,
        }
    }

    /// A net is sound between events.
    pub fn know_sound(&self)
        ensures { IsSound self.now }
    {
        let _parts = &self.parts;
    }
}
