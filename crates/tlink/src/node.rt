//! A node, whose parts fit one another at all times.

ghost use Rattle.std.specs.Prelude.{◌≡◌, ◌≤◌, false, All, IfErr, IfOk, OnOk, option_copied};
ghost use Rattle.tword.specs.Stores.{as_cells};
ghost use Rattle.tword.specs.Limits.{is_bad_message, largest_capacity};
ghost use Rattle.tlink.specs.Node.{counts_at, due_at, fresh_node, fresh_source, fresh_sink};
ghost use Rattle.tlink.specs.Events.{happens, node_answered, node_left_by, is_node_enabled};
ghost use Rattle.tlink.specs.Runs.{runs};
ghost use Rattle.tlink.specs.Scripts.{processor_of, source_of, sink_of, AreBytes};
ghost use Rattle.tlink.specs.Whole.{HasNoticedNothing};

use crate::counts::Counts;
use crate::event::{Emitted, NodeEvent, Runs, StepFault};
use crate::links::{Links, not_enabled};
use crate::role::Role;
use crate::sink::Sink;
use crate::source::Source;
use std::alloc::{AllocError, Global};
use std::marker::Model;
use tproc::{Offer, Processor};
use tword::{Break, Items, MemoryFault};

/// What stands behind the links of a node: a processor, or a script at link 0.
#[derive(Drop)]
enum Body {
    Processor(Links),
    Source(Source),
    Sink(Sink),
}

/// A node: a processor with its links, or a script at link 0. What is claimed, what was counted and what is pending fit
/// one another at all times.
#[derive(Drop)]
pub struct Node {
    body: Body,
}

impl Model for Node {
    ghost use Rattle.tlink.specs.Node.{NodeState};
    ghost use Rattle.tlink.specs.Whole.{IsWhole};
    ghost use Rattle.tlink.specs.Bodies.{body_state};

    ghost Value = { NodeState };

    ghost view = { λ n. body_state n.body };

    ghost invariant = { λ n. IsWhole (body_state n.body) };
}

impl Node {
    ghost use Rattle.tlink.specs.Bodies.{IsRoleOf};

    /// A processor before its first event, and which of its links have a wire. It may be at any point of its run, as
    /// long as no byte was noticed at its links.
    pub fn new(processor: Processor, wired: [bool; 4]) -> Self
        requires { HasNoticedNothing processor.control }
        ensures { result ≡ fresh_node processor wired }
    {
        processor.know_placed();
        Node {
            body: Body::Processor(Links::new(processor, wired)),
        }
    }

    /// A source of these messages before its first event: it offers them at link 0, one after another. It takes memory
    /// for a copy of them.
    ///
    /// # Errors
    /// Where the allocator refuses.
    pub fn new_source(alloc: Global, messages: &[Items<u8>]) -> Result<Node, AllocError>
        requires { All (λ m. is_bad_message m ≡ false) messages.now }
        ensures node { IfOk result (λ n. n ≡ fresh_source messages.now) }
        ensures bytes { OnOk result (All AreBytes messages.now) }
    {
        let source = Source::new(alloc, messages)?;
        Ok(Node {
            body: Body::Source(source),
        })
    }

    /// A sink for `capacity` bytes before its first event: it keeps the messages that come at link 0. It
    /// takes all memory that it needs here.
    ///
    /// # Errors
    /// Where the allocator refuses.
    pub fn new_sink(alloc: Global, capacity: u32) -> Result<Node, AllocError>
        requires { capacity ≤ largest_capacity }
        ensures { IfOk result (λ n. n ≡ fresh_sink capacity) }
    {
        let sink = Sink::new(alloc, capacity)?;
        Ok(Node {
            body: Body::Sink(sink),
        })
    }

    /// A node in the same state. It takes memory: that of a processor, or of what a script holds.
    ///
    /// # Errors
    /// `OutOfMemory` where the allocator refuses.
    pub fn try_copy(&self, alloc: Global) -> Result<Node, MemoryFault>
        ensures same { IfOk result (λ n. n ≡ self.now) }
        ensures fault { IfErr result (λ fault. fault ≡ MemoryFault.OutOfMemory) }
    {
        let body = match &self.body {
            Body::Processor(links) => Body::Processor(links.try_copy(alloc)?),
            Body::Source(source) => Body::Source(source.try_copy(alloc)?),
            Body::Sink(sink) => Body::Sink(sink.try_copy(alloc)?),
        };
        Ok(Node { body })
    }

    /// Does one event.
    ///
    /// # Errors
    /// `NotEnabled` where the machine does not enable the event: nothing has changed. `Frozen` where the event breaks a
    /// rule: the node is frozen with that break, and nothing else has changed.
    #[inline(always)]
    pub fn step(&mut self, event: NodeEvent) -> Result<Emitted, StepFault>
        ensures told { result ≡ node_answered (happens event self.old) }
        ensures left { self.new ≡ node_left_by self.old (happens event self.old) }
    {
        match &mut self.body {
            Body::Processor(links) => links.step(event),
            Body::Source(source) => source.step(event),
            Body::Sink(sink) => sink.step(event),
        }
    }

    /// Does at most `most` runs, one after another, until one tells something, is not enabled or freezes the node: how
    /// many were done before that one, and what it answered. A script does none.
    pub fn run_many(&mut self, most: u32) -> Runs
        ensures { (self.new, result) ≡ runs most self.old }
    {
        match &mut self.body {
            Body::Processor(links) => links.run_many(most),
            Body::Source(source) => {
                source.know_no_run();
                not_enabled(most)
            }
            Body::Sink(sink) => {
                sink.know_no_run();
                not_enabled(most)
            }
        }
    }

    /// Whether `step` would do the event, a freezing one too.
    #[inline(always)]
    pub fn enabled(&self, event: NodeEvent) -> bool
        ensures { result ≡ is_node_enabled event self.now }
    {
        match &self.body {
            Body::Processor(links) => links.enabled(event),
            Body::Source(source) => source.enabled(event),
            Body::Sink(sink) => sink.enabled(event),
        }
    }

    /// What stands behind the links.
    #[inline(always)]
    pub fn role(&self) -> Role<'_>
        ensures { IsRoleOf result self.now }
    {
        match &self.body {
            Body::Processor(links) => {
                links.know_role();
                Role::Processor(links.processor())
            }
            Body::Source(source) => {
                source.know_role();
                Role::Source(source)
            }
            Body::Sink(sink) => {
                sink.know_role();
                Role::Sink(sink)
            }
        }
    }

    /// The processor, where it is none of the scripts.
    pub fn processor(&self) -> Option<&Processor>
        ensures { option_copied result ≡ processor_of self.now.role self.now.machine }
    {
        match self.role() {
            Role::Processor(processor) => Some(processor),
            Role::Source(_) => None,
            Role::Sink(_) => None,
        }
    }

    /// The source, if the node is one.
    pub fn source(&self) -> Option<&Source>
        ensures { option_copied result ≡ source_of self.now self.now.role }
    {
        match self.role() {
            Role::Source(source) => Some(source),
            Role::Processor(_) => None,
            Role::Sink(_) => None,
        }
    }

    /// The sink, if the node is one.
    pub fn sink(&self) -> Option<&Sink>
        ensures { option_copied result ≡ sink_of self.now self.now.role }
    {
        match self.role() {
            Role::Sink(sink) => Some(sink),
            Role::Processor(_) => None,
            Role::Source(_) => None,
        }
    }

    /// The bytes of the memory, from the least address on.
    pub fn bytes(&self) -> &[u8]
        ensures { as_cells result.now ≡ self.now.machine.store }
    {
        match &self.body {
            Body::Processor(links) => links.bytes(),
            Body::Source(source) => source.bytes(),
            Body::Sink(sink) => sink.bytes(),
        }
    }

    /// The message that the next byte at a link completes, if it is the last one.
    #[inline(always)]
    pub fn due(&self, link: u8) -> Option<Offer>
        ensures { result ≡ due_at self.now link }
    {
        match &self.body {
            Body::Processor(links) => links.due(link),
            Body::Source(source) => source.due(link),
            Body::Sink(sink) => sink.due(link),
        }
    }

    /// What a link has counted; past the four links, nothing.
    pub fn counts(&self, link: u8) -> Counts
        ensures { result ≡ counts_at self.now link }
    {
        match &self.body {
            Body::Processor(links) => links.counts_at(link),
            Body::Source(source) => source.counts_at(link),
            Body::Sink(sink) => sink.counts_at(link),
        }
    }

    /// The break that froze the node, if one has. None freezes a script.
    pub fn broken(&self) -> Option<Break>
        ensures { result ≡ self.now.broken }
    {
        match &self.body {
            Body::Processor(links) => links.broken(),
            Body::Source(source) => {
                source.know_role();
                None
            }
            Body::Sink(sink) => {
                sink.know_role();
                None
            }
        }
    }
}
