//! A sink: a script that keeps the messages that come at link 0.

ghost use Rattle.std.specs.Prelude.{◌≡◌, ◌≤◌, IfOk, None, Some, Ok, Err, if◌then◌else◌, length, option_map, take};
ghost use Rattle.std.specs.Option.{ok_or};
ghost use Rattle.tlink.specs.Roles as spec;
ghost use Rattle.tword.specs.Limits.{largest_capacity};
ghost use Rattle.tword.specs.Stores.{as_cells};
ghost use Rattle.tlink.specs.Node.{counts_at, due_at, fresh_sink};
ghost use Rattle.tlink.specs.Scripts.{kept_lengths, kept_messages, kept_part, sink_state, IsSinkWithin};
ghost use Rattle.tlink.specs.Events.{happens, is_node_enabled};
ghost use Rattle.tlink.specs.Answers.{DoesNode};
ghost use Rattle.tlink.specs.Whole.{IsCounted};
ghost use Rattle.tlink.specs.declared.event.NodeEvent.TheVariants.{Run, Data, Take};
ghost use Rattle.tlink.specs.declared.event.Packet.TheVariants.{Ack};
ghost use Rattle.tlink.specs.declared.event.Mark.TheVariants.{Nothing};
ghost use Rattle.tlink.specs.declared.event.StepFault.TheVariants.{NotEnabled};

use crate::counts::{Arrival, Counts};
use crate::event::{Emitted, Mark, NodeEvent, Packet, StepFault};
use crate::links::{NO_COUNTS, heard};
use crate::messages::Messages;
use std::alloc::{AllocError, Global};
use std::marker::Model;
use tproc::Offer;
use tword::Word;
use tword::limits::MOST_NEG;

/// A sink: it keeps the messages that come at link 0, as far as it has room, and does nothing else.
#[derive(Drop)]
pub struct Sink {
    /// Room for what comes: the messages that were kept, one behind another, and behind them the part of the next one.
    bytes: Vec<u8>,
    /// Room for the lengths of as many messages as there can be: those of the messages that were kept come first.
    lengths: Vec<u32>,
    /// How many messages were kept.
    messages: usize,
    /// The number of bytes of the messages that were kept.
    kept: usize,
    /// What link 0 has counted.
    counts: Counts,
}

/// What a sink holds.
#[derive(Drop)]
pub struct SinkParts {
    /// Room for what comes: the messages that were kept, one behind another, and behind them the part of the next one.
    pub bytes: Vec<u8>,
    /// Room for the lengths of as many messages as there can be: those of the messages that were kept come first.
    pub lengths: Vec<u32>,
    /// How many messages were kept.
    pub messages: usize,
    /// The number of bytes of the messages that were kept.
    pub kept: usize,
}

impl Model for Sink {
    ghost use Rattle.std.specs.Prelude.{take};
    ghost use Rattle.tlink.specs.Node.{NodeState};
    ghost use Rattle.tlink.specs.Scripts.{sink_state, IsSinkWithin};

    ghost Value = { NodeState };

    ghost view = { λ s. sink_state s.bytes.items (take s.messages s.lengths.items) s.kept s.counts };

    ghost invariant = { λ s. IsSinkWithin s.bytes.items s.lengths.items s.messages s.kept };
}

/// The answer of a sink that was to take a byte.
#[inline(always)]
fn taken(mark: Option<Mark>) -> Result<Emitted, StepFault>
    ensures { result ≡ ok_or (option_map (λ m. record { packet = Some (0, Ack); mark = m }) mark) NotEnabled }
{
    match mark {
        Some(mark) => Ok(Emitted {
            packet: Some((0, Packet::Ack)),
            mark,
        }),
        None => Err(StepFault::NotEnabled),
    }
}

impl Sink {
    /// A sink for `capacity` bytes, which has kept nothing.
    ///
    /// # Errors
    /// Where the allocator refuses.
    pub(crate) fn new(alloc: Global, capacity: u32) -> Result<Sink, AllocError>
        requires { capacity ≤ largest_capacity }
        ensures { IfOk result (λ s. s ≡ fresh_sink capacity) }
    {
        Ok(Sink {
            bytes: vec![in alloc; 0; capacity as usize]?,
            lengths: vec![in alloc; 0; capacity as usize]?,
            messages: 0,
            kept: 0,
            counts: NO_COUNTS,
        })
    }

    /// A sink in the same state.
    ///
    /// # Errors
    /// Where the allocator refuses.
    pub(crate) fn try_copy(&self, alloc: Global) -> Result<Sink, AllocError>
        ensures { IfOk result (λ s. s ≡ self.now) }
    {
        let bytes = Vec::from_slice(alloc, self.bytes.as_slice())?;
        let lengths = Vec::from_slice(alloc, self.lengths.as_slice())?;
        Ok(Sink {
            bytes,
            lengths,
            messages: self.messages,
            kept: self.kept,
            counts: self.counts,
        })
    }

    /// A copy of what the sink holds.
    ///
    /// # Errors
    /// Where the allocator refuses.
    pub fn parts(&self, alloc: Global) -> Result<SinkParts, AllocError>
        ensures is { IfOk result (λ p.
            self.now ≡ sink_state p.bytes.items (take p.messages p.lengths.items) p.kept (counts_at self.now 0)) }
        ensures within { IfOk result (λ p. IsSinkWithin p.bytes.items p.lengths.items p.messages p.kept) }
    {
        let bytes = Vec::from_slice(alloc, self.bytes.as_slice())?;
        let lengths = Vec::from_slice(alloc, self.lengths.as_slice())?;
        let (messages, kept) = (self.messages, self.kept);
        Ok(SinkParts {
            bytes,
            lengths,
            messages,
            kept,
        })
    }

    /// For how many bytes the sink has room, those that it has kept included.
    pub fn capacity(&self) -> u32
        ensures { result ≡ length self.now.machine.store }
    {
        self.bytes.len() as u32
    }

    /// The messages that the sink has kept, in order.
    pub fn kept(&self) -> Messages<'_>
        ensures { result ≡ kept_messages self.now }
    {
        Messages::new(&self.lengths[..self.messages], &self.bytes)
    }

    /// The bytes of the message that is not complete.
    pub fn part(&self) -> &[u8]
        ensures { result.now ≡ kept_part self.now }
    {
        let bytes = &self.bytes[self.kept..];
        let got = self.counts.got as usize;
        if got < bytes.len() {
            &bytes[..got]
        } else {
            bytes
        }
    }

    /// All bytes of the sink's memory.
    pub(crate) fn bytes(&self) -> &[u8]
        ensures { as_cells result.now ≡ self.now.machine.store }
    {
        self.bytes.as_slice()
    }

    /// The message that the next byte at a link completes, if it is the last one: what it has got with that byte.
    pub(crate) fn due(&self, link: u8) -> Option<Offer>
        requires { IsCounted self.now }
        ensures { result ≡ due_at self.now link }
    {
        if link == 0 {
            Some(Offer {
                wdesc: Word::new(0),
                buffer: Word::new(MOST_NEG + self.kept as u32),
                length: self.counts.got + 1,
            })
        } else {
            None
        }
    }

    /// What a link has counted.
    pub(crate) fn counts_at(&self, link: u8) -> Counts
        ensures { result ≡ counts_at self.now link }
    {
        if link == 0 { self.counts } else { NO_COUNTS }
    }

    /// A sink's role is that of a sink, and no break has frozen it.
    pub(crate) fn know_role(&self)
        ensures role { self.now.role ≡ spec.Sink (kept_lengths self.now.role) }
        ensures whole { self.now.broken ≡ None }
    {
        let _counts = &self.counts;
    }

    /// A sink does no run.
    pub(crate) fn know_no_run(&self)
        ensures { happens Run self.now ≡ Err NotEnabled }
    {
        let _counts = &self.counts;
    }

    /// Does one event: a sink receives bytes, keeps them and acknowledges them, and does nothing else. What it does
    /// stands out of line, with small answers, as that of a source.
    #[inline(always)]
    pub(crate) fn step(&mut self, event: NodeEvent) -> Result<Emitted, StepFault>
        ensures { DoesNode (happens event self.old) self.old result self.new }
    {
        let _counts = &self.counts;
        match event {
            NodeEvent::Data(link, byte, last) => {
                if link == 0 {
                    heard(self.data(byte, last))
                } else {
                    Err(StepFault::NotEnabled)
                }
            }
            NodeEvent::Take(link) => {
                if link == 0 {
                    taken(self.take())
                } else {
                    Err(StepFault::NotEnabled)
                }
            }
            _ => Err(StepFault::NotEnabled),
        }
    }

    /// Whether an event would be done.
    #[inline(always)]
    pub(crate) fn enabled(&self, event: NodeEvent) -> bool
        ensures { result ≡ is_node_enabled event self.now }
    {
        let Counts { got, arrived, .. } = self.counts;
        match event {
            NodeEvent::Data(link, ..) => { if link == 0 { arrived.is_none() } else { false } }
            NodeEvent::Take(link) => {
                if link == 0 {
                    if arrived.is_none() {
                        return false;
                    }
                    self.kept + (got as usize) < self.bytes.len()
                } else {
                    false
                }
            }
            _ => false,
        }
    }

    /// A byte comes: whether there was room for it.
    #[inline(never)]
    fn data(&mut self, byte: u8, last: bool) -> bool
        ensures { DoesNode (happens (Data 0 byte last) self.old) self.old
            (if result then Ok (record { packet = None; mark = Nothing }) else Err NotEnabled) self.new }
    {
        let is_full = self.counts.arrived.is_some();
        if is_full {
            return false;
        }
        self.counts.arrived = Some(Arrival { byte, last });
        true
    }

    /// The byte that waits is kept, where there is room for it; the last one completes its message. The
    /// mark of its acknowledge.
    #[inline(never)]
    fn take(&mut self) -> Option<Mark>
        ensures { DoesNode (happens (Take 0) self.old) self.old
            (ok_or (option_map (λ m. record { packet = Some (0, Ack); mark = m }) result) NotEnabled) self.new }
    {
        let Some(arrival) = self.counts.arrived else {
            return None;
        };
        let got = self.counts.got;
        let place = self.kept + got as usize;
        if place >= self.bytes.len() {
            return None;
        }
        self.bytes[place] = arrival.byte;
        let length = got + 1;
        self.counts.arrived = None;
        if !arrival.last {
            self.counts.got = length;
            return Some(Mark::Nothing);
        }
        self.lengths[self.messages] = length;
        self.messages += 1;
        self.kept = place + 1;
        self.counts.got = 0;
        Some(Mark::Completed(0))
    }
}
