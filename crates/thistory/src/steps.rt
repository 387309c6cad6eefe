//! The history of a node: a line for each of its events.

ghost use Rattle.std.specs.Prelude.{◌≡◌, ◌≤◌, ◌+◌, Some, if◌then◌else◌, option_copied};
ghost use Rattle.tfiles.specs.Outputs.{Tells};
ghost use Rattle.thistory.specs.Deeds.{net_behind};
ghost use Rattle.thistory.specs.Steps as spec;

use crate::deed::{Deed, Done, do_event, processor_in};
use crate::lines::{put_head, put_tail};
use tcpu::Registers;
use tfiles::CountedWrite;
use tfiles::writing::output::Output;
use tfiles::writing::text::put_byte;
use tlink::{Arrival, Emitted, Mark, Packet, StepFault};
use tnet::Net;
use tplan::Event;
use tproc::Processor;
use twhere::put_word;

/// Of which events the history tells.
#[derive(Clone, Copy, Debug, PartialEq, Eq)]
pub struct Asked {
    /// The number of the node whose events they are.
    pub node: u8,
    /// The number of the first event that is told; the first of all is 0.
    pub from: u64,
    /// How many of the last ones are told.
    pub last: u64,
}

/// Does events on a net, and writes a line for each that is asked for (own choice of format, `specs/Steps`). One that
/// is not enabled changes nothing, and is not told. It takes no memory.
pub fn put_steps<W: CountedWrite>(
    out: &mut Output<'_, W>,
    net: &mut Net,
    events: &[Event],
    asked: &Asked,
)
    ensures text { Tells W.contents W.failures out.old out.new (spec.steps_text asked.now events.now net.old) }
    ensures left { net.new ≡ spec.net_after events.now net.old }
{
    let mut behind = own_count(events, asked.node);
    for (number, event) in events.iter().enumerate() {
        behind = less_own(behind, event.node == asked.node);
        put_asked(out, net, number as u64, *event, behind, asked);
    }
}

/// How many of some events are a node's.
fn own_count(events: &[Event], node: u8) -> u64
    ensures { result ≡ spec.own_count node events.now }
{
    let mut count = 0;
    for event in events {
        if event.node == node {
            count += 1;
        }
    }
    count
}

/// A count without an event, if that is one of the node's.
fn less_own(count: u64, is_own: bool) -> u64
    requires { (if is_own then 1 else 0) ≤ count }
    ensures { result + (if is_own then 1 else 0) ≡ count }
{
    if is_own { count - 1 } else { count }
}

/// Whether an event of this number is asked for. `behind` events of the node come behind it.
fn is_asked(asked: &Asked, number: u64, event: Event, behind: u64) -> bool
    ensures { result ≡ spec.is_asked asked.now number event behind }
{
    event.node == asked.node && asked.from <= number && behind < asked.last
}

/// Does an event on a net, and writes its line, if it is asked for. `behind` events of the node come behind it.
fn put_asked<W: CountedWrite>(
    out: &mut Output<'_, W>,
    net: &mut Net,
    number: u64,
    event: Event,
    behind: u64,
    asked: &Asked,
)
    ensures text { Tells W.contents W.failures out.old out.new
        (spec.event_text asked.now number event behind net.old) }
    ensures left { net.new ≡ net_behind net.old event }
{
    let done = do_event(net, event);
    if is_asked(asked, number, event, behind) {
        put_step(out, net, number, &done);
    }
}

/// The line of an event that was done, by the net behind it.
fn put_step<W: CountedWrite>(out: &mut Output<'_, W>, net: &Net, number: u64, done: &Done)
    ensures { Tells W.contents W.failures out.old out.new (spec.step_text number done.now net.now) }
{
    if was_done(&done.answer) {
        put_head(out, number, net, done);
        put_left(out, done, processor_in(net, done.event.node));
        put_tail(out, net, done);
    }
}

/// Whether an event was done, by the answer of the net: one that froze its node was.
pub fn was_done(answer: &Result<Emitted, StepFault>) -> bool
    ensures { result ≡ spec.was_done answer.now }
{
    match answer {
        Ok(_) => true,
        Err(StepFault::NotEnabled) => false,
        Err(StepFault::Frozen(_)) => true,
    }
}

/// The registers that a deed left, or the byte of its packet.
fn put_left<W: CountedWrite>(out: &mut Output<'_, W>, done: &Done, processor: Option<&Processor>)
    ensures { Tells W.contents W.failures out.old out.new
        (spec.left_text done.now.deed done.now.answer (option_copied processor.entry)) }
{
    match done.deed {
        Deed::Instruction { .. } => put_registers(out, processor),
        Deed::Dispatch => put_registers(out, processor),
        Deed::Send(_) => put_seen(out, sent_byte(&done.answer)),
        Deed::Data(_, arrival) => put_seen(out, data_byte(arrival)),
        Deed::Take(_, arrival) => put_seen(out, taken_byte(&done.answer, arrival)),
        Deed::Ack(_) => {}
    }
}

/// The registers of a processor, if there is one.
fn put_registers<W: CountedWrite>(out: &mut Output<'_, W>, processor: Option<&Processor>)
    ensures { Tells W.contents W.failures out.old out.new (spec.registers_text (option_copied processor.entry)) }
{
    if let Some(processor) = processor {
        put_words(out, &processor.registers());
    }
}

/// Writes registers.
fn put_words<W: CountedWrite>(out: &mut Output<'_, W>, registers: &Registers)
    ensures { Tells W.contents W.failures out.old out.new (spec.words_text registers.now) }
{
    out.put(b" A ");
    put_word(out, registers.a);
    out.put(b" B ");
    put_word(out, registers.b);
    out.put(b" C ");
    put_word(out, registers.c);
    out.put(b" Wptr ");
    put_word(out, registers.wptr);
    out.put(b" Iptr ");
    put_word(out, registers.iptr);
}

/// A byte, if one is seen.
fn put_seen<W: CountedWrite>(out: &mut Output<'_, W>, byte: Option<u8>)
    ensures { Tells W.contents W.failures out.old out.new (spec.byte_text byte) }
{
    match byte {
        Some(byte) => put_told(out, byte),
        None => out.put(b" byte --"),
    }
}

/// Writes a byte that is seen.
fn put_told<W: CountedWrite>(out: &mut Output<'_, W>, byte: u8)
    ensures { Tells W.contents W.failures out.old out.new (spec.byte_text (Some byte)) }
{
    out.put(b" byte ");
    put_byte(out, byte);
}

/// The byte of a packet that was sent.
fn sent_byte(answer: &Result<Emitted, StepFault>) -> Option<u8>
    ensures { result ≡ spec.sent_byte answer.now }
{
    match answer {
        Ok(emitted) => packet_byte(emitted.packet),
        Err(_) => None,
    }
}

/// The byte of a packet.
fn packet_byte(packet: Option<(u8, Packet)>) -> Option<u8>
    ensures { result ≡ spec.packet_byte packet }
{
    match packet {
        Some((_, Packet::Data { byte, .. })) => Some(byte),
        Some((_, Packet::Ack)) => None,
        None => None,
    }
}

/// The byte that came in.
fn data_byte(arrival: Option<Arrival>) -> Option<u8>
    ensures { result ≡ spec.data_byte arrival }
{
    match arrival {
        Some(arrival) => Some(arrival.byte),
        None => None,
    }
}

/// The byte that was taken, where its message is complete with it.
fn taken_byte(answer: &Result<Emitted, StepFault>, arrival: Option<Arrival>) -> Option<u8>
    ensures { result ≡ spec.taken_byte answer.now arrival }
{
    match answer {
        Ok(emitted) => marked_byte(emitted.mark, arrival),
        Err(_) => None,
    }
}

/// The byte that was taken, by the mark of its event.
fn marked_byte(mark: Mark, arrival: Option<Arrival>) -> Option<u8>
    ensures { result ≡ spec.marked_byte mark arrival }
{
    match mark {
        Mark::Completed(_) => data_byte(arrival),
        _ => None,
    }
}
