//! The history of some bytes of a node: what stood there at the opening, and a line for each event that changed one.

ghost use Rattle.std.specs.Prelude.{◌≡◌, Some, length, option_copied, option_map};
ghost use Rattle.tword.specs.Claims.{is_input, overlaps_claim};
ghost use Rattle.tword.specs.Touches.{byte_span};
ghost use Rattle.tproc.specs.Machine.{buffer_of, claims_of};
ghost use Rattle.tfiles.specs.Outputs.{Tells};
ghost use Rattle.tfiles.specs.Texts.{cell_text};
ghost use Rattle.thistory.specs.Deeds.{net_behind};
ghost use Rattle.thistory.specs.Steps.{net_after};
ghost use Rattle.thistory.specs.Watch as spec;

use crate::deed::{Done, do_event, processor_in};
use crate::lines::{put_head, put_tail};
use tfiles::CountedWrite;
use tfiles::writing::output::Output;
use tfiles::writing::text::put_byte;
use tnet::Net;
use tplan::Event;
use tproc::{Offer, Processor};
use tword::{Span, Word};

/// Some bytes of a node.
#[derive(Clone, Copy, Debug, PartialEq, Eq)]
pub struct Place {
    /// The number of the node.
    pub node: u8,
    /// The address of the first byte.
    pub address: Word,
    /// How many bytes there are.
    pub length: u32,
}

/// Does events on a net, and writes what stood at a place before them, and a line for each event that changed one of
/// its bytes (own choice of format, `specs/Watch`). An event that is not enabled changes nothing. The room, as many
/// bytes as there are to watch, is written over. It takes no memory.
pub fn put_watch<W: CountedWrite>(
    out: &mut Output<'_, W>,
    net: &mut Net,
    events: &[Event],
    place: &Place,
    before: &mut [Option<u8>],
    after: &mut [Option<u8>],
)
    requires before { length before.old ≡ place.now.length }
    requires after { length after.old ≡ place.now.length }
    ensures text { Tells W.contents W.failures out.old out.new (spec.watch_text place.now events.now net.old) }
    ensures left { net.new ≡ net_after events.now net.old }
{
    look(net, place, before);
    put_opening(out, before);
    for (number, event) in events.iter().enumerate() {
        put_event(out, net, number as u64, *event, place, before, after);
    }
}

/// The line of what stood there at the opening.
fn put_opening<W: CountedWrite>(out: &mut Output<'_, W>, cells: &[Option<u8>])
    ensures { Tells W.contents W.failures out.old out.new (spec.opening_line cells.now) }
{
    out.put(b"   opening is");
    put_cells(out, cells);
    out.put(b"\n");
}

/// Does an event on a net, and writes a line, where it is one of the node and changed one of the bytes.
fn put_event<W: CountedWrite>(
    out: &mut Output<'_, W>,
    net: &mut Net,
    number: u64,
    event: Event,
    place: &Place,
    before: &mut [Option<u8>],
    after: &mut [Option<u8>],
)
    requires before { length before.old ≡ place.now.length }
    requires after { length after.old ≡ place.now.length }
    ensures text { Tells W.contents W.failures out.old out.new (spec.event_text place.now number event net.old) }
    ensures left { net.new ≡ net_behind net.old event }
    ensures before { length before.new ≡ place.now.length }
    ensures after { length after.new ≡ place.now.length }
{
    if event.node != place.node {
        let _ = do_event(net, event);
        return;
    }
    look(net, place, before);
    let done = do_event(net, event);
    look(net, place, after);
    put_change(out, net, number, &done, before, after);
}

/// The line of an event that was done, by the net behind it, where it changed one of the bytes.
fn put_change<W: CountedWrite>(
    out: &mut Output<'_, W>,
    net: &Net,
    number: u64,
    done: &Done,
    before: &[Option<u8>],
    after: &[Option<u8>],
)
    requires { length before.now ≡ length after.now }
    ensures { Tells W.contents W.failures out.old out.new
        (spec.changed_text number done.now net.now before.now after.now) }
{
    if has_changed(before, after) {
        put_head(out, number, net, done);
        out.put(b" was");
        put_cells(out, before);
        out.put(b" is");
        put_cells(out, after);
        put_tail(out, net, done);
    }
}

/// Whether one of some bytes has changed.
fn has_changed(before: &[Option<u8>], after: &[Option<u8>]) -> bool
    requires { length before.now ≡ length after.now }
    ensures { result ≡ spec.has_changed before.now after.now }
{
    for (index, cell) in before.iter().enumerate() {
        if is_changed(*cell, after[index]) {
            return true;
        }
    }
    false
}

/// Whether a byte has changed. One that is hidden has not yet.
fn is_changed(before: Option<u8>, after: Option<u8>) -> bool
    ensures { result ≡ spec.is_changed before after }
{
    match (before, after) {
        (_, None) => false,
        (None, Some(_)) => true,
        (Some(before), Some(after)) => before != after,
    }
}

/// Bytes, each of them behind a blank.
fn put_cells<W: CountedWrite>(out: &mut Output<'_, W>, cells: &[Option<u8>])
    ensures { Tells W.contents W.failures out.old out.new (spec.cells_text cells.now) }
{
    for cell in cells {
        put_cell(out, *cell);
    }
}

/// A byte behind a blank, if it is seen.
fn put_cell<W: CountedWrite>(out: &mut Output<'_, W>, cell: Option<u8>)
    ensures { Tells W.contents W.failures out.old out.new (cell_text cell) }
{
    match cell {
        Some(byte) => put_shown(out, byte),
        None => out.put(b" --"),
    }
}

/// Writes a byte that is seen.
fn put_shown<W: CountedWrite>(out: &mut Output<'_, W>, byte: u8)
    ensures { Tells W.contents W.failures out.old out.new (cell_text (Some byte)) }
{
    out.put(b" ");
    put_byte(out, byte);
}

/// Looks at the bytes of a place.
fn look(net: &Net, place: &Place, cells: &mut [Option<u8>])
    requires { length cells.old ≡ place.now.length }
    ensures { cells.new ≡ spec.seen_bytes net.now place.now }
{
    net.know_sound();
    let processor = processor_in(net, place.node);
    for index in 0..cells.len() {
        cells[index] = seen_byte(processor, place.address.plus(Word::new(index as u32)));
    }
}

/// A byte of a processor, if it is there and no pending input hides it.
fn seen_byte(processor: Option<&Processor>, address: Word) -> Option<u8>
    ensures { result ≡ spec.seen_byte (option_copied processor.entry) address }
{
    match processor {
        Some(processor) => byte_of(processor, address),
        None => None,
    }
}

/// A byte of a processor, if it is there and no pending input hides it.
fn byte_of(processor: &Processor, address: Word) -> Option<u8>
    ensures { result ≡ spec.seen_byte (Some processor.now) address }
{
    if is_hidden(processor, address) {
        None
    } else {
        processor.byte_at(address)
    }
}

/// Whether a pending input hides a byte.
fn is_hidden(processor: &Processor, address: Word) -> bool
    ensures { result ≡ is_input (claims_of processor.now.control) (byte_span address) }
{
    processor.know_placed();
    has_byte(processor.pending_in(0), address)
        || has_byte(processor.pending_in(1), address)
        || has_byte(processor.pending_in(2), address)
        || has_byte(processor.pending_in(3), address)
}

/// Whether a message has a byte of the memory.
fn has_byte(offer: Option<Offer>, address: Word) -> bool
    ensures { result ≡ overlaps_claim (byte_span address) (option_map buffer_of offer) }
{
    match offer {
        Some(offer) => Span {
            start: address,
            size: 1,
        }
        .overlaps(&Span {
            start: offer.buffer,
            size: offer.length,
        }),
        None => false,
    }
}
