//! The processes that wait, and for what.

ghost use Rattle.tplan.specs.Wires.{far_ends};
ghost use Rattle.tfiles.specs.Outputs.{Tells};
ghost use Rattle.twhere.specs.Standing as spec;
ghost use Rattle.twhere.specs.Waits.{wait_at};

use crate::facts::{put_place, put_word};
use crate::net_node::ProcessorNode;
use crate::wait_text::put_wait;
use crate::waits::{Wait, Want, end_at};
use tfiles::CountedWrite;
use tfiles::writing::output::Output;
use tfiles::writing::text::put_decimal;
use tproc::{Offer, Reason, Waiter};
use tword::Word;

/// Writes the processes that wait, each on a line.
pub(crate) fn put_waiting<W: CountedWrite>(
    out: &mut Output<'_, W>,
    at: &ProcessorNode<'_>,
    waiting: &[Waiter],
)
    ensures { Tells W.contents W.failures out.old out.new
        (spec.waiting_facts at.now.net.now at.now.number at.now.node.now waiting.now) }
{
    for waiter in waiting {
        put_waiter(out, at, waiter);
    }
}

/// Writes a process that waits, on a line: its descriptor, its Iptr with the instruction there, and for what it waits.
fn put_waiter<W: CountedWrite>(out: &mut Output<'_, W>, at: &ProcessorNode<'_>, waiter: &Waiter)
    ensures { Tells W.contents W.failures out.old out.new
        (spec.waiter_fact at.now.net.now at.now.number at.now.node.now waiter.now) }
{
    out.put(b"  waits         ");
    put_place(out, at.processor, waiter.process);
    out.put(b", ");
    put_reason(out, at, waiter.reason);
    out.put(b"\n");
}

/// What a process waits for.
fn put_reason<W: CountedWrite>(out: &mut Output<'_, W>, at: &ProcessorNode<'_>, reason: Reason)
    ensures { Tells W.contents W.failures out.old out.new
        (spec.reason_text at.now.net.now at.now.number at.now.node.now reason) }
{
    match reason {
        Reason::Receives {
            channel,
            buffer,
            length,
        } => {
            out.put(b"input");
            put_channel(out, channel, buffer, length);
        }
        Reason::Sends {
            channel,
            buffer,
            length,
        } => {
            out.put(b"output");
            put_channel(out, channel, buffer, length);
        }
        Reason::LinkInput(link) => put_link_input(out, at, link),
        Reason::LinkOutput(link) => put_link_output(out, at, link),
        Reason::Chooses => out.put(b"alternative"),
    }
}

/// A message on an internal channel.
fn put_channel<W: CountedWrite>(out: &mut Output<'_, W>, channel: Word, buffer: Word, length: u32)
    ensures { Tells W.contents W.failures out.old out.new (spec.channel_text channel buffer length) }
{
    out.put(b" on channel ");
    put_word(out, channel);
    put_message(out, buffer, length);
}

/// A message.
fn put_message<W: CountedWrite>(out: &mut Output<'_, W>, buffer: Word, length: u32)
    ensures { Tells W.contents W.failures out.old out.new (spec.message_text buffer length) }
{
    out.put(b", buffer ");
    put_word(out, buffer);
    out.put(b" length ");
    put_decimal(out, u64::from(length));
}

/// The input of a link.
fn put_link_input<W: CountedWrite>(out: &mut Output<'_, W>, at: &ProcessorNode<'_>, link: u8)
    ensures { Tells W.contents W.failures out.old out.new
        (spec.link_input_text at.now.net.now at.now.number at.now.node.now link) }
{
    put_wait_at(out, at, Want::Input, link);
    put_offer(out, at.processor.pending_in(link), at.node.counts(link).got);
}

/// The output of a link.
fn put_link_output<W: CountedWrite>(out: &mut Output<'_, W>, at: &ProcessorNode<'_>, link: u8)
    ensures { Tells W.contents W.failures out.old out.new
        (spec.link_output_text at.now.net.now at.now.number at.now.node.now link) }
{
    put_wait_at(out, at, Want::Output, link);
    put_offer(
        out,
        at.processor.pending_out(link),
        at.node.counts(link).acked,
    );
}

/// A wait at a link, with the far end of its wire.
fn put_wait_at<W: CountedWrite>(
    out: &mut Output<'_, W>,
    at: &ProcessorNode<'_>,
    want: Want,
    link: u8,
)
    ensures { Tells W.contents W.failures out.old out.new
        (spec.wait_text (wait_at want link) (far_ends at.now.net.now.wires at.now.number link)) }
{
    let far = at.net.far_end(end_at(at.number, link));
    put_wait(out, Wait { want, link }, far);
}

/// A message on a link, and how many of its bytes went over.
fn put_offer<W: CountedWrite>(out: &mut Output<'_, W>, offer: Option<Offer>, over: u32)
    ensures { Tells W.contents W.failures out.old out.new (spec.offer_text offer over) }
{
    if let Some(offer) = offer {
        put_message(out, offer.buffer, offer.length);
        out.put(b" over ");
        put_decimal(out, u64::from(over));
    }
}
