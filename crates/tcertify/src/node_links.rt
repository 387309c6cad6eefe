//! Messages on the links of a node.

ghost use Rattle.std.specs.Prelude.{◌≡◌, ◌<◌, ◌+◌, true, length};
ghost use Rattle.tplan.specs.Wires.{end_at};
ghost use Rattle.tproc.specs.declared.channels.Side.TheVariants.{Input};
ghost use Rattle.tproc.specs.LinkChannels as links;
ghost use Rattle.tprocesses.specs.Choosing as choosing;
ghost use Rattle.tprocesses.specs.LinkMessages as spec;
ghost use Rattle.tcertify.specs.Contexts.{context_of};
ghost use Rattle.tcertify.specs.declared.node.Node as node;
ghost use Rattle.tcertify.specs.Messages.{lays_down, offers};
ghost use Rattle.tcertify.specs.Nodes.{Does, RunsAt, name_at, node_site, nothing};
ghost use Rattle.tcertify.specs.Sides.{side_of};
ghost use Rattle.tcertify.specs.Spans.{HasWords};
ghost use Rattle.tcertify.specs.Words.{told};

use crate::channel::{LinkHalf, Request};
use crate::context::{Context, Lent};
use crate::fault::Fault;
use crate::node::Node;
use crate::node_scheduling::is_aligned;
use crate::side::Side;
use crate::spans::{word_count, word_number};
use crate::standing::Stand;
use crate::stop::Stop;
use crate::word_use::WordUse;
use std::alloc::Global;
use tword::limits::MOST_NEG;
use tword::{Break, Span, Word};

/// The number of a link channel among the eight.
#[inline(always)]
fn link_index(channel: Word) -> u32
    ensures { result ≡ links.link_index channel }
{
    channel.get().saturating_sub(MOST_NEG) / 4
}

/// Whether an output is on an output word, or an input on an input word.
#[inline(always)]
fn is_right_end(side: Side, channel: Word) -> bool
    ensures { result ≡ links.is_right_end (side_of side) channel }
{
    match side {
        Side::Output => link_index(channel) < 4,
        Side::Input => 4 <= link_index(channel),
    }
}

/// The link that an output or an input channel names.
#[inline(always)]
fn link_of(side: Side, channel: Word) -> u32
    requires link { links.is_link channel ≡ true }
    requires right { links.is_right_end (side_of side) channel ≡ true }
    ensures link { result ≡ links.link_of (side_of side) channel }
    ensures among { result < 4 }
{
    match side {
        Side::Output => link_index(channel),
        Side::Input => link_index(channel) - 4,
    }
}

/// The link whose input a link channel names.
#[inline(always)]
pub(crate) fn input_link(channel: Word) -> u32
    requires { links.is_link channel ≡ true }
    ensures link { result ≡ links.link_of Input channel }
    ensures among { result < 4 }
{
    link_index(channel).saturating_sub(4)
}

/// Whether a link channel names an input.
///
/// # Errors
/// `Unaligned`, `WrongEnd`.
pub(crate) fn is_input(channel: Word) -> Result<(), Stop>
    ensures { (a : node.Node) → RunsAt (choosing.is_input channel) a (told nothing result) a }
{
    if !is_aligned(channel) {
        return Err(Stop::Breaks(Break::Unaligned));
    }
    if !is_right_end(Side::Input, channel) {
        return Err(Stop::Breaks(Break::WrongEnd));
    }
    Ok(())
}

impl Node {
    /// A process offers a message on a link, or asks for one, and waits.
    ///
    /// # Errors
    /// `Unaligned`, `WrongEnd`, `ZeroLength`, `LinkBusy` where one pends or is unfinished, those of the saved words and
    /// of the buffer; `OutOfMemory`.
    pub fn takes_link(
        &mut self,
        process: u32,
        context: &Context,
        side: Side,
        channel: Word,
        buffer: Span,
    ) -> Result<(), Fault>
        requires there { process < length self.old.processes.items.items }
        requires link { links.is_link channel ≡ true }
        ensures { Does (spec.takes_link (node_site self.old) (name_at self.old process) (context_of context.now)
            (side_of side) channel buffer) nothing self.old result self.new }
    {
        if !is_aligned(channel) {
            return Err(Fault::Stops(Stop::Breaks(Break::Unaligned)));
        }
        if !is_right_end(side, channel) {
            return Err(Fault::Stops(Stop::Breaks(Break::WrongEnd)));
        }
        if buffer.size == 0 {
            return Err(Fault::Stops(Stop::Breaks(Break::ZeroLength)));
        }
        let link = link_of(side, channel);
        let LinkHalf::Empty = self.link_half(link, side) else {
            return Err(Fault::Stops(Stop::Breaks(Break::LinkBusy)));
        };
        self.finished(side, link)?;
        self.set_link_half(link, side, LinkHalf::Offered(Request { process, buffer }));
        self.offers(process, context, side, &buffer)
    }

    /// A process whose message pends waits.
    ///
    /// # Errors
    /// Those of the saved words and of the buffer; `OutOfMemory`.
    fn offers(
        &mut self,
        process: u32,
        context: &Context,
        side: Side,
        buffer: &Span,
    ) -> Result<(), Fault>
        requires { process < length self.old.processes.items.items }
        ensures { Does (offers (node_site self.old) (name_at self.old process) (context_of context.now) (side_of side)
            buffer.now) nothing self.old result self.new }
    {
        self.save(context.wptr, true)?;
        self.lends(side, buffer)?;
        self.stands(process, Stand::Waits(context.forget()));
        Ok(())
    }

    /// The buffer of a message on a link is lent: that of an output may be read, that of an input not be used.
    ///
    /// # Errors
    /// Those of `see_span` of an output, those of `take_span` of an input; `OutOfMemory`.
    fn lends(&mut self, side: Side, buffer: &Span) -> Result<(), Fault>
        ensures { Does (spec.lends (side_of side) (node_site self.old) buffer.now) nothing self.old result self.new }
    {
        match side {
            Side::Output => {
                self.see_span(buffer)?;
                self.lend_span(buffer)
            }
            Side::Input => {
                self.take_span(buffer)?;
                self.forget_span(buffer, WordUse::Receiving);
                Ok(())
            }
        }
    }

    /// Sends the message that is offered on a link: its bytes, of which some may not be known.
    ///
    /// # Errors
    /// `HasNoStep` where none is offered, those of the buffer; `OutOfMemory`.
    pub fn sends(&mut self, alloc: Global, link: u32) -> Result<Vec<Option<u8>>, Fault>
        requires { link < 4 }
        ensures { Does (spec.node_sends (end_at self.old.words.number link) (node_site self.old)) (λ m. m.items)
            self.old result self.new }
    {
        let LinkHalf::Offered(output) = self.link_half(link, Side::Output) else {
            return Err(Fault::Stops(Stop::HasNoStep));
        };
        self.see_span(&output.buffer)?;
        let message = self.words.bytes_of(alloc, &output.buffer)?;
        self.set_link_half(link, Side::Output, LinkHalf::Empty);
        self.set_unfinished(link, true);
        let buffer = output.buffer;
        self.wakes(
            output.process,
            Some(Lent {
                link: link as u8,
                buffer,
            }),
        )?;
        Ok(message)
    }

    /// Receives a message on a link.
    ///
    /// # Errors
    /// `HasNoStep` where none is asked for, `LengthMismatch`, those of `lays_down`; `OutOfMemory` where the memory does
    /// not have the buffer, which it has where a message is asked for.
    pub fn receives(&mut self, link: u32, message: &[Option<u8>]) -> Result<(), Fault>
        requires { link < 4 }
        ensures { Does (spec.node_receives message.now (end_at self.old.words.number link) (node_site self.old)) nothing
            self.old result self.new }
    {
        let LinkHalf::Offered(input) = self.link_half(link, Side::Input) else {
            return Err(Fault::Stops(Stop::HasNoStep));
        };
        if input.buffer.size as usize != message.len() {
            return Err(Fault::Stops(Stop::Breaks(Break::LengthMismatch)));
        }
        if !self.has_span(&input.buffer) {
            return Err(Fault::OutOfMemory);
        }
        self.lays_down(link, &input, message)?;
        Ok(())
    }

    /// A message is put into the buffer of an input, whose process is ready.
    ///
    /// # Errors
    /// `WordInUse` where a word of the buffer has another use by now, `HasNoStep` where the process does not wait.
    fn lays_down(&mut self, link: u32, input: &Request, message: &[Option<u8>]) -> Result<(), Stop>
        requires link { link < 4 }
        requires there { input.now.process < length self.old.processes.items.items }
        requires words { HasWords (length self.old.words.items.items) input.now.buffer }
        requires sized { length message.now ≡ input.now.buffer.size }
        ensures { RunsAt (lays_down (node_site self.old) (end_at self.old.words.number link) message.now
            (record { process = name_at self.old input.now.process; buffer = input.now.buffer })) self.old
            (told nothing result) self.new }
    {
        self.expect_span(&input.buffer, WordUse::Receiving)?;
        self.set_span(&input.buffer, WordUse::Free, message);
        self.set_link_half(link, Side::Input, LinkHalf::Empty);
        self.wakes(input.process, None)
    }

    /// Whether the memory has each word of a span.
    #[inline(always)]
    fn has_span(&self, span: &Span) -> bool
        ensures { result ≡ true → HasWords (length self.now.words.items.items) span.now }
    {
        word_count(span)
            <= self
                .words
                .items
                .len()
                .saturating_sub(word_number(span.start))
    }
}
