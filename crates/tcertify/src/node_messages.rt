//! Messages on the internal channels of a node.

ghost use Rattle.std.specs.Prelude.{◌≡◌, ◌<◌, length};
ghost use Rattle.tprocesses.specs.ChannelMessages as spec;
ghost use Rattle.tproc.specs.Channels.{mode_of};
ghost use Rattle.tprocesses.specs.Touching.{touch, word_number};
ghost use Rattle.tcertify.specs.Channels.{holder_of};
ghost use Rattle.tcertify.specs.declared.channel.Holder.TheVariants as holder;
ghost use Rattle.tcertify.specs.Contexts.{context_of};
ghost use Rattle.tcertify.specs.Messages.{awaits, leave, marks, passes};
ghost use Rattle.tcertify.specs.Nodes.{Does, RunsAt, address_at, name_at, names, node_site, nothing};
ghost use Rattle.tcertify.specs.Sides.{side_of};
ghost use Rattle.tcertify.specs.Spans.{span_cells};
ghost use Rattle.tcertify.specs.Words.{told};

use crate::cells::Cells;
use crate::channel::{Holder, Request};
use crate::context::Context;
use crate::fault::Fault;
use crate::node::Node;
use crate::notes::Mode;
use crate::side::Side;
use crate::spans::word_number;
use crate::standing::Stand;
use crate::stop::Stop;
use crate::word_use::WordUse;
use tword::limits::MOST_NEG;
use tword::{Break, Span, Word};

impl Node {
    /// A process takes its half of a channel, and waits.
    ///
    /// # Errors
    /// Those of the channel word, `ChannelMisuse` where somebody has the half, those of `marks_channel`; `OutOfMemory`.
    pub fn takes_half(
        &mut self,
        process: u32,
        context: &Context,
        side: Side,
        channel: Word,
        buffer: Span,
    ) -> Result<(), Fault>
        requires { process < length self.old.processes.items.items }
        ensures { Does (spec.takes_half (node_site self.old) (name_at self.old process) (context_of context.now)
            (side_of side) channel buffer) nothing self.old result self.new }
    {
        let word = match self.words.number_at(channel) {
            Ok(word) => word,
            Err(broken) => return Err(Fault::Stops(Stop::Breaks(broken))),
        };
        let number = self.channel_at(channel)?;
        let Holder::Nobody = self.half(number, side) else {
            return Err(Fault::Stops(Stop::Breaks(Break::ChannelMisuse)));
        };
        self.set_half(number, side, Holder::Taken(Request { process, buffer }));
        self.marks_channel(process, context, side, channel, word, &buffer)?;
        Ok(())
    }

    /// The channel word of this number is taken, and a process waits for the message.
    ///
    /// # Errors
    /// `InTransit` where a pending output has a byte of the channel word, those of the saved words and of the buffer.
    fn marks_channel(
        &mut self,
        process: u32,
        context: &Context,
        side: Side,
        channel: Word,
        word: usize,
        buffer: &Span,
    ) -> Result<(), Stop>
        requires there { process < length self.old.processes.items.items }
        requires number { word ≡ word_number channel }
        requires inside { word < length self.old.words.items.items }
        ensures { RunsAt (marks (node_site self.old) (name_at self.old process) (context_of context.now) (side_of side)
            channel buffer.now) self.old (told nothing result) self.new }
    {
        self.unsent(word, Mode::Engages)?;
        self.save(context.wptr, false)?;
        self.engage(channel);
        self.awaits_message(process, context, side, buffer)
    }

    /// A process waits for a message, with a buffer that may be written by an input, and read by an output.
    ///
    /// # Errors
    /// Those of `touches`.
    fn awaits_message(
        &mut self,
        process: u32,
        context: &Context,
        side: Side,
        buffer: &Span,
    ) -> Result<(), Stop>
        requires { process < length self.old.processes.items.items }
        ensures { RunsAt (awaits (node_site self.old) (name_at self.old process) (context_of context.now) (side_of side)
            buffer.now) self.old (told nothing result) self.new }
    {
        self.touches(side, buffer)?;
        self.stands(process, Stand::Waits(context.forget()));
        Ok(())
    }

    /// The buffer of a message is touched: that of an input as it will be written, that of an output as it will be
    /// read.
    ///
    /// # Errors
    /// Those of `take_span` of an input, those of `see_span` of an output.
    #[inline(always)]
    fn touches(&mut self, side: Side, buffer: &Span) -> Result<(), Stop>
        ensures { RunsAt (touch (node_site self.old) (mode_of (side_of side)) buffer.now) self.old
            (told (λ _. span_cells self.old.words buffer.now) result) self.new }
    {
        match side {
            Side::Input => self.take_span(buffer),
            Side::Output => self.see_span(buffer),
        }
    }

    /// A channel copies the message where both of its halves are taken, or makes the process go on that waits for it
    /// and for others.
    ///
    /// # Errors
    /// `HasNoStep` where no message is sent or awaited, else those of `meets` and of `lets_go_on`.
    pub fn channel_step(&mut self, channel: u32) -> Result<(), Fault>
        requires { channel < length self.old.channels.items.items }
        ensures { Does (spec.channel_step (address_at self.old channel) (node_site self.old)) nothing self.old
            result self.new }
    {
        let input = self.half(channel, Side::Input);
        let output = self.half(channel, Side::Output);
        let Holder::Taken(sender) = output else {
            return Err(Fault::Stops(Stop::HasNoStep));
        };
        match input {
            Holder::Taken(receiver) => self.meets(channel, &receiver, &sender),
            Holder::Awaited(process) => {
                let address = self.channels.items[channel as usize].address;
                self.lets_go_on(channel, address, process)
            }
            Holder::Nobody | Holder::Enabled(_) => Err(Fault::Stops(Stop::HasNoStep)),
        }
    }

    /// The two processes at a channel meet: the message is copied, and both are ready.
    ///
    /// # Errors
    /// `LengthMismatch`, `WordInUse` where the channel word is no channel any more, those of the two buffers;
    /// `OutOfMemory` where the memory does not have the channel word, which it has where a half was taken.
    fn meets(&mut self, channel: u32, input: &Request, output: &Request) -> Result<(), Fault>
        requires there { channel < length self.old.channels.items.items }
        requires input { input.now.process < length self.old.processes.items.items }
        requires output { output.now.process < length self.old.processes.items.items }
        ensures { Does (spec.meet_if (node_site self.old) (address_at self.old channel)
            (holder_of (names self.old) (holder.Taken input.now))
            (holder_of (names self.old) (holder.Taken output.now))) nothing
            self.old result self.new }
    {
        if input.buffer.size != output.buffer.size {
            return Err(Fault::Stops(Stop::Breaks(Break::LengthMismatch)));
        }
        let word = word_number(self.channels.items[channel as usize].address);
        if self.words.items.len() <= word {
            return Err(Fault::OutOfMemory);
        }
        self.expect_word(word, WordUse::Engaged)?;
        self.put(word, Cells::known(Word::new(MOST_NEG)), WordUse::Free);
        self.passes(channel, input, output)?;
        Ok(())
    }

    /// A message passes at a channel.
    ///
    /// # Errors
    /// Those of the two buffers; `HasNoStep` where one of the processes does not wait.
    fn passes(&mut self, channel: u32, input: &Request, output: &Request) -> Result<(), Stop>
        requires there { channel < length self.old.channels.items.items }
        requires input { input.now.process < length self.old.processes.items.items }
        requires output { output.now.process < length self.old.processes.items.items }
        requires sized { input.now.buffer.size ≡ output.now.buffer.size }
        ensures { RunsAt (passes (node_site self.old) (address_at self.old channel)
            (record { process = name_at self.old input.now.process; buffer = input.now.buffer })
            (record { process = name_at self.old output.now.process; buffer = output.now.buffer })) self.old
            (told nothing result) self.new }
    {
        self.copy_span(&output.buffer, &input.buffer)?;
        self.leave(channel, input.process, output.process)
    }

    /// Two processes at a channel are ready, and its halves are free.
    ///
    /// # Errors
    /// `HasNoStep` where one of them does not wait.
    fn leave(&mut self, channel: u32, input: u32, output: u32) -> Result<(), Stop>
        requires there { channel < length self.old.channels.items.items }
        requires input { input < length self.old.processes.items.items }
        requires output { output < length self.old.processes.items.items }
        ensures { RunsAt (leave (node_site self.old) (address_at self.old channel) (name_at self.old input)
            (name_at self.old output)) self.old (told nothing result) self.new }
    {
        self.wakes(input, None)?;
        self.wakes(output, None)?;
        self.set_half(channel, Side::Input, Holder::Nobody);
        self.set_half(channel, Side::Output, Holder::Nobody);
        Ok(())
    }
}
