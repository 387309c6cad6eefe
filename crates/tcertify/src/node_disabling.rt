//! Alternatives: how a process disables its guards, and goes on behind the one that is chosen.

ghost use Rattle.std.specs.Prelude.{◌≡◌, ◌<◌, List, Ok, length};
ghost use Rattle.tword.specs.Touches.{Writes};
ghost use Rattle.tprocesses.specs.Choosing as spec;
ghost use Rattle.tprocesses.specs.Places.{Name};
ghost use Rattle.tprocesses.specs.Touching.{touch_word_at, word_number};
ghost use Rattle.tcertify.specs.Cells.{cells_of};
ghost use Rattle.tcertify.specs.Channels.{IsKnownHolder, holder_of};
ghost use Rattle.tcertify.specs.Choosing.{gives_up, puts_state};
ghost use Rattle.tcertify.specs.Contexts.{choice_of as choice_in, context_of};
ghost use Rattle.tcertify.specs.Nodes.{Does, RunsAt, address_at, name_at, names, node_site, nothing};
ghost use Rattle.tcertify.specs.Words.{told, use_of};

use crate::cells::Cells;
use crate::channel::Holder;
use crate::choosing::{choice_of, is_clear, is_first, known, known_number, need_not_wait};
use crate::context::{Choice, Context};
use crate::fault::Fault;
use crate::node::Node;
use crate::node_scheduling::is_link;
use crate::notes::Mode;
use crate::side::Side;
use crate::spans::word_number;
use crate::stop::Stop;
use crate::word_use::WordUse;
use tword::limits::MOST_NEG;
use tword::{Break, Word};

/// Whether a process waits at a half of a channel for a message.
pub(crate) fn is_taken(holder: &Holder) -> bool
    ensures { (names : List Name) → result ≡ spec.is_taken (holder_of names holder.now) }
{
    matches!(holder, Holder::Taken(_))
}

impl Node {
    /// `diss`: a guard without a channel, which is ready where B is not 0.
    ///
    /// # Errors
    /// `WordInUse` where no alternative is under way, `SawTheScheduler` where B is not known, those of `selects`.
    #[cold]
    #[inline(never)]
    pub(crate) fn disables_skip(&mut self, process: u32, context: &Context) -> Result<(), Fault>
        requires { process < length self.old.processes.items.items }
        ensures { Does (spec.disables_skip (node_site self.old) (name_at self.old process) (context_of context.now))
            nothing self.old result self.new }
    {
        choice_of(context.choice)?;
        let guard = known(context.b)?;
        self.selects(process, context, !is_clear(guard))
    }

    /// `disc`: a guard with the channel at C, which is disabled where B is not 0.
    ///
    /// # Errors
    /// `WordInUse` where no alternative is under way, `SawTheScheduler` where B is not known, those of
    /// `disables_port` and of `selects`.
    #[cold]
    #[inline(never)]
    pub(crate) fn disables_channel(&mut self, process: u32, context: &Context) -> Result<(), Fault>
        requires { process < length self.old.processes.items.items }
        ensures { Does (spec.disables_channel (node_site self.old) (name_at self.old process) (context_of context.now))
            nothing self.old result self.new }
    {
        let choice = choice_of(context.choice)?;
        let guard = known(context.b)?;
        if is_clear(guard) {
            return self.selects(process, context, false);
        }
        self.disables_port(process, context, choice)
    }

    /// The channel at C is disabled, and its guard is chosen where it is the first that is ready. choice: the
    /// alternative that is under way.
    ///
    /// # Errors
    /// `WordInUse` where it would have to wait, `SawTheScheduler` where C is not known, those of `disables_link` of a
    /// link, else those of `disables_internal`.
    fn disables_port(
        &mut self,
        process: u32,
        context: &Context,
        choice: Choice,
    ) -> Result<(), Fault>
        requires { process < length self.old.processes.items.items }
        ensures { Does (spec.disables_port (node_site self.old) (name_at self.old process) (context_of context.now)
            (choice_in choice)) nothing self.old result self.new }
    {
        need_not_wait(choice)?;
        let channel = known(context.c)?;
        if is_link(channel) {
            return self.disables_link(process, context, channel);
        }
        self.disables_internal(process, context, channel)
    }

    /// An internal channel is disabled, and its guard is chosen where it is the first that is ready.
    ///
    /// # Errors
    /// Those of `disables` and of `selects`.
    fn disables_internal(
        &mut self,
        process: u32,
        context: &Context,
        channel: Word,
    ) -> Result<(), Fault>
        requires { process < length self.old.processes.items.items }
        ensures { Does (spec.disables_internal (node_site self.old) (name_at self.old process) (context_of context.now)
            channel) nothing self.old result self.new }
    {
        let ready = self.disables(process, channel)?;
        self.selects(process, context, ready)
    }

    /// A channel is disabled: whether it is ready.
    ///
    /// # Errors
    /// Those of the channel word, those of `readiness` and of `gives_up`; `OutOfMemory`.
    fn disables(&mut self, process: u32, channel: Word) -> Result<bool, Fault>
        requires { process < length self.old.processes.items.items }
        ensures { Does (spec.disables (node_site self.old) (name_at self.old process) channel) (λ b. b) self.old result
            self.new }
    {
        let word = self.word_at(channel)?;
        let number = self.channel_at(channel)?;
        let input = self.half(number, Side::Input);
        let output = self.half(number, Side::Output);
        let ready = self.readiness(process, is_taken(&output), input)?;
        Ok(self.gives_up(process, number, channel, word, ready)?)
    }

    /// Whether a channel is ready that its process disables. sent: whether a message is sent; input: who has the input.
    ///
    /// # Errors
    /// `ChannelMisuse` where the process has not enabled it; `SeveralReady` where the process has waited for it, and a
    /// message is sent.
    fn readiness(&self, process: u32, sent: bool, input: Holder) -> Result<bool, Stop>
        requires there { process < length self.now.processes.items.items }
        requires known { IsKnownHolder (length self.now.processes.items.items) input }
        ensures { RunsAt (spec.readiness (name_at self.now process) sent (holder_of (names self.now) input))
            self.now (told (λ b. b) result) self.now }
    {
        match input {
            Holder::Enabled(other) => {
                if other != process {
                    return Err(Stop::Breaks(Break::ChannelMisuse));
                }
                Ok(sent)
            }
            Holder::Awaited(other) => {
                if other != process {
                    return Err(Stop::Breaks(Break::ChannelMisuse));
                }
                if sent {
                    return Err(Stop::SeveralReady);
                }
                Ok(false)
            }
            Holder::Nobody | Holder::Taken(_) => Err(Stop::Breaks(Break::ChannelMisuse)),
        }
    }

    /// A process gives up the input of a channel, whose word is free where it is not ready. Answers whether it is.
    /// number: that of the channel; word: that of its word.
    ///
    /// # Errors
    /// `WordInUse` where the word is no channel any more, `InTransit` where a pending output has a byte of it.
    fn gives_up(
        &mut self,
        process: u32,
        number: u32,
        channel: Word,
        word: usize,
        ready: bool,
    ) -> Result<bool, Stop>
        requires there { process < length self.old.processes.items.items }
        requires channel { number < length self.old.channels.items.items }
        requires at { address_at self.old number ≡ channel }
        requires word { word ≡ word_number channel }
        requires inside { word < length self.old.words.items.items }
        ensures { RunsAt (gives_up (node_site self.old) (name_at self.old process) channel ready) self.old
            (told (λ b. b) result) self.new }
    {
        self.set_half(number, Side::Input, Holder::Nobody);
        self.expect_word(word, WordUse::Engaged)?;
        self.unsent(word, Mode::Claims)?;
        self.frees_word(channel, word, ready);
        self.drops_port(process, channel);
        Ok(ready)
    }

    /// A channel word names no process any more, unless a sender waits. word: the number of the word.
    fn frees_word(&mut self, channel: Word, word: usize, ready: bool)
        requires number { word ≡ word_number channel }
        requires inside { word < length self.old.words.items.items }
        ensures { RunsAt (spec.frees_word (node_site self.old) channel ready) self.old (Ok tt) self.new }
    {
        if !ready {
            self.put(word, Cells::known(Word::new(MOST_NEG)), WordUse::Free);
        }
    }

    /// A guard that is ready is chosen where none was before it.
    ///
    /// # Errors
    /// Those of a write of the word at the workspace, `SawTheScheduler` where that decides and is not known, or where A
    /// is not; `OutOfMemory` where the memory does not have the word, which it has once it may be written.
    pub(crate) fn selects(
        &mut self,
        process: u32,
        context: &Context,
        ready: bool,
    ) -> Result<(), Fault>
        requires { process < length self.old.processes.items.items }
        ensures { Does (spec.selects (node_site self.old) (name_at self.old process) (context_of context.now) ready)
            nothing self.old result self.new }
    {
        let cells = self.takes_word(context.wptr)?;
        let chosen = is_first(ready, &cells)?;
        self.sets_offset(context, chosen)?;
        self.goes_on(process, &context.answers(chosen));
        Ok(())
    }

    /// The bytes of the word at an address that a program writes.
    ///
    /// # Errors
    /// Those of `Words::take_word`.
    pub(crate) fn takes_word(&mut self, address: Word) -> Result<Cells, Stop>
        ensures { RunsAt (touch_word_at (node_site self.old) Writes address) self.old (told cells_of result) self.new }
    {
        self.words.take_word(address)
    }

    /// The offset of the guard that is chosen is kept at the workspace.
    ///
    /// # Errors
    /// `SawTheScheduler` where A is not known; `OutOfMemory` where the memory does not have the word.
    fn sets_offset(&mut self, context: &Context, chosen: bool) -> Result<(), Fault>
        ensures { Does (spec.sets_offset (node_site self.old) (context_of context.now) chosen) nothing self.old result
            self.new }
    {
        if !chosen {
            return Ok(());
        }
        let offset = known(context.a)?;
        let word = word_number(context.wptr);
        if self.words.items.len() <= word {
            return Err(Fault::OutOfMemory);
        }
        self.put(word, Cells::known(offset), WordUse::Free);
        Ok(())
    }

    /// `altend`: the alternative is over, and the process goes on at the offset of the guard that is chosen.
    ///
    /// # Errors
    /// Those of `under_way`, `WordInUse` where a channel is enabled still, those of a read of the offset,
    /// `SawTheScheduler` where that is not known; `OutOfMemory`.
    #[cold]
    #[inline(never)]
    pub(crate) fn ends_choice(&mut self, process: u32, context: &Context) -> Result<(), Fault>
        requires { process < length self.old.processes.items.items }
        ensures { Does (spec.ends_choice (node_site self.old) (name_at self.old process) (context_of context.now))
            nothing self.old result self.new }
    {
        self.under_way(context)?;
        self.sees_ports(process);
        self.has_no_port(process)?;
        let cells = self.read_word(context.wptr)?;
        let offset = known_number(&cells)?;
        self.puts_state(context.wptr.below(3), WordUse::Free)?;
        self.goes_on(process, &context.without_choice(offset));
        Ok(())
    }

    /// The word at an address, whose bytes are not known any more, gets this use.
    ///
    /// # Errors
    /// `OutOfMemory` where the memory does not have it.
    pub(crate) fn puts_state(&mut self, address: Word, used: WordUse) -> Result<(), Fault>
        ensures { Does (puts_state (node_site self.old) address (use_of used)) nothing self.old result self.new }
    {
        let word = word_number(address);
        if self.words.items.len() <= word {
            return Err(Fault::OutOfMemory);
        }
        self.put(word, Cells::unknown(), used);
        Ok(())
    }
}
