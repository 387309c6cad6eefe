//! Alternatives: how a process begins one, enables channels and waits for them.

ghost use Rattle.std.specs.Prelude.{◌≡◌, ◌<◌, IfOk, length};
ghost use Rattle.tword.specs.Touches.{word_place_break};
ghost use Rattle.tprocesses.specs.Choosing as spec;
ghost use Rattle.tprocesses.specs.Parts.{unless};
ghost use Rattle.tprocesses.specs.Standing.{unsave_upper};
ghost use Rattle.tprocesses.specs.Touching.{save_upper, word_number};
ghost use Rattle.tprocesses.specs.Values.{Nobody};
ghost use Rattle.tcertify.specs.Channels.{IsKnownHolder, holder_of};
ghost use Rattle.tcertify.specs.Choosing.{awaits_port, enables_any};
ghost use Rattle.tcertify.specs.Contexts.{choice_of, context_of};
ghost use Rattle.tcertify.specs.Nodes.{Does, RunsAt, address_at, name_at, names, node_site, nothing, ports_at};
ghost use Rattle.tcertify.specs.Words.{told, use_of};

use crate::cells::Cells;
use crate::channel::Holder;
use crate::choosing::{NONE_SELECTED, choice_of, is_clear, known, skips_then};
use crate::context::{Choice, Context};
use crate::fault::Fault;
use crate::node::Node;
use crate::node_scheduling::is_link;
use crate::notes::Mode;
use crate::side::Side;
use crate::spans::word_number;
use crate::standing::Stand;
use crate::stop::Stop;
use crate::word_use::WordUse;
use tword::{Break, Word};

impl Node {
    /// `alt`: an alternative begins.
    ///
    /// # Errors
    /// Those of a write of the word that has its state; `OutOfMemory`.
    #[cold]
    #[inline(never)]
    pub(crate) fn begins_choice(&mut self, process: u32, context: &Context) -> Result<(), Fault>
        requires { process < length self.old.processes.items.items }
        ensures { Does (spec.begins_choice (node_site self.old) (name_at self.old process) (context_of context.now))
            nothing self.old result self.new }
    {
        self.takes_word(context.wptr.below(3))?;
        self.puts_state(context.wptr.below(3), WordUse::Choosing)?;
        self.goes_on(process, &context.with_choice(false));
        Ok(())
    }

    /// The number of the word at an address that programs may use.
    ///
    /// # Errors
    /// Those of `Words::number_at`.
    pub(crate) fn word_at(&self, address: Word) -> Result<usize, Stop>
        ensures checks { RunsAt (unless (word_place_break (node_site self.now).size address)) self.now
            (told (λ _. tt) result) self.now }
        ensures number { IfOk result (λ k. (k ≡ word_number address) × (k < length self.now.words.items.items)) }
    {
        Ok(self.words.number_at(address)?)
    }

    /// The alternative that is under way, and whose word is still in use for it.
    ///
    /// # Errors
    /// `WordInUse` where there is none, those of `word_at`, `WordInUse` where it has another use, `InTransit` where a
    /// pending output has a byte of it.
    pub(crate) fn under_way(&mut self, context: &Context) -> Result<Choice, Stop>
        ensures { RunsAt (spec.under_way (node_site self.old) (context_of context.now)) self.old (told choice_of result)
            self.new }
    {
        let choice = choice_of(context.choice)?;
        let word = self.word_at(context.wptr.below(3))?;
        self.expect_word(word, WordUse::Choosing)?;
        self.unsent(word, Mode::Claims)?;
        Ok(choice)
    }

    /// `enbs`: a guard without a channel, which is true where A is not 0.
    ///
    /// # Errors
    /// Those of `under_way`, `SawTheScheduler` where A is not known.
    #[cold]
    #[inline(never)]
    pub(crate) fn enables_skip(&mut self, process: u32, context: &Context) -> Result<(), Fault>
        requires { process < length self.old.processes.items.items }
        ensures { Does (spec.enables_skip (node_site self.old) (name_at self.old process) (context_of context.now))
            nothing self.old result self.new }
    {
        let choice = self.under_way(context)?;
        let guard = known(context.a)?;
        self.goes_on(process, &context.with_choice(skips_then(choice, guard)));
        Ok(())
    }

    /// `enbc`: a guard with the channel at B, which is enabled where A is not 0.
    ///
    /// # Errors
    /// Those of `under_way`, `SawTheScheduler` where A is not known, else those of `enables_port`.
    #[cold]
    #[inline(never)]
    pub(crate) fn enables_channel(&mut self, process: u32, context: &Context) -> Result<(), Fault>
        requires { process < length self.old.processes.items.items }
        ensures { Does (spec.enables_channel (node_site self.old) (name_at self.old process) (context_of context.now))
            nothing self.old result self.new }
    {
        self.under_way(context)?;
        let guard = known(context.a)?;
        if is_clear(guard) {
            self.goes_on(process, &context.drop_channel());
            return Ok(());
        }
        self.enables_port(process, context)
    }

    /// The channel at B is enabled.
    ///
    /// # Errors
    /// `SawTheScheduler` where B is not known, else those of `enables_any`.
    fn enables_port(&mut self, process: u32, context: &Context) -> Result<(), Fault>
        requires { process < length self.old.processes.items.items }
        ensures { Does (spec.enables_port (node_site self.old) (name_at self.old process) (context_of context.now))
            nothing self.old result self.new }
    {
        let channel = known(context.b)?;
        self.enables_any(process, channel)?;
        self.goes_on(process, &context.drop_channel());
        Ok(())
    }

    /// A channel or the input of a link is enabled.
    ///
    /// # Errors
    /// Those of `enables_link` of a link, else those of `enables`.
    fn enables_any(&mut self, process: u32, channel: Word) -> Result<(), Fault>
        requires { process < length self.old.processes.items.items }
        ensures { Does (enables_any (node_site self.old) (name_at self.old process) channel) nothing self.old result
            self.new }
    {
        if is_link(channel) {
            return self.enables_link(process, channel);
        }
        self.enables(process, channel)
    }

    /// An internal channel is enabled, without a look at its sender.
    ///
    /// # Errors
    /// Those of the channel word, those of `enables_held`; `OutOfMemory`.
    fn enables(&mut self, process: u32, channel: Word) -> Result<(), Fault>
        requires { process < length self.old.processes.items.items }
        ensures { Does (spec.enables (node_site self.old) (name_at self.old process) channel) nothing self.old result
            self.new }
    {
        let word = self.word_at(channel)?;
        let number = self.channel_at(channel)?;
        let holder = self.half(number, Side::Input);
        self.enables_held(process, number, channel, word, holder)?;
        self.adds_port(process, channel)
    }

    /// The input of a channel is enabled, by who has it. number: that of the channel; word: that of its word.
    ///
    /// # Errors
    /// `ChannelMisuse` where somebody else has it, `InTransit` where a pending output has a byte of the word.
    fn enables_held(
        &mut self,
        process: u32,
        number: u32,
        channel: Word,
        word: usize,
        holder: Holder,
    ) -> Result<(), Stop>
        requires there { process < length self.old.processes.items.items }
        requires channel { number < length self.old.channels.items.items }
        requires at { address_at self.old number ≡ channel }
        requires word { word ≡ word_number channel }
        requires inside { word < length self.old.words.items.items }
        requires known { IsKnownHolder (length self.old.processes.items.items) holder }
        ensures { RunsAt (spec.enables_held (node_site self.old) (name_at self.old process) channel
            (holder_of (names self.old) holder)) self.old (told nothing result) self.new }
    {
        match holder {
            Holder::Nobody => self.enables_free(process, number, channel, word),
            Holder::Enabled(other) => {
                if other != process {
                    return Err(Stop::Breaks(Break::ChannelMisuse));
                }
                self.unsent(word, Mode::Engages)
            }
            Holder::Taken(_) | Holder::Awaited(_) => Err(Stop::Breaks(Break::ChannelMisuse)),
        }
    }

    /// The input of a channel that nobody has is enabled. number: that of the channel; word: that of its word.
    ///
    /// # Errors
    /// `InTransit` where a pending output has a byte of the word.
    fn enables_free(
        &mut self,
        process: u32,
        number: u32,
        channel: Word,
        word: usize,
    ) -> Result<(), Stop>
        requires there { process < length self.old.processes.items.items }
        requires channel { number < length self.old.channels.items.items }
        requires at { address_at self.old number ≡ channel }
        requires word { word ≡ word_number channel }
        requires inside { word < length self.old.words.items.items }
        ensures { RunsAt (spec.enables_held (node_site self.old) (name_at self.old process) channel Nobody) self.old
            (told nothing result) self.new }
    {
        self.set_half(number, Side::Input, Holder::Enabled(process));
        self.unsent(word, Mode::Engages)?;
        self.engage(channel);
        Ok(())
    }

    /// `altwt`: a process waits for the channels that it has enabled, unless a guard without one was true.
    ///
    /// # Errors
    /// Those of a write of the word at the workspace, those of `under_way` and of `waits_for_ports`.
    #[cold]
    #[inline(never)]
    pub(crate) fn awaits_choice(&mut self, process: u32, context: &Context) -> Result<(), Fault>
        requires { process < length self.old.processes.items.items }
        ensures { Does (spec.awaits_choice (node_site self.old) (name_at self.old process) (context_of context.now))
            nothing self.old result self.new }
    {
        self.store(context.wptr, true, Word::new(NONE_SELECTED))?;
        let choice = self.under_way(context)?;
        if choice.skips {
            self.goes_on(process, context);
            return Ok(());
        }
        self.waits_for_ports(process, context)
    }

    /// A process waits for the channels that it has enabled.
    ///
    /// # Errors
    /// Those of `awaits_ports`, of `changes_use` and of the two words below its workspace.
    fn waits_for_ports(&mut self, process: u32, context: &Context) -> Result<(), Fault>
        requires { process < length self.old.processes.items.items }
        ensures { Does (spec.waits_for_ports (node_site self.old) (name_at self.old process) (context_of context.now))
            nothing self.old result self.new }
    {
        self.sees_ports(process);
        self.awaits_ports(process)?;
        self.changes_use(context, WordUse::Choosing, WordUse::Awaiting)?;
        self.saves_upper(context.wptr)?;
        self.stands(process, Stand::Chooses(context.forget()));
        Ok(())
    }

    /// The word that has the state of an alternative changes its use.
    ///
    /// # Errors
    /// `WordInUse` where it has another use; `OutOfMemory` where the memory does not have it, which it has while an
    /// alternative is under way.
    fn changes_use(&mut self, context: &Context, from: WordUse, to: WordUse) -> Result<(), Fault>
        ensures { Does (spec.changes_use (node_site self.old) (context_of context.now) (use_of from) (use_of to))
            nothing self.old result self.new }
    {
        let word = word_number(context.wptr.below(3));
        if self.words.items.len() <= word {
            return Err(Fault::OutOfMemory);
        }
        self.expect_word(word, from)?;
        self.put(word, Cells::unknown(), to);
        Ok(())
    }

    /// The upper two words below a workspace become saved words.
    ///
    /// # Errors
    /// Those of `Words::save_upper`.
    fn saves_upper(&mut self, workspace: Word) -> Result<(), Stop>
        ensures { RunsAt (save_upper (node_site self.old) workspace) self.old (told nothing result) self.new }
    {
        self.words.save_upper(workspace)
    }

    /// A process waits for each channel that it has enabled.
    ///
    /// # Errors
    /// Those of `awaits_port`.
    fn awaits_ports(&mut self, process: u32) -> Result<(), Fault>
        requires { process < length self.old.processes.items.items }
        ensures { Does (spec.awaits_ports (node_site self.old) (name_at self.old process) (ports_at self.old process))
            nothing self.old result self.new }
    {
        let count = self.processes.items[process as usize].ports.len();
        for index in 0..count {
            let port = self.processes.items[process as usize].ports[index];
            self.awaits_port(process, Word::new(port))?;
        }
        Ok(())
    }

    /// A process waits for a channel or for the input of a link that it has enabled.
    ///
    /// # Errors
    /// Those of `awaits_link` of a link, else those of `awaits_channel`.
    fn awaits_port(&mut self, process: u32, channel: Word) -> Result<(), Fault>
        requires { process < length self.old.processes.items.items }
        ensures done { Does (awaits_port (node_site self.old) (name_at self.old process) channel) nothing self.old
            result self.new }
        ensures processes { self.new.processes.items.items ≡ self.old.processes.items.items }
    {
        if !is_link(channel) {
            return self.awaits_channel(process, channel);
        }
        self.awaits_link(process, channel)?;
        Ok(())
    }

    /// A process waits for an internal channel that it has enabled.
    ///
    /// # Errors
    /// `ChannelMisuse` where it has not; `OutOfMemory`.
    fn awaits_channel(&mut self, process: u32, channel: Word) -> Result<(), Fault>
        requires { process < length self.old.processes.items.items }
        ensures done { Does (spec.awaits_channel (node_site self.old) (name_at self.old process) channel) nothing
            self.old result self.new }
        ensures processes { self.new.processes.items.items ≡ self.old.processes.items.items }
    {
        let number = self.channel_at(channel)?;
        let Holder::Enabled(other) = self.half(number, Side::Input) else {
            return Err(Fault::Stops(Stop::Breaks(Break::ChannelMisuse)));
        };
        if other != process {
            return Err(Fault::Stops(Stop::Breaks(Break::ChannelMisuse)));
        }
        self.set_half(number, Side::Input, Holder::Awaited(process));
        Ok(())
    }

    /// A process that has waited for channels goes on.
    ///
    /// # Errors
    /// Those of `changes_use`, `WordInUse` where the two words below its workspace are no saved words; `OutOfMemory`
    /// where the memory does not have them, which it has below the workspace of a process that waits.
    #[cold]
    #[inline(never)]
    pub(crate) fn goes_on_chosen(&mut self, process: u32, context: &Context) -> Result<(), Fault>
        requires { process < length self.old.processes.items.items }
        ensures { Does (spec.goes_on_chosen (node_site self.old) (name_at self.old process) (context_of context.now))
            nothing self.old result self.new }
    {
        self.changes_use(context, WordUse::Awaiting, WordUse::Choosing)?;
        self.unsaves_upper(context.wptr)?;
        self.goes_on(process, context);
        Ok(())
    }

    /// The upper two words below a workspace are for programs again.
    ///
    /// # Errors
    /// `WordInUse` where one of them is no saved word; `OutOfMemory` where the memory does not have them.
    fn unsaves_upper(&mut self, workspace: Word) -> Result<(), Fault>
        ensures { Does (unsave_upper (node_site self.old) workspace) nothing self.old result self.new }
    {
        let lower = self.has_word(workspace.below(2));
        let upper = self.has_word(workspace.below(1));
        if !(lower && upper) {
            return Err(Fault::OutOfMemory);
        }
        self.words.unsave_upper(workspace)?;
        Ok(())
    }
}
