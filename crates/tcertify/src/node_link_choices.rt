//! Alternatives over links: how a process enables their inputs, waits for them and disables them.

ghost use Rattle.std.specs.Prelude.{◌≡◌, ◌<◌, Ok, length, true};
ghost use Rattle.tword.specs.declared.breaks.Break.TheVariants.{LinkBusy};
ghost use Rattle.tproc.specs.LinkChannels as links;
ghost use Rattle.tprocesses.specs.Changes.{Put};
ghost use Rattle.tprocesses.specs.Choosing as spec;
ghost use Rattle.tprocesses.specs.Parts.{Breaks, change, require, see};
ghost use Rattle.tprocesses.specs.Places.{same_name};
ghost use Rattle.tprocesses.specs.Values.{Fired, IsLink};
ghost use Rattle.tcertify.specs.Channels.{IsKnownHalf, link_of};
ghost use Rattle.tcertify.specs.Choosing.{listens_if};
ghost use Rattle.tcertify.specs.Contexts.{context_of};
ghost use Rattle.tcertify.specs.Nodes.{Does, RunsAt, name_at, names, node_site, nothing};
ghost use Rattle.tcertify.specs.Words.{told};

use crate::channel::LinkHalf;
use crate::context::Context;
use crate::fault::Fault;
use crate::node::Node;
use crate::node_links::{input_link, is_input};
use crate::side::Side;
use crate::standing::Stand;
use crate::stop::Stop;
use tword::{Break, Word};

impl Node {
    /// What pends at the input of the link that a channel names.
    pub(crate) fn sees_input(&mut self, channel: Word) -> LinkHalf
        requires { links.is_link channel ≡ true }
        ensures looks { RunsAt (see (spec.input_of (node_site self.old) channel)) self.old
            (Ok (IsLink (link_of (names self.old) result))) self.new }
        ensures known { IsKnownHalf (length self.old.processes.items.items) result }
        ensures processes { self.new.processes.items.items ≡ self.old.processes.items.items }
    {
        self.link_half(input_link(channel), Side::Input)
    }

    /// What pends at the input of the link that a channel names now.
    fn sets_input(&mut self, channel: Word, half: LinkHalf)
        requires link { links.is_link channel ≡ true }
        requires known { IsKnownHalf (length self.old.processes.items.items) half }
        ensures sets { RunsAt (change (spec.input_of (node_site self.old) channel)
            (Put (IsLink (link_of (names self.old) half)))) self.old (Ok tt) self.new }
        ensures processes { self.new.processes.items.items ≡ self.old.processes.items.items }
    {
        self.set_link_half(input_link(channel), Side::Input, half);
    }

    /// Whether the process that has the input of a link is this one.
    ///
    /// # Errors
    /// `LinkBusy` where it is another one.
    fn is_own(&self, other: u32, process: u32) -> Result<(), Stop>
        requires known { other < length self.now.processes.items.items }
        requires there { process < length self.now.processes.items.items }
        ensures { RunsAt (require (same_name (name_at self.now other) (name_at self.now process)) (Breaks LinkBusy))
            self.now (told nothing result) self.now }
    {
        if other != process {
            return Err(Stop::Breaks(Break::LinkBusy));
        }
        Ok(())
    }

    /// The input of a link is enabled, without a look at the far end.
    ///
    /// # Errors
    /// Those of `is_input` and of `enables_pending`; `OutOfMemory`.
    pub(crate) fn enables_link(&mut self, process: u32, channel: Word) -> Result<(), Fault>
        requires there { process < length self.old.processes.items.items }
        requires link { links.is_link channel ≡ true }
        ensures { Does (spec.enables_link (node_site self.old) (name_at self.old process) channel) nothing self.old
            result self.new }
    {
        is_input(channel)?;
        let half = self.sees_input(channel);
        self.enables_pending(process, channel, half)?;
        self.adds_port(process, channel)
    }

    /// The input of a link is enabled, by what pends there.
    ///
    /// # Errors
    /// `LinkBusy` where something pends, or another process has enabled it.
    fn enables_pending(&mut self, process: u32, channel: Word, half: LinkHalf) -> Result<(), Stop>
        requires there { process < length self.old.processes.items.items }
        requires link { links.is_link channel ≡ true }
        requires known { IsKnownHalf (length self.old.processes.items.items) half }
        ensures { RunsAt (spec.enables_pending (node_site self.old) (name_at self.old process) channel
            (link_of (names self.old) half)) self.old (told nothing result) self.new }
    {
        match half {
            LinkHalf::Empty => {
                self.sets_input(channel, LinkHalf::Enabled(process));
                Ok(())
            }
            LinkHalf::Enabled(other) => self.is_own(other, process),
            LinkHalf::Offered(_) | LinkHalf::Awaited(_) | LinkHalf::Fired(_) => {
                Err(Stop::Breaks(Break::LinkBusy))
            }
        }
    }

    /// Whether a process has enabled the input of a link, by what pends there.
    fn is_enabled_on(&self, process: u32, half: &LinkHalf) -> bool
        requires there { process < length self.now.processes.items.items }
        requires known { IsKnownHalf (length self.now.processes.items.items) half.now }
        ensures { result ≡ spec.is_enabled_on (name_at self.now process) (link_of (names self.now) half.now) }
    {
        match half {
            LinkHalf::Enabled(other) => *other == process,
            LinkHalf::Empty | LinkHalf::Offered(_) | LinkHalf::Awaited(_) | LinkHalf::Fired(_) =>
                false,
        }
    }

    /// A process waits for the input of a link that it has enabled.
    ///
    /// # Errors
    /// `LinkBusy` where it has not.
    pub(crate) fn awaits_link(&mut self, process: u32, channel: Word) -> Result<(), Stop>
        requires there { process < length self.old.processes.items.items }
        requires link { links.is_link channel ≡ true }
        ensures done { RunsAt (spec.awaits_link (node_site self.old) (name_at self.old process) channel) self.old
            (told nothing result) self.new }
        ensures processes { self.new.processes.items.items ≡ self.old.processes.items.items }
    {
        let half = self.sees_input(channel);
        if !self.is_enabled_on(process, &half) {
            return Err(Stop::Breaks(Break::LinkBusy));
        }
        self.sets_input(channel, LinkHalf::Awaited(process));
        Ok(())
    }

    /// The input of a link is disabled.
    ///
    /// # Errors
    /// Those of `is_input` and of `disables_pending`.
    pub(crate) fn disables_link(
        &mut self,
        process: u32,
        context: &Context,
        channel: Word,
    ) -> Result<(), Fault>
        requires there { process < length self.old.processes.items.items }
        requires link { links.is_link channel ≡ true }
        ensures { Does (spec.disables_link (node_site self.old) (name_at self.old process) (context_of context.now)
            channel) nothing self.old result self.new }
    {
        is_input(channel)?;
        let half = self.sees_input(channel);
        self.disables_pending(process, context, channel, half)
    }

    /// The input of a link is disabled, by what pends there: it is ready if it made the process go on. Else the process
    /// has to listen.
    ///
    /// # Errors
    /// `LinkBusy` where the process has not enabled it, those of `selects` and of `begins_to_listen`.
    fn disables_pending(
        &mut self,
        process: u32,
        context: &Context,
        channel: Word,
        half: LinkHalf,
    ) -> Result<(), Fault>
        requires there { process < length self.old.processes.items.items }
        requires link { links.is_link channel ≡ true }
        requires known { IsKnownHalf (length self.old.processes.items.items) half }
        ensures { Does (spec.disables_pending (node_site self.old) (name_at self.old process) (context_of context.now)
            channel (link_of (names self.old) half)) nothing self.old result self.new }
    {
        match half {
            LinkHalf::Fired(other) => self.chooses_fired(process, context, channel, other),
            LinkHalf::Enabled(other) => self.listens(process, context, channel, other),
            LinkHalf::Awaited(other) => self.listens(process, context, channel, other),
            LinkHalf::Empty | LinkHalf::Offered(_) => {
                Err(Fault::Stops(Stop::Breaks(Break::LinkBusy)))
            }
        }
    }

    /// The input of a link that made a process go on is disabled, and its guard is ready. other: that process.
    ///
    /// # Errors
    /// `LinkBusy` where that is another one, those of `selects`.
    fn chooses_fired(
        &mut self,
        process: u32,
        context: &Context,
        channel: Word,
        other: u32,
    ) -> Result<(), Fault>
        requires there { process < length self.old.processes.items.items }
        requires link { links.is_link channel ≡ true }
        requires known { other < length self.old.processes.items.items }
        ensures { Does (spec.disables_pending (node_site self.old) (name_at self.old process) (context_of context.now)
            channel (Fired (name_at self.old other))) nothing self.old result self.new }
    {
        self.is_own(other, process)?;
        self.gives_up_link(process, channel);
        self.selects(process, context, true)
    }

    /// A process gives up the input of a link.
    pub(crate) fn gives_up_link(&mut self, process: u32, channel: Word)
        requires there { process < length self.old.processes.items.items }
        requires link { links.is_link channel ≡ true }
        ensures { RunsAt (spec.gives_up_link (node_site self.old) (name_at self.old process) channel) self.old (Ok tt)
            self.new }
    {
        self.sets_input(channel, LinkHalf::Empty);
        self.drops_port(process, channel);
    }

    /// A process listens to the input of a link that a process has enabled, other, if it is that one.
    ///
    /// # Errors
    /// `LinkBusy` where it is another one, those of `begins_to_listen`.
    fn listens(
        &mut self,
        process: u32,
        context: &Context,
        channel: Word,
        other: u32,
    ) -> Result<(), Fault>
        requires there { process < length self.old.processes.items.items }
        requires known { other < length self.old.processes.items.items }
        ensures { Does (listens_if (node_site self.old) (name_at self.old process) (context_of context.now)
            channel (name_at self.old other)) nothing self.old result self.new }
    {
        self.is_own(other, process)?;
        self.begins_to_listen(process, context, channel)?;
        Ok(())
    }

    /// The guard of a link that did not make its process go on is not ready, and the process has to listen.
    ///
    /// # Errors
    /// Those of a write of the word at the workspace.
    fn begins_to_listen(
        &mut self,
        process: u32,
        context: &Context,
        channel: Word,
    ) -> Result<(), Stop>
        requires { process < length self.old.processes.items.items }
        ensures { RunsAt (spec.begins_to_listen (node_site self.old) (name_at self.old process) (context_of context.now)
            channel) self.old (told nothing result) self.new }
    {
        self.takes_word(context.wptr)?;
        let left = context.answers(false);
        self.stands(
            process,
            Stand::Listens {
                channel,
                context: left,
            },
        );
        Ok(())
    }
}
