//! Alternatives over links: how an input makes a process go on, and how a process goes on that has listened.

ghost use Rattle.std.specs.Prelude.{ℕ, ◌≡◌, ◌<◌, Ok, Some, length, option_map};
ghost use Rattle.tplan.specs.Wires.{end_at};
ghost use Rattle.tprocesses.specs.Choosing as spec;
ghost use Rattle.tprocesses.specs.Machine.{Processor, asks};
ghost use Rattle.tcertify.specs.Channels.{IsKnownHalf, link_of};
ghost use Rattle.tcertify.specs.Choosing.{offers_at};
ghost use Rattle.tcertify.specs.Contexts.{context_of};
ghost use Rattle.tcertify.specs.Nodes.{Does, RunsAt, name_at, names, node_site, nothing};
ghost use Rattle.tcertify.specs.Words.{told};

use crate::channel::LinkHalf;
use crate::choosing::waiting;
use crate::context::Context;
use crate::fault::Fault;
use crate::node::Node;
use crate::node_scheduling::is_link;
use crate::side::Side;
use crate::standing::Stand;
use crate::stop::Stop;
use tword::Word;

impl Node {
    /// The number of the process that waits for the input of a link and for others, if there is one.
    pub fn awaiting(&mut self, link: u32) -> Option<u32>
        requires { link < 4 }
        ensures asks { RunsAt (asks Processor (end_at self.old.words.number link)) self.old
            (Ok (option_map (name_at self.old) result)) self.new }
        ensures there { (k : ℕ) → result ≡ Some k → k < length self.old.processes.items.items }
    {
        match self.link_half(link, Side::Input) {
            LinkHalf::Awaited(process) => Some(process),
            LinkHalf::Empty | LinkHalf::Offered(_) | LinkHalf::Enabled(_) | LinkHalf::Fired(_) =>
                None,
        }
    }

    /// Whether a message is offered at the output of a link.
    pub fn is_offering(&mut self, link: u32) -> bool
        requires { link < 4 }
        ensures { RunsAt (offers_at (end_at self.old.words.number link)) self.old (Ok result) self.new }
    {
        matches!(self.link_half(link, Side::Output), LinkHalf::Offered(_))
    }

    /// The input of a link makes the process go on that waits for it and for others.
    ///
    /// # Errors
    /// `SeveralReady` where the process does not wait any more.
    pub fn fires(&mut self, link: u32, process: u32) -> Result<(), Stop>
        requires link { link < 4 }
        requires there { process < length self.old.processes.items.items }
        ensures { RunsAt (spec.fires (end_at self.old.words.number link) (name_at self.old process)) self.old
            (told nothing result) self.new }
    {
        let stand = self.stand(process);
        let context = waiting(stand)?;
        self.set_link_half(link, Side::Input, LinkHalf::Fired(process));
        self.stands(process, Stand::Chosen(context.with_choice(true)));
        Ok(())
    }

    /// Whether a process has enabled the input of a link that did not make it go on, by what pends there.
    fn is_unfired_by(&self, process: u32, half: &LinkHalf) -> bool
        requires there { process < length self.now.processes.items.items }
        requires known { IsKnownHalf (length self.now.processes.items.items) half.now }
        ensures { result ≡ spec.is_unfired_by (name_at self.now process) (link_of (names self.now) half.now) }
    {
        match half {
            LinkHalf::Enabled(other) => *other == process,
            LinkHalf::Awaited(other) => *other == process,
            LinkHalf::Empty | LinkHalf::Offered(_) | LinkHalf::Fired(_) => false,
        }
    }

    /// A process that has listened to the input of a link, by its channel, goes on.
    ///
    /// # Errors
    /// `HasNoStep` where it has not enabled the input, or that made it go on; `OutOfMemory` where the channel is no
    /// link, which it is where a process listens.
    pub fn goes_on_unfired(
        &mut self,
        process: u32,
        channel: Word,
        context: &Context,
    ) -> Result<(), Fault>
        requires { process < length self.old.processes.items.items }
        ensures { Does (spec.goes_on_unfired (node_site self.old) (name_at self.old process) channel
            (context_of context.now)) nothing self.old result self.new }
    {
        if !is_link(channel) {
            return Err(Fault::OutOfMemory);
        }
        let half = self.sees_input(channel);
        if !self.is_unfired_by(process, &half) {
            return Err(Fault::Stops(Stop::HasNoStep));
        }
        self.gives_up_link(process, channel);
        self.goes_on(process, context);
        Ok(())
    }
}
