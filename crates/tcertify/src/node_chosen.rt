//! Alternatives: how a channel makes a process go on that waits for several ones.

ghost use Rattle.std.specs.Prelude.{◌≡◌, ◌<◌, length};
ghost use Rattle.tprocesses.specs.Choosing as spec;
ghost use Rattle.tcertify.specs.Choosing.{asks_other};
ghost use Rattle.tcertify.specs.Nodes.{Does, address_at, name_at, node_site, nothing, ports_at};

use crate::channel::Holder;
use crate::choosing::waiting;
use crate::fault::Fault;
use crate::node::Node;
use crate::node_disabling::is_taken;
use crate::node_scheduling::is_link;
use crate::side::Side;
use crate::standing::Stand;
use crate::stop::Stop;
use tword::Word;

impl Node {
    /// A channel, at this address, on which a message is sent makes the process go on that waits for it and for others.
    ///
    /// # Errors
    /// `SeveralReady` where the process does not wait any more, or a message is sent on another internal channel of
    /// those that it has enabled; `OutOfMemory`.
    #[cold]
    #[inline(never)]
    pub(crate) fn lets_go_on(
        &mut self,
        channel: u32,
        address: Word,
        process: u32,
    ) -> Result<(), Fault>
        requires channel { channel < length self.old.channels.items.items }
        requires at { address_at self.old channel ≡ address }
        requires there { process < length self.old.processes.items.items }
        ensures { Does (spec.lets_go_on (node_site self.old) address (name_at self.old process))
            nothing self.old result self.new }
    {
        let stand = self.stand(process);
        let context = waiting(stand)?;
        self.sees_ports(process);
        self.requires_no_other(process, address)?;
        self.set_half(channel, Side::Input, Holder::Enabled(process));
        self.stands(process, Stand::Chosen(context.with_choice(true)));
        Ok(())
    }

    /// No message is sent on the internal channels that a process has enabled, but on the one at this address.
    ///
    /// # Errors
    /// `SeveralReady` where one is; `OutOfMemory`.
    fn requires_no_other(&mut self, process: u32, channel: Word) -> Result<(), Fault>
        requires { process < length self.old.processes.items.items }
        ensures { Does (spec.requires_no_other (node_site self.old) channel (ports_at self.old process)) nothing
            self.old result self.new }
    {
        let count = self.processes.items[process as usize].ports.len();
        for index in 0..count {
            let port = self.processes.items[process as usize].ports[index];
            self.asks_other(channel, Word::new(port))?;
        }
        Ok(())
    }

    /// No message is sent on the channel at the second address, if it is another one than that at the first, and no
    /// link.
    ///
    /// # Errors
    /// `SeveralReady` where one is; `OutOfMemory`.
    fn asks_other(&mut self, channel: Word, port: Word) -> Result<(), Fault>
        ensures done { Does (asks_other (node_site self.old) channel port) nothing self.old result self.new }
        ensures processes { self.new.processes.items.items ≡ self.old.processes.items.items }
    {
        if port.get() == channel.get() || is_link(port) {
            return Ok(());
        }
        self.requires_silence(port)
    }

    /// No message is sent on the channel at an address.
    ///
    /// # Errors
    /// `SeveralReady` where one is; `OutOfMemory`.
    fn requires_silence(&mut self, channel: Word) -> Result<(), Fault>
        ensures done { Does (spec.requires_silence (node_site self.old) channel) nothing self.old result self.new }
        ensures processes { self.new.processes.items.items ≡ self.old.processes.items.items }
    {
        let number = self.channel_at(channel)?;
        let output = self.half(number, Side::Output);
        if is_taken(&output) {
            return Err(Fault::Stops(Stop::SeveralReady));
        }
        Ok(())
    }
}
