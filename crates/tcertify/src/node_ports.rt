//! The channels that processes of a node have enabled.

ghost use Rattle.std.specs.Prelude.{◌≡◌, ◌<◌, Ok, length};
ghost use Rattle.tprocesses.specs.Changes.{Put};
ghost use Rattle.tprocesses.specs.Choosing as spec;
ghost use Rattle.tprocesses.specs.Parts.{WordInUse, change, require, see};
ghost use Rattle.tprocesses.specs.Places.{Ports};
ghost use Rattle.tprocesses.specs.Values.{ArePorts};
ghost use Rattle.tcertify.specs.Nodes.{Does, RunsAt, name_at, nothing, ports_at};
ghost use Rattle.tcertify.specs.Words.{told};

use crate::choosing::has_none;
use crate::fault::Fault;
use crate::node::Node;
use crate::notes::Mode;
use crate::stop::Stop;
use tword::Word;

impl Node {
    /// A look at the channels that a process has enabled.
    pub(crate) fn sees_ports(&mut self, process: u32)
        requires { process < length self.old.processes.items.items }
        ensures looks { RunsAt (see (Ports (name_at self.old process))) self.old
            (Ok (ArePorts (ports_at self.old process))) self.new }
        ensures processes { self.new.processes.items.items ≡ self.old.processes.items.items }
    {
        let place = self.processes.items[process as usize].place;
        self.words.notes.add(place, Mode::Looks);
    }

    /// Whether a process has no channel enabled.
    ///
    /// # Errors
    /// `WordInUse` where it has.
    pub(crate) fn has_no_port(&self, process: u32) -> Result<(), Stop>
        requires { process < length self.now.processes.items.items }
        ensures { RunsAt (require (spec.has_none (ports_at self.now process)) WordInUse) self.now
            (told nothing result) self.now }
    {
        has_none(self.processes.items[process as usize].ports.as_slice())
    }

    /// A process has enabled one more channel, if it had not.
    ///
    /// # Errors
    /// `OutOfMemory`.
    fn puts_port(&mut self, process: u32, channel: Word) -> Result<(), Fault>
        requires { process < length self.old.processes.items.items }
        ensures { Does (change (Ports (name_at self.old process))
            (Put (ArePorts (spec.with_port channel (ports_at self.old process))))) nothing self.old result self.new }
    {
        let place = self.processes.enable(process as usize, channel.get())?;
        self.words.notes.add(place, Mode::Puts);
        Ok(())
    }

    /// A process has a channel enabled no more.
    fn puts_no_port(&mut self, process: u32, channel: Word)
        requires { process < length self.old.processes.items.items }
        ensures { RunsAt (change (Ports (name_at self.old process))
            (Put (ArePorts (spec.without_port channel (ports_at self.old process))))) self.old (Ok tt) self.new }
    {
        let place = self.processes.disable(process as usize, channel.get());
        self.words.notes.add(place, Mode::Puts);
    }

    /// A look at the channels that a process has enabled, which has one more from here on, if it had not.
    ///
    /// # Errors
    /// `OutOfMemory`.
    pub(crate) fn adds_port(&mut self, process: u32, channel: Word) -> Result<(), Fault>
        requires { process < length self.old.processes.items.items }
        ensures { Does (spec.changes_ports (name_at self.old process) (spec.with_port channel)) nothing self.old result
            self.new }
    {
        self.sees_ports(process);
        self.puts_port(process, channel)
    }

    /// A look at the channels that a process has enabled, which has one no more from here on.
    pub(crate) fn drops_port(&mut self, process: u32, channel: Word)
        requires { process < length self.old.processes.items.items }
        ensures { RunsAt (spec.changes_ports (name_at self.old process) (spec.without_port channel)) self.old (Ok tt)
            self.new }
    {
        self.sees_ports(process);
        self.puts_no_port(process, channel);
    }
}
