//! A turn of a worker, phase by phase.

ghost use Rattle.std.specs.Prelude.{◌≡◌, ◌+◌, ◌<◌, length, is_ok, IfOk, IfErr};
ghost use Rattle.tfree.specs.Logs.{IsActOf};
ghost use Rattle.tlink.specs.declared.event.NodeEvent.TheVariants.{Take, Send};
ghost use Rattle.tfree.specs.Turns.{Phased, packets_of, emission_of, runs_of, all_packets, all_takes, all_sends};
ghost use Rattle.tfree.specs.Turns.{NodeTurn, IsTurn, Extends, AreLeft, IsNext};

use crate::log::TurnFault;
use crate::worker::Worker;
use tlink::NodeEvent;

/// What a turn did.
#[derive(Clone, Copy, Debug, PartialEq, Eq)]
pub struct Turned {
    /// How many events were done.
    pub events: u64,
}

impl Worker {
    /// At most two packets of a link. At most links none lies, so that it is asked inline.
    #[inline(always)]
    fn packets(&mut self, i: usize, link: u8) -> Result<(), TurnFault>
        requires i { i < self.old.share.owned }
        requires link { link < 4 }
        ensures phase { Phased (λ s. packets_of s (s.first + i) link) self.old (is_ok result) self.new }
        ensures next { IfErr result (IsNext (λ s. packets_of s (s.first + i) link) self.old self.new) }
    {
        for _done in 0..2_u32 {
            if !self.may_lie(i, link) {
                return Ok(());
            }
            if !self.receive(i, link)? {
                return Ok(());
            }
        }
        Ok(())
    }

    /// An event of a link that emits, at most once.
    #[inline(always)]
    fn emission(&mut self, i: usize, link: u8, event: NodeEvent) -> Result<(), TurnFault>
        requires i { i < self.old.share.owned }
        requires link { link < 4 }
        requires event { IsActOf link event }
        ensures phase { Phased (λ s. emission_of s (s.first + i) link event) self.old (is_ok result) self.new }
        ensures next { IfErr result (IsNext (λ s. emission_of s (s.first + i) link event) self.old self.new) }
    {
        self.emit(i, link, event)?;
        Ok(())
    }

    /// The byte that waits at a link is taken.
    #[inline(never)]
    fn take_byte(&mut self, i: usize, link: u8) -> Result<(), TurnFault>
        requires i { i < self.old.share.owned }
        requires link { link < 4 }
        ensures phase { Phased (λ s. emission_of s (s.first + i) link (Take link)) self.old (is_ok result) self.new }
        ensures next { IfErr result (IsNext (λ s. emission_of s (s.first + i) link (Take link)) self.old self.new) }
    {
        self.emission(i, link, NodeEvent::Take(link))
    }

    /// The byte that waits at a link is taken. At most links none does, so that it is asked inline.
    #[inline(always)]
    fn take(&mut self, i: usize, link: u8) -> Result<(), TurnFault>
        requires i { i < self.old.share.owned }
        requires link { link < 4 }
        ensures phase { Phased (λ s. emission_of s (s.first + i) link (Take link)) self.old (is_ok result) self.new }
        ensures next { IfErr result (IsNext (λ s. emission_of s (s.first + i) link (Take link)) self.old self.new) }
    {
        if self.enabled(i, NodeEvent::Take(link)) {
            return self.take_byte(i, link);
        }
        Ok(())
    }

    /// The next byte of the output at a link is sent.
    #[inline(never)]
    fn send_byte(&mut self, i: usize, link: u8) -> Result<(), TurnFault>
        requires i { i < self.old.share.owned }
        requires link { link < 4 }
        ensures phase { Phased (λ s. emission_of s (s.first + i) link (Send link)) self.old (is_ok result) self.new }
        ensures next { IfErr result (IsNext (λ s. emission_of s (s.first + i) link (Send link)) self.old self.new) }
    {
        self.emission(i, link, NodeEvent::Send(link))
    }

    /// The next byte of the output at a link is sent. At most links none is due, so that it is asked inline.
    #[inline(always)]
    fn send(&mut self, i: usize, link: u8) -> Result<(), TurnFault>
        requires i { i < self.old.share.owned }
        requires link { link < 4 }
        ensures phase { Phased (λ s. emission_of s (s.first + i) link (Send link)) self.old (is_ok result) self.new }
        ensures next { IfErr result (IsNext (λ s. emission_of s (s.first + i) link (Send link)) self.old self.new) }
    {
        if self.enabled(i, NodeEvent::Send(link)) {
            return self.send_byte(i, link);
        }
        Ok(())
    }

    /// At most two packets of each link.
    fn all_packets(&mut self, i: usize) -> Result<(), TurnFault>
        requires { i < self.old.share.owned }
        ensures phase { Phased (λ s. all_packets s (s.first + i)) self.old (is_ok result) self.new }
        ensures next { IfErr result (IsNext (λ s. all_packets s (s.first + i)) self.old self.new) }
    {
        self.packets(i, 0)?;
        self.packets(i, 1)?;
        self.packets(i, 2)?;
        self.packets(i, 3)
    }

    /// The bytes that wait are taken.
    fn all_takes(&mut self, i: usize) -> Result<(), TurnFault>
        requires { i < self.old.share.owned }
        ensures phase { Phased (λ s. all_takes s (s.first + i)) self.old (is_ok result) self.new }
        ensures next { IfErr result (IsNext (λ s. all_takes s (s.first + i)) self.old self.new) }
    {
        self.take(i, 0)?;
        self.take(i, 1)?;
        self.take(i, 2)?;
        self.take(i, 3)
    }

    /// The next bytes of the outputs are sent.
    fn all_sends(&mut self, i: usize) -> Result<(), TurnFault>
        requires { i < self.old.share.owned }
        ensures phase { Phased (λ s. all_sends s (s.first + i)) self.old (is_ok result) self.new }
        ensures next { IfErr result (IsNext (λ s. all_sends s (s.first + i)) self.old self.new) }
    {
        self.send(i, 0)?;
        self.send(i, 1)?;
        self.send(i, 2)?;
        self.send(i, 3)
    }

    /// Runs until none is enabled, or `slice` are done.
    fn runs(&mut self, i: usize, slice: u32) -> Result<(), TurnFault>
        requires { i < self.old.share.owned }
        ensures phase { Phased (λ s. runs_of s slice (s.first + i)) self.old (is_ok result) self.new }
        ensures next { IfErr result (IsNext (λ s. runs_of s slice (s.first + i)) self.old self.new) }
    {
        let mut left = slice;
        while left > 0 {
            let done = self.run(i, left)?;
            if done == 0 {
                return Ok(());
            }
            left -= done;
        }
        Ok(())
    }

    /// The part of one node in a turn.
    fn node_turn(&mut self, i: usize, slice: u32) -> Result<(), TurnFault>
        requires { i < self.old.share.owned }
        ensures phase { Phased (λ s. NodeTurn s slice (s.first + i)) self.old (is_ok result) self.new }
        ensures next { IfErr result (IsNext (λ s. NodeTurn s slice (s.first + i)) self.old self.new) }
    {
        self.all_packets(i)?;
        self.all_takes(i)?;
        self.runs(i, slice)?;
        self.all_sends(i)
    }

    /// All nodes in a turn.
    #[inline(never)]
    fn nodes_turn(&mut self, slice: u32) -> Result<(), TurnFault>
        ensures phase { Phased (λ s. IsTurn s slice) self.old (is_ok result) self.new }
        ensures next { IfErr result (IsNext (λ s. IsTurn s slice) self.old self.new) }
    {
        for i in 0..self.nodes() {
            self.node_turn(i, slice)?;
        }
        Ok(())
    }

    /// A turn over all its nodes: of each, at most two packets of each link, then the bytes that wait, then runs,
    /// at most `slice`, then the next bytes of its outputs. Of a source or a sink no run is ever enabled. It waits for
    /// nobody.
    ///
    /// # Errors
    /// `OutOfMemory`, or `ClockFull` where the stamp of the next event would not fit. The events that were done
    /// stand, and the next one is not done: its packet is still in its ring. A later turn goes on from there.
    pub fn turn(&mut self, slice: u32) -> Result<Turned, TurnFault>
        ensures same { self.new.share ≡ self.old.share }
        ensures turn { IsTurn self.old.share slice self.old.events (is_ok result) self.new.events }
        ensures nodes { AreLeft self.new }
        ensures next { IfErr result (IsNext (λ s. IsTurn s slice) self.old self.new) }
        ensures extends { Extends self.old.events self.new.events }
        ensures events { IfOk result (λ t. length self.new.events ≡ length self.old.events + t.events) }
    {
        let before = self.events();
        let ending = self.nodes_turn(slice);
        let events = (self.events() - before) as u64;
        ending?;
        Ok(Turned { events })
    }
}
