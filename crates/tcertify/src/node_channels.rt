//! The halves of a node's channels and links.

ghost use Rattle.std.specs.Prelude.{ℕ, ◌≡◌, ◌<◌, Ok, IfOk, List, None, length};
ghost use Rattle.tplan.specs.Wires.{end_at};
ghost use Rattle.tprocesses.specs.Changes.{Put};
ghost use Rattle.tprocesses.specs.Machine.{is_due_at, is_met_at};
ghost use Rattle.tprocesses.specs.Places.{Name};
ghost use Rattle.tprocesses.specs.Parts.{change, done, see};
ghost use Rattle.tprocesses.specs.Places as place;
ghost use Rattle.tprocesses.specs.Standing as spec;
ghost use Rattle.tprocesses.specs.Values.{IsHalf, IsLink};
ghost use Rattle.tcertify.specs.Channels.{IsKnownHalf, IsKnownHolder, address_of, holder_of, link_of};
ghost use Rattle.tcertify.specs.Finding.{IsFound};
ghost use Rattle.tcertify.specs.Contexts.{lent_of};
ghost use Rattle.tcertify.specs.Nodes.{Does, RunsAt, address_at, link_place, names, node_site, nothing};
ghost use Rattle.tcertify.specs.Sides.{side_of};
ghost use Rattle.tcertify.specs.Words.{told};

use crate::channel::{Holder, LinkHalf};
use crate::context::Lent;
use crate::fault::Fault;
use crate::lead::Lead;
use crate::node::Node;
use crate::node_lives::next_place;
use crate::notes::Mode;
use crate::side::Side;
use crate::stop::Stop;
use tword::Word;

/// Whether a wire may go on at a half of a link: a process waits there for a message, or at the input for several
/// channels.
#[inline(always)]
fn is_due(side: Side, half: &LinkHalf) -> bool
    ensures { (names : List Name) → result ≡ is_due_at (side_of side) (link_of names half.now) }
{
    match half {
        LinkHalf::Offered(_) => true,
        LinkHalf::Awaited(_) => matches!(side, Side::Input),
        LinkHalf::Empty | LinkHalf::Enabled(_) | LinkHalf::Fired(_) => false,
    }
}

/// Whether a channel may go on at a half with this holder: a process waits there for a message, or at the input for
/// several channels.
#[inline(always)]
fn is_met(side: Side, holder: &Holder) -> bool
    ensures { (node channel : ℕ) (names : List Name) → result
        ≡ is_met_at (place.Half node channel (side_of side)) (holder_of names holder.now) }
{
    match holder {
        Holder::Taken(_) => true,
        Holder::Awaited(_) => matches!(side, Side::Input),
        Holder::Nobody | Holder::Enabled(_) => false,
    }
}

impl Node {
    /// The number of the channel at an address, which is added if it was not there.
    ///
    /// # Errors
    /// `OutOfMemory`.
    pub fn channel_at(&mut self, address: Word) -> Result<u32, Fault>
        ensures done { Does done (λ _. tt) self.old result self.new }
        ensures there { IfOk result (λ k. (k < length self.new.channels.items.items)
            × (address_at self.new k ≡ address)) }
        ensures processes { self.new.processes.items.items ≡ self.old.processes.items.items }
    {
        if let Some(number) = self.channels.find(address) {
            let Ok(found) = u32::try_from(number) else {
                return Err(Fault::OutOfMemory);
            };
            return Ok(found);
        }
        self.adds_channel(address)
    }

    /// Adds a channel, and gives its number.
    ///
    /// # Errors
    /// `OutOfMemory`.
    fn adds_channel(&mut self, address: Word) -> Result<u32, Fault>
        requires { IsFound address_of address self.old.channels.items.items None }
        ensures done { Does done (λ _. tt) self.old result self.new }
        ensures there { IfOk result (λ k. (k < length self.new.channels.items.items)
            × (address_at self.new k ≡ address)) }
        ensures processes { self.new.processes.items.items ≡ self.old.processes.items.items }
    {
        let Ok(number) = u32::try_from(self.channels.items.len()) else {
            return Err(Fault::OutOfMemory);
        };
        let Some(input_place) = next_place(&mut self.fresh_place) else {
            return Err(Fault::OutOfMemory);
        };
        let Some(output_place) = next_place(&mut self.fresh_place) else {
            return Err(Fault::OutOfMemory);
        };
        self.channels.push(address, input_place, output_place)?;
        Ok(number)
    }

    /// Who has a half of a channel.
    #[inline(always)]
    pub fn half(&mut self, channel: u32, side: Side) -> Holder
        requires { channel < length self.old.channels.items.items }
        ensures looks { RunsAt (see (place.Half self.old.words.number (address_at self.old channel) (side_of side)))
            self.old
            (Ok (IsHalf (holder_of (names self.old) result))) self.new }
        ensures known { IsKnownHolder (length self.old.processes.items.items) result }
        ensures processes { self.new.processes.items.items ≡ self.old.processes.items.items }
    {
        let half = self.channels.items[channel as usize].half(side);
        self.words.notes.add(half.place, Mode::Looks);
        if !is_met(side, &half.holder) {
            self.note_lead(Lead::Channel(channel));
        }
        half.holder
    }

    /// Somebody has a half of a channel now, or nobody.
    #[inline(always)]
    pub fn set_half(&mut self, channel: u32, side: Side, holder: Holder)
        requires there { channel < length self.old.channels.items.items }
        requires known { IsKnownHolder (length self.old.processes.items.items) holder }
        ensures sets { RunsAt (change (place.Half self.old.words.number (address_at self.old channel) (side_of side))
            (Put (IsHalf (holder_of (names self.old) holder)))) self.old (Ok tt) self.new }
        ensures processes { self.new.processes.items.items ≡ self.old.processes.items.items }
    {
        let place = self.channels.set_half(channel as usize, side, holder);
        self.words.notes.add(place, Mode::Puts);
    }

    /// The number of the place of a half of a link.
    #[inline(always)]
    fn link_place(&self, link: u32, side: Side) -> u32
        requires { link < 4 }
        ensures { result ≡ link_place self.now link side }
    {
        match side {
            Side::Input => self.fixed_place + 6 + link,
            Side::Output => self.fixed_place + 10 + link,
        }
    }

    /// What pends at a half of a link.
    #[inline(always)]
    pub fn link_half(&mut self, link: u32, side: Side) -> LinkHalf
        requires { link < 4 }
        ensures looks { RunsAt (see (place.LinkHalf (end_at self.old.words.number link) (side_of side))) self.old
            (Ok (IsLink (link_of (names self.old) result))) self.new }
        ensures known { IsKnownHalf (length self.old.processes.items.items) result }
        ensures processes { self.new.processes.items.items ≡ self.old.processes.items.items }
    {
        let half = self.links.half(link, side);
        let place = self.link_place(link, side);
        self.words.notes.add(place, Mode::Looks);
        if !is_due(side, &half) {
            self.note_lead(Lead::Link { link, side });
        }
        half
    }

    /// What pends at a half of a link now.
    #[inline(always)]
    pub fn set_link_half(&mut self, link: u32, side: Side, half: LinkHalf)
        requires there { link < 4 }
        requires known { IsKnownHalf (length self.old.processes.items.items) half }
        ensures sets { RunsAt (change (place.LinkHalf (end_at self.old.words.number link) (side_of side))
            (Put (IsLink (link_of (names self.old) half)))) self.old (Ok tt) self.new }
        ensures processes { self.new.processes.items.items ≡ self.old.processes.items.items }
    {
        self.links.set_half(link, side, half);
        let place = self.link_place(link, side);
        self.words.notes.add(place, Mode::Puts);
    }
}
