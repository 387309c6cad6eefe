//! Channels that are found by their addresses, and the halves of channels and links.

ghost use Rattle.std.specs.Prelude.{ℕ, ◌≡◌, ◌<◌, ◌++◌, ◌∷◌, [], IfOk, OnErr, OnOk, Some, None, length, slice_get};
ghost use Rattle.tcertify.specs.Channels.{AreEmpty, IsHalfSet, IsLinkSet, IsUnfinishedSet, address_of, free_channel};
ghost use Rattle.tcertify.specs.Channels.{half_of, halves_of};
ghost use Rattle.tcertify.specs.Finding.{IsFound};

use crate::address_hints::AddressHints;
use crate::channel::{Channel, Half, Holder, LinkHalf, Links};
use crate::channel_table::Channels;
use crate::side::Side;
use std::alloc::{AllocError, Global};
use tword::Word;

impl Channel {
    /// A half of the channel.
    #[inline(always)]
    pub fn half(&self, side: Side) -> Half
        ensures { result ≡ half_of side self.now }
    {
        match side {
            Side::Input => self.input,
            Side::Output => self.output,
        }
    }
}

impl Channels {
    /// No channels, for a memory of `size` bytes.
    ///
    /// # Errors
    /// Where the allocator refuses.
    pub fn new(alloc: Global, size: u32) -> Result<Channels, AllocError>
        ensures { IfOk result (λ channels. channels.items.items ≡ []) }
    {
        Ok(Channels {
            items: Vec::new(alloc),
            hints: AddressHints::new(alloc, size)?,
        })
    }

    /// The number of the channel at an address, by its hint.
    #[inline(always)]
    fn hinted(&self, address: Word) -> Option<usize>
        ensures { (k : ℕ) → result ≡ Some k → IsFound address_of address self.now.items.items (Some k) }
    {
        let number = self.hints.of(address) as usize;
        if number < self.items.len() {
            if self.items[number].address.get() == address.get() {
                return Some(number);
            }
        }
        None
    }

    /// The number of the channel at an address, if it has come up.
    fn searched(&self, address: Word) -> Option<usize>
        ensures { IsFound address_of address self.now.items.items result }
    {
        for number in 0..self.items.len() {
            if self.items[number].address.get() == address.get() {
                return Some(number);
            }
        }
        None
    }

    /// The number of the channel at an address, if it has come up.
    #[inline(always)]
    pub fn find(&mut self, address: Word) -> Option<usize>
        ensures found { IsFound address_of address self.new.items.items result }
        ensures items { self.new.items.items ≡ self.old.items.items }
    {
        if let Some(number) = self.hinted(address) {
            return Some(number);
        }
        let found = self.searched(address);
        if let Some(number) = found {
            if let Ok(hint) = u16::try_from(number) {
                self.hints.note(address, hint);
            }
        }
        found
    }

    /// One more channel, of which nobody has a half. Its halves have these places.
    ///
    /// # Errors
    /// Where the allocator refuses; nothing is changed then.
    pub fn push(
        &mut self,
        address: Word,
        input_place: u32,
        output_place: u32,
    ) -> Result<(), AllocError>
        requires { IsFound address_of address self.old.items.items None }
        ensures ok { OnOk result (self.new.items.items
            ≡ self.old.items.items ++ free_channel address input_place output_place ∷ []) }
        ensures err { OnErr result (self.new.items.items ≡ self.old.items.items) }
    {
        let input = Half {
            holder: Holder::Nobody,
            place: input_place,
        };
        let output = Half {
            holder: Holder::Nobody,
            place: output_place,
        };
        self.items.push(Channel {
            address,
            input,
            output,
        })?;
        Ok(())
    }

    /// Somebody has a half of a channel, or nobody. Answers the number of its place.
    #[inline(always)]
    pub fn set_half(&mut self, number: usize, side: Side, holder: Holder) -> u32
        requires { number < length self.old.items.items }
        ensures { IsHalfSet self.old.items.items number side holder result self.new.items.items }
    {
        let channel = &mut self.items[number];
        match side {
            Side::Input => {
                channel.input.holder = holder;
                channel.input.place
            }
            Side::Output => {
                channel.output.holder = holder;
                channel.output.place
            }
        }
    }
}

impl Links {
    /// Links at which nothing pends, and whose outputs are over.
    pub fn new() -> Links
        ensures { AreEmpty result }
    {
        Links {
            inputs: [LinkHalf::Empty; 4],
            outputs: [LinkHalf::Empty; 4],
            unfinished: [false; 4],
        }
    }

    /// A half of a link.
    #[inline(always)]
    pub fn half(&self, link: u32, side: Side) -> LinkHalf
        requires { link < 4 }
        ensures { slice_get (halves_of side self.now) link ≡ Some result }
    {
        match side {
            Side::Input => self.inputs[link as usize],
            Side::Output => self.outputs[link as usize],
        }
    }

    /// What pends at a half of a link now.
    #[inline(always)]
    pub fn set_half(&mut self, link: u32, side: Side, half: LinkHalf)
        requires { link < 4 }
        ensures { IsLinkSet self.old link side half self.new }
    {
        match side {
            Side::Input => self.inputs[link as usize] = half,
            Side::Output => self.outputs[link as usize] = half,
        }
    }

    /// Whether the message of an output has gone over, and its process has not gone on.
    #[inline(always)]
    pub fn is_unfinished(&self, link: u32) -> bool
        requires { link < 4 }
        ensures { slice_get self.now.unfinished link ≡ Some result }
    {
        self.unfinished[link as usize]
    }

    /// It has gone over now, or its process has gone on.
    #[inline(always)]
    pub fn set_unfinished(&mut self, link: u32, unfinished: bool)
        requires { link < 4 }
        ensures { IsUnfinishedSet self.old link unfinished self.new }
    {
        self.unfinished[link as usize] = unfinished;
    }
}
