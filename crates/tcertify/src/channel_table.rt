//! The internal channels of a node.

ghost use Rattle.tcertify.specs.Channels.{address_of};
ghost use Rattle.tcertify.specs.Finding.{AreApart};

use crate::address_hints::AddressHints;
use crate::channel::Channel;

/// The internal channels of a node of which a half was ever looked at.
#[derive(Drop)]
pub struct Channels {
    pub items: Vec<Channel>,
    pub hints: AddressHints,
    ghost apart: { AreApart address_of items.items },
}
