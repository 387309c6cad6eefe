//! The workspaces of a node.

ghost use Rattle.tcertify.specs.Finding.{AreApart};
ghost use Rattle.tcertify.specs.Lives.{workspace_of};

use crate::address_hints::AddressHints;
use crate::life::Life;

/// The workspaces at which processes of a node live or have lived.
#[derive(Drop)]
pub struct Lives {
    pub items: Vec<Life>,
    pub hints: AddressHints,
    ghost apart: { AreApart workspace_of items.items },
}
