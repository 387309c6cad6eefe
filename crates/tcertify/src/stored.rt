//! The words of a node's memory.

ghost use Rattle.std.specs.Prelude.{◌*◌, ◌+◌, ◌^◌, ◌≤◌, length};
ghost use Rattle.tword.specs.Accesses.{IsMemorySize};
ghost use Rattle.tword.specs.declared.kind.Kind.TheVariants.{Two};

use crate::cells::Cells;
use crate::notes::Notes;
use crate::word_use::WordUse;
use tword::Kind;

/// A word of a node's memory.
#[derive(Clone, Copy)]
pub struct StoredWord {
    /// Its bytes.
    pub cells: Cells,
    /// What it is in use for.
    pub used: WordUse,
    /// How many pending outputs of links have a byte of it.
    pub sending: u8,
}

const _: () = prove!(size_of::<StoredWord>() == 7);

/// The words of a node's memory, from the lowest address on.
#[derive(Drop)]
pub struct Words {
    pub items: Vec<StoredWord>,
    /// The number of the node.
    pub number: u32,
    /// Its kind.
    pub kind: Kind,
    /// The number of the place of its first word. Those of the others follow.
    pub first_place: u32,
    /// What the current step has touched.
    pub notes: Notes,
    ghost sized: { IsMemorySize Two (4 * length items.items) },
    ghost numbered: { first_place + length items.items ≤ 2 ^ 32 },
}
