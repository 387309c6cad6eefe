//! The workspaces of a node's processes.

use tword::Word;

/// A workspace at which processes live or have lived.
#[derive(Clone, Copy)]
pub struct Life {
    /// Its address.
    pub workspace: Word,
    /// How many processes have it.
    pub count: i32,
    /// The number of the place of this count.
    pub count_place: u32,
    /// How many successors went on there.
    pub successors: u32,
    /// The number of the place of how many successors went on there.
    pub successors_place: u32,
}
