//! The processes of a node.

use crate::standing::Stand;
use tword::Word;

/// Where the name of a process begins.
#[derive(Clone, Copy, Debug)]
pub enum Root {
    /// At a process of the image, by its number.
    Image(u32),
    /// At a successor, by its workspace and by how many successors went on there before it.
    After { workspace: Word, earlier: u32 },
}

/// A process of a node.
#[derive(Drop)]
pub struct Process {
    pub root: Root,
    /// The numbers of the children that lead to it from the root, the last one last.
    pub path: Vec<u32>,
    /// Where it stands.
    pub stand: Stand,
    /// The channels that it has enabled, by their addresses, the newest one first.
    pub ports: Vec<u32>,
    /// The number of the places of where it stands and of its channels.
    pub place: u32,
}
