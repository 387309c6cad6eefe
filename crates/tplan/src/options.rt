//! What a run may be told besides its net.

/// How a run by rounds is done.
#[derive(Clone, Copy, Debug, PartialEq, Eq)]
pub struct Options {
    /// How many threads share the nodes of a round: 1 to 64.
    pub workers: usize,
    /// After how many rounds the run ends at the latest.
    pub rounds: u32,
    /// How many instructions and dispatches a node does in a round at most: 1 to 65,536.
    pub slice: u32,
}
