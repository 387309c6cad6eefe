//! Berths of a node.

use tclocks::Step;

/// A place at a node for one process at a time, which processes take by turns.
#[derive(Clone, Copy, Debug)]
pub struct Berth {
    pub is_free: bool,
    /// The last step that took or left it, if there is one.
    pub last: Option<Step>,
}
