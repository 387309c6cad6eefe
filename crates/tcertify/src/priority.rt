//! The priority of a process.

/// The priority of a process. Definitions have a number for it: 0 is high, 1 is low.
#[derive(Clone, Copy, Debug, PartialEq, Eq)]
pub enum Priority {
    High,
    Low,
}
