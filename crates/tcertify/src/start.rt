//! How a process begins.

/// How a process begins.
#[derive(Clone, Copy, Debug)]
pub enum Start {
    /// It is ready, and its words are saved: one that another process has started.
    Rests,
    /// It is ready: one that goes on where others have ended.
    Runs,
}
