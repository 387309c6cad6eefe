//! The two halves of a channel.

/// Which way a process uses a channel.
#[derive(Clone, Copy, Debug, PartialEq, Eq)]
pub enum Side {
    Input,
    Output,
}
