//! A step of the rendezvous machine, by where it happens.

use tplan::End;

/// A step of the rendezvous machine, by where it happens.
#[derive(Clone, Copy, Debug, PartialEq, Eq)]
pub enum Move {
    /// The next step of a node: its own, or the break that freezes it.
    Own(u32),
    /// This end notices the offer that is wired to it.
    Notice(End),
    /// The message that is wired to this end comes in there.
    Copy(End),
    /// The output of this end, which was copied, is over.
    Wake(End),
    /// The node of this end freezes, since it asks there for a message of another length than is offered.
    Mismatch(End),
}
