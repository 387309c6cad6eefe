//! What the parts of a round depend on.

use tplan::Hold;

/// What each part of a round depends on.
#[derive(Clone, Copy)]
pub struct RoundRule<'a> {
    /// The packets that are held, in some rounds.
    pub holds: &'a [Hold],
    /// How many runs a node does at most.
    pub slice: u32,
    /// Which round it is, from 0 on.
    pub round: u32,
}
