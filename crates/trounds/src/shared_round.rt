//! A round that workers share.

ghost use Rattle.std.specs.Prelude.{◌<◌};

use crate::rule::RoundRule;

/// A round that workers share, each of which enters at the gate.
#[derive(Drop)]
pub struct SharedRound<'a, G> {
    pub gate: &'a G,
    pub rule: RoundRule<'a>,
    /// How many nodes a worker has, the last one at most.
    pub size: usize,
    pub ghost some: { 0 < size },
}
