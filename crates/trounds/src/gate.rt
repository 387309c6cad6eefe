//! What the workers of a round pass before their shares.

ghost use Rattle.std.specs.Prelude.{ℕ};

/// What each worker calls, once before its share of a round.
pub trait Gate {
    /// A worker has entered a round. It says nothing by itself: only a call of `enter` gives it, and each share asks
    /// for it.
    ghost has_entered: { Self → ℕ → ℕ → Type 0 };

    /// A worker, from 0 on, begins its share of a round, from 0 on.
    fn enter(&self, worker: usize, round: u32)
        ensures { has_entered self.now worker round };
}

/// A gate that is always open.
#[derive(Drop)]
pub struct Open;

impl Gate for Open {
    ghost has_entered = { λ _ _ _. Unit {0} };

    fn enter(&self, _worker: usize, _round: u32) {}
}
