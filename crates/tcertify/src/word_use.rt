//! What a word of a memory is in use for.

ghost use Rattle.std.specs.Prelude.{ℕ, ◌≡◌, IfSome, None};
ghost use Rattle.tprocesses.specs.Values.{Last};
ghost use Rattle.tcertify.specs.Words.{number_of, use_of};

use crate::priority::Priority;

/// What a word is in use for.
#[derive(Clone, Copy, Debug, PartialEq, Eq)]
pub enum WordUse {
    /// Nothing: programs may use it.
    Free,
    /// It is a saved word of a process that does not run.
    Saved,
    /// It lies in the buffer of an input of a link that is pending.
    Receiving,
    /// It is an internal channel on which a process waits.
    Engaged,
    /// It is the state of an alternative that is under way.
    Choosing,
    /// It is the state of an alternative whose process waits, or was made to go on.
    Awaiting,
    /// It is the count of processes that end together: the last of them has ended, with high priority.
    LastHigh,
    /// It is the count of processes that end together: the last of them has ended, with low priority.
    LastLow,
    /// It has two uses that exclude each other: whoever looks at it stops.
    Spoilt,
}

impl WordUse {
    /// The use of the count of processes that end together, once the last of them has ended with this priority.
    #[inline(always)]
    pub fn last(priority: Priority) -> WordUse
        ensures { use_of result ≡ Last (number_of priority) }
    {
        match priority {
            Priority::High => WordUse::LastHigh,
            Priority::Low => WordUse::LastLow,
        }
    }

    /// The priority with which the last of the processes that end together has ended, where it is the use of their
    /// count and the last of them has.
    #[inline(always)]
    pub fn last_priority(self) -> Option<Priority>
        ensures some { IfSome result (λ priority. use_of self ≡ Last (number_of priority)) }
        ensures none { result ≡ None → (p : ℕ) → use_of self ≡ Last p → ⊥ }
    {
        match self {
            WordUse::LastHigh => Some(Priority::High),
            WordUse::LastLow => Some(Priority::Low),
            WordUse::Free
            | WordUse::Saved
            | WordUse::Receiving
            | WordUse::Engaged
            | WordUse::Choosing
            | WordUse::Awaiting
            | WordUse::Spoilt => None,
        }
    }
}
