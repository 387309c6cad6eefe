//! The messages of a script: those that a source has, or those that a sink has kept.

ghost use Rattle.std.specs.Prelude.{◌≡◌, [], ◌∷◌, ◌≤◌, length, sum, MatchOption};
ghost use Rattle.tlink.specs.Scripts.{cut};

use std::marker::Model;

/// The messages that a source has, or that a sink has kept, in order: those that were not taken from here yet.
#[derive(Drop)]
pub struct Messages<'a> {
    /// The length of each message.
    lengths: &'a [u32],
    /// The bytes of the messages, one message behind another.
    bytes: &'a [u8],
}

impl<'a> Model for Messages<'a> {
    ghost use Rattle.std.specs.Prelude.{ℕ, ◌≤◌, List, length, sum};
    ghost use Rattle.tlink.specs.Scripts.{cut};

    ghost Value = { List (List ℕ) };

    ghost view = { λ m. cut m.lengths.now m.bytes.now };

    ghost invariant = { λ m. sum m.lengths.now ≤ length m.bytes.now };
}

impl<'a> Messages<'a> {
    /// The messages of these lengths.
    pub fn new(lengths: &'a [u32], bytes: &'a [u8]) -> Self
        requires { sum lengths.now ≤ length bytes.now }
        ensures { result ≡ cut lengths.now bytes.now }
    {
        Messages { lengths, bytes }
    }

    /// The number of messages that were not taken yet.
    pub fn count(&self) -> usize
        ensures { result ≡ length self.now }
    {
        self.lengths.len()
    }

    /// Takes the first message, and leaves the others.
    pub fn take_first(&mut self) -> Option<&'a [u8]>
        ensures { MatchOption result ((self.old ≡ []) × (self.new ≡ [])) (λ m. self.old ≡ m.now ∷ self.new) }
    {
        if self.lengths.is_empty() {
            return None;
        }
        let size = self.lengths[0] as usize;
        let first = &self.bytes[..size];
        self.bytes = &self.bytes[size..];
        self.lengths = &self.lengths[1..];
        Some(first)
    }
}
