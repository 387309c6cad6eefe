//! Bytes that wait to be written.

ghost use Rattle.std.specs.Prelude.{◌≡◌, ◌≤◌, ◌+◌, ◌++◌, ◌↔◌, List, [], ℕ, length, take, IsTrue};

use std::marker::Model;

/// At most `N` bytes that wait, on the stack.
#[derive(Drop)]
pub(crate) struct Waiting<const N: usize> {
    bytes: [u8; N],
    count: usize,
}

impl<const N: usize> Model for Waiting<N> {
    ghost Value = { List ℕ };

    ghost view = { λ w. take w.count w.bytes };

    ghost invariant = { λ w. w.count ≤ N };
}

impl<const N: usize> Waiting<N> {
    /// A buffer in which no byte waits.
    pub(crate) fn new() -> Waiting<N>
        ensures { result ≡ [] }
    {
        Waiting {
            bytes: [0; N],
            count: 0,
        }
    }

    /// The bytes that wait.
    #[inline]
    pub(crate) fn as_slice(&self) -> &[u8]
        ensures { result.now ≡ self.now }
    {
        &self.bytes[..self.count]
    }

    /// Whether there is room for `count` more.
    #[inline]
    pub(crate) fn has_room(&self, count: usize) -> bool
        ensures { IsTrue result ↔ (length self.now + count ≤ N) }
    {
        count <= N - self.count
    }

    /// More bytes wait.
    #[inline]
    pub(crate) fn keep(&mut self, bytes: &[u8])
        requires { length self.old + length bytes.now ≤ N }
        ensures { self.new ≡ self.old ++ bytes.now }
    {
        let end = self.count + bytes.len();
        let places = &mut self.bytes[..];
        places[self.count..end].copy_from_slice(bytes);
        self.count = end;
    }

    /// No byte waits any longer.
    pub(crate) fn clear(&mut self)
        ensures { self.new ≡ [] }
    {
        self.count = 0;
    }
}
