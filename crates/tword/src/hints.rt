//! Where to look first for a process.

use crate::limits::MOST_NEG;
use crate::word::Word;
use std::alloc::{AllocError, Global};

/// For each process that is queued or waits, where it was put in a list: a table with a hint for each two words of a
/// memory. The workspaces of two such processes lie three words apart or more, so no two share one. It is only a hint,
/// which whoever takes it has to check: the process may have gone, or be one outside the memory or of another priority.
#[derive(Drop)]
pub struct Hints {
    places: Vec<u16>,
}

impl Hints {
    /// A table without hints, for a memory of `size` bytes. A workspace may begin behind its end.
    ///
    /// # Errors
    /// Where the allocator refuses.
    pub fn new(alloc: Global, size: u32) -> Result<Hints, AllocError> {
        let places = vec![in alloc; 0; size as usize / 8 + 1]?;
        Ok(Hints { places })
    }

    /// A copy of the hints.
    ///
    /// # Errors
    /// Where the allocator refuses.
    pub fn try_copy(&self, alloc: Global) -> Result<Hints, AllocError> {
        let places = Vec::from_slice(alloc, self.places.as_slice())?;
        Ok(Hints { places })
    }

    /// Where a process was put, if it was and no other has taken its hint.
    #[inline]
    pub fn of(&self, process: Word) -> u16 {
        match self.places.get(hint_of(process)) {
            Some(place) => *place,
            None => 0,
        }
    }

    /// Notes where a process was put.
    #[inline]
    pub fn note(&mut self, process: Word, place: u16) {
        if let Some(hint) = self.places.get_mut(hint_of(process)) {
            *hint = place;
        }
    }
}

/// Where the hint for a process stands, if it has one.
#[inline]
fn hint_of(process: Word) -> usize {
    (process.get().wrapping_sub(MOST_NEG) / 8) as usize
}
