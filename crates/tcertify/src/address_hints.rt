//! Where to look first for what lies at an address.

use std::alloc::{AllocError, Global};
use tword::Word;
use tword::limits::MOST_NEG;

/// How many bytes of a memory share a hint.
const HINT_BYTES: usize = 8;

/// How many hints a page has.
const PAGE_HINTS: usize = 512;

/// Where to look first for what lies at an address, a workspace or a channel: a hint for each two words of a memory, in
/// pages that are made when a hint in them is first noted. It is only a hint, which whoever takes it has to check: two
/// addresses may share one, and none is noted where the allocator refuses a page.
#[derive(Drop)]
pub struct AddressHints {
    pages: Vec<Vec<u16>>,
}

impl AddressHints {
    /// No hints, for a memory of `size` bytes. A workspace may begin behind its end.
    ///
    /// # Errors
    /// Where the allocator refuses.
    pub fn new(alloc: Global, size: u32) -> Result<AddressHints, AllocError> {
        let count = size as usize / HINT_BYTES / PAGE_HINTS + 1;
        let mut pages = Vec::with_capacity(alloc, count)?;
        for _ in 0..count {
            pages.push(Vec::new(alloc))?;
        }
        Ok(AddressHints { pages })
    }

    /// The hint for an address; 0 where none was noted.
    #[inline(always)]
    pub fn of(&self, address: Word) -> u16 {
        let number = hint_number(address);
        let Some(page) = self.pages.get(number / PAGE_HINTS) else {
            return 0;
        };
        match page.get(number % PAGE_HINTS) {
            Some(hint) => *hint,
            None => 0,
        }
    }

    /// Notes the hint for an address, if it has one and the allocator does not refuse its page.
    pub fn note(&mut self, address: Word, hint: u16) {
        let number = hint_number(address);
        let Some(page) = self.pages.get_mut(number / PAGE_HINTS) else {
            return;
        };
        if page.is_empty() && page.resize(PAGE_HINTS, 0).is_err() {
            return;
        }
        if let Some(place) = page.get_mut(number % PAGE_HINTS) {
            *place = hint;
        }
    }
}

/// The number of the hint for an address. It lies behind all pages, or in the last one, where the address is outside
/// the memory.
#[inline(always)]
fn hint_number(address: Word) -> usize {
    address.get().wrapping_sub(MOST_NEG) as usize / HINT_BYTES
}
