//! The words of a node before the first step.

ghost use Rattle.std.specs.Prelude.{◌≡◌, ◌<◌, ◌≤◌, ◌+◌, ◌/◌, ◌^◌, ◌∷◌, [], IfOk, false, fold, length};
ghost use Rattle.std.specs.List.{list_any};
ghost use Rattle.tword.specs.Accesses.{IsMemorySize};
ghost use Rattle.tprocesses.specs.Opening as spec;
ghost use Rattle.tcertify.specs.Cells.{cells_of};
ghost use Rattle.tcertify.specs.Opened.{AreOpened, IsOpened, IsOpenedAt, is_saved_below, is_unknown_below};
ghost use Rattle.tcertify.specs.Opened.{loaded_cells, opened_cells, opened_use, planned_site};
ghost use Rattle.tcertify.specs.Words.{site_of, use_of};

use crate::cells::Cells;
use crate::stored::{StoredWord, Words};
use crate::word_use::WordUse;
use std::alloc::{AllocError, Global};
use tplan::{NodePlan, Process, Segment};
use tproc::workspace_of;
use tword::limits::MOST_NEG;

/// The byte at an address after a segment was loaded. before: the byte that was there.
#[inline(always)]
fn after_segment(segment: &Segment, address: u32, before: u8) -> u8
    ensures { result ≡ spec.after_segment address before segment.now }
{
    let bytes = segment.bytes.as_slice();
    let start = segment.address.get();
    if start <= address {
        let place = (address - start) as usize;
        if place < bytes.len() {
            return bytes[place];
        }
    }
    before
}

/// The byte at an address with these segments loaded, later over earlier; where there is none, 0.
fn loaded_byte(segments: &[Segment], address: u32) -> u8
    ensures { result ≡ fold (spec.after_segment address) 0 segments.now }
{
    let mut byte = 0;
    for segment in segments {
        byte = after_segment(segment, address, byte);
    }
    byte
}

/// Whether a word at an address is one of the two highest saved words of a process.
#[inline(always)]
fn is_unknown_below(process: &Process, address: u32) -> bool
    ensures { result ≡ is_unknown_below address process.now }
{
    let workspace = workspace_of(process.wdesc);
    workspace.below(1).get() == address || workspace.below(2).get() == address
}

/// Whether a word at an address is one of the three saved words of a process.
#[inline(always)]
fn is_saved_below(process: &Process, address: u32) -> bool
    ensures { result ≡ is_saved_below address process.now }
{
    let workspace = workspace_of(process.wdesc);
    workspace.below(1).get() == address
        || workspace.below(2).get() == address
        || workspace.below(3).get() == address
}

/// Whether a word at an address is one of the two highest saved words of one of the processes.
fn is_unknown(processes: &[Process], address: u32) -> bool
    ensures { result ≡ list_any (is_unknown_below address) processes.now }
{
    let mut is_below = false;
    for process in processes {
        is_below = is_below || is_unknown_below(process, address);
    }
    is_below
}

/// Whether a word at an address is one of the three saved words of one of the processes.
fn is_saved(processes: &[Process], address: u32) -> bool
    ensures { result ≡ list_any (is_saved_below address) processes.now }
{
    let mut is_below = false;
    for process in processes {
        is_below = is_below || is_saved_below(process, address);
    }
    is_below
}

/// The bytes of the word at an address with the segments of a plan loaded.
fn loaded_cells(segments: &[Segment], address: u32) -> Cells
    requires { address + 3 < 2 ^ 32 }
    ensures { cells_of result ≡ loaded_cells segments.now address }
{
    let lowest = loaded_byte(segments, address);
    let second = loaded_byte(segments, address + 1);
    let third = loaded_byte(segments, address + 2);
    let highest = loaded_byte(segments, address + 3);
    Cells {
        bytes: [lowest, second, third, highest],
        known: 15,
    }
}

/// The bytes of the word at an address before the first step.
fn opened_cells(plan: &NodePlan, address: u32) -> Cells
    requires { address + 3 < 2 ^ 32 }
    ensures { cells_of result ≡ opened_cells plan.now address }
{
    if is_unknown(plan.image.processes.as_slice(), address) {
        return Cells::unknown();
    }
    loaded_cells(plan.image.segments.as_slice(), address)
}

/// What the word at an address is in use for before the first step.
fn opened_use(plan: &NodePlan, address: u32) -> WordUse
    ensures { use_of result ≡ opened_use plan.now address }
{
    if is_saved(plan.image.processes.as_slice(), address) {
        return WordUse::Saved;
    }
    WordUse::Free
}

/// The word of this number before the first step.
fn opened_word(plan: &NodePlan, number: u32) -> StoredWord
    requires { number < 2 ^ 29 }
    ensures { IsOpened plan.now number result }
{
    let address = MOST_NEG + 4 * number;
    let cells = opened_cells(plan, address);
    let used = opened_use(plan, address);
    StoredWord {
        cells,
        used,
        sending: 0,
    }
}

impl Words {
    /// The word of this number is as it is before the first step.
    #[inline(always)]
    fn open_word(&mut self, plan: &NodePlan, number: u32)
        requires there { number < length self.old.items.items }
        requires low { number < 2 ^ 29 }
        ensures { IsOpenedAt plan.now self.old number self.new }
    {
        self.items[number as usize] = opened_word(plan, number);
    }

    /// The words of a node of a plan before the first step, with the number of the place of the first of them. It takes
    /// as long as there are bytes times segments, and words times processes.
    ///
    /// # Errors
    /// Where the allocator refuses.
    pub fn open(
        alloc: Global,
        plan: &NodePlan,
        number: u32,
        first_place: u32,
    ) -> Result<Words, AllocError>
        requires memory { IsMemorySize plan.now.kind plan.now.memory }
        requires places { first_place + plan.now.memory / 4 ≤ 2 ^ 32 }
        ensures words { IfOk result (λ words. AreOpened plan.now words.items.items) }
        ensures site { IfOk result (λ words. site_of words ≡ planned_site plan.now number) }
        ensures first { IfOk result (λ words. words.first_place ≡ first_place) }
        ensures notes { IfOk result (λ words. (words.notes.items.items ≡ []) × (words.notes.is_lost ≡ false)) }
    {
        let count = plan.memory / 4;
        let mut words = Words::new(alloc, plan.memory, number, plan.kind, first_place)?;
        for index in 0..count {
            words.open_word(plan, index);
        }
        Ok(words)
    }
}
