//! How many claims have each word of a memory.

ghost use Rattle.std.specs.Prelude.{◌≡◌, ◌+◌, ◌-◌, ◌%◌, ◌/◌, ◌*◌, ◌<◌, ◌≤◌, IfOk, IfSome, ℕ, length, slice_index};
ghost use Rattle.std.specs.Prelude.{None, Some, min, sum, true};
ghost use Rattle.tword.specs.Slots.{word_at, lowest_word, is_among, has_word};
ghost use Rattle.tword.specs.Slots as spec;
ghost use Rattle.tword.specs.Slots.{AreEmpty, Counts, CountsHaveRoom, IsEmpty, IsExchanged};

use crate::limits::MOST_NEG;
use crate::span::Span;
use crate::word::Word;
use std::alloc::{AllocError, Global};
use std::marker::Model;

/// The number of the word at #80000000, the lowest of a memory. Words are numbered from address 0 on, and as many lie
/// from there on as before.
const LOWEST: u64 = 1 << 29;

/// How many counts are added up at most: their sum has 32 bits.
const MOST_ADDED: u64 = 65_536;

/// For each word of a memory, how many claims have a byte of it: a touch of a word that none has needs no further look.
/// Words that are not in the table are not counted. Contracts see the counts by slot, the lowest word at slot 0.
#[derive(Drop)]
pub struct ClaimTable {
    counts: Vec<u16>,
}

impl Model for ClaimTable {
    ghost use Rattle.std.specs.Prelude.{◌≤◌, ℕ, List, length};
    ghost use Rattle.tword.specs.Slots.{lowest_word};

    ghost Value = { List ℕ };

    ghost view = { λ t. t.counts.items };

    ghost invariant = { λ t. length t.counts.items ≤ lowest_word };
}

impl ClaimTable {
    /// No claims, for a memory of `size` bytes: none has more than there are addresses from #80000000 on.
    pub fn new(alloc: Global, size: u32) -> Result<ClaimTable, AllocError>
        ensures zeros { IfOk result (λ t. (slot : ℕ) → slot < length t → slice_index t slot ≡ 0) }
        ensures sized { IfOk result (λ t. length t ≡ min (size / 4) lowest_word) }
    {
        let words = (size / 4).min(LOWEST as u32);
        Ok(ClaimTable {
            counts: vec![in alloc; 0; words as usize]?,
        })
    }

    /// A copy of the counts.
    pub fn try_copy(&self, alloc: Global) -> Result<ClaimTable, AllocError>
        ensures { IfOk result (λ t. t ≡ self.now) }
    {
        Ok(ClaimTable {
            counts: Vec::from_slice(alloc, self.counts.as_slice())?,
        })
    }

    /// Whether the span lies within one word, which is counted and which no claim has.
    #[inline(always)]
    pub fn is_clear_of(&self, span: &Span) -> bool
        ensures { result ≡ true → AreEmpty self.now span.now }
    {
        let address = span.start.get();
        u64::from(address % 4) + u64::from(span.size) <= 4
            && matches!(self.counts.get(slot_of(address)), Some(0))
    }

    /// Whether three whole words, from the one at an address on, are counted, and no claim has one of them.
    #[inline(always)]
    pub fn are_three_clear(&self, lowest: Word) -> bool
        requires { lowest % 4 ≡ 0 }
        ensures { result ≡ true → AreEmpty self.now (record { start = lowest; size = 12 }) }
    {
        let first = slot_of(lowest.get());
        first + 3 <= self.counts.len()
            && self.counts[first] == 0
            && self.counts[first + 1] == 0
            && self.counts[first + 2] == 0
    }

    /// The counts of `most` words, from slot `first` on; of fewer where the table ends before.
    #[inline(always)]
    pub fn from_slot(&self, first: usize, most: usize) -> &[u16]
        ensures few { length result.now ≤ most }
        ensures are { (k : ℕ) → k < length result.now → (first + k < length self.now)
            × (slice_index result.now k ≡ slice_index self.now (first + k)) }
        ensures sized { length result.now ≡ min most (length self.now - first) }
    {
        let slots = self.counts.len();
        if slots <= first {
            return &self.counts[..0];
        }
        &self.counts[first..first + most.min(slots - first)]
    }

    /// Whether words in a row, `MOST_ADDED` at most, are all counted, and no claim has one of them.
    pub fn are_empty(&self, first: u64, behind: u64) -> bool
        ensures { result ≡ true → (k : ℕ) → first ≤ k → k < behind → IsEmpty self.now k }
    {
        if behind <= first {
            return true;
        }
        if first < LOWEST
            || behind - LOWEST > self.counts.len() as u64
            || behind - first > MOST_ADDED
        {
            return false;
        }
        sum_of(&self.counts[(first - LOWEST) as usize..(behind - LOWEST) as usize]) == 0
    }

    /// How many claims have the word of this number, if it is counted.
    #[inline]
    pub fn count(&self, word: u64) -> Option<u16>
        ensures { IfSome result (λ count. Counts self.now word count) }
    {
        if word < LOWEST {
            return None;
        }
        self.counts.get((word - LOWEST) as usize).copied()
    }

    /// Counts one more claim, of a span.
    #[inline]
    pub fn raise(&mut self, span: &Span)
        requires room { CountsHaveRoom self.old }
        ensures { IsExchanged None (Some span.now) self.old self.new }
    {
        let counts = self.counts.as_mut_slice();
        let first = slot_of(span.start.get());
        if has_three_in_a_row(span, first, counts.len()) {
            count_three_up(counts, first);
        } else {
            let (first, behind) = slots_of(span, counts.len());
            count_up(counts, first, behind);
        }
    }

    /// Counts one claim less, of a span.
    #[inline]
    pub fn lower(&mut self, span: &Span)
        requires some { (slot : ℕ) → slot < length self.old
            → has_word (word_at slot) span.now ≤ slice_index self.old slot }
        ensures { IsExchanged (Some span.now) None self.old self.new }
    {
        let counts = self.counts.as_mut_slice();
        let first = slot_of(span.start.get());
        if has_three_in_a_row(span, first, counts.len()) {
            count_three_down(counts, first);
        } else {
            let (first, behind) = slots_of(span, counts.len());
            count_down(counts, first, behind);
        }
    }

    /// What a link claims comes in the place of what it claimed before.
    pub fn exchange(&mut self, before: &Option<Span>, claim: &Option<Span>)
        requires some { (slot : ℕ) → slot < length self.old
            → spec.claims_word (word_at slot) before.now ≤ slice_index self.old slot }
        requires room { CountsHaveRoom self.old }
        ensures { IsExchanged before.now claim.now self.old self.new }
    {
        if let Some(span) = before {
            self.lower(span);
        }
        if let Some(span) = claim {
            self.raise(span);
        }
    }
}

/// The slot of the word at an address; where that lies below #80000000, one that no table has.
#[inline]
fn slot_of(address: u32) -> usize
    ensures { result ≡ spec.slot_of address }
{
    (address.wrapping_sub(MOST_NEG) / 4) as usize
}

/// The sum of some counts, of all of them and without a look at each, so that several are added at a time.
fn sum_of(counts: &[u16]) -> u32
    requires { length counts.now ≤ MOST_ADDED }
    ensures { result ≡ sum counts.now }
{
    counts.iter().map(|count| u32::from(*count)).sum()
}

/// The slots of the words that a span has a byte of, in a table of `slots` slots: the first, and the one behind the
/// last.
#[inline]
fn slots_of(span: &Span, slots: usize) -> (usize, usize)
    ensures order { result.0 ≤ result.1 }
    ensures within { result.1 ≤ slots }
    ensures are { (slot : ℕ) → slot < slots → has_word (word_at slot) span.now ≡ is_among result.0 result.1 slot }
{
    if span.size == 0 {
        return (0, 0);
    }
    let (start, end) = span.bounds();
    let first = (start / 4).saturating_sub(LOWEST) as usize;
    let behind = ((end + 3) / 4).saturating_sub(LOWEST) as usize;
    (slots.min(first), slots.min(behind))
}

/// 1 where a claim has a byte of the word of this number, else 0.
#[inline]
pub fn claims_word(claim: &Option<Span>, word: u64) -> u16
    ensures is { result ≡ spec.claims_word word claim.now }
    ensures one { result ≤ 1 }
{
    match claim {
        Some(span) if span.size != 0 => {
            let (start, end) = span.bounds();
            u16::from(start / 4 <= word && word < (end + 3) / 4)
        }
        _ => 0,
    }
}

/// Whether a span is three whole words, as those of a workspace are, which have slots from the first on.
#[inline]
fn has_three_in_a_row(span: &Span, first: usize, slots: usize) -> bool
    requires slots { slots ≤ lowest_word }
    requires first { first ≡ spec.slot_of span.now.start }
    ensures within { result ≡ true → first + 3 ≤ slots }
    ensures are { result ≡ true → (slot : ℕ) → slot < slots
        → has_word (word_at slot) span.now ≡ is_among first (first + 3) slot }
{
    span.size == 12 && span.start.get() % 4 == 0 && first + 3 <= slots
}

/// Counts one more claim in each of three slots in a row: those of a workspace, without a loop.
#[inline(always)]
fn count_three_up(counts: &mut [u16], first: usize)
    requires within { first + 3 ≤ length counts.old }
    requires room { CountsHaveRoom counts.old }
    ensures { (slot : ℕ) → slot < length counts.old
        → slice_index counts.new slot ≡ slice_index counts.old slot + is_among first (first + 3) slot }
{
    counts[first] += 1;
    counts[first + 1] += 1;
    counts[first + 2] += 1;
}

/// Counts one claim less in each of three slots in a row.
#[inline(always)]
fn count_three_down(counts: &mut [u16], first: usize)
    requires within { first + 3 ≤ length counts.old }
    requires some { (slot : ℕ) → slot < length counts.old
        → is_among first (first + 3) slot ≤ slice_index counts.old slot }
    ensures { (slot : ℕ) → slot < length counts.old
        → slice_index counts.new slot + is_among first (first + 3) slot ≡ slice_index counts.old slot }
{
    counts[first] -= 1;
    counts[first + 1] -= 1;
    counts[first + 2] -= 1;
}

/// Counts one more claim in each slot from `first` up to the one before `behind`.
#[inline(never)]
fn count_up(counts: &mut [u16], first: usize, behind: usize)
    requires order { first ≤ behind }
    requires within { behind ≤ length counts.old }
    requires room { CountsHaveRoom counts.old }
    ensures { (slot : ℕ) → slot < length counts.old
        → slice_index counts.new slot ≡ slice_index counts.old slot + is_among first behind slot }
{
    for slot in first..behind {
        counts[slot] += 1;
    }
}

/// Counts one claim less in each slot from `first` up to the one before `behind`.
#[inline(never)]
fn count_down(counts: &mut [u16], first: usize, behind: usize)
    requires order { first ≤ behind }
    requires within { behind ≤ length counts.old }
    requires some { (slot : ℕ) → slot < length counts.old → is_among first behind slot ≤ slice_index counts.old slot }
    ensures { (slot : ℕ) → slot < length counts.old
        → slice_index counts.new slot + is_among first behind slot ≡ slice_index counts.old slot }
{
    for slot in first..behind {
        counts[slot] -= 1;
    }
}
