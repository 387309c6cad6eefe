//! The buffers of pending link messages.

ghost use Rattle.std.specs.Prelude.{◌≡◌, ◌+◌, ◌<◌, ◌≤◌, None, Some, replicate, slice_set, slice_index_or};
ghost use Rattle.std.specs.Prelude.{length, true, false};
ghost use Rattle.std.specs.List.{list_any};
ghost use Rattle.tword.specs.Claims.{overlaps_claim};
ghost use Rattle.tword.specs.Bounds.{IsWithin, AreWithin, meets};
ghost use Rattle.tword.specs.Bounds as spec;
ghost use Rattle.tword.specs.Slots.{claims_in as spec_claims_in};

use crate::claim_table::claims_word;
use crate::span::Span;
use std::marker::Model;

/// Bounds that have room for nothing.
const NOTHING: (u64, u64) = (u64::MAX, 0);

/// The buffers that the inputs, or the outputs, of the four links claim. Contracts see them by link.
///
/// `bounds` has those of each, and `low` and `high` bound them all, so that most spans need no look at each. The
/// latter are taken again with each change.
#[derive(Drop)]
pub struct LinkBuffers {
    claimed: [Option<Span>; 4],
    bounds: [(u64, u64); 4],
    low: u64,
    high: u64,
}

impl Model for LinkBuffers {
    ghost use Rattle.std.specs.Prelude.{List, Option};
    ghost use Rattle.tword.specs.declared.span.Span.{Span};
    ghost use Rattle.std.specs.Prelude.{◌≡◌, map};
    ghost use Rattle.tword.specs.Bounds.{AreWithin, bounds_of};

    ghost Value = { List (Option Span) };

    ghost view = { λ b. b.claimed };

    ghost invariant = { λ b. AreWithin b.low b.high b.claimed × (b.bounds ≡ map bounds_of b.claimed) };
}

/// Bounds that have room for one more claim.
fn widened(bounds: (u64, u64), claim: &Option<Span>) -> (u64, u64)
    ensures low { result.0 ≤ bounds.0 }
    ensures high { bounds.1 ≤ result.1 }
    ensures within { IsWithin result.0 result.1 claim.now }
{
    let (low, high) = bounds;
    match claim {
        Some(span) => {
            let (start, end) = span.bounds();
            let low = if start < low { start } else { low };
            let high = if high < end { end } else { high };
            (low, high)
        }
        None => (low, high),
    }
}

/// The bounds of what is claimed, or bounds that have room for nothing.
fn bounds_of(claim: &Option<Span>) -> (u64, u64)
    ensures { result ≡ spec.bounds_of claim.now }
{
    match claim {
        Some(span) if span.size != 0 => span.bounds(),
        _ => NOTHING,
    }
}

/// Bounds of all that is claimed: the least address and the one behind the last.
fn bounds_of_all(claimed: &[Option<Span>]) -> (u64, u64)
    ensures { AreWithin result.0 result.1 claimed.now }
{
    let mut bounds = NOTHING;
    for claim in claimed {
        bounds = widened(bounds, claim);
    }
    bounds
}

/// How many of some claims have the word of this number.
fn claims_in(claimed: &[Option<Span>], word: u64) -> u16
    requires { length claimed.now ≡ 4 }
    ensures is { result ≡ spec_claims_in word claimed.now }
    ensures few { result ≤ 4 }
{
    let mut count = 0;
    for claim in claimed {
        count += claims_word(claim, word);
    }
    count
}

impl LinkBuffers {
    /// The buffers where no link claims any.
    pub fn new() -> LinkBuffers
        ensures { result ≡ replicate 4 None }
    {
        LinkBuffers {
            claimed: [None; 4],
            bounds: [NOTHING; 4],
            low: NOTHING.0,
            high: NOTHING.1,
        }
    }

    /// A copy of the buffers.
    pub fn copied(&self) -> LinkBuffers
        ensures { result ≡ self.now }
    {
        let mut claimed = [None; 4];
        claimed.copy_from_slice(&self.claimed);
        let mut bounds = [NOTHING; 4];
        bounds.copy_from_slice(&self.bounds);
        LinkBuffers {
            claimed,
            bounds,
            low: self.low,
            high: self.high,
        }
    }

    /// Whether the bounds of all that is claimed show that the span has no byte in common with it.
    #[inline(always)]
    fn is_clear_of(&self, span: &Span) -> bool
        ensures { result ≡ true → list_any (overlaps_claim span.now) self.now ≡ false }
    {
        let (start, end) = span.bounds();
        self.high <= start || end <= self.low
    }

    /// Whether a buffer that a link claims has a byte in common with the span.
    #[inline(always)]
    pub fn overlap(&self, span: &Span) -> bool
        ensures { result ≡ list_any (overlaps_claim span.now) self.now }
    {
        !self.is_clear_of(span) && self.overlap_closely(span)
    }

    /// Whether a buffer that a link claims has a byte in common with the span, by a look at each.
    #[inline(always)]
    fn overlap_closely(&self, span: &Span) -> bool
        ensures { result ≡ list_any (overlaps_claim span.now) self.now }
    {
        let (start, end) = span.bounds();
        start < end && any_meets(&self.bounds, start, end)
    }

    /// How many of the buffers have a byte of the word of this number.
    pub fn count(&self, word: u64) -> u16
        ensures is { result ≡ spec_claims_in word self.now }
        ensures few { result ≤ 4 }
    {
        claims_in(&self.claimed, word)
    }

    /// The link claims a buffer. What it claimed before is handed back.
    pub fn claim(&mut self, link: u8, span: Span) -> Option<Span>
        requires { link < 4 }
        ensures claimed { self.new ≡ slice_set self.old link (Some span) }
        ensures before { result ≡ slice_index_or self.old link None }
    {
        self.put(link, Some(span))
    }

    /// The link claims no buffer. What it claimed before is handed back.
    pub fn release(&mut self, link: u8) -> Option<Span>
        requires { link < 4 }
        ensures claimed { self.new ≡ slice_set self.old link None }
        ensures before { result ≡ slice_index_or self.old link None }
    {
        self.put(link, None)
    }

    /// The link claims a buffer or none. What it claimed before is handed back.
    fn put(&mut self, link: u8, claim: Option<Span>) -> Option<Span>
        requires { link < 4 }
        ensures claimed { self.new ≡ slice_set self.old link claim }
        ensures before { result ≡ slice_index_or self.old link None }
    {
        let before = self.claimed[usize::from(link)];
        self.bounds[usize::from(link)] = bounds_of(&claim);
        self.claimed[usize::from(link)] = claim;
        (self.low, self.high) = bounds_of_all(&self.claimed);
        before
    }
}

/// Whether one of some bounds has room for a byte from `start` up to that before `end`.
#[inline(always)]
fn any_meets(all: &[(u64, u64)], start: u64, end: u64) -> bool
    ensures { result ≡ list_any (meets start end) all.now }
{
    all.iter().any(|bounds| start < bounds.1 && bounds.0 < end)
}
