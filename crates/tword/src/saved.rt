//! The workspaces whose words are saved.

ghost use Rattle.std.specs.Prelude.{◌≡◌, ◌+◌, ◌<◌, ◌≤◌, ◌==◌, ◌∷◌, ◌&&◌, not, IfOk, IfSome, length};
ghost use Rattle.std.specs.Prelude.{false, None, slice_index, reverse, ℕ, []};
ghost use Rattle.std.specs.List.{list_any};
ghost use Rattle.tword.specs.Claims.{overlap, saved_words};
ghost use Rattle.tword.specs.Limits.{most_processes};
ghost use Rattle.tword.specs.Slots.{IsPlaceIn, saved_in, saves_word};

use crate::hints::Hints;
use crate::limits::MOST_PROCESSES;
use crate::span::Span;
use crate::word::Word;
use std::alloc::{AllocError, Global};
use std::marker::Model;

/// The workspaces of the processes that are queued or wait. Contracts see them as a list, the one that came last at
/// its head.
///
/// The hints tell where to look first for a workspace.
#[derive(Drop)]
pub struct Saved {
    workspaces: Vec<Word>,
    hints: Hints,
}

impl Model for Saved {
    ghost use Rattle.std.specs.Prelude.{ℕ, List, reverse};
    ghost use Rattle.tword.specs.Limits.{most_processes};
    ghost use Rattle.tword.specs.Slots.{AreOnce};
    ghost use Rattle.std.specs.Prelude.{◌≤◌, vec_capacity};

    ghost Value = { List ℕ };

    ghost view = { λ s. reverse s.workspaces.items };

    ghost invariant = { λ s. AreOnce s.workspaces.items × (most_processes ≤ vec_capacity s.workspaces) };
}

impl Saved {
    /// A list without workspaces, with room for those of all processes, in a memory of `size` bytes. A workspace may
    /// begin behind its end.
    pub fn new(alloc: Global, size: u32) -> Result<Saved, AllocError>
        ensures { IfOk result (λ s. s ≡ []) }
    {
        Ok(Saved {
            workspaces: Vec::with_capacity(alloc, MOST_PROCESSES)?,
            hints: Hints::new(alloc, size)?,
        })
    }

    /// A copy of the list, with room for those of all processes.
    pub fn try_copy(&self, alloc: Global) -> Result<Saved, AllocError>
        ensures { IfOk result (λ s. s ≡ self.now) }
    {
        let mut workspaces = Vec::with_capacity(alloc, MOST_PROCESSES)?;
        workspaces.extend_from_slice(self.workspaces.as_slice())?;
        let hints = self.hints.try_copy(alloc)?;
        Ok(Saved { workspaces, hints })
    }

    /// The number of workspaces.
    #[inline]
    pub fn len(&self) -> usize
        ensures { result ≡ length self.now }
    {
        self.workspaces.len()
    }

    /// Where a workspace stands in the list, by its hint; nothing where the hint tells of another one.
    #[inline]
    pub fn noted(&self, workspace: Word) -> Option<usize>
        ensures { IfSome result (λ i. IsPlaceIn self.now i workspace) }
    {
        let place = usize::from(self.hints.of(workspace));
        if place < self.workspaces.len() && self.workspaces[place] == workspace {
            return Some(place);
        }
        None
    }

    /// Where a workspace stands in the list, by a search of it.
    #[cold]
    #[inline(never)]
    pub fn position(&self, workspace: Word) -> Option<usize>
        ensures found { IfSome result (λ i. IsPlaceIn self.now i workspace) }
        ensures none { result ≡ None → list_any (λ w. w == workspace) self.now ≡ false }
    {
        position(self.workspaces.as_slice(), workspace)
    }

    /// Whether a saved word has a byte in common with a span, by a search of the list.
    #[inline(never)]
    pub fn overlap(&self, span: &Span) -> bool
        ensures { result ≡ list_any (λ w. overlap span.now (saved_words w)) self.now }
    {
        any_overlaps(self.workspaces.as_slice(), span)
    }

    /// The words of one more workspace are saved.
    pub fn insert(&mut self, workspace: Word)
        requires room { length self.old < most_processes }
        requires apart { list_any (λ w. overlap (saved_words workspace) (saved_words w)) self.old ≡ false }
        ensures { self.new ≡ workspace ∷ self.old }
    {
        self.hints.note(workspace, self.workspaces.len() as u16);
        self.workspaces.push_reserved(workspace);
    }

    /// The words of the workspace at a place, which is handed back, are free again. The order of the others is left
    /// open.
    pub fn remove(&mut self, place: usize) -> Word
        requires { place < length self.old }
        ensures is { result ≡ slice_index (reverse self.old) place }
        ensures others { (v : ℕ)
            → list_any (λ w. w == v) self.new ≡ (not (v == result) && list_any (λ w. w == v) self.old) }
        ensures count { length self.new + 1 ≡ length self.old }
        ensures words { (word : ℕ) → saved_in word self.new + saves_word word result ≡ saved_in word self.old }
    {
        let workspace = self.workspaces.swap_remove(place);
        note_moved(&mut self.hints, self.workspaces.as_slice(), place);
        workspace
    }
}

/// Where a workspace stands in a list.
fn position(list: &[Word], workspace: Word) -> Option<usize>
    ensures found { IfSome result (λ i. (i < length list.now) × (slice_index list.now i ≡ workspace)) }
    ensures none { result ≡ None → list_any (λ w. w == workspace) list.now ≡ false }
{
    for (i, w) in list.iter().enumerate() {
        if *w == workspace {
            return Some(i);
        }
    }
    None
}

/// Whether a saved word of one of the list has a byte in common with the span.
fn any_overlaps(list: &[Word], span: &Span) -> bool
    ensures { result ≡ list_any (λ w. overlap span.now (saved_words w)) list.now }
{
    list.iter().any(|w| span.overlaps(&Span::saved_words(*w)))
}

/// Notes where the workspace stands that has come to a place, if one has.
fn note_moved(hints: &mut Hints, workspaces: &[Word], place: usize)
    requires { place < most_processes }
{
    if place < workspaces.len() {
        hints.note(workspaces[place], place as u16);
    }
}
