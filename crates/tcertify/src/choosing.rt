//! What alternatives ask of registers and of the bytes of words.

ghost use Rattle.std.specs.Prelude.{◌≡◌, not, ◌||◌, ◌==◌, is_none};
ghost use Rattle.tprocesses.specs.Changes.{known_word};
ghost use Rattle.tprocesses.specs.Choosing as spec;
ghost use Rattle.tprocesses.specs.Parts.{WordInUse, require};
ghost use Rattle.tprocesses.specs.Standing as standing;
ghost use Rattle.tcertify.specs.Cells.{cells_of};
ghost use Rattle.tcertify.specs.Contexts.{choice_in, choice_of, context_of};
ghost use Rattle.tcertify.specs.declared.node.Node as node;
ghost use Rattle.tcertify.specs.Nodes.{RunsAt, nothing};
ghost use Rattle.tcertify.specs.Standing.{stand_of};
ghost use Rattle.tcertify.specs.Words.{told};

use crate::cells::Cells;
use crate::context::{Choice, Context};
use crate::standing::Stand;
use crate::stop::Stop;
use tword::Word;

/// What stands at the workspace while no guard is chosen (the Compiler Writer's Guide: NoneSelected.o).
pub(crate) const NONE_SELECTED: u32 = 0xffff_ffff;

/// A value that decides.
///
/// # Errors
/// `SawTheScheduler` where it is not known.
pub(crate) fn known(value: Option<Word>) -> Result<Word, Stop>
    ensures { (a : node.Node) → RunsAt (standing.known value) a (told (λ n. n) result) a }
{
    let Some(known) = value else {
        return Err(Stop::SawTheScheduler);
    };
    Ok(known)
}

/// The alternative that is under way.
///
/// # Errors
/// `WordInUse` where there is none.
pub(crate) fn choice_of(choice: Option<Choice>) -> Result<Choice, Stop>
    ensures { (a : node.Node) → RunsAt (spec.choice_of (choice_in choice)) a (told choice_of result) a }
{
    let Some(under_way) = choice else {
        return Err(Stop::WordInUse);
    };
    Ok(under_way)
}

/// Whether a guard is false.
pub(crate) fn is_clear(guard: Word) -> bool
    ensures { result ≡ (guard == 0) }
{
    guard.get() == 0
}

/// Whether an alternative need not wait behind a guard without a channel.
pub(crate) fn skips_then(choice: Choice, guard: Word) -> bool
    ensures { result ≡ (choice.skips || not (guard == 0)) }
{
    choice.skips || !is_clear(guard)
}

/// Whether no alternative is under way.
///
/// # Errors
/// `WordInUse` where one is.
#[inline(always)]
pub(crate) fn no_choice(choice: Option<Choice>) -> Result<(), Stop>
    ensures { (a : node.Node) → RunsAt (require (is_none (choice_in choice)) WordInUse) a (told nothing result) a }
{
    if choice.is_some() {
        return Err(Stop::WordInUse);
    }
    Ok(())
}

/// Whether a process may have this workspace after another one. While an alternative is under way it stays.
///
/// # Errors
/// `WordInUse` where it may not.
#[inline(always)]
pub(crate) fn may_move(choice: Option<Choice>, from: Word, to: Word) -> Result<(), Stop>
    ensures { (a : node.Node) → RunsAt (require (is_none (choice_in choice) || (from == to)) WordInUse) a
        (told nothing result) a }
{
    if from.get() == to.get() {
        return Ok(());
    }
    no_choice(choice)
}

/// Whether an alternative need not wait.
///
/// # Errors
/// `WordInUse` where it has to.
pub(crate) fn need_not_wait(choice: Choice) -> Result<(), Stop>
    ensures { (a : node.Node) → RunsAt (require choice.skips WordInUse) a (told nothing result) a }
{
    if !choice.skips {
        return Err(Stop::WordInUse);
    }
    Ok(())
}

/// Whether a process has no channel enabled.
///
/// # Errors
/// `WordInUse` where it has.
pub(crate) fn has_none(ports: &[u32]) -> Result<(), Stop>
    ensures { (a : node.Node) → RunsAt (require (spec.has_none ports.now) WordInUse) a (told nothing result) a }
{
    if !ports.is_empty() {
        return Err(Stop::WordInUse);
    }
    Ok(())
}

/// The context of a process that waits for channels.
///
/// # Errors
/// `SeveralReady` where it does not: another channel or a link has made it go on.
pub(crate) fn waiting(stand: Stand) -> Result<Context, Stop>
    ensures { (a : node.Node) → RunsAt (spec.waiting (stand_of stand)) a (told context_of result) a }
{
    let Stand::Chooses(context) = stand else {
        return Err(Stop::SeveralReady);
    };
    Ok(context)
}

/// The number that the bytes of a word stand for.
///
/// # Errors
/// `SawTheScheduler` where one is not known.
pub(crate) fn known_number(cells: &Cells) -> Result<Word, Stop>
    ensures { (a : node.Node) → RunsAt (standing.known (known_word (cells_of cells.now))) a (told (λ n. n) result) a }
{
    if !cells.are_known() {
        return Err(Stop::SawTheScheduler);
    }
    Ok(cells.word())
}

/// Whether a guard is the first that is ready, by the word at the workspace.
///
/// # Errors
/// `SawTheScheduler` where it is ready, and the word is not known.
pub(crate) fn is_first(ready: bool, selected: &Cells) -> Result<bool, Stop>
    ensures { (a : node.Node) → RunsAt (spec.is_first ready (known_word (cells_of selected.now))) a
        (told (λ b. b) result) a }
{
    if !ready {
        return Ok(false);
    }
    if !selected.are_known() {
        return Err(Stop::SawTheScheduler);
    }
    Ok(selected.word().get() == NONE_SELECTED)
}
