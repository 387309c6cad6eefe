//! Notes of what a step has touched, as they are told to the check of races.

ghost use Rattle.std.specs.Prelude.{◌≡◌, ◌<◌, ◌∷◌, ◌++◌, [], List, IfErr, OnOk, drop, length, map};
ghost use Rattle.tclocks.specs.Checks.{Check, clock_of, accesses_at};
ghost use Rattle.tclocks.specs.Followed.{AreAccessed, IsStep};
ghost use Rattle.tclocks.specs.Refusals.{IsDue};
ghost use Rattle.tfollow.specs.Following.{Told};
ghost use Rattle.tfollow.specs.Telling as spec;
ghost use Rattle.tverdict.specs.Told.{IsHalted, IsStepHalted};

use crate::halt::Halt;
use crate::verdict::Race;
use tcertify::{Mode, Note, Notes, Priority};
use tclocks::{Mode as CheckMode, PlaceAccess, RaceCheck, Refusal, Step};

/// The mode in which a note is told.
#[inline(always)]
fn told_mode(mode: Mode) -> CheckMode
    ensures { result ≡ spec.told_mode mode }
{
    match mode {
        Mode::Looks => CheckMode::Looks,
        Mode::Claims => CheckMode::Claims,
        Mode::Puts => CheckMode::Puts,
        Mode::Lends => CheckMode::Lends,
        Mode::Engages => CheckMode::Commutes(0),
        Mode::CountsDown(Priority::High) => CheckMode::Commutes(1),
        Mode::CountsDown(Priority::Low) => CheckMode::Commutes(2),
        Mode::Adds => CheckMode::Commutes(10),
        Mode::Raises => CheckMode::Commutes(11),
    }
}

/// The access that is told of a note.
#[inline(always)]
pub(crate) fn told_of(note: Note) -> PlaceAccess
    ensures place { result.place ≡ note.place }
    ensures mode { result.mode ≡ spec.told_mode note.mode }
{
    PlaceAccess {
        place: note.place,
        mode: told_mode(note.mode),
    }
}

/// The notes behind those of earlier steps.
#[inline(always)]
pub(crate) fn new_notes(notes: &Notes) -> &[Note]
    ensures { result.now ≡ drop notes.now.earlier notes.now.items.items }
{
    if notes.items.len() <= notes.earlier {
        return &[];
    }
    &notes.items.as_slice()[notes.earlier..]
}

/// Why a step is the last one of which the check refuses this access.
#[inline(always)]
fn halt_of(step: Step, access: PlaceAccess, refusal: Refusal) -> Halt
    ensures { (told : List Told) (before after : Check) → AreAccessed step told before after
        → IsDue step.agent (clock_of after step.agent) access.mode (accesses_at after access.place) refusal
        → IsHalted step before after result }
{
    match refusal {
        Refusal::Race(earlier) => Halt::Race(Race {
            place: access.place,
            earlier,
            step,
            mode: access.mode,
        }),
        Refusal::OutOfMemory => Halt::OutOfMemory,
    }
}

/// Notes of a step are told to the check, one after another.
///
/// # Errors
/// `Race` with the first access that races; `OutOfMemory` where the allocator refuses, or a note is of a place that the
/// check does not have.
fn tell_notes(check: &mut RaceCheck, step: Step, notes: &[Note]) -> Result<(), Halt>
    requires counted { 0 < step.number }
    requires agent { step.agent < length check.old.clocks }
    ensures ok { OnOk result (AreAccessed step (map spec.told_of notes.now) check.old check.new) }
    ensures err { IfErr result (IsHalted step check.old check.new) }
{
    for note in notes {
        let access = told_of(*note);
        let place = access.place as usize;
        if check.places() <= place {
            return Err(Halt::OutOfMemory);
        }
        if let Err(refusal) = check.access(step, place, access.mode) {
            return Err(halt_of(step, access, refusal));
        }
    }
    Ok(())
}

/// The next step of the agent of this number, which has made these notes, is told to the check: it begins, joins the
/// clock in the agent's slot, and makes its accesses.
///
/// # Errors
/// Those of `tell_notes`; `OutOfMemory` where the agent has done as many steps as a check can count.
#[inline(always)]
pub(crate) fn tell_step(check: &mut RaceCheck, number: u32, notes: &[Note]) -> Result<(), Halt>
    requires agent { number < length check.old.clocks }
    requires slot { number < length check.old.slots }
    ensures ok { OnOk result (IsStep number (number ∷ []) (map spec.told_of notes.now) check.old check.new) }
    ensures err { IfErr result (IsStepHalted number check.old check.new) }
{
    let Some(step) = check.begin(number) else {
        return Err(Halt::OutOfMemory);
    };
    check.join(number, number as usize)?;
    tell_notes(check, step, notes)
}

/// Notes of a step are told to the check, and then others.
///
/// # Errors
/// Those of `tell_notes`.
fn tell_two(check: &mut RaceCheck, step: Step, first: &[Note], second: &[Note]) -> Result<(), Halt>
    requires counted { 0 < step.number }
    requires agent { step.agent < length check.old.clocks }
    ensures ok { OnOk result (AreAccessed step (map spec.told_of first.now ++ map spec.told_of second.now) check.old
        check.new) }
    ensures err { IfErr result (IsHalted step check.old check.new) }
{
    tell_notes(check, step, first)?;
    tell_notes(check, step, second)
}

/// The same as `tell_step` of a step that has made these notes and then others.
///
/// # Errors
/// Those of `tell_step`.
pub(crate) fn tell_both(
    check: &mut RaceCheck,
    number: u32,
    first: &[Note],
    second: &[Note],
) -> Result<(), Halt>
    requires agent { number < length check.old.clocks }
    requires slot { number < length check.old.slots }
    ensures ok { OnOk result (IsStep number (number ∷ [])
        (map spec.told_of first.now ++ map spec.told_of second.now) check.old check.new) }
    ensures err { IfErr result (IsStepHalted number check.old check.new) }
{
    let Some(step) = check.begin(number) else {
        return Err(Halt::OutOfMemory);
    };
    check.join(number, number as usize)?;
    tell_two(check, step, first, second)
}
