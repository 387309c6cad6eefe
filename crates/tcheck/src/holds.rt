//! What is wrong with the holds of a run.

ghost use Rattle.std.specs.Prelude.{◌≡◌, ◌++◌, [], IfOk, OnOk, is_some};
ghost use Rattle.tplan.specs.Wires.{far_end};
ghost use Rattle.tcheck.specs.HoldWrongs as spec;
ghost use Rattle.tcheck.specs.Wrongs.{each_from};

use crate::finding::{add_if, is_same_end};
use crate::flaws::{Flaw, Place, Plenty, Wrong};
use std::alloc::{AllocError, Global};
use tplan::{End, Hold, Wire};
use tword::Items;
use tword::limits::MOST_HOLDS;

/// Everything that is wrong with holds, where there are these wires.
///
/// # Errors
/// Where the allocator refuses.
pub fn hold_wrongs(
    alloc: Global,
    wires: &[Wire],
    holds: &[Hold],
) -> Result<Items<Wrong>, AllocError>
    ensures exact { IfOk result (λ found. found ≡ spec.hold_wrongs wires.now holds.now) }

    // nothing is wrong just where rounds of a net with these wires do not refuse the holds
    ensures nothing { spec.NoHoldIsRefused holds.now }
{
    let mut found = Vec::new(alloc);
    add_hold_wrongs(&mut found, wires, holds)?;
    Ok(Items::new(found))
}

/// What is wrong with holds, behind what was found before.
pub(crate) fn add_hold_wrongs(
    found: &mut Vec<Wrong>,
    wires: &[Wire],
    holds: &[Hold],
) -> Result<(), AllocError>
    ensures { OnOk result (found.new.items ≡ found.old.items ++ spec.hold_wrongs wires.now holds.now) }
{
    let many = Flaw::TooMany(Plenty::Holds, holds.len());
    add_if(found, holds.len() > MOST_HOLDS, Place::Net, many)?;
    add_each_wrongs(found, wires, holds)
}

/// What is wrong with each hold.
fn add_each_wrongs(found: &mut Vec<Wrong>, wires: &[Wire], holds: &[Hold]) -> Result<(), AllocError>
    ensures { OnOk result
        (found.new.items ≡ found.old.items ++ each_from (spec.one_hold_wrongs wires.now) 0 holds.now) }
{
    for (number, hold) in holds.iter().enumerate() {
        add_one_wrongs(found, wires, number, hold)?;
    }
    Ok(())
}

/// Whether there is a wire at an end.
fn is_wired(wires: &[Wire], end: End) -> bool
    ensures { result ≡ is_some (far_end wires.now end) }
{
    for wire in wires {
        if is_same_end(wire.a, end) || is_same_end(wire.b, end) {
            return true;
        }
    }
    false
}

/// What is wrong with a hold.
fn add_one_wrongs(
    found: &mut Vec<Wrong>,
    wires: &[Wire],
    number: usize,
    hold: &Hold,
) -> Result<(), AllocError>
    ensures { OnOk result (found.new.items ≡ found.old.items ++ spec.one_hold_wrongs wires.now number hold.now) }
{
    let place = Place::Hold(number);
    let early = Flaw::EndsEarly {
        from: hold.from,
        until: hold.until,
    };
    let end = hold.end;
    let is_ordered = hold.from <= hold.until;
    add_if(found, !is_wired(wires, end), place, Flaw::NoWire(end))?;
    add_if(found, !is_ordered, place, early)
}
