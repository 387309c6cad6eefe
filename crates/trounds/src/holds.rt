//! Holds: which packets they cover, and which of them are bad.

ghost use Rattle.std.specs.Prelude.{◌≡◌, not, nat_lt, length, position, Some, None, if◌then◌else◌};
ghost use Rattle.tword.specs.Limits.{most_holds};
ghost use Rattle.trounds.specs.Rounds as spec;
ghost use Rattle.trounds.specs.Reports.{refusal};

use crate::report::NetFault;
use tnet::Net;
use tnet::sharing::is_bad_count;
use tplan::{End, Hold, PacketKind};
use tword::limits::MOST_HOLDS;

fn same_kind(a: PacketKind, b: PacketKind) -> bool
    ensures { result ≡ spec.same_kind a b }
{
    match (a, b) {
        (PacketKind::Data, PacketKind::Data) => true,
        (PacketKind::Ack, PacketKind::Ack) => true,
        _ => false,
    }
}

/// Whether a hold covers packets of a kind at an end in a round.
fn covers(hold: &Hold, round: u32, end: End, kind: PacketKind) -> bool
    ensures { result ≡ spec.covers hold.now round end kind }
{
    hold.end.node == end.node
        && hold.end.link == end.link
        && same_kind(hold.kind, kind)
        && hold.from <= round
        && round < hold.until
}

/// Whether some hold covers packets of a kind at an end in a round.
pub fn is_held(holds: &[Hold], round: u32, end: End, kind: PacketKind) -> bool
    ensures { result ≡ spec.is_held holds.now round end kind }
{
    holds.iter().any(|hold| covers(hold, round, end, kind))
}

/// Whether a hold names a wired end, and does not end before it begins.
fn is_good(net: &Net, hold: &Hold) -> bool
    ensures { result ≡ spec.is_good_hold net.now hold.now }
{
    net.far_end(hold.end).is_some() && hold.from <= hold.until
}

/// The place of the first hold that is not good.
fn first_not_good(net: &Net, holds: &[Hold]) -> Option<usize>
    ensures { result ≡ position (λ h. not (spec.is_good_hold net.now h)) holds.now }
{
    holds.iter().position(|hold| !is_good(net, hold))
}

/// The place of the first hold too many.
fn first_beyond(holds: &[Hold]) -> Option<usize>
    ensures { result ≡ (if nat_lt most_holds (length holds.now) then Some most_holds else None) }
{
    if MOST_HOLDS < holds.len() {
        Some(MOST_HOLDS)
    } else {
        None
    }
}

/// The place of the first bad hold, or of the first one too many.
fn first_bad(net: &Net, holds: &[Hold]) -> Option<usize>
    ensures { result ≡ spec.bad_hold net.now holds.now }
{
    match first_not_good(net, holds) {
        Some(place) => {
            if place < MOST_HOLDS {
                Some(place)
            } else {
                first_beyond(holds)
            }
        }
        None => first_beyond(holds),
    }
}

/// What is wrong with the number of workers, or else with the holds.
pub fn first_refusal(net: &Net, workers: usize, holds: &[Hold]) -> Option<NetFault>
    ensures { result ≡ refusal workers holds.now net.now }
{
    if is_bad_count(workers) {
        return Some(NetFault::BadWorkers);
    }
    match first_bad(net, holds) {
        Some(place) => Some(NetFault::BadHold(place)),
        None => None,
    }
}
