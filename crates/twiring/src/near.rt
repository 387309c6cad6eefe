//! Keys that are near to each other, so that one may be a slip for the other.

ghost use Rattle.std.specs.Prelude.{◌≡◌, ◌≤◌, ◌∷◌, bytes_eq, drop, length, map, IfOk};
ghost use Rattle.twiring.specs.NearKeys as spec;

use std::alloc::{AllocError, Global};
use tplan::FileName;

/// The first of some names that is near to a key.
#[tactic(auto, unfolding(crate::specs::NearKeys::near_name))]
pub(crate) fn near_name(
    alloc: Global,
    key: &str,
    names: &[&str],
) -> Result<Option<FileName>, AllocError>
    ensures { IfOk result (λ near. near ≡ spec.near_name key.now (map (λ name. name.now) names.now)) }
{
    for name in names {
        if are_near(name.as_bytes(), key.as_bytes()) {
            return Ok(Some(FileName::from_str(alloc, *name)?));
        }
    }
    Ok(None)
}

/// Whether two names have two letters or more each, and one is the beginning of the other, or they differ once.
fn are_near(a: &[u8], b: &[u8]) -> bool
    ensures { result ≡ spec.are_near a.now b.now }
{
    a.len() >= 2 && b.len() >= 2 && (begin_alike(a, b) || differ_once(a, b))
}

/// Whether one name is the beginning of the other.
fn begin_alike(a: &[u8], b: &[u8]) -> bool
    ensures { result ≡ spec.begin_alike a.now b.now }
{
    a.starts_with(b) || b.starts_with(a)
}

/// Whether two names are the same except for a letter that is put in, left out or changed, or two neighbours that are
/// swapped.
fn differ_once(a: &[u8], b: &[u8]) -> bool
    ensures { result ≡ spec.differ_once a.now b.now }
{
    for place in 0..a.len() + 1 {
        if differ_at(a, b, place) {
            return true;
        }
    }
    false
}

/// Whether two names are the same before a place, and from there on except for the first letter, or the order of the
/// first two.
fn differ_at(a: &[u8], b: &[u8], place: usize) -> bool
    requires { place ≤ length a.now }
    ensures { result ≡ spec.differ_at a.now b.now place }
{
    place <= b.len() && a[..place] == b[..place] && differ_first(&a[place..], &b[place..])
}

/// Whether two names are the same except for the first letter of one of them, or of both, or except for the order of
/// the first two.
fn differ_first(a: &[u8], b: &[u8]) -> bool
    ensures { result ≡ spec.differ_first a.now b.now }
{
    let (a_rest, b_rest) = (rest(a), rest(b));
    a_rest == b || a == b_rest || a_rest == b_rest || are_swapped(a, b)
}

/// A name without its first letter, if it has one.
fn rest(name: &[u8]) -> &[u8]
    ensures { result.now ≡ drop 1 name.now }
{
    match name {
        [_, rest @ ..] => rest,
        [] => name,
    }
}

/// Whether a name whose first two letters are swapped is the other.
fn are_swapped(a: &[u8], b: &[u8]) -> bool
    ensures { result ≡ bytes_eq (spec.swapped a.now) b.now }
{
    match a {
        [first, second, rest @ ..] => begins_with(b, *second, *first, rest),
        _ => a == b,
    }
}

/// Whether a name has these two letters, and these behind them.
fn begins_with(name: &[u8], first: u8, second: u8, behind: &[u8]) -> bool
    ensures { result ≡ bytes_eq (first ∷ second ∷ behind.now) name.now }
{
    match name {
        [one, two, rest @ ..] => first == *one && second == *two && behind == rest,
        _ => false,
    }
}
