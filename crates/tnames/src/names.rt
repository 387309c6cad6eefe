//! Names of addresses.

ghost use Rattle.std.specs.Prelude.{◌≡◌, ◌&&◌, MatchOption, nat_lt};
ghost use Rattle.tword.specs.Words.{most_neg};
ghost use Rattle.tnames.specs.Names as spec;
ghost use Rattle.tnames.specs.Names.{place_of};

use std::marker::Model;
use tword::limits::MOST_NEG;
use tword::{Items, Word};

/// An address and its name.
#[derive(Drop)]
pub struct Name {
    /// The address that is named.
    pub address: Word,
    /// The characters of the name.
    pub text: Items<u8>,
}

/// The names of a file, in its order.
#[derive(Drop)]
pub struct Names {
    list: Items<Name>,
}

impl Model for Names {
    ghost use Rattle.std.specs.Prelude.{List};
    ghost use Rattle.tnames.specs.declared.names.Name.{Name};

    ghost Value = { List Name };

    ghost view = { λ names. names.list };
}

impl Names {
    /// These names, in this order.
    pub(crate) fn new(list: Vec<Name>) -> Names
        ensures { result ≡ list.items }
    {
        Names {
            list: Items::new(list),
        }
    }

    /// The name that stands highest at an address or below it, and how far the address lies above it. Addresses are
    /// signed: the lowest is #80000000. Of several names at one address it is the first.
    pub fn at(&self, address: Word) -> Option<(&[u8], u32)>
        ensures { MatchOption result (spec.name_at self.now address ≡ None)
            (λ found. spec.name_at self.now address ≡ Some (found.0.now, found.1)) }
    {
        let name = self.nearest(address)?;
        Some((name.text.as_slice(), distance(name.address, address)))
    }

    /// The name that stands highest at an address or below it.
    fn nearest(&self, address: Word) -> Option<&Name>
        ensures { MatchOption result (spec.nearest self.now address ≡ None)
            (λ name. spec.nearest self.now address ≡ Some name.now) }
    {
        let mut best = None;
        for name in self.list.as_slice() {
            if is_nearer(address, name, best) {
                best = Some(name);
            }
        }
        best
    }
}

/// Where an address lies in the memory: how far above the lowest address.
pub(crate) fn place_of(address: Word) -> u32
    ensures { result ≡ spec.place_of address }
{
    address.minus(Word::new(MOST_NEG)).get()
}

/// How far an address lies above another, 0 where it does not.
fn distance(from: Word, address: Word) -> u32
    ensures { result ≡ spec.distance from address }
{
    place_of(address).saturating_sub(place_of(from))
}

/// Whether a name stands at an address or below it, and above the best that was found so far.
fn is_nearer(address: Word, name: &Name, best: Option<&Name>) -> bool
    ensures { MatchOption best.entry (result ≡ spec.is_reached address name.now)
        (λ best. result ≡ (spec.is_reached address name.now
        && nat_lt (place_of best.now.address) (place_of name.now.address))) }
{
    let place = place_of(name.address);
    place <= place_of(address)
        && match best {
            Some(best) => place_of(best.address) < place,
            None => true,
        }
}
