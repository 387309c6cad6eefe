//! The bytes of a message.

ghost use Rattle.std.specs.Prelude.{◌≡◌, ◌≤◌, vec_capacity};
ghost use Rattle.tword.specs.Stores.{bytes_at};

use tlink::Node;
use tproc::Offer;
use tword::Items;
use tword::limits::MOST_NEG;

/// The bytes of a message, as they stand in the memory of a node, in a vector that has room for them.
pub fn message(node: &Node, offer: Offer, mut bytes: Vec<u8>) -> Items<u8>
    requires { offer.length ≤ vec_capacity bytes }
    ensures { result ≡ bytes_at node.now.machine.store offer.buffer offer.length }
{
    bytes.clear();
    let all = node.bytes();
    let first = offer.buffer.get().saturating_sub(MOST_NEG) as usize;
    let end = all.len().min(first + offer.length as usize);
    for at in first..end {
        bytes.push_reserved(all[at]);
    }
    Items::new(bytes)
}
