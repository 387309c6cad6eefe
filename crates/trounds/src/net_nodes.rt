//! The nodes of a net, taken out of its pieces as round nodes, and put back.

ghost use Rattle.std.specs.Prelude.{◌≡◌, vec_len, IfOk, IfErr};
ghost use Rattle.trounds.specs.Parts.{net_of};
ghost use Rattle.tnet.specs.Sound.{IsSound};
ghost use Rattle.trounds.specs.RoundNodes.{stations_of, AreTakenOut, HasPlaces};

use crate::round_node::RoundNode;
use std::alloc::Global;
use tnet::{Net, NetParts};

/// Takes the nodes of a net out of it, each with what lies at its links into its round node. The pieces of the net that
/// are left have the wires, and room for the others.
///
/// # Errors
/// The allocator refused: the net as it was.
pub fn take_out(alloc: Global, net: Net) -> Result<(Vec<RoundNode>, NetParts), Net>
    ensures placed { IfOk result (λ r. AreTakenOut net r.0.items r.1) }
    ensures sound { IsSound net }
    ensures err { IfErr result (λ n. n ≡ net) }
{
    let NetParts {
        mut nodes,
        wires,
        mut inboxes,
    } = net.into_parts();
    let count = nodes.len();
    match Vec::with_capacity(alloc, count) {
        Err(_refused) => Err(Net::from_parts(NetParts {
            nodes,
            wires,
            inboxes,
        })),
        Ok(mut round_nodes) => {
            nodes.reverse();
            for place in 0..count {
                let number = place as u8;
                let node = nodes.remove(count - place - 1);
                let far = wires.far_ends(number);
                let round_node = RoundNode::new(alloc, number, node, far, inboxes[place]);
                round_nodes.push_reserved(round_node);
            }
            inboxes.clear();
            let parts = NetParts {
                nodes,
                wires,
                inboxes,
            };
            Ok((round_nodes, parts))
        }
    }
}

/// Puts the nodes, with what lies at their links, back among the other pieces of their net.
pub fn put_back(mut round_nodes: Vec<RoundNode>, parts: NetParts) -> Net
    requires places { HasPlaces (vec_len round_nodes) parts }
    requires sound { IsSound (net_of parts.wires (stations_of round_nodes.items)) }
    ensures { result ≡ net_of parts.wires (stations_of round_nodes.items) }
{
    let NetParts {
        mut nodes,
        wires,
        mut inboxes,
    } = parts;
    let count = round_nodes.len();
    round_nodes.reverse();
    for place in 0..count {
        let RoundNode {
            number: _,
            rests: _,
            node,
            inboxes: lies,
            far: _,
            outbox: _,
            events: _,
            notes: _,
            spare: _,
            alloc: _,
        } = round_nodes.remove(count - place - 1);
        nodes.push_reserved(node);
        inboxes.push_reserved(lies);
    }
    Net::from_parts(NetParts {
        nodes,
        wires,
        inboxes,
    })
}
