//! Names of the addresses of several nodes.

ghost use Rattle.std.specs.Prelude.{◌≡◌, MatchOption, None, Some};
ghost use Rattle.tfiles.specs.Outputs.{Tells};
ghost use Rattle.tnames.specs.Nodes as spec;

use crate::names::Names;
use crate::text::put_named;
use tfiles::CountedWrite;
use tfiles::writing::output::Output;

/// Names of the addresses of one node, or of each.
#[derive(Drop)]
pub struct NodeNames {
    /// The number of the node; none where they are the names of each node.
    pub node: Option<u32>,
    /// The names.
    pub names: Names,
}

impl NodeNames {
    /// Whether they are the names of a node.
    fn are_of(&self, node: u32) -> bool
        ensures { result ≡ spec.are_of node self.now }
    {
        match self.node {
            Some(own) => own == node,
            None => true,
        }
    }
}

/// A text that tells of a node, with the node's names: of the first of these that are its own, or those of each node.
/// Where there are none it stays as it is.
pub fn put_of_node<W: CountedWrite>(
    out: &mut Output<'_, W>,
    all: &[NodeNames],
    node: u32,
    text: &[u8],
)
    ensures { Tells W.contents W.failures out.old out.new (spec.text_of_node all.now node text.now) }
{
    match names_for(all, node) {
        Some(found) => put_named(out, &found.names, text),
        None => out.put(text),
    }
}

/// The first of these names that are those of a node.
fn names_for(all: &[NodeNames], node: u32) -> Option<&NodeNames>
    ensures { MatchOption result (spec.names_for all.now node ≡ None)
        (λ found. spec.names_for all.now node ≡ Some found.now) }
{
    for names in all {
        if names.are_of(node) {
            return Some(names);
        }
    }
    None
}
