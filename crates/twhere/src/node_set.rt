//! Sets of nodes of a net.

ghost use Rattle.std.specs.Prelude.{◌≡◌, ◌<◌, ◌&&◌, ◌||◌, ◌==◌, ℕ, true, false};
ghost use Rattle.tword.specs.Limits.{most_nodes};
ghost use Rattle.twhere.specs.NodeSets.{has_node, no_nodes};

/// A set of nodes of a net, each as a bit.
#[derive(Clone, Copy)]
pub(crate) struct NodeSet {
    nodes: u64,
}

impl NodeSet {
    /// No node.
    pub(crate) fn none() -> Self
        ensures { result ≡ no_nodes }
    {
        NodeSet { nodes: 0 }
    }

    /// The set with only this node.
    pub(crate) fn only(node: usize) -> Self
        requires { node < most_nodes }
        ensures { (n : ℕ) → has_node result n ≡ (node == n) }
    {
        NodeSet::none().with(node)
    }

    /// The same nodes and this one.
    pub(crate) fn with(self, node: usize) -> Self
        requires { node < most_nodes }
        ensures { (n : ℕ) → has_node result n ≡ (has_node self n || (node == n)) }
    {
        NodeSet {
            nodes: self.nodes | 1u64 << node,
        }
    }

    /// Whether a node is one of these.
    pub(crate) fn has(self, node: usize) -> bool
        requires { node < most_nodes }
        ensures { result ≡ has_node self node }
    {
        self.nodes >> node & 1 == 1
    }

    /// The nodes that are in another set too.
    pub(crate) fn both(self, other: Self) -> Self
        ensures { (n : ℕ) → has_node result n ≡ (has_node self n && has_node other n) }
    {
        NodeSet {
            nodes: self.nodes & other.nodes,
        }
    }

    /// Whether there is no node in it.
    pub(crate) fn is_empty(self) -> bool
        ensures none { result ≡ true → (n : ℕ) → has_node self n ≡ false }
        ensures one { result ≡ false → (n : ℕ) × (has_node self n ≡ true) }
    {
        self.nodes == 0
    }
}
