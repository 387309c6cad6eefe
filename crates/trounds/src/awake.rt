//! Which nodes of a net may have something to do.

ghost use Rattle.std.specs.Prelude.{◌≡◌, ◌≢◌, ◌+◌, ◌<◌, ℕ, true, false};
ghost use Rattle.std.specs.Int.{bit_at};
ghost use Rattle.tword.specs.Limits.{most_nodes};
ghost use Rattle.trounds.specs.AwakeNodes.{IsLeft};

/// Nodes that may have something to do, each as a bit. A node that is left out rests.
#[derive(Clone, Copy)]
pub struct Awake {
    nodes: u64,
}

impl Awake {
    /// No node.
    #[inline(always)]
    pub fn none() -> Self
        ensures { result.nodes ≡ 0 }
    {
        Awake { nodes: 0 }
    }

    /// The first node, or a number that no node has.
    #[inline(always)]
    pub fn first(self) -> usize
        ensures { IsLeft self self result }
    {
        self.nodes.trailing_zeros() as usize
    }

    /// The next node behind the first one, which is taken out, or a number that no node has.
    #[inline(always)]
    pub fn after(&mut self, node: usize) -> usize
        requires node { node < most_nodes }
        requires first { (n : ℕ) → n < node → bit_at self.old.nodes n ≡ 0 }
        ensures later { node < result }
        ensures between { (n : ℕ) → node < n → n < result → bit_at self.old.nodes n ≡ 0 }
        ensures left { (all : Awake) → IsLeft all self.old node → IsLeft all self.new result }
    {
        let left = self.nodes & !(1u64 << node);
        self.nodes = left;
        left.trailing_zeros() as usize
    }

    /// The nodes behind the first `count` ones, counted from 0 again.
    #[inline(always)]
    pub fn behind(self, count: usize) -> Self
        requires { count < most_nodes }
        ensures { (n : ℕ) → bit_at result.nodes n ≡ bit_at self.nodes (count + n) }
    {
        Awake {
            nodes: self.nodes >> count,
        }
    }

    /// A node is put in, unless it rests.
    #[inline(always)]
    pub fn insert_unless(&mut self, rests: bool, node: usize)
        requires { node < most_nodes }
        ensures awake { rests ≡ false → bit_at self.new.nodes node ≡ 1 }
        ensures unless { rests ≡ true → bit_at self.new.nodes node ≡ bit_at self.old.nodes node }
        ensures others { (n : ℕ) → n ≢ node → bit_at self.new.nodes n ≡ bit_at self.old.nodes n }
    {
        if !rests {
            self.nodes |= 1u64 << node;
        }
    }
}
