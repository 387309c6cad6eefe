//! The wires of a net, with the far ends of the links of each node.

ghost use Rattle.std.specs.Prelude.{◌≡◌, All, IfOk};
ghost use Rattle.tnet.specs.Sound.{IsEnd};
ghost use Rattle.tplan.specs.Wires as spec;
ghost use Rattle.tnet.specs.FarEnds.{row_of, IsRow};

use std::alloc::{AllocError, Global};
use std::marker::Model;
use tplan::{End, Wire};
use tword::Items;

/// What belongs to the four links of a node, in their order.
pub type Row<T> = [T; 4];

/// The wires of a net, with the far end of each end at hand.
#[derive(Drop)]
pub struct Wires {
    wires: Items<Wire>,
    /// For each node, the far ends of its links, where they have a wire.
    far: Vec<Row<Option<End>>>,
}

impl Model for Wires {
    ghost use Rattle.std.specs.Prelude.{List};
    ghost use Rattle.tplan.specs.declared.plan.Wire.{Wire};
    ghost use Rattle.tnet.specs.FarEnds.{AgreesWith};

    ghost Value = { List Wire };

    ghost view = { λ w. w.wires };

    ghost invariant = { λ w. AgreesWith w.wires w.far.items };
}

/// The end at a link of a node.
pub(crate) fn end_of(node: u8, link: u8) -> End
    ensures { result ≡ spec.end_at node link }
{
    End {
        node: u32::from(node),
        link: u32::from(link),
    }
}

/// The far end of an end, sought among the wires.
fn sought(wires: &[Wire], end: End) -> Option<End>
    ensures { result ≡ spec.far_end wires.now end }
{
    for wire in wires {
        if wire.a.node == end.node && wire.a.link == end.link {
            return Some(wire.b);
        }
        if wire.b.node == end.node && wire.b.link == end.link {
            return Some(wire.a);
        }
    }
    None
}

/// The far ends of a node's links, sought among the wires.
fn sought_row(wires: &[Wire], node: u32) -> Row<Option<End>>
    ensures { result ≡ row_of wires.now node }
{
    [
        sought(wires, End { node, link: 0 }),
        sought(wires, End { node, link: 1 }),
        sought(wires, End { node, link: 2 }),
        sought(wires, End { node, link: 3 }),
    ]
}

impl Wires {
    /// These wires between `nodes` nodes. The far end of each end is sought here, and never again.
    ///
    /// # Errors
    /// Where the allocator refuses.
    pub(crate) fn new(alloc: Global, wires: Vec<Wire>, nodes: u32) -> Result<Wires, AllocError>
        requires { All (λ w. IsEnd nodes w.a × IsEnd nodes w.b) wires.items }
        ensures { IfOk result (λ made. made ≡ wires.items) }
    {
        let mut far = Vec::new(alloc);
        for node in 0..nodes {
            far.push(sought_row(wires.as_slice(), node))?;
        }
        Ok(Wires {
            wires: Items::new(wires),
            far,
        })
    }

    /// The same wires once more.
    ///
    /// # Errors
    /// Where the allocator refuses.
    pub fn try_copy(&self, alloc: Global) -> Result<Wires, AllocError>
        ensures { IfOk result (λ wires. wires ≡ self.now) }
    {
        let wires = Vec::from_slice(alloc, self.wires.as_slice())?;
        let far = Vec::from_slice(alloc, self.far.as_slice())?;
        Ok(Wires {
            wires: Items::new(wires),
            far,
        })
    }

    /// All wires, in their order.
    pub fn as_slice(&self) -> &[Wire]
        ensures { result.now ≡ self.now }
    {
        self.wires.as_slice()
    }

    /// The far end of an end, if it is a wired link.
    pub fn far_end(&self, end: End) -> Option<End>
        ensures { result ≡ spec.far_end self.now end }
    {
        match self.far.get(end.node as usize) {
            Some(links) => links.get(end.link as usize).copied().unwrap_or(None),
            None => None,
        }
    }

    /// The far ends of a node's links.
    pub fn far_ends(&self, node: u8) -> Row<Option<End>>
        ensures { IsRow self.now node result }
    {
        self.far
            .get(usize::from(node))
            .copied()
            .unwrap_or([None; 4])
    }
}
