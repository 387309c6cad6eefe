//! What was found to be wrong so far.

ghost use Rattle.std.specs.Prelude.{◌≡◌, ◌++◌, OnOk};
ghost use Rattle.tnet.specs.Building as spec;
ghost use Rattle.tplan.specs.Wires.{same_end};
ghost use Rattle.tcheck.specs.Wrongs.{end_wrongs, wrong_if};

use crate::flaws::{Flaw, Place, Wrong};
use std::alloc::AllocError;
use tplan::End;

/// A flaw is found at a place, where a test says so.
pub(crate) fn add_if(
    found: &mut Vec<Wrong>,
    is_so: bool,
    place: Place,
    flaw: Flaw,
) -> Result<(), AllocError>
    ensures { OnOk result (found.new.items ≡ found.old.items ++ wrong_if is_so place flaw) }
{
    if is_so {
        found.push(Wrong { place, flaw })?;
    }
    Ok(())
}

/// Whether an end is no link of a node, if there are `nodes` nodes.
fn is_bad_end(nodes: usize, end: End) -> bool
    ensures { result ≡ spec.is_bad_end nodes end }
{
    end.node as usize >= nodes || end.link >= 4
}

/// An end at a place, which may be no link of a node.
pub(crate) fn add_end_wrong(
    found: &mut Vec<Wrong>,
    nodes: usize,
    place: Place,
    end: End,
) -> Result<(), AllocError>
    ensures { OnOk result (found.new.items ≡ found.old.items ++ end_wrongs nodes place end) }
{
    add_if(found, is_bad_end(nodes, end), place, Flaw::BadEnd(end))
}

/// Whether two ends are the same.
pub(crate) fn is_same_end(e: End, f: End) -> bool
    ensures { result ≡ same_end e f }
{
    e.node == f.node && e.link == f.link
}
