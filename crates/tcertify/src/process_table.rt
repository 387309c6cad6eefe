//! The processes that a node has ever had.

ghost use Rattle.std.specs.HashMap.{get};
ghost use Rattle.std.specs.Prelude.{nat_eq};
ghost use Rattle.tcertify.specs.Finding.{AreApart};
ghost use Rattle.tcertify.specs.Fingerprints.{AreIndexed, fingerprints};
ghost use Rattle.tcertify.specs.Processes.{name_of};

use crate::process::Process;
use std::collections::HashMap;

/// The processes that a node has ever had, each under its own name. They are found by the fingerprints of their names.
#[derive(Drop)]
pub struct Processes {
    pub items: Vec<Process>,
    /// For each fingerprint the number of the latest process that has it.
    pub(crate) latest: HashMap<u64, u32>,
    /// For each process the number of the latest one before it that has its fingerprint, if there is one.
    pub(crate) earlier: Vec<Option<u32>>,
    ghost apart: { AreApart (name_of 0) items.items },
    ghost indexed: { AreIndexed (fingerprints items.items) (get nat_eq latest) earlier.items },
}
