//! A node of the process machine.

ghost use Rattle.std.specs.Prelude.{◌+◌, ◌^◌, ◌≤◌, length};
ghost use Rattle.tcertify.specs.Channels.{AreKnown};

use crate::channel::Links;
use crate::channel_table::Channels;
use crate::lead::Lead;
use crate::life_table::Lives;
use crate::process_table::Processes;
use crate::stored::Words;

/// A node of the process machine: what stands at its places.
#[derive(Drop)]
pub struct Node {
    pub words: Words,
    pub processes: Processes,
    pub channels: Channels,
    pub links: Links,
    pub lives: Lives,
    pub error: bool,
    pub halt_on_error: bool,
    /// A flag was changed.
    pub is_flag_changed: bool,
    /// A process of high priority has run.
    pub has_run_high: bool,
    /// A process of low priority has run.
    pub has_run_low: bool,
    /// How many processes the node has ever had.
    pub population: u32,
    /// The number of the first of the places that each node has besides its words.
    pub fixed_place: u32,
    /// The lowest number that no place of any node has yet.
    pub fresh_place: u32,
    /// What the current step leads to, as far as it was seen.
    pub leads: Vec<Lead>,
    ghost placed: { fixed_place + 18 ≤ 2 ^ 32 },
    ghost known: { AreKnown (length processes.items.items) channels.items.items links },
}
