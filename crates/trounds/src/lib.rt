//! Rounds of a net by any number of workers, and lists of events done again.
//!
//! `run_rounds` answers what the plain definition on one list of nodes says (`specs/Rounds.antt`), for every number
//! of workers and every list of holds; `record_rounds` answers the same without its events, or with equal ones in
//! rows; `replay` does a list of events, and tells their notes. The headline is in the contracts of all three.
#![tactic(auto)]

mod account;
mod awake;
pub mod event_rows;
pub mod gate;
mod holds;
pub mod laws;
mod net_nodes;
pub mod replays;
pub mod report;
mod round_node;
pub mod rounds;
mod rule;
mod shared_round;
mod split;

pub use event_rows::{EventRow, EventRows};
pub use gate::{Gate, Open};
pub use replays::{ReplayFault, Replayed, replay};
pub use report::{Ending, NetFault, Recording, Report, RunRecord};
pub use rounds::{record_rounds, run_rounds};
