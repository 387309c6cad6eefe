//! The check that a run of a machine of agents has no race, in one pass.
//!
//! - `mode`, `step`: how a step accesses a place; a step by its agent and its number
//! - `clock`: how many steps of each agent are known
//! - `kept`, `ways`, `access_list`: the accesses of a place that later ones have to know of, in 12 bytes or in a list
//! - `places`: those of all places
//! - `race_check`: the check of a run
//! - `laws`: what passes the check has no race
#![tactic(auto)]

mod access_list;
mod clock;
mod kept;
mod kept_table;
pub mod laws;
pub mod mode;
mod places;
pub mod race_check;
pub mod refusal;
pub mod step;
mod ways;

pub use mode::Mode;
pub use race_check::RaceCheck;
pub use refusal::Refusal;
pub use step::{Access, PlaceAccess, Step};
