//! What is printed of a run of the process machine: its end with the bytes that are known, or why there is no
//! certificate.
//!
//! - `agents`: the names of agents
//! - `cells`: the memory of a node, with `~~` for each byte that is not known
//! - `ends`: the end of a certified run: nodes, sources and sinks
//! - `places`: places, and how they are accessed
//! - `refusals`: why a step stops
//! - `finding`, `telling`: what was found, and how it is printed
//! - `steps`: where a step was made, by a second run
//! - `progress`, `parts`: who is told how far the run has come
//! - `certifying`: the call of the command
//! - `certified`: whether the net is certified, in one line
#![tactic(auto)]

mod agents;
mod cells;
mod certified;
mod certifying;
mod ends;
pub mod finding;
mod parts;
mod places;
mod progress;
mod refusals;
mod steps;
mod telling;

pub use certified::certified_line;
pub use certifying::certify_files;
pub use progress::RunProgress;
