//! The text of explorations, and logs of the outcomes that they tell.
//!
//! - `exploring`: an exploration, and its text with the dumps of its outcomes
//! - `logging`: logs of how a net comes to the outcomes that are told of it
//! - `standings`: the text of an exploration with where the net stands at each outcome
#![tactic(auto)]

pub mod exploring;
pub mod logging;
pub mod standings;

pub use exploring::{Explored, Show, explore_text};
pub use logging::{Logged, explore_logged, write_outcome_log};
pub use standings::explore_where;
