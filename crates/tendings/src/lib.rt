//! What is told of the end of a run: how it has ended, its dump, in which lines two dumps differ, and where its net
//! stands.
//!
//! - `telling`: what is told of an outcome or a freeze
//! - `differing`: in which lines two dumps differ
//! - `net_standing`: where a net stands
#![tactic(auto)]

pub mod differing;
pub mod net_standing;
pub mod telling;

pub use differing::{agree_elsewhere, put_differing};
pub use net_standing::standing;
pub use telling::{Telling, is_one, telling_of};
