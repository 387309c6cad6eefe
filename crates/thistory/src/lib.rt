//! The history of a node: a line for each of its events, or for each event that changed some of its bytes. And the
//! lines of the events that halted nodes.
#![tactic(auto)]

pub mod deed;
pub mod halts;
pub mod laws;
mod lines;
pub mod steps;
pub mod watch;

pub use deed::{Deed, Done, do_event};
pub use halts::{is_halt, put_halt};
pub use steps::{Asked, put_steps, was_done};
pub use watch::{Place, put_watch};
