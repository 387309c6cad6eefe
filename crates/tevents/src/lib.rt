//! How steps of the rendezvous machine are done by events of a net of packets.
#![tactic(auto)]

mod done_event;
pub mod finding;
pub mod laws;
pub mod moves;
pub mod resting;

pub use finding::{do_step, do_steps, next_event};
pub use moves::Move;
pub use resting::rest;
