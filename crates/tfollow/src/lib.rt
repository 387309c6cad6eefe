//! Following a run of the process machine, step by step: what a program that does so and checks it for races knows.
#![tactic(auto)]

mod berth;
pub mod laws;

pub use berth::Berth;
