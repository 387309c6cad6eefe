//! Runs of the rendezvous machine, as the process machine shows them.
#![tactic(auto)]

pub mod alternatives;
pub mod laws;
pub mod links;
pub mod messages;
pub mod packets;
pub mod whole;
