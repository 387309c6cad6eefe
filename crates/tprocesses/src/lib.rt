//! The process machine: a net of transputers as processes that meet, without queues, timeslices or packets.
#![tactic(auto)]

pub mod laws;
