//! The bounds of the numbers in a plan: its words are words, and its bytes are bytes.
#![tactic(auto)]

mod plan_words;

pub use plan_words::know_plan;
