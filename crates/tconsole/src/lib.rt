//! What the program has of its console: the words that it was called with, and its standard streams.
//!
//! - `words`: the words of the command line as texts
//! - `asking`: the command that they ask for, or why there is none
//! - `streams`: what stands in the place of a standard stream that is missing
#![tactic(auto)]

mod asking;
mod streams;
mod words;

pub use asking::{NoCommand, read_command};
pub use streams::Missing;
