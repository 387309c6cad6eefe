//! The text of runs and replays of wirings and images.
//!
//! - `run`, `replaying`, `free`: the text of a run by rounds, of a replay of a log, and of a run by free workers
//! - `printed_run`: what these three have in common, the text of a run whichever way it was done
//! - `recording`, `row_log`: a run by rounds of which no more is kept than is asked for, and the log of what is kept
//! - `commands`: the commands, from the bytes of their files to what they write
#![tactic(auto)]

pub mod commands;
pub mod free;
mod printed_run;
mod recording;
pub mod replaying;
mod row_log;
pub mod run;

pub use commands::{free_files, replay_files, run_files};
pub use free::free_text;
pub use replaying::replay_text;
pub use run::run_text;
