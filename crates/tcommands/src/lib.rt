//! The commands of the program `temu` over the system, except for `explore` and `certify`: the files that a command
//! opens, the file that its log goes to, and the verdicts of commands.
//!
//! - `commands`: which files each command opens, and what is done with their bytes
//! - `checking`: `check`
//! - `files`: the files that are read
//! - `log_file`: the file that a log is written into
//! - `output`: what ends an output
#![tactic(auto)]

mod checking;
mod commands;
mod files;
mod log_file;
mod output;

pub use checking::do_check;
pub use commands::{Manner, do_chart, do_dis, do_replay, do_run, do_steps, do_watch, do_where};
pub use files::{NetFiles, load_names, load_net, optional_text};
pub use log_file::{Names, System, create_log, end_log};
pub use output::{flush, flushed, output_fault};
