//! What the commands over the files of a net have in common: faults and verdicts, the opening of the net, and the
//! events of a log.
//!
//! - `fault`, `fault_line`: what may be wrong with the files, and the line that says so
//! - `opening`: the net of a wiring and its images
//! - `log_events`: which events of a log are done, and what they lead to
//! - `verdict`: the results of commands, as their exit statuses tell them
//! - `ending`: the end of a command
#![tactic(auto)]

mod ending;
pub mod fault;
mod fault_line;
pub mod log_events;
pub mod opening;
pub mod verdict;

pub use ending::end_command;
pub use fault::Fault;
pub use fault_line::write_fault;
pub use verdict::Verdict;
