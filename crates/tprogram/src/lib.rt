//! What the program `temu` does: what is asked for is done, and the program ends with a status. `explore` and `certify`
//! are done here, over files that `tcommands` opens; each other command is a call of `tcommands`.
//!
//! - `program`: what is asked for is done, and its fault told
//! - `commands`: which call does each command
//! - `exploring`, `certifying`: `explore` with its logs, and `certify`
//! - `progress`: how far an exploration or the run of a certificate has come
#![tactic(auto)]

mod certifying;
mod commands;
mod exploring;
mod program;
mod progress;

pub use program::do_asked;
