//! The words of the command line, and the commands that they stand for.
#![tactic(auto)]

mod addresses;
mod arguments;
pub mod certifying;
mod help_words;
mod histories;
mod joined_words;
pub mod names_files;
mod parsers;
pub mod table;
pub mod words;

pub use certifying::Certifying;
pub use histories::{Stepping, Watching};
pub use names_files::{NamesFile, NamesFiles};
pub use table::{Command, Exploring, Printing, Running, Show};
pub use words::{CommandFault, read_words};
