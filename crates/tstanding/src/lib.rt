//! The texts of what the events of a log lead to, and of images: where a net stands, histories, pictures and
//! disassemblies.
//!
//! - `reaching`, `net_standing`: what the events of a log lead to, and the text of where the net stands then
//! - `histories`: the text of the history of a node, or of some of its bytes, as the events of a log are done
//! - `charts`: a picture of the events of a log
//! - `labels`: the instructions of an image, with labels where there are names
//! - `commands`: the commands, from the bytes of their files to what they write
#![tactic(auto)]

pub mod charts;
pub mod commands;
pub mod histories;
mod labels;
pub mod net_standing;
pub mod reaching;

pub use charts::chart_text;
pub use commands::{chart_files, dis_file, history_files, where_files};
pub use histories::{History, history_text};
pub use net_standing::where_text;
