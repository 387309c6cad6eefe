//! Wiring files: nodes, wires, sources, sinks and holds as TOML.
#![tactic(auto)]

pub mod flaws;
mod near;
pub mod wiring;

pub use flaws::{Key, Part, TextFlaw, text_flaws};
pub use wiring::read_wiring;
