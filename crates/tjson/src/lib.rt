//! What is printed of a run, as JSON: an object a line.
//!
//! - `trace`: what a run told, a line a note
//! - `nodes`: the nodes, sources and sinks of a net
//! - `node`, `memory`: how a node stands, and the lines of its memory
//! - `scripts`: sources and sinks
//! - `end`: how a run has ended
//! - `values`: ends, names and bytes as values of JSON
#![tactic(auto)]

pub mod end;
mod memory;
mod node;
pub mod nodes;
mod scripts;
pub mod trace;
mod values;

pub use end::{put_json_free_end, put_json_replay_end, put_json_rounds_end};
pub use nodes::put_json_nodes;
pub use trace::put_json_trace;
