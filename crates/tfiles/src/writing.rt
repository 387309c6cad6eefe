//! Texts that are written: a trace, dumps, a log. No memory is taken: a text goes to its writer piece by piece,
//! through a buffer on the stack.

pub mod dump;
pub mod end;
pub mod log;
pub mod node_dump;
pub mod output;
pub mod scripts;
pub mod text;
pub mod trace;
mod waiting;
