//! What is wrong with a net that is to be: everything at once, each with its place, in whole sentences; and where
//! nothing is, what the net is.
//!
//! - `flaws`: what may be wrong, and where
//! - `plans`, `nodes`, `ends`, `holds`: what is wrong with a plan and its holds
//! - `laws`: that the fault of a plan is among what is wrong with it
//! - `images`: what is wrong with the files of images, and the plan that they give
//! - `checked`: a wiring with its images, looked through
//! - `sentences`, `summaries`: what is told of it, as text
//! - `lines`, `text_sentences`: what is told of a text that is no wiring, with the numbers of its lines
#![tactic(auto)]

pub mod checked;
mod ends;
mod finding;
pub mod flaws;
pub mod holds;
pub mod images;
pub mod laws;
pub mod lines;
mod nodes;
pub mod plans;
pub mod sentences;
mod summaries;
pub mod text_sentences;

pub use checked::{Checked, check};
pub use flaws::{Flaw, Place, Plenty, Wrong};
pub use holds::hold_wrongs;
pub use lines::flaw_lines;
pub use plans::plan_wrongs;
pub use text_sentences::write_text_flaws;
