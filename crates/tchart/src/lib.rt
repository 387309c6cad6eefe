//! A picture of a run: a column for each node, source and sink, time downwards, an arrow for each message. The picture
//! is a text in SVG.
#![tactic(auto)]

mod drawing;
mod lanes;
pub mod laws;
mod layout;
mod marks;
mod parts;
mod plot;
mod shown;
mod style;
mod titles;
mod waits;

pub use drawing::put_chart;
pub use layout::{Chart, Column, Kind, lay_out};
pub use marks::{Bar, Mark, Pause};
pub use shown::Message;
