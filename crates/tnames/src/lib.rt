//! Names of addresses: the reader of a file of names, the name nearest to an address, and texts with names in them; and
//! texts that stay on one line.
#![tactic(auto)]

pub mod escapes;
pub mod listing;
pub mod names;
pub mod nodes;
pub mod reading;
pub mod text;

pub use escapes::put_escaped;
pub use listing::put_labelled;
pub use names::{Name, Names};
pub use nodes::{NodeNames, put_of_node};
pub use reading::{NamesFault, read_names};
pub use text::write_named;
