//! Where the processes and the links of a net stand, as text: of each node the process that runs, the one that was
//! interrupted, the queues, who waits and for what, and the links that are not at rest; and where no event is enabled,
//! who waits at a link for ever, what is lacking there, and which nodes wait for one another in a circle.
#![tactic(auto)]

mod awaited;
mod circles;
pub mod facts;
pub mod laws;
mod links;
pub mod listing;
mod net_node;
mod node_set;
mod processes;
pub mod standing;
pub mod stuck;
mod wait_text;
mod waiting;
mod waits;

pub use facts::put_word;
pub use listing::{Listed, list_net};
pub use standing::{put_node_where, put_where};
pub use stuck::put_stuck;
