//! What is given to nets and what is told of them, as data: plans, wirings, events, notes, options.
#![tactic(auto)]

pub mod event;
pub mod file_name;
pub mod options;
pub mod plan;
pub mod wiring;

pub use event::{Act, Event, Hold, Note, PacketKind};
pub use file_name::FileName;
pub use options::Options;
pub use plan::{
    BuildFault, End, Image, NodePlan, Plan, Process, Segment, SinkPlan, SourcePlan, Wire,
};
pub use wiring::{Wiring, WiringFault, WiringNode};
