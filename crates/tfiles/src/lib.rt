//! Files and texts: files that are read whole, images and logs among them, traces, dumps, logs and disassemblies
//! that are written.
#![tactic(auto)]

pub mod break_names;
pub mod counted;
pub mod dis;
pub mod image;
pub mod laws;
pub mod log_reading;
pub mod reading;
pub mod writing;

pub use counted::{CountedRead, CountedWrite, Uncounted};
pub use dis::dis_text;
pub use image::{ImageFault, read_image};
pub use log_reading::{LogFault, read_log};
pub use reading::{ReadFault, read_whole};
pub use writing::dump::write_dump;
pub use writing::log::write_log;
pub use writing::output::WriteFault;
pub use writing::trace::write_trace;
