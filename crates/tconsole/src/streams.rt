//! The standard streams that the program was started without.

use std::fs::{self, File};
use std::os::fd::AsRawFd;

/// How many standard streams there are: their descriptors are 0 to 2.
const STREAMS: i32 = 3;

/// Files in place of the standard streams that are missing. As long as they are kept, no file that is opened later
/// gets the descriptor of a standard stream. None of them can be written, so a write to a missing stream fails.
#[derive(Drop)]
pub struct Missing {
    _input: Option<File>,
    _output: Option<File>,
    _error: Option<File>,
}

impl Missing {
    /// Takes the place of each standard stream that is missing.
    pub fn fill(rt: &HostRuntime) -> Missing {
        Missing {
            _input: filler(rt),
            _output: filler(rt),
            _error: filler(rt),
        }
    }
}

/// The root folder, where it gets the descriptor of a standard stream: the system gives the lowest that is free. It
/// can be neither read nor written as a file.
fn filler(rt: &HostRuntime) -> Option<File> {
    match fs::open(rt, "/") {
        Ok(folder) if folder.as_raw_fd() < STREAMS => Some(folder),
        // Where it cannot be opened, no other file can.
        _ => None,
    }
}
