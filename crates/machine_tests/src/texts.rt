//! What is printed of small nets: trace and dumps.

use crate::fault::Fault;
use std::alloc::Global;
use tfiles::{Uncounted, write_dump, write_trace};
use tnet::Net;
use tplan::Note;

/// Lines that are due: some of them a number of times, and then others.
#[derive(Clone, Copy)]
pub struct Lines {
    times: u32,
    again: &'static str,
    last: &'static str,
}

impl Lines {
    /// Whether a text is these lines.
    pub fn are(&self, text: &[u8]) -> bool {
        let mut rest = text;
        for _time in 0..self.times {
            match rest.strip_prefix(self.again.as_bytes()) {
                Some(more) => rest = more,
                None => return false,
            }
        }
        rest == self.last.as_bytes()
    }
}

/// The trace and the dumps of both nodes after the message.
pub const MESSAGE_LINES: Lines = Lines {
    times: 1,
    again: "msg 0.1 1.2 4 01020304\n",
    last: "node 0 ok
80000080: 11 24 f2 51 44 fb 21 f5 00 00 00 00 00 00 00 00
800000f0: 00 00 00 00 00 00 00 00 00 00 00 00 88 00 00 80
80000100: 00 00 00 00 01 02 03 04 00 00 00 00 00 00 00 00
node 1 ok
80000080: 11 24 f2 56 44 f7 21 f5 00 00 00 00 00 00 00 00
800000f0: 00 00 00 00 00 00 00 00 00 00 00 00 88 00 00 80
80000100: 00 00 00 00 01 02 03 04 00 00 00 00 00 00 00 00
",
};

/// The trace and the dumps after lengths that differ: three bytes came over and are hidden, and the break came with
/// the fourth.
pub const LENGTHS_LINES: Lines = Lines {
    times: 1,
    again: "freeze 1 LengthMismatch\n",
    last: "node 0 ok
80000080: 11 24 f2 51 48 fb 21 f5 00 00 00 00 00 00 00 00
800000f0: 00 00 00 00 00 00 00 00 00 00 00 00 86 00 00 80
80000100: 00 00 00 00 01 02 03 04 00 00 00 00 00 00 00 00
node 1 frozen LengthMismatch
80000080: 11 24 f2 56 44 f7 21 f5 00 00 00 00 00 00 00 00
800000f0: 00 00 00 00 00 00 00 00 00 00 00 00 86 00 00 80
80000100: 00 00 00 00 -- -- -- -- 00 00 00 00 00 00 00 00
",
};

/// The trace and the dumps of a node between a source and a sink: it waits for a third message.
pub const SCRIPTED_LINES: Lines = Lines {
    times: 1,
    again: "msg 1.0 0.2 4 01020304
msg 0.1 2.0 4 01020304
msg 1.0 0.2 4 0a0b0c0d
msg 0.1 2.0 4 0a0b0c0d
",
    last: "node 0 ok
80000080: 11 24 f2 56 44 f7 11 24 f2 51 44 fb 60 02 00 00
800000f0: 00 00 00 00 00 00 00 00 00 00 00 00 86 00 00 80
80000100: 00 00 00 00 -- -- -- -- 00 00 00 00 00 00 00 00
source 1 done 2 of 2
sink 2 messages 2
kept 01020304
kept 0a0b0c0d
",
};

/// The trace and the dumps of the ring after 100 times round: index 99, count 0.
pub const RING_LINES: Lines = Lines {
    times: 100,
    again: "msg 0.1 1.2 4 2a000000
msg 1.1 2.2 4 2a000000
msg 2.1 0.2 4 2a000000
",
    last: "node 0 ok
80000080: 11 24 f2 51 44 fb 11 24 f2 56 44 f7 12 21 41 22
80000090: f1 21 f5 00 00 00 00 00 00 00 00 00 00 00 00 00
800000f0: 00 00 00 00 00 00 00 00 00 00 00 00 93 00 00 80
80000100: 00 00 00 00 2a 00 00 00 63 00 00 00 00 00 00 00
node 1 ok
80000080: 11 24 f2 56 44 f7 11 24 f2 51 44 fb 12 21 41 22
80000090: f1 21 f5 00 00 00 00 00 00 00 00 00 00 00 00 00
800000f0: 00 00 00 00 00 00 00 00 00 00 00 00 93 00 00 80
80000100: 00 00 00 00 2a 00 00 00 63 00 00 00 00 00 00 00
node 2 ok
80000080: 11 24 f2 56 44 f7 11 24 f2 51 44 fb 12 21 41 22
80000090: f1 21 f5 00 00 00 00 00 00 00 00 00 00 00 00 00
800000f0: 00 00 00 00 00 00 00 00 00 00 00 00 93 00 00 80
80000100: 00 00 00 00 2a 00 00 00 63 00 00 00 00 00 00 00
",
};

/// The trace and the dumps of a run.
pub fn shown(alloc: Global, notes: &[Note], net: &Net) -> Result<Vec<u8>, Fault> {
    let mut out = Uncounted(Vec::new(alloc));
    write_trace(&mut out, notes)?;
    write_dump(&mut out, net)?;
    Ok(out.0)
}

/// The dump of a net.
pub fn dump(alloc: Global, net: &Net) -> Result<Vec<u8>, Fault> {
    shown(alloc, &[], net)
}

/// Whether trace and dumps of a run are these lines.
pub fn shows(alloc: Global, notes: &[Note], net: &Net, lines: &Lines) -> Result<bool, Fault> {
    Ok(lines.are(shown(alloc, notes, net)?.as_slice()))
}
