//! Where a process stands.

use crate::context::Context;
use tword::Word;

/// Where a process stands.
#[derive(Clone, Copy)]
pub enum Stand {
    /// It has not started.
    Absent,
    /// It is ready, and its words are saved.
    Rests(Context),
    /// It is ready.
    Runs(Context),
    /// It waits for a message to pass.
    Waits(Context),
    /// It waits for one of the channels that it has enabled.
    Chooses(Context),
    /// It is ready, since one of them was.
    Chosen(Context),
    /// It is ready, and disables the input of a link that did not make it go on: nobody may send at the far end.
    Listens { channel: Word, context: Context },
    Ended,
}
