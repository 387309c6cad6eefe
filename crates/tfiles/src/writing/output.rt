//! A text on its way to a writer, through a buffer on the stack.

ghost use Rattle.std.specs.Prelude.{◌≡◌, ◌≤◌, ◌+◌, ◌⊎◌, [], length, nat_lt, take};
ghost use Rattle.std.specs.Io.KnownBytes.{Appends};
ghost use Rattle.tfiles.specs.Failures.{Counts};
ghost use Rattle.tfiles.specs.Outputs.{HandsOn, IsEnd, IsFresh, Tells};

use crate::counted::CountedWrite;
use crate::writing::waiting::Waiting;
use thiserror::Error;

/// How many bytes of a text may wait.
const CAPACITY: usize = 8_192;

/// A writer failed, or took nothing.
#[derive(Clone, Copy, Debug, PartialEq, Eq, Error)]
#[error("the output failed after {written} bytes")]
pub struct WriteFault {
    /// How many bytes of the text it had taken; from 2^64 on, the greatest number.
    pub written: u64,
}

/// How far a text has come.
#[derive(Clone, Copy)]
pub struct Progress {
    /// How many bytes the writer has taken; from 2^64 on, the greatest number.
    pub written: u64,
    /// Whether the writer has failed. Then no other byte goes out.
    pub failed: bool,
}

/// A text on its way to a writer. Its bytes wait in a buffer until they are many.
#[derive(Drop)]
pub struct Output<'a, W> {
    writer: &'a mut W,
    waiting: Waiting<CAPACITY>,
    progress: Progress,
}

impl<'a, W: CountedWrite> Output<'a, W> {
    /// The beginning of a text.
    pub fn new(writer: &'a mut W) -> Output<'a, W>
        ensures { IsFresh W.contents W.failures writer.entry result }
    {
        Output {
            writer,
            waiting: Waiting::new(),
            progress: Progress {
                written: 0,
                failed: false,
            },
        }
    }

    /// The text goes on with these bytes. They are dropped where the writer has failed.
    #[inline]
    pub fn put(&mut self, bytes: &[u8])
        ensures { Tells W.contents W.failures self.old self.new bytes.now }
    {
        self.make_room(bytes.len());
        if self.waiting.has_room(bytes.len()) {
            self.waiting.keep(bytes);
        } else {
            self.progress = hand_on(self.writer, bytes, self.progress);
        }
    }

    /// The text ends: what waits goes out. To flush the writer is left to whoever opened it.
    ///
    /// # Errors
    /// Where the writer has failed, now or before.
    pub fn finish(&mut self) -> Result<(), WriteFault>
        ensures { IsEnd W.contents W.failures self.old self.new result }
    {
        self.send();
        let Progress { written, failed } = self.progress;
        if failed {
            Err(WriteFault { written })
        } else {
            Ok(())
        }
    }

    /// Makes room for `count` bytes, or as much as there is.
    #[inline]
    fn make_room(&mut self, count: usize)
        ensures told { Tells W.contents W.failures self.old self.new [] }
        ensures room { (length self.new.waiting + count ≤ 8192) ⊎ (self.new.waiting ≡ []) }
    {
        if !self.waiting.has_room(count) {
            self.send();
        }
    }

    /// Hands on what waits.
    #[inline(never)]
    fn send(&mut self)
        ensures told { Tells W.contents W.failures self.old self.new [] }
        ensures empty { self.new.waiting ≡ [] }
    {
        self.progress = hand_on(self.writer, self.waiting.as_slice(), self.progress);
        self.waiting.clear();
    }
}

/// Hands bytes to a writer, unless it has failed before.
#[inline(never)]
fn hand_on<W: CountedWrite>(writer: &mut W, bytes: &[u8], before: Progress) -> Progress
    ensures { HandsOn W.contents W.failures writer.old writer.new bytes.now before result }
{
    if before.failed {
        return before;
    }
    let taken = write_while_taken(writer, bytes);
    Progress {
        written: before.written.saturating_add(taken as u64),
        failed: taken < bytes.len(),
    }
}

/// Writes bytes until the writer has taken all, fails or takes none. Answers how many it took: fewer than all just
/// where a write has failed, the last that was made.
fn write_while_taken<W: CountedWrite>(writer: &mut W, bytes: &[u8]) -> usize
    ensures within { result ≤ length bytes.now }
    ensures taken { Appends (W.contents writer.old) (W.contents writer.new) (take result bytes.now) }
    ensures cause { Counts (W.failures writer.old) (W.failures writer.new) (nat_lt result (length bytes.now)) }
{
    let mut taken = 0;
    while taken < bytes.len() {
        match writer.write_counted(&bytes[taken..]) {
            Ok(more) if more > 0 => taken += more,
            Ok(_) | Err(_) => return taken,
        }
    }
    taken
}
