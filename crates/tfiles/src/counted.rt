//! Writers and readers that may count how many of their calls failed, so that a fault can be told to have a cause.
//! The traits of std say nothing of failures.

ghost use Rattle.std.specs.Prelude.{ℕ, None, Option};
ghost use Rattle.std.specs.Io.{ReadsAtMost, WritesAtMost};
ghost use Rattle.std.specs.Io.KnownBytes.{ReadConsumes, WriteAppends};
ghost use Rattle.tfiles.specs.Failures.{failed_read, failed_write, Counts};

use std::io;
use std::io::{Read, Write};

/// A writer that may count how many of its writes failed.
pub trait CountedWrite: Write {
    /// How many of the writer's writes failed, an interrupted one too, or took none of some bytes; none where it does
    /// not count them.
    ghost failures: { Self → Option ℕ };

    /// Writes some of these bytes, as `write` does, and counts a failure.
    ///
    /// # Errors
    /// Where the writer fails.
    fn write_counted(&mut self, buf: &[u8]) -> io::Result<usize>
        ensures bound { WritesAtMost result buf.now }
        ensures bytes { WriteAppends (Self.contents self.old) (Self.contents self.new) result buf.now }
        ensures count { Counts (failures self.old) (failures self.new) (failed_write result buf.now) };
}

/// A reader that may count how many of its reads failed.
pub trait CountedRead: Read {
    /// How many of the reader's reads failed, an interrupted one too; none where it does not count them.
    ghost failures: { Self → Option ℕ };

    /// Reads some bytes, as `read` does, and counts a failure.
    ///
    /// # Errors
    /// Where the reader fails.
    fn read_counted(&mut self, buf: &mut [u8]) -> io::Result<usize>
        ensures bound { ReadsAtMost result buf.new }
        ensures bytes { ReadConsumes (Self.remaining self.old) (Self.remaining self.new) result buf.new }
        ensures count { Counts (failures self.old) (failures self.new) (failed_read result) };
}

/// A writer or a reader whose failures nobody counts.
#[derive(Drop)]
pub struct Uncounted<T>(pub T);

impl<W: Write> Write for Uncounted<W> {
    ghost contents = { λ writer. W.contents writer.0 };

    fn write(&mut self, buf: &[u8]) -> io::Result<usize> {
        self.0.write(buf)
    }

    fn flush(&mut self) -> io::Result<()> {
        self.0.flush()
    }
}

impl<W: Write> CountedWrite for Uncounted<W> {
    ghost failures = { λ _. None };

    fn write_counted(&mut self, buf: &[u8]) -> io::Result<usize> {
        self.0.write(buf)
    }
}

impl<R: Read> Read for Uncounted<R> {
    ghost remaining = { λ reader. R.remaining reader.0 };

    fn read(&mut self, buf: &mut [u8]) -> io::Result<usize> {
        self.0.read(buf)
    }
}

impl<R: Read> CountedRead for Uncounted<R> {
    ghost failures = { λ _. None };

    fn read_counted(&mut self, buf: &mut [u8]) -> io::Result<usize> {
        self.0.read(buf)
    }
}
