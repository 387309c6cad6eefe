//! What ends an output: it is flushed.

ghost use Rattle.std.specs.Prelude.{◌≡◌, ◌⊎◌, Err, IfErr, IfOk, Ok};
ghost use Rattle.std.specs.Io.KnownBytes.{Keeps};
ghost use Rattle.tcommands.specs.Commands.{IsOutputFault};

use std::io::Write;
use tfiles::WriteFault;
use topening::{Fault, Verdict};

/// The output failed.
pub fn output_fault() -> Fault
    ensures { IsOutputFault result }
{
    Fault::Output(WriteFault { written: 0 })
}

/// Flushes what was written.
///
/// # Errors
/// `Output` where it cannot be.
pub fn flush<W: Write>(out: &mut W) -> Result<(), Fault>
    ensures kept { Keeps (W.contents out.old) (W.contents out.new) }
    ensures fault { IfErr result IsOutputFault }
{
    match out.flush() {
        Ok(()) => Ok(()),
        Err(_) => Err(output_fault()),
    }
}

/// The answer of a command that has written all of its text, where that can be flushed.
///
/// # Errors
/// That of the answer; `Output` where the text cannot be flushed.
pub fn flushed<W: Write>(answer: Result<Verdict, Fault>, out: &mut W) -> Result<Verdict, Fault>
    ensures kept { Keeps (W.contents out.old) (W.contents out.new) }
    ensures same { IfOk result (λ verdict. answer ≡ Ok verdict) }
    ensures fault { IfErr result (λ fault. (answer ≡ Err fault) ⊎ IsOutputFault fault) }
{
    match answer {
        Ok(verdict) => {
            flush(out)?;
            Ok(verdict)
        }
        Err(fault) => Err(fault),
    }
}
