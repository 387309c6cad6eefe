//! The end of a command: the line of its fault, and its exit status.

ghost use Rattle.std.specs.Prelude.{◌≡◌, MatchResult};
ghost use Rattle.topening.specs.Endings as spec;
ghost use Rattle.topening.specs.Endings.{GoesOut};
ghost use Rattle.topening.specs.FaultLines.{fault_line};

use crate::fault::Fault;
use crate::fault_line::write_fault;
use crate::verdict::Verdict;
use tfiles::counted::CountedWrite;

/// The end of a command, from its answer, which is its verdict or its fault: writes the line of a fault, and nothing
/// else, and answers the exit status of the program: that of the verdict, 2 for bad input, 3 where the output failed
/// or no log was found, 4 where there was no memory. Where the writer fails too, only the status tells of the fault.
pub fn end_command<W: CountedWrite>(answer: Result<Verdict, Fault>, err: &mut W) -> u8
    ensures status { result ≡ spec.exit_status answer }
    ensures line { MatchResult answer
        (λ _. err.new ≡ err.old)
        (λ fault. GoesOut W.contents W.failures err.old err.new (fault_line fault)) }
{
    match answer {
        Ok(verdict) => verdict.status(),
        Err(fault) => {
            let _ = write_fault(&fault, err);
            fault.status()
        }
    }
}
