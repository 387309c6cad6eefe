//! The events that halted nodes, and what is told of them.

ghost use Rattle.std.specs.Prelude.{◌≡◌};
ghost use Rattle.tfiles.specs.Outputs.{Tells};
ghost use Rattle.thistory.specs.Halts as spec;

use crate::deed::{Deed, Done};
use tcode::Instruction;
use tfiles::CountedWrite;
use tfiles::writing::output::Output;
use tfiles::writing::text::put_decimal;
use tlink::{Emitted, Mark, StepFault};
use twhere::facts::put_fetched;
use twhere::put_word;
use tword::{Break, Word};

/// Whether an event that was answered so halted its node.
pub fn is_halt(answer: &Result<Emitted, StepFault>) -> bool
    ensures { result ≡ spec.is_halt answer.now }
{
    match answer {
        Ok(emitted) => is_halt_mark(emitted.mark),
        Err(_) => false,
    }
}

/// Whether an event of this mark halted its node.
fn is_halt_mark(mark: Mark) -> bool
    ensures { result ≡ spec.is_halt_mark mark }
{
    match mark {
        Mark::Nothing => false,
        Mark::Halted => true,
        Mark::Completed(_) => false,
    }
}

/// The line of the event of this number that halted its node (own choice of format, `specs/Halts`).
pub fn put_halt<W: CountedWrite>(out: &mut Output<'_, W>, number: u64, done: &Done)
    ensures { Tells W.contents W.failures out.old out.new (spec.halt_line number done.now) }
{
    out.put(b"halted node ");
    put_decimal(out, u64::from(done.event.node));
    out.put(b" by event ");
    put_decimal(out, number);
    out.put(b": ");
    put_deed(out, &done.deed);
    out.put(b"\n");
}

/// The instruction of a deed, if it is one.
fn put_deed<W: CountedWrite>(out: &mut Output<'_, W>, deed: &Deed)
    ensures { Tells W.contents W.failures out.old out.new (spec.deed_text deed.now) }
{
    match deed {
        Deed::Instruction { iptr, fetched, .. } => put_code(out, *iptr, fetched),
        Deed::Dispatch => {}
        Deed::Send(_) => {}
        Deed::Data(_, _) => {}
        Deed::Take(_, _) => {}
        Deed::Ack(_) => {}
    }
}

/// An address, and what a fetch there answered.
fn put_code<W: CountedWrite>(
    out: &mut Output<'_, W>,
    iptr: Word,
    fetched: &Result<Instruction, Break>,
)
    ensures { Tells W.contents W.failures out.old out.new (spec.code_text iptr fetched.now) }
{
    put_word(out, iptr);
    out.put(b": ");
    put_fetched(out, fetched);
}
