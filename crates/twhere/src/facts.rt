//! Small parts of the text: words, instructions, and where a process that does not run stands.

ghost use Rattle.std.specs.Prelude.{◌≡◌, if◌then◌else◌, []};
ghost use Rattle.tfiles.specs.Outputs.{Tells};
ghost use Rattle.twhere.specs.Standing as spec;

use tcode::Instruction;
use tfiles::CountedWrite;
use tfiles::break_names::break_name;
use tfiles::dis::put_instruction;
use tfiles::writing::output::Output;
use tfiles::writing::text::put_hex;
use tproc::{Processor, workspace_of};
use tword::{Break, Word};

/// A word, in hexadecimal: `#` and eight digits in lower case.
pub fn put_word<W: CountedWrite>(out: &mut Output<'_, W>, word: Word)
    ensures { Tells W.contents W.failures out.old out.new (spec.word_text word) }
{
    out.put(b"#");
    put_hex(out, &word.get().to_be_bytes());
}

/// A line of a name and a word.
pub(crate) fn put_word_fact<W: CountedWrite>(out: &mut Output<'_, W>, name: &[u8], word: Word)
    ensures { Tells W.contents W.failures out.old out.new (spec.word_fact name.now word) }
{
    out.put(name);
    put_word(out, word);
    out.put(b"\n");
}

/// A text, where a condition holds.
pub(crate) fn put_if<W: CountedWrite>(out: &mut Output<'_, W>, condition: bool, text: &[u8])
    ensures { Tells W.contents W.failures out.old out.new (if condition then text.now else []) }
{
    if condition {
        out.put(text);
    }
}

/// What a fetch answers: an instruction, or the name of its break.
pub fn put_fetched<W: CountedWrite>(out: &mut Output<'_, W>, fetched: &Result<Instruction, Break>)
    ensures { Tells W.contents W.failures out.old out.new (spec.fetched_text fetched.now) }
{
    match fetched {
        Ok(instruction) => put_instruction(out, instruction),
        Err(broken) => out.put(break_name(*broken)),
    }
}

/// An address, with the instruction there.
pub(crate) fn put_code<W: CountedWrite>(
    out: &mut Output<'_, W>,
    processor: &Processor,
    address: Word,
)
    ensures { Tells W.contents W.failures out.old out.new (spec.code_text processor.now address) }
{
    put_word(out, address);
    out.put(b": ");
    put_fetched(out, &processor.fetch_at(address));
}

/// A process that is queued or waits, and its Iptr, with the instruction there.
pub(crate) fn put_place<W: CountedWrite>(
    out: &mut Output<'_, W>,
    processor: &Processor,
    process: Word,
)
    ensures { Tells W.contents W.failures out.old out.new (spec.place_text processor.now process) }
{
    put_word(out, process);
    out.put(b" Iptr ");
    put_code(out, processor, saved_iptr(processor, process));
}

/// The saved Iptr of a process that is queued or waits.
fn saved_iptr(processor: &Processor, process: Word) -> Word
    ensures { result ≡ spec.saved_iptr processor.now process }
{
    word_there(processor, workspace_of(process).below(1))
}

/// The word whose four bytes begin at an address.
fn word_there(processor: &Processor, address: Word) -> Word
    ensures { result ≡ spec.word_there processor.now.store address }
{
    Word::new(u32::from_le_bytes([
        byte_there(processor, address),
        byte_there(processor, address.plus(Word::new(1))),
        byte_there(processor, address.plus(Word::new(2))),
        byte_there(processor, address.plus(Word::new(3))),
    ]))
}

/// The byte at an address, 0 where there is none.
fn byte_there(processor: &Processor, address: Word) -> u8
    ensures { result ≡ spec.byte_there processor.now.store address }
{
    processor.byte_at(address).unwrap_or(0)
}
