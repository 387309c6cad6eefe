//! An image as instructions, as they stand in it.

ghost use Rattle.std.specs.Prelude.{IfErr, OnOk, ◌≡◌, ◌++◌, codes};
ghost use Rattle.std.specs.Fmt.{signed_decimal};
ghost use Rattle.tcode.specs.Table.{function_entry};
ghost use Rattle.tcode.specs.Texts.{instruction_text};
ghost use Rattle.tfiles.specs.Disassembly as spec;
ghost use Rattle.tfiles.specs.Disassembly.{at_address, byte_text, head_size, head_text, segment_lines};
ghost use Rattle.tfiles.specs.Failures.{HasRisen, HasStayed};
ghost use Rattle.tfiles.specs.Outputs.{IsOut, Tells};

use crate::counted::CountedWrite;
use crate::writing::output::{Output, WriteFault};
use crate::writing::text::{put_byte, put_hex, put_signed};
use tcode::{DecodeFault, Function, Instruction, decode_bytes, function_name, operation_name};
use tplan::plan::{Image, Segment};
use tword::{Kind, Word};

/// Writes the instructions of an image, as those of a node of a kind (own choice of format): for each segment, at each
/// address, a line `80000080: ldc 4`. Where no instruction of the kind can be decoded within the segment, the line is
/// `80000080: db 60`, and the next one is at the next byte. An address is taken modulo 2^32.
///
/// # Errors
/// Where the writer fails or takes nothing. Then only the first bytes are written, as many as the fault tells.
pub fn dis_text<W: CountedWrite>(image: &Image, kind: Kind, out: &mut W) -> Result<(), WriteFault>
    ensures out { IsOut (W.contents out.old) (W.contents out.new) (spec.dis_text kind image.now) result }
    ensures cause { IfErr result (λ _. HasRisen (W.failures out.old) (W.failures out.new)) }
    ensures stayed { OnOk result (HasStayed (W.failures out.old) (W.failures out.new)) }
{
    let mut output = Output::new(out);
    put_image(&mut output, image, kind);
    output.finish()
}

/// The lines of an image.
fn put_image<W: CountedWrite>(out: &mut Output<'_, W>, image: &Image, kind: Kind)
    ensures { Tells W.contents W.failures out.old out.new (spec.dis_text kind image.now) }
{
    for segment in image.segments.as_slice() {
        put_segment(out, segment, kind);
    }
}

/// The lines of a segment.
fn put_segment<W: CountedWrite>(out: &mut Output<'_, W>, segment: &Segment, kind: Kind)
    ensures { Tells W.contents W.failures out.old out.new (segment_lines kind segment.now) }
{
    let mut address = segment.address;
    let mut rest = segment.bytes.as_slice();
    while let Some(byte) = rest.first() {
        let head = decode_bytes(rest, kind);
        put_line(out, address, &head, *byte);
        let size = size_of_head(&head);
        address = address.plus(Word::new(size as u32));
        rest = &rest[size..];
    }
}

/// How many bytes stand on a line.
fn size_of_head(head: &Result<Instruction, DecodeFault>) -> usize
    ensures { result ≡ head_size head.now }
{
    match head {
        Ok(instruction) => usize::from(instruction.length),
        Err(_) => 1,
    }
}

/// Writes the line of an address: the instruction there, or else the byte.
fn put_line<W: CountedWrite>(
    out: &mut Output<'_, W>,
    address: Word,
    head: &Result<Instruction, DecodeFault>,
    byte: u8,
)
    ensures { Tells W.contents W.failures out.old out.new (at_address address (head_text head.now byte)) }
{
    put_hex(out, &address.get().to_be_bytes());
    out.put(b": ");
    put_head(out, head, byte);
    out.put(b"\n");
}

/// What stands on a line: an instruction, or a byte at which none begins.
fn put_head<W: CountedWrite>(
    out: &mut Output<'_, W>,
    head: &Result<Instruction, DecodeFault>,
    byte: u8,
)
    ensures { Tells W.contents W.failures out.old out.new (head_text head.now byte) }
{
    match head {
        Ok(instruction) => put_instruction(out, instruction),
        Err(_) => put_data(out, byte),
    }
}

/// An instruction. Each operation has its name, whichever kind lists it.
pub fn put_instruction<W: CountedWrite>(out: &mut Output<'_, W>, instruction: &Instruction)
    ensures { Tells W.contents W.failures out.old out.new (instruction_text instruction.now) }
{
    match instruction.named_operation() {
        Some(operation) => out.put(operation_name(operation).as_bytes()),
        None => put_function(out, instruction.function, instruction.operand.signed()),
    }
}

/// A function and its operand.
fn put_function<W: CountedWrite>(out: &mut Output<'_, W>, function: Function, operand: i32)
    ensures { Tells W.contents W.failures out.old out.new
        ((function_entry function).name ++ (codes " " ++ signed_decimal operand)) }
{
    out.put(function_name(function).as_bytes());
    out.put(b" ");
    put_signed(out, operand);
}

/// A byte at which no instruction begins.
fn put_data<W: CountedWrite>(out: &mut Output<'_, W>, byte: u8)
    ensures { Tells W.contents W.failures out.old out.new (byte_text byte) }
{
    out.put(b"db ");
    put_byte(out, byte);
}
