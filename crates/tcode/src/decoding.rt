//! Decoding.

ghost use Rattle.std.specs.Prelude.{◌≡◌, ◌==◌, ◌/◌, pos, negsuc, ◌-ℤ◌, ◌*ℤ◌, if◌then◌else◌, Some, None};
ghost use Rattle.std.specs.Prelude.{◌<◌, IfSome, length, true};
ghost use Rattle.tcode.specs.Chains.{instruction, is_listed, pfix};
ghost use Rattle.tcode.specs.Decoding.{IsFetched, fetch};
ghost use Rattle.tcode.specs.Decoding as spec;
ghost use Rattle.tcode.specs.Table.{function_at};
ghost use Rattle.tcode.specs.Codes.{Decodes};
ghost use Rattle.tcode.specs.Known.{IsFetchedWhole, TellsItsBytes};
ghost use Rattle.tword.specs.Actions.{run, run_from, value_of};
ghost use Rattle.tword.specs.Open.{AreOpenCounts};
ghost use Rattle.tword.specs.Words.{reduced};

use crate::code_table::CodeEntry;
use crate::codes::{NFIX, PFIX, code_of, function_of, operation_of};
use crate::instruction::{DecodeFault, Function, Instruction};
use tword::{Break, Kind, Marks, Memory, Word};

/// How many bytes an instruction has at most, with its prefixes (own choice).
const LONGEST: u8 = 16;

/// The word of a chain's value after a prefix, from the value with the prefix's data.
#[inline(always)]
fn prefixed(code: u8, value: u32) -> u32
    ensures { result ≡ reduced (if code == pfix then pos 16 *ℤ pos value else pos 16 *ℤ (negsuc 0 -ℤ pos value)) }
{
    if code == PFIX {
        value << 4
    } else {
        !value << 4
    }
}

/// The instruction that a function ends, unless its operation is not listed for the kind.
#[inline(always)]
fn ended(kind: &Kind, function: Function, operand: u32, length: u8) -> Option<Instruction>
    ensures { result
        ≡ (if is_listed kind.now function (pos operand) then Some (instruction function (pos operand) length)
        else None) }
{
    let operand = Word::new(operand);
    if let Function::Opr = function
        && operation_of(operand, *kind).is_none()
    {
        return None;
    }
    Some(Instruction {
        function,
        operand,
        length,
    })
}

/// The instruction at an address, for the kind of node that the memory belongs to. Its bytes are fetched one by one,
/// each with the checks of a touch. The kind is looked at only where an operation is met that not every kind has.
///
/// # Errors
/// The break of the first fetch that fails; `LongPrefix` where sixteen bytes were fetched and all are prefixes;
/// `NoSuchOperation` where its operation is not listed for the kind.
// Chains of three bytes and more stay out of line, so that the common cases are small where they are inlined.
#[inline(always)]
#[tactic(auto, unfolding(crate::specs::Decoding::decode))]
pub fn decode(memory: &Memory, marks: &Marks, iptr: Word) -> Result<Instruction, Break>
    ensures { result ≡ value_of (run (spec.decode memory.now.kind iptr) memory.now.bytes marks.now) }
{
    let byte = memory.read_byte(marks, iptr)?;
    match function_of(byte / 16) {
        Some(function) => ended(&memory.kind, function, u32::from(byte % 16), 1).ok_or(
            Break::NoSuchOperation,
        ),
        None => decode_prefixed(memory, marks, iptr, byte),
    }
}

/// The instruction at an address where a prefix was fetched: most end with the next byte.
#[inline(always)]
fn decode_prefixed(
    memory: &Memory,
    marks: &Marks,
    iptr: Word,
    prefix: u8,
) -> Result<Instruction, Break>
    requires fetched { IsFetched memory.now.bytes marks.now iptr prefix }
    requires prefix { function_at (prefix / 16) ≡ None }
    ensures { result ≡ value_of (run (spec.decode memory.now.kind iptr) memory.now.bytes marks.now) }
{
    let value = prefixed(prefix / 16, u32::from(prefix % 16));
    let address = iptr.plus(Word::new(1));
    let byte = memory.read_byte(marks, address)?;
    let sum = value.wrapping_add(u32::from(byte % 16));
    match function_of(byte / 16) {
        Some(function) => ended(&memory.kind, function, sum, 2).ok_or(Break::NoSuchOperation),
        None => {
            let longer = prefixed(byte / 16, sum);
            let behind = address.plus(Word::new(1));
            decode_chain(memory, marks, behind, longer)
        }
    }
}

/// The instruction that goes on at an address, where two prefixes have led to this value.
#[cold]
#[inline(never)]
fn decode_chain(
    memory: &Memory,
    marks: &Marks,
    address: Word,
    value: u32,
) -> Result<Instruction, Break>
    ensures { result
        ≡ value_of (run_from (fetch memory.now.kind 14 2 address (pos value)) memory.now.bytes marks.now
        memory.now.bytes) }
{
    let mut address = address;
    let mut value = value;
    for had in 2..LONGEST {
        let byte = memory.read_byte(marks, address)?;
        let sum = value.wrapping_add(u32::from(byte % 16));
        if let Some(function) = function_of(byte / 16) {
            return ended(&memory.kind, function, sum, had + 1).ok_or(Break::NoSuchOperation);
        }
        value = prefixed(byte / 16, sum);
        address = address.plus(Word::new(1));
    }
    Err(Break::LongPrefix)
}

/// The instruction at an address with its bytes, as it is kept: one of one byte or two, where the counts of open words
/// show at once that these may be fetched. Whether its operation is listed for the kind is left open.
pub(crate) fn short_code_at(
    memory: &Memory,
    marks: &Marks,
    counts: &[u16],
    iptr: Word,
) -> Option<CodeEntry>
    requires { AreOpenCounts counts.now (length memory.now.bytes) marks.now }
    ensures at { IfSome result (λ entry. entry.address ≡ iptr) }
    ensures tells { IfSome result (λ entry. TellsItsBytes entry) }
    ensures fetched { IfSome result (λ entry. IsFetchedWhole memory.now.bytes marks.now entry) }
    ensures some { IfSome result (λ entry. 0 < entry.length) }
{
    let first = memory.bytes.open_byte(marks, counts, iptr)?;
    if is_prefix(first / 16) {
        let second = memory
            .bytes
            .open_byte(marks, counts, iptr.plus(Word::new(1)))?;
        return prefixed_code(iptr, first, second);
    }
    Some(CodeEntry {
        address: iptr,
        operand: Word::new(u32::from(first % 16)),
        behind: iptr.plus(Word::new(1)),
        code: first / 16,
        length: 1,
        first,
        second: 0,
    })
}

/// An instruction of a prefix and one byte more, as it is kept, unless that is a prefix too.
fn prefixed_code(address: Word, first: u8, second: u8) -> Option<CodeEntry>
    requires { function_at (first / 16) ≡ None }
    ensures at { IfSome result (λ entry. entry.address ≡ address) }
    ensures tells { IfSome result (λ entry. TellsItsBytes entry) }
    ensures bytes { IfSome result (λ entry. (entry.length ≡ 2) × (entry.first ≡ first) × (entry.second ≡ second)) }
{
    if is_prefix(second / 16) {
        return None;
    }
    let value = prefixed(first / 16, u32::from(first % 16));
    Some(CodeEntry {
        address,
        operand: Word::new(value.wrapping_add(u32::from(second % 16))),
        behind: address.plus(Word::new(2)),
        code: second / 16,
        length: 2,
        first,
        second,
    })
}

/// Whether four bits are the code of a prefix.
#[inline(always)]
#[tactic(auto, unfolding(crate::specs::Table::function_at))]
fn is_prefix(code: u8) -> bool
    ensures { result ≡ true → function_at code ≡ None }
{
    code == PFIX || code == NFIX
}

/// The code of the function and the operand of the instruction at an address, and the address behind it: as `decode`
/// finds them.
pub(crate) fn any_chain_at(memory: &Memory, marks: &Marks, iptr: Word) -> Option<(u8, Word, Word)>
    ensures { IfSome result (λ chain. Decodes memory.now.kind iptr (function_at chain.0) chain.1 chain.2
        (value_of (run (spec.decode memory.now.kind iptr) memory.now.bytes marks.now))) }
{
    match decode(memory, marks, iptr) {
        Ok(i) => {
            let behind = iptr.plus(Word::new(u32::from(i.length)));
            Some((code_of(i.function), i.operand, behind))
        }
        Err(_) => None,
    }
}

/// The instruction at the head of plain bytes, for a node of a kind.
///
/// # Errors
/// `Ended` where the bytes end within it, `LongPrefix` where the first sixteen are all prefixes, `NoSuchOperation`
/// where its operation is not listed for the kind.
pub fn decode_bytes(bytes: &[u8], kind: Kind) -> Result<Instruction, DecodeFault>
    ensures { result ≡ spec.decode_bytes kind bytes.now }
{
    let mut value = 0u32;
    for had in 0..LONGEST {
        if bytes.len() <= had as usize {
            return Err(DecodeFault::Ended);
        }
        let byte = bytes[had as usize];
        let sum = value.wrapping_add(u32::from(byte % 16));
        if let Some(function) = function_of(byte / 16) {
            return ended(&kind, function, sum, had + 1).ok_or(DecodeFault::NoSuchOperation);
        }
        value = prefixed(byte / 16, sum);
    }
    Err(DecodeFault::LongPrefix)
}
