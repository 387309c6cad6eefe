//! Decoding on the words of a node.

ghost use Rattle.std.specs.Prelude.{◌≡◌, ◌∷◌, [], None, Ok};
ghost use Rattle.tcode.specs.Decoding as spec;
ghost use Rattle.tcode.specs.Table.{function_at};
ghost use Rattle.tcertify.specs.Instructions.{chain_of, decoded, decoded_behind};
ghost use Rattle.tcertify.specs.Words.{Runs, site_of, told};

use crate::stop::Stop;
use crate::stored::Words;
use tcode::{DecodeFault, Function, Instruction, decode_bytes, operation_of};
use tword::{Break, Kind, Word};

/// How many bytes an instruction has at most.
const LONGEST: usize = 16;

/// The function of a byte's high four bits, unless they are a prefix.
#[inline(always)]
#[tactic(auto, unfolding(tcode::specs::Table::function_at))]
fn function_of(code: u8) -> Option<Function>
    ensures { result ≡ function_at code }
{
    match code {
        0x0 => Some(Function::J),
        0x1 => Some(Function::Ldlp),
        0x3 => Some(Function::Ldnl),
        0x4 => Some(Function::Ldc),
        0x5 => Some(Function::Ldnlp),
        0x7 => Some(Function::Ldl),
        0x8 => Some(Function::Adc),
        0x9 => Some(Function::Call),
        0xa => Some(Function::Cj),
        0xb => Some(Function::Ajw),
        0xc => Some(Function::Eqc),
        0xd => Some(Function::Stl),
        0xe => Some(Function::Stnl),
        0xf => Some(Function::Opr),
        _ => None,
    }
}

/// The instruction of one byte; none where that is a prefix.
///
/// # Errors
/// `NoSuchOperation` where its operation is not listed for the kind.
#[inline(always)]
pub(crate) fn single(byte: u8, kind: Kind) -> Result<Option<Instruction>, Break>
    ensures { result ≡ chain_of (spec.decode_bytes kind (byte ∷ [])) }
{
    let Some(function) = function_of(byte / 16) else {
        return Ok(None);
    };
    let operand = Word::new(u32::from(byte % 16));
    if let Function::Opr = function
        && operation_of(operand, kind).is_none()
    {
        return Err(Break::NoSuchOperation);
    }
    Ok(Some(Instruction {
        function,
        operand,
        length: 1,
    }))
}

/// The instruction at the head of plain bytes; none where they end within it.
///
/// # Errors
/// `LongPrefix` where the first sixteen are all prefixes, `NoSuchOperation` where its operation is not listed for the
/// kind.
#[inline(always)]
pub(crate) fn chain(bytes: &[u8], kind: Kind) -> Result<Option<Instruction>, Break>
    ensures { result ≡ chain_of (spec.decode_bytes kind bytes.now) }
{
    match decode_bytes(bytes, kind) {
        Ok(instruction) => Ok(Some(instruction)),
        Err(DecodeFault::Ended) => Ok(None),
        Err(DecodeFault::NoSuchOperation) => Err(Break::NoSuchOperation),
        Err(DecodeFault::LongPrefix) => Err(Break::LongPrefix),
    }
}

/// The instruction at an address: most have one byte.
///
/// # Errors
/// Those of a read of the bytes; `SawTheScheduler` where one is not known; `LongPrefix` and `NoSuchOperation`.
#[inline(always)]
pub fn decode(words: &mut Words, iptr: Word) -> Result<Instruction, Stop>
    ensures done { Runs (decoded (site_of words.old) iptr) words.old (told (λ i. i) result) words.new }
    ensures site { site_of words.new ≡ site_of words.old }
{
    let Some(first) = words.read_byte(iptr)? else {
        return Err(Stop::SawTheScheduler);
    };
    match single(first, words.kind)? {
        Some(instruction) => Ok(instruction),
        None => decode_prefixed(words, iptr, first),
    }
}

/// The instruction at an address of which the first byte was read, a prefix. As long as the bytes so far end within it,
/// one more is read.
///
/// # Errors
/// Those of `decode`.
#[inline(never)]
fn decode_prefixed(words: &mut Words, iptr: Word, first: u8) -> Result<Instruction, Stop>
    requires { chain_of (spec.decode_bytes words.old.kind (first ∷ [])) ≡ Ok None }
    ensures done { Runs (decoded_behind (site_of words.old) iptr first) words.old (told (λ i. i) result) words.new }
    ensures site { site_of words.new ≡ site_of words.old }
{
    let mut bytes = [0; LONGEST];
    bytes[0] = first;
    let mut address = iptr.plus(Word::new(1));
    for had in 1..LONGEST {
        let Some(byte) = words.read_byte(address)? else {
            return Err(Stop::SawTheScheduler);
        };
        bytes[had] = byte;
        if let Some(instruction) = chain(&bytes[..had + 1], words.kind)? {
            return Ok(instruction);
        }
        address = address.plus(Word::new(1));
    }
    Err(Stop::Breaks(Break::LongPrefix))
}
