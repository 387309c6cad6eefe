//! Instructions of a process on its registers and the words of its node.

ghost use Rattle.std.specs.Prelude.{◌≡◌, ◌∷◌, [], ◌&&◌, true, Bool, List};
ghost use Rattle.tword.specs.Words.{word_from};
ghost use Rattle.tcpu.specs.declared.registers.Registers as declared;
ghost use Rattle.tcpu.specs.Effects.{local_or_left};
ghost use Rattle.tcpu.specs.Functions.{function_effect};
ghost use Rattle.tcpu.specs.Operations.{is_positive_word, operation_effect};
ghost use Rattle.tcpu.specs.Outcomes as stack;
ghost use Rattle.tprocesses.specs.Performing.{bytes_if, perform};
ghost use Rattle.tcertify.specs.Instructions.{outcome};
ghost use Rattle.tcertify.specs.Words.{Runs, site_of, told};

use crate::stop::Stop;
use crate::stored::Words;
use tcode::{Function, Operation};
use tcpu::{Next, Registers};
use tword::{Span, Word};

/// What an instruction did: what follows it, and whether all that it read is known.
#[derive(Clone, Copy)]
pub struct Done {
    pub next: Next,
    pub known: bool,
}

impl Done {
    /// The next instruction follows.
    #[inline(always)]
    pub(crate) fn goes(known: bool) -> Done
        ensures next { result.next ≡ Next.Go }
        ensures known { result.known ≡ known }
    {
        Done {
            next: Next::Go,
            known,
        }
    }
}

/// The address of the word at an index from a base on.
#[inline(always)]
pub(crate) fn word_address(base: Word, index: Word) -> Word
    ensures { result ≡ word_from base index }
{
    base.plus(Word::new(index.get().wrapping_mul(4)))
}

/// Pushes a value: B moves to C, A to B.
#[inline(always)]
fn push(registers: &mut Registers, value: Word)
    ensures { registers.new ≡ stack.push value registers.old }
{
    registers.c = registers.b;
    registers.b = registers.a;
    registers.a = value;
}

/// Pops the top: B moves to A, C to B. C keeps its value.
#[inline(always)]
fn pop(registers: &mut Registers)
    ensures { registers.new ≡ stack.pop registers.old }
{
    registers.a = registers.b;
    registers.b = registers.c;
}

/// `ldl`: pushes a word of the workspace.
///
/// # Errors
/// Those of a read of the word.
#[inline(always)]
pub(crate) fn load_local(
    registers: &mut Registers,
    words: &mut Words,
    operand: Word,
) -> Result<Done, Stop>
    ensures done { Runs (perform (site_of words.old) [] (function_effect Function.Ldl operand registers.old)) words.old
        (told (outcome registers.new) result) words.new }
    ensures site { site_of words.new ≡ site_of words.old }
{
    let cells = words.read_word(word_address(registers.wptr, operand))?;
    push(registers, cells.word());
    Ok(Done::goes(cells.are_known()))
}

/// `ldnl`: the word at an index from A on.
///
/// # Errors
/// Those of a read of the word.
#[inline(always)]
pub(crate) fn load_non_local(
    registers: &mut Registers,
    words: &mut Words,
    operand: Word,
) -> Result<Done, Stop>
    ensures done { Runs (perform (site_of words.old) [] (function_effect Function.Ldnl operand registers.old)) words.old
        (told (outcome registers.new) result) words.new }
    ensures site { site_of words.new ≡ site_of words.old }
{
    let cells = words.read_word(word_address(registers.a, operand))?;
    registers.a = cells.word();
    Ok(Done::goes(cells.are_known()))
}

/// `stl`: pops A into a word of the workspace. known: whether A is.
///
/// # Errors
/// Those of a write of the word.
#[inline(always)]
pub(crate) fn store_local(
    registers: &mut Registers,
    words: &mut Words,
    known: bool,
    operand: Word,
) -> Result<Done, Stop>
    ensures done { Runs (perform (site_of words.old) (known ∷ []) (function_effect Function.Stl operand registers.old))
        words.old (told (outcome registers.new) result) words.new }
    ensures site { site_of words.new ≡ site_of words.old }
{
    words.store(word_address(registers.wptr, operand), known, registers.a)?;
    pop(registers);
    Ok(Done::goes(true))
}

/// `stnl`: pops B into the word at an index from A on, and A. known: whether B is.
///
/// # Errors
/// Those of a write of the word.
#[inline(always)]
pub(crate) fn store_non_local(
    registers: &mut Registers,
    words: &mut Words,
    known: bool,
    operand: Word,
) -> Result<Done, Stop>
    ensures done { Runs (perform (site_of words.old) (known ∷ []) (function_effect Function.Stnl operand registers.old))
        words.old (told (outcome registers.new) result) words.new }
    ensures site { site_of words.new ≡ site_of words.old }
{
    words.store(word_address(registers.a, operand), known, registers.b)?;
    pop(registers);
    pop(registers);
    Ok(Done::goes(true))
}

/// `call`: the address behind the instruction, A, B and C are put below the workspace. Of A, B and C is told whether
/// they are known.
///
/// # Errors
/// Those of a write of the first of the four words, from the lowest up, that may not be written.
#[inline(always)]
pub(crate) fn call(
    registers: &mut Registers,
    words: &mut Words,
    a_known: bool,
    b_known: bool,
    c_known: bool,
    operand: Word,
) -> Result<Done, Stop>
    ensures done { Runs (perform (site_of words.old) (true ∷ a_known ∷ b_known ∷ c_known ∷ [])
        (function_effect Function.Call operand registers.old)) words.old (told (outcome registers.new) result)
        words.new }
    ensures site { site_of words.new ≡ site_of words.old }
{
    let wptr = registers.wptr;
    let workspace = wptr.below(4);
    words.store(workspace, true, registers.iptr)?;
    words.store(wptr.below(3), a_known, registers.a)?;
    words.store(wptr.below(2), b_known, registers.b)?;
    words.store(wptr.below(1), c_known, registers.c)?;
    let target = registers.iptr.plus(operand);
    registers.wptr = workspace;
    registers.a = registers.iptr;
    registers.iptr = target;
    Ok(Done::goes(true))
}

/// `ret`: goes on at the address at the workspace, which moves up by four words.
///
/// # Errors
/// Those of a read of the word.
#[inline(always)]
pub(crate) fn return_to_caller(registers: &mut Registers, words: &mut Words) -> Result<Done, Stop>
    ensures done { (before : declared.Registers) → Runs (perform (site_of words.old) []
        (local_or_left (operation_effect Operation.Ret registers.old) Operation.Ret before)) words.old
        (told (outcome registers.new) result) words.new }
    ensures site { site_of words.new ≡ site_of words.old }
{
    let cells = words.read_word(registers.wptr)?;
    let target = cells.word();
    let workspace = registers.wptr.plus(Word::new(16));
    registers.iptr = target;
    registers.wptr = workspace;
    Ok(Done::goes(cells.are_known()))
}

/// `lb`: the byte at A.
///
/// # Errors
/// Those of a read of the byte.
#[inline(always)]
pub(crate) fn load_byte(registers: &mut Registers, words: &mut Words) -> Result<Done, Stop>
    ensures done { (before : declared.Registers) → Runs (perform (site_of words.old) []
        (local_or_left (operation_effect Operation.Lb registers.old) Operation.Lb before)) words.old
        (told (outcome registers.new) result) words.new }
    ensures site { site_of words.new ≡ site_of words.old }
{
    let byte = words.read_byte(registers.a)?;
    let lowest = byte.unwrap_or(0);
    let value = Word::new(u32::from(lowest));
    registers.a = value;
    Ok(Done::goes(byte.is_some()))
}

/// `sb`: pops the low byte of B to the address A. known: whether B is.
///
/// # Errors
/// Those of a write of the byte.
#[inline(always)]
pub(crate) fn store_byte(
    registers: &mut Registers,
    words: &mut Words,
    known: bool,
) -> Result<Done, Stop>
    ensures done { (before : declared.Registers) → Runs (perform (site_of words.old) (known ∷ [])
        (local_or_left (operation_effect Operation.Sb registers.old) Operation.Sb before)) words.old
        (told (outcome registers.new) result) words.new }
    ensures site { site_of words.new ≡ site_of words.old }
{
    let cell = known_cell(known, (registers.b.get() % 256) as u8);
    words.write_byte(registers.a, cell)?;
    pop(registers);
    pop(registers);
    Ok(Done::goes(true))
}

/// A byte, where it is known.
#[inline(always)]
fn known_cell(known: bool, byte: u8) -> Option<u8>
    ensures { result ∷ [] ≡ bytes_if known (byte ∷ []) }
{
    if known { Some(byte) } else { None }
}

/// `lend`: counts a loop down, and goes round again where the count is above 0.
///
/// # Errors
/// Those of a write of the count, else of the index.
pub(crate) fn loop_end(registers: &mut Registers, words: &mut Words) -> Result<Done, Stop>
    ensures done { (before : declared.Registers) → Runs (perform (site_of words.old) []
        (local_or_left (operation_effect Operation.Lend registers.old) Operation.Lend before)) words.old
        (told (outcome registers.new) result) words.new }
    ensures site { site_of words.new ≡ site_of words.old }
{
    let place = registers.b.plus(Word::new(4));
    let count = words.take_word(place)?;
    let index = words.take_word(registers.b)?;
    let left = count.word().minus(Word::new(1));
    words.store(place, true, left)?;
    let known = both(count.are_known(), index.are_known());
    if !is_positive(left) {
        pop(registers);
        pop(registers);
        return Ok(Done::goes(known));
    }
    words.store(registers.b, true, index.word().plus(Word::new(1)))?;
    let start = registers.iptr.minus(registers.a);
    pop(registers);
    pop(registers);
    registers.iptr = start;
    Ok(Done {
        next: Next::Jumped,
        known,
    })
}

/// `move`: copies A bytes from the address C on to the address B on, and pops all three.
///
/// # Errors
/// Those of a read of the bytes, else those of a write of the others.
pub(crate) fn move_bytes(registers: &mut Registers, words: &mut Words) -> Result<Done, Stop>
    ensures done { (before : declared.Registers) (known : List Bool) → Runs (perform (site_of words.old) known
        (local_or_left (operation_effect Operation.Move registers.old) Operation.Move before)) words.old
        (told (outcome registers.new) result) words.new }
    ensures site { site_of words.new ≡ site_of words.old }
{
    let size = registers.a.get();
    let from = Span {
        start: registers.c,
        size,
    };
    let to = Span {
        start: registers.b,
        size,
    };
    words.copy(&from, &to)?;
    pop(registers);
    pop(registers);
    pop(registers);
    Ok(Done::goes(true))
}

/// Whether a word is above 0, by its signed reading.
#[inline(always)]
fn is_positive(word: Word) -> bool
    ensures { result ≡ is_positive_word word }
{
    word.signed() > 0
}

/// Whether both hold.
#[inline(always)]
fn both(first: bool, second: bool) -> bool
    ensures { result ≡ (first && second) }
{
    first && second
}
