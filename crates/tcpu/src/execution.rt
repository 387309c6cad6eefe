//! Instructions of the running process: one, or several in a row.

ghost use Rattle.std.specs.Prelude.{◌≡◌, ◌<◌, ◌≤◌, IfOk, OnErr, Some, false, length, true};
ghost use Rattle.tword.specs.Actions.{run, value_of};
ghost use Rattle.tcode.specs.Codes.{Decodes};
ghost use Rattle.tcode.specs.Decoding.{decode};
ghost use Rattle.tcode.specs.Known.{AreFetched, Knows, StandsWhereMarked};
ghost use Rattle.tcpu.specs.Effects.{effect, effect_at, local_or_left};
ghost use Rattle.tcpu.specs.Local.{outcome_of, StandsWhereLeft};
ghost use Rattle.tcpu.specs.Operations.{operation_effect};
ghost use Rattle.tcpu.specs.Stretches as spec;
ghost use Rattle.tcpu.specs.Stretches.{gone_on, gone_one};
ghost use Rattle.tcpu.specs.Rows.{CodeGone, SelectedGone};
ghost use Rattle.tcpu.specs.Written.{written};
ghost use Rattle.tword.specs.Open.{AreOpenCounts};
ghost use Rattle.tword.specs.Outside.{StandsOutside};
ghost use Rattle.tcode.specs.Table.{function_at, operation_at};
ghost use Rattle.tcode.specs.declared.instruction.Function.TheVariants.{Opr};

use crate::registers::{Next, Registers, Step};
use tcode::{CodeEntry, CodeTable, Function, Instruction, Operation, known_at, operation_of};
use tword::{Break, Bytes, Kind, Marks, Memory, Word};

/// Does an instruction, as the tables of the Compiler Writer's Guide say, of those that the kind of the memory's node
/// has, or leaves an operation to the scheduler with nothing changed.
///
/// # Errors
/// The first check of the instruction that fails, in the order of its row: `Unaligned`, `BadAddress`, `Reserved`,
/// `InTransit` or `SavedWord` of a word or of bytes that it touches, `Unaligned` of a workspace, `NoSuchOperation`.
/// Registers and memory are then as they were.
#[inline(always)]
pub fn local(
    registers: &mut Registers,
    memory: &mut Memory,
    marks: &Marks,
    instruction: Instruction,
) -> Result<Next, Break>
    ensures done { run (effect memory.old.kind instruction registers.old) memory.old.bytes marks.now
        ≡ outcome_of result registers.new memory.new.bytes }
    ensures kept { OnErr result ((memory.new ≡ memory.old) × (registers.new ≡ registers.old)) }
    ensures left { IfOk result
        (λ next. StandsWhereLeft next memory.old.bytes registers.old memory.new.bytes registers.new) }
    ensures written { StandsOutside (written memory.old.kind instruction.function instruction.operand registers.old)
        memory.old.bytes memory.new.bytes }
    ensures sized { length memory.new.bytes ≡ length memory.old.bytes }
    ensures kind { memory.new.kind ≡ memory.old.kind }
{
    act_or_stay(
        &memory.kind,
        registers,
        &mut memory.bytes,
        marks,
        instruction,
    )
}

/// Does an instruction as `local` does, by the kind and the bytes of the memory.
///
/// # Errors
/// The breaks of `local`.
#[inline(always)]
#[tactic(auto, unfolding(crate::specs::Effects::effect))]
fn act_or_stay(
    kind: &Kind,
    registers: &mut Registers,
    memory: &mut Bytes,
    marks: &Marks,
    instruction: Instruction,
) -> Result<Next, Break>
    ensures done { run (effect kind.now instruction registers.old) memory.old marks.now
        ≡ outcome_of result registers.new memory.new }
    ensures kept { OnErr result ((memory.new ≡ memory.old) × (registers.new ≡ registers.old)) }
    ensures left { IfOk result (λ next. StandsWhereLeft next memory.old registers.old memory.new registers.new) }
    ensures written { StandsOutside (written kind.now instruction.function instruction.operand registers.old)
        memory.old memory.new }
    ensures sized { length memory.new ≡ length memory.old }
{
    let start = registers.iptr;
    let function = instruction.function;
    let operand = instruction.operand;
    registers.iptr = registers.behind(instruction.length);
    match act(kind, registers, memory, marks, start, function, operand) {
        Ok(next) => Ok(next),
        Err(broken) => {
            registers.iptr = start;
            Err(broken)
        }
    }
}

/// Does an instruction that began at `start`. Iptr is behind it already.
#[inline(always)]
fn act(
    kind: &Kind,
    registers: &mut Registers,
    memory: &mut Bytes,
    marks: &Marks,
    start: Word,
    function: Function,
    operand: Word,
) -> Step
    ensures done { run (effect_at kind.now function operand (record registers.old { iptr = start }) registers.old)
        memory.old marks.now ≡ outcome_of result registers.new memory.new }
    ensures kept { OnErr result ((memory.new ≡ memory.old) × (registers.new ≡ registers.old)) }
    ensures sized { length memory.new ≡ length memory.old }
{
    match function {
        Function::J => Ok(registers.jump(operand)),
        Function::Ldlp => Ok(registers.load_local_pointer(operand)),
        Function::Ldnl => registers.load_non_local(memory, marks, operand),
        Function::Ldc => Ok(registers.load_constant(operand)),
        Function::Ldnlp => Ok(registers.load_non_local_pointer(operand)),
        Function::Ldl => registers.load_local(memory, marks, operand),
        Function::Adc => Ok(registers.add_constant(operand)),
        Function::Call => registers.call(memory, marks, operand),
        Function::Cj => Ok(registers.conditional_jump(operand)),
        Function::Ajw => Ok(registers.adjust_workspace(operand)),
        Function::Eqc => Ok(registers.equals_constant(operand)),
        Function::Stl => registers.store_local(memory, marks, operand),
        Function::Stnl => registers.store_non_local(memory, marks, operand),
        // So that only the answer of this call lies in memory.
        Function::Opr => match operate_apart(kind, registers, memory, marks, start, operand) {
            Ok(next) => Ok(next),
            Err(broken) => Err(broken),
        },
    }
}

/// Does the operation that an operand selects, or leaves it to the scheduler, out of line.
#[inline(never)]
fn operate_apart(
    kind: &Kind,
    registers: &mut Registers,
    memory: &mut Bytes,
    marks: &Marks,
    start: Word,
    operand: Word,
) -> Step
    ensures done { run (effect_at kind.now Opr operand (record registers.old { iptr = start }) registers.old) memory.old
        marks.now ≡ outcome_of result registers.new memory.new }
    ensures kept { OnErr result ((memory.new ≡ memory.old) × (registers.new ≡ registers.old)) }
    ensures sized { length memory.new ≡ length memory.old }
{
    match operation_of(operand, *kind) {
        Some(operation) => operate(registers, memory, marks, start, operation),
        // Whoever makes an instruction without decoding it may name an operation that the kind does not have.
        None => Err(Break::NoSuchOperation),
    }
}

/// Does an operation, or leaves it to the scheduler.
#[inline(always)]
#[tactic(auto, unfolding(crate::specs::Operations::operation_effect))]
fn operate(
    registers: &mut Registers,
    memory: &mut Bytes,
    marks: &Marks,
    start: Word,
    operation: Operation,
) -> Step
    ensures done { run (local_or_left (operation_effect operation registers.old) operation
        (record registers.old { iptr = start })) memory.old marks.now ≡ outcome_of result registers.new memory.new }
    ensures kept { OnErr result ((memory.new ≡ memory.old) × (registers.new ≡ registers.old)) }
    ensures sized { length memory.new ≡ length memory.old }
{
    match operation {
        Operation::Rev => Ok(registers.reverse()),
        Operation::Lb => registers.load_byte(memory, marks),
        Operation::Bsub => Ok(registers.byte_subscript()),
        Operation::Diff => Ok(registers.difference()),
        Operation::Add => Ok(registers.add()),
        Operation::Gcall => Ok(registers.general_call()),
        Operation::Prod => Ok(registers.product()),
        Operation::Gt => Ok(registers.greater_than()),
        Operation::Wsub => Ok(registers.word_subscript()),
        Operation::Sub => Ok(registers.subtract()),
        Operation::Seterr => Ok(registers.set_error()),
        Operation::Csub0 => Ok(registers.check_subscript()),
        Operation::Ladd => Ok(registers.long_add()),
        Operation::Norm => Ok(registers.normalise()),
        Operation::Ldiv => Ok(registers.long_divide()),
        Operation::Ldpi => Ok(registers.load_pointer_to_instruction()),
        Operation::Xdble => Ok(registers.extend_to_double()),
        Operation::Rem => Ok(registers.remainder()),
        Operation::Ret => registers.return_from_call(memory, marks),
        Operation::Lend => registers.loop_end(memory, marks),
        Operation::Testerr => Ok(registers.test_error()),
        Operation::Testpranal => Ok(registers.test_analysing()),
        Operation::Div => Ok(registers.divide()),
        Operation::Lmul => Ok(registers.long_multiply()),
        Operation::Not => Ok(registers.complement()),
        Operation::Xor => Ok(registers.exclusive_or()),
        Operation::Bcnt => Ok(registers.byte_count()),
        Operation::Lshr => Ok(registers.long_shift_right()),
        Operation::Lshl => Ok(registers.long_shift_left()),
        Operation::Lsum => Ok(registers.long_sum()),
        Operation::Lsub => Ok(registers.long_subtract()),
        Operation::Xword => Ok(registers.extend_to_word()),
        Operation::Sb => registers.store_byte(memory, marks),
        Operation::Gajw => registers.general_adjust_workspace(memory, marks),
        Operation::Wcnt => Ok(registers.word_count()),
        Operation::Shr => Ok(registers.shift_right()),
        Operation::Shl => Ok(registers.shift_left()),
        Operation::Mint => Ok(registers.minimum_integer()),
        Operation::And => Ok(registers.bitwise_and()),
        Operation::Move => registers.move_bytes(memory, marks),
        Operation::Or => Ok(registers.bitwise_or()),
        Operation::Csngl => Ok(registers.check_single()),
        Operation::Ccnt1 => Ok(registers.check_count()),
        Operation::Ldiff => Ok(registers.long_difference()),
        Operation::Sum => Ok(registers.sum()),
        Operation::Mul => Ok(registers.multiply()),
        Operation::Cword => Ok(registers.check_word()),
        Operation::Clrhalterr => Ok(registers.clear_halt_on_error()),
        Operation::Sethalterr => Ok(registers.set_halt_on_error()),
        Operation::Testhalterr => Ok(registers.test_halt_on_error()),
        Operation::Dup => Ok(registers.duplicate()),
        Operation::Endp
        | Operation::In
        | Operation::Out
        | Operation::Startp
        | Operation::Outbyte
        | Operation::Outword
        | Operation::Stopp
        | Operation::Ldpri
        | Operation::Disc
        | Operation::Diss
        | Operation::Runp
        | Operation::Alt
        | Operation::Altwt
        | Operation::Altend
        | Operation::Enbc
        | Operation::Enbs
        | Operation::Stoperr => {
            registers.iptr = start;
            Ok(Next::Schedule(operation))
        }
    }
}

/// Does instructions in a row, at most `most`, as long as each is one of the most common ones and its process goes on
/// behind it: how many were done. The next one is left as it is, whatever it would do. Instructions are looked up in a
/// table of decoded code, and learned where they are not there; one that writes a word with kept code is not done.
// The registers are worked on in a place of their own, so that they need not lie in memory.
#[inline(never)]
pub fn local_row(
    registers: &mut Registers,
    memory: &mut Memory,
    marks: &Marks,
    codes: &mut CodeTable,
    most: u32,
) -> u32
    requires fetched { AreFetched codes.old.entries.items memory.old.bytes marks.now }
    ensures done { gone_on result memory.old.kind marks.now registers.old memory.old.bytes
        ≡ Some (registers.new, memory.new.bytes) }
    ensures within { result ≤ most }
    ensures fetched { AreFetched codes.new.entries.items memory.new.bytes marks.now }
    ensures sized { length memory.new.bytes ≡ length memory.old.bytes }
    ensures kind { memory.new.kind ≡ memory.old.kind }
{
    let mut now = *registers;
    let counts = marks.open_counts(memory.size());
    let done = row_of(&mut now, memory, marks, counts, codes, most);
    *registers = now;
    done
}

/// Does instructions in a row, as `local_row` does: how many. Where the short rows stop at an instruction that is not
/// in the table, it is learned, and done by itself.
#[inline(always)]
#[tactic(auto, unfolding(crate::specs::Stretches::gone_on), using(crate::proofs::Stretches::gone_next, crate::proofs::Stretches::gone_further))]
fn row_of(
    registers: &mut Registers,
    memory: &mut Memory,
    marks: &Marks,
    counts: &[u16],
    codes: &mut CodeTable,
    most: u32,
) -> u32
    requires counts { AreOpenCounts counts.now (length memory.old.bytes) marks.now }
    requires fetched { AreFetched codes.old.entries.items memory.old.bytes marks.now }
    ensures done { gone_on result memory.old.kind marks.now registers.old memory.old.bytes
        ≡ Some (registers.new, memory.new.bytes) }
    ensures within { result ≤ most }
    ensures fetched { AreFetched codes.new.entries.items memory.new.bytes marks.now }
    ensures sized { length memory.new.bytes ≡ length memory.old.bytes }
    ensures kind { memory.new.kind ≡ memory.old.kind }
{
    let mut done = 0;
    while done < most {
        let entries = codes.entries.as_slice();
        let words = codes.words.as_slice();
        let (count, is_unknown) = short_row(
            registers,
            memory,
            marks,
            counts,
            entries,
            words,
            most - done,
        );
        done += count;
        if !is_unknown {
            return done;
        }
        // So that only this copy need lie in memory.
        let mut now = *registers;
        let goes_on = plain_closely(&mut now, memory, marks, counts, codes);
        *registers = now;
        if !goes_on {
            return done;
        }
        done += 1;
    }
    done
}

/// Does instructions in a row that are in the table, as `local_row` does: how many, and whether the next one is not
/// there.
#[inline(always)]
#[tactic(auto, unfolding(crate::specs::Stretches::gone_on))]
fn short_row(
    registers: &mut Registers,
    memory: &mut Memory,
    marks: &Marks,
    counts: &[u16],
    entries: &[CodeEntry],
    words: &[u8],
    most: u32,
) -> (u32, bool)
    requires counts { AreOpenCounts counts.now (length memory.old.bytes) marks.now }
    requires knows { Knows entries.now words.now memory.old.bytes marks.now }
    ensures done { gone_on result.0 memory.old.kind marks.now registers.old memory.old.bytes
        ≡ Some (registers.new, memory.new.bytes) }
    ensures within { result.0 ≤ most }
    ensures more { result.1 ≡ true → result.0 < most }
    ensures knows { Knows entries.now words.now memory.new.bytes marks.now }
    ensures sized { length memory.new.bytes ≡ length memory.old.bytes }
    ensures kind { memory.new.kind ≡ memory.old.kind }
{
    let mut left = most;
    while left > 0 {
        let Some(chain) = known_at(entries, words, memory, marks, registers.iptr) else {
            return (most - left, true);
        };
        if !plain_chain(registers, memory, marks, counts, words, chain) {
            return (most - left, false);
        }
        left -= 1;
    }
    (most, false)
}

/// Learns the instruction at Iptr, and does it if it is one of the most common ones and its process goes on behind it:
/// whether it was done. Else no register and no byte is changed.
#[cold]
#[inline(never)]
fn plain_closely(
    registers: &mut Registers,
    memory: &mut Memory,
    marks: &Marks,
    counts: &[u16],
    codes: &mut CodeTable,
) -> bool
    requires counts { AreOpenCounts counts.now (length memory.old.bytes) marks.now }
    requires fetched { AreFetched codes.old.entries.items memory.old.bytes marks.now }
    ensures done { result ≡ true → gone_one memory.old.kind marks.now (Some (registers.old, memory.old.bytes))
        ≡ Some (registers.new, memory.new.bytes) }
    ensures kept { result ≡ false → (memory.new ≡ memory.old) × (registers.new ≡ registers.old) }
    ensures fetched { AreFetched codes.new.entries.items memory.new.bytes marks.now }
    ensures sized { length memory.new.bytes ≡ length memory.old.bytes }
    ensures kind { memory.new.kind ≡ memory.old.kind }
{
    match codes.learn(memory, marks, counts, registers.iptr) {
        Some(chain) => {
            let words = codes.words.as_slice();
            plain_chain(registers, memory, marks, counts, words, chain)
        }
        None => false,
    }
}

/// Does the instruction at Iptr, of which this was decoded, as `plain_closely` does.
#[inline(always)]
fn plain_chain(
    registers: &mut Registers,
    memory: &mut Memory,
    marks: &Marks,
    counts: &[u16],
    words: &[u8],
    chain: (u8, Word, Word),
) -> bool
    requires counts { AreOpenCounts counts.now (length memory.old.bytes) marks.now }
    requires decoded { Decodes memory.old.kind registers.old.iptr (function_at chain.0) chain.1 chain.2
        (value_of (run (decode memory.old.kind registers.old.iptr) memory.old.bytes marks.now)) }
    ensures done { result ≡ true → gone_one memory.old.kind marks.now (Some (registers.old, memory.old.bytes))
        ≡ Some (registers.new, memory.new.bytes) }
    ensures kept { result ≡ false → (memory.new ≡ memory.old) × (registers.new ≡ registers.old) }
    ensures marked { StandsWhereMarked words.now memory.old.bytes memory.new.bytes }
    ensures sized { length memory.new.bytes ≡ length memory.old.bytes }
    ensures kind { memory.new.kind ≡ memory.old.kind }
{
    let start = registers.iptr;
    let (code, operand, behind) = chain;
    registers.iptr = behind;
    let bytes = &mut memory.bytes;
    if plain(
        &memory.kind,
        registers,
        bytes,
        marks,
        counts,
        words,
        code,
        operand,
    ) {
        return true;
    }
    registers.iptr = start;
    false
}

/// Does the function of a code, Iptr being behind it, if it is one of the most common ones and its process goes on
/// behind it: whether it was done. Else nothing is changed.
#[inline(always)]
#[tactic(auto, unfolding(tcode::specs::Table::function_at, crate::specs::Functions::function_effect))]
fn plain(
    kind: &Kind,
    registers: &mut Registers,
    memory: &mut Bytes,
    marks: &Marks,
    counts: &[u16],
    words: &[u8],
    code: u8,
    operand: Word,
) -> bool
    requires { AreOpenCounts counts.now (length memory.old) marks.now }
    ensures done { result ≡ true → CodeGone kind.now (function_at code) operand registers.old memory.old marks.now
        registers.new memory.new }
    ensures kept { result ≡ false → (memory.new ≡ memory.old) × (registers.new ≡ registers.old) }
    ensures marked { StandsWhereMarked words.now memory.old memory.new }
    ensures sized { length memory.new ≡ length memory.old }
{
    match code {
        0x0 => did(registers.jump(operand)),
        0x1 => did(registers.load_local_pointer(operand)),
        0x3 => registers.load_open_non_local(memory, marks, counts, operand),
        0x4 => did(registers.load_constant(operand)),
        0x5 => did(registers.load_non_local_pointer(operand)),
        0x7 => registers.load_open_local(memory, marks, counts, operand),
        0x8 => registers.add_small_constant(operand),
        0x9 => registers.open_call(memory, marks, counts, words, operand),
        0xa => did(registers.conditional_jump(operand)),
        0xb => did(registers.adjust_workspace(operand)),
        0xc => did(registers.equals_constant(operand)),
        0xd => registers.store_open_local(memory, marks, counts, words, operand),
        0xe => registers.store_open_non_local(memory, marks, counts, words, operand),
        0xf => plain_operation(kind, registers, memory, marks, counts, words, operand),
        _ => false,
    }
}

/// Does a local operation, as `plain` does a function.
#[inline(always)]
#[tactic(auto, unfolding(tcode::specs::Table::operation_at, crate::specs::Operations::operation_effect))]
fn plain_operation(
    kind: &Kind,
    registers: &mut Registers,
    memory: &mut Bytes,
    marks: &Marks,
    counts: &[u16],
    words: &[u8],
    operand: Word,
) -> bool
    requires { AreOpenCounts counts.now (length memory.old) marks.now }
    ensures done { result ≡ true → SelectedGone (operation_at kind.now operand) registers.old memory.old marks.now
        registers.new memory.new }
    ensures kept { result ≡ false → (memory.new ≡ memory.old) × (registers.new ≡ registers.old) }
    ensures marked { StandsWhereMarked words.now memory.old memory.new }
    ensures sized { length memory.new ≡ length memory.old }
{
    match operand.get() {
        0x00 => did(registers.reverse()),
        0x01 => registers.load_open_byte(memory, marks, counts),
        0x02 => did(registers.byte_subscript()),
        0x04 => did(registers.difference()),
        0x05 => registers.add_small(),
        0x08 => did(registers.product()),
        0x09 => did(registers.greater_than()),
        0x0a => did(registers.word_subscript()),
        0x0c => registers.subtract_small(),
        0x1b => did(registers.load_pointer_to_instruction()),
        0x20 => registers.open_return(memory, marks, counts),
        0x21 => registers
            .open_loop_end(memory, marks, counts, words)
            .is_some(),
        0x32 => did(registers.complement()),
        0x33 => did(registers.exclusive_or()),
        0x3b => registers.store_open_byte(memory, marks, counts, words),
        0x3c => goes(registers.general_adjust_workspace(memory, marks)),
        0x40 => did(registers.shift_right()),
        0x41 => did(registers.shift_left()),
        0x42 => did(registers.minimum_integer()),
        0x46 => did(registers.bitwise_and()),
        0x4b => did(registers.bitwise_or()),
        0x52 => did(registers.sum()),
        0x53 => registers.multiply_small(),
        0x5a => match kind {
            Kind::One => false,
            Kind::Two => did(registers.duplicate()),
        },
        _ => false,
    }
}

/// Of an instruction that only answers, and goes on whatever it finds: it was done.
#[inline(always)]
fn did(_next: Next) -> bool
    ensures { result ≡ true }
{
    true
}

/// Whether an instruction was done, and its process goes on.
#[inline(always)]
fn goes(step: Step) -> bool
    ensures { result ≡ spec.goes step }
{
    matches!(step, Ok(Next::Go | Next::Jumped))
}
