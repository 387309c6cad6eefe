//! What an instruction would do, without doing it.

ghost use Rattle.std.specs.Prelude.{◌≡◌, ℕ};
ghost use Rattle.tword.specs.Actions.{run};
ghost use Rattle.tcpu.specs.Effects.{effect, local_or_left};
ghost use Rattle.tcpu.specs.Local.{would_jump};
ghost use Rattle.tcpu.specs.Operations.{operation_effect};

use crate::registers::Registers;
use crate::word_arithmetic::{is_word_address, word_address};
use tcode::{Function, Instruction, Operation, operation_of};
use tword::{Break, Bytes, Marks, Memory};

/// Whether an instruction would jump so that a timeslice may end, as `local` would answer it. Nothing is changed.
///
/// # Errors
/// The break that `local` would answer.
#[tactic(auto, unfolding(crate::specs::Effects::effect, crate::specs::Functions::function_effect))]
pub fn jumps(
    registers: &Registers,
    memory: &Memory,
    marks: &Marks,
    instruction: Instruction,
) -> Result<bool, Break>
    ensures { result ≡ would_jump
        (run (effect memory.now.kind instruction registers.now) memory.now.bytes marks.now) }
{
    let bytes = &memory.bytes;
    let operand = instruction.operand;
    match instruction.function {
        Function::J => Ok(true),
        Function::Ldnl => {
            bytes.may_read_word(marks, word_address(registers.a, operand))?;
            Ok(false)
        }
        Function::Ldl => {
            bytes.may_read_word(marks, word_address(registers.wptr, operand))?;
            Ok(false)
        }
        Function::Call => {
            registers.may_call(bytes, marks)?;
            Ok(false)
        }
        Function::Stl => {
            bytes.may_write_word(marks, word_address(registers.wptr, operand))?;
            Ok(false)
        }
        Function::Stnl => {
            bytes.may_write_word(marks, word_address(registers.a, operand))?;
            Ok(false)
        }
        Function::Opr => match operation_of(operand, memory.kind) {
            Some(operation) => operation_jumps(registers, bytes, marks, operation),
            // Whoever makes an instruction without decoding it may name an operation that the kind does not have.
            None => Err(Break::NoSuchOperation),
        },
        Function::Ldlp
        | Function::Ldc
        | Function::Ldnlp
        | Function::Adc
        | Function::Cj
        | Function::Ajw
        | Function::Eqc => Ok(false),
    }
}

/// Whether an operation would jump so that a timeslice may end, whatever address follows it.
#[tactic(auto, unfolding(crate::specs::Operations::operation_effect))]
fn operation_jumps(
    registers: &Registers,
    memory: &Bytes,
    marks: &Marks,
    operation: Operation,
) -> Result<bool, Break>
    ensures { (next : ℕ)
        → result ≡ would_jump
        (run (local_or_left (operation_effect operation (record registers.now { iptr = next })) operation
        registers.now) memory.now marks.now) }
{
    match operation {
        Operation::Lb => {
            memory.may_read(marks, registers.a, 1)?;
            Ok(false)
        }
        Operation::Sb => {
            memory.may_write(marks, registers.a, 1)?;
            Ok(false)
        }
        Operation::Ret => {
            memory.may_read_word(marks, registers.wptr)?;
            Ok(false)
        }
        Operation::Lend => {
            let left = registers.falling_count(memory, marks)?;
            Ok(left.signed() > 0)
        }
        Operation::Gajw => {
            if !is_word_address(registers.a) {
                return Err(Break::Unaligned);
            }
            Ok(false)
        }
        Operation::Move => {
            memory.may_copy(marks, registers.c, registers.b, registers.a.get())?;
            Ok(false)
        }
        _ => Ok(false),
    }
}
