//! Local instructions of a process.

ghost use Rattle.std.specs.Prelude.{◌≡◌, unwrap_or};
ghost use Rattle.tcode.specs.Table.{operation_at};
ghost use Rattle.tcpu.specs.Effects.{effect};
ghost use Rattle.tprocesses.specs.Performing.{perform};
ghost use Rattle.tprocesses.specs.Uses.{known_writes, uses_of};
ghost use Rattle.tcertify.specs.Contexts.{context_of};
ghost use Rattle.tcertify.specs.Instructions.{outcome};
ghost use Rattle.tcertify.specs.Words.{Runs, site_of, told};
ghost use Rattle.tword.specs.Words.{plus};

use crate::alone::{IdleMemory, do_alone};
use crate::context::Context;
use crate::performing::{
    Done, call, load_byte, load_local, load_non_local, loop_end, move_bytes, return_to_caller,
    store_byte, store_local, store_non_local,
};
use crate::stop::Stop;
use crate::stored::Words;
use tcode::{Function, Instruction, Operation, operation_of};
use tcpu::Registers;
use tword::Word;

/// Iptr moves behind an instruction.
#[inline(always)]
fn advance(registers: &mut Registers, instruction: &Instruction)
    ensures { registers.new ≡ record registers.old { iptr = plus registers.old.iptr instruction.now.length } }
{
    registers.iptr = registers
        .iptr
        .plus(Word::new(u32::from(instruction.length)));
}

/// Does an instruction of a process with this context, if it is a local one, or leaves an operation to the scheduler
/// with nothing changed. idle: a memory of the node's kind that is not touched.
///
/// # Errors
/// Those of what it touches, `Unaligned` of a workspace, `NoSuchOperation`.
#[inline(always)]
pub fn do_local(
    context: &Context,
    registers: &mut Registers,
    words: &mut Words,
    idle: &mut IdleMemory,
    instruction: Instruction,
) -> Result<Done, Stop>
    requires { idle.old.memory.kind ≡ words.old.kind }
    ensures done { Runs (perform (site_of words.old)
        (known_writes (context_of context.now) (uses_of words.old.kind instruction (unwrap_or context.now.a 0)))
        (effect words.old.kind instruction registers.old)) words.old (told (outcome registers.new) result) words.new }
    ensures site { site_of words.new ≡ site_of words.old }
    ensures idle { idle.new.memory.kind ≡ idle.old.memory.kind }
{
    match instruction.function {
        Function::Ldl => {
            advance(registers, &instruction);
            load_local(registers, words, instruction.operand)
        }
        Function::Ldnl => {
            advance(registers, &instruction);
            load_non_local(registers, words, instruction.operand)
        }
        Function::Stl => {
            advance(registers, &instruction);
            store_local(registers, words, context.a.is_some(), instruction.operand)
        }
        Function::Stnl => {
            advance(registers, &instruction);
            store_non_local(registers, words, context.b.is_some(), instruction.operand)
        }
        Function::Call => {
            advance(registers, &instruction);
            call(
                registers,
                words,
                context.a.is_some(),
                context.b.is_some(),
                context.c.is_some(),
                instruction.operand,
            )
        }
        Function::Opr => operate_apart(context, registers, words, idle, instruction),
        _ => do_alone(registers, idle, instruction),
    }
}

/// Does an operation as `do_operation` does.
///
/// # Errors
/// Those of `do_operation`.
// The registers are worked on in a place of their own, so that those of other instructions need not lie in memory.
#[inline(always)]
fn operate_apart(
    context: &Context,
    registers: &mut Registers,
    words: &mut Words,
    idle: &mut IdleMemory,
    instruction: Instruction,
) -> Result<Done, Stop>
    requires kind { idle.old.memory.kind ≡ words.old.kind }
    requires function { instruction.function ≡ Function.Opr }
    ensures done { Runs (perform (site_of words.old)
        (known_writes (context_of context.now) (uses_of words.old.kind instruction (unwrap_or context.now.a 0)))
        (effect words.old.kind instruction registers.old)) words.old (told (outcome registers.new) result) words.new }
    ensures site { site_of words.new ≡ site_of words.old }
    ensures idle { idle.new.memory.kind ≡ idle.old.memory.kind }
{
    let mut now = *registers;
    let outcome = do_operation(context, &mut now, words, idle, instruction);
    *registers = now;
    outcome
}

/// Does an operation as `do_local` does an instruction.
///
/// # Errors
/// Those of `do_local`.
#[inline(never)]
fn do_operation(
    context: &Context,
    registers: &mut Registers,
    words: &mut Words,
    idle: &mut IdleMemory,
    instruction: Instruction,
) -> Result<Done, Stop>
    requires kind { idle.old.memory.kind ≡ words.old.kind }
    requires function { instruction.function ≡ Function.Opr }
    ensures done { Runs (perform (site_of words.old)
        (known_writes (context_of context.now) (uses_of words.old.kind instruction (unwrap_or context.now.a 0)))
        (effect words.old.kind instruction registers.old)) words.old (told (outcome registers.new) result) words.new }
    ensures site { site_of words.new ≡ site_of words.old }
    ensures idle { idle.new.memory.kind ≡ idle.old.memory.kind }
{
    let Some(operation) = operation_of(instruction.operand, words.kind) else {
        return do_alone(registers, idle, instruction);
    };
    match operation {
        Operation::Lb => {
            advance(registers, &instruction);
            load_byte(registers, words)
        }
        Operation::Sb => {
            advance(registers, &instruction);
            store_byte(registers, words, context.b.is_some())
        }
        Operation::Ret => {
            advance(registers, &instruction);
            return_to_caller(registers, words)
        }
        Operation::Lend => {
            advance(registers, &instruction);
            loop_end(registers, words)
        }
        Operation::Move => {
            advance(registers, &instruction);
            move_bytes(registers, words)
        }
        _ => do_alone(registers, idle, instruction),
    }
}
