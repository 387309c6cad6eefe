//! What follows a local instruction of a process, and whether it looks at a flag.

ghost use Rattle.std.specs.Prelude.{◌≡◌};
ghost use Rattle.tprocesses.specs.Instructions as instructions;

use crate::context::Left;
use tcode::{Function, Instruction, Operation, operation_of};
use tcpu::Next;
use tword::Kind;

/// What follows an instruction, and the registers that it leaves.
#[derive(Clone, Copy)]
pub struct Carried {
    pub next: Next,
    pub left: Left,
}

/// Whether an instruction looks at a flag by itself, for a node of a kind.
pub fn has_flags(kind: Kind, instruction: &Instruction) -> bool
    ensures { result ≡ instructions.has_flags kind instruction.now }
{
    match instruction.function {
        Function::Opr => match operation_of(instruction.operand, kind) {
            Some(
                Operation::Testerr
                | Operation::Clrhalterr
                | Operation::Sethalterr
                | Operation::Testhalterr,
            ) => true,
            _ => false,
        },
        _ => false,
    }
}
