//! Which bytes an instruction may write.

ghost use Rattle.std.specs.Prelude.{◌≡◌, ◌≢◌, false};
ghost use Rattle.tcpu.specs.Written.{nothing};
ghost use Rattle.tword.specs.declared.kind.Kind.{Kind};
ghost use Rattle.tcpu.specs.declared.registers.Registers as declared;
ghost use Rattle.tcpu.specs.Written as spec;

use crate::registers::Registers;
use crate::word_arithmetic::word_address;
use tcode::{Function, Instruction, Operation, operation_of};
use tword::{Kind, Span, Word};

/// Whether an instruction may write bytes, whatever the registers and the kind of the node.
#[inline(always)]
#[tactic(auto, using(crate::proofs::Writing::writes_nothing), unfolding(crate::specs::Written::written))]
pub fn may_write(instruction: Instruction) -> bool
    ensures { result ≡ false → (kind : Kind) (r : declared.Registers)
        → spec.written kind instruction.function instruction.operand r ≡ nothing }
{
    match instruction.function {
        Function::Stl | Function::Stnl | Function::Call => true,
        Function::Opr => writes_by_operand(instruction.operand.get()),
        _ => false,
    }
}

/// Whether an operand selects `lend`, `sb` or `move`.
#[inline(always)]
fn writes_by_operand(operand: u32) -> bool
    ensures lend { result ≡ false → operand ≢ 0x21 }
    ensures sb { result ≡ false → operand ≢ 0x3b }
    ensures copy { result ≡ false → operand ≢ 0x4a }
{
    operand == 0x21 || operand == 0x3b || operand == 0x4a
}

/// The bytes that an instruction may write, from the registers before it: `local` leaves all others as they are. Iptr
/// does not matter. For an instruction that writes nothing the span is empty.
#[inline(always)]
#[tactic(auto, unfolding(crate::specs::Written::written, crate::specs::Written::written_by))]
pub fn written(registers: &Registers, instruction: Instruction, kind: Kind) -> Span
    ensures { result ≡ spec.written kind instruction.function instruction.operand registers.now }
{
    let operand = instruction.operand;
    let (start, size) = match instruction.function {
        Function::Stl => (word_address(registers.wptr, operand), 4),
        Function::Stnl => (word_address(registers.a, operand), 4),
        Function::Call => (registers.wptr.below(4), 16),
        Function::Opr => match operation_of(operand, kind) {
            Some(Operation::Sb) => (registers.a, 1),
            Some(Operation::Lend) => (registers.b, 8),
            Some(Operation::Move) => (registers.b, registers.a.get()),
            _ => (Word::new(0), 0),
        },
        _ => (Word::new(0), 0),
    };
    Span { start, size }
}
