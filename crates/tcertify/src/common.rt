//! The commonest instructions that touch no memory.

ghost use Rattle.std.specs.Prelude.{◌≡◌, ◌+ℤ◌, IfSome, Some, false};
ghost use Rattle.tword.specs.Words.{overflows, plus, reduced, signed};
ghost use Rattle.tword.specs.declared.kind.Kind.{Kind};
ghost use Rattle.tcpu.specs.Outcomes.{flag};
ghost use Rattle.tcertify.specs.Carried.{with_left};
ghost use Rattle.tcertify.specs.Common.{LeavesAlone, MakesOne};
ghost use Rattle.tcertify.specs.Contexts.{context_of};

use crate::context::{Context, Left};
use crate::performing::word_address;
use tcode::{Function, Instruction, Operation, operation_of};
use tword::{Kind, Word};

impl Context {
    /// The registers that an instruction leaves, which puts these into the place of A, B and C.
    #[inline(always)]
    pub(crate) fn left_with(
        &self,
        instruction: &Instruction,
        a: Option<Word>,
        b: Option<Word>,
        c: Option<Word>,
    ) -> Left
        ensures { result ≡ record {
          wptr = self.now.wptr;
          iptr = plus self.now.iptr instruction.now.length;
          a = a;
          b = b;
          c = c;
        } }
    {
        Left {
            wptr: self.wptr,
            iptr: self.iptr.plus(Word::new(u32::from(instruction.length))),
            a,
            b,
            c,
        }
    }

    /// A value was pushed.
    #[inline(always)]
    pub(crate) fn pushed(&self, instruction: &Instruction, value: Option<Word>) -> Left
        ensures { result ≡ record {
          wptr = self.now.wptr;
          iptr = plus self.now.iptr instruction.now.length;
          a = value;
          b = self.now.a;
          c = self.now.b;
        } }
    {
        self.left_with(instruction, value, self.a, self.b)
    }

    /// A value was put into the place of A.
    #[inline(always)]
    pub(crate) fn replaced(&self, instruction: &Instruction, value: Option<Word>) -> Left
        ensures { result ≡ record {
          wptr = self.now.wptr;
          iptr = plus self.now.iptr instruction.now.length;
          a = value;
          b = self.now.b;
          c = self.now.c;
        } }
    {
        self.left_with(instruction, value, self.b, self.c)
    }

    /// A was popped.
    #[inline(always)]
    pub(crate) fn popped(&self, instruction: &Instruction) -> Left
        ensures { result ≡ record {
          wptr = self.now.wptr;
          iptr = plus self.now.iptr instruction.now.length;
          a = self.now.b;
          b = self.now.c;
          c = self.now.c;
        } }
    {
        self.left_with(instruction, self.b, self.c, self.c)
    }
}

/// The signed sum of two words, if it does not overflow.
#[inline(always)]
fn fitting_sum(left: Word, right: Word) -> Option<Word>
    ensures { IfSome result (λ sum. (sum ≡ reduced (signed left +ℤ signed right))
        × (overflows (signed left +ℤ signed right) ≡ false)) }
{
    let (sum, overflow) = left.signed().overflowing_add(right.signed());
    if overflow {
        return None;
    }
    Some(Word::new(sum.cast_unsigned()))
}

/// A truth value as a word.
#[inline(always)]
fn truth(value: bool) -> Word
    ensures { result ≡ flag value }
{
    Word::new(u32::from(value))
}

/// The registers behind a conditional jump, where A is known to be this.
#[inline(always)]
fn jumped(context: &Context, instruction: &Instruction, a: Word) -> Left
    requires known { context.now.a ≡ Some a }
    requires function { instruction.now.function ≡ Function.Cj }
    ensures { (kind : Kind) → LeavesAlone kind (context_of context.now) instruction.now
        (with_left (context_of context.now) result) }
{
    if a.get() != 0 {
        return context.popped(instruction);
    }
    let target = context.iptr.plus(Word::new(u32::from(instruction.length)));
    Left {
        wptr: context.wptr,
        iptr: target.plus(instruction.operand),
        a: context.a,
        b: context.b,
        c: context.c,
    }
}

/// What an operation makes of B and A, if it is one of the commonest that leave one value in the place of both.
#[inline(always)]
fn made_of_two(operation: Operation, b: Word, a: Word) -> Option<Word>
    ensures { IfSome result (λ value. MakesOne operation b a value) }
{
    match operation {
        Operation::Bsub => Some(a.plus(b)),
        Operation::Wsub => Some(word_address(a, b)),
        Operation::Sum => Some(b.plus(a)),
        Operation::Diff => Some(b.minus(a)),
        Operation::Gt => Some(truth(b.signed() > a.signed())),
        Operation::And => Some(Word::new(b.get() & a.get())),
        Operation::Or => Some(Word::new(b.get() | a.get())),
        Operation::Xor => Some(Word::new(b.get() ^ a.get())),
        _ => None,
    }
}

/// The registers that an operation leaves, if it is one of those and both registers are known.
#[inline(always)]
fn operated(context: &Context, instruction: &Instruction, kind: Kind) -> Option<Left>
    requires { instruction.now.function ≡ Function.Opr }
    ensures { IfSome result (λ left. LeavesAlone kind (context_of context.now) instruction.now
        (with_left (context_of context.now) left)) }
{
    let operation = operation_of(instruction.operand, kind)?;
    let value = made_of_two(operation, context.b?, context.a?)?;
    Some(context.left_with(instruction, Some(value), context.c, context.c))
}

/// The registers that an instruction leaves, if it is one of the commonest of those that touch no memory, what it needs
/// is known, and it does not set Error.
#[inline(always)]
pub(crate) fn left_alone(context: &Context, instruction: &Instruction, kind: Kind) -> Option<Left>
    ensures { IfSome result (λ left. LeavesAlone kind (context_of context.now) instruction.now
        (with_left (context_of context.now) left)) }
{
    let operand = instruction.operand;
    match instruction.function {
        Function::Ldc => Some(context.pushed(instruction, Some(operand))),
        Function::Ldlp => {
            let address = word_address(context.wptr, operand);
            Some(context.pushed(instruction, Some(address)))
        }
        Function::Ldnlp => {
            let address = word_address(context.a?, operand);
            Some(context.replaced(instruction, Some(address)))
        }
        Function::Adc => {
            let sum = fitting_sum(context.a?, operand)?;
            Some(context.replaced(instruction, Some(sum)))
        }
        Function::Eqc => {
            let equal = truth(context.a?.get() == operand.get());
            Some(context.replaced(instruction, Some(equal)))
        }
        Function::Cj => Some(jumped(context, instruction, context.a?)),
        Function::Opr => operated(context, instruction, kind),
        _ => None,
    }
}
