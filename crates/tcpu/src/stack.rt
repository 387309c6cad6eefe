//! The instructions that load a number or turn the stack over.
#![tactic(auto, unfolding(crate::specs::Functions::function_effect, crate::specs::Operations::operation_effect))]

ghost use Rattle.std.specs.Prelude.{◌≡◌, Some};
ghost use Rattle.tword.specs.Actions.{answer};
ghost use Rattle.tcpu.specs.Functions.{function_effect};
ghost use Rattle.tcpu.specs.Operations.{operation_effect};

use crate::registers::{Next, Registers};
use crate::word_arithmetic::word_address;
use tcode::{Function, Operation};
use tword::Word;
use tword::limits::MOST_NEG;

impl Registers {
    /// `ldc`: pushes the operand
    #[inline]
    pub(crate) fn load_constant(&mut self, operand: Word) -> Next
        ensures { function_effect Function.Ldc operand self.old ≡ answer (self.new, result) }
    {
        self.push(operand);
        Next::Go
    }

    /// `ldlp`: pushes the address of a word of the workspace, by its index
    #[inline]
    pub(crate) fn load_local_pointer(&mut self, operand: Word) -> Next
        ensures { function_effect Function.Ldlp operand self.old ≡ answer (self.new, result) }
    {
        self.push(word_address(self.wptr, operand));
        Next::Go
    }

    /// `ldnlp`: the address of a word from A on, by its index
    #[inline]
    pub(crate) fn load_non_local_pointer(&mut self, operand: Word) -> Next
        ensures { function_effect Function.Ldnlp operand self.old ≡ answer (self.new, result) }
    {
        self.replace_top(word_address(self.a, operand));
        Next::Go
    }

    /// `mint`: pushes the least word
    pub(crate) fn minimum_integer(&mut self) -> Next
        ensures { operation_effect Operation.Mint self.old ≡ Some (answer (self.new, result)) }
    {
        self.push(Word::new(MOST_NEG));
        Next::Go
    }

    /// `dup`: pushes A
    pub(crate) fn duplicate(&mut self) -> Next
        ensures { operation_effect Operation.Dup self.old ≡ Some (answer (self.new, result)) }
    {
        self.push(self.a);
        Next::Go
    }

    /// `rev`: exchanges A and B
    #[inline]
    pub(crate) fn reverse(&mut self) -> Next
        ensures { operation_effect Operation.Rev self.old ≡ Some (answer (self.new, result)) }
    {
        self.replace_all_by_pair(self.b, self.a);
        Next::Go
    }
}
