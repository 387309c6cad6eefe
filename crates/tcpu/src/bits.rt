//! The operations on each bit.
#![tactic(auto, unfolding(crate::specs::Operations::operation_effect))]

ghost use Rattle.std.specs.Prelude.{◌≡◌, Some};
ghost use Rattle.tword.specs.Actions.{answer};
ghost use Rattle.tcpu.specs.Operations.{operation_effect};

use crate::registers::{Next, Registers};
use tcode::Operation;
use tword::Word;

impl Registers {
    /// `and`: of B and A
    #[inline]
    pub(crate) fn bitwise_and(&mut self) -> Next
        ensures { operation_effect Operation.And self.old ≡ Some (answer (self.new, result)) }
    {
        self.replace_all(Word::new(self.b.get() & self.a.get()));
        Next::Go
    }

    /// `or`: of B and A
    #[inline]
    pub(crate) fn bitwise_or(&mut self) -> Next
        ensures { operation_effect Operation.Or self.old ≡ Some (answer (self.new, result)) }
    {
        self.replace_all(Word::new(self.b.get() | self.a.get()));
        Next::Go
    }

    /// `xor`: of B and A
    #[inline]
    pub(crate) fn exclusive_or(&mut self) -> Next
        ensures { operation_effect Operation.Xor self.old ≡ Some (answer (self.new, result)) }
    {
        self.replace_all(Word::new(self.b.get() ^ self.a.get()));
        Next::Go
    }

    /// `not`: of A
    #[inline]
    pub(crate) fn complement(&mut self) -> Next
        ensures { operation_effect Operation.Not self.old ≡ Some (answer (self.new, result)) }
    {
        self.replace_top(Word::new(!self.a.get()));
        Next::Go
    }
}
