//! Arithmetic on two and three words.
#![tactic(auto, unfolding(crate::specs::Operations::operation_effect))]

ghost use Rattle.std.specs.Prelude.{◌≡◌, Some};
ghost use Rattle.tword.specs.Actions.{answer};
ghost use Rattle.tcpu.specs.Operations.{operation_effect};

use crate::registers::{Next, Registers};
use crate::word_arithmetic::{
    carry, double_word, high_word, long_quotient, low_word, normalised, signed_difference_with,
    signed_sum_with, truth,
};
use tcode::Operation;
use tword::Word;

impl Registers {
    /// `ladd`: the signed sum with a carry
    pub(crate) fn long_add(&mut self) -> Next
        ensures { operation_effect Operation.Ladd self.old ≡ Some (answer (self.new, result)) }
    {
        let (sum, overflows) = signed_sum_with(self.b, self.a, carry(self.c));
        self.replace_all(sum);
        self.finish(overflows)
    }

    /// `lsub`: the signed difference with a borrow
    pub(crate) fn long_subtract(&mut self) -> Next
        ensures { operation_effect Operation.Lsub self.old ≡ Some (answer (self.new, result)) }
    {
        let (difference, overflows) = signed_difference_with(self.b, self.a, carry(self.c));
        self.replace_all(difference);
        self.finish(overflows)
    }

    /// `lsum`: the sum with a carry, and its carry
    pub(crate) fn long_sum(&mut self) -> Next
        ensures { operation_effect Operation.Lsum self.old ≡ Some (answer (self.new, result)) }
    {
        let sum = u64::from(self.b.get()) + u64::from(self.a.get()) + u64::from(carry(self.c));
        self.replace_all_by_pair(low_word(sum), high_word(sum));
        Next::Go
    }

    /// `ldiff`: the difference with a borrow, and its borrow
    pub(crate) fn long_difference(&mut self) -> Next
        ensures { operation_effect Operation.Ldiff self.old ≡ Some (answer (self.new, result)) }
    {
        let taken = u64::from(self.a.get()) + u64::from(carry(self.c));
        let (difference, borrow) = u64::from(self.b.get()).overflowing_sub(taken);
        self.replace_all_by_pair(low_word(difference), truth(borrow));
        Next::Go
    }

    /// `lmul`: the product and a summand
    pub(crate) fn long_multiply(&mut self) -> Next
        ensures { operation_effect Operation.Lmul self.old ≡ Some (answer (self.new, result)) }
    {
        let product = u64::from(self.b.get()) * u64::from(self.a.get()) + u64::from(self.c.get());
        self.replace_all_by_pair(low_word(product), high_word(product));
        Next::Go
    }

    /// `ldiv`: the quotient and the remainder; both are 0 where the quotient does not fit a word (own choice).
    pub(crate) fn long_divide(&mut self) -> Next
        ensures { operation_effect Operation.Ldiv self.old ≡ Some (answer (self.new, result)) }
    {
        if self.c.get() >= self.a.get() {
            self.replace_all_by_pair(Word::new(0), Word::new(0));
            return self.finish(true);
        }
        let (quotient, remainder) = long_quotient(self.c, self.b, self.a);
        self.replace_all_by_pair(quotient, remainder);
        Next::Go
    }

    /// `norm`: a double word shifted left until its top bit is set, and how far; 64 for zero
    pub(crate) fn normalise(&mut self) -> Next
        ensures { operation_effect Operation.Norm self.old ≡ Some (answer (self.new, result)) }
    {
        let (normal, shift) = normalised(double_word(self.b, self.a));
        self.replace_all_by_three(low_word(normal), high_word(normal), Word::new(shift));
        Next::Go
    }
}
