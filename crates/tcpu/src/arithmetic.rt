//! Arithmetic on words: signed with Error on overflow, or modulo 2 ^ 32.
#![tactic(auto, unfolding(crate::specs::Functions::function_effect, crate::specs::Operations::operation_effect))]

ghost use Rattle.std.specs.Prelude.{◌≡◌, Some, false, true};
ghost use Rattle.tword.specs.Actions.{answer};
ghost use Rattle.tcpu.specs.Functions.{function_effect};
ghost use Rattle.tcpu.specs.Operations.{operation_effect};

use crate::registers::{Next, Registers};
use crate::word_arithmetic::{
    signed_difference, signed_product, signed_quotient, signed_sum, truth, word_address,
};
use tcode::{Function, Operation};
use tword::Word;

impl Registers {
    /// `adc`: the signed sum with the operand
    #[inline]
    pub(crate) fn add_constant(&mut self, operand: Word) -> Next
        ensures { function_effect Function.Adc operand self.old ≡ answer (self.new, result) }
    {
        let (sum, overflows) = signed_sum(self.a, operand);
        self.replace_top(sum);
        self.finish(overflows)
    }

    /// `eqc`: 1 where A is the operand, else 0
    #[inline]
    pub(crate) fn equals_constant(&mut self, operand: Word) -> Next
        ensures { function_effect Function.Eqc operand self.old ≡ answer (self.new, result) }
    {
        self.replace_top(truth(self.a.get() == operand.get()));
        Next::Go
    }

    /// `add`: the signed sum of B and A, with Error on overflow
    #[inline(always)]
    pub(crate) fn add(&mut self) -> Next
        ensures { operation_effect Operation.Add self.old ≡ Some (answer (self.new, result)) }
    {
        let (sum, overflows) = signed_sum(self.b, self.a);
        self.replace_all(sum);
        self.finish(overflows)
    }

    /// `sub`: the signed difference of B and A, with Error on overflow
    #[inline(always)]
    pub(crate) fn subtract(&mut self) -> Next
        ensures { operation_effect Operation.Sub self.old ≡ Some (answer (self.new, result)) }
    {
        let (difference, overflows) = signed_difference(self.b, self.a);
        self.replace_all(difference);
        self.finish(overflows)
    }

    /// `mul`: the signed product of B and A, with Error on overflow
    #[inline]
    pub(crate) fn multiply(&mut self) -> Next
        ensures { operation_effect Operation.Mul self.old ≡ Some (answer (self.new, result)) }
    {
        let (product, overflows) = signed_product(self.b, self.a);
        self.replace_all(product);
        self.finish(overflows)
    }

    /// `adc`, where it does not overflow: whether it was done.
    #[inline(always)]
    #[tactic(auto, unfolding(crate::specs::Functions::function_effect, crate::specs::Operations::operation_effect), using(crate::proofs::Rows::unflagged))]
    pub(crate) fn add_small_constant(&mut self, operand: Word) -> bool
        ensures done { result ≡ true → function_effect Function.Adc operand self.old ≡ answer (self.new, Next.Go) }
        ensures kept { result ≡ false → self.new ≡ self.old }
    {
        let (value, overflows) = signed_sum(self.a, operand);
        if overflows {
            return false;
        }
        self.replace_top(value);
        true
    }

    /// `add`, where it does not overflow: whether it was done.
    #[inline(always)]
    #[tactic(auto, unfolding(crate::specs::Functions::function_effect, crate::specs::Operations::operation_effect), using(crate::proofs::Rows::unflagged))]
    pub(crate) fn add_small(&mut self) -> bool
        ensures done { result ≡ true → operation_effect Operation.Add self.old ≡ Some (answer (self.new, Next.Go)) }
        ensures kept { result ≡ false → self.new ≡ self.old }
    {
        let (value, overflows) = signed_sum(self.b, self.a);
        if overflows {
            return false;
        }
        self.replace_all(value);
        true
    }

    /// `sub`, where it does not overflow: whether it was done.
    #[inline(always)]
    #[tactic(auto, unfolding(crate::specs::Functions::function_effect, crate::specs::Operations::operation_effect), using(crate::proofs::Rows::unflagged))]
    pub(crate) fn subtract_small(&mut self) -> bool
        ensures done { result ≡ true → operation_effect Operation.Sub self.old ≡ Some (answer (self.new, Next.Go)) }
        ensures kept { result ≡ false → self.new ≡ self.old }
    {
        let (value, overflows) = signed_difference(self.b, self.a);
        if overflows {
            return false;
        }
        self.replace_all(value);
        true
    }

    /// `mul`, where it does not overflow: whether it was done.
    #[inline(always)]
    #[tactic(auto, unfolding(crate::specs::Functions::function_effect, crate::specs::Operations::operation_effect), using(crate::proofs::Rows::unflagged))]
    pub(crate) fn multiply_small(&mut self) -> bool
        ensures done { result ≡ true → operation_effect Operation.Mul self.old ≡ Some (answer (self.new, Next.Go)) }
        ensures kept { result ≡ false → self.new ≡ self.old }
    {
        let (value, overflows) = signed_product(self.b, self.a);
        if overflows {
            return false;
        }
        self.replace_all(value);
        true
    }

    /// `div`: by 0 the quotient is 0 (own choice).
    pub(crate) fn divide(&mut self) -> Next
        ensures { operation_effect Operation.Div self.old ≡ Some (answer (self.new, result)) }
    {
        if self.a.get() == 0 {
            self.replace_all(Word::new(0));
            return self.finish(true);
        }
        let (quotient, overflows) = signed_quotient(self.b, self.a);
        self.replace_all(quotient);
        self.finish(overflows)
    }

    /// `rem`: by 0 the remainder is 0, and the least number by -1 leaves 0 without Error (own choices).
    pub(crate) fn remainder(&mut self) -> Next
        ensures { operation_effect Operation.Rem self.old ≡ Some (answer (self.new, result)) }
    {
        if self.a.get() == 0 {
            self.replace_all(Word::new(0));
            return self.finish(true);
        }
        let remainder = self.b.signed().wrapping_rem(self.a.signed());
        self.replace_all(Word::new(remainder.cast_unsigned()));
        Next::Go
    }

    /// `sum`: B + A modulo 2 ^ 32
    #[inline]
    pub(crate) fn sum(&mut self) -> Next
        ensures { operation_effect Operation.Sum self.old ≡ Some (answer (self.new, result)) }
    {
        self.replace_all(self.b.plus(self.a));
        Next::Go
    }

    /// `diff`: B - A modulo 2 ^ 32
    #[inline]
    pub(crate) fn difference(&mut self) -> Next
        ensures { operation_effect Operation.Diff self.old ≡ Some (answer (self.new, result)) }
    {
        self.replace_all(self.b.minus(self.a));
        Next::Go
    }

    /// `prod`: B times A modulo 2 ^ 32
    #[inline]
    pub(crate) fn product(&mut self) -> Next
        ensures { operation_effect Operation.Prod self.old ≡ Some (answer (self.new, result)) }
    {
        let product = self.b.get().wrapping_mul(self.a.get());
        self.replace_all(Word::new(product));
        Next::Go
    }

    /// `gt`: 1 where B is above A, signed, else 0
    #[inline(always)]
    pub(crate) fn greater_than(&mut self) -> Next
        ensures { operation_effect Operation.Gt self.old ≡ Some (answer (self.new, result)) }
    {
        self.replace_all(truth(self.b.signed() > self.a.signed()));
        Next::Go
    }

    /// `bsub`: the address of byte B from A on
    #[inline]
    pub(crate) fn byte_subscript(&mut self) -> Next
        ensures { operation_effect Operation.Bsub self.old ≡ Some (answer (self.new, result)) }
    {
        self.replace_all(self.a.plus(self.b));
        Next::Go
    }

    /// `wsub`: the address of word B from A on
    #[inline]
    pub(crate) fn word_subscript(&mut self) -> Next
        ensures { operation_effect Operation.Wsub self.old ≡ Some (answer (self.new, result)) }
    {
        self.replace_all(word_address(self.a, self.b));
        Next::Go
    }

    /// `bcnt`: how many bytes A words have
    pub(crate) fn byte_count(&mut self) -> Next
        ensures { operation_effect Operation.Bcnt self.old ≡ Some (answer (self.new, result)) }
    {
        self.replace_top(Word::new(self.a.get().wrapping_mul(4)));
        Next::Go
    }

    /// `wcnt`: the index of a word, with its sign, and the byte within it
    pub(crate) fn word_count(&mut self) -> Next
        ensures { operation_effect Operation.Wcnt self.old ≡ Some (answer (self.new, result)) }
    {
        let index = self.a.signed() >> 2;
        let byte = self.a.get() % 4;
        self.replace_top_by_pair(Word::new(index.cast_unsigned()), Word::new(byte));
        Next::Go
    }
}
