//! Shifts by an unsigned number of bits. A shift by more than there are leaves 0 (own choice).
#![tactic(auto, unfolding(crate::specs::Operations::operation_effect))]

ghost use Rattle.std.specs.Prelude.{◌≡◌, Some};
ghost use Rattle.tword.specs.Actions.{answer};
ghost use Rattle.tcpu.specs.Operations.{operation_effect};

use crate::registers::{Next, Registers};
use crate::word_arithmetic::{double_word, high_word, low_word};
use tcode::Operation;
use tword::Word;

impl Registers {
    /// `shr`: with zeros from the left
    #[inline]
    pub(crate) fn shift_right(&mut self) -> Next
        ensures { operation_effect Operation.Shr self.old ≡ Some (answer (self.new, result)) }
    {
        let word = self.b.get();
        let shifted = word.checked_shr(self.a.get()).unwrap_or(0);
        self.replace_all(Word::new(shifted));
        Next::Go
    }

    /// `shl`: with zeros from the right
    #[inline]
    pub(crate) fn shift_left(&mut self) -> Next
        ensures { operation_effect Operation.Shl self.old ≡ Some (answer (self.new, result)) }
    {
        let word = self.b.get();
        let shifted = word.checked_shl(self.a.get()).unwrap_or(0);
        self.replace_all(Word::new(shifted));
        Next::Go
    }

    /// `lshr`: of a double word, with zeros from the left
    pub(crate) fn long_shift_right(&mut self) -> Next
        ensures { operation_effect Operation.Lshr self.old ≡ Some (answer (self.new, result)) }
    {
        let value = double_word(self.c, self.b);
        let shifted = value.checked_shr(self.a.get()).unwrap_or(0);
        self.replace_all_by_pair(low_word(shifted), high_word(shifted));
        Next::Go
    }

    /// `lshl`: of a double word
    pub(crate) fn long_shift_left(&mut self) -> Next
        ensures { operation_effect Operation.Lshl self.old ≡ Some (answer (self.new, result)) }
    {
        let value = double_word(self.c, self.b);
        let shifted = value.checked_shl(self.a.get()).unwrap_or(0);
        self.replace_all_by_pair(low_word(shifted), high_word(shifted));
        Next::Go
    }
}
