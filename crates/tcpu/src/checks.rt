//! Checks of a value, which set Error, and changes of its width.
#![tactic(auto, unfolding(crate::specs::Operations::operation_effect))]

ghost use Rattle.std.specs.Prelude.{◌≡◌, Some};
ghost use Rattle.tword.specs.Actions.{answer};
ghost use Rattle.tcpu.specs.Operations.{operation_effect};

use crate::registers::{Next, Registers};
use crate::word_arithmetic::{is_outside, sign_of};
use tcode::Operation;
use tword::Word;

impl Registers {
    /// `csub0`: a subscript below a limit
    pub(crate) fn check_subscript(&mut self) -> Next
        ensures { operation_effect Operation.Csub0 self.old ≡ Some (answer (self.new, result)) }
    {
        let fails = self.b.get() >= self.a.get();
        self.pop();
        self.finish(fails)
    }

    /// `ccnt1`: a count from 1 up to a limit
    pub(crate) fn check_count(&mut self) -> Next
        ensures { operation_effect Operation.Ccnt1 self.old ≡ Some (answer (self.new, result)) }
    {
        let count = self.b.get();
        let fails = count == 0 || count > self.a.get();
        self.pop();
        self.finish(fails)
    }

    /// `cword`: a signed value of fewer bits, where A is the least power of 2 above them: from -A up to A - 1 (as whole
    /// numbers: own choice)
    pub(crate) fn check_word(&mut self) -> Next
        ensures { operation_effect Operation.Cword self.old ≡ Some (answer (self.new, result)) }
    {
        let fails = is_outside(self.b, self.a);
        self.pop();
        self.finish(fails)
    }

    /// `csngl`: a double word whose high word is all sign (its two values: own choice)
    pub(crate) fn check_single(&mut self) -> Next
        ensures { operation_effect Operation.Csngl self.old ≡ Some (answer (self.new, result)) }
    {
        let low = self.a;
        let fails = self.b.get() != sign_of(low).get();
        self.replace_all(low);
        self.finish(fails)
    }

    /// `xword`: the sign bit A of a part of a word spread to the left (compared unsigned: own choice)
    pub(crate) fn extend_to_word(&mut self) -> Next
        ensures { operation_effect Operation.Xword self.old ≡ Some (answer (self.new, result)) }
    {
        let sign = self.a;
        let part = self.b;
        if part.get() < sign.get() {
            self.replace_all(part);
        } else {
            self.replace_all(part.minus(sign).minus(sign));
        }
        Next::Go
    }

    /// `xdble`: a word as a double word
    pub(crate) fn extend_to_double(&mut self) -> Next
        ensures { operation_effect Operation.Xdble self.old ≡ Some (answer (self.new, result)) }
    {
        self.replace_top_by_pair(self.a, sign_of(self.a));
        Next::Go
    }
}
