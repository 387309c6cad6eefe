//! The flags Error and HaltOnError.
#![tactic(auto, unfolding(crate::specs::Operations::operation_effect))]

ghost use Rattle.std.specs.Prelude.{◌≡◌, Some};
ghost use Rattle.tword.specs.Actions.{answer};
ghost use Rattle.tcpu.specs.Operations.{operation_effect};

use crate::registers::{Next, Registers};
use crate::word_arithmetic::truth;
use tcode::Operation;
use tword::Word;

impl Registers {
    /// `seterr`: sets Error
    pub(crate) fn set_error(&mut self) -> Next
        ensures { operation_effect Operation.Seterr self.old ≡ Some (answer (self.new, result)) }
    {
        self.finish(true)
    }

    /// `testerr`: whether Error was clear
    pub(crate) fn test_error(&mut self) -> Next
        ensures { operation_effect Operation.Testerr self.old ≡ Some (answer (self.new, result)) }
    {
        self.push(truth(!self.error));
        self.error = false;
        Next::Go
    }

    /// `sethalterr`: never halts itself (own choice)
    pub(crate) fn set_halt_on_error(&mut self) -> Next
        ensures { operation_effect Operation.Sethalterr self.old ≡ Some (answer (self.new, result)) }
    {
        self.halt_on_error = true;
        Next::Go
    }

    /// `clrhalterr`: clears HaltOnError
    pub(crate) fn clear_halt_on_error(&mut self) -> Next
        ensures { operation_effect Operation.Clrhalterr self.old ≡ Some (answer (self.new, result)) }
    {
        self.halt_on_error = false;
        Next::Go
    }

    /// `testhalterr`: whether HaltOnError is set
    pub(crate) fn test_halt_on_error(&mut self) -> Next
        ensures { operation_effect Operation.Testhalterr self.old ≡ Some (answer (self.new, result)) }
    {
        self.push(truth(self.halt_on_error));
        Next::Go
    }

    /// `testpranal`: the processor is never analysed (own choice).
    pub(crate) fn test_analysing(&mut self) -> Next
        ensures { operation_effect Operation.Testpranal self.old ≡ Some (answer (self.new, result)) }
    {
        self.push(Word::new(0));
        Next::Go
    }
}
