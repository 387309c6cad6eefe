//! How instructions are printed.

ghost use Rattle.std.specs.Prelude.{◌≡◌};
ghost use Rattle.tcode.specs.Texts as spec;

use crate::codes::{function_name, operation_name, operation_of_any_kind};
use crate::instruction::{Function, Instruction, Operation};
use std::fmt;

impl Instruction {
    /// The operation by whose name the instruction is printed, whichever kind lists it, if there is one.
    pub fn named_operation(&self) -> Option<Operation>
        ensures { result ≡ spec.named_operation self.now.function self.now.operand }
    {
        match self.function {
            Function::Opr => operation_of_any_kind(self.operand),
            _ => None,
        }
    }
}

/// An operation is printed as its name, another function as its name, a space and the signed decimal operand; so is
/// `opr` with an operand that no kind lists (own choice: no bytes decode to it).
impl fmt::Display for Instruction {
    ghost use Rattle.std.specs.Prelude.{Some};
    ghost use Rattle.tcode.specs.Texts.{instruction_text};

    ghost output = { λ i. Some (instruction_text i) };

    fn fmt<W: fmt::Write>(&self, f: &mut fmt::Formatter<W>) -> fmt::Result {
        match self.named_operation() {
            Some(operation) => {
                let name = operation_name(operation);
                write!(f, "{name}")
            }
            None => {
                let name = function_name(self.function);
                let operand = self.operand.signed();
                write!(f, "{name} {operand}")
            }
        }
    }
}
