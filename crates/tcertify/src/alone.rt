//! Instructions that touch no memory.

ghost use Rattle.std.specs.Prelude.{◌≡◌, Bool, List, true};
ghost use Rattle.tcpu.specs.Effects.{effect};
ghost use Rattle.tprocesses.specs.Performing.{perform};
ghost use Rattle.tprocesses.specs.Touching.{Site};
ghost use Rattle.tcertify.specs.Instructions.{outcome, touches_nothing};
ghost use Rattle.tcertify.specs.Running.{State, run_part};
ghost use Rattle.tcertify.specs.Words.{told};

use crate::performing::Done;
use crate::stop::Stop;
use tcode::Instruction;
use tcpu::{Registers, local};
use tword::{Marks, Memory};

/// A memory with its claims that no instruction touches: the processor of `tcpu` has one at hand for each.
#[derive(Drop)]
pub struct IdleMemory {
    pub memory: Memory,
    pub marks: Marks,
}

/// Does an instruction that touches no memory, for a node of the kind of a memory that lies idle.
///
/// # Errors
/// The break of a check of the registers.
#[inline(always)]
pub(crate) fn do_alone(
    registers: &mut Registers,
    idle: &mut IdleMemory,
    instruction: Instruction,
) -> Result<Done, Stop>
    requires { touches_nothing (effect idle.old.memory.kind instruction registers.old) ≡ true }
    ensures done { (s : Site) (known : List Bool) (t : State)
        → run_part (perform s known (effect idle.old.memory.kind instruction registers.old)) t
        ≡ (told (outcome registers.new) result, t) }
    ensures kind { idle.new.memory.kind ≡ idle.old.memory.kind }
{
    let next = local(registers, &mut idle.memory, &idle.marks, instruction)?;
    Ok(Done { next, known: true })
}
