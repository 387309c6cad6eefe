//! A run in parts.

ghost use Rattle.std.specs.Prelude.{◌≡◌, IfOk};
ghost use Rattle.tverdict.specs.Machines.{Follows};
ghost use Rattle.tverdict.specs.Verdicts.{IsTold};
ghost use Rattle.tverdict.specs.declared.verdict.Verdict.TheVariants.{Certified};

use crate::progress::RunProgress;
use std::alloc::{AllocError, Global};
use tplan::Plan;
use tverdict::{Machine, Verdict};

/// How many steps a part has.
const PART: u64 = 1_048_576;

/// Goes on with a run as `Machine::certify` does, and tells behind each part how many steps were done.
///
/// # Errors
/// Those of `Machine::certify`.
pub(crate) fn certify_in_parts<P: RunProgress>(
    alloc: Global,
    plan: &Plan,
    machine: &mut Machine,
    most_steps: u64,
    progress: &mut P,
) -> Result<Verdict, AllocError>
    requires { Follows plan.now machine.old }
    ensures told { IfOk result (λ verdict. IsTold plan.now most_steps machine.new verdict) }
    ensures follows { IfOk result (λ verdict. verdict ≡ Certified → Follows plan.now machine.new) }
{
    for part in 0..most_steps / PART {
        let verdict = machine.certify(alloc, plan, (part + 1) * PART)?;
        let Verdict::Cut = verdict else {
            return Ok(verdict);
        };
        progress.at(machine.done);
    }
    machine.certify(alloc, plan, most_steps)
}
