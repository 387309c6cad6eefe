//! Whether the net of a wiring is certified, in one line.

ghost use Rattle.std.specs.Prelude.{◌≡◌, true, false, IfErr, IfOk, OnOk, length};
ghost use Rattle.tfiles.specs.Failures.{HasStayed};
ghost use Rattle.topening.specs.Faults.{HasOutputCause, IsDue};
ghost use Rattle.topening.specs.Openings.{opened_of};
ghost use Rattle.tfindings.specs.Findings as spec;
ghost use Rattle.tfindings.specs.Nets.{HasCertified, IsLineLeft, WritesOfAllRuns};
ghost use Rattle.tfindings.specs.Telling.{certified_line as spec_line};

use crate::certifying::find;
use crate::finding::Finding;
use crate::progress::RunProgress;
use crate::telling::write_certified;
use std::alloc::Global;
use tfiles::CountedWrite;
use topening::Fault;
use tplan::Wiring;
use tword::Items;

/// Runs the process machine of the net of a wiring and the files of its images as `certify_files` does, and if the net
/// is certified, writes only the last line of what that writes. Else it writes nothing. Returns whether the net is
/// certified. progress: is told how far the run has come.
///
/// # Errors
/// Those of `certify_files`.
#[tactic(auto, using(crate::proofs::Nets::has_certified))]
pub fn certified_line<P: RunProgress, W: CountedWrite>(
    alloc: Global,
    wiring: &Wiring,
    files: Items<Items<u8>>,
    most_steps: u64,
    progress: &mut P,
    out: &mut W,
) -> Result<bool, Fault>
    requires { length files ≡ length wiring.now.nodes }
    // whether such a run is certified is told
    ensures found { IfOk result (HasCertified wiring.now files most_steps) }

    // if it is, its last line is written, and all runs of the net come to its end, those of `run`, `free` and `replay`
    // among them: no node freezes or halts in any of them
    ensures all_runs { IfOk result (λ certified. certified ≡ true
        → WritesOfAllRuns wiring.now files spec_line (W.contents out.old) (W.contents out.new)) }

    // else nothing is written
    ensures nothing { IfOk result (λ certified. certified ≡ false → out.new ≡ out.old) }

    // each fault is the first that is due
    ensures due { IfErr result (IsDue (opened_of wiring.now files)) }

    // and nothing is written, or the beginning of such a line
    ensures left { IfErr result (IsLineLeft W.contents wiring.now files most_steps out.old out.new) }

    // and the output failed just where a write did
    ensures cause { IfErr result (HasOutputCause (W.failures out.old) (W.failures out.new)) }
    ensures stayed { OnOk result (HasStayed (W.failures out.old) (W.failures out.new)) }
{
    let found = find(alloc, wiring, files, most_steps, progress)?;
    if !is_certified(&found.finding) {
        return Ok(false);
    }
    match write_certified(out, &found.machine) {
        Ok(()) => Ok(true),
        Err(cut) => Err(Fault::Output(cut)),
    }
}

/// Whether the plan is certified.
fn is_certified(finding: &Finding) -> bool
    ensures { result ≡ spec.is_certified finding.now }
{
    match finding {
        Finding::Certified => true,
        _ => false,
    }
}
