//! `temu certify`: what one run of the process machine tells of all its runs.

ghost use Rattle.std.specs.Prelude.{IfOk};
ghost use Rattle.tprogram.specs.Statuses.{IsCertifyVerdict};

use crate::progress::StepsLine;
use std::io;
use tcommands::{NetFiles, flushed, load_names, load_net};
use tfiles::Uncounted;
use tfindings::certify_files;
use topening::{Fault, Verdict};
use twords::Certifying;

/// `temu certify WIRING`: follows one run of the process machine of a net, and writes what it tells of all runs.
///
/// # Errors
/// The first of these: those of `load_net`, those of `load_names`, those of `certify_files`, and `Output` where what
/// was written cannot be flushed. Else `Memory` where there was none.
pub(crate) fn do_certify(rt: &HostRuntime, asked: &Certifying) -> Result<Verdict, Fault>
    ensures { IfOk result IsCertifyVerdict }
{
    let NetFiles { wiring, images } = load_net(rt, asked.wiring.as_str())?;
    let names = load_names(rt, asked.names.as_slice())?;
    let mut out = Uncounted(io::writer(rt));
    let mut progress = StepsLine::new(rt);
    let answer = certify_files(
        rt.alloc(),
        &wiring,
        images,
        asked.steps,
        names.as_slice(),
        &mut progress,
        &mut out,
    );
    flushed(answer, &mut out)
}
