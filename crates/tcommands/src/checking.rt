//! `temu check`: what is wrong with a wiring and its images.

ghost use Rattle.std.specs.Prelude.{◌≡◌, IfOk};
ghost use Rattle.topening.specs.declared.verdict.Verdict.TheVariants.{Wrong};
ghost use Rattle.tcommands.specs.Commands as spec;
ghost use Rattle.tcommands.specs.Verdicts.{IsCheckVerdict};

use crate::files::{file_fault, load, sought_images};
use crate::output::flushed;
use std::alloc::Global;
use std::{io, str};
use tcheck::{check, flaw_lines, write_text_flaws};
use tfiles::{CountedWrite, Uncounted};
use topening::{Fault, Verdict};
use twiring::{TextFlaw, read_wiring, text_flaws};

/// `temu check WIRING`: looks through the wiring of the file of this name and the files of its images, and writes all
/// that is wrong with them. Answers whether something is.
///
/// # Errors
/// `File` where the wiring file cannot be read or is not UTF-8; `Output` where what is told cannot be written or
/// flushed; else `Memory` where there was none.
pub fn do_check(rt: &HostRuntime, name: &str) -> Result<Verdict, Fault>
    ensures { IfOk result IsCheckVerdict }
{
    let bytes = load(rt, name)?;
    match str::from_utf8(bytes.as_slice()) {
        Ok(text) => check_text(rt, text),
        Err(_) => Err(file_fault(rt.alloc(), name)),
    }
}

/// Writes what is wrong with the text of a wiring, or with the wiring and its images.
fn check_text(rt: &HostRuntime, text: &str) -> Result<Verdict, Fault>
    ensures { IfOk result IsCheckVerdict }
{
    let flaws = text_flaws(rt.alloc(), text)?;
    let mut out = Uncounted(io::writer(rt));
    let answer = match flaws.as_slice() {
        [] => look_through(rt, text, &mut out),
        flaws => tell_flaws(rt.alloc(), text, flaws, &mut out),
    };
    flushed(answer, &mut out)
}

/// Writes what keeps a text from being a wiring.
fn tell_flaws<W: CountedWrite>(
    alloc: Global,
    text: &str,
    flaws: &[TextFlaw],
    out: &mut W,
) -> Result<Verdict, Fault>
    ensures { IfOk result (λ verdict. verdict ≡ Wrong) }
{
    let lines = flaw_lines(alloc, text, flaws)?;
    write_text_flaws(flaws, lines.as_slice(), out)?;
    Ok(Verdict::Wrong)
}

/// Looks through a wiring with the files of its images, and writes what is told of it.
fn look_through<W: CountedWrite>(
    rt: &HostRuntime,
    text: &str,
    out: &mut W,
) -> Result<Verdict, Fault>
    ensures { IfOk result IsCheckVerdict }
{
    let wiring = read_wiring(rt.alloc(), text)?;
    let files = sought_images(rt, &wiring)?;
    let checked = check(rt.alloc(), wiring, files.as_slice())?;
    checked.write(out)?;
    Ok(check_verdict(checked.is_good()))
}

/// The verdict on a wiring that is good, or is not.
fn check_verdict(is_good: bool) -> Verdict
    ensures { result ≡ spec.check_verdict is_good }
{
    if is_good {
        Verdict::Clear
    } else {
        Verdict::Wrong
    }
}
