//! Disassemblies, with labels where there are names.

ghost use Rattle.std.specs.Prelude.{◌≡◌, IfErr, IfOk, Ok, OnOk, option_copied};
ghost use Rattle.std.specs.Io.KnownBytes.{Appends};
ghost use Rattle.tfiles.specs.Disassembly.{dis_text as spec_dis_text};
ghost use Rattle.tfiles.specs.Failures.{HasRisen, HasStayed};
ghost use Rattle.tfiles.specs.Outputs.{IsOut};
ghost use Rattle.tnames.specs.Listings.{labelled_text};
ghost use Rattle.tstanding.specs.Labels.{labelled_dis};
ghost use Rattle.topening.specs.Faults.{HasOutputCause, IsDue, IsLeft};

use std::alloc::{AllocError, Global};
use tfiles::counted::{CountedWrite, Uncounted};
use tfiles::dis::dis_text;
use tfiles::writing::output::{Output, WriteFault};
use tnames::{Names, put_labelled};
use topening::Fault;
use tplan::Image;
use tword::{Items, Kind};

/// Writes the instructions of an image, as those of a node of a kind, with labels where there are names.
pub(crate) fn write_dis<W: CountedWrite>(
    alloc: Global,
    image: &Image,
    kind: Kind,
    names: Option<&Names>,
    out: &mut W,
) -> Result<(), Fault>
    ensures answer { IfErr result (IsDue (Ok image.now)) }
    ensures text { OnOk result (Appends (W.contents out.old) (W.contents out.new)
        (labelled_dis (option_copied names.entry) kind image.now)) }
    ensures left { IfErr result (IsLeft W.contents (labelled_dis (option_copied names.entry) kind) (Ok image.now)
        out.old out.new) }
    ensures cause { IfErr result (HasOutputCause (W.failures out.old) (W.failures out.new)) }
    ensures stayed { OnOk result (HasStayed (W.failures out.old) (W.failures out.new)) }
{
    let Some(names) = names else {
        dis_text(image, kind, out)?;
        return Ok(());
    };
    let text = dis_bytes(alloc, image, kind)?;
    write_labelled(out, names, text.as_slice())?;
    Ok(())
}

/// The instructions of an image, as a text.
fn dis_bytes(alloc: Global, image: &Image, kind: Kind) -> Result<Items<u8>, AllocError>
    ensures { IfOk result (λ text. text ≡ spec_dis_text kind image.now) }
{
    let mut text = Uncounted(Vec::new(alloc));
    match dis_text(image, kind, &mut text) {
        Ok(()) => Ok(Items::new(text.0)),
        Err(_) => Err(AllocError),
    }
}

/// Writes the text of a disassembly with labels.
fn write_labelled<W: CountedWrite>(
    out: &mut W,
    names: &Names,
    text: &[u8],
) -> Result<(), WriteFault>
    ensures out { IsOut (W.contents out.old) (W.contents out.new) (labelled_text names.now text.now) result }
    ensures cause { IfErr result (λ _. HasRisen (W.failures out.old) (W.failures out.new)) }
    ensures stayed { OnOk result (HasStayed (W.failures out.old) (W.failures out.new)) }
{
    let mut output = Output::new(out);
    put_labelled(&mut output, names, text);
    output.finish()
}
