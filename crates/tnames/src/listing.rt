//! A disassembly with labels.

ghost use Rattle.std.specs.Prelude.{◌≡◌, ◌++◌, [], ◌∷◌, Some};
ghost use Rattle.tfiles.specs.Outputs.{Tells};
ghost use Rattle.tnames.specs.Listings as spec;
ghost use Rattle.tnames.specs.Listings.{labelled_text};

use crate::names::Names;
use crate::reading::{DIGITS, address_of, behind, end_of_line};
use crate::text::put_label;
use tfiles::CountedWrite;
use tfiles::writing::output::Output;
use tword::Word;

/// Writes the lines of a disassembly, which begin with their addresses, with labels (own choice of format): before a
/// line whose address has a name stands `got:`. All else stays as it is.
pub fn put_labelled<W: CountedWrite>(out: &mut Output<'_, W>, names: &Names, text: &[u8])
    ensures { Tells W.contents W.failures out.old out.new (labelled_text names.now text.now) }
{
    let mut rest = text;
    while let Some(end) = end_of_line(rest) {
        put_line(out, names, &rest[..end]);
        rest = behind(rest, end);
    }
    out.put(rest);
}

/// A line, behind the label of its address.
fn put_line<W: CountedWrite>(out: &mut Output<'_, W>, names: &Names, text: &[u8])
    ensures { Tells W.contents W.failures out.old out.new (spec.labelled_line names.now text.now) }
{
    put_label_of(out, names, listed_address(text));
    out.put(text);
    out.put(b"\n");
}

/// The label of an address, where there is one.
fn put_label_of<W: CountedWrite>(out: &mut Output<'_, W>, names: &Names, address: Option<Word>)
    ensures { Tells W.contents W.failures out.old out.new (spec.label_of names.now address) }
{
    if let Some(address) = address {
        put_label(out, names, address);
    }
}

/// The address at the beginning of a line.
fn listed_address(text: &[u8]) -> Option<Word>
    ensures { result ≡ spec.listed_address text.now }
{
    address_of(&text[..usize::min(DIGITS, text.len())])
}
