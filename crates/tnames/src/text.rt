//! Texts with names behind the addresses in them.

ghost use Rattle.std.specs.Prelude.{◌≡◌, IfErr, OnOk, Some};
ghost use Rattle.std.specs.List.{list_all};
ghost use Rattle.tfiles.specs.Failures.{HasRisen, HasStayed};
ghost use Rattle.tfiles.specs.Outputs.{IsOut, Tells};
ghost use Rattle.tnames.specs.Texts as spec;
ghost use Rattle.tnames.specs.Texts.{behind, label_at, label_text, name_text, named_text};
ghost use Rattle.tnames.specs.Names.{name_at};

use crate::names::{Names, place_of};
use crate::reading::{DIGITS, address_of};
use tfiles::writing::output::Output;
use tfiles::writing::text::put_decimal;
use tfiles::{CountedWrite, WriteFault};
use tword::Word;
use tword::limits::LARGEST_MEMORY_TWO;

/// Writes a text with names (own choice of format): each address in it, `#` and eight hexadecimal digits in lower case,
/// is followed by a blank and its name, with how far above it the address lies: `#800000f8 got+8`, or `#800000f0 got`.
/// A word that lies in no memory, or has no name, is followed by nothing. All else stays as it is.
///
/// # Errors
/// Where the writer fails or takes nothing. Then only the first bytes are written, as many as the fault tells.
pub fn write_named<W: CountedWrite>(
    out: &mut W,
    names: &Names,
    text: &[u8],
) -> Result<(), WriteFault>
    ensures out { IsOut (W.contents out.old) (W.contents out.new) (named_text names.now text.now) result }
    ensures cause { IfErr result (λ _. HasRisen (W.failures out.old) (W.failures out.new)) }
    ensures stayed { OnOk result (HasStayed (W.failures out.old) (W.failures out.new)) }
{
    let mut output = Output::new(out);
    put_named(&mut output, names, text);
    output.finish()
}

/// A text with names.
pub fn put_named<W: CountedWrite>(out: &mut Output<'_, W>, names: &Names, text: &[u8])
    ensures { Tells W.contents W.failures out.old out.new (named_text names.now text.now) }
{
    for place in 0..text.len() {
        out.put(&text[place..place + 1]);
        put_behind(out, names, address_at_end(&text[..place + 1]));
    }
}

/// A line `got:` for an address that just this name has; nothing for an address that lies above its name, or has none.
pub fn put_label<W: CountedWrite>(out: &mut Output<'_, W>, names: &Names, address: Word)
    ensures { Tells W.contents W.failures out.old out.new (label_text (name_at names.now address)) }
{
    if let Some((name, distance)) = names.at(address) {
        put_label_at(out, name, distance);
    }
}

/// A line of a name, where an address does not lie above it.
fn put_label_at<W: CountedWrite>(out: &mut Output<'_, W>, name: &[u8], distance: u32)
    ensures { Tells W.contents W.failures out.old out.new (label_at name.now distance) }
{
    if distance == 0 {
        out.put(name);
        out.put(b":");
        out.put(b"\n");
    }
}

/// What is put behind an address, where there is one.
fn put_behind<W: CountedWrite>(out: &mut Output<'_, W>, names: &Names, address: Option<Word>)
    ensures { Tells W.contents W.failures out.old out.new (behind names.now address) }
{
    if let Some(address) = address {
        put_name(out, names, address);
    }
}

/// A blank and the name of an address, where it has one.
fn put_name<W: CountedWrite>(out: &mut Output<'_, W>, names: &Names, address: Word)
    ensures { Tells W.contents W.failures out.old out.new (behind names.now (Some address)) }
{
    if let Some((name, distance)) = names.at(address) {
        out.put(b" ");
        put_distance(out, name, distance);
    }
}

/// A name, and behind a plus how far above it an address lies, where it does.
fn put_distance<W: CountedWrite>(out: &mut Output<'_, W>, name: &[u8], distance: u32)
    ensures { Tells W.contents W.failures out.old out.new (name_text name.now distance) }
{
    out.put(name);
    if distance != 0 {
        out.put(b"+");
        put_decimal(out, u64::from(distance));
    }
}

/// The address in which a text ends: `#` and eight hexadecimal digits in lower case.
fn address_at_end(text: &[u8]) -> Option<Word>
    ensures { result ≡ spec.address_at_end text.now }
{
    printed_address(&text[text.len().saturating_sub(DIGITS + 1)..])
}

/// The address that `#` and eight hexadecimal digits in lower case stand for.
fn printed_address(text: &[u8]) -> Option<Word>
    ensures { result ≡ spec.printed_address text.now }
{
    match text {
        [b'#', digits @ ..] if are_lower_digits(digits) => in_memory(address_of(digits)),
        _ => None,
    }
}

/// An address, where a memory may have it.
fn in_memory(address: Option<Word>) -> Option<Word>
    ensures { result ≡ spec.in_memory address }
{
    match address {
        Some(address) if place_of(address) < LARGEST_MEMORY_TWO => Some(address),
        _ => None,
    }
}

/// Whether these are hexadecimal digits in lower case.
fn are_lower_digits(digits: &[u8]) -> bool
    ensures { result ≡ list_all spec.is_lower_digit digits.now }
{
    digits.iter().all(|byte| is_lower_digit(*byte))
}

/// Whether a byte is a hexadecimal digit in lower case.
fn is_lower_digit(byte: u8) -> bool
    ensures { result ≡ spec.is_lower_digit byte }
{
    byte.is_ascii_digit() || (b'a'..=b'f').contains(&byte)
}
