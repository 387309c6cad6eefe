//! Texts that stay on one line, since control characters stand in them as their bytes.

ghost use Rattle.std.specs.Prelude.{flat_map};
ghost use Rattle.tfiles.specs.Outputs.{Tells};
ghost use Rattle.tnames.specs.Escapes as spec;

use tfiles::CountedWrite;
use tfiles::writing::output::Output;
use tfiles::writing::text::put_byte;

/// A text in which each control character stands as its bytes in UTF-8, as `\x0a` (own choice of format).
pub fn put_escaped<W: CountedWrite>(out: &mut Output<'_, W>, text: &str)
    ensures { Tells W.contents W.failures out.old out.new (spec.escaped_text text.now) }
{
    for letter in text.chars() {
        put_letter(out, letter);
    }
}

/// A character of a text.
fn put_letter<W: CountedWrite>(out: &mut Output<'_, W>, letter: char)
    ensures { Tells W.contents W.failures out.old out.new (spec.escaped_letter letter) }
{
    let mut room = [0; 4];
    let text = letter.encode_utf8(&mut room);
    if letter.is_control() {
        put_bytes(out, text.as_bytes());
    } else {
        out.put(text.as_bytes());
    }
}

/// Bytes, each by its number.
fn put_bytes<W: CountedWrite>(out: &mut Output<'_, W>, bytes: &[u8])
    ensures { Tells W.contents W.failures out.old out.new (flat_map spec.escaped_byte bytes.now) }
{
    for byte in bytes {
        out.put(b"\\x");
        put_byte(out, *byte);
    }
}
