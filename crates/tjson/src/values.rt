//! Ends, names and bytes as values of JSON.

ghost use Rattle.std.specs.Prelude.{[], codes, if◌then◌else◌};
ghost use Rattle.tfiles.specs.Outputs.{Tells};
ghost use Rattle.tjson.specs.Json.{quoted};
ghost use Rattle.tjson.specs.Runs.{bytes_value, end_value};

use tfiles::counted::CountedWrite;
use tfiles::writing::output::Output;
use tfiles::writing::text::{put_decimal, put_hex};
use tplan::plan::End;

/// A string of characters none of which needs an escape.
pub(crate) fn put_string<W: CountedWrite>(out: &mut Output<'_, W>, text: &[u8])
    ensures { Tells W.contents W.failures out.old out.new (quoted text.now) }
{
    out.put(b"\"");
    out.put(text);
    out.put(b"\"");
}

/// Bytes, as a string of their hexadecimal digits.
pub(crate) fn put_bytes<W: CountedWrite>(out: &mut Output<'_, W>, bytes: &[u8])
    ensures { Tells W.contents W.failures out.old out.new (bytes_value bytes.now) }
{
    out.put(b"\"");
    put_hex(out, bytes);
    out.put(b"\"");
}

/// An end of a wire, as an array of its node and its link.
pub(crate) fn put_end<W: CountedWrite>(out: &mut Output<'_, W>, end: &End)
    ensures { Tells W.contents W.failures out.old out.new (end_value end.now) }
{
    out.put(b"[");
    put_decimal(out, u64::from(end.node));
    out.put(b", ");
    put_decimal(out, u64::from(end.link));
    out.put(b"]");
}

/// The comma before a value of an array, unless it is the first.
pub(crate) fn put_comma<W: CountedWrite>(out: &mut Output<'_, W>, is_first: bool)
    ensures { Tells W.contents W.failures out.old out.new (if is_first then [] else codes ", ") }
{
    if !is_first {
        out.put(b", ");
    }
}
