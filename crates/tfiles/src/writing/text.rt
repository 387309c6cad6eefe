//! Small parts of text.

ghost use Rattle.std.specs.Prelude.{codes, decimal, [], ◌∷◌, if◌then◌else◌};
ghost use Rattle.std.specs.Fmt.{signed_decimal};
ghost use Rattle.hex.specs.Hex.{encode_lower};
ghost use Rattle.tfiles.specs.Texts.{end_text};
ghost use Rattle.tfiles.specs.Outputs.{Tells};

use crate::counted::CountedWrite;
use crate::writing::output::Output;
use tplan::plan::End;

/// A number in decimal digits.
pub fn put_decimal<W: CountedWrite>(out: &mut Output<'_, W>, number: u64)
    ensures { Tells W.contents W.failures out.old out.new (decimal number) }
{
    if number < 10 {
        out.put(&[b'0' + number as u8]);
    } else {
        put_decimal(out, number / 10);
        out.put(&[b'0' + (number % 10) as u8]);
    }
}

/// A number in decimal digits, with a minus sign where it is negative.
pub(crate) fn put_signed<W: CountedWrite>(out: &mut Output<'_, W>, number: i32)
    ensures { Tells W.contents W.failures out.old out.new (signed_decimal number) }
{
    put_sign(out, number < 0);
    put_decimal(out, u64::from(number.unsigned_abs()));
}

/// The sign of a number.
fn put_sign<W: CountedWrite>(out: &mut Output<'_, W>, negative: bool)
    ensures { Tells W.contents W.failures out.old out.new (if negative then codes "-" else []) }
{
    if negative {
        out.put(b"-");
    }
}

/// Bytes as hexadecimal digits, in lower case.
pub fn put_hex<W: CountedWrite>(out: &mut Output<'_, W>, bytes: &[u8])
    ensures { Tells W.contents W.failures out.old out.new (encode_lower bytes.now) }
{
    for byte in bytes {
        put_byte(out, *byte);
    }
}

/// A byte as two hexadecimal digits.
pub fn put_byte<W: CountedWrite>(out: &mut Output<'_, W>, byte: u8)
    ensures { Tells W.contents W.failures out.old out.new (encode_lower (byte ∷ [])) }
{
    let mut digits = [0; 2];
    // There is room for just two digits.
    let _ = hex::encode_to_slice([byte], &mut digits);
    out.put(&digits);
}

/// An end of a wire, as its node and its link.
pub fn put_end<W: CountedWrite>(out: &mut Output<'_, W>, end: &End)
    ensures { Tells W.contents W.failures out.old out.new (end_text end.now) }
{
    put_decimal(out, u64::from(end.node));
    out.put(b".");
    put_decimal(out, u64::from(end.link));
}
