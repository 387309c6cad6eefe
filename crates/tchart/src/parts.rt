//! Parts of a picture: its measures, and the elements of SVG that it is made of.

ghost use Rattle.tfiles.specs.Outputs.{Tells};
ghost use Rattle.std.specs.Prelude.{◌≡◌};
ghost use Rattle.tchart.specs.Parts as spec;

use tfiles::CountedWrite;
use tfiles::writing::output::Output;
use tfiles::writing::text::put_decimal;

/// Where the middle of a column is.
pub(crate) fn x_of(column: u32) -> u64
    ensures { result ≡ spec.x_of column }
{
    240 * u64::from(column) + 84
}

/// Where the middle of a row is.
pub(crate) fn y_of(row: u32) -> u64
    ensures { result ≡ spec.y_of row }
{
    24 * u64::from(row) + 144
}

/// An element of this name begins, of a class.
fn put_class<W: CountedWrite>(out: &mut Output<'_, W>, name: &[u8], class: &[u8])
    ensures { Tells W.contents W.failures out.old out.new (spec.class_text name.now class.now) }
{
    out.put(b"<");
    out.put(name);
    out.put(b" class='");
    out.put(class);
    out.put(b"'");
}

/// An attribute that is a number.
pub(crate) fn put_number<W: CountedWrite>(out: &mut Output<'_, W>, name: &[u8], number: u64)
    ensures { Tells W.contents W.failures out.old out.new (spec.number_text name.now number) }
{
    out.put(b" ");
    out.put(name);
    out.put(b"='");
    put_decimal(out, number);
    out.put(b"'");
}

/// A rectangle, by its left upper corner.
pub(crate) fn put_rectangle<W: CountedWrite>(
    out: &mut Output<'_, W>,
    class: &[u8],
    x: u64,
    y: u64,
    width: u64,
    height: u64,
)
    ensures { Tells W.contents W.failures out.old out.new (spec.rectangle_text class.now x y width height) }
{
    put_class(out, b"rect", class);
    put_number(out, b"x", x);
    put_number(out, b"y", y);
    put_number(out, b"width", width);
    put_number(out, b"height", height);
    out.put(b"/>");
}

/// A circle.
pub(crate) fn put_circle<W: CountedWrite>(out: &mut Output<'_, W>, class: &[u8], x: u64, y: u64)
    ensures { Tells W.contents W.failures out.old out.new (spec.circle_text class.now x y) }
{
    put_class(out, b"circle", class);
    put_number(out, b"cx", x);
    put_number(out, b"cy", y);
    out.put(b" r='4'/>");
}

/// A line, or an arrow by its class.
pub(crate) fn put_line<W: CountedWrite>(
    out: &mut Output<'_, W>,
    class: &[u8],
    x1: u64,
    y1: u64,
    x2: u64,
    y2: u64,
)
    ensures { Tells W.contents W.failures out.old out.new (spec.line_text class.now x1 y1 x2 y2) }
{
    put_class(out, b"line", class);
    put_number(out, b"x1", x1);
    put_number(out, b"y1", y1);
    put_number(out, b"x2", x2);
    put_number(out, b"y2", y2);
    out.put(b"/>");
}

/// A text begins, of a class that says what of it stands at the place.
pub(crate) fn put_text<W: CountedWrite>(out: &mut Output<'_, W>, class: &[u8], x: u64, y: u64)
    ensures { Tells W.contents W.failures out.old out.new (spec.text_head class.now x y) }
{
    put_class(out, b"text", class);
    put_number(out, b"x", x);
    put_number(out, b"y", y);
    out.put(b">");
}
