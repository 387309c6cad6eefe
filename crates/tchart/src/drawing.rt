//! The text of a picture.

ghost use Rattle.std.specs.Prelude.{◌≡◌, ◌<◌, ◌≤◌, ◌^◌, flat_map, fold};
ghost use Rattle.tfiles.specs.Texts.{break_name as name_of_break};
ghost use Rattle.tfiles.specs.Outputs.{Tells};
ghost use Rattle.tchart.specs.Drawing as spec;
ghost use Rattle.tchart.specs.Titles.{bytes_text};

use crate::layout::{Chart, Column, Kind};
use crate::marks::{Bar, Mark, Pause};
use crate::parts::{put_circle, put_line, put_number, put_rectangle, put_text, x_of, y_of};
use crate::plot::MOST_ROWS;
use crate::shown::Message;
use crate::style::put_style;
use crate::titles::{put_bytes, put_title};
use crate::waits::{Awaited, awaited_of};
use tfiles::CountedWrite;
use tfiles::break_names::break_name;
use tfiles::writing::output::Output;
use tfiles::writing::text::put_decimal;
use tword::Break;
use tword::limits::MOST_NODES;

/// How many rows are drawn at full size. A picture of more is a third smaller, so it is at most 32,138 pixels high:
/// some viewers draw none above 32,767.
const MOST_FULL_ROWS: u32 = 1_300;

/// Writes a picture as SVG (own choice of format, `specs/Drawing`). It takes no memory.
pub fn put_chart<W: CountedWrite>(out: &mut Output<'_, W>, chart: &Chart)
    ensures { Tells W.contents W.failures out.old out.new (spec.chart_text chart.now) }
{
    let rows = chart.rows.min(MOST_ROWS);
    put_head(out, rows, width_of(chart), height_of(rows));
    put_style(out);
    put_key(out, 20);
    put_lack(out, chart, 90);
    put_columns(out, rows, chart.columns.as_slice());
    put_marks(out, chart.marks.as_slice());
    put_lack(out, chart, y_of(rows) + 36);
    out.put(b"</svg>\n");
}

/// How wide a picture is.
fn width_of(chart: &Chart) -> u64
    ensures is { result ≡ spec.width_of chart.now }
    ensures small { result < 2 ^ 60 }
{
    farthest(columns_reach(chart), chart.marks.as_slice()) + 12
}

/// How far the key and the columns of a picture reach.
fn columns_reach(chart: &Chart) -> u64
    ensures is { result ≡ spec.columns_reach chart.now }
    ensures small { result < 2 ^ 50 }
{
    let columns = chart.columns.as_slice().len().min(MOST_NODES) as u64;
    (240 * columns).saturating_sub(84).max(268)
}

/// How far the marks of a picture reach, if it reaches this far without them.
fn farthest(far: u64, marks: &[Mark]) -> u64
    requires { far < 2 ^ 50 }
    ensures is { result ≡ fold spec.farther far marks.now }
    ensures small { result < 2 ^ 50 }
{
    let mut far = far;
    for mark in marks {
        far = far.max(reach(mark));
    }
    far
}

/// How far the text of a mark reaches. One of a freeze has 23 letters at most.
fn reach(mark: &Mark) -> u64
    ensures is { result ≡ spec.reach mark.now }
    ensures small { result < 2 ^ 50 }
{
    match mark {
        Mark::Message { message, .. } => label_reach(message),
        Mark::Freeze { node, .. } => x_of(u32::from(*node)) + 196,
        _ => 0,
    }
}

/// How far the text of an arrow reaches, with eight pixels for a letter.
fn label_reach(message: &Message) -> u64
    ensures is { result ≡ spec.label_reach message.now }
    ensures small { result < 2 ^ 50 }
{
    let bytes = message.bytes.as_slice().len().min(8) as u64;
    x_of(message.from.node) + 8 * (digits_of(message.length) + 2 * bytes + 4) + 10
}

/// How many digits a number has at most.
fn digits_of(number: u32) -> u64
    ensures is { result ≡ spec.digits_of number }
    ensures few { result ≤ 10 }
{
    if number < 10 {
        1
    } else if number < 100 {
        2
    } else if number < 10_000 {
        4
    } else {
        10
    }
}

/// How high a picture with this number of rows is.
fn height_of(rows: u32) -> u64
    ensures { result ≡ spec.height_of rows }
{
    y_of(rows) + 64
}

/// How many pixels a length has in a picture of this number of rows.
fn pixels(rows: u32, length: u64) -> u64
    requires { length < 2 ^ 60 }
    ensures { result ≡ spec.pixels rows length }
{
    if MOST_FULL_ROWS < rows {
        2 * length / 3
    } else {
        length
    }
}

/// The first line of a picture of this number of rows.
fn put_head<W: CountedWrite>(out: &mut Output<'_, W>, rows: u32, width: u64, height: u64)
    requires width { width < 2 ^ 60 }
    requires height { height < 2 ^ 60 }
    ensures { Tells W.contents W.failures out.old out.new (spec.head_text rows width height) }
{
    out.put(b"<svg xmlns='http://www.w3.org/2000/svg'");
    put_number(out, b"width", pixels(rows, width));
    put_number(out, b"height", pixels(rows, height));
    out.put(b" viewBox='0 0 ");
    put_decimal(out, width);
    out.put(b" ");
    put_decimal(out, height);
    out.put(b"'>\n");
}

/// Columns over this number of rows.
fn put_columns<W: CountedWrite>(out: &mut Output<'_, W>, rows: u32, columns: &[Column])
    ensures { Tells W.contents W.failures out.old out.new (flat_map (spec.column_text rows) columns.now) }
{
    for column in columns {
        put_column(out, rows, column);
    }
}

/// A column: its name, and a line.
fn put_column<W: CountedWrite>(out: &mut Output<'_, W>, rows: u32, column: &Column)
    ensures { Tells W.contents W.failures out.old out.new (spec.column_text rows column.now) }
{
    let x = x_of(u32::from(column.number));
    put_text(out, b"name", x, 120);
    put_kind(out, column.kind);
    put_decimal(out, u64::from(column.number));
    out.put(b"</text>");
    put_line(out, b"column", x, 132, x, y_of(rows) + 14);
    out.put(b"\n");
}

/// What a column is of.
fn put_kind<W: CountedWrite>(out: &mut Output<'_, W>, kind: Kind)
    ensures { Tells W.contents W.failures out.old out.new (spec.kind_text kind) }
{
    match kind {
        Kind::Node => out.put(b"node "),
        Kind::Source => out.put(b"source "),
        Kind::Sink => out.put(b"sink "),
    }
}

/// The key of the colours of pauses, from a height on.
fn put_key<W: CountedWrite>(out: &mut Output<'_, W>, y: u64)
    requires low { 10 ≤ y }
    requires high { y < 2 ^ 60 }
    ensures { Tells W.contents W.failures out.old out.new (spec.key_text y) }
{
    put_key_line(out, Awaited::Output, y);
    put_key_line(out, Awaited::Input, y + 18);
    put_key_line(out, Awaited::Alternative, y + 36);
    put_key_line(out, Awaited::Channel, y + 54);
}

/// The colour and the filling of a pause, and what is waited for.
fn put_key_line<W: CountedWrite>(out: &mut Output<'_, W>, awaited: Awaited, y: u64)
    requires { 10 ≤ y }
    ensures { Tells W.contents W.failures out.old out.new (spec.key_line awaited y) }
{
    put_rectangle(out, class_of(awaited), 12, y - 10, 8, 12);
    put_text(out, b"beside", 28, y);
    out.put(awaited_text(awaited));
    out.put(b"</text>\n");
}

/// What is not drawn of a picture, from a height on.
fn put_lack<W: CountedWrite>(out: &mut Output<'_, W>, chart: &Chart, y: u64)
    requires { y < 2 ^ 60 }
    ensures { Tells W.contents W.failures out.old out.new (spec.lack_text chart.now y) }
{
    put_rest(out, chart.rows, y);
    put_crowd(out, chart.is_crowded, y + 14);
}

/// That there are more rows than are drawn, at a height.
fn put_rest<W: CountedWrite>(out: &mut Output<'_, W>, rows: u32, y: u64)
    ensures { Tells W.contents W.failures out.old out.new (spec.rest_text rows y) }
{
    if MOST_ROWS < rows {
        put_text(out, b"beside", 12, y);
        out.put(b"only the first 2000 rows are drawn");
        out.put(b"</text>\n");
    }
}

/// That there were more pauses at one time than lanes, at a height.
fn put_crowd<W: CountedWrite>(out: &mut Output<'_, W>, is_crowded: bool, y: u64)
    ensures { Tells W.contents W.failures out.old out.new (spec.crowd_text is_crowded y) }
{
    if is_crowded {
        put_text(out, b"beside", 12, y);
        out.put(b"at most 6 waits of a node are drawn");
        out.put(b"</text>\n");
    }
}

/// The marks, layer by layer, and the texts of arrows.
fn put_marks<W: CountedWrite>(out: &mut Output<'_, W>, marks: &[Mark])
    ensures { Tells W.contents W.failures out.old out.new (spec.marks_text marks.now) }
{
    put_layer(out, 0, marks);
    put_layer(out, 1, marks);
    put_layer(out, 2, marks);
    put_labels(out, marks);
}

/// The marks of a layer.
fn put_layer<W: CountedWrite>(out: &mut Output<'_, W>, layer: u8, marks: &[Mark])
    ensures { Tells W.contents W.failures out.old out.new (flat_map (spec.layer_text layer) marks.now) }
{
    for mark in marks {
        put_in_layer(out, layer, mark);
    }
}

/// A mark, if it lies in this layer.
fn put_in_layer<W: CountedWrite>(out: &mut Output<'_, W>, layer: u8, mark: &Mark)
    ensures { Tells W.contents W.failures out.old out.new (spec.layer_text layer mark.now) }
{
    if mark.layer() == layer {
        put_mark(out, mark);
    }
}

/// The texts of arrows.
fn put_labels<W: CountedWrite>(out: &mut Output<'_, W>, marks: &[Mark])
    ensures { Tells W.contents W.failures out.old out.new (flat_map spec.label_text marks.now) }
{
    for mark in marks {
        put_label(out, mark);
    }
}

/// The text of a mark, if it is an arrow.
fn put_label<W: CountedWrite>(out: &mut Output<'_, W>, mark: &Mark)
    ensures { Tells W.contents W.failures out.old out.new (spec.label_text mark.now) }
{
    match mark {
        Mark::Message { begun, message, .. } => put_message_label(out, begun.row, message),
        _ => {}
    }
}

/// The length and the first bytes of a message, at the right of where its arrow begins.
fn put_message_label<W: CountedWrite>(out: &mut Output<'_, W>, begun: u32, message: &Message)
    ensures { Tells W.contents W.failures out.old out.new
        (spec.message_label message.now.from.node begun (bytes_text message.now)) }
{
    put_text(out, b"label", x_of(message.from.node) + 10, y_of(begun) - 4);
    put_bytes(out, message);
    out.put(b"</text>\n");
}

/// A mark: its title, which a viewer shows, and its shape.
fn put_mark<W: CountedWrite>(out: &mut Output<'_, W>, mark: &Mark)
    ensures { Tells W.contents W.failures out.old out.new (spec.mark_text mark.now) }
{
    out.put(b"<g><title>");
    put_title(out, mark);
    out.put(b"</title>");
    put_shape(out, mark);
    out.put(b"</g>\n");
}

/// The shape of a mark.
fn put_shape<W: CountedWrite>(out: &mut Output<'_, W>, mark: &Mark)
    ensures { Tells W.contents W.failures out.old out.new (spec.shape_text mark.now) }
{
    match mark {
        Mark::Bar { node, bar } => put_bar(out, u32::from(*node), bar),
        Mark::Pause {
            node,
            lane,
            pause,
            to,
            ..
        } => put_pause(out, u32::from(*node), *lane, pause, *to),
        Mark::Begin { node, row, .. } => {
            put_circle(out, b"begin", x_of(u32::from(*node)), y_of(*row));
        }
        Mark::Message {
            to,
            begun,
            row,
            message,
            ..
        } => put_arrow(out, message.from.node, to.node, begun.row, *row),
        Mark::Halt { node, row, .. } => put_halt(out, u32::from(*node), *row),
        Mark::Freeze {
            node,
            row,
            broken,
            ..
        } => put_freeze(out, u32::from(*node), *row, *broken),
    }
}

/// A box with the count of instructions and dispatches, at the right of the column's line.
fn put_bar<W: CountedWrite>(out: &mut Output<'_, W>, node: u32, bar: &Bar)
    ensures { Tells W.contents W.failures out.old out.new (spec.bar_shape node bar.now) }
{
    let x = x_of(node);
    let y = y_of(bar.row);
    put_rectangle(out, b"run", x - 4, y - 9, 64, 18);
    put_text(out, b"count", x + 28, y + 4);
    put_decimal(out, bar.count);
    out.put(b"</text>");
}

/// A narrow box over all rows of a wait, in a lane at the left of the column's line.
fn put_pause<W: CountedWrite>(out: &mut Output<'_, W>, node: u32, lane: u8, pause: &Pause, to: u32)
    ensures { Tells W.contents W.failures out.old out.new (spec.pause_shape node lane pause.now to) }
{
    let rows = (u64::from(to) + 1).saturating_sub(u64::from(pause.from));
    let x = x_of(node).saturating_sub(16 + 10 * u64::from(lane));
    let y = y_of(pause.from) - 11;
    let class = class_of(awaited_of(pause.need));
    put_rectangle(out, class, x, y, 8, (24 * rows).saturating_sub(2));
}

/// An arrow.
fn put_arrow<W: CountedWrite>(out: &mut Output<'_, W>, from: u32, to: u32, begun: u32, row: u32)
    ensures { Tells W.contents W.failures out.old out.new (spec.message_shape from to begun row) }
{
    put_line(out, b"way", x_of(from), y_of(begun), x_of(to), y_of(row));
}

/// A small square, and a text begins beside it.
fn put_stop<W: CountedWrite>(out: &mut Output<'_, W>, class: &[u8], node: u32, row: u32)
    ensures { Tells W.contents W.failures out.old out.new (spec.stop_head class.now node row) }
{
    let x = x_of(node);
    let y = y_of(row);
    put_rectangle(out, class, x - 6, y - 6, 12, 12);
    put_text(out, b"beside", x + 12, y + 4);
}

/// A halt.
fn put_halt<W: CountedWrite>(out: &mut Output<'_, W>, node: u32, row: u32)
    ensures { Tells W.contents W.failures out.old out.new (spec.halt_shape node row) }
{
    put_stop(out, b"halt", node, row);
    out.put(b"halt");
    out.put(b"</text>");
}

/// A freeze, with the break.
fn put_freeze<W: CountedWrite>(out: &mut Output<'_, W>, node: u32, row: u32, broken: Break)
    ensures { Tells W.contents W.failures out.old out.new (spec.freeze_shape node row (name_of_break broken)) }
{
    put_stop(out, b"freeze", node, row);
    out.put(b"freeze ");
    out.put(break_name(broken));
    out.put(b"</text>");
}

/// The class of a pause, which has its colour and its filling.
fn class_of(awaited: Awaited) -> &'static [u8]
    ensures { result.now ≡ spec.class_of awaited }
{
    match awaited {
        Awaited::Output => b"output",
        Awaited::Input => b"input",
        Awaited::Alternative => b"alternative",
        Awaited::Channel => b"channel",
    }
}

/// What is waited for.
fn awaited_text(awaited: Awaited) -> &'static [u8]
    ensures { result.now ≡ spec.awaited_text awaited }
{
    match awaited {
        Awaited::Output => b"waits for output on a link",
        Awaited::Input => b"waits for input on a link",
        Awaited::Alternative => b"waits for an alternative",
        Awaited::Channel => b"waits on an internal channel",
    }
}
