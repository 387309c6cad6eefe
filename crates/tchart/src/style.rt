//! What stands before the marks of a picture: its colours, light and dark, the head of an arrow, and the fillings of
//! pauses.

ghost use Rattle.tfiles.specs.Outputs.{Tells};
ghost use Rattle.tchart.specs.Style as spec;

use tfiles::CountedWrite;
use tfiles::writing::output::Output;

/// What stands before the marks.
pub(crate) fn put_style<W: CountedWrite>(out: &mut Output<'_, W>)
    ensures { Tells W.contents W.failures out.old out.new spec.style_text }
{
    out.put(b"<style>\n");
    put_light(out);
    out.put(b"@media (prefers-color-scheme: dark) {\n");
    put_dark(out);
    out.put(b"}\n");
    out.put(b"</style>\n");
    put_arrow_head(out);
    put_fillings(out);
    out.put(b"<rect class='paper' width='100%' height='100%'/>\n");
}

/// The colours and places where a page is light.
fn put_light<W: CountedWrite>(out: &mut Output<'_, W>)
    ensures { Tells W.contents W.failures out.old out.new spec.light_text }
{
    out.put(b"text { font: 12px monospace; fill: #1a1a1a; }\n");
    out.put(b".name, .count { text-anchor: middle; }\n");
    out.put(b".name { font-weight: bold; }\n");
    out.put(b".label, .beside { stroke: #ffffff; stroke-width: 3px; paint-order: stroke; }\n");
    out.put(b".label { pointer-events: none; }\n");
    out.put(b".paper, .input { fill: #ffffff; }\n");
    out.put(b".column { stroke: #c4c4c4; }\n");
    out.put(b".run { fill: #e4e8ee; stroke: #8a94a3; }\n");
    out.put(b".way { stroke: #1a1a1a; marker-end: url(#head); }\n");
    out.put(b".head, .begin, .halt { fill: #1a1a1a; }\n");
    out.put(b".output { fill: #c05a00; stroke: #c05a00; }\n");
    out.put(b".input { stroke: #2470c4; }\n");
    out.put(b".alternative { fill: url(#slanted); stroke: #8a3fb0; }\n");
    out.put(b".channel { fill: url(#barred); stroke: #2e7d32; }\n");
    out.put(b".slant { fill: #8a3fb0; }\n");
    out.put(b".rung { fill: #2e7d32; }\n");
    out.put(b".freeze { fill: #c81e1e; }\n");
}

/// The colours where it is dark.
fn put_dark<W: CountedWrite>(out: &mut Output<'_, W>)
    ensures { Tells W.contents W.failures out.old out.new spec.dark_text }
{
    out.put(b"text { fill: #e8e8e8; }\n");
    out.put(b".label, .beside { stroke: #14171c; }\n");
    out.put(b".paper, .input { fill: #14171c; }\n");
    out.put(b".column { stroke: #4a4f57; }\n");
    out.put(b".run { fill: #2c333d; stroke: #7c8796; }\n");
    out.put(b".way { stroke: #e8e8e8; }\n");
    out.put(b".head, .begin, .halt { fill: #e8e8e8; }\n");
    out.put(b".output { fill: #f29a4a; stroke: #f29a4a; }\n");
    out.put(b".input { stroke: #6aa9ef; }\n");
    out.put(b".alternative { stroke: #c08be0; }\n");
    out.put(b".channel { stroke: #7cc47f; }\n");
    out.put(b".slant { fill: #c08be0; }\n");
    out.put(b".rung { fill: #7cc47f; }\n");
    out.put(b".freeze { fill: #ff6b6b; }\n");
}

/// The head of an arrow.
fn put_arrow_head<W: CountedWrite>(out: &mut Output<'_, W>)
    ensures { Tells W.contents W.failures out.old out.new spec.head_text }
{
    out.put(b"<defs><marker id='head' viewBox='0 0 8 8' refX='8' refY='4'\n");
    out.put(b"markerWidth='8' markerHeight='8' orient='auto'>\n");
    out.put(b"<path class='head' d='M0 0 L8 4 L0 8 z'/></marker>\n");
}

/// The fillings of two kinds of pauses: slanted stripes, and rungs as those of a ladder.
fn put_fillings<W: CountedWrite>(out: &mut Output<'_, W>)
    ensures { Tells W.contents W.failures out.old out.new spec.fillings_text }
{
    out.put(b"<pattern id='slanted' width='4' height='4' patternUnits='userSpaceOnUse'\n");
    out.put(b"patternTransform='rotate(45)'>\n");
    out.put(b"<rect class='slant' width='2' height='4'/></pattern>\n");
    out.put(b"<pattern id='barred' width='8' height='6' patternUnits='userSpaceOnUse'>\n");
    out.put(b"<rect class='rung' width='8' height='2'/></pattern></defs>\n");
}
