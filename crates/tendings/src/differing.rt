//! Where two dumps differ: the lines of memories that are not the same.

ghost use Rattle.std.specs.Prelude.{◌≡◌, ◌∷◌, ◌<◌, ◌≤◌, [], length};
ghost use Rattle.tfiles.specs.Outputs.{Tells};
ghost use Rattle.tendings.specs.Differences as spec;

use tfiles::counted::CountedWrite;
use tfiles::writing::output::Output;

/// Whether two texts agree except for what stands in memories.
pub fn agree_elsewhere(one: &[u8], other: &[u8]) -> bool
    ensures { result ≡ spec.agree_elsewhere (spec.text_lines one.now) (spec.text_lines other.now) }
{
    let mut left = one;
    let mut other_left = other;
    while !left.is_empty() {
        if other_left.is_empty() {
            return false;
        }
        let (line, behind) = cut_line(left);
        let (other_line, other_behind) = cut_line(other_left);
        if !agree_or_differ_in_memory(line, other_line) {
            return false;
        }
        left = behind;
        other_left = other_behind;
    }
    other_left.is_empty()
}

/// The lines of memories in which a text differs from one that agrees with it elsewhere, those of a node behind its
/// heading.
pub fn put_differing<W: CountedWrite>(out: &mut Output<'_, W>, one: &[u8], other: &[u8])
    ensures { Tells W.contents W.failures out.old out.new
        (spec.differing [] (spec.text_lines one.now) (spec.text_lines other.now)) }
{
    let mut left = one;
    let mut other_left = other;
    let mut heading = &other[..0];
    while !left.is_empty() {
        if other_left.is_empty() {
            return;
        }
        let (line, behind) = cut_line(left);
        let (other_line, other_behind) = cut_line(other_left);
        put_change(out, heading, line, other_line);
        heading = heading_behind(heading, line, other_line);
        left = behind;
        other_left = other_behind;
    }
}

/// A line that stands in the place of another, if it is of a memory and differs, behind the heading that is due.
fn put_change<W: CountedWrite>(out: &mut Output<'_, W>, heading: &[u8], line: &[u8], other: &[u8])
    ensures { Tells W.contents W.failures out.old out.new (spec.change_text heading.now line.now other.now) }
{
    if is_changed(line, other) {
        out.put(heading);
        out.put(other);
    }
}

/// Whether a line that stands in the place of another is of a memory and differs.
fn is_changed(line: &[u8], other: &[u8]) -> bool
    ensures { result ≡ spec.is_changed line.now other.now }
{
    is_of_memory(other) && line != other
}

/// The heading that is due behind a line: that of the node, until a line of it was printed.
fn heading_behind<'a>(heading: &'a [u8], line: &[u8], other: &'a [u8]) -> &'a [u8]
    ensures { result.now ≡ spec.heading_behind heading.now line.now other.now }
{
    if !is_of_memory(other) {
        other
    } else if line == other {
        heading
    } else {
        &other[..0]
    }
}

/// Whether two lines are the same, or tell of one place of a memory.
fn agree_or_differ_in_memory(line: &[u8], other: &[u8]) -> bool
    ensures { result ≡ spec.agree_or_differ_in_memory line.now other.now }
{
    line == other || are_of_one_place(line, other)
}

/// Whether two lines tell of one place of a memory.
fn are_of_one_place(line: &[u8], other: &[u8]) -> bool
    ensures { result ≡ spec.are_of_one_place line.now other.now }
{
    is_of_memory(line) && is_of_memory(other) && line[..9] == other[..9]
}

/// Whether a line tells of a memory.
fn is_of_memory(line: &[u8]) -> bool
    ensures { result ≡ spec.is_of_memory line.now }
{
    line.len() > 8 && line[8] == b':'
}

/// The first line of a text, with its end, and what stands behind it.
fn cut_line(text: &[u8]) -> (&[u8], &[u8])
    requires { 0 < length text.now }
    ensures lines { spec.text_lines text.now ≡ result.0.now ∷ spec.text_lines result.1.now }
    ensures shorter { length result.1.now < length text.now }
{
    let end = line_length(text);
    (&text[..end], &text[end..])
}

/// How long the first line of a text is, with its end.
fn line_length(text: &[u8]) -> usize
    ensures value { result ≡ spec.line_length text.now }
    ensures within { result ≤ length text.now }
{
    for (place, byte) in text.iter().enumerate() {
        if *byte == b'\n' {
            return place + 1;
        }
    }
    text.len()
}
