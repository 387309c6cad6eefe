//! The dump of a node: how it stands, and its bytes.

ghost use Rattle.std.specs.Prelude.{◌≡◌, ◌+◌, ◌<◌, ◌≤◌, ◌^◌, ◌++◌, codes, length, None, Some, if◌then◌else◌, sum};
ghost use Rattle.std.specs.List.{list_any, list_all, flat_map};
ghost use Rattle.tword.specs.Claims.{overlaps_claim};
ghost use Rattle.tword.specs.Stores.{as_cells, hiding, hiding_from};
ghost use Rattle.tfiles.specs.Texts as spec;
ghost use Rattle.tfiles.specs.Texts.{node_line, node_text, dump_of, dump_line, dump_lines, lines_of, cell_text};
ghost use Rattle.tfiles.specs.Texts.{is_zero, is_pending};
ghost use Rattle.tfiles.specs.Outputs.{Tells};

use crate::break_names::break_name;
use crate::counted::CountedWrite;
use crate::writing::output::Output;
use crate::writing::text::{put_byte, put_decimal, put_hex};
use tword::limits::MOST_NEG;
use tword::{Break, Span, Word};

/// How many bytes a line shows.
const LINE_BYTES: usize = 16;

/// How many bytes are passed over at once where they are all zero.
const BLOCK_BYTES: usize = 256;

/// The dump of a node (own choice of format): a line `node 3 ok`, `node 3 halted` or `node 3 frozen NAME`, and then
/// a line for each sixteen bytes that are not all zero, as `800000f0: 00 00 .. 80`. A byte that a pending link
/// input is to write, whose spans are given, is shown as `--`, and is not zero.
pub(crate) fn put_node_dump<W: CountedWrite>(
    out: &mut Output<'_, W>,
    node: usize,
    broken: Option<Break>,
    halted: bool,
    bytes: &[u8],
    pending: &[Option<Span>],
)
    requires { length bytes.now ≤ 2 ^ 24 }
    ensures { Tells W.contents W.failures out.old out.new
        (dump_of node broken halted (hiding (is_pending pending.now) (as_cells bytes.now))) }
{
    put_node_line(out, node, broken, halted);
    put_lines(out, bytes, pending);
}

/// The line that says how the node stands.
pub fn put_node_line<W: CountedWrite>(
    out: &mut Output<'_, W>,
    node: usize,
    broken: Option<Break>,
    halted: bool,
)
    ensures { Tells W.contents W.failures out.old out.new (node_line node broken halted) }
{
    out.put(b"node ");
    put_decimal(out, node as u64);
    out.put(b" ");
    put_standing(out, broken, halted);
    out.put(b"\n");
}

/// How a node stands.
fn put_standing<W: CountedWrite>(out: &mut Output<'_, W>, broken: Option<Break>, halted: bool)
    ensures { Tells W.contents W.failures out.old out.new (node_text broken halted) }
{
    match broken {
        Some(broken) => put_frozen(out, broken),
        None if halted => out.put(b"halted"),
        None => out.put(b"ok"),
    }
}

/// Writes that a node is frozen, and by which break.
fn put_frozen<W: CountedWrite>(out: &mut Output<'_, W>, broken: Break)
    ensures { Tells W.contents W.failures out.old out.new (codes "frozen " ++ spec.break_name broken) }
{
    out.put(b"frozen ");
    out.put(break_name(broken));
}

/// The lines of bytes.
fn put_lines<W: CountedWrite>(out: &mut Output<'_, W>, bytes: &[u8], pending: &[Option<Span>])
    requires { length bytes.now ≤ 2 ^ 24 }
    ensures { Tells W.contents W.failures out.old out.new
        (lines_of (hiding (is_pending pending.now) (as_cells bytes.now))) }
{
    for block in 0..bytes.len().div_ceil(BLOCK_BYTES) {
        let start = BLOCK_BYTES * block;
        let end = bytes.len().min(start + BLOCK_BYTES);
        put_block(out, MOST_NEG + start as u32, &bytes[start..end], pending);
    }
}

/// Writes the lines of a block of bytes. One of zeros, of which no pending input has a byte, has none, and its lines
/// are not looked at.
fn put_block<W: CountedWrite>(
    out: &mut Output<'_, W>,
    address: u32,
    bytes: &[u8],
    pending: &[Option<Span>],
)
    requires within { address + length bytes.now < 2 ^ 32 }
    requires block { length bytes.now ≤ 256 }
    ensures { Tells W.contents W.failures out.old out.new
        (dump_lines (length bytes.now) address (hiding_from (is_pending pending.now) address (as_cells bytes.now))) }
{
    if !has_pending(pending, address, bytes.len() as u32) && sum_of(bytes) == 0 {
        return;
    }
    for line in 0..bytes.len().div_ceil(LINE_BYTES) {
        let start = LINE_BYTES * line;
        let end = bytes.len().min(start + LINE_BYTES);
        put_line(out, address + start as u32, &bytes[start..end], pending);
    }
}

/// Writes the line of some bytes. Only where a pending input has a byte of the line is each byte looked up, and each
/// is looked at only where the line may be shown.
fn put_line<W: CountedWrite>(
    out: &mut Output<'_, W>,
    address: u32,
    bytes: &[u8],
    pending: &[Option<Span>],
)
    requires within { address + length bytes.now < 2 ^ 32 }
    requires line { length bytes.now ≤ 16 }
    ensures { Tells W.contents W.failures out.old out.new
        (dump_line address (hiding_from (is_pending pending.now) address (as_cells bytes.now))) }
{
    if has_pending(pending, address, bytes.len() as u32) {
        put_cells(out, address, bytes, pending);
    } else if sum_of(bytes) != 0 {
        put_cells(out, address, bytes, &[]);
    }
}

/// Writes the line of some bytes, unless it has only zeros.
fn put_cells<W: CountedWrite>(
    out: &mut Output<'_, W>,
    address: u32,
    bytes: &[u8],
    pending: &[Option<Span>],
)
    requires { address + length bytes.now < 2 ^ 32 }
    ensures { Tells W.contents W.failures out.old out.new
        (dump_line address (hiding_from (is_pending pending.now) address (as_cells bytes.now))) }
{
    if are_zero(address, bytes, pending) {
        return;
    }
    put_hex(out, &address.to_be_bytes());
    out.put(b":");
    put_shown(out, address, bytes, pending);
    out.put(b"\n");
}

/// The bytes of a line.
fn put_shown<W: CountedWrite>(
    out: &mut Output<'_, W>,
    address: u32,
    bytes: &[u8],
    pending: &[Option<Span>],
)
    requires { address + length bytes.now < 2 ^ 32 }
    ensures { Tells W.contents W.failures out.old out.new
        (flat_map cell_text (hiding_from (is_pending pending.now) address (as_cells bytes.now))) }
{
    for (i, byte) in bytes.iter().enumerate() {
        put_cell(out, address + i as u32, *byte, pending);
    }
}

/// Writes a byte of a line, unless a pending input hides it.
#[inline]
fn put_cell<W: CountedWrite>(
    out: &mut Output<'_, W>,
    address: u32,
    byte: u8,
    pending: &[Option<Span>],
)
    ensures { Tells W.contents W.failures out.old out.new
        (cell_text (if is_pending pending.now address then None else Some byte)) }
{
    if has_pending(pending, address, 1) {
        out.put(b" --");
    } else {
        put_seen(out, byte);
    }
}

/// One byte that is not hidden.
#[inline]
fn put_seen<W: CountedWrite>(out: &mut Output<'_, W>, byte: u8)
    ensures { Tells W.contents W.failures out.old out.new (cell_text (Some byte)) }
{
    out.put(b" ");
    put_byte(out, byte);
}

/// The sum of the bytes of a line or a block, without a look at each, so that several are added at a time.
#[inline]
fn sum_of(bytes: &[u8]) -> u16
    requires { length bytes.now ≤ 256 }
    ensures { result ≡ sum bytes.now }
{
    bytes.iter().map(|byte| u16::from(*byte)).sum()
}

/// Whether all bytes from an address on are zero, and none lies in the buffer of a pending input.
fn are_zero(address: u32, bytes: &[u8], pending: &[Option<Span>]) -> bool
    requires { address + length bytes.now < 2 ^ 32 }
    ensures { result ≡ list_all is_zero (hiding_from (is_pending pending.now) address (as_cells bytes.now)) }
{
    for (i, byte) in bytes.iter().enumerate() {
        if !is_zero_cell(address + i as u32, *byte, pending) {
            return false;
        }
    }
    true
}

/// Whether a byte is zero and not pending.
#[inline]
fn is_zero_cell(address: u32, byte: u8, pending: &[Option<Span>]) -> bool
    ensures { result ≡ is_zero (if is_pending pending.now address then None else Some byte) }
{
    byte == 0 && !has_pending(pending, address, 1)
}

/// Whether one of the spans has one of the `size` bytes from an address on.
#[inline]
fn has_pending(pending: &[Option<Span>], address: u32, size: u32) -> bool
    ensures { result ≡ list_any (overlaps_claim (record { start = address; size = size })) pending.now }
{
    let span = Span {
        start: Word::new(address),
        size,
    };
    pending.iter().any(|buffer| has_common(&span, buffer))
}

/// Whether a span has a byte in common with a buffer, if there is one.
#[inline]
fn has_common(span: &Span, buffer: &Option<Span>) -> bool
    ensures { result ≡ overlaps_claim span.now buffer.now }
{
    match buffer {
        Some(buffer) => span.overlaps(buffer),
        None => false,
    }
}
