//! The lines of a memory.

ghost use Rattle.std.specs.Prelude.{◌≡◌, ◌+◌, ◌<◌, ◌≤◌, ◌^◌, ◌&&◌, ◌==◌, length, None, Some, if◌then◌else◌};
ghost use Rattle.std.specs.List.{flat_map, list_all, list_any};
ghost use Rattle.tword.specs.Claims.{overlaps_claim};
ghost use Rattle.tword.specs.Stores.{as_cells, hiding, hiding_from};
ghost use Rattle.tfiles.specs.Outputs.{Tells};
ghost use Rattle.tfiles.specs.Texts.{is_pending, is_zero};
ghost use Rattle.tjson.specs.Json.{array, listed, listed_from, quoted};
ghost use Rattle.tjson.specs.Runs.{cell_digits, line_object, line_values, memory_values};

use crate::values::{put_bytes, put_comma};
use tfiles::counted::CountedWrite;
use tfiles::writing::output::Output;
use tfiles::writing::text::put_byte;
use tword::limits::MOST_NEG;
use tword::{Span, Word};

/// How many bytes a line has.
const LINE_BYTES: usize = 16;

/// A memory: an array of its lines, of whose bytes those are hidden that the spans of pending inputs have.
pub(crate) fn put_memory<W: CountedWrite>(
    out: &mut Output<'_, W>,
    bytes: &[u8],
    pending: &[Option<Span>],
)
    requires { length bytes.now ≤ 2 ^ 24 }
    ensures { Tells W.contents W.failures out.old out.new
        (array (memory_values (hiding (is_pending pending.now) (as_cells bytes.now)))) }
{
    out.put(b"[");
    put_lines(out, bytes, pending);
    out.put(b"]");
}

/// The lines of a memory, as the values of an array.
fn put_lines<W: CountedWrite>(out: &mut Output<'_, W>, bytes: &[u8], pending: &[Option<Span>])
    requires { length bytes.now ≤ 2 ^ 24 }
    ensures { Tells W.contents W.failures out.old out.new
        (listed (memory_values (hiding (is_pending pending.now) (as_cells bytes.now)))) }
{
    let mut is_first = true;
    for line in 0..bytes.len().div_ceil(LINE_BYTES) {
        let start = LINE_BYTES * line;
        let end = bytes.len().min(start + LINE_BYTES);
        let address = MOST_NEG + start as u32;
        is_first = put_next_line(out, is_first, address, &bytes[start..end], pending);
    }
}

/// The line of some bytes behind those before it, unless it has only zeros. Answers whether the next is the first.
fn put_next_line<W: CountedWrite>(
    out: &mut Output<'_, W>,
    is_first: bool,
    address: u32,
    bytes: &[u8],
    pending: &[Option<Span>],
) -> bool
    requires { address + length bytes.now < 2 ^ 32 }
    ensures told { Tells W.contents W.failures out.old out.new (listed_from is_first
        (line_values address (hiding_from (is_pending pending.now) address (as_cells bytes.now)))) }
    ensures first { result
        ≡ (is_first && list_all is_zero (hiding_from (is_pending pending.now) address (as_cells bytes.now))) }
{
    if are_zero(address, bytes, pending) {
        return is_first;
    }
    put_comma(out, is_first);
    put_line(out, address, bytes, pending);
    false
}

/// Whether all bytes from an address on are zero, and none is hidden.
fn are_zero(address: u32, bytes: &[u8], pending: &[Option<Span>]) -> bool
    requires { address + length bytes.now < 2 ^ 32 }
    ensures { result ≡ list_all is_zero (hiding_from (is_pending pending.now) address (as_cells bytes.now)) }
{
    if has_pending(pending, address, bytes.len() as u32) {
        return false;
    }
    are_all_zero(bytes)
}

/// Whether all bytes are zero.
#[inline]
fn are_all_zero(bytes: &[u8]) -> bool
    ensures { result ≡ list_all (λ b. b == 0) bytes.now }
{
    bytes.iter().all(|byte| *byte == 0)
}

/// The line of some bytes, as `{"at": "800000f0", "bytes": "00000000--------"}`.
fn put_line<W: CountedWrite>(
    out: &mut Output<'_, W>,
    address: u32,
    bytes: &[u8],
    pending: &[Option<Span>],
)
    requires { address + length bytes.now < 2 ^ 32 }
    ensures { Tells W.contents W.failures out.old out.new
        (line_object address (hiding_from (is_pending pending.now) address (as_cells bytes.now))) }
{
    out.put(b"{\"at\": ");
    put_bytes(out, &address.to_be_bytes());
    out.put(b", \"bytes\": ");
    put_cells(out, address, bytes, pending);
    out.put(b"}");
}

/// The bytes of a line, as a string of their digits.
fn put_cells<W: CountedWrite>(
    out: &mut Output<'_, W>,
    address: u32,
    bytes: &[u8],
    pending: &[Option<Span>],
)
    requires { address + length bytes.now < 2 ^ 32 }
    ensures { Tells W.contents W.failures out.old out.new
        (quoted (flat_map cell_digits (hiding_from (is_pending pending.now) address (as_cells bytes.now)))) }
{
    out.put(b"\"");
    put_digits(out, address, bytes, pending);
    out.put(b"\"");
}

/// The digits of the bytes of a line.
fn put_digits<W: CountedWrite>(
    out: &mut Output<'_, W>,
    address: u32,
    bytes: &[u8],
    pending: &[Option<Span>],
)
    requires { address + length bytes.now < 2 ^ 32 }
    ensures { Tells W.contents W.failures out.old out.new
        (flat_map cell_digits (hiding_from (is_pending pending.now) address (as_cells bytes.now))) }
{
    for (i, byte) in bytes.iter().enumerate() {
        put_cell(out, address + i as u32, *byte, pending);
    }
}

/// The digits of a byte, unless it is hidden.
#[inline]
fn put_cell<W: CountedWrite>(
    out: &mut Output<'_, W>,
    address: u32,
    byte: u8,
    pending: &[Option<Span>],
)
    ensures { Tells W.contents W.failures out.old out.new
        (cell_digits (if is_pending pending.now address then None else Some byte)) }
{
    if has_pending(pending, address, 1) {
        out.put(b"--");
    } else {
        put_byte(out, byte);
    }
}

/// Whether one of the spans has one of the `size` bytes from an address on.
#[inline]
fn has_pending(pending: &[Option<Span>], address: u32, size: u32) -> bool
    ensures { result ≡ list_any (overlaps_claim (record { start = address; size = size })) pending.now }
{
    let span = Span {
        start: Word::new(address),
        size,
    };
    pending.iter().any(|buffer| has_common(&span, buffer))
}

/// Whether a span has a byte in common with a buffer, if there is one.
#[inline]
fn has_common(span: &Span, buffer: &Option<Span>) -> bool
    ensures { result ≡ overlaps_claim span.now buffer.now }
{
    match buffer {
        Some(buffer) => span.overlaps(buffer),
        None => false,
    }
}
