//! The memory of a node of the process machine.

ghost use Rattle.std.specs.Prelude.{◌≡◌, ◌≤◌, ◌<◌, ◌+◌, ◌*◌, ◌^◌, ◌∷◌, [], codes, flat_map, length, map};
ghost use Rattle.std.specs.List.{list_all};
ghost use Rattle.tfiles.specs.Outputs.{Tells};
ghost use Rattle.tcertify.specs.Cells.{cells_of};
ghost use Rattle.tfiles.specs.Texts.{is_zero};
ghost use Rattle.tfindings.specs.Cells as spec;
ghost use Rattle.tfindings.specs.Cells.{words_of};

use tcertify::{Cells, StoredWord};
use tfiles::CountedWrite;
use tfiles::writing::output::Output;
use tfiles::writing::text::{put_byte, put_hex};
use tword::limits::MOST_NEG;

/// How many words a line shows.
const LINE_WORDS: usize = 4;

/// The memory of a node (own choice of format): a line for each sixteen bytes, as in a dump, unless all are known and
/// zero. A byte that is not known is shown as `~~`.
pub(crate) fn put_words<W: CountedWrite>(out: &mut Output<'_, W>, words: &[StoredWord])
    requires { 4 * length words.now ≤ 2 ^ 24 }
    ensures { Tells W.contents W.failures out.old out.new (spec.memory_text (words_of words.now)) }
{
    for number in 0..words.len().div_ceil(LINE_WORDS) {
        let start = LINE_WORDS * number;
        let end = words.len().min(start + LINE_WORDS);
        put_line(out, MOST_NEG + 4 * start as u32, &words[start..end]);
    }
}

/// The line of some words from an address on, unless all their bytes are known and zero.
fn put_line<W: CountedWrite>(out: &mut Output<'_, W>, address: u32, words: &[StoredWord])
    ensures { Tells W.contents W.failures out.old out.new (spec.line_text address (words_of words.now)) }
{
    if are_zero(words) {
        return;
    }
    put_hex(out, &address.to_be_bytes());
    out.put(b":");
    for word in words {
        put_word(out, word);
    }
    out.put(b"\n");
}

/// Whether the bytes of all words are known and zero.
fn are_zero(words: &[StoredWord]) -> bool
    ensures { result ≡ list_all (λ w. spec.is_zero (cells_of w.cells)) words.now }
{
    words.iter().all(|word| is_zero(&word.cells))
}

/// Whether the bytes of a word are known and zero.
fn is_zero(cells: &Cells) -> bool
    ensures { result ≡ spec.is_zero (cells_of cells.now) }
{
    is_zero_byte(cells.byte(0))
        && is_zero_byte(cells.byte(1))
        && is_zero_byte(cells.byte(2))
        && is_zero_byte(cells.byte(3))
}

/// Whether a byte is known and zero.
fn is_zero_byte(byte: Option<u8>) -> bool
    ensures { result ≡ is_zero byte }
{
    match byte {
        Some(byte) => byte == 0,
        None => false,
    }
}

/// The bytes of a word.
fn put_word<W: CountedWrite>(out: &mut Output<'_, W>, word: &StoredWord)
    ensures { Tells W.contents W.failures out.old out.new (flat_map spec.cell_text (cells_of word.now.cells)) }
{
    let cells = &word.cells;
    put_cell(out, cells.byte(0));
    put_cell(out, cells.byte(1));
    put_cell(out, cells.byte(2));
    put_cell(out, cells.byte(3));
}

/// A byte behind a blank.
fn put_cell<W: CountedWrite>(out: &mut Output<'_, W>, cell: Option<u8>)
    ensures { Tells W.contents W.failures out.old out.new (spec.cell_text cell) }
{
    out.put(b" ");
    put_known(out, cell);
}

/// A byte where it is known, else `~~`.
pub(crate) fn put_known<W: CountedWrite>(out: &mut Output<'_, W>, cell: Option<u8>)
    ensures { Tells W.contents W.failures out.old out.new (spec.known_text cell) }
{
    match cell {
        Some(byte) => put_byte(out, byte),
        None => out.put(b"~~"),
    }
}
