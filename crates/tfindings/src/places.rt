//! Places of the process machine, as they are printed.

ghost use Rattle.std.specs.Prelude.{◌≡◌, ◌==◌, codes, decimal, position};
ghost use Rattle.tfiles.specs.Outputs.{Tells};
ghost use Rattle.tfindings.specs.Agents.{at_node};
ghost use Rattle.tfindings.specs.Places as spec;

use crate::agents::{put_name, put_node};
use tcertify::{Channel, Life, Node, Process};
use tclocks::Mode;
use tfiles::CountedWrite;
use tfiles::writing::output::Output;
use tfiles::writing::text::put_decimal;
use twhere::put_word;
use tword::Word;
use tword::limits::MOST_NEG;

/// A part of a node that has a place of its own.
#[derive(Clone, Copy)]
pub enum Part {
    /// The word of this number, with the outputs of it that are pending.
    Word(u32),
    /// One of those that each node has besides, by their order.
    Fixed(u32),
    /// The process of this number.
    Process(usize),
    /// The half of the channel of this number by which messages are taken.
    Input(usize),
    /// The other half.
    Output(usize),
    /// How many processes have the workspace of this number.
    Count(usize),
    /// How many successors went on there.
    Successors(usize),
}

/// What an access does, and to which place: the number of the place is among those of the nodes, or it is that of a
/// source or sink, whose numbers go on from `first_script`.
pub(crate) fn put_access<W: CountedWrite>(
    out: &mut Output<'_, W>,
    nodes: &[Node],
    first_script: u32,
    place: u32,
    mode: Mode,
)
    ensures { Tells W.contents W.failures out.old out.new (spec.access_text nodes.now first_script place mode) }
{
    out.put(verb(mode));
    out.put(b" ");
    put_place(out, nodes, first_script, place);
}

/// What an access does.
fn verb(mode: Mode) -> &'static [u8]
    ensures { result.now ≡ spec.verb_text mode }
{
    match mode {
        Mode::Looks => b"reads",
        Mode::Checks | Mode::Claims => b"claims",
        Mode::Puts => b"writes",
        Mode::Lends => b"sends",
        Mode::Commutes(_) => b"changes",
    }
}

/// A place, by its number.
fn put_place<W: CountedWrite>(
    out: &mut Output<'_, W>,
    nodes: &[Node],
    first_script: u32,
    number: u32,
)
    ensures { Tells W.contents W.failures out.old out.new (spec.numbered_text nodes.now first_script number) }
{
    match node_with(nodes, number) {
        Some(node) => put_part_with(out, &nodes[node], number),
        None => put_script(out, number.saturating_sub(first_script)),
    }
}

/// The first node that has a part whose place has a number.
pub(crate) fn node_with(nodes: &[Node], number: u32) -> Option<usize>
    ensures { result ≡ position (spec.has_part number) nodes.now }
{
    nodes.iter().position(|node| has_part(node, number))
}

/// A source or a sink, by the number of its node.
fn put_script<W: CountedWrite>(out: &mut Output<'_, W>, node: u32)
    ensures { Tells W.contents W.failures out.old out.new (spec.script_text node) }
{
    out.put(b"node ");
    put_decimal(out, u64::from(node));
}

/// Whether a part of a node has a place of this number.
fn has_part(node: &Node, number: u32) -> bool
    ensures { result ≡ spec.has_part number node.now }
{
    part_with(node, number).is_some()
}

/// The part of a node whose place has a number, if one has.
fn part_with(node: &Node, number: u32) -> Option<Part>
    ensures { result ≡ spec.part_with number node.now }
{
    if let Some(word) = word_with(node, number) {
        return Some(Part::Word(word));
    }
    if let Some(fixed) = fixed_with(node, number) {
        return Some(Part::Fixed(fixed));
    }
    listed_with(node, number)
}

/// The number of the word whose place has a number.
fn word_with(node: &Node, number: u32) -> Option<u32>
    ensures { result ≡ spec.word_with number node.now }
{
    let word = number.checked_sub(node.words.first_place)?;
    if (word as usize) < node.words.items.len() {
        Some(word)
    } else {
        None
    }
}

/// The number of the place among those that each node has besides.
fn fixed_with(node: &Node, number: u32) -> Option<u32>
    ensures { result ≡ spec.fixed_with number node.now }
{
    let fixed = number.checked_sub(node.fixed_place)?;
    if fixed < 18 { Some(fixed) } else { None }
}

/// The process, the half of a channel, or the count of a workspace whose place has a number.
fn listed_with(node: &Node, number: u32) -> Option<Part>
    ensures { result ≡ spec.listed_with number node.now }
{
    if let Some(process) = process_with(node.processes.items.as_slice(), number) {
        Some(Part::Process(process))
    } else {
        table_with(node, number)
    }
}

/// The half of a channel, or the count of a workspace whose place has a number.
fn table_with(node: &Node, number: u32) -> Option<Part>
    ensures { result ≡ spec.table_with number node.now }
{
    if let Some(part) = half_with(node.channels.items.as_slice(), number) {
        Some(part)
    } else {
        counted_with(node.lives.items.as_slice(), number)
    }
}

/// The half of a channel whose place has a number.
fn half_with(channels: &[Channel], number: u32) -> Option<Part>
    ensures { result ≡ spec.half_with number channels.now }
{
    if let Some(channel) = input_with(channels, number) {
        Some(Part::Input(channel))
    } else {
        Some(Part::Output(output_with(channels, number)?))
    }
}

/// The first process whose place has a number.
fn process_with(processes: &[Process], number: u32) -> Option<usize>
    ensures { result ≡ position (λ p. p.place == number) processes.now }
{
    processes.iter().position(|process| process.place == number)
}

/// The first channel whose input has a place of this number.
fn input_with(channels: &[Channel], number: u32) -> Option<usize>
    ensures { result ≡ position (λ c. c.input.place == number) channels.now }
{
    channels
        .iter()
        .position(|channel| channel.input.place == number)
}

/// The first channel whose output has a place of this number.
fn output_with(channels: &[Channel], number: u32) -> Option<usize>
    ensures { result ≡ position (λ c. c.output.place == number) channels.now }
{
    channels
        .iter()
        .position(|channel| channel.output.place == number)
}

/// The count of a workspace whose place has a number.
fn counted_with(lives: &[Life], number: u32) -> Option<Part>
    ensures { result ≡ spec.counted_with number lives.now }
{
    if let Some(life) = count_with(lives, number) {
        Some(Part::Count(life))
    } else {
        Some(Part::Successors(successors_with(lives, number)?))
    }
}

/// The first workspace whose count of processes has a place of this number.
fn count_with(lives: &[Life], number: u32) -> Option<usize>
    ensures { result ≡ position (λ l. l.count_place == number) lives.now }
{
    lives.iter().position(|life| life.count_place == number)
}

/// The first workspace whose count of successors has a place of this number.
fn successors_with(lives: &[Life], number: u32) -> Option<usize>
    ensures { result ≡ position (λ l. l.successors_place == number) lives.now }
{
    lives
        .iter()
        .position(|life| life.successors_place == number)
}

/// The place of the part of a node whose place has a number, if one has.
fn put_part_with<W: CountedWrite>(out: &mut Output<'_, W>, node: &Node, number: u32)
    ensures { Tells W.contents W.failures out.old out.new
        (spec.part_text node.now (spec.part_with number node.now)) }
{
    if let Some(part) = part_with(node, number) {
        put_part(out, node, part);
    }
}

/// The place of a part of a node.
fn put_part<W: CountedWrite>(out: &mut Output<'_, W>, node: &Node, part: Part)
    requires { spec.HasPart node.now part }
    ensures { Tells W.contents W.failures out.old out.new (spec.place_text (spec.place_of node.now part)) }
{
    let number = node.words.number;
    match part {
        Part::Word(word) => {
            put_node(out, number, b"word");
            put_word(out, Word::new(MOST_NEG + 4 * word));
        }
        Part::Fixed(fixed) => put_fixed(out, number, fixed),
        Part::Process(process) => {
            put_node(out, number, b"process");
            put_name(out, &node.processes.items[process]);
        }
        Part::Input(channel) => {
            put_node(out, number, b"input of channel");
            put_word(out, node.channels.items[channel].address);
        }
        Part::Output(channel) => {
            put_node(out, number, b"output of channel");
            put_word(out, node.channels.items[channel].address);
        }
        Part::Count(life) => {
            put_node(out, number, b"workspace");
            put_word(out, node.lives.items[life].workspace);
        }
        Part::Successors(life) => {
            put_node(out, number, b"successors at");
            put_word(out, node.lives.items[life].workspace);
        }
    }
}

/// The place of this number of those that each node has besides.
fn put_fixed<W: CountedWrite>(out: &mut Output<'_, W>, node: u32, fixed: u32)
    ensures { Tells W.contents W.failures out.old out.new (spec.place_text (spec.fixed_at node fixed)) }
{
    match fixed {
        0 => put_flag(out, node, b"Error"),
        1 => put_flag(out, node, b"HaltOnError"),
        2 => {
            put_node(out, node, b"changes of");
            out.put(b"flags");
        }
        3 => {
            put_node(out, node, b"number of");
            out.put(b"processes");
        }
        4..6 => put_counted(out, node, b"priority", fixed - 4),
        6..10 => put_counted(out, node, b"input of link", fixed - 6),
        10..14 => put_counted(out, node, b"output of link", fixed - 10),
        _ => put_counted(out, node, b"output of link", fixed.saturating_sub(14)),
    }
}

/// A flag of a node.
fn put_flag<W: CountedWrite>(out: &mut Output<'_, W>, node: u32, name: &[u8])
    ensures { Tells W.contents W.failures out.old out.new (at_node node (codes "flag") name.now) }
{
    put_node(out, node, b"flag");
    out.put(name);
}

/// One of several things of a node, by its number.
fn put_counted<W: CountedWrite>(out: &mut Output<'_, W>, node: u32, what: &[u8], number: u32)
    ensures { Tells W.contents W.failures out.old out.new (at_node node what.now (decimal number)) }
{
    put_node(out, node, what);
    put_decimal(out, u64::from(number));
}
