//! What is told of what is wrong: a line each, the place first.

ghost use Rattle.std.specs.Prelude.{◌≡◌};
ghost use Rattle.tfiles.specs.Logs.{line};
ghost use Rattle.tfiles.specs.Outputs.{Tells};
ghost use Rattle.tcheck.specs.Sentences as spec;

use crate::flaws::{Flaw, Place, Plenty, Wrong};
use tfiles::break_names::break_name;
use tfiles::writing::output::Output;
use tfiles::writing::text::{put_decimal, put_end};
use tfiles::{CountedWrite, ImageFault};
use tnames::put_escaped;
use tplan::{End, WiringNode};
use twhere::put_word;
use tword::limits::MOST_NEG;
use tword::{Break, Kind, Word};

/// All that is wrong, a line each (own choice of format, `specs/Sentences`), with the nodes that name the images.
pub fn put_wrongs<W: CountedWrite>(out: &mut Output<'_, W>, nodes: &[WiringNode], wrongs: &[Wrong])
    ensures { Tells W.contents W.failures out.old out.new (spec.wrongs_text nodes.now wrongs.now) }
{
    for wrong in wrongs {
        put_wrong(out, nodes, *wrong);
    }
}

/// The line of something that is wrong.
fn put_wrong<W: CountedWrite>(out: &mut Output<'_, W>, nodes: &[WiringNode], wrong: Wrong)
    ensures { Tells W.contents W.failures out.old out.new (line (spec.wrong_text nodes.now wrong)) }
{
    put_place(out, wrong.place);
    out.put(b": ");
    put_flaw(out, image_name(nodes, wrong.place), wrong.flaw);
    out.put(b"\n");
}

/// The name of the image at a place, which is that of a node.
pub(crate) fn image_name(nodes: &[WiringNode], place: Place) -> &str
    ensures { result.now ≡ spec.image_name nodes.now place }
{
    match place {
        Place::Node(number) => match nodes.get(number) {
            Some(node) => node.image.as_str(),
            None => "",
        },
        _ => "",
    }
}

/// A name with a number.
pub(crate) fn put_numbered<W: CountedWrite>(out: &mut Output<'_, W>, name: &[u8], number: usize)
    ensures { Tells W.contents W.failures out.old out.new (spec.numbered name.now number) }
{
    out.put(name);
    put_decimal(out, number as u64);
}

/// Where something is wrong.
fn put_place<W: CountedWrite>(out: &mut Output<'_, W>, place: Place)
    ensures { Tells W.contents W.failures out.old out.new (spec.place_text place) }
{
    match place {
        Place::Net => out.put(b"net"),
        Place::Node(number) => put_numbered(out, b"node ", number),
        Place::Wire(number) => put_numbered(out, b"wire ", number),
        Place::Source(number) => put_numbered(out, b"source ", number),
        Place::Sink(number) => put_numbered(out, b"sink ", number),
        Place::Hold(number) => put_numbered(out, b"hold ", number),
    }
}

/// What is wrong, where the image has this name.
fn put_flaw<W: CountedWrite>(out: &mut Output<'_, W>, name: &str, flaw: Flaw)
    ensures { Tells W.contents W.failures out.old out.new (spec.flaw_text name.now flaw) }
{
    match flaw {
        Flaw::TooManyNodes => out.put(b"there are more than 64 nodes, sources and sinks"),
        Flaw::TooMany(what, count) => {
            put_range(out, b"there are ", count as u64, plenty_text(what));
        }
        Flaw::BadTimeslice(timeslice) => {
            let may_be = b"; it has to be 1 to 65536";
            put_range(out, b"the timeslice is ", u64::from(timeslice), may_be);
        }
        Flaw::NoFile => put_image(out, name, b" cannot be read"),
        Flaw::BadImage(fault) => put_image(out, name, image_text(fault)),
        Flaw::BadSize(memory, kind) => put_size(out, memory, kind),
        Flaw::BadSegment {
            segment,
            address,
            size,
            memory,
        } => put_segment(out, segment, address, size, memory),
        Flaw::BadProcess {
            process,
            descriptor,
            broken,
        } => put_process(out, process, descriptor, broken),
        Flaw::BadMessage { message, size } => put_message(out, message, size),
        Flaw::BadEnd(end) => put_bad_end(out, end),
        Flaw::SameEnd(end) => put_behind(out, b"both ends are ", end),
        Flaw::SharedEnd { end, earlier } => put_shared(out, end, earlier),
        Flaw::BadCapacity(capacity) => {
            let may_take = b" bytes; it has to take 1 to 65536";
            put_range(out, b"it takes ", u64::from(capacity), may_take);
        }
        Flaw::NoWire(end) => put_behind(out, b"no wire is at ", end),
        Flaw::EndsEarly { from, until } => put_early(out, from, until),
    }
}

/// Of what there are too many, and how many there may be.
fn plenty_text(what: Plenty) -> &'static [u8]
    ensures { result.now ≡ spec.plenty_text what }
{
    match what {
        Plenty::Wires => b" wires; at most 128 may be",
        Plenty::Holds => b" holds; at most 256 may be",
        Plenty::Segments => b" segments in the image; at most 4096 may be",
        Plenty::Processes => b" processes in the image; at most 512 may be",
        Plenty::Messages => b" messages; at most 256 may be",
    }
}

/// Why a file is no image.
fn image_text(fault: ImageFault) -> &'static [u8]
    ensures { result.now ≡ spec.image_text fault }
{
    match fault {
        ImageFault::BadMagic => b" does not begin with TEMUIMG1",
        ImageFault::TooMany => b" has over 4096 segments or over 512 processes",
        ImageFault::Truncated => b" ends too soon",
        ImageFault::Trailing => b" has bytes behind its last process",
        ImageFault::OutOfMemory => b" is too large for the memory that there is",
    }
}

/// Why a process is refused, by the rule that adding it would break.
fn refusal_text(broken: Break) -> &'static [u8]
    ensures { result.now ≡ spec.refusal_text broken }
{
    match broken {
        Break::Unaligned => b": its workspace is no multiple of 4",
        Break::AlreadyLive => b": a process before it has this workspace",
        Break::TooManyProcesses => b": there are 512 processes already",
        Break::BadAddress => b": the three words below its workspace do not lie in the memory",
        Break::Reserved => b": the three words below its workspace touch the closed area",
        Break::SavedWord => {
            b": the three words below its workspace touch those of a process before it"
        }
        _ => b"",
    }
}

/// A number that is none of those that may be.
fn put_range<W: CountedWrite>(out: &mut Output<'_, W>, what: &[u8], number: u64, may: &[u8])
    ensures { Tells W.contents W.failures out.old out.new (spec.range_text what.now number may.now) }
{
    out.put(what);
    put_decimal(out, number);
    out.put(may);
}

/// What is wrong with an image, by its name.
fn put_image<W: CountedWrite>(out: &mut Output<'_, W>, name: &str, wrong: &[u8])
    ensures { Tells W.contents W.failures out.old out.new (spec.named_image name.now wrong.now) }
{
    out.put(b"the image ");
    put_escaped(out, name);
    out.put(wrong);
}

/// A memory of a size that none of a node of this kind may have.
fn put_size<W: CountedWrite>(out: &mut Output<'_, W>, memory: u32, kind: Kind)
    ensures { Tells W.contents W.failures out.old out.new (spec.size_text memory kind) }
{
    out.put(b"the memory has ");
    put_decimal(out, u64::from(memory));
    out.put(b" bytes; it has to have a multiple of 4, from 2048 to ");
    put_decimal(out, u64::from(kind.largest_memory()));
}

/// A segment that does not lie in the memory that programs may use.
fn put_segment<W: CountedWrite>(
    out: &mut Output<'_, W>,
    segment: usize,
    address: Word,
    size: usize,
    memory: u32,
)
    ensures { Tells W.contents W.failures out.old out.new (spec.segment_text segment address size memory) }
{
    put_numbered(out, b"segment ", segment);
    out.put(b" has ");
    put_decimal(out, size as u64);
    out.put(b" bytes at ");
    put_word(out, address);
    out.put(b"; programs may use #80000048 on, up to below ");
    put_word(out, Word::new(MOST_NEG).plus(Word::new(memory)));
}

/// A process that is refused.
fn put_process<W: CountedWrite>(
    out: &mut Output<'_, W>,
    process: usize,
    descriptor: Word,
    broken: Break,
)
    ensures { Tells W.contents W.failures out.old out.new (spec.process_text process descriptor broken) }
{
    put_numbered(out, b"process ", process);
    out.put(b", ");
    put_word(out, descriptor);
    out.put(b", is refused with ");
    out.put(break_name(broken));
    out.put(refusal_text(broken));
}

/// A message of no byte, or of too many.
fn put_message<W: CountedWrite>(out: &mut Output<'_, W>, message: usize, size: usize)
    ensures { Tells W.contents W.failures out.old out.new (spec.message_text message size) }
{
    put_numbered(out, b"message ", message);
    out.put(b" has ");
    put_decimal(out, size as u64);
    out.put(b" bytes; it has to have 1 to 4096");
}

/// An end that is no link of a node.
fn put_bad_end<W: CountedWrite>(out: &mut Output<'_, W>, end: End)
    ensures { Tells W.contents W.failures out.old out.new (spec.bad_end_text end) }
{
    put_end(out, &end);
    out.put(b" is no link of a node");
}

/// An end behind some words.
pub(crate) fn put_behind<W: CountedWrite>(out: &mut Output<'_, W>, words: &[u8], end: End)
    ensures { Tells W.contents W.failures out.old out.new (spec.end_behind words.now end) }
{
    out.put(words);
    put_end(out, &end);
}

/// An end that an earlier wire or source has.
fn put_shared<W: CountedWrite>(out: &mut Output<'_, W>, end: End, earlier: Place)
    ensures { Tells W.contents W.failures out.old out.new (spec.shared_text end earlier) }
{
    put_end(out, &end);
    out.put(b" is an end of ");
    put_place(out, earlier);
    out.put(b" already");
}

/// A hold that begins behind its end.
fn put_early<W: CountedWrite>(out: &mut Output<'_, W>, from: u32, until: u32)
    ensures { Tells W.contents W.failures out.old out.new (spec.early_text from until) }
{
    out.put(b"it begins with round ");
    put_decimal(out, u64::from(from));
    out.put(b" and ends with round ");
    put_decimal(out, u64::from(until));
}
