//! How the program says why it printed nothing, or not all: one line, and its exit status.

ghost use Rattle.std.specs.Prelude.{◌≡◌, ◌++◌, IfErr, IfOk, codes, decimal, OnOk};
ghost use Rattle.tfiles.specs.Texts.{words};
ghost use Rattle.tfiles.specs.Failures.{HasRisen, HasStayed};
ghost use Rattle.tfiles.specs.Outputs.{IsOut, Tells};
ghost use Rattle.topening.specs.FaultLines as spec;
ghost use Rattle.topening.specs.Faults.{status_of};

use crate::fault::Fault;
use tfiles::break_names::break_name;
use tfiles::counted::CountedWrite;
use tfiles::image::ImageFault;
use tfiles::log_reading::LogFault;
use tfiles::writing::output::{Output, WriteFault};
use tfiles::writing::text::put_decimal;
use tnames::{NamesFault, put_escaped};
use tplan::{BuildFault, WiringFault};
use trounds::{NetFault, ReplayFault};
use twhere::put_word;
use tword::Word;

/// Writes the line of a fault (own choice of format), as `temu: net N6 EndTwice 1`, and answers the exit status of
/// the program: 2 for bad input, 3 where the output failed or no log was found, 4 where there was no memory.
///
/// # Errors
/// Where the writer fails or takes nothing. Then only the first bytes are written, as many as the fault tells.
pub fn write_fault<W: CountedWrite>(fault: &Fault, out: &mut W) -> Result<u8, WriteFault>
    ensures line { IsOut (W.contents out.old) (W.contents out.new) (spec.fault_line fault.now) result }
    ensures status { IfOk result (λ status. status ≡ status_of fault.now) }
    ensures cause { IfErr result (λ _. HasRisen (W.failures out.old) (W.failures out.new)) }
    ensures stayed { OnOk result (HasStayed (W.failures out.old) (W.failures out.new)) }
{
    match write_line(fault, out) {
        Ok(()) => Ok(fault.status()),
        Err(failed) => Err(failed),
    }
}

/// Writes the line of a fault.
fn write_line<W: CountedWrite>(fault: &Fault, out: &mut W) -> Result<(), WriteFault>
    ensures line { IsOut (W.contents out.old) (W.contents out.new) (spec.fault_line fault.now) result }
    ensures cause { IfErr result (λ _. HasRisen (W.failures out.old) (W.failures out.new)) }
    ensures stayed { OnOk result (HasStayed (W.failures out.old) (W.failures out.new)) }
{
    let mut output = Output::new(out);
    output.put(b"temu: ");
    put_fault(&mut output, fault);
    output.put(b"\n");
    output.finish()
}

/// What is told of a fault.
fn put_fault<W: CountedWrite>(out: &mut Output<'_, W>, fault: &Fault)
    ensures { Tells W.contents W.failures out.old out.new (words (spec.fault_words fault.now)) }
{
    match fault {
        Fault::File(name) => {
            out.put(b"file ");
            put_escaped(out, name.as_str());
        }
        Fault::Wiring(fault) => out.put(wiring_text(*fault)),
        Fault::Image(node, fault) => put_image_fault(out, *node, *fault),
        Fault::Net(fault) => put_net_fault(out, fault),
        Fault::Rounds(fault) => put_rounds_fault(out, *fault),
        Fault::Log(fault) => put_log_fault(out, *fault),
        Fault::Names(fault) => put_names_fault(out, *fault),
        Fault::Replay(fault) => put_replay_fault(out, *fault),
        Fault::NoNode(number) => put_numbered(out, b"no node ", usize::from(*number)),
        Fault::NoMemory(address) => put_no_memory(out, *address),
        Fault::Output(_) => out.put(b"output"),
        Fault::NoLog => out.put(b"no log"),
        Fault::Memory => out.put(b"memory"),
    }
}

/// A fault of a wiring.
fn wiring_text(fault: WiringFault) -> &'static [u8]
    ensures { result.now ≡ words (spec.wiring_words fault) }
{
    match fault {
        WiringFault::Syntax => b"wiring L1 Syntax",
        WiringFault::UnknownKey => b"wiring L2 UnknownKey",
        WiringFault::MissingKey => b"wiring L3 MissingKey",
        WiringFault::WrongType => b"wiring L4 WrongType",
        WiringFault::BadVersion => b"wiring L5 BadVersion",
        WiringFault::BadNumber => b"wiring L6 BadNumber",
        WiringFault::BadMessage => b"wiring L7 BadMessage",
        WiringFault::BadKind => b"wiring L8 BadKind",
        WiringFault::OutOfMemory => b"memory",
    }
}

/// A fault of the image of a node.
fn put_image_fault<W: CountedWrite>(out: &mut Output<'_, W>, node: usize, fault: ImageFault)
    ensures { Tells W.contents W.failures out.old out.new (words (spec.image_words node fault)) }
{
    match fault {
        ImageFault::BadMagic => put_image(out, node, b" I1 BadMagic"),
        ImageFault::TooMany => put_image(out, node, b" I2 TooMany"),
        ImageFault::Truncated => put_image(out, node, b" I3 Truncated"),
        ImageFault::Trailing => put_image(out, node, b" I4 Trailing"),
        ImageFault::OutOfMemory => out.put(b"memory"),
    }
}

/// The image of a node, and what is wrong with it.
fn put_image<W: CountedWrite>(out: &mut Output<'_, W>, node: usize, wrong: &[u8])
    ensures { Tells W.contents W.failures out.old out.new (codes "image " ++ (decimal node ++ wrong.now)) }
{
    put_numbered(out, b"image ", node);
    out.put(wrong);
}

/// A fault of a plan, with its places.
fn put_net_fault<W: CountedWrite>(out: &mut Output<'_, W>, fault: &BuildFault)
    ensures { Tells W.contents W.failures out.old out.new (words (spec.net_words fault.now)) }
{
    match fault {
        BuildFault::TooMany => out.put(b"net N1 TooMany"),
        BuildFault::BadSize(node) => put_numbered(out, b"net N2 BadSize ", *node),
        BuildFault::BadTimeslice => out.put(b"net N3 BadTimeslice"),
        BuildFault::BadEnd(place) => put_numbered(out, b"net N4 BadEnd ", *place),
        BuildFault::SameEnd(wire) => put_numbered(out, b"net N5 SameEnd ", *wire),
        BuildFault::EndTwice(place) => put_numbered(out, b"net N6 EndTwice ", *place),
        BuildFault::BadSegment(node, segment) => {
            put_numbered(out, b"net N7 BadSegment ", *node);
            put_numbered(out, b" ", *segment);
        }
        BuildFault::BadProcess(node, process, broken) => {
            put_numbered(out, b"net N8 BadProcess ", *node);
            put_numbered(out, b" ", *process);
            out.put(b" ");
            out.put(break_name(*broken));
        }
        BuildFault::BadCapacity(sink) => put_numbered(out, b"net N9 BadCapacity ", *sink),
        BuildFault::OutOfMemory => out.put(b"memory"),
    }
}

/// A fault of rounds.
fn put_rounds_fault<W: CountedWrite>(out: &mut Output<'_, W>, fault: NetFault)
    ensures { Tells W.contents W.failures out.old out.new (words (spec.rounds_words fault)) }
{
    match fault {
        NetFault::BadWorkers => out.put(b"rounds BadWorkers"),
        NetFault::BadHold(hold) => put_numbered(out, b"rounds BadHold ", hold),
        NetFault::OutOfMemory => out.put(b"memory"),
    }
}

/// A fault of a log.
fn put_log_fault<W: CountedWrite>(out: &mut Output<'_, W>, fault: LogFault)
    ensures { Tells W.contents W.failures out.old out.new (words (spec.log_words fault)) }
{
    match fault {
        LogFault::BadLine(line) => put_numbered(out, b"log line ", line),
        LogFault::OutOfMemory => out.put(b"memory"),
    }
}

/// A fault of a file of names.
fn put_names_fault<W: CountedWrite>(out: &mut Output<'_, W>, fault: NamesFault)
    ensures { Tells W.contents W.failures out.old out.new (words (spec.names_words fault)) }
{
    match fault {
        NamesFault::BadLine(line) => put_numbered(out, b"names line ", line),
        NamesFault::OutOfMemory => out.put(b"memory"),
    }
}

/// A fault of a replay.
fn put_replay_fault<W: CountedWrite>(out: &mut Output<'_, W>, fault: ReplayFault)
    ensures { Tells W.contents W.failures out.old out.new (words (spec.replay_words fault)) }
{
    match fault {
        ReplayFault::NotEnabled(place) => put_numbered(out, b"replay event ", place),
        ReplayFault::OutOfMemory => out.put(b"memory"),
    }
}

/// An address at which a node has no memory.
fn put_no_memory<W: CountedWrite>(out: &mut Output<'_, W>, address: Word)
    ensures { Tells W.contents W.failures out.old out.new (words (spec.no_memory_words address)) }
{
    out.put(b"no memory at ");
    put_word(out, address);
}

/// Some text with a number behind it.
fn put_numbered<W: CountedWrite>(out: &mut Output<'_, W>, text: &[u8], number: usize)
    ensures { Tells W.contents W.failures out.old out.new (text.now ++ decimal number) }
{
    out.put(text);
    put_decimal(out, number as u64);
}
