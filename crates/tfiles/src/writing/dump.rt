//! The dump of a net: those of its nodes, in their order, and behind them those of its sources and sinks.

ghost use Rattle.std.specs.Prelude.{IfErr, OnOk, ◌≡◌, length, option_map};
ghost use Rattle.tproc.specs.Machine.{buffer_of, claims_of};
ghost use Rattle.tproc.specs.Hidden.{hidden};
ghost use Rattle.tproc.specs.Messages.{input_of};
ghost use Rattle.tlink.specs.Whole.{IsWhole};
ghost use Rattle.tnet.specs.View.{view};
ghost use Rattle.tfiles.specs.Texts.{dump_of, dump_text, role_dump};
ghost use Rattle.tfiles.specs.Failures.{HasRisen, HasStayed};
ghost use Rattle.tfiles.specs.Outputs.{IsOut, Tells};

use crate::counted::CountedWrite;
use crate::writing::node_dump::put_node_dump;
use crate::writing::output::{Output, WriteFault};
use crate::writing::scripts::{put_sink, put_source};
use tlink::Node;
use tnet::Net;
use tproc::Processor;
use tword::{Break, Span};

/// Writes the dumps of all nodes, and behind them those of sources and sinks (own choice of format). A byte that a
/// pending link input is to write is hidden; of a sink the messages that it has kept whole are shown.
///
/// # Errors
/// Where the writer fails or takes nothing. Then only the first bytes are written, as many as the fault tells.
pub fn write_dump<W: CountedWrite>(out: &mut W, net: &Net) -> Result<(), WriteFault>
    ensures out { IsOut (W.contents out.old) (W.contents out.new) (dump_text (view net.now)) result }
    ensures cause { IfErr result (λ _. HasRisen (W.failures out.old) (W.failures out.new)) }
    ensures stayed { OnOk result (HasStayed (W.failures out.old) (W.failures out.new)) }
{
    let mut output = Output::new(out);
    put_dump(&mut output, net);
    output.finish()
}

/// The dumps of all nodes.
pub fn put_dump<W: CountedWrite>(out: &mut Output<'_, W>, net: &Net)
    ensures { Tells W.contents W.failures out.old out.new (dump_text (view net.now)) }
{
    for (number, node) in net.nodes().iter().enumerate() {
        put_node(out, number, node);
    }
}

/// The dump of a node: of its processor, or of the script in the place of one.
fn put_node<W: CountedWrite>(out: &mut Output<'_, W>, number: usize, node: &Node)
    requires { IsWhole node.now }
    ensures { Tells W.contents W.failures out.old out.new
        (role_dump node.now.role number node.now.broken (hidden node.now.machine)) }
{
    if let Some(processor) = node.processor() {
        put_processor_dump(out, number, node.broken(), processor);
    } else if let Some(source) = node.source() {
        put_source(out, number, source);
    } else if let Some(sink) = node.sink() {
        put_sink(out, number, sink);
    }
}

/// The dump of a processor, of a node that this break has frozen, if one has.
pub fn put_processor_dump<W: CountedWrite>(
    out: &mut Output<'_, W>,
    number: usize,
    broken: Option<Break>,
    processor: &Processor,
)
    requires { length processor.now.control.links ≡ 4 }
    ensures { Tells W.contents W.failures out.old out.new
        (dump_of number broken processor.now.control.halted (hidden processor.now).store) }
{
    put_node_dump(
        out,
        number,
        broken,
        processor.is_halted(),
        processor.bytes(),
        &pending_inputs(processor),
    );
}

/// The bytes that each pending input is to write.
fn pending_inputs(processor: &Processor) -> [Option<Span>; 4]
    requires { length processor.now.control.links ≡ 4 }
    ensures { result ≡ (claims_of processor.now.control).inputs }
{
    [
        pending_input(processor, 0),
        pending_input(processor, 1),
        pending_input(processor, 2),
        pending_input(processor, 3),
    ]
}

/// The bytes that the pending input of a link is to write.
fn pending_input(processor: &Processor, link: u8) -> Option<Span>
    ensures { result ≡ option_map buffer_of (input_of processor.now link) }
{
    match processor.pending_in(link) {
        None => None,
        Some(input) => Some(Span {
            start: input.buffer,
            size: input.length,
        }),
    }
}
