//! The line of an event: its number, what its node did, and what that led to.

ghost use Rattle.std.specs.Prelude.{◌≡◌, ◌++◌, codes, decimal, option_copied, replicate};
ghost use Rattle.tplan.specs.Wires.{far_ends};
ghost use Rattle.tfiles.specs.Outputs.{Tells};
ghost use Rattle.tfiles.specs.Texts as texts;
ghost use Rattle.twhere.specs.Standing.{word_text};
ghost use Rattle.thistory.specs.Deeds.{processor_in as processor_of};
ghost use Rattle.thistory.specs.Lines as spec;

use crate::deed::{Deed, Done, end_of, processor_in};
use tcode::Instruction;
use tfiles::CountedWrite;
use tfiles::break_names::break_name;
use tfiles::writing::output::Output;
use tfiles::writing::text::{put_decimal, put_end};
use tlink::{Emitted, Mark, StepFault};
use tnet::Net;
use tplan::plan::End;
use tproc::Processor;
use twhere::facts::put_fetched;
use twhere::put_word;
use tword::{Break, Word};

/// How wide the column of the numbers is.
const NUMBER_WIDTH: u32 = 10;

/// What stands before the middle of the line of an event: its number, and who did it, by the net behind it.
pub(crate) fn put_head<W: CountedWrite>(
    out: &mut Output<'_, W>,
    number: u64,
    net: &Net,
    done: &Done,
)
    ensures { Tells W.contents W.failures out.old out.new
        (spec.head_text number (far_ends net.now.wires done.now.event.node) done.now.deed
        (processor_of net.now done.now.event.node)) }
{
    put_at_right(out, number, NUMBER_WIDTH);
    put_who(out, net, done.event.node, &done.deed);
}

/// What stands behind the middle of the line of an event: how it was done, and what the net answered.
pub(crate) fn put_tail<W: CountedWrite>(out: &mut Output<'_, W>, net: &Net, done: &Done)
    ensures { Tells W.contents W.failures out.old out.new
        (spec.tail_text done.now (processor_of net.now done.now.event.node)) }
{
    put_how(out, &done.deed, processor_in(net, done.event.node));
    put_outcome(out, &done.answer);
    out.put(b"\n");
}

/// A number in decimal digits, at the right end of `width` columns.
fn put_at_right<W: CountedWrite>(out: &mut Output<'_, W>, number: u64, width: u32)
    ensures { Tells W.contents W.failures out.old out.new (spec.at_right width (decimal number)) }
{
    let left = width.saturating_sub(1);
    if number < 10 {
        put_blanks(out, left);
        put_decimal(out, number);
    } else {
        put_at_right(out, number / 10, left);
        put_decimal(out, number % 10);
    }
}

/// `count` blanks.
fn put_blanks<W: CountedWrite>(out: &mut Output<'_, W>, count: u32)
    ensures { Tells W.contents W.failures out.old out.new (replicate count 32) }
{
    for _blank in 0..count {
        out.put(b" ");
    }
}

/// Who did it: an instruction by its process, a dispatch by the process that runs behind it, a packet by its link and
/// the far end.
fn put_who<W: CountedWrite>(out: &mut Output<'_, W>, net: &Net, node: u8, deed: &Deed)
    ensures { Tells W.contents W.failures out.old out.new
        (spec.who_text (far_ends net.now.wires node) deed.now (processor_of net.now node)) }
{
    match deed {
        Deed::Instruction { process, .. } => put_runner(out, *process),
        Deed::Dispatch => put_dispatched(out, processor_in(net, node)),
        Deed::Send(link) => put_link(out, b" send", *link, b" to ", far_end_of(net, node, *link)),
        Deed::Data(link, _) => put_link(
            out,
            b" data",
            *link,
            b" from ",
            far_end_of(net, node, *link),
        ),
        Deed::Take(link, _) => put_link(
            out,
            b" take",
            *link,
            b" from ",
            far_end_of(net, node, *link),
        ),
        Deed::Ack(link) => put_link(
            out,
            b" ack ",
            *link,
            b" from ",
            far_end_of(net, node, *link),
        ),
    }
}

/// The far end of a link of a node.
fn far_end_of(net: &Net, node: u8, link: u8) -> Option<End>
    ensures { result ≡ far_ends net.now.wires node link }
{
    net.far_end(end_of(node, link))
}

/// The process of an instruction.
fn put_runner<W: CountedWrite>(out: &mut Output<'_, W>, process: Word)
    ensures { Tells W.contents W.failures out.old out.new (codes " run  " ++ word_text process) }
{
    out.put(b" run  ");
    put_word(out, process);
}

/// The process that was dispatched, if one was.
fn put_dispatched<W: CountedWrite>(out: &mut Output<'_, W>, processor: Option<&Processor>)
    ensures { Tells W.contents W.failures out.old out.new
        (codes " run  " ++ spec.process_text (option_copied processor.entry)) }
{
    out.put(b" run  ");
    match processor {
        Some(processor) => put_current(out, processor),
        None => out.put(b"none     "),
    }
}

/// The descriptor of the process that runs, if one does.
fn put_current<W: CountedWrite>(out: &mut Output<'_, W>, processor: &Processor)
    ensures { Tells W.contents W.failures out.old out.new
        (spec.current_text processor.now.control.current processor.now.control.registers.wptr) }
{
    processor.know_placed();
    match processor.current() {
        Some(priority) => put_word(
            out,
            Word::new(processor.registers().wptr.get() + u32::from(priority)),
        ),
        None => out.put(b"none     "),
    }
}

/// A link, and where it leads to or what comes from there.
fn put_link<W: CountedWrite>(
    out: &mut Output<'_, W>,
    word: &[u8],
    link: u8,
    way: &[u8],
    far: Option<End>,
)
    ensures { Tells W.contents W.failures out.old out.new (spec.link_text word.now link way.now far) }
{
    out.put(word);
    out.put(b" link ");
    put_decimal(out, u64::from(link));
    out.put(way);
    put_far(out, far);
}

/// The far end of a link.
fn put_far<W: CountedWrite>(out: &mut Output<'_, W>, far: Option<End>)
    ensures { Tells W.contents W.failures out.old out.new (spec.far_text far) }
{
    match far {
        Some(end) => put_end(out, &end),
        None => out.put(b"none"),
    }
}

/// How an instruction or a dispatch came to what it left.
fn put_how<W: CountedWrite>(out: &mut Output<'_, W>, deed: &Deed, processor: Option<&Processor>)
    ensures { Tells W.contents W.failures out.old out.new (spec.how_text deed.now (option_copied processor.entry)) }
{
    match deed {
        Deed::Instruction { iptr, fetched, .. } => put_done(out, *iptr, fetched, processor),
        Deed::Dispatch => out.put(b" after dispatch"),
        Deed::Send(_) => {}
        Deed::Data(_, _) => {}
        Deed::Take(_, _) => {}
        Deed::Ack(_) => {}
    }
}

/// The instruction that was done, and whether its process is descheduled.
fn put_done<W: CountedWrite>(
    out: &mut Output<'_, W>,
    iptr: Word,
    fetched: &Result<Instruction, Break>,
    processor: Option<&Processor>,
)
    ensures { Tells W.contents W.failures out.old out.new
        (spec.instruction_text iptr fetched.now (option_copied processor.entry)) }
{
    out.put(b" after ");
    put_word(out, iptr);
    out.put(b": ");
    put_fetched(out, fetched);
    put_rest(out, processor);
}

/// That no process of a processor runs.
fn put_rest<W: CountedWrite>(out: &mut Output<'_, W>, processor: Option<&Processor>)
    ensures { Tells W.contents W.failures out.old out.new (spec.rest_text (option_copied processor.entry)) }
{
    if let Some(processor) = processor {
        put_none(out, processor);
    }
}

/// That no process runs.
fn put_none<W: CountedWrite>(out: &mut Output<'_, W>, processor: &Processor)
    ensures { Tells W.contents W.failures out.old out.new (spec.none_text processor.now.control.current) }
{
    match processor.current() {
        Some(_) => {}
        None => out.put(b" descheduled"),
    }
}

/// What the net answered: a halt, a message that is complete, or the break that froze the node.
fn put_outcome<W: CountedWrite>(out: &mut Output<'_, W>, answer: &Result<Emitted, StepFault>)
    ensures { Tells W.contents W.failures out.old out.new (spec.outcome_text answer.now) }
{
    match answer {
        Ok(emitted) => put_mark(out, emitted.mark),
        Err(fault) => put_fault(out, *fault),
    }
}

/// The break that froze the node.
fn put_fault<W: CountedWrite>(out: &mut Output<'_, W>, fault: StepFault)
    ensures { Tells W.contents W.failures out.old out.new (spec.fault_text fault) }
{
    match fault {
        StepFault::NotEnabled => {}
        StepFault::Frozen(broken) => put_break(out, broken),
    }
}

/// A halt, or a message that is complete.
fn put_mark<W: CountedWrite>(out: &mut Output<'_, W>, mark: Mark)
    ensures { Tells W.contents W.failures out.old out.new (spec.mark_text mark) }
{
    match mark {
        Mark::Nothing => {}
        Mark::Halted => out.put(b" halt"),
        Mark::Completed(_) => out.put(b" complete"),
    }
}

/// The break that froze a node.
fn put_break<W: CountedWrite>(out: &mut Output<'_, W>, broken: Break)
    ensures { Tells W.contents W.failures out.old out.new (codes " break " ++ texts.break_name broken) }
{
    out.put(b" break ");
    out.put(break_name(broken));
}
