//! The titles of marks, which a viewer shows.

ghost use Rattle.std.specs.Prelude.{◌≡◌};
ghost use Rattle.tfiles.specs.Outputs.{Tells};
ghost use Rattle.tfiles.specs.Texts.{break_name as name_of_break};
ghost use Rattle.tchart.specs.Titles as spec;

use crate::marks::{Bar, Mark, Pause};
use crate::shown::Message;
use crate::waits::Need;
use tfiles::CountedWrite;
use tfiles::break_names::break_name;
use tfiles::writing::output::Output;
use tfiles::writing::text::{put_decimal, put_end, put_hex};
use tplan::plan::End;
use twhere::put_word;
use tword::{Break, Word};

/// The title of a mark.
pub(crate) fn put_title<W: CountedWrite>(out: &mut Output<'_, W>, mark: &Mark)
    ensures { Tells W.contents W.failures out.old out.new (spec.title_text mark.now) }
{
    match mark {
        Mark::Bar { node, bar } => put_bar_title(out, *node, bar),
        Mark::Pause {
            node,
            pause,
            last,
            ..
        } => put_pause_title(out, *node, pause, *last),
        Mark::Begin {
            node,
            number,
            link,
            process,
            ..
        } => put_begin_title(out, *node, *number, *link, *process),
        Mark::Message {
            to,
            begun,
            number,
            message,
            ..
        } => put_message_title(out, to, begun.number, *number, message),
        Mark::Halt { node, number, .. } => put_halt_title(out, *node, *number),
        Mark::Freeze {
            node,
            number,
            broken,
            ..
        } => put_freeze_title(out, *node, *number, *broken),
    }
}

/// What stands before the title of a mark of a node.
fn put_node<W: CountedWrite>(out: &mut Output<'_, W>, node: u8)
    ensures { Tells W.contents W.failures out.old out.new (spec.node_text node) }
{
    out.put(b"node ");
    put_decimal(out, u64::from(node));
    out.put(b": ");
}

/// The event of a mark.
fn put_event<W: CountedWrite>(out: &mut Output<'_, W>, number: u64)
    ensures { Tells W.contents W.failures out.old out.new (spec.event_text number) }
{
    out.put(b"event ");
    put_decimal(out, number);
}

/// The events of a mark, from its first one to its last.
fn put_events<W: CountedWrite>(out: &mut Output<'_, W>, first: u64, last: u64)
    ensures { Tells W.contents W.failures out.old out.new (spec.events_text first last) }
{
    if first == last {
        put_event(out, first);
    } else {
        out.put(b"events ");
        put_decimal(out, first);
        out.put(b" to ");
        put_decimal(out, last);
    }
}

/// The events of a wait, which may have no last one.
fn put_since<W: CountedWrite>(out: &mut Output<'_, W>, first: u64, last: Option<u64>)
    ensures { Tells W.contents W.failures out.old out.new (spec.since_text first last) }
{
    match last {
        Some(last) => put_events(out, first, last),
        None => {
            out.put(b"from event ");
            put_decimal(out, first);
            out.put(b" on");
        }
    }
}

/// How many steps there are.
fn put_steps<W: CountedWrite>(out: &mut Output<'_, W>, count: u64)
    ensures { Tells W.contents W.failures out.old out.new (spec.steps_text count) }
{
    if count == 1 {
        out.put(b"1 step");
    } else {
        put_decimal(out, count);
        out.put(b" steps");
    }
}

/// A process, if one is known.
fn put_process<W: CountedWrite>(out: &mut Output<'_, W>, process: Option<Word>)
    ensures { Tells W.contents W.failures out.old out.new (spec.process_text process) }
{
    if let Some(process) = process {
        out.put(b", process ");
        put_word(out, process);
    }
}

/// What a process waits for.
fn put_need<W: CountedWrite>(out: &mut Output<'_, W>, need: Need)
    ensures { Tells W.contents W.failures out.old out.new (spec.need_text need) }
{
    match need {
        Need::Receives(channel) => {
            out.put(b"input on channel ");
            put_word(out, channel);
        }
        Need::Sends(channel) => {
            out.put(b"output on channel ");
            put_word(out, channel);
        }
        Need::Input(link) => {
            out.put(b"input on link ");
            put_decimal(out, u64::from(link));
        }
        Need::Output(link) => {
            out.put(b"output on link ");
            put_decimal(out, u64::from(link));
        }
        Need::Alternative => out.put(b"an alternative"),
    }
}

/// The title of instructions and dispatches.
fn put_bar_title<W: CountedWrite>(out: &mut Output<'_, W>, node: u8, bar: &Bar)
    ensures { Tells W.contents W.failures out.old out.new (spec.bar_title node bar.now) }
{
    put_node(out, node);
    put_events(out, bar.first, bar.last);
    out.put(b", ");
    put_steps(out, bar.count);
    put_process(out, bar.process);
}

/// The title of a wait.
fn put_pause_title<W: CountedWrite>(
    out: &mut Output<'_, W>,
    node: u8,
    pause: &Pause,
    last: Option<u64>,
)
    ensures { Tells W.contents W.failures out.old out.new (spec.pause_title node pause.now last) }
{
    put_node(out, node);
    put_since(out, pause.first, last);
    out.put(b", waits for ");
    put_need(out, pause.need);
    put_process(out, Some(pause.process));
}

/// The title of the beginning of a message.
fn put_begin_title<W: CountedWrite>(
    out: &mut Output<'_, W>,
    node: u8,
    number: u64,
    link: u8,
    process: Option<Word>,
)
    ensures { Tells W.contents W.failures out.old out.new (spec.begin_title node number link process) }
{
    put_node(out, node);
    put_event(out, number);
    out.put(b", a message begins on link ");
    put_decimal(out, u64::from(link));
    put_process(out, process);
}

/// The title of a message.
fn put_message_title<W: CountedWrite>(
    out: &mut Output<'_, W>,
    to: &End,
    first: u64,
    last: u64,
    message: &Message,
)
    ensures { Tells W.contents W.failures out.old out.new (spec.message_title to.now first last message.now) }
{
    out.put(b"message ");
    put_end(out, &message.from);
    out.put(b" to ");
    put_end(out, to);
    out.put(b": ");
    put_events(out, first, last);
    out.put(b", ");
    put_bytes(out, message);
    put_process(out, message.process);
}

/// The length of a message, and its first bytes.
pub(crate) fn put_bytes<W: CountedWrite>(out: &mut Output<'_, W>, message: &Message)
    ensures { Tells W.contents W.failures out.old out.new (spec.bytes_text message.now) }
{
    put_decimal(out, u64::from(message.length));
    out.put(b": ");
    put_hex(out, message.bytes.as_slice());
    put_more(out, message.length);
}

/// That a message of this length has more bytes than those that are shown.
fn put_more<W: CountedWrite>(out: &mut Output<'_, W>, length: u32)
    ensures { Tells W.contents W.failures out.old out.new (spec.more_text length) }
{
    if 8 < length {
        out.put(b"..");
    }
}

/// The title of a halt.
fn put_halt_title<W: CountedWrite>(out: &mut Output<'_, W>, node: u8, number: u64)
    ensures { Tells W.contents W.failures out.old out.new (spec.halt_title node number) }
{
    put_node(out, node);
    put_event(out, number);
    out.put(b", halt");
}

/// The title of a freeze.
fn put_freeze_title<W: CountedWrite>(out: &mut Output<'_, W>, node: u8, number: u64, broken: Break)
    ensures { Tells W.contents W.failures out.old out.new
        (spec.freeze_title node number (name_of_break broken)) }
{
    put_node(out, node);
    put_event(out, number);
    out.put(b", freeze ");
    out.put(break_name(broken));
}
