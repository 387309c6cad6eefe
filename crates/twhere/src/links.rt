//! The links of a node that are not at rest.

ghost use Rattle.std.specs.Prelude.{◌≡◌, ◌<◌};
ghost use Rattle.tlink.specs.Whole.{IsWhole};
ghost use Rattle.tnet.specs.Net.{inbox_at};
ghost use Rattle.tplan.specs.Wires.{end_at};
ghost use Rattle.tfiles.specs.Outputs.{Tells};
ghost use Rattle.twhere.specs.Standing as spec;

use crate::facts::{put_if, put_word};
use crate::waits::{end_at, has_input, has_output, remembered};
use tfiles::CountedWrite;
use tfiles::writing::output::Output;
use tfiles::writing::text::{put_byte, put_decimal};
use tlink::{Arrival, Counts, Node};
use tnet::{Inbox, Net};
use tword::Word;

/// The four links of the node of this number, with what lies at them.
pub(crate) fn put_links<W: CountedWrite>(
    out: &mut Output<'_, W>,
    net: &Net,
    number: u32,
    node: &Node,
)
    requires { IsWhole node.now }
    ensures { Tells W.contents W.failures out.old out.new (spec.links_facts net.now number node.now) }
{
    put_link(out, node, 0, inbox(net, number, 0));
    put_link(out, node, 1, inbox(net, number, 1));
    put_link(out, node, 2, inbox(net, number, 2));
    put_link(out, node, 3, inbox(net, number, 3));
}

/// What lies at a link of the node of this number.
fn inbox(net: &Net, number: u32, link: u8) -> Inbox
    ensures { result ≡ inbox_at net.now (end_at number link) }
{
    net.inbox(end_at(number, link))
}

/// One link, with what lies at it.
fn put_link<W: CountedWrite>(out: &mut Output<'_, W>, node: &Node, link: u8, inbox: Inbox)
    requires whole { IsWhole node.now }
    requires link { link < 4 }
    ensures { Tells W.contents W.failures out.old out.new (spec.link_facts node.now inbox link) }
{
    let counts = node.counts(link);
    put_output(out, link, has_output(node, link), counts);
    put_input(out, link, has_input(node, link), counts);
    put_arrival(out, link, b"byte waits ", counts.arrived);
    put_arrival(out, link, b"packet data ", inbox.carried);
    put_ack(out, link, inbox.acknowledged);
    put_enabled(out, link, remembered(node, link));
}

/// What stands before each fact of a link.
fn put_name<W: CountedWrite>(out: &mut Output<'_, W>, link: u8)
    ensures { Tells W.contents W.failures out.old out.new (spec.link_name link) }
{
    out.put(b"  link ");
    put_decimal(out, u64::from(link));
    out.put(b"        ");
}

/// A pending output: how many bytes were sent, and how many of them acknowledged.
fn put_output<W: CountedWrite>(out: &mut Output<'_, W>, link: u8, is_pending: bool, counts: Counts)
    ensures { Tells W.contents W.failures out.old out.new (spec.output_fact link is_pending counts) }
{
    if is_pending {
        put_name(out, link);
        out.put(b"sent ");
        put_decimal(out, u64::from(counts.sent));
        out.put(b" acknowledged ");
        put_decimal(out, u64::from(counts.acked));
        out.put(b"\n");
    }
}

/// A pending input: how many bytes it has got.
fn put_input<W: CountedWrite>(out: &mut Output<'_, W>, link: u8, is_pending: bool, counts: Counts)
    ensures { Tells W.contents W.failures out.old out.new (spec.input_fact link is_pending counts) }
{
    if is_pending {
        put_name(out, link);
        out.put(b"got ");
        put_decimal(out, u64::from(counts.got));
        out.put(b"\n");
    }
}

/// A byte that came, or that lies there as a packet, by this name.
fn put_arrival<W: CountedWrite>(
    out: &mut Output<'_, W>,
    link: u8,
    name: &[u8],
    arrival: Option<Arrival>,
)
    ensures { Tells W.contents W.failures out.old out.new (spec.byte_fact link name.now arrival) }
{
    if let Some(arrival) = arrival {
        put_name(out, link);
        out.put(name);
        put_byte(out, arrival.byte);
        put_if(out, arrival.last, b" last");
        out.put(b"\n");
    }
}

/// An acknowledge that lies at a link.
fn put_ack<W: CountedWrite>(out: &mut Output<'_, W>, link: u8, acknowledged: bool)
    ensures { Tells W.contents W.failures out.old out.new (spec.ack_fact link acknowledged) }
{
    if acknowledged {
        put_name(out, link);
        out.put(b"packet acknowledge\n");
    }
}

/// The process that enabled the link.
fn put_enabled<W: CountedWrite>(out: &mut Output<'_, W>, link: u8, process: Option<Word>)
    ensures { Tells W.contents W.failures out.old out.new (spec.enabled_fact link process) }
{
    if let Some(process) = process {
        put_name(out, link);
        out.put(b"enabled by ");
        put_word(out, process);
        out.put(b"\n");
    }
}
