//! Who waits at a link for ever, and what is lacking there.

ghost use Rattle.std.specs.Prelude.{◌≡◌, ◌≤◌, ◌<◌, [], ◌∷◌, IfSome, length, map};
ghost use Rattle.std.specs.List.{flat_map};
ghost use Rattle.tword.specs.Limits.{most_nodes};
ghost use Rattle.tlink.specs.Whole.{IsWhole};
ghost use Rattle.tnet.specs.Net.{four_links};
ghost use Rattle.tfiles.specs.Outputs.{Tells};
ghost use Rattle.twhere.specs.Standing as spec;
ghost use Rattle.twhere.specs.Waits.{guard_at, sink_waits, source_waits, wait_at};
ghost use Rattle.twhere.specs.declared.stuck.Who.TheVariants.{Process, TheSource, TheSink};

use crate::circles::put_circles;
use crate::facts::put_word;
use crate::listing::Listed;
use crate::net_node::NetNode;
use crate::wait_text::put_wait;
use crate::waits::{Lack, Wait, Want, end_at, has_output, is_enabled_by, lacking, remembered};
use tfiles::CountedWrite;
use tfiles::writing::output::Output;
use tfiles::writing::text::put_decimal;
use tlink::Role;
use tnet::Net;
use tplan::plan::End;
use tproc::{Reason, Waiter};
use tword::Word;

/// Who of a node waits.
#[derive(Clone, Copy)]
pub(crate) enum Who {
    /// The process of this descriptor.
    Process(Word),
    /// The node is a source.
    TheSource,
    /// The node is a sink.
    TheSink,
}

/// All that wait at links, and the circles of nodes that wait for one another, where the net is quiet: nothing more
/// happens by itself.
pub fn put_stuck<W: CountedWrite>(out: &mut Output<'_, W>, net: &Net, listed: &[Listed])
    requires listed { listed.now ≡ map (λ n. spec.listed_of n.machine.control) net.now.nodes }
    requires few { length net.now.nodes ≤ most_nodes }
    ensures { Tells W.contents W.failures out.old out.new (spec.stuck_text net.now) }
{
    net.know_sound();
    if net.is_quiet() {
        put_nodes(out, net, listed);
        put_circles(out, net, listed);
    }
}

/// Those of each node that wait at links.
fn put_nodes<W: CountedWrite>(out: &mut Output<'_, W>, net: &Net, listed: &[Listed])
    requires listed { listed.now ≡ map (λ n. spec.listed_of n.machine.control) net.now.nodes }
    requires few { length net.now.nodes ≤ most_nodes }
    ensures { Tells W.contents W.failures out.old out.new
        (spec.texts_from (spec.node_stuck net.now) 0 net.now.nodes) }
{
    for (number, node) in net.nodes().iter().enumerate() {
        let at = NetNode {
            net,
            number: number as u32,
            node,
        };
        put_node(out, &at, listed[number].waiting.as_slice());
    }
}

/// Those of a node that wait at links: the processes of this list, a source or a sink.
fn put_node<W: CountedWrite>(out: &mut Output<'_, W>, at: &NetNode<'_>, waiting: &[Waiter])
    requires { IsWhole at.now.node.now }
    ensures { Tells W.contents W.failures out.old out.new
        (spec.role_stuck at.now.node.now.role at.now.net.now at.now.number at.now.node.now waiting.now) }
{
    match at.node.role() {
        Role::Processor(_) => put_processes(out, at, waiting),
        Role::Source(_) => put_source(out, at),
        Role::Sink(_) => put_sink(out, at),
    }
}

/// The processes of a list that wait at links.
fn put_processes<W: CountedWrite>(out: &mut Output<'_, W>, at: &NetNode<'_>, waiting: &[Waiter])
    requires { IsWhole at.now.node.now }
    ensures { Tells W.contents W.failures out.old out.new
        (flat_map (spec.waiter_stuck at.now.net.now at.now.number at.now.node.now) waiting.now) }
{
    for waiter in waiting {
        put_waiter(out, at, waiter);
    }
}

/// A process, with the links that it waits for. One that waits for an internal channel waits for none.
fn put_waiter<W: CountedWrite>(out: &mut Output<'_, W>, at: &NetNode<'_>, waiter: &Waiter)
    requires { IsWhole at.now.node.now }
    ensures { Tells W.contents W.failures out.old out.new
        (spec.waiter_stuck at.now.net.now at.now.number at.now.node.now waiter.now) }
{
    let who = Who::Process(waiter.process);
    match waiter.reason {
        Reason::Receives { .. } => {}
        Reason::Sends { .. } => {}
        Reason::LinkInput(link) => put_wait_of(out, at, who, Want::Input, link),
        Reason::LinkOutput(link) => put_wait_of(out, at, who, Want::Output, link),
        Reason::Chooses => put_guards(out, at, waiter.process),
    }
}

/// The links that the alternative of a process has enabled.
fn put_guards<W: CountedWrite>(out: &mut Output<'_, W>, at: &NetNode<'_>, process: Word)
    requires { IsWhole at.now.node.now }
    ensures { Tells W.contents W.failures out.old out.new
        (spec.stuck_facts at.now.net.now at.now.number at.now.node.now (Process process)
        (flat_map (guard_at at.now.node.now.machine.control process) four_links)) }
{
    put_guard(out, at, process, 0);
    put_guard(out, at, process, 1);
    put_guard(out, at, process, 2);
    put_guard(out, at, process, 3);
}

/// A link, if the alternative of a process has enabled it.
fn put_guard<W: CountedWrite>(out: &mut Output<'_, W>, at: &NetNode<'_>, process: Word, link: u8)
    requires whole { IsWhole at.now.node.now }
    requires link { link < 4 }
    ensures { Tells W.contents W.failures out.old out.new
        (spec.stuck_facts at.now.net.now at.now.number at.now.node.now (Process process)
        (guard_at at.now.node.now.machine.control process link)) }
{
    if is_enabled_by(process, remembered(at.node, link)) {
        put_wait_of(out, at, Who::Process(process), Want::Alternative, link);
    }
}

/// A source, while it has a message to send.
fn put_source<W: CountedWrite>(out: &mut Output<'_, W>, at: &NetNode<'_>)
    requires { IsWhole at.now.node.now }
    ensures { Tells W.contents W.failures out.old out.new
        (spec.stuck_facts at.now.net.now at.now.number at.now.node.now TheSource (source_waits at.now.node.now)) }
{
    if has_output(at.node, 0) {
        put_wait_of(out, at, Who::TheSource, Want::Output, 0);
    }
}

/// A sink, while it has a part of a message.
fn put_sink<W: CountedWrite>(out: &mut Output<'_, W>, at: &NetNode<'_>)
    ensures { Tells W.contents W.failures out.old out.new
        (spec.stuck_facts at.now.net.now at.now.number at.now.node.now TheSink (sink_waits at.now.node.now)) }
{
    if at.node.counts(0).got != 0 {
        put_wait_of(out, at, Who::TheSink, Want::Input, 0);
    }
}

/// One of a node that waits for this at a link, and what it lacks there.
fn put_wait_of<W: CountedWrite>(
    out: &mut Output<'_, W>,
    at: &NetNode<'_>,
    who: Who,
    want: Want,
    link: u8,
)
    ensures { Tells W.contents W.failures out.old out.new
        (spec.stuck_facts at.now.net.now at.now.number at.now.node.now who (wait_at want link ∷ [])) }
{
    at.net.know_sound();
    let far = at.net.far_end(end_at(at.number, link));
    out.put(b"stuck ");
    put_who(out, who, at.number);
    out.put(b": ");
    put_wait(out, Wait { want, link }, far);
    put_lacking(out, at, want, far);
    out.put(b"\n");
}

/// Who of the node of this number waits.
fn put_who<W: CountedWrite>(out: &mut Output<'_, W>, who: Who, number: u32)
    ensures { Tells W.contents W.failures out.old out.new (spec.who_text who number) }
{
    match who {
        Who::Process(process) => {
            put_word(out, process);
            put_numbered(out, b" of ", number);
        }
        Who::TheSource => put_numbered(out, b"source ", number),
        Who::TheSink => put_numbered(out, b"sink ", number),
    }
}

/// A name with a number.
fn put_numbered<W: CountedWrite>(out: &mut Output<'_, W>, name: &[u8], number: u32)
    ensures { Tells W.contents W.failures out.old out.new (spec.numbered name.now number) }
{
    out.put(name);
    put_decimal(out, u64::from(number));
}

/// What is lacking behind a wire.
fn put_lacking<W: CountedWrite>(
    out: &mut Output<'_, W>,
    at: &NetNode<'_>,
    want: Want,
    far: Option<End>,
)
    requires { IfSome far (λ end. end.link < 4) }
    ensures { Tells W.contents W.failures out.old out.new
        (spec.lacking_text at.now.net.now at.now.number at.now.node.now want far) }
{
    if let Some(end) = far {
        out.put(b", ");
        put_lack(out, want, lacking(at, want, end));
    }
}

/// What is lacking.
fn put_lack<W: CountedWrite>(out: &mut Output<'_, W>, want: Want, lack: Lack)
    ensures { Tells W.contents W.failures out.old out.new (spec.lack_text want lack) }
{
    match lack {
        Lack::Frozen(number) => put_idle_node(out, number, b" is frozen"),
        Lack::Halted(number) => put_idle_node(out, number, b" is halted"),
        Lack::Room => put_no_room(out, want),
        Lack::Partner => put_no_partner(out, want),
    }
}

/// A node that does nothing, and why.
fn put_idle_node<W: CountedWrite>(out: &mut Output<'_, W>, number: u32, how: &[u8])
    ensures { Tells W.contents W.failures out.old out.new (spec.node_lacks number how.now) }
{
    put_numbered(out, b"node ", number);
    out.put(how);
}

/// Which sink is full: that at the far end of an output, or the one that waits itself.
fn put_no_room<W: CountedWrite>(out: &mut Output<'_, W>, want: Want)
    ensures { Tells W.contents W.failures out.old out.new (spec.room_text want) }
{
    match want {
        Want::Output => out.put(b"no room there"),
        Want::Input => out.put(b"no room here"),
        Want::Alternative => out.put(b"no room here"),
    }
}

/// Which half of the message is not there.
fn put_no_partner<W: CountedWrite>(out: &mut Output<'_, W>, want: Want)
    ensures { Tells W.contents W.failures out.old out.new (spec.partner_text want) }
{
    match want {
        Want::Output => out.put(b"no input there"),
        Want::Input => out.put(b"no output there"),
        Want::Alternative => out.put(b"no output there"),
    }
}
