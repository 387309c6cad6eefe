//! An event of a net, as it is told: what its node was about to do, and what that led to.

ghost use Rattle.std.specs.Prelude.{◌≡◌, ◌<◌, ◌%◌, option_copied};
ghost use Rattle.tnet.specs.Net.{inbox_at, node_at};
ghost use Rattle.tplan.specs.Wires.{end_at};
ghost use Rattle.thistory.specs.Deeds as spec;

use tcode::Instruction;
use tlink::{Arrival, Emitted, StepFault};
use tnet::Net;
use tplan::plan::End;
use tplan::{Act, Event};
use tproc::Processor;
use tword::{Break, Word};

/// What a node is about to do.
#[derive(Clone, Copy)]
pub enum Deed {
    /// An instruction.
    Instruction {
        /// The descriptor of its process.
        process: Word,
        /// Its address.
        iptr: Word,
        /// What a fetch there answers.
        fetched: Result<Instruction, Break>,
    },
    /// A process is dispatched, or there is none to run.
    Dispatch,
    /// A byte is sent on this link.
    Send(u8),
    /// The byte that lies at this link comes in, if one does.
    Data(u8, Option<Arrival>),
    /// The byte that waits at this link is taken, if one does.
    Take(u8, Option<Arrival>),
    /// The acknowledge that lies at this link comes in.
    Ack(u8),
}

/// An event with its deed, and the answer of the net.
#[derive(Clone, Copy)]
pub struct Done {
    pub event: Event,
    pub deed: Deed,
    pub answer: Result<Emitted, StepFault>,
}

/// Does an event on a net. One that is not enabled changes nothing.
pub fn do_event(net: &mut Net, event: Event) -> Done
    ensures done { result ≡ spec.done_of net.old event }
    ensures left { net.new ≡ spec.net_behind net.old event }
{
    let deed = deed_of(net, event);
    let answer = net.step(event);
    Done {
        event,
        deed,
        answer,
    }
}

/// The processor of a node of a net, if the node is there and is no script.
pub(crate) fn processor_in(net: &Net, node: u8) -> Option<&Processor>
    ensures { option_copied result ≡ spec.processor_in net.now node }
{
    match net.nodes().get(usize::from(node)) {
        Some(node) => node.processor(),
        None => None,
    }
}

/// What the node of an event is about to do.
fn deed_of(net: &Net, event: Event) -> Deed
    ensures { result ≡ spec.deed_of net.now event }
{
    match event.act {
        Act::Run => run_deed(processor_in(net, event.node)),
        Act::Send(link) => Deed::Send(link),
        Act::Data(link) => Deed::Data(link, lying(net, event.node, link)),
        Act::Take(link) => Deed::Take(link, waiting(net, event.node, link)),
        Act::Ack(link) => Deed::Ack(link),
    }
}

/// The byte that lies at a link of a node.
fn lying(net: &Net, node: u8, link: u8) -> Option<Arrival>
    ensures { result ≡ (inbox_at net.now (end_at node link)).carried }
{
    net.inbox(end_of(node, link)).carried
}

/// The end at a link of a node.
pub(crate) fn end_of(node: u8, link: u8) -> End
    ensures { result ≡ end_at node link }
{
    End {
        node: u32::from(node),
        link: u32::from(link),
    }
}

/// The byte that waits at a link of a node, if the node is there.
fn waiting(net: &Net, node: u8, link: u8) -> Option<Arrival>
    ensures { result ≡ spec.waiting_at link (node_at net.now node) }
{
    match net.nodes().get(usize::from(node)) {
        Some(node) => node.counts(link).arrived,
        None => None,
    }
}

/// What a processor is about to run, if there is one. A script runs nothing.
fn run_deed(processor: Option<&Processor>) -> Deed
    ensures { result ≡ spec.processor_deed (option_copied processor.entry) }
{
    match processor {
        Some(processor) => next_deed(processor),
        None => Deed::Dispatch,
    }
}

/// What a processor is about to run: an instruction of its process, unless that is low and a high one is queued.
fn next_deed(processor: &Processor) -> Deed
    ensures { result ≡ spec.run_deed processor.now.control.current processor.now.control.high processor.now }
{
    processor.know_placed();
    match processor.current() {
        None => Deed::Dispatch,
        Some(0) => instruction(processor, 0),
        Some(_) if processor.is_high_empty() => instruction(processor, 1),
        Some(_) => Deed::Dispatch,
    }
}

/// The next instruction of the process that runs, which has this priority.
fn instruction(processor: &Processor, priority: u8) -> Deed
    requires priority { priority < 2 }
    requires workspace { processor.now.control.registers.wptr % 4 ≡ 0 }
    ensures { result ≡ spec.instruction_deed priority processor.now }
{
    let registers = processor.registers();
    Deed::Instruction {
        process: Word::new(registers.wptr.get() + u32::from(priority)),
        iptr: registers.iptr,
        fetched: processor.fetch_at(registers.iptr),
    }
}
