//! What an event did, as the picture shows it.

ghost use Rattle.std.specs.Prelude.{◌≡◌, IfOk, OnOk, min, option_copied};
ghost use Rattle.tword.specs.Stores.{bytes_at};
ghost use Rattle.tnet.specs.Net.{node_at};
ghost use Rattle.tplan.specs.Wires.{far_ends};
ghost use Rattle.thistory.specs.Deeds.{net_behind, processor_in as processor_of};
ghost use Rattle.tchart.specs.Shown as spec;

use crate::waits::reason_at;
use std::alloc::{AllocError, Global};
use thistory::{Deed, Done, do_event};
use tlink::{Emitted, Mark, Node, StepFault};
use tnet::{Net, message};
use tplan::plan::End;
use tplan::{Act, Event};
use tproc::{Offer, Processor, Reason, Waiter};
use tword::{Break, Items, Word};

/// How many of the bytes of a message are shown.
const SHOWN_BYTES: u32 = 8;

/// A message that is complete.
#[derive(Drop)]
pub struct Message {
    /// The end that it comes from.
    pub from: End,
    /// The number of its bytes.
    pub length: u32,
    /// Its first bytes, eight at most.
    pub bytes: Items<u8>,
    /// The descriptor of the process that received it, where that is no sink.
    pub process: Option<Word>,
}

/// What an event did, as the picture shows it.
#[derive(Drop)]
pub enum Shown {
    /// The event was not enabled.
    Nothing,
    /// An instruction or a dispatch was done: by which process, whether it halted the processor, and whether the
    /// process waits behind it.
    Run {
        process: Option<Word>,
        halted: bool,
        waiter: Option<Waiter>,
    },
    /// A byte was sent on a link to its far end: whether it is the first of a message, and by which process.
    Sent {
        link: u8,
        to: Option<End>,
        is_first: bool,
        process: Option<Word>,
    },
    /// The byte that lay at this link came in.
    Came(u8),
    /// A byte was taken at a link from its far end, and maybe completed a message.
    Taken {
        link: u8,
        from: Option<End>,
        message: Option<Message>,
    },
    /// The acknowledge that lay at this link came in.
    Acknowledged(u8),
    /// The event broke this rule, and the node is frozen.
    Frozen(Break),
}

/// What the picture has to know of a net before an event.
#[derive(Clone, Copy)]
pub struct Before {
    /// Whether the byte that is sent is the first of its message.
    pub is_first: bool,
    /// The descriptor of the process that sends or receives on the link of the event.
    pub process: Option<Word>,
    /// The message that the byte that is taken completes, if it does.
    pub due: Option<Offer>,
}

/// Does an event on a net: what it did. One that is not enabled changes nothing. It takes memory for a few bytes.
///
/// # Errors
/// Where the allocator refuses.
pub(crate) fn see(alloc: Global, net: &mut Net, event: Event) -> Result<Shown, AllocError>
    ensures shown { IfOk result (λ s. s ≡ spec.shown_of net.old event) }
    ensures left { OnOk result (net.new ≡ net_behind net.old event) }
{
    let before = before_event(net, event);
    let done = do_event(net, event);
    shown_by(alloc, net, before, &done)
}

/// What is to be known before an event.
fn before_event(net: &Net, event: Event) -> Before
    ensures { result ≡ spec.before_of net.now event }
{
    match event.act {
        Act::Send(link) => before_send(net, event.node, link),
        Act::Take(link) => before_take(net, event.node, link),
        _ => Before {
            is_first: false,
            process: None,
            due: None,
        },
    }
}

/// What is to be known before a byte is sent.
fn before_send(net: &Net, node: u8, link: u8) -> Before
    ensures { result ≡ spec.before_send net.now node link }
{
    Before {
        is_first: is_first(net, node, link),
        process: sender(processor_in(net, node), link),
        due: None,
    }
}

/// What is to be known before a byte is taken.
fn before_take(net: &Net, node: u8, link: u8) -> Before
    ensures { result ≡ spec.before_take net.now node link }
{
    Before {
        is_first: false,
        process: receiver(processor_in(net, node), link),
        due: due(net, node, link),
    }
}

/// The processor of a node of a net, if the node is there and is no script.
fn processor_in(net: &Net, node: u8) -> Option<&Processor>
    ensures { option_copied result ≡ processor_of net.now node }
{
    match net.nodes().get(usize::from(node)) {
        Some(node) => node.processor(),
        None => None,
    }
}

/// Whether no byte of the pending output was sent yet.
fn is_first(net: &Net, node: u8, link: u8) -> bool
    ensures { result ≡ spec.is_first link (node_at net.now node) }
{
    match net.nodes().get(usize::from(node)) {
        Some(node) => node.counts(link).sent == 0,
        None => false,
    }
}

/// The message that the next byte at a link completes, if it is the last one.
fn due(net: &Net, node: u8, link: u8) -> Option<Offer>
    ensures { result ≡ spec.due_in link (node_at net.now node) }
{
    match net.nodes().get(usize::from(node)) {
        Some(node) => node.due(link),
        None => None,
    }
}

/// The descriptor of the process that sends on a link.
fn sender(processor: Option<&Processor>, link: u8) -> Option<Word>
    ensures { result ≡ spec.sender link (option_copied processor.entry) }
{
    match processor {
        Some(processor) => process_of(processor.pending_out(link)),
        None => None,
    }
}

/// The descriptor of the process that receives on a link.
fn receiver(processor: Option<&Processor>, link: u8) -> Option<Word>
    ensures { result ≡ spec.receiver link (option_copied processor.entry) }
{
    match processor {
        Some(processor) => process_of(processor.pending_in(link)),
        None => None,
    }
}

/// The descriptor of the process of an offer.
fn process_of(offer: Option<Offer>) -> Option<Word>
    ensures { result ≡ spec.process_of offer }
{
    match offer {
        Some(offer) => Some(offer.wdesc),
        None => None,
    }
}

/// What an event did, by the net behind it and what was known before.
fn shown_by(alloc: Global, net: &Net, before: Before, done: &Done) -> Result<Shown, AllocError>
    ensures { IfOk result (λ s. s ≡ spec.shown_by net.now before done.now) }
{
    match done.answer {
        Ok(emitted) => deed_shown(alloc, net, before, done, emitted),
        Err(StepFault::NotEnabled) => Ok(Shown::Nothing),
        Err(StepFault::Frozen(broken)) => Ok(Shown::Frozen(broken)),
    }
}

/// What an event that broke no rule did.
fn deed_shown(
    alloc: Global,
    net: &Net,
    before: Before,
    done: &Done,
    emitted: Emitted,
) -> Result<Shown, AllocError>
    ensures { IfOk result (λ s. s ≡ spec.deed_shown net.now before done.now.event.node emitted.mark done.now.deed) }
{
    let node = done.event.node;
    match done.deed {
        Deed::Instruction { process, .. } => Ok(Shown::Run {
            process: Some(process),
            halted: is_halt(emitted.mark),
            waiter: waiter_behind(alloc, net, node, process)?,
        }),
        Deed::Dispatch => Ok(Shown::Run {
            process: runner(processor_in(net, node)),
            halted: is_halt(emitted.mark),
            waiter: None,
        }),
        Deed::Send(link) => Ok(Shown::Sent {
            link,
            to: far_end(net, node, link),
            is_first: before.is_first,
            process: before.process,
        }),
        Deed::Data(link, _) => Ok(Shown::Came(link)),
        Deed::Take(link, _) => Ok(Shown::Taken {
            link,
            from: far_end(net, node, link),
            message: message_of(alloc, net, node, before, emitted.mark)?,
        }),
        Deed::Ack(link) => Ok(Shown::Acknowledged(link)),
    }
}

/// Whether the processor halted.
fn is_halt(mark: Mark) -> bool
    ensures { result ≡ spec.is_halt mark }
{
    match mark {
        Mark::Halted => true,
        _ => false,
    }
}

/// The far end of a link.
fn far_end(net: &Net, node: u8, link: u8) -> Option<End>
    ensures { result ≡ far_ends net.now.wires node link }
{
    net.far_end(End {
        node: u32::from(node),
        link: u32::from(link),
    })
}

/// The descriptor of the process that runs, if there is one.
fn runner(processor: Option<&Processor>) -> Option<Word>
    ensures { result ≡ spec.runner (option_copied processor.entry) }
{
    match processor {
        Some(processor) => current(processor),
        None => None,
    }
}

/// The descriptor of the process that a processor runs.
fn current(processor: &Processor) -> Option<Word>
    ensures { result ≡ spec.current processor.now.control.current processor.now.control.registers.wptr }
{
    processor.know_placed();
    match processor.current() {
        Some(priority) => Some(Word::new(processor.registers().wptr.get() + u32::from(priority))),
        None => None,
    }
}

/// The process that did an instruction of a node, if it waits behind it. No process runs then.
fn waiter_behind(
    alloc: Global,
    net: &Net,
    node: u8,
    process: Word,
) -> Result<Option<Waiter>, AllocError>
    ensures { IfOk result (λ w. w ≡ spec.waiter_behind net.now node process) }
{
    if runner(processor_in(net, node)).is_some() {
        return Ok(None);
    }
    let reason = reason_at(alloc, net, node, process)?;
    Ok(waiter(process, reason))
}

/// A process with what it waits for.
fn waiter(process: Word, reason: Option<Reason>) -> Option<Waiter>
    ensures { result ≡ spec.waiter process reason }
{
    match reason {
        Some(reason) => Some(Waiter { process, reason }),
        None => None,
    }
}

/// The message that is complete with a byte that was taken, if one is.
fn message_of(
    alloc: Global,
    net: &Net,
    node: u8,
    before: Before,
    mark: Mark,
) -> Result<Option<Message>, AllocError>
    ensures { IfOk result (λ m. m ≡ spec.message_of (far_ends net.now.wires node) before (node_at net.now node) mark) }
{
    match mark {
        Mark::Completed(link) => {
            let from = far_end(net, node, link);
            message_in(alloc, net, node, from, before.process, before.due)
        }
        _ => Ok(None),
    }
}

/// The message that was due, as the node holds it now.
fn message_in(
    alloc: Global,
    net: &Net,
    node: u8,
    from: Option<End>,
    process: Option<Word>,
    due: Option<Offer>,
) -> Result<Option<Message>, AllocError>
    ensures { IfOk result (λ m. m ≡ spec.message_in from process due (node_at net.now node)) }
{
    let (Some(from), Some(offer)) = (from, due) else {
        return Ok(None);
    };
    match net.nodes().get(usize::from(node)) {
        Some(node) => Ok(Some(Message {
            from,
            length: offer.length,
            bytes: first_bytes(alloc, node, offer)?,
            process,
        })),
        None => Ok(None),
    }
}

/// The first bytes of a message, as they stand in the memory of a node.
fn first_bytes(alloc: Global, node: &Node, offer: Offer) -> Result<Items<u8>, AllocError>
    ensures { IfOk result (λ bytes. bytes ≡ bytes_at node.now.machine.store offer.buffer (min offer.length 8)) }
{
    let few = Offer {
        wdesc: offer.wdesc,
        buffer: offer.buffer,
        length: offer.length.min(SHOWN_BYTES),
    };
    let mut room = Vec::new(alloc);
    room.reserve(few.length as usize)?;
    Ok(message(node, few, room))
}
