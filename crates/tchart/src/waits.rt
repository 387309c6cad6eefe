//! What processes wait for.

ghost use Rattle.std.specs.Prelude.{◌≡◌, Some, IfOk, option_copied};
ghost use Rattle.tproc.specs.Entries.{waiting_in};
ghost use Rattle.tnet.specs.Net.{node_at};
ghost use Rattle.tchart.specs.Waits as spec;

use std::alloc::{AllocError, Global};
use tlink::Node;
use tnet::Net;
use tproc::{Entry, Processor, Reason};
use tword::Word;

/// What a process waits for, as the colour of its bar shows it.
#[derive(Clone, Copy)]
pub enum Awaited {
    /// An output at a link.
    Output,
    /// An input at a link.
    Input,
    /// A guard of an alternative.
    Alternative,
    /// A message on an internal channel.
    Channel,
}

/// What a process needs to go on, as the title of its bar tells it.
#[derive(Clone, Copy)]
pub enum Need {
    /// An input on this internal channel.
    Receives(Word),
    /// An output on this internal channel.
    Sends(Word),
    /// An input on this link.
    Input(u8),
    /// An output on this link.
    Output(u8),
    /// A guard of its alternative.
    Alternative,
}

/// What a process needs that waits for this.
pub(crate) fn need_of(reason: Reason) -> Need
    ensures { result ≡ spec.need_of reason }
{
    match reason {
        Reason::Receives { channel, .. } => Need::Receives(channel),
        Reason::Sends { channel, .. } => Need::Sends(channel),
        Reason::LinkInput(link) => Need::Input(link),
        Reason::LinkOutput(link) => Need::Output(link),
        Reason::Chooses => Need::Alternative,
    }
}

/// What kind of thing a process waits for.
pub(crate) fn awaited_of(need: Need) -> Awaited
    ensures { result ≡ spec.awaited_of need }
{
    match need {
        Need::Receives(_) => Awaited::Channel,
        Need::Sends(_) => Awaited::Channel,
        Need::Input(_) => Awaited::Input,
        Need::Output(_) => Awaited::Output,
        Need::Alternative => Awaited::Alternative,
    }
}

/// What a process of a node waits for, if it waits and the node is neither frozen nor halted. It takes memory for the
/// processes of the node.
///
/// # Errors
/// Where the allocator refuses.
pub(crate) fn reason_at(
    alloc: Global,
    net: &Net,
    node: u8,
    process: Word,
) -> Result<Option<Reason>, AllocError>
    ensures { IfOk result (λ r. r ≡ spec.reason_at process (node_at net.now node)) }
{
    match net.nodes().get(usize::from(node)) {
        Some(node) => reason_there(alloc, node, process),
        None => Ok(None),
    }
}

/// What a process of this node waits for, if the node is not frozen.
fn reason_there(alloc: Global, node: &Node, process: Word) -> Result<Option<Reason>, AllocError>
    ensures { IfOk result (λ r. r ≡ spec.reason_at process (Some node.now)) }
{
    if node.broken().is_some() {
        return Ok(None);
    }
    reason_of(alloc, node.processor(), process)
}

/// What a process of a processor waits for, if there is one and it has not halted.
fn reason_of(
    alloc: Global,
    processor: Option<&Processor>,
    process: Word,
) -> Result<Option<Reason>, AllocError>
    ensures { IfOk result (λ r. r ≡ spec.reason_of process (option_copied processor.entry)) }
{
    match processor {
        Some(processor) => reason_within(alloc, processor, process),
        None => Ok(None),
    }
}

/// What a process of this processor waits for, if it has not halted.
fn reason_within(
    alloc: Global,
    processor: &Processor,
    process: Word,
) -> Result<Option<Reason>, AllocError>
    ensures { IfOk result (λ r. r ≡ spec.reason_of process (Some processor.now)) }
{
    if processor.is_halted() {
        return Ok(None);
    }
    let entries = processor.processes(alloc)?;
    Ok(reason_in(process, entries.as_slice()))
}

/// What a process waits for, if it is among these and waits.
fn reason_in(process: Word, entries: &[Entry]) -> Option<Reason>
    ensures { result ≡ spec.reason_in process (waiting_in entries.now) }
{
    for entry in entries {
        if let Some(reason) = entry.reason
            && entry.process.get() == process.get()
        {
            return Some(reason);
        }
    }
    None
}
