//! What is told of a configuration in which a run has ended.

ghost use Rattle.std.specs.Prelude.{◌≡◌, ◌<◌, ◌||◌, IfOk, false, is_some, length, nat_lt};
ghost use Rattle.std.specs.Option.{option_map_or};
ghost use Rattle.tproc.specs.Entries.{waiter_of, waiting_in};
ghost use Rattle.trendezvous.specs.Calls.{fresh_output};
ghost use Rattle.tfiles.specs.Outputs.{IsOut, Tells};
ghost use Rattle.tfiles.specs.Texts.{dump_text, node_dump};
ghost use Rattle.tendings.specs.Tellings as spec;

use std::alloc::{AllocError, Global};
use tfiles::break_names::break_name;
use tfiles::counted::{CountedWrite, Uncounted};
use tfiles::writing::dump::put_processor_dump;
use tfiles::writing::output::{Output, WriteFault};
use tfiles::writing::scripts::{put_sink_dump, put_source_line};
use tfiles::writing::text::put_decimal;
use tproc::{Entry, Processor, Reason};
use trendezvous::{Body, ProcessorSite, Rendezvous, SinkSite, Site, SourceSite};
use twhere::put_word;
use tword::{Break, Items};

/// What is told of a configuration in which a run has ended.
#[derive(Drop)]
pub struct Telling {
    /// How the run has ended: `ended`, `idle`, `stuck`, or `freeze 0 InTransit #8000009b`.
    pub heading: Items<u8>,
    /// The dump of the configuration.
    pub dump: Items<u8>,
    /// Whether a node is frozen.
    pub is_freeze: bool,
}

/// What is told of a configuration.
///
/// # Errors
/// Where the allocator refuses.
pub fn telling_of(alloc: Global, state: &Rendezvous) -> Result<Telling, AllocError>
    ensures { IfOk result (λ t. t ≡ spec.telling state.now) }
{
    let dump = dump_of(alloc, state)?;
    match freeze_of(alloc, state)? {
        Some(heading) => Ok(Telling {
            heading,
            dump,
            is_freeze: true,
        }),
        None => Ok(Telling {
            heading: rest_of(alloc, state)?,
            dump,
            is_freeze: false,
        }),
    }
}

/// Whether two tellings tell of the same outcome, or of the same freeze.
pub fn is_one(one: &Telling, other: &Telling) -> bool
    ensures { result ≡ spec.is_one one.now other.now }
{
    if one.heading.as_slice() != other.heading.as_slice() {
        return false;
    }
    match (one.is_freeze, other.is_freeze) {
        (true, true) => true,
        (false, false) => one.dump.as_slice() == other.dump.as_slice(),
        _ => false,
    }
}

/// The dump of a configuration.
fn dump_of(alloc: Global, state: &Rendezvous) -> Result<Items<u8>, AllocError>
    ensures { IfOk result (λ dump. dump ≡ dump_text state.now) }
{
    let mut text = Uncounted(Vec::new(alloc));
    match write_dump(&mut text, state) {
        Ok(()) => Ok(Items::new(text.0)),
        Err(_) => Err(AllocError),
    }
}

/// Writes the dump of a configuration.
fn write_dump<W: CountedWrite>(out: &mut W, state: &Rendezvous) -> Result<(), WriteFault>
    ensures { IsOut (W.contents out.old) (W.contents out.new) (dump_text state.now) result }
{
    let mut output = Output::new(out);
    put_dump(&mut output, state);
    output.finish()
}

/// The dumps of all nodes.
fn put_dump<W: CountedWrite>(out: &mut Output<'_, W>, state: &Rendezvous)
    ensures { Tells W.contents W.failures out.old out.new (dump_text state.now) }
{
    for number in 0..state.len() {
        put_site(out, number, state.site(number));
    }
}

/// The dump of a node.
fn put_site<W: CountedWrite>(out: &mut Output<'_, W>, number: usize, site: &Site)
    ensures { Tells W.contents W.failures out.old out.new (node_dump number site.now) }
{
    match site.body() {
        Body::Processor(processor) => put_processor(out, number, processor),
        Body::Source(source) => put_source(out, number, source),
        Body::Sink(sink) => put_sink(out, number, sink),
    }
}

/// The dump of a processor.
fn put_processor<W: CountedWrite>(out: &mut Output<'_, W>, number: usize, site: &ProcessorSite)
    ensures { Tells W.contents W.failures out.old out.new (node_dump number site.now) }
{
    site.know_role();
    site.know_links();
    put_processor_dump(out, number, site.broken(), site.processor());
}

/// The dump of a source.
fn put_source<W: CountedWrite>(out: &mut Output<'_, W>, number: usize, source: &SourceSite)
    ensures { Tells W.contents W.failures out.old out.new (node_dump number source.now) }
{
    source.know_role();
    put_source_line(out, number, source.done(), source.count());
}

/// The dump of a sink.
fn put_sink<W: CountedWrite>(out: &mut Output<'_, W>, number: usize, sink: &SinkSite)
    ensures { Tells W.contents W.failures out.old out.new (node_dump number sink.now) }
{
    sink.know_role();
    put_sink_dump(out, number, sink.kept());
}

/// The heading of a configuration in which a node is frozen: that of the first one that is.
fn freeze_of(alloc: Global, state: &Rendezvous) -> Result<Option<Items<u8>>, AllocError>
    ensures { IfOk result (λ heading. heading ≡ spec.freeze_from 0 state.now.nodes) }
{
    for number in 0..state.len() {
        let site = state.site(number);
        if let Some(broken) = site.broken() {
            return Ok(Some(freeze_text(alloc, number, broken, site)?));
        }
    }
    Ok(None)
}

/// The heading of a freeze.
fn freeze_text(
    alloc: Global,
    number: usize,
    broken: Break,
    site: &Site,
) -> Result<Items<u8>, AllocError>
    ensures { IfOk result (λ heading. heading ≡ spec.freeze_text number broken site.now) }
{
    let mut text = Uncounted(Vec::new(alloc));
    match write_freeze(&mut text, number, broken, site) {
        Ok(()) => Ok(Items::new(text.0)),
        Err(_) => Err(AllocError),
    }
}

/// Writes the heading of a freeze.
fn write_freeze<W: CountedWrite>(
    out: &mut W,
    number: usize,
    broken: Break,
    site: &Site,
) -> Result<(), WriteFault>
    ensures { IsOut (W.contents out.old) (W.contents out.new) (spec.freeze_text number broken site.now) result }
{
    let mut output = Output::new(out);
    put_freeze(&mut output, number, broken, site);
    output.finish()
}

/// The heading of a freeze.
fn put_freeze<W: CountedWrite>(out: &mut Output<'_, W>, number: usize, broken: Break, site: &Site)
    ensures { Tells W.contents W.failures out.old out.new (spec.freeze_text number broken site.now) }
{
    out.put(b"freeze ");
    put_decimal(out, number as u64);
    out.put(b" ");
    out.put(break_name(broken));
    put_instruction(out, site);
}

/// Writes behind a blank the address of the instruction of the process that runs at a node, if one does.
fn put_instruction<W: CountedWrite>(out: &mut Output<'_, W>, site: &Site)
    ensures { Tells W.contents W.failures out.old out.new
        (spec.instruction_text site.now.role site.now.machine.control) }
{
    match site.body() {
        Body::Processor(site) => {
            site.know_role();
            put_iptr(out, site.processor());
        }
        Body::Source(source) => source.know_role(),
        Body::Sink(sink) => sink.know_role(),
    }
}

/// Writes behind a blank the address of the instruction of the process that a processor runs, if it runs one.
fn put_iptr<W: CountedWrite>(out: &mut Output<'_, W>, processor: &Processor)
    ensures { Tells W.contents W.failures out.old out.new
        (spec.instruction_at processor.now.control processor.now.control.current) }
{
    match processor.current() {
        Some(_) => {
            out.put(b" ");
            put_word(out, processor.iptr());
        }
        None => {}
    }
}

/// The heading of a configuration in which no node is frozen.
fn rest_of(alloc: Global, state: &Rendezvous) -> Result<Items<u8>, AllocError>
    ensures { IfOk result (λ heading. heading ≡ spec.rest_text state.now.nodes) }
{
    let mut offers = false;
    let mut waits = false;
    for number in 0..state.len() {
        let site = state.site(number);
        let entries = entries_of(alloc, site)?;
        let entries = entries.as_slice();
        offers = either(offers, has_offer(site, entries));
        waits = either(waits, has_waiting(entries));
    }
    let heading = if offers {
        "stuck"
    } else if waits {
        "idle"
    } else {
        "ended"
    };
    Ok(Items::new(Vec::from_slice(alloc, heading.as_bytes())?))
}

/// Whether one of two conditions holds.
fn either(one: bool, other: bool) -> bool
    ensures { result ≡ (one || other) }
{
    one || other
}

/// The processes of a node that are queued or wait; a source or a sink has none.
fn entries_of(alloc: Global, site: &Site) -> Result<Vec<Entry>, AllocError>
    ensures { IfOk result (λ entries. waiting_in entries.items ≡ spec.waiting site.now) }
{
    match site.body() {
        Body::Processor(site) => {
            site.know_role();
            site.processor().processes(alloc)
        }
        Body::Source(source) => {
            source.know_role();
            Ok(Vec::new(alloc))
        }
        Body::Sink(sink) => {
            sink.know_role();
            Ok(Vec::new(alloc))
        }
    }
}

/// Whether a message of a node is offered, whose processes that are queued or wait are these.
fn has_offer(site: &Site, entries: &[Entry]) -> bool
    ensures { result ≡ (spec.offers_at_link site.now || spec.offers_within (waiting_in entries.now)) }
{
    has_output(site) || has_sender(entries)
}

/// Whether a message is offered at a link.
fn has_output(site: &Site) -> bool
    ensures { result ≡ spec.offers_at_link site.now }
{
    is_offered(site, 0) || is_offered(site, 1) || is_offered(site, 2) || is_offered(site, 3)
}

/// Whether a message is offered at this link.
fn is_offered(site: &Site, link: u8) -> bool
    requires { link < 4 }
    ensures { result ≡ is_some (fresh_output site.now link) }
{
    site.fresh_output(link).is_some()
}

/// Whether one of these processes waits to send within its node.
fn has_sender(entries: &[Entry]) -> bool
    ensures { result ≡ spec.offers_within (waiting_in entries.now) }
{
    entries.iter().any(|entry| is_sender(entry))
}

/// Whether a process waits to send within its node.
fn is_sender(entry: &Entry) -> bool
    ensures { result ≡ option_map_or (λ w. spec.is_sending w.reason) (waiter_of entry.now) false }
{
    match entry.reason {
        Some(Reason::Sends { .. }) => true,
        _ => false,
    }
}

/// Whether one of these processes waits.
fn has_waiting(entries: &[Entry]) -> bool
    ensures { result ≡ nat_lt 0 (length (waiting_in entries.now)) }
{
    entries.iter().any(|entry| is_waiting(entry))
}

/// Whether a process waits.
fn is_waiting(entry: &Entry) -> bool
    ensures { result ≡ is_some (waiter_of entry.now) }
{
    entry.reason.is_some()
}
