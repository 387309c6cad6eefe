//! What is wrong with the nodes of a plan: their memories, their segments and their processes.

ghost use Rattle.std.specs.Prelude.{◌≡◌, ◌++◌, false, fold, OnOk, IfOk};
ghost use Rattle.tproc.specs.Opening.{HasNobody, added, empty_machine, loaded};
ghost use Rattle.tnet.specs.Building.{IsUnstarted};
ghost use Rattle.tnet.specs.Building as build;
ghost use Rattle.tcheck.specs.Wrongs as spec;
ghost use Rattle.tcheck.specs.Wrongs.{each_from};

use crate::finding::add_if;
use crate::flaws::{Flaw, Place, Plenty, Wrong};
use std::alloc::{AllocError, Global};
use tplan::{NodePlan, Process, Segment};
use tproc::Processor;
use tword::limits::{
    LONGEST_TIMESLICE, MEM_START, MOST_NEG, MOST_PROCESSES, MOST_SEGMENTS, SMALLEST_MEMORY,
};
use tword::{MemoryFault, Word};

/// What is wrong with nodes, whose processors have this timeslice.
pub(crate) fn add_nodes_wrongs(
    alloc: Global,
    found: &mut Vec<Wrong>,
    timeslice: u32,
    nodes: &[NodePlan],
) -> Result<(), AllocError>
    ensures { OnOk result (found.new.items ≡ found.old.items ++ each_from (spec.node_wrongs timeslice) 0 nodes.now) }
{
    for (number, node) in nodes.iter().enumerate() {
        add_node_wrongs(alloc, found, timeslice, number, node)?;
    }
    Ok(())
}

/// What is wrong with a node.
fn add_node_wrongs(
    alloc: Global,
    found: &mut Vec<Wrong>,
    timeslice: u32,
    number: usize,
    node: &NodePlan,
) -> Result<(), AllocError>
    ensures { OnOk result (found.new.items ≡ found.old.items ++ spec.node_wrongs timeslice number node.now) }
{
    let place = Place::Node(number);
    let segments = node.image.segments.as_slice().len();
    let processes = node.image.processes.as_slice().len();
    let many_segments = Flaw::TooMany(Plenty::Segments, segments);
    let many_processes = Flaw::TooMany(Plenty::Processes, processes);
    add_if(found, segments > MOST_SEGMENTS, place, many_segments)?;
    add_if(found, processes > MOST_PROCESSES, place, many_processes)?;
    add_memory_wrongs(alloc, found, timeslice, number, node)
}

/// Whether a memory has a size that none of its node's kind may have.
fn is_bad_size(node: &NodePlan) -> bool
    ensures { result ≡ build.is_bad_size node.now }
{
    node.memory < SMALLEST_MEMORY
        || node.memory > node.kind.largest_memory()
        || node.memory % 4 != 0
}

/// Whether a timeslice is none that a processor may have.
pub(crate) fn is_bad_timeslice(timeslice: u32) -> bool
    ensures { result ≡ build.is_bad_timeslice timeslice }
{
    timeslice < 1 || timeslice > LONGEST_TIMESLICE
}

/// What is wrong with the memory of a node, or else with what it holds.
fn add_memory_wrongs(
    alloc: Global,
    found: &mut Vec<Wrong>,
    timeslice: u32,
    number: usize,
    node: &NodePlan,
) -> Result<(), AllocError>
    ensures { OnOk result (found.new.items ≡ found.old.items ++ spec.memory_wrongs timeslice number node.now) }
{
    if is_bad_size(node) {
        let place = Place::Node(number);
        let flaw = Flaw::BadSize(node.memory, node.kind);
        found.push(Wrong { place, flaw })?;
        return Ok(());
    }
    add_held_wrongs(alloc, found, timeslice, number, node)
}

/// What is wrong with the segments and processes of a node.
fn add_held_wrongs(
    alloc: Global,
    found: &mut Vec<Wrong>,
    timeslice: u32,
    number: usize,
    node: &NodePlan,
) -> Result<(), AllocError>
    requires { build.is_bad_size node.now ≡ false }
    ensures { OnOk result (found.new.items ≡ found.old.items ++ spec.held_wrongs timeslice number node.now) }
{
    add_segments_wrongs(found, node.memory, number, node.image.segments.as_slice())?;
    let mut processor = tried_processor(alloc, timeslice, node)?;
    add_processes_wrongs(
        found,
        &mut processor,
        number,
        node.image.processes.as_slice(),
    )
}

/// What is wrong with the segments of a node, whose memory has `memory` bytes.
fn add_segments_wrongs(
    found: &mut Vec<Wrong>,
    memory: u32,
    node: usize,
    segments: &[Segment],
) -> Result<(), AllocError>
    ensures { OnOk result
        (found.new.items ≡ found.old.items ++ each_from (spec.segment_wrongs memory node) 0 segments.now) }
{
    for (number, segment) in segments.iter().enumerate() {
        add_segment_wrong(found, memory, node, number, segment)?;
    }
    Ok(())
}

/// Whether a segment does not lie in the memory that programs may use.
fn is_bad_segment(memory: u32, segment: &Segment) -> bool
    ensures { result ≡ build.is_bad_segment memory segment.now }
{
    let size = segment.bytes.as_slice().len() as u64;
    let start = u64::from(segment.address.get());
    size != 0
        && (start < u64::from(MEM_START)
            || size > u64::from(memory)
            || start - u64::from(MOST_NEG) > u64::from(memory) - size)
}

/// What is wrong with a segment of a node.
fn add_segment_wrong(
    found: &mut Vec<Wrong>,
    memory: u32,
    node: usize,
    number: usize,
    segment: &Segment,
) -> Result<(), AllocError>
    ensures { OnOk result (found.new.items ≡ found.old.items ++ spec.segment_wrongs memory node number segment.now) }
{
    let flaw = Flaw::BadSegment {
        segment: number,
        address: segment.address,
        size: segment.bytes.as_slice().len(),
        memory,
    };
    add_if(
        found,
        is_bad_segment(memory, segment),
        Place::Node(node),
        flaw,
    )
}

/// The timeslice with which processes are tried: 1, where that of the plan is none.
fn tried_timeslice(timeslice: u32) -> u32
    ensures value { result ≡ spec.tried_timeslice timeslice }
    ensures good { build.is_bad_timeslice result ≡ false }
{
    if is_bad_timeslice(timeslice) {
        1
    } else {
        timeslice
    }
}

/// The processor to which the processes of a node are tried to be added: its memory has the segments that lie in it.
fn tried_processor(alloc: Global, timeslice: u32, node: &NodePlan) -> Result<Processor, AllocError>
    requires { build.is_bad_size node.now ≡ false }
    ensures { IfOk result (λ processor. processor ≡ spec.tried_machine timeslice node.now) }
{
    let mut processor = empty_processor(alloc, tried_timeslice(timeslice), node)?;
    load_segments(&mut processor, node.memory, node.image.segments.as_slice());
    Ok(processor)
}

/// The processor of a node, before anything is in its memory.
fn empty_processor(alloc: Global, timeslice: u32, node: &NodePlan) -> Result<Processor, AllocError>
    requires timeslice { build.is_bad_timeslice timeslice ≡ false }
    requires size { build.is_bad_size node.now ≡ false }
    ensures machine { IfOk result (λ p. p ≡ empty_machine node.now.memory timeslice node.now.kind) }
    ensures unstarted { IfOk result (λ p. IsUnstarted node.now.memory p) }
{
    match Processor::new(alloc, node.memory, timeslice, node.kind) {
        Ok(processor) => Ok(processor),
        Err(MemoryFault::OutOfMemory) => Err(AllocError),
        Err(MemoryFault::BadSize) => unreachable!(),
    }
}

/// Segments are loaded in their order, later over earlier, those that lie in the memory.
fn load_segments(processor: &mut Processor, memory: u32, segments: &[Segment])
    requires unstarted { IsUnstarted memory processor.old }
    requires nobody { HasNobody processor.old }
    ensures { processor.new ≡ fold (spec.loaded_if memory) processor.old segments.now }
{
    for segment in segments {
        load_if(processor, memory, segment);
    }
}

/// A segment is loaded, where it lies in the memory.
fn load_if(processor: &mut Processor, memory: u32, segment: &Segment)
    requires unstarted { IsUnstarted memory processor.old }
    requires nobody { HasNobody processor.old }
    ensures loaded { processor.new ≡ spec.loaded_if memory processor.old segment.now }
    ensures still { IsUnstarted memory processor.new }
    ensures nobody { HasNobody processor.new }
{
    if !is_bad_segment(memory, segment) {
        load_bytes(processor, memory, segment.address, segment.bytes.as_slice());
    }
}

/// The bytes of one segment are loaded.
fn load_bytes(processor: &mut Processor, memory: u32, start: Word, bytes: &[u8])
    requires fit { build.is_bad_segment memory (record { address = start; bytes = bytes.now }) ≡ false }
    requires unstarted { IsUnstarted memory processor.old }
    requires nobody { HasNobody processor.old }
    ensures loaded { processor.new ≡ loaded start bytes.now processor.old }
    ensures still { IsUnstarted memory processor.new }
{
    processor.load(start, bytes);
}

/// The processes of a node that are refused, where those before them that are not refused have been added.
fn add_processes_wrongs(
    found: &mut Vec<Wrong>,
    processor: &mut Processor,
    node: usize,
    processes: &[Process],
) -> Result<(), AllocError>
    ensures { OnOk result
        (found.new.items ≡ found.old.items ++ spec.process_wrongs node 0 processes.now processor.old) }
{
    for (number, process) in processes.iter().enumerate() {
        add_process_wrong(found, processor, node, number, process)?;
    }
    Ok(())
}

/// A process of a node is added to its processor, or refused.
fn add_process_wrong(
    found: &mut Vec<Wrong>,
    processor: &mut Processor,
    node: usize,
    number: usize,
    process: &Process,
) -> Result<(), AllocError>
    ensures found { OnOk result (found.new.items ≡ found.old.items
        ++ spec.refused node number process.now (added process.now.wdesc process.now.iptr processor.old)) }
    ensures left { OnOk result (processor.new
        ≡ spec.left_by processor.old (added process.now.wdesc process.now.iptr processor.old)) }
{
    match processor.add_process(process.wdesc, process.iptr) {
        Ok(()) => Ok(()),
        Err(broken) => {
            let flaw = Flaw::BadProcess {
                process: number,
                descriptor: process.wdesc,
                broken,
            };
            let place = Place::Node(node);
            found.push(Wrong { place, flaw })?;
            Ok(())
        }
    }
}
