//! Small programs on a processor, to which processes are added between steps: each as a script of what is done to it
//! and of what is then seen.

ghost use Rattle.tproc.specs.Opening.{HasNobody};

use crate::fault::{Fault, require};
use std::alloc::Global;
use tproc::{Processor, Ran};
use tword::{Break, Kind, MemoryFault, Word};

/// One line of a script.
#[derive(Clone, Copy)]
enum Line {
    /// A process is let in, with its first address.
    Adds(u32, u32),
    /// So many steps are done, each with this outcome.
    Steps(u32, Ran),
    /// The word of the memory at this address is this one.
    Word(u32, u32),
    /// Iptr of the process that runs is this address.
    Iptr(u32),
}

/// Puts bytes into the memory, if they lie there.
fn put(p: &mut Processor, start: u32, bytes: &[u8]) -> bool
    requires { HasNobody p.old }
    ensures { HasNobody p.new }
{
    let size = p.bytes().len();
    if start < 0x8000_0000 {
        return false;
    }
    let place = (start - 0x8000_0000) as usize;
    if size < place || size - place < bytes.len() {
        return false;
    }
    p.load(Word::new(start), bytes);
    true
}

/// The break of adding a process.
fn add(p: &mut Processor, process: u32, iptr: u32) -> Option<Break> {
    p.add_process(Word::new(process), Word::new(iptr)).err()
}

/// Does a step.
fn step_once(p: &mut Processor) -> Result<Ran, Break> {
    p.run_one()
}

/// Whether `number` steps are done, and each does this.
fn steps(p: &mut Processor, number: u32, ran: Ran) -> bool {
    for _ in 0..number {
        if step_once(p) != Ok(ran) {
            return false;
        }
    }
    true
}

/// The byte at an address.
fn byte(p: &Processor, address: u32) -> Option<u8> {
    p.byte_at(Word::new(address))
}

/// The word at an address.
fn word(p: &Processor, address: u32) -> Option<u32> {
    let mut value = 0u32;
    for i in 0..4u32 {
        value |= u32::from(byte(p, address.wrapping_add(i))?) << (8 * i);
    }
    Some(value)
}

/// Whether a line is done, or seen, as it says.
fn holds(p: &mut Processor, line: &Line) -> bool {
    match line {
        Line::Adds(process, iptr) => add(p, *process, *iptr).is_none(),
        Line::Steps(number, ran) => steps(p, *number, *ran),
        Line::Word(address, value) => word(p, *address) == Some(*value),
        Line::Iptr(value) => p.iptr().get() == *value,
    }
}

/// Whether all lines of a script hold on a processor, one after another.
fn hold(p: &mut Processor, script: &[Line]) -> bool {
    for line in script {
        if !holds(p, line) {
            return false;
        }
    }
    true
}

/// Where a probe stores what it finds; no script uses it otherwise.
const FOUND: u32 = 0x8000_07c0;

/// The code of a low process that is interrupted, at this address.
const LOW: u32 = 0x8000_0080;

/// The code of a high process that interrupts, at this address.
const HIGH: u32 = 0x8000_00a0;

/// `mint; adc 192; mint; adc 131; ldc 6; move; stopp`: moves the probe over the jump.
const MOVER: &[u8] = &[
    0x24, 0xf2, 0x2c, 0x80, 0x24, 0xf2, 0x28, 0x83, 0x46, 0x24, 0xfa, 0x21, 0xf5,
];

/// The probe: `stl 1; testerr; stl 2; stopp`.
const PROBE: &[u8] = &[0xd1, 0x22, 0xf9, 0xd2, 0x21, 0xf5];

/// Puts the code of a low and of a high process, the probe, what moves it, and bytes where probes store what they find.
fn put_all(p: &mut Processor, low: &[u8], high: &[u8]) -> bool
    requires { HasNobody p.old }
    ensures { HasNobody p.new }
{
    put(p, FOUND, &[0xaa; 4])
        && put(p, LOW, low)
        && put(p, HIGH, high)
        && put(p, 0x8000_00b0, MOVER)
        && put(p, 0x8000_00c0, PROBE)
        && put(p, 0x8000_0104, &[0xaa; 8])
}

/// `testerr; stopp`.
const CLEARS_ERROR: &[u8] = &[0x22, 0xf9, 0x21, 0xf5];

/// `seterr; ldc 5`, and a jump to itself.
const JUMPS_TO_ITSELF: &[u8] = &[0x21, 0xf0, 0x45, 0x60, 0x0e];

/// A low process sets Error, loads 5, and then jumps to that very jump. A high one interrupts it, clears Error by
/// `testerr`, and stops. A second one moves a probe over the jump, and stops. So the low one stores A, and then 0 if
/// Error is set, else 1.
const GOES_ON: &[Line] = &[
    Line::Adds(0x8000_0101, LOW),
    Line::Steps(1, Ran::Dispatch),
    Line::Steps(3, Ran::Instruction),
    Line::Adds(0x8000_0200, HIGH),
    Line::Steps(1, Ran::Dispatch),
    Line::Steps(2, Ran::Instruction),
    Line::Steps(1, Ran::Dispatch),
    Line::Iptr(0x8000_0083),
    Line::Word(0x8000_01fc, 0x8000_00a4),
    Line::Adds(0x8000_0300, 0x8000_00b0),
    Line::Steps(1, Ran::Dispatch),
    Line::Steps(7, Ran::Instruction),
    Line::Steps(1, Ran::Dispatch),
    Line::Iptr(0x8000_0083),
    Line::Steps(4, Ran::Instruction),
    Line::Word(0x8000_0104, 5),
    Line::Word(0x8000_0108, 0),
    Line::Word(0x8000_00fc, 0x8000_0089),
    Line::Steps(1, Ran::Idle),
];

// In these a low process sets Error, loads 5, jumps to its next instruction and is interrupted by a high one, which
// clears Error by `testerr`. Then a probe stores what it finds: `mint; stnl 496` stores A, and behind `testerr` 0 if
// Error was set, else 1.

/// `seterr; ldc 5; j 0; mint; stnl 496`.
const STORES_A: &[u8] = &[0x21, 0xf0, 0x45, 0x00, 0x24, 0xf2, 0x21, 0x2f, 0xe0];

const GETS_A_BACK: &[Line] = &[
    Line::Adds(0x8000_0101, LOW),
    Line::Steps(1, Ran::Dispatch),
    Line::Steps(3, Ran::Instruction),
    Line::Adds(0x8000_0200, HIGH),
    Line::Steps(1, Ran::Dispatch),
    Line::Steps(2, Ran::Instruction),
    Line::Steps(1, Ran::Dispatch),
    Line::Steps(2, Ran::Instruction),
    Line::Word(FOUND, 5),
];

/// `seterr; ldc 5; j 0; testerr; mint; stnl 496`.
const STORES_ERROR: &[u8] = &[
    0x21, 0xf0, 0x45, 0x00, 0x22, 0xf9, 0x24, 0xf2, 0x21, 0x2f, 0xe0,
];

const GETS_ERROR_BACK: &[Line] = &[
    Line::Adds(0x8000_0101, LOW),
    Line::Steps(1, Ran::Dispatch),
    Line::Steps(3, Ran::Instruction),
    Line::Adds(0x8000_0200, HIGH),
    Line::Steps(1, Ran::Dispatch),
    Line::Steps(2, Ran::Instruction),
    Line::Steps(1, Ran::Dispatch),
    Line::Steps(3, Ran::Instruction),
    Line::Word(FOUND, 0),
];

/// `seterr; ldc 5; j 0`.
const JUMPS_ON: &[u8] = &[0x21, 0xf0, 0x45, 0x00];

/// `testerr; testerr; mint; stnl 496`.
const LOOKS_AT_ERROR: &[u8] = &[0x22, 0xf9, 0x22, 0xf9, 0x24, 0xf2, 0x21, 0x2f, 0xe0];

const HAS_ERROR_CLEAR: &[Line] = &[
    Line::Adds(0x8000_0101, LOW),
    Line::Steps(1, Ran::Dispatch),
    Line::Steps(3, Ran::Instruction),
    Line::Adds(0x8000_0200, HIGH),
    Line::Steps(1, Ran::Dispatch),
    Line::Steps(4, Ran::Instruction),
    Line::Word(FOUND, 1),
];

/// Where the code of many processes begins: `stopp`.
const MANY: u32 = 0x8000_3000;

/// The low process at the k-th of workspaces that follow one another at this distance.
fn member(first: u32, apart: u32, k: u32) -> u32 {
    first.wrapping_add(apart.wrapping_mul(k)) | 1
}

/// Adds low processes at workspaces with this distance, until one is refused; tells how many were let in, and why no
/// more.
fn crowd(p: &mut Processor, first: u32, apart: u32) -> (u32, Option<Break>) {
    for k in 0..1_000 {
        if let Some(fault) = add(p, member(first, apart, k), MANY) {
            return (k, Some(fault));
        }
    }
    (1_000, None)
}

/// Whether each of `number` queued processes is linked to the next one.
fn are_linked(p: &Processor, first: u32, apart: u32, number: u32) -> bool {
    for k in 0..number {
        let link = member(first, apart, k).wrapping_sub(9);
        if word(p, link) != Some(member(first, apart, k.wrapping_add(1)) ^ 1) {
            return false;
        }
    }
    true
}

/// Whether `number` processes are dispatched, each at its turn, and then stop: `stopp` leaves the next address below
/// the workspace of the process that runs, in place of its first one.
fn stop_in_turn(p: &mut Processor, first: u32, apart: u32, number: u32) -> bool {
    for k in 0..number {
        let saved = member(first, apart, k).wrapping_sub(5);
        let dispatched = step_once(p) == Ok(Ran::Dispatch);
        let started = word(p, saved) == Some(MANY);
        let stopped = step_once(p) == Ok(Ran::Instruction);
        let left = word(p, saved) == Some(0x8000_3002);
        if !dispatched || !started || !stopped || !left {
            return false;
        }
    }
    true
}

/// Whether as many are let in as may live, each linked to the next, and none twice.
fn fill(p: &mut Processor, first: u32, apart: u32) -> bool {
    add(p, first | 1, MANY).is_none()
        && add(p, first | 1, MANY) == Some(Break::AlreadyLive)
        && crowd(p, first.wrapping_add(apart), apart) == (511, Some(Break::TooManyProcesses))
        && are_linked(p, first, apart, 511)
}

/// Whether no more are let in, and nothing was written for the one that was refused.
fn is_full(p: &mut Processor, first: u32, apart: u32) -> bool {
    let next = member(first, apart, 512);
    word(p, next.wrapping_sub(5)) == Some(0)
        && word(p, next.wrapping_sub(9)) == Some(0)
        && word(p, next.wrapping_sub(13)) == Some(0)
        && add(p, first | 1, MANY) == Some(Break::AlreadyLive)
        && add(p, next, MANY) == Some(Break::TooManyProcesses)
}

/// Whether there is room for one more when the first has stopped, but not where another one has its saved words.
fn has_room(p: &mut Processor, first: u32, apart: u32) -> bool {
    let saved = first.wrapping_add(apart).wrapping_add(5);
    stop_in_turn(p, first, apart, 1)
        && add(p, saved, MANY) == Some(Break::SavedWord)
        && add(p, member(first, apart, 512), MANY).is_none()
}

/// Whether all others stop in their turn, and then nobody is left.
fn come_to_rest(p: &mut Processor, first: u32, apart: u32) -> bool {
    stop_in_turn(p, first.wrapping_add(apart), apart, 512) && step_once(p) == Ok(Ran::Idle)
}

/// Whether as many as may live, at workspaces with this distance, come and go as they have to.
fn come_and_go(p: &mut Processor, first: u32, apart: u32) -> bool {
    fill(p, first, apart)
        && is_full(p, first, apart)
        && has_room(p, first, apart)
        && come_to_rest(p, first, apart)
}

/// What is tried on a processor.
#[derive(Clone, Copy)]
enum Trial {
    /// A high process with the second code interrupts a low one with the first, and the script holds.
    Interrupt(&'static [u8], &'static [u8], &'static [Line]),
    /// As many processes as may live come and go: the first workspace, and the distance to the next one.
    Crowd(u32, u32),
}

/// What is tried, and what is wrong if it fails.
const TRIALS: &[(&str, Trial)] = &[
    (
        "an interrupted process does not go on as it was",
        Trial::Interrupt(JUMPS_TO_ITSELF, CLEARS_ERROR, GOES_ON),
    ),
    (
        "an interrupted process does not get A back",
        Trial::Interrupt(STORES_A, CLEARS_ERROR, GETS_A_BACK),
    ),
    (
        "an interrupted process does not get Error back",
        Trial::Interrupt(STORES_ERROR, CLEARS_ERROR, GETS_ERROR_BACK),
    ),
    (
        "a process that interrupts does not have Error clear",
        Trial::Interrupt(JUMPS_ON, LOOKS_AT_ERROR, HAS_ERROR_CLEAR),
    ),
    (
        "not as many processes as may live come and go, 16 bytes apart",
        Trial::Crowd(0x8000_0060, 16),
    ),
    (
        "not as many processes as may live come and go, 12 bytes apart",
        Trial::Crowd(0x8000_0054, 12),
    ),
    (
        "not as many processes as may live come and go, 20 bytes apart",
        Trial::Crowd(0x8000_0100, 20),
    ),
];

/// Whether what is tried on a processor without processes goes well.
fn goes_well(p: &mut Processor, trial: &Trial) -> bool
    requires { HasNobody p.old }
{
    match trial {
        Trial::Interrupt(low, high, script) => put_all(p, low, high) && hold(p, script),
        Trial::Crowd(first, apart) => {
            put(p, MANY, &[0x21, 0xf5]) && come_and_go(p, *first, *apart)
        }
    }
}

/// Tries something on a processor.
fn attempt(alloc: Global, trial: &Trial) -> Result<bool, MemoryFault> {
    let mut p = Processor::new(alloc, 16_384, 1_024, Kind::One)?;
    Ok(goes_well(&mut p, trial))
}

#[test]
fn processes_are_interrupted_and_come_and_go(rt: HostRuntime) -> Result<(), Fault> {
    for (wrong, trial) in TRIALS {
        require(attempt(rt.alloc(), trial)?, wrong)?;
    }
    Ok(())
}
