//! Programs on a whole processor.

ghost use Rattle.std.specs.Prelude.{◌≡◌, ◌*◌, IfOk};
ghost use Rattle.tproc.specs.Opening.{HasNobody};

use crate::answer::{Answer, BEGIN, Fault, checksum, mixed};
use crate::programs::{IDLE, LOOP, PING, PONG, SIZE, START, WAIT};
use std::alloc::Global;
use tproc::{Processor, Ran};
use tword::{Break, Kind, Word};

const IDLE_CODE: u32 = 0x8000_0100;

const WAIT_CODE: u32 = 0x8000_0110;

const PING_CODE: u32 = 0x8000_0120;

const PONG_CODE: u32 = 0x8000_0140;

const PING_BUFFER: u32 = 0x8000_1000;

const PONG_BUFFER: u32 = 0x8000_1400;

const FIRST_CHANNEL: u32 = 0x8000_1800;

const SECOND_CHANNEL: u32 = 0x8000_1804;

const WORKSPACE: u32 = 0x8000_2000;

const PARTNER: u32 = 0x8000_2200;

const CROWD: u32 = 0x8000_4000;

/// What a channel word holds that nobody waits for.
const NOT_PROCESS: u32 = 0x8000_0000;

/// Which processes there are beside those that do the job.
#[derive(Clone, Copy)]
pub enum Others {
    Nobody,
    Queued(u16),
    Waiting(u16),
}

/// What the processes do.
#[derive(Clone, Copy)]
pub enum Job {
    /// The loop of instructions that touch no other process, in a high process.
    Loop(Others),
    /// This number of low processes yield at each instruction.
    Switch(u16),
    /// Two processes send messages of this length back and forth.
    Message(u32, Others),
}

/// Puts bytes into the memory.
///
/// # Errors
/// `BadAddress` where they do not lie in it.
fn put(p: &mut Processor, start: u32, bytes: &[u8]) -> Result<(), Break>
    requires { HasNobody p.old }
    ensures { HasNobody p.new }
{
    let size = p.bytes().len();
    if start < 0x8000_0000 {
        return Err(Break::BadAddress);
    }
    let place = (start - 0x8000_0000) as usize;
    if size < place || size - place < bytes.len() {
        return Err(Break::BadAddress);
    }
    p.load(Word::new(start), bytes);
    Ok(())
}

/// Puts words into the memory.
fn put_words(p: &mut Processor, start: u32, words: &[u32]) -> Result<(), Break>
    requires { HasNobody p.old }
    ensures { HasNobody p.new }
{
    let mut address = start;
    for word in words {
        put(p, address, &word.to_le_bytes())?;
        address = address.wrapping_add(4);
    }
    Ok(())
}

/// Puts all programs into the memory, and the channels.
fn load(p: &mut Processor) -> Result<(), Break>
    requires { HasNobody p.old }
    ensures { HasNobody p.new }
{
    put(p, START, &LOOP)?;
    put(p, IDLE_CODE, &IDLE)?;
    put(p, WAIT_CODE, &WAIT)?;
    put(p, PING_CODE, &PING)?;
    put(p, PONG_CODE, &PONG)?;
    put_words(p, FIRST_CHANNEL, &[NOT_PROCESS, NOT_PROCESS])
}

/// Adds low processes that run this code.
fn crowd(p: &mut Processor, count: u16, iptr: u32) -> Result<(), Break> {
    let mut process = Word::new(CROWD + 1);
    for _ in 0..count {
        p.add_process(process, Word::new(iptr))?;
        process = process.plus(Word::new(64));
    }
    Ok(())
}

/// Adds the others, and lets those that are to wait reach that point.
fn add_others(p: &mut Processor, others: Others) -> Result<(), Break> {
    match others {
        Others::Nobody => {}
        Others::Queued(count) => crowd(p, count, IDLE_CODE)?,
        Others::Waiting(count) => {
            crowd(p, count, WAIT_CODE)?;
            let _dispatches = run(p, 7 * u64::from(count))?;
        }
    }
    Ok(())
}

/// The processes of a job begin.
fn prepare(p: &mut Processor, job: Job) -> Result<(), Break>
    requires { HasNobody p.old }
{
    load(p)?;
    match job {
        Job::Loop(others) => {
            add_others(p, others)?;
            // High, so that those that are queued stay there.
            p.add_process(Word::new(WORKSPACE), Word::new(START))
        }
        Job::Switch(count) => crowd(p, count, IDLE_CODE),
        Job::Message(length, others) => {
            put_words(
                p,
                WORKSPACE,
                &[FIRST_CHANNEL, SECOND_CHANNEL, PING_BUFFER, length],
            )?;
            put_words(
                p,
                PARTNER,
                &[FIRST_CHANNEL, SECOND_CHANNEL, PONG_BUFFER, length],
            )?;
            add_others(p, others)?;
            p.add_process(Word::new(WORKSPACE + 1), Word::new(PING_CODE))?;
            p.add_process(Word::new(PARTNER + 1), Word::new(PONG_CODE))
        }
    }
}

/// Does `steps` steps, and answers how many processes were dispatched.
#[inline(never)]
fn run(p: &mut Processor, steps: u64) -> Result<u32, Break> {
    let mut dispatches = 0u32;
    for _ in 0..steps {
        if let Ran::Dispatch = p.run_one()? {
            dispatches = dispatches.wrapping_add(1);
        }
    }
    Ok(dispatches)
}

/// Does `steps` steps of a job: a checksum of the memory.
fn sum_after(p: &mut Processor, job: Job, steps: u64) -> Result<u32, Break>
    requires { HasNobody p.old }
{
    prepare(p, job)?;
    let dispatches = run(p, steps)?;
    Ok(checksum(mixed(BEGIN, dispatches), p.bytes()))
}

/// Does `thousands` times 1,000 steps of a job, and answers with a checksum of the memory.
pub fn worked(alloc: Global, thousands: u32, job: Job) -> Result<Answer, Fault>
    ensures { IfOk result (λ answer. answer.operations ≡ thousands * 1000) }
{
    let steps = u64::from(thousands) * 1_000;
    let timeslice = if let Job::Switch(_) = job { 1 } else { 1_024 };
    let mut p = Processor::new(alloc, SIZE, timeslice, Kind::One)?;
    let sum = sum_after(&mut p, job, steps)?;
    Ok(Answer {
        operations: steps,
        sum,
    })
}
