//! A loop of instructions that touch no other process.

ghost use Rattle.std.specs.Prelude.{◌≡◌, ◌*◌, IfOk, length};

use crate::answer::{Answer, BEGIN, Fault, checksum, mixed};
use crate::programs::{LOOP, SIZE, START};
use std::alloc::Global;
use tcode::decode;
use tcpu::{Next, Registers, local};
use tword::{Break, Kind, Marks, Memory, Word};

/// Where the workspace lies.
const WORKSPACE: u32 = 0x8000_2000;

/// Where the first of the workspaces lies whose words are saved.
const SAVED: u32 = 0x8000_4000;

/// What is claimed while the loop runs.
#[derive(Clone, Copy)]
pub enum Claims {
    Nothing,
    /// Two link buffers, on both sides of all that it touches.
    LinkBuffers,
    /// The words of 500 workspaces.
    SavedWords,
}

/// Saves the words of 500 workspaces.
fn save(marks: &mut Marks) -> Result<(), Break>
    requires { length marks.old.saved ≡ 0 }
{
    for number in 0..500u32 {
        marks.claim_saved(Word::new(SAVED + 64 * number))?;
    }
    Ok(())
}

/// Claims what is to be claimed.
fn claim(marks: &mut Marks, claims: Claims) -> Result<(), Break>
    requires { length marks.old.saved ≡ 0 }
{
    match claims {
        Claims::Nothing => Ok(()),
        Claims::LinkBuffers => {
            marks.claim_in(0, Word::new(0x8000_0060), 4)?;
            marks.claim_in(1, Word::new(0x8001_0000), 4)
        }
        Claims::SavedWords => save(marks),
    }
}

/// Puts the code into a memory.
fn load(memory: &mut Memory, marks: &Marks) -> Result<(), Break> {
    let mut address = Word::new(START);
    for byte in LOOP.iter() {
        memory.write_byte(marks, address, *byte)?;
        address = address.plus(Word::new(1));
    }
    Ok(())
}

/// Does `steps` instructions.
#[inline(never)]
fn run(
    registers: &mut Registers,
    memory: &mut Memory,
    marks: &Marks,
    steps: u64,
) -> Result<(), Break> {
    for _ in 0..steps {
        let instruction = decode(memory, marks, registers.iptr)?;
        match local(registers, memory, marks, instruction)? {
            Next::Go | Next::Jumped => {}
            Next::Schedule(_) | Next::Halt => return Ok(()),
        }
    }
    Ok(())
}

/// The checksum of the registers.
fn sum_of(r: &Registers) -> u32 {
    let flags = u32::from(r.error) + 2 * u32::from(r.halt_on_error);
    let mut sum = BEGIN;
    for word in [
        r.a.get(),
        r.b.get(),
        r.c.get(),
        r.iptr.get(),
        r.wptr.get(),
        flags,
    ] {
        sum = mixed(sum, word);
    }
    sum
}

/// The registers before the first instruction.
fn before() -> Registers {
    let zero = Word::new(0);
    Registers {
        a: zero,
        b: zero,
        c: zero,
        iptr: Word::new(START),
        wptr: Word::new(WORKSPACE),
        error: false,
        halt_on_error: false,
    }
}

/// Does `steps` instructions of the loop among claims: a checksum of registers and memory.
fn sum_after(
    memory: &mut Memory,
    marks: &mut Marks,
    claims: Claims,
    steps: u64,
) -> Result<u32, Break>
    requires { length marks.old.saved ≡ 0 }
{
    load(memory, marks)?;
    claim(marks, claims)?;
    let mut registers = before();
    run(&mut registers, memory, marks, steps)?;
    Ok(checksum(sum_of(&registers), memory.bytes.as_slice()))
}

/// Does `thousands` times 1,000 instructions of the loop, and answers with a checksum of registers and memory.
pub fn looped(alloc: Global, thousands: u32, claims: Claims) -> Result<Answer, Fault>
    ensures { IfOk result (λ answer. answer.operations ≡ thousands * 1000) }
{
    let steps = u64::from(thousands) * 1_000;
    let mut memory = Memory::new(alloc, SIZE, Kind::One)?;
    let mut marks = Marks::new(alloc, SIZE)?;
    let sum = sum_after(&mut memory, &mut marks, claims, steps)?;
    Ok(Answer {
        operations: steps,
        sum,
    })
}
