//! Mixed code in a memory is decoded from one instruction to the next.

ghost use Rattle.std.specs.Prelude.{◌≡◌, ◌*◌, IfOk};

use crate::answer::{Answer, Fault};
use crate::programs::{SIZE, START};
use std::alloc::Global;
use tcode::{Function, decode, encode, operation_of};
use tword::{Break, Kind, Marks, Memory, Word};

/// How many instructions a turn decodes.
const INSTRUCTIONS: u32 = 1_000;

/// The functions by the numbers of the generator: one in eight is `opr`.
const FUNCTIONS: [Function; 16] = [
    Function::Ldl,
    Function::Stl,
    Function::Ldc,
    Function::Ldlp,
    Function::Adc,
    Function::Ldnl,
    Function::Stnl,
    Function::Opr,
    Function::Ldl,
    Function::Stl,
    Function::J,
    Function::Cj,
    Function::Call,
    Function::Ajw,
    Function::Eqc,
    Function::Opr,
];

/// The next number of a linear congruential generator.
fn next(number: u32) -> u32 {
    number.wrapping_mul(1_664_525).wrapping_add(1_013_904_223)
}

/// An operand: three in four have one digit, the others up to two, three or eight, half of them negative.
fn operand_at(number: u32) -> i32 {
    let digits = number >> 8;
    let value = match number >> 4 & 15 {
        12 => digits & 0xff,
        13 => digits & 0xfff,
        14 => 0u32.wrapping_sub(digits & 0xff),
        15 => 0u32.wrapping_sub(digits & 0xf_ffff),
        _ => digits & 15,
    };
    value.cast_signed()
}

/// An operation's operand: that which is drawn, or `rev` where it is not listed.
fn operation_at(number: u32) -> i32 {
    let drawn = number >> 8 & 0x7f;
    if operation_of(Word::new(drawn), Kind::One).is_some() {
        drawn.cast_signed()
    } else {
        0
    }
}

/// Puts the code into a memory.
fn load(memory: &mut Memory, marks: &Marks) -> Result<(), Break> {
    let mut number = 1u32;
    let mut address = Word::new(START);
    let mut buffer = [0u8; 8];
    for _ in 0..INSTRUCTIONS {
        number = next(number);
        let drawn = number >> 4;
        let function = FUNCTIONS[(drawn & 15) as usize];
        let operand = if let Function::Opr = function {
            operation_at(drawn)
        } else {
            operand_at(drawn)
        };
        let length = encode(function, operand, &mut buffer);
        for byte in buffer[0..length].iter() {
            memory.write_byte(marks, address, *byte)?;
            address = address.plus(Word::new(1));
        }
    }
    Ok(())
}

/// Decodes the code from its first instruction to the last, `turns` times, and adds up functions and operands.
#[inline(never)]
fn sum_of(memory: &Memory, marks: &Marks, turns: u32) -> Result<u32, Break> {
    let mut sum = 0u32;
    for _ in 0..turns {
        let mut iptr = START;
        for _ in 0..INSTRUCTIONS {
            let instruction = decode(memory, marks, Word::new(iptr))?;
            let operand = instruction.operand.get();
            sum = sum.wrapping_add(operand ^ instruction.function as u32);
            iptr = iptr.wrapping_add(u32::from(instruction.length));
        }
    }
    Ok(sum)
}

/// Puts the code into a memory and decodes it `turns` times: the sum.
fn sum_of_code(memory: &mut Memory, marks: &Marks, turns: u32) -> Result<u32, Break> {
    load(memory, marks)?;
    sum_of(memory, marks, turns)
}

/// Decodes the code `turns` times, and answers with the sum.
pub fn decoded(alloc: Global, turns: u32) -> Result<Answer, Fault>
    ensures { IfOk result (λ answer. answer.operations ≡ turns * INSTRUCTIONS) }
{
    let mut memory = Memory::new(alloc, SIZE, Kind::One)?;
    let marks = Marks::new(alloc, SIZE)?;
    let sum = sum_of_code(&mut memory, &marks, turns)?;
    Ok(Answer {
        operations: u64::from(turns) * u64::from(INSTRUCTIONS),
        sum,
    })
}
