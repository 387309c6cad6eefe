//! Encoding.

ghost use Rattle.std.specs.Prelude.{◌≡◌, ◌<◌, ◌≤◌, ◌^◌, ◌++◌, pos, length, drop};
ghost use Rattle.tcode.specs.Encoding.{chain, encoding};

use crate::codes::{NFIX, PFIX, code_of};
use crate::instruction::Function;

/// Puts the shortest chain of a code with a whole number at the head of the buffer, and returns its length. The number
/// has at most `most` digits of four bits.
fn put(code: u8, number: u32, most: u8, buffer: &mut [u8; 8]) -> usize
    requires code { code < 16 }
    requires room { most ≤ 8 }
    requires some { 0 < most }
    requires digits { number < 16 ^ most }
    ensures bytes { buffer.new ≡ chain most code (pos number) ++ drop result buffer.old }
    ensures count { result ≡ length (chain most code (pos number)) }
    ensures short { result ≤ most }
{
    let at = if number < 16 {
        0
    } else {
        put(PFIX, number / 16, most - 1, buffer)
    };
    buffer[at] = 16 * code + (number % 16) as u8;
    at + 1
}

/// Puts the shortest chain of bytes that decodes to a function with a signed operand at the head of the buffer, and
/// returns its length; what lies behind it stays. By the recursion of the Compiler Writer's Guide. Eight bytes serve
/// every operand.
pub fn encode(function: Function, operand: i32, buffer: &mut [u8; 8]) -> usize
    ensures bytes { buffer.new ≡ encoding function operand ++ drop result buffer.old }
    ensures count { result ≡ length (encoding function operand) }
    ensures short { result ≤ 8 }
{
    let code = code_of(function);
    if operand >= 0 {
        return put(code, operand.cast_unsigned(), 8, buffer);
    }
    let complement = !operand.cast_unsigned();
    let at = put(NFIX, complement / 16, 7, buffer);
    buffer[at] = 16 * code + (15 - complement % 16) as u8;
    at + 1
}
