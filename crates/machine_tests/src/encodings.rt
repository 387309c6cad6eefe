//! The shortest bytes of operands, worked out by hand.

use crate::fault::{Fault, require};
use tcode::{Function, encode};

/// Functions and operands, with their bytes.
const ROWS: &[(Function, i32, &[u8])] = &[
    (Function::Ldc, 0, &[0x40]),
    (Function::Ldc, 15, &[0x4f]),
    (Function::Ldc, 16, &[0x21, 0x40]),
    (Function::Ldc, 255, &[0x2f, 0x4f]),
    (Function::Ldc, -1, &[0x60, 0x4f]),
    (Function::Ldc, -16, &[0x60, 0x40]),
    (Function::Ldc, -17, &[0x61, 0x4f]),
    (
        Function::Ldc,
        i32::MIN,
        &[0x27, 0x2f, 0x2f, 0x2f, 0x2f, 0x2f, 0x6f, 0x40],
    ),
    // `dup`
    (Function::Opr, 0x5a, &[0x25, 0xfa]),
];

/// Whether an operand has these bytes.
fn is_encoded(function: Function, operand: i32, bytes: &[u8]) -> bool {
    let mut buffer = [0xaa; 8];
    let length = encode(function, operand, &mut buffer);
    &buffer[0..length] == bytes
}

/// Whether all operands have their bytes.
fn are_encoded() -> bool {
    for (function, operand, bytes) in ROWS {
        if !is_encoded(*function, *operand, bytes) {
            return false;
        }
    }
    true
}

#[test]
fn encodings_are_shortest() -> Result<(), Fault> {
    require(are_encoded(), "an operand has other bytes")
}
