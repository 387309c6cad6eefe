//! The programs that the benchmarks run.

/// Where the code lies.
pub const START: u32 = 0x8000_0080;

/// How many bytes a node has.
pub const SIZE: u32 = 131_072;

/// Goes over an array of 64 words: adds each to a sum and puts the sum back, and then takes the sum's complement in
/// part, or calls a procedure on it. Its workspace has the index, the count, the sum, a pointer, and from word 16 on
/// the array.
#[rattlefmt::skip]
pub const LOOP: [u8; 50] = [
    // start:
    0x40, // ldc 0
    0xd0, // stl 0
    0x24, 0x40, // ldc 64
    0xd1, // stl 1
    // loop:
    0x70, // ldl 0
    0x21, 0x10, // ldlp 16
    0xfa, // wsub
    0xd3, // stl 3
    0x73, // ldl 3
    0x30, // ldnl 0
    0x83, // adc 3
    0x72, // ldl 2
    0x25, 0xf2, // sum
    0xd2, // stl 2
    0x72, // ldl 2
    0x73, // ldl 3
    0xe0, // stnl 0
    0x70, // ldl 0
    0x41, // ldc 1
    0x24, 0xf6, // and
    0xa6, // cj even
    0x72, // ldl 2
    0x45, // ldc 5
    0x23, 0xf3, // xor
    0xd2, // stl 2
    0x03, // j next
    // even:
    0x72, // ldl 2
    0x98, // call half
    0xd2, // stl 2
    // next:
    0x10, // ldlp 0
    0x22, 0x42, // ldc 34
    0x22, 0xf1, // lend
    0x62, 0x07, // j start
    // half:
    0x71, // ldl 1
    0x41, // ldc 1
    0x24, 0xf0, // shr
    0x11, // ldlp 1
    0x30, // ldnl 0
    0xf4, // diff
    0x22, 0xf0, // ret
];

/// Jumps to itself.
pub const IDLE: [u8; 2] = [0x60, 0x0e];

/// Waits for ever for a message on a channel of its own, word 5.
#[rattlefmt::skip]
pub const WAIT: [u8; 7] = [
    0x24, 0xf2, // mint
    0xd5, // stl 5
    0x14, // ldlp 4
    0x15, // ldlp 5
    0x44, // ldc 4
    0xf7, // in
];

/// Counts up in a buffer, sends it and receives it, again and again. The workspace has the channel for sending, that
/// for receiving, the buffer and the length.
#[rattlefmt::skip]
pub const PING: [u8; 15] = [
    // again:
    0x72, 0x30, 0x81, 0x72, 0xe0, // ldl 2; ldnl 0; adc 1; ldl 2; stnl 0
    0x72, 0x70, 0x73, 0xfb, // ldl 2; ldl 0; ldl 3; out
    0x72, 0x71, 0x73, 0xf7, // ldl 2; ldl 1; ldl 3; in
    0x60, 0x01, // j again
];

/// Receives a buffer and sends it back, again and again. The workspace has the channel for receiving, that for
/// sending, the buffer and the length.
#[rattlefmt::skip]
pub const PONG: [u8; 10] = [
    // again:
    0x72, 0x70, 0x73, 0xf7, // ldl 2; ldl 0; ldl 3; in
    0x72, 0x71, 0x73, 0xfb, // ldl 2; ldl 1; ldl 3; out
    0x60, 0x06, // j again
];

/// Counts up in a buffer, sends it and receives it, a given number of times, and stops. The workspace has the channel
/// for sending, that for receiving, the buffer, the length, and from word 4 on the index and the number of times.
#[rattlefmt::skip]
pub const COUNTED_PING: [u8; 20] = [
    // again:
    0x72, 0x30, 0x81, 0x72, 0xe0, // ldl 2; ldnl 0; adc 1; ldl 2; stnl 0
    0x72, 0x70, 0x73, 0xfb, // ldl 2; ldl 0; ldl 3; out
    0x72, 0x71, 0x73, 0xf7, // ldl 2; ldl 1; ldl 3; in
    0x14, 0x21, 0x42, 0x22, 0xf1, // ldlp 4; ldc 18; lend again
    0x21, 0xf5, // stopp
];

/// Receives a buffer and sends it back, a given number of times, and stops. The workspace has the channel for
/// receiving, that for sending, the buffer, the length, and from word 4 on the index and the number of times.
#[rattlefmt::skip]
pub const COUNTED_PONG: [u8; 14] = [
    // again:
    0x72, 0x70, 0x73, 0xf7, // ldl 2; ldl 0; ldl 3; in
    0x72, 0x71, 0x73, 0xfb, // ldl 2; ldl 1; ldl 3; out
    0x14, 0x4c, 0x22, 0xf1, // ldlp 4; ldc 12; lend again
    0x21, 0xf5, // stopp
];
