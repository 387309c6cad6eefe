//! The addresses that every memory shares, and the limits of nodes and nets: one name each.

/// The lowest address, as its unsigned reading, where a memory begins and the channels of links lie (the Compiler
/// Writer's Guide: MostNeg).
pub const MOST_NEG: u32 = 0x8000_0000;

/// The lowest address that programs may use, as its unsigned reading (the Compiler Writer's Guide: MemStart).
pub const MEM_START: u32 = 0x8000_0048;

/// How many bytes from the lowest address on are closed to programs.
pub(crate) const CLOSED: u32 = MEM_START - MOST_NEG;

/// The least number of bytes of a memory (own choice).
pub const SMALLEST_MEMORY: u32 = 2_048;

/// The greatest number of bytes of a memory of kind 1 (own choice).
pub const LARGEST_MEMORY_ONE: u32 = 1_048_576;

/// The greatest number of bytes of a memory of kind 2 (own choice).
pub const LARGEST_MEMORY_TWO: u32 = 16_777_216;

/// How many processes a node has at most, of an image too (own choice).
pub const MOST_PROCESSES: usize = 512;

/// How many segments an image has at most (own choice).
pub const MOST_SEGMENTS: usize = 4_096;

/// How many nodes a net has at most (own choice).
pub const MOST_NODES: usize = 64;

/// How many wires a net has at most (own choice): each of its nodes has four links.
pub const MOST_WIRES: usize = 128;

/// How many workers share a net at most (own choice).
pub const MOST_WORKERS: usize = 64;

/// How many steps a timeslice has at most (own choice).
pub const LONGEST_TIMESLICE: u32 = 65_536;

/// How many Runs a slice of a round or turn has at most (own choice).
pub const LONGEST_SLICE: u32 = 65_536;

/// How many holds some rounds have at most (own choice).
pub const MOST_HOLDS: usize = 256;

/// How many messages a source has at most (own choice).
pub const MOST_MESSAGES: usize = 256;

/// How many bytes a message of a source has at most (own choice).
pub const LONGEST_MESSAGE: usize = 4_096;

/// How many bytes a sink takes at most (own choice).
pub const LARGEST_CAPACITY: u32 = 65_536;

/// How many bytes of a file are read at most (own choice): 1 GiB.
pub const LONGEST_FILE: usize = 1_073_741_824;
