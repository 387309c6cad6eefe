//! Operations and functions on registers at all boundary values, against digests that another program works out.

use crate::fault::Fault;
use std::alloc::Global;
use tcode::{Function, Instruction};
use tcpu::{Next, Registers, local};
use tword::{Kind, Marks, Memory, Word};

/// Boundary values of an operand.
const VALUES: &[u32] = &[
    0,
    1,
    2,
    31,
    32,
    63,
    64,
    0x7fff_ffff,
    0x8000_0000,
    0x8000_0001,
    0xffff_fffe,
    0xffff_ffff,
];

/// An instruction at boundary values: what it is, and the digest of what it does.
type Row = (&'static str, Tried, u64);

/// What is tried at boundary values.
#[derive(Clone, Copy)]
enum Tried {
    /// An operation by its code, at values of A, B and C.
    Code(u32),
    /// A function at values of A, B and the operand.
    With(Function),
}

/// What the operations on registers do at all stacks of boundary values and all flags: name, code, and the digest that
/// `tests/reference/boundary` works out from the tables of the instruction set.
const OPERATIONS: &[Row] = &[
    ("rev", Tried::Code(0x00), 0xe17a_ca9f_22a1_7c80),
    ("bsub", Tried::Code(0x02), 0xbdc5_a15a_073c_eb00),
    ("diff", Tried::Code(0x04), 0x79ce_c3a5_3df3_4e00),
    ("add", Tried::Code(0x05), 0x92c5_9695_2bdd_bb48),
    ("prod", Tried::Code(0x08), 0x2289_10bb_abbc_7e40),
    ("gt", Tried::Code(0x09), 0x19cc_550e_e719_8220),
    ("wsub", Tried::Code(0x0a), 0x35be_96db_a4dc_d680),
    ("sub", Tried::Code(0x0c), 0x051a_fad3_7bc0_f608),
    ("seterr", Tried::Code(0x10), 0x21a6_9c83_7179_e800),
    ("csub0", Tried::Code(0x13), 0xeee6_857c_4b8f_5c10),
    ("ladd", Tried::Code(0x16), 0x93c9_c6c8_32a2_fed0),
    ("norm", Tried::Code(0x19), 0x87a4_8ec1_0def_bfd0),
    ("ldiv", Tried::Code(0x1a), 0xb118_fb62_8d73_66c8),
    ("ldpi", Tried::Code(0x1b), 0xbd4b_edb5_7fdc_8e80),
    ("xdble", Tried::Code(0x1d), 0xa6c5_5847_673f_f400),
    ("rem", Tried::Code(0x1f), 0xef9c_c8af_0d4a_3520),
    ("testpranal", Tried::Code(0x2a), 0x2ada_f39d_b969_ce00),
    ("div", Tried::Code(0x2c), 0x2b34_fc43_0d2d_dd38),
    ("lmul", Tried::Code(0x31), 0x878b_fb30_3a50_a820),
    ("not", Tried::Code(0x32), 0x8e06_06b9_450a_5680),
    ("xor", Tried::Code(0x33), 0x7000_da0c_3f58_b200),
    ("bcnt", Tried::Code(0x34), 0x16b5_8e47_d3ec_e800),
    ("lshr", Tried::Code(0x35), 0x1fa6_260a_647f_7c20),
    ("lshl", Tried::Code(0x36), 0xbb7b_f6b0_ea14_a530),
    ("lsum", Tried::Code(0x37), 0x6e32_5e9f_6649_9550),
    ("lsub", Tried::Code(0x38), 0x6bd8_1bea_48fc_3188),
    ("xword", Tried::Code(0x3a), 0xf639_4d4c_83b2_af80),
    ("wcnt", Tried::Code(0x3f), 0x9bd9_fcfa_bddc_1340),
    ("shr", Tried::Code(0x40), 0xe170_4f03_65f0_da90),
    ("shl", Tried::Code(0x41), 0xcc17_87a1_e03c_1120),
    ("mint", Tried::Code(0x42), 0x76b0_381d_b969_ce00),
    ("and", Tried::Code(0x46), 0x5761_0250_a754_ea80),
    ("or", Tried::Code(0x4b), 0x9efe_8f13_234a_ce80),
    ("csngl", Tried::Code(0x4c), 0xe937_b430_e75e_3460),
    ("ccnt1", Tried::Code(0x4d), 0xe5f3_60dc_571e_fc10),
    ("ldiff", Tried::Code(0x4f), 0xd650_4493_85fb_1380),
    ("sum", Tried::Code(0x52), 0xbdc5_a15a_073c_eb00),
    ("mul", Tried::Code(0x53), 0x6305_097d_4a81_a5c8),
    ("cword", Tried::Code(0x56), 0x0648_1d54_ef02_e350),
    ("dup", Tried::Code(0x5a), 0xc0e3_2de8_1e0e_9c80),
    ("testerr", Tried::Code(0x29), 0x1241_a9c0_eff9_4a00),
    ("clrhalterr", Tried::Code(0x57), 0x97a2_d141_6bd2_1f00),
    ("sethalterr", Tried::Code(0x58), 0x2593_b65a_433d_8a00),
    ("testhalterr", Tried::Code(0x59), 0x66f5_8ecb_7290_ca80),
];

/// What the functions on registers do at boundary values of A, B and the operand, as its digest.
const FUNCTIONS: &[Row] = &[
    ("j", Tried::With(Function::J), 0xc69e_dd1e_ede6_c780),
    ("ldlp", Tried::With(Function::Ldlp), 0xe895_a99c_6156_8800),
    ("ldc", Tried::With(Function::Ldc), 0xa789_8d51_8e20_7c80),
    ("ldnlp", Tried::With(Function::Ldnlp), 0xb5d5_f5fd_285a_5300),
    ("adc", Tried::With(Function::Adc), 0xd171_7edb_06a7_95c8),
    ("cj", Tried::With(Function::Cj), 0xe651_29ba_b48a_d520),
    ("ajw", Tried::With(Function::Ajw), 0x9c9d_9bd1_81f3_b300),
    ("eqc", Tried::With(Function::Eqc), 0x3792_83e3_d493_ab40),
];

/// Registers before an instruction of two bytes at #80000100.
fn before(a: u32, b: u32, c: u32) -> Registers {
    Registers {
        a: Word::new(a),
        b: Word::new(b),
        c: Word::new(c),
        iptr: Word::new(0x8000_0100),
        wptr: Word::new(0x8000_0200),
        error: false,
        halt_on_error: false,
    }
}

/// An instruction of two bytes.
fn instruction(function: Function, operand: u32) -> Instruction {
    Instruction {
        function,
        operand: Word::new(operand),
        length: 2,
    }
}

/// What follows, as `tests/reference/boundary` numbers it.
fn number_of(next: Next) -> u32 {
    match next {
        Next::Go => 0,
        Next::Jumped => 1,
        Next::Halt => 2,
        Next::Schedule(_) => 3,
    }
}

/// The digest with one more word.
fn with_word(digest: u64, word: u32) -> u64 {
    digest
        .wrapping_mul(0x100_0000_01b3)
        .wrapping_add(u64::from(word))
}

/// The digest with what an instruction makes of a stack and two flags.
fn with_outcome(
    digest: u64,
    memory: &mut Memory,
    marks: &Marks,
    stack: [u32; 3],
    flags: u32,
    done: Instruction,
) -> u64 {
    let mut registers = before(stack[0], stack[1], stack[2]);
    registers.error = flags / 2 == 1;
    registers.halt_on_error = flags % 2 == 1;
    let follows = match local(&mut registers, memory, marks, done) {
        Ok(next) => number_of(next),
        Err(_) => 4,
    };
    let mut digest = with_word(digest, registers.a.get());
    digest = with_word(digest, registers.b.get());
    digest = with_word(digest, registers.c.get());
    digest = with_word(digest, registers.iptr.get());
    digest = with_word(digest, registers.wptr.get());
    digest = with_word(digest, follows);
    digest = with_word(digest, u32::from(registers.error));
    with_word(digest, u32::from(registers.halt_on_error))
}

/// C of what is tried at a third value: the value for an operation.
fn c_of(it: Tried, value: u32) -> u32 {
    match it {
        Tried::Code(_) => value,
        Tried::With(_) => 7,
    }
}

/// The instruction that is tried at a third value: the operand of a function.
fn instruction_of(it: Tried, value: u32) -> Instruction {
    match it {
        Tried::Code(code) => instruction(Function::Opr, code),
        Tried::With(function) => instruction(function, value),
    }
}

/// The digest of an instruction at all boundary values.
fn digest_of(memory: &mut Memory, marks: &Marks, it: Tried) -> u64 {
    let mut digest = 0;
    for a in VALUES {
        for b in VALUES {
            for value in VALUES {
                let stack = [*a, *b, c_of(it, *value)];
                for flags in 0..4 {
                    digest = with_outcome(
                        digest,
                        memory,
                        marks,
                        stack,
                        flags,
                        instruction_of(it, *value),
                    );
                }
            }
        }
    }
    digest
}

/// Whether each instruction does what it has to do; else the name of the first that does not.
fn agree(memory: &mut Memory, marks: &Marks, rows: &[Row]) -> Result<(), Fault> {
    for (name, tried, digest) in rows {
        if digest_of(memory, marks, *tried) != *digest {
            return Err(Fault::Wrong(name));
        }
    }
    Ok(())
}

/// Tries instructions on a node of a kind.
fn attempt(alloc: Global, kind: Kind, rows: &[Row]) -> Result<(), Fault> {
    let mut memory = Memory::new(alloc, 2_048, kind)?;
    let marks = Marks::new(alloc, 2_048)?;
    agree(&mut memory, &marks, rows)
}

#[test]
fn operations_agree_at_the_boundaries(rt: HostRuntime) -> Result<(), Fault> {
    attempt(rt.alloc(), Kind::Two, OPERATIONS)
}

#[test]
fn functions_agree_at_the_boundaries(rt: HostRuntime) -> Result<(), Fault> {
    attempt(rt.alloc(), Kind::One, FUNCTIONS)
}
