//! The codes and names of functions and operations, each in one table.

ghost use Rattle.std.specs.Prelude.{◌≡◌, ◌<◌, None};
ghost use Rattle.tword.specs.declared.kind.Kind.TheVariants.{One};
ghost use Rattle.tcode.specs.Table.{any_operation_at, function_at, function_entry, operation_at, operation_entry};

use crate::instruction::{Function, Operation};
use tword::{Kind, Word};

/// The code of the prefix that shifts.
pub(crate) const PFIX: u8 = 0x2;

/// The code of the prefix that complements and shifts.
pub(crate) const NFIX: u8 = 0x6;

/// Calls a macro with the functions that are no prefix, each with its code and its name, behind what it is given.
macro_rules! functions {
    ($call:ident $given:tt) => {
        $call!($given
            0x0 J "j",
            0x1 Ldlp "ldlp",
            0x3 Ldnl "ldnl",
            0x4 Ldc "ldc",
            0x5 Ldnlp "ldnlp",
            0x7 Ldl "ldl",
            0x8 Adc "adc",
            0x9 Call "call",
            0xa Cj "cj",
            0xb Ajw "ajw",
            0xc Eqc "eqc",
            0xd Stl "stl",
            0xe Stnl "stnl",
            0xf Opr "opr",
        )
    };
}

/// Calls a macro with the operations that every kind of node has, each with its code and its name, behind what it is
/// given: by the tables of the Compiler Writer's Guide, without timers, floating support and the surgery of queues and
/// channels. Behind a semicolon stand those that only kind 2 has: `dup` of the T425 and the T800.
macro_rules! operations {
    ($call:ident $given:tt) => {
        $call!($given
            0x00 Rev "rev",
            0x01 Lb "lb",
            0x02 Bsub "bsub",
            0x03 Endp "endp",
            0x04 Diff "diff",
            0x05 Add "add",
            0x06 Gcall "gcall",
            0x07 In "in",
            0x08 Prod "prod",
            0x09 Gt "gt",
            0x0a Wsub "wsub",
            0x0b Out "out",
            0x0c Sub "sub",
            0x0d Startp "startp",
            0x0e Outbyte "outbyte",
            0x0f Outword "outword",
            0x10 Seterr "seterr",
            0x13 Csub0 "csub0",
            0x15 Stopp "stopp",
            0x16 Ladd "ladd",
            0x19 Norm "norm",
            0x1a Ldiv "ldiv",
            0x1b Ldpi "ldpi",
            0x1d Xdble "xdble",
            0x1e Ldpri "ldpri",
            0x1f Rem "rem",
            0x20 Ret "ret",
            0x21 Lend "lend",
            0x29 Testerr "testerr",
            0x2a Testpranal "testpranal",
            0x2c Div "div",
            0x2f Disc "disc",
            0x30 Diss "diss",
            0x31 Lmul "lmul",
            0x32 Not "not",
            0x33 Xor "xor",
            0x34 Bcnt "bcnt",
            0x35 Lshr "lshr",
            0x36 Lshl "lshl",
            0x37 Lsum "lsum",
            0x38 Lsub "lsub",
            0x39 Runp "runp",
            0x3a Xword "xword",
            0x3b Sb "sb",
            0x3c Gajw "gajw",
            0x3f Wcnt "wcnt",
            0x40 Shr "shr",
            0x41 Shl "shl",
            0x42 Mint "mint",
            0x43 Alt "alt",
            0x44 Altwt "altwt",
            0x45 Altend "altend",
            0x46 And "and",
            0x48 Enbc "enbc",
            0x49 Enbs "enbs",
            0x4a Move "move",
            0x4b Or "or",
            0x4c Csngl "csngl",
            0x4d Ccnt1 "ccnt1",
            0x4f Ldiff "ldiff",
            0x52 Sum "sum",
            0x53 Mul "mul",
            0x55 Stoperr "stoperr",
            0x56 Cword "cword",
            0x57 Clrhalterr "clrhalterr",
            0x58 Sethalterr "sethalterr",
            0x59 Testhalterr "testhalterr";
            0x5a Dup "dup",
        )
    };
}

/// The function of a code, if it is one.
macro_rules! function_by_code {
    (($code:expr) $($number:literal $function:ident $name:literal,)*) => {
        match $code {
            $($number => Some(Function::$function),)*
            _ => None,
        }
    };
}

/// The code of a function.
macro_rules! code_by_function {
    (($given:expr) $($number:literal $function:ident $name:literal,)*) => {
        match $given {
            $(Function::$function => $number,)*
        }
    };
}

/// The name of a function.
macro_rules! name_by_function {
    (($given:expr) $($number:literal $function:ident $name:literal,)*) => {
        match $given {
            $(Function::$function => $name,)*
        }
    };
}

/// The operation of a code, if every kind has it, or else the value of the last expression.
macro_rules! operation_by_code {
    (
        ($code:expr, $further:expr)
        $($number:literal $operation:ident $name:literal),*;
        $($further_number:literal $further_operation:ident $further_name:literal,)*
    ) => {
        match $code {
            $($number => Some(Operation::$operation),)*
            _ => $further,
        }
    };
}

/// The operation of a code, if only kind 2 has it.
macro_rules! further_operation_by_code {
    (
        ($code:expr)
        $($number:literal $operation:ident $name:literal),*;
        $($further_number:literal $further_operation:ident $further_name:literal,)*
    ) => {
        match $code {
            $($further_number => Some(Operation::$further_operation),)*
            _ => None,
        }
    };
}

/// The name of an operation.
macro_rules! name_by_operation {
    (
        ($given:expr)
        $($number:literal $operation:ident $name:literal),*;
        $($further_number:literal $further_operation:ident $further_name:literal,)*
    ) => {
        match $given {
            $(Operation::$operation => $name,)*
            $(Operation::$further_operation => $further_name,)*
        }
    };
}

/// The function of a byte's high four bits, unless they are a prefix.
#[inline(always)]
#[tactic(auto, unfolding(crate::specs::Table::function_at))]
pub(crate) fn function_of(code: u8) -> Option<Function>
    ensures { result ≡ function_at code }
{
    functions!(function_by_code(code))
}

/// The code of a function.
pub(crate) fn code_of(function: Function) -> u8
    ensures code { result ≡ (function_entry function).code }
    ensures four_bits { result < 16 }
{
    functions!(code_by_function(function))
}

/// The name of a function, as it is printed.
pub fn function_name(function: Function) -> &'static str
    ensures { result.now ≡ (function_entry function).name }
{
    functions!(name_by_function(function))
}

/// The operation that an operand of `opr` selects, if it is listed for the kind.
#[inline(always)]
#[tactic(auto, unfolding(crate::specs::Table::operation_at))]
pub fn operation_of(operand: Word, kind: Kind) -> Option<Operation>
    ensures { result ≡ operation_at kind operand }
{
    operations!(operation_by_code(operand.get(), further_operation_of(operand, kind)))
}

/// The operation of a number for a kind of node, among those that not every kind has.
#[cold]
#[inline(never)]
#[tactic(auto, unfolding(crate::specs::Table::operation_at))]
fn further_operation_of(operand: Word, kind: Kind) -> Option<Operation>
    requires { operation_at One operand ≡ None }
    ensures { result ≡ operation_at kind operand }
{
    match kind {
        Kind::One => None,
        Kind::Two => operations!(further_operation_by_code(operand.get())),
    }
}

/// The operation that an operand of `opr` selects, whichever kind lists it.
pub fn operation_of_any_kind(operand: Word) -> Option<Operation>
    ensures { result ≡ any_operation_at operand }
{
    operation_of(operand, Kind::Two)
}

/// The name of an operation, as it is printed.
pub fn operation_name(operation: Operation) -> &'static str
    ensures { result.now ≡ (operation_entry operation).name }
{
    operations!(name_by_operation(operation))
}
