//! What an instruction needs to know, and where what it leaves comes from.

ghost use Rattle.std.specs.Prelude.{◌≡◌, ◌==◌, ◌||◌, not, if◌then◌else◌, true};
ghost use Rattle.tprocesses.specs.Uses as spec;
ghost use Rattle.tcertify.specs.Contexts.{row, uses_with};

use tcode::{Function, Instruction, Operation, operation_of};
use tword::{Kind, Word};

/// How many registers, from A on, an instruction decides by or computes with.
#[derive(Clone, Copy)]
pub enum Need {
    Nothing,
    A,
    AB,
    ABC,
}

/// Where a value comes from that an instruction leaves.
#[derive(Clone, Copy)]
pub enum Origin {
    /// It is made of what has to be known.
    Made,
    /// It is the value of a register.
    FromA,
    FromB,
    FromC,
    /// It is what was read.
    FromMemory,
}

/// What an instruction needs, whether what it reads has to be known, and where A, B and C come from that it leaves.
#[derive(Clone, Copy)]
pub struct Uses {
    pub needs: Need,
    pub reads_known: bool,
    pub a: Origin,
    pub b: Origin,
    pub c: Origin,
}

impl Uses {
    /// A row of the table. What is read need not be known.
    #[inline(always)]
    fn row(needs: Need, a: Origin, b: Origin, c: Origin) -> Uses
        ensures { result ≡ row needs a b c }
    {
        Uses {
            needs,
            reads_known: false,
            a,
            b,
            c,
        }
    }

    /// The row where what is read has to be known too.
    #[inline(always)]
    fn with_known_reads(self) -> Uses
        ensures { result ≡ record self { reads_known = true } }
    {
        Uses {
            reads_known: true,
            ..self
        }
    }

    /// Whether what was read is known where it has to be.
    #[inline(always)]
    pub fn are_met(&self, read: bool) -> bool
        ensures { result ≡ (read || not self.now.reads_known) }
    {
        read || !self.reads_known
    }

    /// What a local operation uses, except for what it writes; those of the scheduler say so themselves.
    pub fn of_operation(operation: Operation) -> Uses
        ensures { uses_with result (spec.operation_uses operation).written ≡ spec.operation_uses operation }
    {
        use Origin::{FromA, FromB, FromC, FromMemory, Made};
        match operation {
            Operation::Rev => Uses::row(Need::Nothing, FromB, FromA, FromC),
            Operation::Lb => Uses::row(Need::A, FromMemory, FromB, FromC),
            Operation::Bsub
            | Operation::Diff
            | Operation::Add
            | Operation::Prod
            | Operation::Gt
            | Operation::Wsub
            | Operation::Sub
            | Operation::Rem
            | Operation::Div
            | Operation::Xor
            | Operation::Xword
            | Operation::Shr
            | Operation::Shl
            | Operation::And
            | Operation::Or
            | Operation::Csngl
            | Operation::Sum
            | Operation::Mul => Uses::row(Need::AB, Made, FromC, FromC),
            Operation::Gcall
            | Operation::Ldpi
            | Operation::Not
            | Operation::Bcnt
            | Operation::Gajw => Uses::row(Need::A, Made, FromB, FromC),
            Operation::Csub0 | Operation::Ccnt1 | Operation::Cword => {
                Uses::row(Need::AB, FromB, FromC, FromC)
            }
            Operation::Ladd | Operation::Lsub => Uses::row(Need::ABC, Made, FromC, FromC),
            Operation::Norm => Uses::row(Need::AB, Made, Made, Made),
            Operation::Ldiv
            | Operation::Lmul
            | Operation::Lshr
            | Operation::Lshl
            | Operation::Lsum
            | Operation::Ldiff => Uses::row(Need::ABC, Made, Made, FromC),
            Operation::Xdble | Operation::Wcnt => Uses::row(Need::A, Made, Made, FromB),
            Operation::Ret => { Uses::row(Need::Nothing, FromA, FromB, FromC).with_known_reads() }
            Operation::Lend => Uses::row(Need::AB, FromC, FromC, FromC).with_known_reads(),
            Operation::Testerr | Operation::Testpranal | Operation::Mint | Operation::Testhalterr =>
                Uses::row(Need::Nothing, Made, FromA, FromB),
            Operation::Sb => Uses::row(Need::A, FromC, FromC, FromC),
            Operation::Move => Uses::row(Need::ABC, FromC, FromC, FromC),
            Operation::Dup => Uses::row(Need::Nothing, FromA, FromA, FromB),
            Operation::Endp
            | Operation::In
            | Operation::Out
            | Operation::Startp
            | Operation::Outbyte
            | Operation::Outword
            | Operation::Seterr
            | Operation::Stopp
            | Operation::Ldpri
            | Operation::Disc
            | Operation::Diss
            | Operation::Runp
            | Operation::Alt
            | Operation::Altwt
            | Operation::Altend
            | Operation::Enbc
            | Operation::Enbs
            | Operation::Stoperr
            | Operation::Clrhalterr
            | Operation::Sethalterr => Uses::row(Need::Nothing, FromA, FromB, FromC),
        }
    }

    /// What an instruction uses, except for what it writes, where A has this value.
    #[inline(always)]
    pub fn of_instruction(kind: Kind, instruction: &Instruction, a: Word) -> Uses
        ensures { uses_with result (spec.uses_of kind instruction.now a).written ≡ spec.uses_of kind instruction.now a }
    {
        use Origin::{FromA, FromB, FromC, FromMemory, Made};
        match instruction.function {
            Function::J | Function::Ajw => Uses::row(Need::Nothing, FromA, FromB, FromC),
            Function::Ldlp | Function::Ldc => Uses::row(Need::Nothing, Made, FromA, FromB),
            Function::Ldnl => Uses::row(Need::A, FromMemory, FromB, FromC),
            Function::Ldnlp | Function::Adc | Function::Eqc => {
                Uses::row(Need::A, Made, FromB, FromC)
            }
            Function::Ldl => Uses::row(Need::Nothing, FromMemory, FromA, FromB),
            Function::Call => Uses::row(Need::Nothing, Made, FromB, FromC),
            Function::Cj => Uses::of_jump(a),
            Function::Stl => Uses::row(Need::Nothing, FromB, FromC, FromC),
            Function::Stnl => Uses::row(Need::A, FromC, FromC, FromC),
            Function::Opr => match operation_of(instruction.operand, kind) {
                Some(operation) => Uses::of_operation(operation),
                None => Uses::row(Need::Nothing, FromA, FromB, FromC),
            },
        }
    }

    /// What `cj` uses: it keeps A where that is 0, and jumps.
    #[inline(always)]
    fn of_jump(a: Word) -> Uses
        ensures { result ≡ (if a == 0 then row Need.A Origin.FromA Origin.FromB Origin.FromC
            else row Need.A Origin.FromB Origin.FromC Origin.FromC) }
    {
        if a.get() == 0 {
            Uses::row(Need::A, Origin::FromA, Origin::FromB, Origin::FromC)
        } else {
            Uses::row(Need::A, Origin::FromB, Origin::FromC, Origin::FromC)
        }
    }
}
