//! The context of a process.

ghost use Rattle.std.specs.Prelude.{◌≡◌, List};
ghost use Rattle.tprocesses.specs.Instructions as spec;
ghost use Rattle.tprocesses.specs.Uses.{has_needed, is_known};
ghost use Rattle.tprocesses.specs.Uses as values;
ghost use Rattle.tprocesses.specs.Standing as standing;
ghost use Rattle.tcertify.specs.Carried.{with_left};
ghost use Rattle.tcertify.specs.Contexts.{context_of, need_of, origin_of, uses_with};

use crate::priority::Priority;
use crate::uses::{Need, Origin, Uses};
use tcpu::Registers;
use tword::{Span, Word};

/// An output of a link whose message has gone over and that is not over yet.
#[derive(Clone, Copy)]
pub struct Lent {
    /// The number of the link.
    pub link: u8,
    /// The bytes of the message.
    pub buffer: Span,
}

/// An alternative that is under way.
#[derive(Clone, Copy)]
pub struct Choice {
    /// One of its guards without a channel was true.
    pub skips: bool,
}

/// The registers of a process, of which A, B and C may not be known, how many processes it has started, its output of a
/// link that is not over, and its alternative.
#[derive(Clone, Copy)]
pub struct Context {
    pub priority: Priority,
    pub choice: Option<Choice>,
    pub wptr: Word,
    pub iptr: Word,
    pub a: Option<Word>,
    pub b: Option<Word>,
    pub c: Option<Word>,
    pub children: u32,
    pub lent: Option<Lent>,
}

/// The registers that an instruction leaves, of which A, B and C may not be known.
#[derive(Clone, Copy)]
pub struct Left {
    pub wptr: Word,
    pub iptr: Word,
    pub a: Option<Word>,
    pub b: Option<Word>,
    pub c: Option<Word>,
}

impl Context {
    /// The registers for an instruction, with these flags, where 0 stands for a value that is not known.
    #[inline(always)]
    pub fn registers(&self, error: bool, halt_on_error: bool) -> Registers
        ensures { result ≡ spec.registers (context_of self.now)
            (record { error = error; halt_on_error = halt_on_error }) }
    {
        Registers {
            a: self.a.unwrap_or(Word::new(0)),
            b: self.b.unwrap_or(Word::new(0)),
            c: self.c.unwrap_or(Word::new(0)),
            iptr: self.iptr,
            wptr: self.wptr,
            error,
            halt_on_error,
        }
    }

    /// Whether the registers that an instruction needs are known.
    #[inline(always)]
    pub fn has_needed(&self, need: Need) -> bool
        ensures { result ≡ has_needed (need_of need) (context_of self.now) }
    {
        match need {
            Need::Nothing => true,
            Need::A => self.a.is_some(),
            Need::AB => self.a.is_some() && self.b.is_some(),
            Need::ABC => self.a.is_some() && self.b.is_some() && self.c.is_some(),
        }
    }

    /// Whether a value that an instruction leaves is known. read: whether all that it read is.
    #[inline(always)]
    pub fn is_known(&self, origin: Origin, read: bool) -> bool
        ensures { result ≡ is_known (context_of self.now) read (origin_of origin) }
    {
        match origin {
            Origin::Made => true,
            Origin::FromA => self.a.is_some(),
            Origin::FromB => self.b.is_some(),
            Origin::FromC => self.c.is_some(),
            Origin::FromMemory => read,
        }
    }

    /// The context where A, B and C are not known any more.
    #[inline(always)]
    pub fn forget(&self) -> Context
        ensures { context_of result ≡ standing.forget (context_of self.now) }
    {
        Context {
            priority: self.priority,
            choice: self.choice,
            wptr: self.wptr,
            iptr: self.iptr,
            a: None,
            b: None,
            c: None,
            children: self.children,
            lent: self.lent,
        }
    }

    /// What an instruction leaves that left these registers. read: whether all that it read is known.
    #[inline(always)]
    pub fn behind(&self, uses: &Uses, read: bool, registers: &Registers) -> Left
        ensures { (written : List values.Origin) → with_left (context_of self.now) result
            ≡ spec.context_after (context_of self.now) (uses_with uses.now written) read registers.now }
    {
        Left {
            wptr: registers.wptr,
            iptr: registers.iptr,
            a: known_value(self.is_known(uses.a, read), registers.a),
            b: known_value(self.is_known(uses.b, read), registers.b),
            c: known_value(self.is_known(uses.c, read), registers.c),
        }
    }

    /// The context with the registers that an instruction left.
    #[inline(always)]
    pub fn with_left(&self, left: &Left) -> Context
        ensures { context_of result ≡ with_left (context_of self.now) left.now }
    {
        Context {
            priority: self.priority,
            choice: self.choice,
            wptr: left.wptr,
            iptr: left.iptr,
            a: left.a,
            b: left.b,
            c: left.c,
            children: self.children,
            lent: self.lent,
        }
    }
}

/// A value, where it is known.
#[inline(always)]
pub(crate) fn known_value(known: bool, value: Word) -> Option<Word>
    ensures { result ≡ values.known_value known value }
{
    if known { Some(value) } else { None }
}
