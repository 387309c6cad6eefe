//! The context of a process that goes on, or begins.

ghost use Rattle.std.specs.Prelude.{◌≡◌, ◌+◌, ◌^◌, IfSome, None};
ghost use Rattle.tprocesses.specs.Standing as standing;
ghost use Rattle.tprocesses.specs.Choosing as choosing;
ghost use Rattle.tprocesses.specs.Scheduling as scheduling;
ghost use Rattle.tword.specs.Words.{plus};
ghost use Rattle.tcertify.specs.Contexts.{context_of};
ghost use Rattle.tcertify.specs.Words.{number_of};

use crate::context::{Choice, Context};
use crate::priority::Priority;
use tcode::Instruction;
use tword::Word;

impl Context {
    /// A process that starts, with its workspace and its first address.
    pub(crate) fn fresh(priority: Priority, workspace: Word, iptr: Word) -> Context
        ensures { context_of result ≡ standing.fresh (number_of priority) workspace iptr }
    {
        Context {
            priority,
            choice: None,
            wptr: workspace,
            iptr,
            a: Some(Word::new(0)),
            b: Some(Word::new(0)),
            c: Some(Word::new(0)),
            children: 0,
            lent: None,
        }
    }

    /// The context with Iptr behind an instruction.
    #[inline(always)]
    pub(crate) fn past(&self, instruction: &Instruction) -> Context
        ensures { context_of result
            ≡ record (context_of self.now) { iptr = plus self.now.iptr instruction.now.length } }
    {
        let iptr = self.iptr.plus(Word::new(u32::from(instruction.length)));
        Context {
            priority: self.priority,
            choice: self.choice,
            wptr: self.wptr,
            iptr,
            a: self.a,
            b: self.b,
            c: self.c,
            children: self.children,
            lent: self.lent,
        }
    }

    /// A value is pushed: B moves to C, A to B.
    #[inline(always)]
    pub(crate) fn push(&self, value: Option<Word>) -> Context
        ensures { context_of result ≡ standing.push value (context_of self.now) }
    {
        Context {
            priority: self.priority,
            choice: self.choice,
            wptr: self.wptr,
            iptr: self.iptr,
            a: value,
            b: self.a,
            c: self.b,
            children: self.children,
            lent: self.lent,
        }
    }

    /// The top is dropped: B moves to A, C to B. C keeps its value.
    #[inline(always)]
    pub(crate) fn pop(&self) -> Context
        ensures { context_of result ≡ standing.pop (context_of self.now) }
    {
        Context {
            priority: self.priority,
            choice: self.choice,
            wptr: self.wptr,
            iptr: self.iptr,
            a: self.b,
            b: self.c,
            c: self.c,
            children: self.children,
            lent: self.lent,
        }
    }

    /// The context of a process that has started one more child; none where the number of its children does not fit.
    #[inline(always)]
    pub(crate) fn with_child(&self) -> Option<Context>
        ensures child { IfSome result (λ left. context_of left ≡ scheduling.with_child (context_of self.now)) }
        ensures full { result ≡ None → self.now.children + 1 ≡ 2 ^ 32 }
    {
        let children = self.children.checked_add(1)?;
        Some(Context {
            priority: self.priority,
            choice: self.choice,
            wptr: self.wptr,
            iptr: self.iptr,
            a: self.a,
            b: self.b,
            c: self.c,
            children,
            lent: self.lent,
        })
    }

    /// The context of a process whose output of a link is over.
    #[inline(always)]
    pub(crate) fn without_lent(&self) -> Context
        ensures { context_of result ≡ record (context_of self.now) { lent = None } }
    {
        Context {
            priority: self.priority,
            choice: self.choice,
            wptr: self.wptr,
            iptr: self.iptr,
            a: self.a,
            b: self.b,
            c: self.c,
            children: self.children,
            lent: None,
        }
    }

    /// The context with an alternative that is under way. skips: whether it need not wait.
    #[cold]
    pub(crate) fn with_choice(&self, skips: bool) -> Context
        ensures { context_of result ≡ choosing.with_choice skips (context_of self.now) }
    {
        let mut left = *self;
        left.choice = Some(Choice { skips });
        left
    }

    /// The context where the channel below a guard is dropped.
    #[cold]
    pub(crate) fn drop_channel(&self) -> Context
        ensures { context_of result ≡ choosing.drop_channel (context_of self.now) }
    {
        let mut left = *self;
        left.b = self.c;
        left
    }

    /// The context where two registers are dropped, and whether a guard is chosen is left.
    #[cold]
    pub(crate) fn answers(&self, chosen: bool) -> Context
        ensures { context_of result ≡ choosing.answers chosen (context_of self.now) }
    {
        let mut left = *self;
        left.a = Some(Word::new(u32::from(chosen)));
        left.b = self.c;
        left
    }

    /// The context at an offset, with no alternative under way.
    #[cold]
    pub(crate) fn without_choice(&self, offset: Word) -> Context
        ensures { context_of result
            ≡ record (context_of self.now) { iptr = plus self.now.iptr offset; choice = None } }
    {
        let mut left = *self;
        left.iptr = self.iptr.plus(offset);
        left.choice = None;
        left
    }
}
