//! Jumps, calls, loops and the workspace pointer.
#![tactic(auto, unfolding(crate::specs::Functions::function_effect, crate::specs::Operations::operation_effect))]

ghost use Rattle.std.specs.Prelude.{ℕ, ◌≡◌, List, Some, None, IfSome, Ok, OnOk, OnErr, false, length, true};
ghost use Rattle.std.specs.Prelude.{slice_index};
ghost use Rattle.tword.specs.Open.{AreOpenCounts};
ghost use Rattle.tword.specs.Actions.{answer, or_break, run};
ghost use Rattle.tword.specs.Stores.{word_at, with_word};
ghost use Rattle.tword.specs.Touches.{Writes, word_break, first_break, is_inside, word_span};
ghost use Rattle.tword.specs.Words.{plus, minus};
ghost use Rattle.tcode.specs.Known.{StandsWhereMarked, word_place};
ghost use Rattle.tcpu.specs.Functions.{function_effect};
ghost use Rattle.tcpu.specs.Local.{DoesFunction, DoesOperation};
ghost use Rattle.tcpu.specs.Local.{outcome_of};
ghost use Rattle.tcpu.specs.Operations.{is_positive_word, looped, operation_effect};
ghost use Rattle.tword.specs.Claims.{Claims};

use crate::registers::{Next, Registers, Step};
use crate::word_arithmetic::{is_word_address, word_address};
use tcode::{Function, Operation, is_marked};
use tword::{Break, Bytes, Marks, Word};

impl Registers {
    /// `j`: jumps by the operand
    #[inline]
    pub(crate) fn jump(&mut self, operand: Word) -> Next
        ensures { function_effect Function.J operand self.old ≡ answer (self.new, result) }
    {
        self.iptr = self.iptr.plus(operand);
        Next::Jumped
    }

    /// `cj`: jumps by the operand where A is 0, which stays on the stack; else pops it
    #[inline]
    pub(crate) fn conditional_jump(&mut self, operand: Word) -> Next
        ensures { function_effect Function.Cj operand self.old ≡ answer (self.new, result) }
    {
        if self.a.get() == 0 {
            self.iptr = self.iptr.plus(operand);
        } else {
            self.pop();
        }
        Next::Go
    }

    /// `ajw`: moves the workspace by a number of words
    #[inline]
    pub(crate) fn adjust_workspace(&mut self, operand: Word) -> Next
        ensures { function_effect Function.Ajw operand self.old ≡ answer (self.new, result) }
    {
        self.wptr = word_address(self.wptr, operand);
        Next::Go
    }

    /// `gcall`: exchanges Iptr and A
    pub(crate) fn general_call(&mut self) -> Next
        ensures { operation_effect Operation.Gcall self.old ≡ Some (answer (self.new, result)) }
    {
        let target = self.a;
        self.a = self.iptr;
        self.iptr = target;
        Next::Go
    }

    /// `ldpi`: the address A bytes behind the instruction
    pub(crate) fn load_pointer_to_instruction(&mut self) -> Next
        ensures { operation_effect Operation.Ldpi self.old ≡ Some (answer (self.new, result)) }
    {
        self.replace_top(self.iptr.plus(self.a));
        Next::Go
    }

    /// `gajw`: exchanges Wptr and A
    ///
    /// # Errors
    /// `Unaligned` where A is no multiple of 4.
    #[inline(always)]
    pub(crate) fn general_adjust_workspace(&mut self, memory: &Bytes, marks: &Marks) -> Step
        ensures done { DoesOperation Operation.Gajw self.old memory.now marks.now result self.new memory.now }
        ensures kept { OnErr result (self.new ≡ self.old) }
    {
        let workspace = self.a;
        if !is_word_address(workspace) {
            return Err(Break::Unaligned);
        }
        self.a = self.wptr;
        self.wptr = workspace;
        Ok(Next::Go)
    }

    /// `call`: the address behind the instruction, A, B and C are put below the workspace.
    ///
    /// # Errors
    /// The break of the first of the four words, from the lowest up, that may not be written.
    #[inline(always)]
    pub(crate) fn call(&mut self, memory: &mut Bytes, marks: &Marks, operand: Word) -> Step
        ensures done { DoesFunction Function.Call operand self.old memory.old marks.now result self.new memory.new }
        ensures kept { OnErr result ((memory.new ≡ memory.old) × (self.new ≡ self.old)) }
        ensures sized { length memory.new ≡ length memory.old }
    {
        self.may_call(memory, marks)?;
        self.enter(memory, operand);
        Ok(Next::Go)
    }

    /// `call`, where the counts show at once that its four writes pass, and none is of a marked word: whether it was
    /// done.
    #[inline(always)]
    pub(crate) fn open_call(
        &mut self,
        memory: &mut Bytes,
        marks: &Marks,
        counts: &[u16],
        words: &[u8],
        operand: Word,
    ) -> bool
        requires { AreOpenCounts counts.now (length memory.old) marks.now }
        ensures done { result ≡ true
            → DoesFunction Function.Call operand self.old memory.old marks.now (Ok Next.Go) self.new memory.new }
        ensures kept { result ≡ false → (memory.new ≡ memory.old) × (self.new ≡ self.old) }
        ensures marked { StandsWhereMarked words.now memory.old memory.new }
        ensures sized { length memory.new ≡ length memory.old }
    {
        let wptr = self.wptr;
        if !may_set_word(memory, marks, counts, words, wptr.below(4))
            || !may_set_word(memory, marks, counts, words, wptr.below(3))
            || !may_set_word(memory, marks, counts, words, wptr.below(2))
            || !may_set_word(memory, marks, counts, words, wptr.below(1))
        {
            return false;
        }
        self.enter(memory, operand);
        true
    }

    /// Enters a procedure: what `call` does, for a caller that has checked its four words.
    #[inline(always)]
    fn enter(&mut self, memory: &mut Bytes, operand: Word)
        requires first { is_inside (length memory.old) (word_span (minus self.old.wptr 16)) ≡ true }
        requires second { is_inside (length memory.old) (word_span (minus self.old.wptr 12)) ≡ true }
        requires third { is_inside (length memory.old) (word_span (minus self.old.wptr 8)) ≡ true }
        requires fourth { is_inside (length memory.old) (word_span (minus self.old.wptr 4)) ≡ true }
        ensures memory { memory.new ≡ with_word (with_word (with_word (with_word memory.old
            (minus self.old.wptr 16) self.old.iptr) (minus self.old.wptr 12) self.old.a)
            (minus self.old.wptr 8) self.old.b) (minus self.old.wptr 4) self.old.c }
        ensures registers { self.new ≡ record self.old {
          wptr = minus self.old.wptr 16;
          a = self.old.iptr;
          iptr = plus self.old.iptr operand;
        } }
        ensures sized { length memory.new ≡ length memory.old }
    {
        let wptr = self.wptr;
        let workspace = wptr.below(4);
        memory.set_word(workspace, self.iptr);
        memory.set_word(wptr.below(3), self.a);
        memory.set_word(wptr.below(2), self.b);
        memory.set_word(wptr.below(1), self.c);
        self.wptr = workspace;
        self.a = self.iptr;
        self.iptr = self.iptr.plus(operand);
    }

    /// Whether `call` may write its four words.
    ///
    /// # Errors
    /// The break of the first of them, from the lowest up, that may not be written.
    #[inline(never)]
    pub(crate) fn may_call(&self, memory: &Bytes, marks: &Marks) -> Result<(), Break>
        ensures checks { result ≡ or_break (
            first_break (word_break (length memory.now) marks.now Writes (minus self.now.wptr 16)) (
            first_break (word_break (length memory.now) marks.now Writes (minus self.now.wptr 12)) (
            first_break (word_break (length memory.now) marks.now Writes (minus self.now.wptr 8))
            (word_break (length memory.now) marks.now Writes (minus self.now.wptr 4))))) tt }
        ensures first { OnOk result (is_inside (length memory.now) (word_span (minus self.now.wptr 16)) ≡ true) }
        ensures second { OnOk result (is_inside (length memory.now) (word_span (minus self.now.wptr 12)) ≡ true) }
        ensures third { OnOk result (is_inside (length memory.now) (word_span (minus self.now.wptr 8)) ≡ true) }
        ensures fourth { OnOk result (is_inside (length memory.now) (word_span (minus self.now.wptr 4)) ≡ true) }
    {
        let wptr = self.wptr;
        memory.may_write_word(marks, wptr.below(4))?;
        memory.may_write_word(marks, wptr.below(3))?;
        memory.may_write_word(marks, wptr.below(2))?;
        memory.may_write_word(marks, wptr.below(1))
    }

    /// `ret`: goes on behind the call, in the workspace of the caller
    ///
    /// # Errors
    /// The break of a read of the workspace's first word.
    #[inline(always)]
    pub(crate) fn return_from_call(&mut self, memory: &Bytes, marks: &Marks) -> Step
        ensures done { DoesOperation Operation.Ret self.old memory.now marks.now result self.new memory.now }
        ensures kept { OnErr result (self.new ≡ self.old) }
    {
        let iptr = memory.read_word(marks, self.wptr)?;
        self.leave(iptr);
        Ok(Next::Go)
    }

    /// `ret`, where the counts show at once that its read passes: whether it was done.
    #[inline(always)]
    pub(crate) fn open_return(&mut self, memory: &Bytes, marks: &Marks, counts: &[u16]) -> bool
        requires { AreOpenCounts counts.now (length memory.now) marks.now }
        ensures done { result ≡ true
            → DoesOperation Operation.Ret self.old memory.now marks.now (Ok Next.Go) self.new memory.now }
        ensures kept { result ≡ false → self.new ≡ self.old }
    {
        let Some(iptr) = memory.open_word(marks, counts, self.wptr) else {
            return false;
        };
        self.leave(iptr);
        true
    }

    /// Leaves a procedure: goes on at an address, in the workspace of the caller.
    #[inline(always)]
    fn leave(&mut self, iptr: Word)
        ensures { self.new ≡ record self.old { iptr = iptr; wptr = plus self.old.wptr 16 } }
    {
        self.iptr = iptr;
        self.wptr = self.wptr.plus(Word::new(16));
    }

    /// `lend`, where the counts show at once that its writes pass, and none is of a marked word: what follows, if it
    /// was done.
    #[inline(always)]
    pub(crate) fn open_loop_end(
        &mut self,
        memory: &mut Bytes,
        marks: &Marks,
        counts: &[u16],
        words: &[u8],
    ) -> Option<Next>
        requires { AreOpenCounts counts.now (length memory.old) marks.now }
        ensures done { IfSome result
            (λ next. DoesOperation Operation.Lend self.old memory.old marks.now (Ok next) self.new memory.new) }
        ensures kept { result ≡ None → (memory.new ≡ memory.old) × (self.new ≡ self.old) }
        ensures marked { StandsWhereMarked words.now memory.old memory.new }
        ensures sized { length memory.new ≡ length memory.old }
    {
        let index = self.b;
        let count = index.plus(Word::new(4));
        if !may_set_word(memory, marks, counts, words, count)
            || !may_set_word(memory, marks, counts, words, index)
        {
            return None;
        }
        let left = memory.word(count).minus(Word::new(1));
        Some(self.go_round(memory, left))
    }

    /// Ends a turn of a loop whose count has fallen to `left`, for a caller that has checked its two words: what
    /// follows.
    #[inline(always)]
    fn go_round(&mut self, memory: &mut Bytes, left: Word) -> Next
        requires count { is_inside (length memory.old) (word_span (plus self.old.b 4)) ≡ true }
        requires index { is_inside (length memory.old) (word_span self.old.b) ≡ true }
        ensures done { (claims : Claims) → word_break (length memory.old) claims Writes (plus self.old.b 4) ≡ None
            → word_break (length memory.old) claims Writes self.old.b ≡ None
            → run (looped left (word_at memory.old self.old.b) (is_positive_word left) self.old) memory.old claims
            ≡ outcome_of (Ok result) self.new memory.new }
        ensures marked { (words : List ℕ) (claims : Claims)
            → word_break (length memory.old) claims Writes (plus self.old.b 4) ≡ None
            → word_break (length memory.old) claims Writes self.old.b ≡ None
            → slice_index words (word_place (plus self.old.b 4)) ≡ 0 → slice_index words (word_place self.old.b) ≡ 0
            → StandsWhereMarked words memory.old memory.new }
        ensures sized { length memory.new ≡ length memory.old }
    {
        let index = self.b;
        let count = index.plus(Word::new(4));
        let back = self.iptr.minus(self.a);
        self.pop();
        self.pop();
        if left.signed() > 0 {
            let risen = memory.word(index).plus(Word::new(1));
            memory.set_word(count, left);
            memory.set_word(index, risen);
            self.iptr = back;
            Next::Jumped
        } else {
            memory.set_word(count, left);
            Next::Go
        }
    }

    /// `lend`: the count falls, and while it is above 0 the index rises and the loop goes round again. The test is on
    /// the wrapped count (own choice).
    ///
    /// # Errors
    /// The break of a write of the count, else of the index.
    #[inline(always)]
    pub(crate) fn loop_end(&mut self, memory: &mut Bytes, marks: &Marks) -> Step
        ensures done { DoesOperation Operation.Lend self.old memory.old marks.now result self.new memory.new }
        ensures kept { OnErr result ((memory.new ≡ memory.old) × (self.new ≡ self.old)) }
        ensures sized { length memory.new ≡ length memory.old }
    {
        let left = self.falling_count(memory, marks)?;
        Ok(self.go_round(memory, left))
    }

    /// The count of the loop that `lend` ends, fallen by 1.
    ///
    /// # Errors
    /// The break of a write of the count, else of the index.
    #[inline(always)]
    pub(crate) fn falling_count(&self, memory: &Bytes, marks: &Marks) -> Result<Word, Break>
        ensures count { result ≡ or_break (
            first_break (word_break (length memory.now) marks.now Writes (plus self.now.b 4))
            (word_break (length memory.now) marks.now Writes self.now.b))
            (minus (word_at memory.now (plus self.now.b 4)) 1) }
        ensures count_inside { OnOk result (is_inside (length memory.now) (word_span (plus self.now.b 4)) ≡ true) }
        ensures index_inside { OnOk result (is_inside (length memory.now) (word_span self.now.b) ≡ true) }
    {
        let count = self.b.plus(Word::new(4));
        memory.may_write_word(marks, count)?;
        memory.may_write_word(marks, self.b)?;
        Ok(memory.word(count).minus(Word::new(1)))
    }
}

/// Whether the counts show at once that a write of the word at an address passes, and the word is not marked.
#[inline(always)]
fn may_set_word(memory: &Bytes, marks: &Marks, counts: &[u16], words: &[u8], address: Word) -> bool
    requires { AreOpenCounts counts.now (length memory.now) marks.now }
    ensures free { result ≡ true → word_break (length memory.now) marks.now Writes address ≡ None }
    ensures inside { result ≡ true → is_inside (length memory.now) (word_span address) ≡ true }
    ensures unmarked { result ≡ true → slice_index words.now (word_place address) ≡ 0 }
{
    memory.is_clear_word(marks, counts, address) && !is_marked(words, address)
}
