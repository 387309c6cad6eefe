//! Loads, stores and the move of bytes.
#![tactic(auto, unfolding(crate::specs::Functions::function_effect, crate::specs::Operations::operation_effect))]

ghost use Rattle.std.specs.Prelude.{◌≡◌, Ok, OnErr, false, length, true};
ghost use Rattle.tword.specs.Open.{AreOpenCounts};
ghost use Rattle.tcode.specs.Known.{StandsWhereMarked};
ghost use Rattle.tcpu.specs.Local.{DoesFunction, DoesOperation};

use crate::registers::{Next, Registers, Step};
use crate::word_arithmetic::word_address;
use tcode::{Function, Operation, is_marked};
use tword::{Bytes, Marks, Word};

impl Registers {
    /// `ldl`: pushes a word of the workspace
    ///
    /// # Errors
    /// The break of a read of the word.
    #[inline(always)]
    pub(crate) fn load_local(&mut self, memory: &Bytes, marks: &Marks, operand: Word) -> Step
        ensures done { DoesFunction Function.Ldl operand self.old memory.now marks.now result self.new memory.now }
        ensures kept { OnErr result (self.new ≡ self.old) }
    {
        let value = memory.read_word(marks, word_address(self.wptr, operand))?;
        self.push(value);
        Ok(Next::Go)
    }

    /// `ldnl`: the word at an index from A on
    ///
    /// # Errors
    /// The break of a read of the word.
    #[inline(always)]
    pub(crate) fn load_non_local(&mut self, memory: &Bytes, marks: &Marks, operand: Word) -> Step
        ensures done { DoesFunction Function.Ldnl operand self.old memory.now marks.now result self.new memory.now }
        ensures kept { OnErr result (self.new ≡ self.old) }
    {
        let value = memory.read_word(marks, word_address(self.a, operand))?;
        self.replace_top(value);
        Ok(Next::Go)
    }

    /// `stl`: pops A into a word of the workspace
    ///
    /// # Errors
    /// The break of a write of the word.
    #[inline(always)]
    pub(crate) fn store_local(&mut self, memory: &mut Bytes, marks: &Marks, operand: Word) -> Step
        ensures done { DoesFunction Function.Stl operand self.old memory.old marks.now result self.new memory.new }
        ensures kept { OnErr result ((memory.new ≡ memory.old) × (self.new ≡ self.old)) }
        ensures sized { length memory.new ≡ length memory.old }
    {
        memory.write_word(marks, word_address(self.wptr, operand), self.a)?;
        self.pop();
        Ok(Next::Go)
    }

    /// `stnl`: pops B into the word at an index from A on, and A
    ///
    /// # Errors
    /// The break of a write of the word.
    #[inline(always)]
    pub(crate) fn store_non_local(
        &mut self,
        memory: &mut Bytes,
        marks: &Marks,
        operand: Word,
    ) -> Step
        ensures done { DoesFunction Function.Stnl operand self.old memory.old marks.now result self.new memory.new }
        ensures kept { OnErr result ((memory.new ≡ memory.old) × (self.new ≡ self.old)) }
        ensures sized { length memory.new ≡ length memory.old }
    {
        memory.write_word(marks, word_address(self.a, operand), self.b)?;
        self.pop();
        self.pop();
        Ok(Next::Go)
    }

    /// `ldl`, where the counts show at once that its read passes: whether it was done.
    #[inline(always)]
    pub(crate) fn load_open_local(
        &mut self,
        memory: &Bytes,
        marks: &Marks,
        counts: &[u16],
        operand: Word,
    ) -> bool
        requires { AreOpenCounts counts.now (length memory.now) marks.now }
        ensures done { result ≡ true
            → DoesFunction Function.Ldl operand self.old memory.now marks.now (Ok Next.Go) self.new memory.now }
        ensures kept { result ≡ false → self.new ≡ self.old }
    {
        let Some(value) = memory.open_word(marks, counts, word_address(self.wptr, operand)) else {
            return false;
        };
        self.push(value);
        true
    }

    /// `ldnl`, where the counts show at once that its read passes: whether it was done.
    #[inline(always)]
    pub(crate) fn load_open_non_local(
        &mut self,
        memory: &Bytes,
        marks: &Marks,
        counts: &[u16],
        operand: Word,
    ) -> bool
        requires { AreOpenCounts counts.now (length memory.now) marks.now }
        ensures done { result ≡ true
            → DoesFunction Function.Ldnl operand self.old memory.now marks.now (Ok Next.Go) self.new memory.now }
        ensures kept { result ≡ false → self.new ≡ self.old }
    {
        let Some(value) = memory.open_word(marks, counts, word_address(self.a, operand)) else {
            return false;
        };
        self.replace_top(value);
        true
    }

    /// `stl`, where the counts show at once that its write passes, and it is of no marked word: whether it was
    /// done.
    #[inline(always)]
    pub(crate) fn store_open_local(
        &mut self,
        memory: &mut Bytes,
        marks: &Marks,
        counts: &[u16],
        words: &[u8],
        operand: Word,
    ) -> bool
        requires { AreOpenCounts counts.now (length memory.old) marks.now }
        ensures done { result ≡ true
            → DoesFunction Function.Stl operand self.old memory.old marks.now (Ok Next.Go) self.new memory.new }
        ensures kept { result ≡ false → (memory.new ≡ memory.old) × (self.new ≡ self.old) }
        ensures marked { StandsWhereMarked words.now memory.old memory.new }
        ensures sized { length memory.new ≡ length memory.old }
    {
        let address = word_address(self.wptr, operand);
        if is_marked(words, address) || !memory.set_open_word(marks, counts, address, self.a) {
            return false;
        }
        self.pop();
        true
    }

    /// `stnl`, where the counts show at once that its write passes, and it is of no marked word: whether it was
    /// done.
    #[inline(always)]
    pub(crate) fn store_open_non_local(
        &mut self,
        memory: &mut Bytes,
        marks: &Marks,
        counts: &[u16],
        words: &[u8],
        operand: Word,
    ) -> bool
        requires { AreOpenCounts counts.now (length memory.old) marks.now }
        ensures done { result ≡ true
            → DoesFunction Function.Stnl operand self.old memory.old marks.now (Ok Next.Go) self.new memory.new }
        ensures kept { result ≡ false → (memory.new ≡ memory.old) × (self.new ≡ self.old) }
        ensures marked { StandsWhereMarked words.now memory.old memory.new }
        ensures sized { length memory.new ≡ length memory.old }
    {
        let address = word_address(self.a, operand);
        if is_marked(words, address) || !memory.set_open_word(marks, counts, address, self.b) {
            return false;
        }
        self.pop();
        self.pop();
        true
    }

    /// `lb`, where the counts show at once that its read passes: whether it was done.
    #[inline(always)]
    pub(crate) fn load_open_byte(&mut self, memory: &Bytes, marks: &Marks, counts: &[u16]) -> bool
        requires { AreOpenCounts counts.now (length memory.now) marks.now }
        ensures done { result ≡ true
            → DoesOperation Operation.Lb self.old memory.now marks.now (Ok Next.Go) self.new memory.now }
        ensures kept { result ≡ false → self.new ≡ self.old }
    {
        let Some(value) = memory.open_byte(marks, counts, self.a) else {
            return false;
        };
        self.replace_top(Word::new(u32::from(value)));
        true
    }

    /// `sb`, where the counts show at once that its write passes, and it is of no marked word: whether it was
    /// done.
    #[inline(always)]
    pub(crate) fn store_open_byte(
        &mut self,
        memory: &mut Bytes,
        marks: &Marks,
        counts: &[u16],
        words: &[u8],
    ) -> bool
        requires { AreOpenCounts counts.now (length memory.old) marks.now }
        ensures done { result ≡ true
            → DoesOperation Operation.Sb self.old memory.old marks.now (Ok Next.Go) self.new memory.new }
        ensures kept { result ≡ false → (memory.new ≡ memory.old) × (self.new ≡ self.old) }
        ensures marked { StandsWhereMarked words.now memory.old memory.new }
        ensures sized { length memory.new ≡ length memory.old }
    {
        let low = (self.b.get() % 256) as u8;
        if is_marked(words, self.a) || !memory.set_open_byte(marks, counts, self.a, low) {
            return false;
        }
        self.pop();
        self.pop();
        true
    }

    /// `lb`: the byte at A
    ///
    /// # Errors
    /// The break of a read of the byte.
    #[inline(always)]
    pub(crate) fn load_byte(&mut self, memory: &Bytes, marks: &Marks) -> Step
        ensures done { DoesOperation Operation.Lb self.old memory.now marks.now result self.new memory.now }
        ensures kept { OnErr result (self.new ≡ self.old) }
    {
        let value = memory.read_byte(marks, self.a)?;
        self.replace_top(Word::new(u32::from(value)));
        Ok(Next::Go)
    }

    /// `sb`: pops the low byte of B to the address A
    ///
    /// # Errors
    /// The break of a write of the byte.
    #[inline(always)]
    pub(crate) fn store_byte(&mut self, memory: &mut Bytes, marks: &Marks) -> Step
        ensures done { DoesOperation Operation.Sb self.old memory.old marks.now result self.new memory.new }
        ensures kept { OnErr result ((memory.new ≡ memory.old) × (self.new ≡ self.old)) }
        ensures sized { length memory.new ≡ length memory.old }
    {
        let low = (self.b.get() % 256) as u8;
        memory.write_byte(marks, self.a, low)?;
        self.pop();
        self.pop();
        Ok(Next::Go)
    }

    /// `move`: as if all bytes were read before the first is written (own choice where the spans overlap)
    ///
    /// # Errors
    /// The break of a read of the source, else of a write of the target.
    #[inline(always)]
    pub(crate) fn move_bytes(&mut self, memory: &mut Bytes, marks: &Marks) -> Step
        ensures done { DoesOperation Operation.Move self.old memory.old marks.now result self.new memory.new }
        ensures kept { OnErr result ((memory.new ≡ memory.old) × (self.new ≡ self.old)) }
        ensures sized { length memory.new ≡ length memory.old }
    {
        let (from, to, size) = (self.c, self.b, self.a.get());
        memory.may_copy(marks, from, to, size)?;
        memory.copy(from, to, size);
        self.pop();
        self.pop();
        self.pop();
        Ok(Next::Go)
    }
}
