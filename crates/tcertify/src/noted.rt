//! Touches of words that notes tell of already: they are done without a note, or not at all.

ghost use Rattle.std.specs.Prelude.{◌≡◌, ◌<◌, ◌∷◌, [], IfNone, IfSome, None, Ok, Some, false, length, true};
ghost use Rattle.tcode.specs.Decoding.{decode_bytes};
ghost use Rattle.tword.specs.Touches.{Reads, Writes};
ghost use Rattle.tprocesses.specs.Touching.{touch_word, touch_word_at, write_word_at};
ghost use Rattle.tcertify.specs.Cells.{cells_of};
ghost use Rattle.tcertify.specs.Carried.{with_left};
ghost use Rattle.tcertify.specs.Contexts.{context_of};
ghost use Rattle.tcertify.specs.Quiet.{LeavesNoted};
ghost use Rattle.tcertify.specs.Instructions.{chain_of, decoded, decoded_behind, touch_byte};
ghost use Rattle.tcertify.specs.Words.{IsTouched, Runs, site_of};
ghost use Rattle.tcertify.specs.declared.notes.Mode.TheVariants.{Puts};

use crate::cells::Cells;
use crate::common::left_alone;
use crate::context::{Context, Left, known_value};
use crate::decoding::{chain, single};
use crate::notes::Mode;
use crate::performing::word_address;
use crate::stored::Words;
use crate::word_use::WordUse;
use tcode::{Function, Instruction};
use tword::Word;

impl Words {
    /// Whether notes tell that the word of this number is touched so.
    #[inline(always)]
    fn is_noted(&self, number: usize, mode: Mode) -> bool
        requires { number < length self.now.items.items }
        ensures { result ≡ true → IsTouched self.now number mode self.now }
    {
        self.notes.tells(self.first_place + number as u32, mode)
    }

    /// The bytes of a word that a program may read, by the number of the word, if that is noted.
    #[inline(always)]
    fn sees_noted(&self, number: usize) -> Option<Cells>
        requires { number < length self.now.items.items }
        ensures { IfSome result (λ cells. Runs (touch_word (site_of self.now) Reads number) self.now
            (Ok (cells_of cells)) self.now) }
    {
        if !self.is_noted(number, Mode::Looks) {
            return None;
        }
        let stored = &self.items[number];
        match stored.used {
            WordUse::Free => Some(stored.cells),
            _ => None,
        }
    }

    /// The bytes of the word at an address that a program may read, if that is noted.
    #[inline(always)]
    pub(crate) fn reads_noted(&self, address: Word) -> Option<Cells>
        ensures { IfSome result (λ cells. Runs (touch_word_at (site_of self.now) Reads address) self.now
            (Ok (cells_of cells)) self.now) }
    {
        let Ok(number) = self.number_at(address) else {
            return None;
        };
        self.sees_noted(number)
    }

    /// The byte at an address that a program may read, if that is noted and the byte is known.
    #[inline(always)]
    fn byte_noted(&self, address: Word) -> Option<u8>
        ensures { IfSome result (λ byte. Runs (touch_byte (site_of self.now) Reads address) self.now
            (Ok (Some byte ∷ [])) self.now) }
    {
        let Ok(number) = self.byte_number_at(address) else {
            return None;
        };
        let cells = self.sees_noted(number)?;
        cells.byte((address.get() % 4) as u8)
    }

    /// The bytes of a word that a program may write, by the number of the word, if that is noted.
    #[inline(always)]
    fn takes_noted(&self, number: usize) -> Option<Cells>
        requires { number < length self.now.items.items }
        ensures change { IfSome result (λ cells. Runs (touch_word (site_of self.now) Writes number) self.now
            (Ok (cells_of cells)) self.now) }
        ensures noted { IfSome result (λ _. IsTouched self.now number Puts self.now) }
    {
        if !self.is_noted(number, Mode::Puts) {
            return None;
        }
        let stored = &self.items[number];
        match stored.used {
            WordUse::Free if stored.sending == 0 => Some(stored.cells),
            _ => None,
        }
    }

    /// Sets the word at an address, as a program may do, if that is noted: whether it was done.
    #[inline(always)]
    pub(crate) fn writes_noted(&mut self, address: Word, cells: Cells) -> bool
        ensures done { result ≡ true → Runs (write_word_at (site_of self.old) address (cells_of cells)) self.old
            (Ok tt) self.new }
        ensures site { site_of self.new ≡ site_of self.old }
        ensures notes { self.new.notes ≡ self.old.notes }
        ensures kept { result ≡ false → self.new ≡ self.old }
    {
        let Ok(number) = self.number_at(address) else {
            return false;
        };
        let Some(_cells) = self.takes_noted(number) else {
            return false;
        };
        self.set(number, cells, WordUse::Free);
        true
    }

    /// The instruction of one or two bytes at an address, if their touch is noted.
    #[inline(always)]
    pub(crate) fn decodes_noted(&self, iptr: Word) -> Option<Instruction>
        ensures { IfSome result (λ instruction. Runs (decoded (site_of self.now) iptr) self.now (Ok instruction)
            self.now) }
    {
        let first = self.byte_noted(iptr)?;
        match single(first, self.kind) {
            Ok(Some(instruction)) => Some(instruction),
            Ok(None) => self.decodes_behind_noted(iptr, first),
            Err(_) => None,
        }
    }

    /// The instruction of two bytes at an address of which the first was read, a prefix, if the touch of the other is
    /// noted.
    #[inline(always)]
    fn decodes_behind_noted(&self, iptr: Word, first: u8) -> Option<Instruction>
        requires { chain_of (decode_bytes self.now.kind (first ∷ [])) ≡ Ok None }
        ensures { IfSome result (λ instruction. Runs (decoded_behind (site_of self.now) iptr first) self.now
            (Ok instruction) self.now) }
    {
        let second = self.byte_noted(iptr.plus(Word::new(1)))?;
        match chain(&[first, second], self.kind) {
            Ok(found) => found,
            Err(_) => None,
        }
    }

    /// Does an instruction on the words, if it is one of the commonest and all that it touches is noted. Answers the
    /// registers that it leaves; else nothing is changed.
    #[inline(always)]
    pub(crate) fn executes_noted(
        &mut self,
        context: &Context,
        instruction: &Instruction,
    ) -> Option<Left>
        ensures done { IfSome result (λ left. LeavesNoted (context_of context.now) instruction.now self.old
            (with_left (context_of context.now) left) self.new) }
        ensures kept { IfNone result (self.new ≡ self.old) }
    {
        let operand = instruction.operand;
        match instruction.function {
            Function::Ldl => {
                let cells = self.reads_noted(word_address(context.wptr, operand))?;
                let value = known_value(cells.are_known(), cells.word());
                Some(context.pushed(instruction, value))
            }
            Function::Ldnl => {
                let cells = self.reads_noted(word_address(context.a?, operand))?;
                let value = known_value(cells.are_known(), cells.word());
                Some(context.replaced(instruction, value))
            }
            Function::Stl => self.stores_local_noted(context, instruction),
            Function::Stnl => self.stores_non_local_noted(context, instruction),
            _ => left_alone(context, instruction, self.kind),
        }
    }

    /// Does `stl`, if the word is noted.
    #[inline(always)]
    fn stores_local_noted(&mut self, context: &Context, instruction: &Instruction) -> Option<Left>
        requires { instruction.now.function ≡ Function.Stl }
        ensures done { IfSome result (λ left. LeavesNoted (context_of context.now) instruction.now self.old
            (with_left (context_of context.now) left) self.new) }
        ensures kept { IfNone result (self.new ≡ self.old) }
    {
        let address = word_address(context.wptr, instruction.operand);
        let value = context.a.unwrap_or(Word::new(0));
        if !self.writes_noted(address, Cells::known_if(context.a.is_some(), value)) {
            return None;
        }
        Some(context.popped(instruction))
    }

    /// Does `stnl`, if A is known and the word is noted.
    #[inline(always)]
    fn stores_non_local_noted(
        &mut self,
        context: &Context,
        instruction: &Instruction,
    ) -> Option<Left>
        requires { instruction.now.function ≡ Function.Stnl }
        ensures done { IfSome result (λ left. LeavesNoted (context_of context.now) instruction.now self.old
            (with_left (context_of context.now) left) self.new) }
        ensures kept { IfNone result (self.new ≡ self.old) }
    {
        let address = word_address(context.a?, instruction.operand);
        let value = context.b.unwrap_or(Word::new(0));
        if !self.writes_noted(address, Cells::known_if(context.b.is_some(), value)) {
            return None;
        }
        Some(context.left_with(instruction, context.c, context.c, context.c))
    }
}
