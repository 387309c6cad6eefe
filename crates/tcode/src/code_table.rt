//! Decoded code that is kept beside a memory.

ghost use Rattle.std.specs.Prelude.{ℕ, ◌≡◌, ◌≢◌, ◌<◌, ◌≤◌, ◌/◌, IfOk, IfSome, Some, false, not, true};
ghost use Rattle.std.specs.Prelude.{slice_get, slice_index, ◌==◌};
ghost use Rattle.tcode.specs.Codes.{Decodes};
ghost use Rattle.tcode.specs.Decoding as spec;
ghost use Rattle.tcode.specs.Known.{AreCoded, AreFetched, AreForgotten, ArePlaced, IsFetchedWhole, IsMarked, Knows};
ghost use Rattle.tcode.specs.Known.{TellsItsBytes, entry_count};
ghost use Rattle.tcode.specs.Known as known;
ghost use Rattle.tcode.specs.Table.{function_at};
ghost use Rattle.tword.specs.Actions.{run, value_of};
ghost use Rattle.tword.specs.Claims.{Claims, overlap};
ghost use Rattle.tword.specs.Open.{AreOpenCounts};
ghost use Rattle.tword.specs.Stores.{Store};
ghost use Rattle.tword.specs.Touches.{byte_span};
ghost use Rattle.tword.specs.declared.span.Span.{Span};
ghost use Rattle.std.specs.Prelude.{length};

use crate::codes::PFIX;
use crate::decoding::{any_chain_at, short_code_at};
use std::alloc::{AllocError, Global};
use tword::limits::{MEM_START, MOST_NEG};
use tword::{Marks, Memory, Word};

/// How many entries a table has (own choice).
const ENTRIES: usize = 256;

/// An instruction that was decoded, with its bytes: one or two, or none, where nothing is kept.
#[derive(Clone, Copy, Debug)]
pub struct CodeEntry {
    /// The address of its first byte.
    pub address: Word,
    /// The value of its chain modulo 2 ^ 32.
    pub operand: Word,
    /// The address behind its last byte.
    pub behind: Word,
    /// The code of its function; where nothing is kept that of a prefix, which ends no instruction.
    pub code: u8,
    /// How many bytes it has: 0 where nothing is kept.
    pub length: u8,
    /// Its first byte.
    pub first: u8,
    /// Its second byte, if there are two.
    pub second: u8,
}

impl CodeEntry {
    /// No instruction.
    #[tactic(auto, unfolding(crate::specs::Table::function_at))]
    fn none() -> CodeEntry
        ensures none { result.length ≡ 0 }
        ensures tells { TellsItsBytes result }
    {
        CodeEntry {
            address: Word::new(0),
            operand: Word::new(0),
            behind: Word::new(0),
            code: PFIX,
            length: 0,
            first: 0,
            second: 0,
        }
    }
}

/// Decoded code that is kept beside a memory: an instruction of one or two bytes at each place, by its address, and a
/// mark for each word that programs may use, where it may have a byte of one of them.
#[derive(Drop)]
pub struct CodeTable {
    pub entries: Vec<CodeEntry>,
    pub words: Vec<u8>,
    /// No entry has a byte below this address.
    pub low: u32,
    /// No entry has a byte behind this address.
    pub last: u32,
    ghost coded: { AreCoded entries.items words.items },
    ghost placed: { ArePlaced low last entries.items },
}

impl CodeTable {
    /// A table in which nothing is kept yet, for a memory of `size` bytes.
    ///
    /// # Errors
    /// Where the allocator refuses.
    pub fn new(alloc: Global, size: u32) -> Result<CodeTable, AllocError>
        ensures { IfOk result (λ t. (store : Store) (claims : Claims) → AreFetched t.entries.items store claims) }
    {
        let open = size.saturating_sub(MEM_START - MOST_NEG);
        Ok(CodeTable {
            entries: vec![in alloc; CodeEntry::none(); ENTRIES]?,
            words: vec![in alloc; 0; open as usize / 4]?,
            low: u32::MAX,
            last: 0,
        })
    }

    /// A table in which nothing can be kept. It takes no memory.
    pub fn without_room(alloc: Global) -> CodeTable
        ensures { (store : Store) (claims : Claims) → AreFetched result.entries.items store claims }
    {
        CodeTable {
            entries: Vec::new(alloc),
            words: Vec::new(alloc),
            low: u32::MAX,
            last: 0,
        }
    }

    /// The code of the function and the operand of the instruction at an address, and the address behind it, decoded
    /// from the memory as `any_chain_at` does. Where it has one byte or two, and there is room, it is kept.
    #[cold]
    #[inline(never)]
    pub fn learn(
        &mut self,
        memory: &Memory,
        marks: &Marks,
        counts: &[u16],
        iptr: Word,
    ) -> Option<(u8, Word, Word)>
        requires counts { AreOpenCounts counts.now (length memory.now.bytes) marks.now }
        requires fetched { AreFetched self.old.entries.items memory.now.bytes marks.now }
        ensures decoded { IfSome result (λ chain. Decodes memory.now.kind iptr (function_at chain.0) chain.1 chain.2
            (value_of (run (spec.decode memory.now.kind iptr) memory.now.bytes marks.now))) }
        ensures fetched { AreFetched self.new.entries.items memory.now.bytes marks.now }
    {
        let Some(entry) = short_code_at(memory, marks, counts, iptr) else {
            return any_chain_at(memory, marks, iptr);
        };
        let chain = (entry.code, entry.operand, entry.behind);
        self.keep(entry);
        Some(chain)
    }

    /// Keeps an instruction in the place of another one, if there is room.
    fn keep(&mut self, entry: CodeEntry)
        requires { TellsItsBytes entry }
        ensures { (store : Store) (claims : Claims) → AreFetched self.old.entries.items store claims
            → IsFetchedWhole store claims entry → AreFetched self.new.entries.items store claims }
    {
        let place = entry.address.get() as usize % ENTRIES;
        if place < self.entries.len() && self.mark_bytes(&entry) {
            self.entries[place] = entry;
        }
    }

    /// Marks the words with bytes of an instruction, if there is room.
    fn mark_bytes(&mut self, entry: &CodeEntry) -> bool
        ensures same { self.new.entries ≡ self.old.entries }
        ensures marked { result ≡ true → known.OfEachByte (IsMarked self.new.words.items) entry.now }
        ensures within { result ≡ true
            → known.OfEachByte (λ a. (self.new.low ≤ a) × (a ≤ self.new.last)) entry.now }
    {
        (entry.length == 0 || self.mark(entry.address))
            && (entry.length <= 1 || self.mark(entry.address.plus(Word::new(1))))
    }

    /// Marks the word of an address, if there is room.
    fn mark(&mut self, address: Word) -> bool
        ensures same { self.new.entries ≡ self.old.entries }
        ensures marked { result ≡ true → IsMarked self.new.words.items address }
        ensures within { result ≡ true → (self.new.low ≤ address) × (address ≤ self.new.last) }
        ensures others { (a : ℕ) → IsMarked self.old.words.items a → IsMarked self.new.words.items a }
        ensures wider { (self.new.low ≤ self.old.low) × (self.old.last ≤ self.new.last) }
    {
        let place = word_place(address);
        if place >= self.words.len() {
            return false;
        }
        self.words[place] = 1;
        self.low = u32::min(self.low, address.get());
        self.last = u32::max(self.last, address.get());
        true
    }

    /// Whether an instruction may be kept.
    #[inline(always)]
    pub fn may_keep_any(&self) -> bool
        ensures { result ≡ false → (span : Span) → AreForgotten span self.now.entries.items self.now.entries.items }
    {
        self.low <= self.last
    }

    /// Forgets each instruction that has a byte of a span.
    #[inline(always)]
    pub fn forget(&mut self, start: Word, size: u32)
        ensures { AreForgotten (record { start = start; size = size }) self.old.entries.items self.new.entries.items }
    {
        if !self.lies_apart(start, size) {
            self.forget_closely(start, size);
        }
    }

    /// Whether the bounds show that no instruction has a byte of a span.
    #[inline(always)]
    fn lies_apart(&self, start: Word, size: u32) -> bool
        ensures { result ≡ true → (a : ℕ) → self.now.low ≤ a → a ≤ self.now.last
            → overlap (byte_span a) (record { start = start; size = size }) ≡ false }
    {
        let start = u64::from(start.get());
        start + u64::from(size) <= u64::from(self.low) || start > u64::from(self.last)
    }

    /// Forgets each instruction that has a byte of a span, word by word.
    #[cold]
    #[inline(never)]
    fn forget_closely(&mut self, start: Word, size: u32)
        ensures { AreForgotten (record { start = start; size = size }) self.old.entries.items self.new.entries.items }
    {
        let start = u64::from(start.get());
        let end = start + u64::from(size);
        let first = u64::max(start, u64::from(self.low)) / 4;
        let behind = (u64::min(end, u64::from(self.last) + 1) + 3) / 4;
        for word in first..behind {
            self.forget_word(word as u32);
        }
    }

    /// Forgets each instruction that has a byte of a word.
    fn forget_word(&mut self, word: u32)
        requires { word < 1073741824 }
        ensures forgets { (k : ℕ) (e : CodeEntry) → slice_get self.new.entries.items k ≡ Some e → 0 < e.length
            → (slice_get self.old.entries.items k ≡ Some e) × known.OfEachByte (λ a. a / 4 ≢ word) e }
        ensures low { self.new.low ≡ self.old.low }
        ensures last { self.new.last ≡ self.old.last }
    {
        let address = Word::new(word * 4);
        if !is_marked(self.words.as_slice(), address) {
            return;
        }
        // An instruction of two bytes may begin at the address before.
        for k in 0..5 {
            self.drop_at(address.minus(Word::new(1)).plus(Word::new(k)));
        }
        let place = word_place(address);
        if place < self.words.len() {
            self.words[place] = 0;
        }
    }

    /// Forgets the instruction at an address, if it is kept.
    fn drop_at(&mut self, address: Word)
        ensures words { self.new.words ≡ self.old.words }
        ensures low { self.new.low ≡ self.old.low }
        ensures last { self.new.last ≡ self.old.last }
        ensures dropped { (k : ℕ) (e : CodeEntry) → slice_get self.new.entries.items k ≡ Some e → 0 < e.length
            → (slice_get self.old.entries.items k ≡ Some e) × (e.address ≢ address) }
    {
        let place = address.get() as usize % ENTRIES;
        if place < self.entries.len() && self.entries[place].address == address {
            self.entries[place] = CodeEntry::none();
        }
    }
}

/// The place of the word of an address among the words that programs may use.
#[inline(always)]
fn word_place(address: Word) -> usize
    ensures { result ≡ known.word_place address }
{
    (address.get().wrapping_sub(MEM_START) / 4) as usize
}

/// Whether the word of an address is marked as one with bytes of kept code.
#[inline(always)]
pub fn is_marked(words: &[u8], address: Word) -> bool
    ensures { result ≡ not (slice_index words.now (known.word_place address) == 0) }
{
    match words.get(word_place(address)) {
        Some(mark) => *mark != 0,
        None => false,
    }
}

/// The code of the function and the operand of the instruction at an address, and the address behind it, if it is kept:
/// as `decode` finds them, but whether the operation is listed for the kind is left open.
#[inline(always)]
pub fn known_at(
    entries: &[CodeEntry],
    words: &[u8],
    memory: &Memory,
    marks: &Marks,
    iptr: Word,
) -> Option<(u8, Word, Word)>
    requires { Knows entries.now words.now memory.now.bytes marks.now }
    ensures { IfSome result (λ chain. Decodes memory.now.kind iptr (function_at chain.0) chain.1 chain.2
        (value_of (run (spec.decode memory.now.kind iptr) memory.now.bytes marks.now))) }
{
    let entry = entries.get(iptr.get() as usize % ENTRIES)?;
    if entry.address == iptr {
        Some((entry.code, entry.operand, entry.behind))
    } else {
        None
    }
}
