//! Machine arithmetic on words, each by what it is over whole numbers.

ghost use Rattle.std.specs.Prelude.{◌≡◌, ◌+ℤ◌, ◌-ℤ◌, ◌*ℤ◌, ◌<◌, ◌*◌, ◌/◌, ◌%◌, ◌^◌, ◌||◌, int_div, int_le, int_lt};
ghost use Rattle.std.specs.Prelude.{neg_ℤ, pos};
ghost use Rattle.std.specs.Int.{w64, leading_zeros};
ghost use Rattle.tword.specs.Words.{word_from, signed, reduced, overflows};
ghost use Rattle.tword.specs.Touches.{is_aligned};
ghost use Rattle.tcpu.specs.Outcomes.{flag};
ghost use Rattle.tcpu.specs.Operations.{low, high, double, carry_of, sign_word};

use tword::Word;

/// The address of a word by its index from a base.
#[inline]
pub fn word_address(base: Word, index: Word) -> Word
    ensures { result ≡ word_from base index }
{
    base.plus(Word::new(index.get().wrapping_mul(4)))
}

/// An address is a multiple of 4.
#[inline]
pub fn is_word_address(address: Word) -> bool
    ensures { result ≡ is_aligned address }
{
    address.get() % 4 == 0
}

/// A truth value as a word.
#[inline]
pub fn truth(value: bool) -> Word
    ensures { result ≡ flag value }
{
    Word::new(u32::from(value))
}

/// The lowest bit.
#[inline]
pub fn carry(word: Word) -> u32
    ensures { result ≡ carry_of word }
{
    word.get() % 2
}

/// The signed sum, wrapped, and whether it overflows.
#[inline]
pub fn signed_sum(left: Word, right: Word) -> (Word, bool)
    ensures value { result.0 ≡ reduced (signed left +ℤ signed right) }
    ensures overflow { result.1 ≡ overflows (signed left +ℤ signed right) }
{
    let (sum, overflow) = left.signed().overflowing_add(right.signed());
    (Word::new(sum.cast_unsigned()), overflow)
}

/// The signed difference, wrapped, and whether it overflows.
#[inline]
pub fn signed_difference(left: Word, right: Word) -> (Word, bool)
    ensures value { result.0 ≡ reduced (signed left -ℤ signed right) }
    ensures overflow { result.1 ≡ overflows (signed left -ℤ signed right) }
{
    let (difference, overflow) = left.signed().overflowing_sub(right.signed());
    (Word::new(difference.cast_unsigned()), overflow)
}

/// The signed product, wrapped, and whether it overflows.
#[inline]
pub fn signed_product(left: Word, right: Word) -> (Word, bool)
    ensures value { result.0 ≡ reduced (signed left *ℤ signed right) }
    ensures overflow { result.1 ≡ overflows (signed left *ℤ signed right) }
{
    let (product, overflow) = left.signed().overflowing_mul(right.signed());
    (Word::new(product.cast_unsigned()), overflow)
}

/// The signed quotient, truncated toward zero and wrapped, and whether it overflows.
#[inline]
pub fn signed_quotient(dividend: Word, divisor: Word) -> (Word, bool)
    requires { 0 < divisor }
    ensures value { result.0 ≡ reduced (int_div (signed dividend) (signed divisor)) }
    ensures overflow { result.1 ≡ overflows (int_div (signed dividend) (signed divisor)) }
{
    let (quotient, overflow) = dividend.signed().overflowing_div(divisor.signed());
    (Word::new(quotient.cast_unsigned()), overflow)
}

/// The signed sum with a carry, wrapped, and whether it overflows.
#[inline]
pub fn signed_sum_with(left: Word, right: Word, carry: u32) -> (Word, bool)
    requires { carry < 2 }
    ensures value { result.0 ≡ reduced (signed left +ℤ signed right +ℤ pos carry) }
    ensures overflow { result.1 ≡ overflows (signed left +ℤ signed right +ℤ pos carry) }
{
    let sum = i64::from(left.signed()) + i64::from(right.signed()) + i64::from(carry);
    narrow(sum)
}

/// The signed difference with a borrow, wrapped, and whether it overflows.
#[inline]
pub fn signed_difference_with(left: Word, right: Word, borrow: u32) -> (Word, bool)
    requires { borrow < 2 }
    ensures value { result.0 ≡ reduced (signed left -ℤ signed right -ℤ pos borrow) }
    ensures overflow { result.1 ≡ overflows (signed left -ℤ signed right -ℤ pos borrow) }
{
    let difference = i64::from(left.signed()) - i64::from(right.signed()) - i64::from(borrow);
    narrow(difference)
}

/// The word of a whole number, and whether its signed reading is another.
#[inline]
fn narrow(value: i64) -> (Word, bool)
    ensures value { result.0 ≡ reduced value }
    ensures overflow { result.1 ≡ overflows value }
{
    let word = low_word(value.cast_unsigned());
    (word, i32::try_from(value).is_err())
}

/// All ones for a negative word, else 0.
#[inline]
pub fn sign_of(word: Word) -> Word
    ensures { result ≡ sign_word word }
{
    Word::new((word.signed() >> 31).cast_unsigned())
}

/// A signed value is no whole number from -limit up to limit - 1.
#[inline]
pub fn is_outside(value: Word, limit: Word) -> bool
    ensures { result ≡ (int_le (signed limit) (signed value) || int_lt (signed value) (neg_ℤ (signed limit))) }
{
    let value = i64::from(value.signed());
    let limit = i64::from(limit.signed());
    value >= limit || value < -limit
}

/// The number of 64 bits of two words.
#[inline]
pub fn double_word(top: Word, bottom: Word) -> u64
    ensures { result ≡ double top bottom }
{
    (u64::from(top.get()) << 32) + u64::from(bottom.get())
}

/// The low word of a number of 64 bits.
#[inline]
pub fn low_word(value: u64) -> Word
    ensures { result ≡ low value }
{
    Word::new((value % (1 << 32)) as u32)
}

/// The high word of a number of 64 bits.
#[inline]
pub fn high_word(value: u64) -> Word
    ensures { result ≡ high value }
{
    Word::new((value >> 32) as u32)
}

/// A number shifted left until its top bit is set, and how far; 0 and 64 for 0.
#[inline]
pub fn normalised(value: u64) -> (u64, u32)
    ensures number { result.0 ≡ value * 2 ^ leading_zeros w64 value }
    ensures shift { result.1 ≡ leading_zeros w64 value }
{
    let shift = value.leading_zeros();
    (value.checked_shl(shift).unwrap_or(0), shift)
}

/// The quotient and the remainder of a double word, where the quotient fits.
#[inline]
pub fn long_quotient(top: Word, bottom: Word, divisor: Word) -> (Word, Word)
    requires { top < divisor }
    ensures quotient { result.0 ≡ double top bottom / divisor }
    ensures remainder { result.1 ≡ double top bottom % divisor }
{
    let dividend = (u64::from(top.get()) << 32) + u64::from(bottom.get());
    let divisor = u64::from(divisor.get());
    (
        Word::new((dividend / divisor) as u32),
        Word::new((dividend % divisor) as u32),
    )
}
