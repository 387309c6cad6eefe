//! The addresses that words of a command line stand for.

ghost use Rattle.std.specs.Prelude.{◌≡◌, codes};
ghost use Rattle.clap.specs.Words.{found_of, rows_of};
ghost use Rattle.twords.specs.Addresses as spec;
ghost use Rattle.twords.specs.Arguments.{HasText};
ghost use Rattle.twords.specs.Table.{address_in};

use clap::ArgMatches;
use tword::Word;

/// How many hexadecimal digits an address has at most.
const DIGITS: usize = 8;

/// The address that the word of `--address` stands for, if it does.
pub(crate) fn address(given: &ArgMatches) -> Option<Word>
    requires { HasText (codes "address") (rows_of (found_of given.now)) }
    ensures { result ≡ address_in (rows_of (found_of given.now)) }
{
    address_of(given.get_str("address").unwrap())
}

/// The address that a word stands for, if it does.
fn address_of(word: &str) -> Option<Word>
    ensures { result ≡ spec.address_of word.now }
{
    number_of(without_hash(word.as_bytes()))
}

/// A word without a `#` before it.
fn without_hash(word: &[u8]) -> &[u8]
    ensures { result.now ≡ spec.without_hash word.now }
{
    match word {
        [b'#', digits @ ..] => digits,
        _ => word,
    }
}

/// The address that 1 to 8 hexadecimal digits stand for, of either case.
fn number_of(digits: &[u8]) -> Option<Word>
    ensures { result ≡ spec.number_of digits.now }
{
    if digits.is_empty() || digits.len() > DIGITS {
        return None;
    }
    let mut value = 0;
    for digit in digits {
        value = 16 * value + char::from(*digit).to_digit(16)?;
    }
    Some(Word::new(value))
}
