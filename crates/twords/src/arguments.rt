//! The arguments of a command that were given, each by its name.

ghost use Rattle.std.specs.Prelude.{◌≡◌, ◌≤◌, IfOk};
ghost use Rattle.clap.specs.Words.{first_of, found_of, rows_of};
ghost use Rattle.twords.specs.Arguments.{HasNumber, HasSigned, HasText, IsWithin, flag_at, number_at, signed_at};
ghost use Rattle.twords.specs.Arguments.{text_at};

use clap::ArgMatches;
use std::alloc::{AllocError, Global};
use tplan::FileName;

/// The name of a file that had to be given.
pub(crate) fn file(alloc: Global, given: &ArgMatches, id: &str) -> Result<FileName, AllocError>
    requires { HasText id.now (rows_of (found_of given.now)) }
    ensures { IfOk result (λ s. s ≡ text_at id.now (rows_of (found_of given.now))) }
{
    FileName::from_str(alloc, given.get_str(id).unwrap())
}

/// The name of a file that may be left out.
pub(crate) fn optional_file(
    alloc: Global,
    given: &ArgMatches,
    id: &str,
) -> Result<Option<FileName>, AllocError>
    ensures { IfOk result (λ o. o ≡ first_of id.now (rows_of (found_of given.now))) }
{
    match given.get_str(id) {
        Some(name) => Ok(Some(FileName::from_str(alloc, name)?)),
        None => Ok(None),
    }
}

/// Whether an option with nothing behind it was given: the parser holds `true` of it then, and else `false`.
pub(crate) fn is_given(given: &ArgMatches, id: &str) -> bool
    ensures { result ≡ flag_at id.now (rows_of (found_of given.now)) }
{
    match given.get_str(id) {
        Some(value) => value == "true",
        None => false,
    }
}

/// The number of an option.
pub(crate) fn number(given: &ArgMatches, id: &str) -> u32
    requires { HasNumber 0 u32.MAX id.now (rows_of (found_of given.now)) }
    ensures { result ≡ number_at id.now (rows_of (found_of given.now)) }
{
    given.get_one::<u32>(id).unwrap()
}

/// The number of an option that is at most 255.
pub(crate) fn small_number(given: &ArgMatches, id: &str) -> u8
    requires { HasNumber 0 u8.MAX id.now (rows_of (found_of given.now)) }
    ensures { result ≡ number_at id.now (rows_of (found_of given.now)) }
{
    given.get_one::<u8>(id).unwrap()
}

/// The number of an option that may be longer.
pub(crate) fn long_number(given: &ArgMatches, id: &str) -> u64
    requires { HasNumber 0 9223372036854775807 id.now (rows_of (found_of given.now)) }
    ensures value { result ≡ number_at id.now (rows_of (found_of given.now)) }
    ensures range { result ≤ 9223372036854775807 }
{
    given.get_one::<u64>(id).unwrap()
}

/// The number of an option that may be negative.
pub(crate) fn signed_number(given: &ArgMatches, id: &str) -> i64
    requires { HasSigned 4294967295 id.now (rows_of (found_of given.now)) }
    ensures value { result ≡ signed_at id.now (rows_of (found_of given.now)) }
    ensures range { IsWithin 4294967295 result }
{
    given.get_one::<i64>(id).unwrap()
}
