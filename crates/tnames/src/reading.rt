//! The reader of a file of names.

ghost use Rattle.std.specs.Prelude.{◌≡◌, ◌==◌, ◌<◌, ◌+◌, IfOk, MatchOption, drop, length, position};
ghost use Rattle.std.specs.List.{list_all};
ghost use Rattle.tnames.specs.Lines as spec;
ghost use Rattle.tnames.specs.Lines.{names_of, IsNamesAnswer};
ghost use Rattle.tnames.specs.declared.reading.NamesFault.TheVariants.{OutOfMemory};

use crate::names::{Name, Names};
use std::alloc::{AllocError, AllocFailed, Global};
use thiserror::Error;
use tword::{Items, Word};

/// How many hexadecimal digits an address has.
pub(crate) const DIGITS: usize = 8;

/// Why a text is no file of names.
#[derive(Clone, Copy, Debug, PartialEq, Eq, Error)]
pub enum NamesFault {
    /// The line of this number, counted from 1, is no address with a name, or is the last one and has no end.
    #[error("line {0} is no address with a name")]
    BadLine(usize),
    /// The allocator refused.
    #[error("out of memory")]
    OutOfMemory,
}

impl From<AllocError> for NamesFault {
    ghost from_gives = { λ _ fault. fault ≡ OutOfMemory };

    fn from(_error: AllocError) -> NamesFault {
        NamesFault::OutOfMemory
    }
}

impl<T: Drop> From<AllocFailed<T>> for NamesFault {
    ghost from_gives = { λ _ fault. fault ≡ OutOfMemory };

    fn from(_error: AllocFailed<T>) -> NamesFault {
        NamesFault::OutOfMemory
    }
}

/// The names of a file (own choice of format): each line is an address, of eight hexadecimal digits in either case, one
/// blank and a name, of one or more characters from `!` to `~`, and has its end. An address and a name may come again.
///
/// The bytes are gone through once, and memory is asked for as names are read.
///
/// # Errors
/// `BadLine` with the number of the first line that is none of these; `OutOfMemory` where the allocator refuses.
pub fn read_names(alloc: Global, bytes: &[u8]) -> Result<Names, NamesFault>
    ensures { IsNamesAnswer (names_of bytes.now) result }
{
    let mut list = Vec::new(alloc);
    let mut rest = bytes;
    while let Some(end) = end_of_line(rest) {
        let Some(found) = name_in(&rest[..end]) else {
            return Err(NamesFault::BadLine(list.len() + 1));
        };
        list.push(new_name(alloc, found.0, found.1)?)?;
        rest = behind(rest, end);
    }
    if rest.is_empty() {
        Ok(Names::new(list))
    } else {
        Err(NamesFault::BadLine(list.len() + 1))
    }
}

/// Where the first line ends.
pub(crate) fn end_of_line(bytes: &[u8]) -> Option<usize>
    ensures { result ≡ position (λ byte. byte == 10) bytes.now }
{
    bytes.iter().position(|byte| *byte == b'\n')
}

/// What stands behind the byte at a place.
pub(crate) fn behind(bytes: &[u8], place: usize) -> &[u8]
    requires { place < length bytes.now }
    ensures { result.now ≡ drop (place + 1) bytes.now }
{
    &bytes[place + 1..]
}

/// A name with characters of its own.
fn new_name(alloc: Global, address: Word, text: &[u8]) -> Result<Name, AllocError>
    ensures { IfOk result (λ name. name ≡ record { address = address; text = text.now }) }
{
    Ok(Name {
        address,
        text: Items::new(text.to_vec(alloc)?),
    })
}

/// The address and the name that a line stands for.
fn name_in(line: &[u8]) -> Option<(Word, &[u8])>
    ensures { MatchOption result (spec.name_of line.now ≡ None)
        (λ name. spec.name_of line.now ≡ Some (record { address = name.0; text = name.1.now })) }
{
    if line.len() < DIGITS + 2 || line[DIGITS] != b' ' {
        return None;
    }
    let text = &line[DIGITS + 1..];
    if !are_characters(text) {
        return None;
    }
    let address = address_of(&line[..DIGITS])?;
    Some((address, text))
}

/// Whether these are characters that a name may have.
fn are_characters(text: &[u8]) -> bool
    ensures { result ≡ list_all spec.is_character text.now }
{
    text.iter().all(|byte| (b'!'..=b'~').contains(byte))
}

/// The address that eight hexadecimal digits stand for.
pub(crate) fn address_of(digits: &[u8]) -> Option<Word>
    ensures { result ≡ spec.address_of digits.now }
{
    let mut bytes = [0; DIGITS / 2];
    match hex::decode_to_slice(digits, &mut bytes) {
        Ok(()) => Some(Word::new(u32::from_be_bytes(bytes))),
        Err(_) => None,
    }
}
