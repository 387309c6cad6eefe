//! The words of the command line, as the system gives them.

ghost use Rattle.std.specs.Prelude.{◌≡◌, IfErr, IfOk, string_bytes};
ghost use Rattle.tconsole.specs.Words as spec;
ghost use Rattle.tconsole.specs.declared.words.WordFault.TheVariants.{OutOfMemory};

use std::alloc::{AllocError, AllocFailed, Global};
use std::env::FillError;
use std::rt::Env;
use std::str;

/// How long a word is thought to be at first.
const LENGTH: usize = 256;

/// Why there are no words of the command line.
#[derive(Clone, Copy)]
pub(crate) enum WordFault {
    /// The word at this place is not UTF-8. The program's name, which is not judged, stands at place 0.
    NotText(usize),
    /// The allocator refused.
    OutOfMemory,
}

impl From<AllocError> for WordFault {
    ghost from_gives = { λ _ fault. fault ≡ OutOfMemory };

    fn from(_error: AllocError) -> WordFault {
        WordFault::OutOfMemory
    }
}

impl<T: Drop> From<AllocFailed<T>> for WordFault {
    ghost from_gives = { λ _ fault. fault ≡ OutOfMemory };

    fn from(_error: AllocFailed<T>) -> WordFault {
        WordFault::OutOfMemory
    }
}

/// The words of the command line, the program's name first.
///
/// # Errors
/// `NotText` with the first word behind the program's name that is not UTF-8. `OutOfMemory` where the allocator
/// refused.
pub(crate) fn given_words(rt: &HostRuntime) -> Result<Vec<String>, WordFault> {
    let mut words = Vec::new(rt.alloc());
    for place in 0..usize::MAX {
        let Some(bytes) = given_word(rt, place)? else {
            break;
        };
        words.push(text_of(rt.alloc(), place, bytes.as_slice())?)?;
    }
    Ok(words)
}

/// The bytes of the word at a place, if there is one.
fn given_word(rt: &HostRuntime, place: usize) -> Result<Option<Vec<u8>>, AllocError> {
    let mut length = LENGTH;
    for _ in 0..usize::BITS {
        let mut bytes = vec![in rt.alloc(); 0; length]?;
        match rt.arg(place, &mut bytes) {
            Ok(end) => {
                bytes.truncate(end);
                return Ok(Some(bytes));
            }
            Err(FillError::NotPresent) => return Ok(None),
            Err(FillError::TooLong) => length = length.saturating_mul(2),
        }
    }
    Err(AllocError)
}

/// The text of the word at a place. A program's name that is none is told as `temu`.
fn text_of(alloc: Global, place: usize, bytes: &[u8]) -> Result<String, WordFault>
    ensures text { IfOk result (λ text. spec.IsWordText place bytes.now (string_bytes text)) }
    ensures fault { IfErr result (spec.IsWordFault place bytes.now) }
{
    let text = match str::from_utf8(bytes) {
        Ok(text) => text,
        Err(_) if place == 0 => "temu",
        Err(_) => return Err(WordFault::NotText(place)),
    };
    Ok(String::from_str(alloc, text)?)
}
