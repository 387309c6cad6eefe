//! The option `--events` with a negative number behind it.

ghost use Rattle.std.specs.Prelude.{◌≡◌, IfOk, map, string_bytes};
ghost use Rattle.twords.specs.CommandLines as spec;

use std::alloc::{AllocError, Global};

/// A first word, and of how many words it is made.
#[derive(Drop)]
struct First {
    word: String,
    taken: usize,
}

/// Words in which `--events` and a negative number behind it are one word, `--events=-3`: the parser takes a word that
/// begins with a minus for an option.
pub(crate) fn with_events_joined(alloc: Global, words: &[&str]) -> Result<Vec<String>, AllocError>
    ensures { IfOk result (λ joined. map string_bytes joined.items
        ≡ spec.with_events_joined (map (λ w. w.now) words.now)) }
{
    let mut joined = Vec::new(alloc);
    let mut place = 0;
    for _ in 0..words.len() {
        let Some(first) = first_of(alloc, &words[place..])? else {
            break;
        };
        joined.push(first.word)?;
        place += first.taken;
    }
    Ok(joined)
}

/// The first word of words, joined with the one behind it where they belong together; none where there are no words.
fn first_of(alloc: Global, words: &[&str]) -> Result<Option<First>, AllocError>
    ensures { IfOk result (spec.IsFirst (map (λ w. w.now) words.now)) }
{
    match words {
        [] => Ok(None),
        [word, next, ..] if joins(word, next) => Ok(Some(First {
            word: joined_word(alloc, word, next)?,
            taken: 2,
        })),
        [word, ..] => Ok(Some(First {
            word: String::from_str(alloc, word)?,
            taken: 1,
        })),
    }
}

/// Whether a word and the one behind it are `--events` and a negative number.
fn joins(word: &str, next: &str) -> bool
    ensures { result ≡ spec.joins word.now next.now }
{
    word == "--events" && is_negative(next)
}

/// Whether a word is a minus and a digit, whatever follows.
fn is_negative(word: &str) -> bool
    ensures { result ≡ spec.is_negative word.now }
{
    match word.as_bytes() {
        [minus, digit, ..] => *minus == b'-' && digit.is_ascii_digit(),
        _ => false,
    }
}

/// An option and its value as one word.
fn joined_word(alloc: Global, option: &str, value: &str) -> Result<String, AllocError>
    ensures { IfOk result (λ word. string_bytes word ≡ spec.joined_word option.now value.now) }
{
    let mut word = String::from_str(alloc, option)?;
    word.push_str("=")?;
    word.push_str(value)?;
    Ok(word)
}

/// The texts of words.
pub(crate) fn texts_of<'a>(alloc: Global, words: &'a [String]) -> Result<Vec<&'a str>, AllocError>
    ensures { IfOk result (λ texts. map (λ t. t.now) texts.items ≡ map string_bytes words.now) }
{
    let mut texts = Vec::new(alloc);
    for word in words {
        texts.push(word.as_str())?;
    }
    Ok(texts)
}
