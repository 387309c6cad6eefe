//! The number of the line at which a flaw of a text shows that is no wiring.

ghost use Rattle.std.specs.Prelude.{◌≡◌, ◌≤◌, length, map, IfOk};
ghost use Rattle.std.specs.Str.Lines.{lines};
ghost use Rattle.twiring.specs.Flaws.{text_flaws};
ghost use Rattle.tcheck.specs.Lines as spec;
ghost use Rattle.tcheck.specs.TextSentences.{flaw_text};

use crate::text_sentences::flaw_sentence;
use std::alloc::{AllocError, Global};
use twiring::{TextFlaw, text_flaws};
use tword::Items;

/// The most lines of a text whose flaws are told with the numbers of their lines: each beginning of it is read.
const MOST_LINES: usize = 400;

/// The first of the lines of a text, as a text by themselves.
#[derive(Drop)]
struct Beginning {
    /// Whether they are TOML.
    is_toml: bool,
    /// What each of their flaws is told by.
    sentences: Items<Items<u8>>,
}

/// The number of the line at which each of these flaws of a text shows, from 1. It is the last of the least number of
/// lines that have the flaw by themselves; where the text is not TOML, the one behind the last line to which it is.
/// There is none where no beginning of the text has the flaw, and none at all where the text has over 400 lines.
///
/// # Errors
/// Where the allocator refuses.
pub fn flaw_lines(
    alloc: Global,
    text: &str,
    flaws: &[TextFlaw],
) -> Result<Items<Option<usize>>, AllocError>
    ensures { IfOk result (λ found. found ≡ map (spec.line_of text.now) flaws.now) }
{
    let texts = known_beginnings(alloc, text)?;
    let mut found = Vec::with_capacity(alloc, flaws.len())?;
    for flaw in flaws {
        found.push(line_in(alloc, &texts, flaw)?)?;
    }
    Ok(Items::new(found))
}

/// The beginnings of a text, if it has few enough lines.
fn known_beginnings(alloc: Global, text: &str) -> Result<Option<Items<Beginning>>, AllocError>
    ensures { IfOk result (λ found. found ≡ spec.known_beginnings text.now) }
{
    let lines = lines_of(alloc, text)?;
    if lines.len() > MOST_LINES {
        return Ok(None);
    }
    Ok(Some(Items::new(beginnings(alloc, lines.as_slice())?)))
}

/// The lines of a text, without their ends.
fn lines_of<'a>(alloc: Global, text: &'a str) -> Result<Vec<&'a str>, AllocError>
    ensures { IfOk result (λ found. map (λ line. line.now) found.items ≡ lines text.now) }
{
    text.lines().collect(alloc)
}

/// The first of some lines, then the first two, and so on.
fn beginnings(alloc: Global, lines: &[&str]) -> Result<Vec<Beginning>, AllocError>
    ensures { IfOk result (λ found. found.items ≡ spec.beginnings (map (λ line. line.now) lines.now)) }
{
    let mut text = String::new(alloc);
    let mut found = Vec::with_capacity(alloc, lines.len())?;
    for line in lines {
        text.push_str(*line)?;
        text.push_str("\n")?;
        found.push(beginning_of(alloc, text.as_str())?)?;
    }
    Ok(found)
}

/// A beginning of a text.
fn beginning_of(alloc: Global, text: &str) -> Result<Beginning, AllocError>
    ensures { IfOk result (λ found. found ≡ spec.told (text_flaws text.now)) }
{
    let flaws = text_flaws(alloc, text)?;
    Ok(Beginning {
        is_toml: is_toml(flaws.as_slice()),
        sentences: flaw_sentences(alloc, flaws.as_slice())?,
    })
}

/// What each of these flaws is told by.
fn flaw_sentences(alloc: Global, flaws: &[TextFlaw]) -> Result<Items<Items<u8>>, AllocError>
    ensures { IfOk result (λ sentences. sentences ≡ map flaw_text flaws.now) }
{
    let mut sentences = Vec::with_capacity(alloc, flaws.len())?;
    for flaw in flaws {
        sentences.push(flaw_sentence(alloc, flaw)?)?;
    }
    Ok(Items::new(sentences))
}

/// The number of the line at which a flaw shows, if the beginnings of the text are known.
fn line_in(
    alloc: Global,
    texts: &Option<Items<Beginning>>,
    flaw: &TextFlaw,
) -> Result<Option<usize>, AllocError>
    ensures { IfOk result (λ line. line ≡ spec.line_in texts.now flaw.now) }
{
    match texts {
        Some(texts) => line_among(alloc, texts.as_slice(), flaw),
        None => Ok(None),
    }
}

/// The number of the line at which a flaw shows, by the beginnings of the text.
fn line_among(
    alloc: Global,
    texts: &[Beginning],
    flaw: &TextFlaw,
) -> Result<Option<usize>, AllocError>
    ensures { IfOk result (λ line. line ≡ spec.line_among texts.now flaw.now) }
{
    if is_no_toml(flaw) {
        return Ok(Some(toml_lines(texts) + 1));
    }
    let sentence = flaw_sentence(alloc, flaw)?;
    Ok(first_with(texts, sentence.as_slice()))
}

/// Whether a flaw says that a text is not TOML.
fn is_no_toml(flaw: &TextFlaw) -> bool
    ensures { result ≡ spec.is_no_toml flaw.now }
{
    matches!(flaw, TextFlaw::NoToml)
}

/// Whether a text that has these flaws is TOML.
fn is_toml(flaws: &[TextFlaw]) -> bool
    ensures { result ≡ spec.is_toml flaws.now }
{
    match flaws {
        [] => true,
        [flaw, ..] => !is_no_toml(flaw),
    }
}

/// The greatest number of lines that are TOML.
fn toml_lines(texts: &[Beginning]) -> usize
    ensures number { result ≡ spec.toml_lines 1 texts.now }
    ensures within { result ≤ length texts.now }
{
    let mut most = 0;
    for (number, text) in texts.iter().enumerate() {
        if text.is_toml {
            most = number + 1;
        }
    }
    most
}

/// The least number of lines that have a flaw of this sentence.
fn first_with(texts: &[Beginning], sentence: &[u8]) -> Option<usize>
    ensures { result ≡ spec.first_with sentence.now 1 texts.now }
{
    for (number, text) in texts.iter().enumerate() {
        if has_sentence(text.sentences.as_slice(), sentence) {
            return Some(number + 1);
        }
    }
    None
}

/// Whether one of these sentences is this one.
fn has_sentence(sentences: &[Items<u8>], sentence: &[u8]) -> bool
    ensures { result ≡ spec.has_sentence sentence.now sentences.now }
{
    sentences.iter().any(|told| told.as_slice() == sentence)
}
