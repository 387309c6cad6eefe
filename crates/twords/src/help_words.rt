//! The word `help`.

ghost use Rattle.std.specs.Prelude.{◌≡◌, IfOk, map};
ghost use Rattle.twords.specs.CommandLines as spec;

use std::alloc::{AllocError, Global};

/// The words of a command line, in which `help ..` behind the program's name stands for `.. --help`.
pub(crate) fn with_help_option<'a>(
    alloc: Global,
    words: &[&'a str],
) -> Result<Vec<&'a str>, AllocError>
    ensures { IfOk result (λ plain. map (λ w. w.now) plain.items ≡ spec.with_help_option (map (λ w. w.now) words.now)) }
{
    match words {
        [program, first, rest @ ..] if *first == "help" => asking_help(alloc, program, rest),
        _ => Vec::from_slice(alloc, words),
    }
}

/// The program's name, some words, and `--help`.
fn asking_help<'a>(
    alloc: Global,
    program: &'a str,
    words: &[&'a str],
) -> Result<Vec<&'a str>, AllocError>
    ensures { IfOk result (λ plain. map (λ w. w.now) plain.items
        ≡ spec.asking_help program.now (map (λ w. w.now) words.now)) }
{
    let mut plain = Vec::new(alloc);
    plain.push(program)?;
    plain.extend_from_slice(words)?;
    plain.push("--help")?;
    Ok(plain)
}
