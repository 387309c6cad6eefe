//! The words of a command line, and what they ask for.

ghost use Rattle.std.specs.Prelude.{◌≡◌, IfOk, IfSome, Some, map};
ghost use Rattle.clap.specs.Values.{kind_of};
ghost use Rattle.clap.specs.Words.{FailsBy, fault_of, found_of, rows_of};
ghost use Rattle.clap.specs.declared.error.kind.ErrorKind.TheVariants.{InvalidValue};
ghost use Rattle.twords.specs.CommandLines as spec;
ghost use Rattle.twords.specs.CommandLines.{command_of, refusals};
ghost use Rattle.twords.specs.Table.{IsInRange};

use crate::arguments::is_given;
use crate::help_words::with_help_option;
use crate::joined_words::{texts_of, with_events_joined};
use crate::parsers::{parser, program};
use crate::table::{COMMANDS, Command, Which};
use clap::ArgMatches;
use clap::error::ErrorKind;
use std::alloc::{AllocError, Global};

/// Why no command was read: help was asked for, or the words are a mistake, or there was no memory (`kind`).
/// `print` writes its text where `use_stderr` says.
pub type CommandFault = clap::Error;

/// What the words of a command line ask for, of which the first is the program's name: each option is the value
/// that the words give or its default.
///
/// # Errors
/// Where help is asked for, by `help` or by `--help`, or the words are a mistake: `clap`'s error of it, else
/// `OutOfMemory` where the allocator refuses.
pub fn read_words(alloc: Global, words: &[&str]) -> Result<Command, CommandFault>
    ensures command { IfOk result (λ c. command_of (map (λ w. w.now) words.now) ≡ Some c) }
    ensures range { IfOk result IsInRange }
    ensures refused { FailsBy (refusals (map (λ w. w.now) words.now)) result }
{
    let words = with_help_option(alloc, words)?;
    let words = with_events_joined(alloc, words.as_slice())?;
    let words = texts_of(alloc, words.as_slice())?;
    read_without_help(alloc, words.as_slice())
}

/// What words ask for in which help is asked for only by `--help`.
fn read_without_help(alloc: Global, words: &[&str]) -> Result<Command, CommandFault>
    ensures command { IfOk result (λ c. spec.command_without_help (map (λ w. w.now) words.now) ≡ Some c) }
    ensures range { IfOk result IsInRange }
    ensures refused { FailsBy (spec.refusals_without_help (map (λ w. w.now) words.now)) result }
{
    match read_taken(alloc, words) {
        Ok(Ok(command)) => Ok(command),
        Ok(Err(unread)) => Err(refused_word(alloc, &unread)?),
        Err(fault) => Err(fault),
    }
}

/// A command of whose words one stands for nothing.
#[derive(Clone, Copy)]
struct Unread {
    which: Which,
    /// What is told of that word.
    refusal: &'static str,
}

/// What words ask for that the parser takes; why not, where a word of an option stands for nothing.
fn read_taken(alloc: Global, words: &[&str]) -> Result<Result<Command, Unread>, CommandFault>
    ensures command { IfOk result (λ taken. spec.command_without_help (map (λ w. w.now) words.now)
        ≡ spec.command_taken taken) }
    ensures range { IfOk result (λ taken. IfOk taken IsInRange) }
    ensures refused { FailsBy (fault_of spec.program (map (λ w. w.now) words.now)) result }
{
    let matches = program(alloc)?.try_get_matches_from(words)?;
    let Some((name, given)) = matches.subcommand() else {
        unreachable!()
    };
    Ok(asked(alloc, name, given)?)
}

/// The fault of a word that stands for nothing.
fn refused_word(alloc: Global, unread: &Unread) -> Result<CommandFault, AllocError>
    ensures { IfOk result (λ fault. kind_of fault ≡ InvalidValue) }
{
    parser(alloc, unread.which)?
        .bin_name(unread.which.called())?
        .error(ErrorKind::InvalidValue, unread.refusal)
}

/// What is told of the word of this command that stands for nothing.
fn refusal(which: Which, given: &ArgMatches) -> &'static str {
    if matches!(which, Which::Watch) {
        "invalid value for '--address <A>': not 1 to 8 hexadecimal digits, as 80000100"
    } else if is_given(given, "json") && is_where(given) {
        "the argument '--json' cannot be used with '--show where'"
    } else if is_given(given, "certify") && is_where(given) {
        "the argument '--certify' cannot be used with '--show where'"
    } else if is_given(given, "certify") && given.get_str("log").is_some() {
        "the argument '--certify' cannot be used with '--log <PREFIX>'"
    } else {
        "invalid value for '--show <WHAT>': not dump, where or none"
    }
}

/// Whether the word of `--show` is `where`.
fn is_where(given: &ArgMatches) -> bool {
    match given.get_str("show") {
        Some(word) => word == "where",
        None => false,
    }
}

/// The command of this name, if there is one.
fn named(name: &str) -> Option<Which>
    ensures { result ≡ spec.named name.now }
{
    for which in COMMANDS {
        if which.name() == name {
            return Some(which);
        }
    }
    None
}

/// What the arguments of the command of this name ask for; why not, where a word of an option stands for nothing.
fn asked(
    alloc: Global,
    name: &str,
    given: &ArgMatches,
) -> Result<Result<Command, Unread>, AllocError>
    requires { spec.IsWhole name.now (rows_of (found_of given.now)) }
    ensures command { IfOk result (λ taken. spec.command_in (Some (name.now, rows_of (found_of given.now)))
        ≡ spec.command_taken taken) }
    ensures range { IfOk result (λ taken. IfOk taken IsInRange) }
{
    let Some(which) = named(name) else {
        unreachable!()
    };
    match which.asked(alloc, given)? {
        Some(command) => Ok(Ok(command)),
        None => Ok(Err(Unread {
            which,
            refusal: refusal(which, given),
        })),
    }
}
