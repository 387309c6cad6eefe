//! The command that the words of the command line ask for.

ghost use Rattle.std.specs.Prelude.{◌≡◌, IfOk};
ghost use Rattle.clap.specs.Values.{kind_of};
ghost use Rattle.tconsole.specs.Asking.{IsReason};
ghost use Rattle.tconsole.specs.declared.asking.NoCommand.TheVariants.{Mistaken};
ghost use Rattle.twords.specs.Table.{IsInRange};

use crate::words::{WordFault, given_words};
use clap::error::ErrorKind;
use twords::{Command, CommandFault, read_words};

/// Why no command is done.
#[derive(Clone, Copy)]
pub enum NoCommand {
    /// Help or the version was asked for, and it was given.
    Helped,
    /// The words are a mistake, and standard error was told which.
    Mistaken,
    /// What was asked for in place of a command could not be written.
    OutputFailed,
    /// The allocator refused.
    OutOfMemory,
}

/// The command that the program's words ask for. Where they ask for none, it is told why, or help is given.
///
/// # Errors
/// `Helped` or `OutputFailed` where help or the version was asked for; `Mistaken` where a word is not UTF-8 or the
/// words are a mistake, also where standard error fails; else `OutOfMemory` where the allocator refused.
pub fn read_command(rt: &HostRuntime) -> Result<Command, NoCommand>
    ensures range { IfOk result IsInRange }
{
    match given_words(rt) {
        Ok(words) => command_of(rt, words.as_slice()),
        Err(WordFault::NotText(place)) => Err(refuse_word(rt, place)),
        Err(WordFault::OutOfMemory) => Err(NoCommand::OutOfMemory),
    }
}

/// The command that these words ask for.
///
/// # Errors
/// Those of `read_command`.
fn command_of(rt: &HostRuntime, words: &[String]) -> Result<Command, NoCommand>
    ensures range { IfOk result IsInRange }
{
    match command_in(rt, words) {
        Ok(command) => Ok(command),
        Err(fault) => Err(refuse(rt, &fault)),
    }
}

/// The command that these words ask for, or the parser's fault.
fn command_in(rt: &HostRuntime, words: &[String]) -> Result<Command, CommandFault>
    ensures range { IfOk result IsInRange }
{
    let mut texts = Vec::new(rt.alloc());
    for word in words {
        texts.push(word.as_str())?;
    }
    read_words(rt.alloc(), texts.as_slice())
}

/// Tells why the words ask for no command, or gives the help that they ask for.
fn refuse(rt: &HostRuntime, fault: &CommandFault) -> NoCommand
    ensures { IsReason (kind_of fault.now) result }
{
    match fault.kind() {
        ErrorKind::OutOfMemory => NoCommand::OutOfMemory,
        ErrorKind::DisplayHelp | ErrorKind::DisplayVersion => match fault.print(rt) {
            Ok(()) => NoCommand::Helped,
            Err(_) => NoCommand::OutputFailed,
        },
        _ => {
            // Where standard error fails too, only the status tells.
            let _ = fault.print(rt);
            NoCommand::Mistaken
        }
    }
}

/// Tells on standard error that the word at this place is not UTF-8, as other mistakes in words are told.
fn refuse_word(rt: &HostRuntime, place: usize) -> NoCommand
    ensures { result ≡ Mistaken }
{
    // Where standard error fails too, only the status tells.
    let _ = eprint!(rt;
        "error: word {place} is not UTF-8\n\nUsage: temu <COMMAND>\n\nFor more information, try '--help'.\n"
    );
    NoCommand::Mistaken
}
