//! What the program does, and the status that it ends with.

ghost use Rattle.std.specs.Prelude.{◌≡◌};
ghost use Rattle.tprogram.specs.Statuses.{IsStatus};
ghost use Rattle.topening.specs.Endings.{exit_status};

use crate::commands::do_command;
use std::thread::Threads;
use tcommands::output_fault;
use tconsole::NoCommand;
use tfiles::Uncounted;
use topening::{Fault, Verdict, end_command};
use twords::Command;

/// The exit status of words that are a mistake.
const MISTAKEN: u8 = 2;

/// Does the command that the words ask for, and tells its fault on standard error, if it has one. Answers the exit
/// status of the program: that of the command's verdict, or of its fault; where there is no command, 0 if help was
/// given, 2 for words that are a mistake, 3 where help could not be written, 4 where there was no memory. Where
/// standard error fails too, only the status tells of the fault. The threads of a run are started by `threads`.
pub fn do_asked<R: Threads + Sync>(
    rt: &HostRuntime,
    threads: &R,
    asked: Result<Command, NoCommand>,
) -> u8
    ensures { IsStatus asked result }
{
    match asked {
        Ok(command) => end(rt, do_command(rt, threads, &command)),
        Err(NoCommand::Helped) => end(rt, Ok(Verdict::Clear)),
        Err(NoCommand::Mistaken) => MISTAKEN,
        Err(NoCommand::OutputFailed) => end(rt, Err(output_fault())),
        Err(NoCommand::OutOfMemory) => end(rt, Err(Fault::Memory)),
    }
}

/// Ends a command: tells its fault on standard error, if it has one, and answers the status of the program.
fn end(rt: &HostRuntime, answer: Result<Verdict, Fault>) -> u8
    ensures { result ≡ exit_status answer }
{
    end_command(answer, &mut Uncounted(rt.stderr()))
}
