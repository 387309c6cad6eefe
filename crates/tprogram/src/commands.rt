//! The commands of the program: which call does each.

ghost use Rattle.std.specs.Prelude.{IfOk};
ghost use Rattle.tprogram.specs.Statuses.{IsVerdictOf};

use crate::certifying::do_certify;
use crate::exploring::do_explore;
use std::thread::Threads;
use tcommands::{
    Manner, do_chart, do_check, do_dis, do_replay, do_run, do_steps, do_watch, do_where,
    optional_text,
};
use topening::{Fault, Verdict};
use twords::Command;

/// Does a command, and answers its verdict. The threads of a run are started by `threads`.
///
/// What is written goes to files and streams, of which no contract can speak; what follows from the bytes of the files
/// is in the contracts of the calls of `ttext`, `tstanding`, `toutcomes`, `tfindings` and `tcheck`.
///
/// # Errors
/// Those of the call that does the command.
pub(crate) fn do_command<R: Threads + Sync>(
    rt: &HostRuntime,
    threads: &R,
    command: &Command,
) -> Result<Verdict, Fault>
    // the verdict is one that a command of its kind may have
    ensures { IfOk result (IsVerdictOf command.now) }
{
    match command {
        Command::Run(asked) => do_run(rt, threads, Manner::Rounds, asked),
        Command::Free(asked) => do_run(rt, threads, Manner::Free, asked),
        Command::Explore(asked) => do_explore(rt, asked),
        Command::Certify(asked) => do_certify(rt, asked),
        Command::Replay {
            wiring,
            log,
            events,
            printing,
        } => do_replay(rt, wiring.as_str(), log.as_str(), *events, *printing),
        Command::Where {
            wiring,
            log,
            events,
            names,
        } => do_where(rt, wiring.as_str(), log.as_str(), *events, names),
        Command::Steps(asked) => do_steps(rt, asked),
        Command::Watch(asked) => do_watch(rt, asked),
        Command::Chart {
            wiring,
            log,
            events,
        } => do_chart(rt, wiring.as_str(), log.as_str(), *events),
        Command::Check { wiring } => do_check(rt, wiring.as_str()),
        Command::Dis { image, kind, names } => {
            do_dis(rt, image.as_str(), *kind, optional_text(names))
        }
    }
}
