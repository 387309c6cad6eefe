//! `temu certify`: its words, and what they ask for.

ghost use Rattle.std.specs.Prelude.{◌≡◌, IfOk, IfSome};
ghost use Rattle.clap.specs.Words.{found_of, rows_of};
ghost use Rattle.twords.specs.Arguments.{HasAll};
ghost use Rattle.twords.specs.Table as spec;
ghost use Rattle.twords.specs.declared.table.Which.TheVariants as Which;

use crate::arguments::{file, long_number};
use crate::names_files::{NAMES, NamesFiles, names_files};
use crate::table::{Argument, Command, CommandRow, Form, WIRING};
use clap::ArgMatches;
use std::alloc::{AllocError, Global};
use tplan::FileName;

/// A certificate, as it is asked for.
#[derive(Drop)]
pub struct Certifying {
    pub wiring: FileName,
    /// How many steps are done at most.
    pub steps: u64,
    /// The files of names.
    pub names: NamesFiles,
}

/// What the arguments of `certify` ask for.
pub(crate) fn certify_asked(
    alloc: Global,
    given: &ArgMatches,
) -> Result<Option<Command>, AllocError>
    requires { HasAll (spec.rules_of Which.Certify) (rows_of (found_of given.now)) }
    ensures command { IfOk result (λ c. spec.asked_in Which.Certify (rows_of (found_of given.now)) ≡ c) }
    ensures range { IfOk result (λ c. IfSome c spec.IsInRange) }
{
    Ok(Some(Command::Certify(Certifying {
        wiring: file(alloc, given, "wiring")?,
        steps: long_number(given, "steps"),
        names: names_files(alloc, given)?,
    })))
}

/// `certify`.
pub const CERTIFY: CommandRow = CommandRow {
    name: "certify",
    about: "Tells by one run whether each run of a net's processes ends in the same way",
    arguments: &[
        WIRING,
        Argument {
            name: "steps",
            form: Form::Number(0, i64::MAX, "9223372036854775807"),
            value: "N",
            help: "How many steps are done at most: 0 to 9223372036854775807",
        },
        NAMES,
    ],
    below: "\
In: a wiring file (see `temu run --help`). Its holds do not matter, nor does its timeslice.

The net is run once, each process by itself, without a scheduler: a process that can go on may do so
at any time. Such a run is certified if no two of its steps touch the same thing in a way that
matters, unless a chain of messages, of processes that are begun or of ends of a PAR leads from the
one to the other. Then each run of these processes can go on to this end, and to no other. And in
each run of the net, by `temu run` or `temu free`, whatever its timing, no node is frozen or halts,
and where it comes to rest, memories and sinks have the bytes that are shown here.

Out: `certified`, and the memories, sources and sinks at the end, as `temu run` prints them, with
`~~` for each byte that may depend on a scheduler. The last line is `end certified S` after S steps.
Or `race`, and a line for each of the two steps:

  writes node 0 word #80000300: node 0 process 0 step 14 #8000008b stnl 4
  reads node 0 word #80000300: node 0 process 1 step 9 #80000095 ldnl 4

and `end race S`; there may be more races. Or `refused` with a reason, and the step or the node:

  refused SawTheScheduler node 0 process 1 step 12 #8000009a cj 3
  refused TooManyProcesses node 0

and `end refused S`: the net does something of which a certificate says nothing, such as a choice
between two senders, a broken rule, a halt, or a look at what only the scheduler knows; or the limit
of steps was met (`refused Steps`).

A process is named by its number in the image; one that another has begun by the name of that one, a
dot, and its number; one that goes on after a PAR by `after`, its workspace, a dot, and how many did
so before. `step 14` is the 14th of its own steps. With `--names` each address has its name after it
(see `temu where --help`).

Exit status: 0 certified; 1 a race; 5 refused.

Example:
  temu certify pair.toml",
};
