//! The commands that tell the history of a node, or draw that of a net: the words that they take, and what these ask
//! for.

ghost use Rattle.std.specs.Prelude.{◌≡◌, ◌≤◌, IfOk, IfSome, codes};
ghost use Rattle.clap.specs.Words.{found_of, rows_of};
ghost use Rattle.twords.specs.Arguments.{HasAll, HasNumber, number_at};
ghost use Rattle.twords.specs.Table as spec;

use crate::addresses::address;
use crate::arguments::{file, number, signed_number, small_number};
use crate::names_files::{NAMES, NamesFiles, names_files};
use crate::table::{Argument, Command, CommandRow, EVENTS, Form, LOG_TO_READ, WIRING, Which};
use clap::ArgMatches;
use std::alloc::{AllocError, Global};
use tplan::FileName;
use tword::Word;

/// The history of a node, as it is asked for.
#[derive(Drop)]
pub struct Stepping {
    pub wiring: FileName,
    pub log: FileName,
    /// The number of the node.
    pub node: u8,
    /// The number of the first event that is told; the first of the log is 0.
    pub from: u32,
    /// How many events are done at most.
    pub to: u32,
    /// How many of the node's last events are told at most.
    pub last: u32,
    /// The files of names.
    pub names: NamesFiles,
}

/// The history of some bytes of a node, as it is asked for.
#[derive(Drop)]
pub struct Watching {
    pub wiring: FileName,
    pub log: FileName,
    /// The number of the node.
    pub node: u8,
    /// The address of the first byte.
    pub address: Word,
    /// How many bytes there are.
    pub length: u32,
    /// The files of names.
    pub names: NamesFiles,
}

/// What the arguments of `steps` ask for.
pub(crate) fn steps_asked(alloc: Global, given: &ArgMatches) -> Result<Option<Command>, AllocError>
    requires { HasAll (spec.rules_of Which.Steps) (rows_of (found_of given.now)) }
    ensures command { IfOk result (λ c. spec.asked_in Which.Steps (rows_of (found_of given.now)) ≡ c) }
    ensures range { IfOk result (λ c. IfSome c spec.IsInRange) }
{
    Ok(Some(Command::Steps(Stepping {
        wiring: file(alloc, given, "wiring")?,
        log: file(alloc, given, "log")?,
        node: small_number(given, "node"),
        from: number(given, "from"),
        to: number(given, "to"),
        last: number(given, "last"),
        names: names_files(alloc, given)?,
    })))
}

/// What the arguments of `watch` ask for; nothing where the word of `--address` is no address.
pub(crate) fn watch_asked(alloc: Global, given: &ArgMatches) -> Result<Option<Command>, AllocError>
    requires { HasAll (spec.rules_of Which.Watch) (rows_of (found_of given.now)) }
    ensures command { IfOk result (λ c. spec.asked_in Which.Watch (rows_of (found_of given.now)) ≡ c) }
    ensures range { IfOk result (λ c. IfSome c spec.IsInRange) }
{
    let Some(address) = address(given) else {
        return Ok(None);
    };
    Ok(Some(Command::Watch(Watching {
        wiring: file(alloc, given, "wiring")?,
        log: file(alloc, given, "log")?,
        node: small_number(given, "node"),
        address,
        length: length(given),
        names: names_files(alloc, given)?,
    })))
}

/// What the arguments of `chart` ask for.
pub(crate) fn chart_asked(alloc: Global, given: &ArgMatches) -> Result<Option<Command>, AllocError>
    requires { HasAll (spec.rules_of Which.Chart) (rows_of (found_of given.now)) }
    ensures command { IfOk result (λ c. spec.asked_in Which.Chart (rows_of (found_of given.now)) ≡ c) }
    ensures range { IfOk result (λ c. IfSome c spec.IsInRange) }
{
    Ok(Some(Command::Chart {
        wiring: file(alloc, given, "wiring")?,
        log: file(alloc, given, "log")?,
        events: signed_number(given, "events"),
    }))
}

/// How many bytes are watched.
fn length(given: &ArgMatches) -> u32
    requires { HasNumber 1 65536 (codes "length") (rows_of (found_of given.now)) }
    ensures value { result ≡ number_at (codes "length") (rows_of (found_of given.now)) }
    ensures range { (1 ≤ result) × (result ≤ 65536) }
{
    number(given, "length")
}

/// `--node N`.
const NODE: Argument = Argument {
    name: "node",
    form: Form::WantedNumber(0, 255),
    value: "N",
    help: "The number of the node: 0 to 255",
};

/// `steps`.
pub const STEPS: CommandRow = CommandRow {
    name: "steps",
    about: "Does the events of a log on the net of a wiring file, and prints a line for each of those of a node",
    arguments: &[
        WIRING,
        LOG_TO_READ,
        NODE,
        Argument {
            name: "from",
            form: Form::Number(0, 4_294_967_295, "0"),
            value: "EVENT",
            help: "The number of the first event that is told; the first of a log is 0. 0 to 4294967295",
        },
        Argument {
            name: "to",
            form: Form::Number(0, 4_294_967_295, "4294967295"),
            value: "EVENT",
            help: "The number of the event before which the history ends: 0 to 4294967295",
        },
        Argument {
            name: "last",
            form: Form::Number(0, 4_294_967_295, "4294967295"),
            value: "K",
            help: "How many of the node's last events are told at most: 0 to 4294967295",
        },
        NAMES,
    ],
    below: "\
In: a wiring file (see `temu run --help`) and a log (see `temu replay --help`). Only the events with
numbers below that of `--to` are done, so whether a later one can be done does not matter; but a bad
line is a fault wherever it is.

Out: a line for each event of the node that is asked for:

         0 run  #80000101 A #00000000 B #00000000 C #00000000 Wptr #80000100 Iptr #80000080 after dispatch
         1 run  #80000101 A #00000004 B #00000000 C #00000000 Wptr #80000100 Iptr #80000081 after #80000080: ldc 4
        10 send link 1 to 1.0 byte 2a
        14 ack  link 1 from 1.0
        21 data link 0 from 2.3 byte 07
        22 take link 0 from 2.3 byte --
        31 take link 0 from 2.3 byte 08 complete

A line begins with the number of the event in the log. A `run` has the process, the registers that
it left, and after the word `after` the address and the instruction that was done, or `dispatch`;
then `descheduled` if no process runs any more. The others have the link, its far end, and the byte that
was sent, came or was taken; it is `--` while it lies in the buffer of a pending input. `complete`
tells that the message is complete. Last comes `halt` if the processor halted, or `break` and a name
if the node froze.

The last line is `end replay E` after E events. Sources and sinks have numbers too, after the nodes.

With `--names` each address has its name after it (see `temu where --help`).

Exit status: as that of `temu replay`; 2 if the net has no node of this number.

Examples:
  temu steps pair.toml pair.log --node 1 --last 20
  temu steps pair.toml pair.log --node 0 --from 40 --to 80",
};

/// `watch`.
pub const WATCH: CommandRow = CommandRow {
    name: "watch",
    about: "Does the events of a log on the net of a wiring file, and prints a line for each that changed some bytes",
    arguments: &[
        WIRING,
        LOG_TO_READ,
        NODE,
        Argument {
            name: "address",
            form: Form::WantedText,
            value: "A",
            help: "The address of the first byte: 1 to 8 hexadecimal digits, as 80000100; a # may stand before them",
        },
        Argument {
            name: "length",
            form: Form::Number(1, 65_536, "4"),
            value: "L",
            help: "How many bytes are watched: 1 to 65536",
        },
        NAMES,
    ],
    below: "\
In: a wiring file (see `temu run --help`) and a log (see `temu replay --help`), all of whose events
are done.

Out: what these bytes of the node were before the first event, and a line for each event of the node
that changed one of them:

   opening is 00 00 00 00
         2 run  #80000101 was 00 00 00 00 is 04 00 00 00 after #80000081: stl 0
        31 take link 0 from 2.3 was -- -- -- -- is 07 08 00 00 complete

Each line begins and ends as one of `temu steps`, with the bytes before the event and after it. A
byte in the buffer of a pending input is `--`: it changes when its message is complete.

The last line is `end replay E` after E events. With `--names` each address has its name after it
(see `temu where --help`).

Exit status: as that of `temu replay`; 2 if the net has no node of this number, or one of the bytes
is not in the node's memory, which begins at 80000000. Sources and sinks have no memory.

Examples:
  temu watch pair.toml pair.log --node 1 --address 80000100
  temu watch pair.toml pair.log --node 1 --address 80000200 --length 16",
};

/// `chart`.
pub const CHART: CommandRow = CommandRow {
    name: "chart",
    about: "Does the events of a log on the net of a wiring file, and prints a picture of them, as SVG",
    arguments: &[WIRING, LOG_TO_READ, EVENTS],
    below: "\
In: a wiring file (see `temu run --help`) and a log (see `temu replay --help`).

Out: a picture in the form SVG, which a browser shows. Each node, source and sink has a column, and
time goes downwards. A box is a row of instructions, with their number. A narrow coloured bar is a
node that waits at a link; a key above the columns tells for what. An arrow is a message, from where
its first byte was sent, which has a dot, to where its last byte was taken; beside the dot are its
length and its first bytes. A square is a halt, or a red one the break that froze a node. Point at
any of them to read more, such as the numbers of its events in the log.

At most 2000 rows are drawn; if there are more, a line above and below the columns says so. With
`--events 40` the first 40 events are drawn, or all if there are fewer; with `--events -3` all but
the last 3.

Exit status: as that of `temu replay`.

Example:
  temu chart pair.toml pair.log --events 40 > pair.svg",
};
