//! The table of the commands: the words that each takes, their ranges and defaults, what help tells of it, and what
//! its arguments ask for.

ghost use Rattle.std.specs.Prelude.{◌≡◌, IfOk, IfSome, Some, codes};
ghost use Rattle.clap.specs.Words.{found_of, rows_of};
ghost use Rattle.twords.specs.Arguments.{HasAll, HasNumber, HasText, text_at};
ghost use Rattle.twords.specs.CommandLines.{shape_of, shape_of_row};
ghost use Rattle.twords.specs.Table as spec;

use crate::arguments::{file, is_given, long_number, number, optional_file, signed_number};
use crate::certifying::{CERTIFY, Certifying, certify_asked};
use crate::histories::{
    CHART, STEPS, Stepping, WATCH, Watching, chart_asked, steps_asked, watch_asked,
};
use crate::names_files::{NAMES, NamesFiles, names_files};
use clap::ArgMatches;
use std::alloc::{AllocError, Global};
use tplan::{FileName, Options};
use tword::Kind;
use tword::limits::{LONGEST_SLICE, MOST_WORKERS};

/// A command by itself.
#[derive(Clone, Copy)]
pub enum Which {
    /// `run`.
    Run,
    /// `free`.
    Free,
    /// `explore`.
    Explore,
    /// `certify`.
    Certify,
    /// `replay`.
    Replay,
    /// `where`.
    Where,
    /// `steps`.
    Steps,
    /// `watch`.
    Watch,
    /// `chart`.
    Chart,
    /// `check`.
    Check,
    /// `dis`.
    Dis,
}

/// What is shown of a net that is left: of a run between its trace and its last line, of an exploration below the
/// heading of each outcome.
#[derive(Clone, Copy)]
pub enum Show {
    /// Its dump: memories, sources and sinks.
    Dump,
    /// Where the net stands, as `where` prints it.
    Where,
    /// Nothing.
    Nothing,
}

/// What is printed of a run, and how.
#[derive(Clone, Copy)]
pub enum Printing {
    /// Lines, and this of the net that is left.
    Lines(Show),
    /// JSON, an object a line: with the nodes, sources and sinks of the net that is left, or without.
    Json { with_nodes: bool },
}

/// A run of a net, as it is asked for.
#[derive(Drop)]
pub struct Running {
    pub wiring: FileName,
    pub options: Options,
    pub log: Option<FileName>,
    /// What is printed of the run.
    pub printing: Printing,
}

/// An exploration, as it is asked for.
#[derive(Drop)]
pub struct Exploring {
    pub wiring: FileName,
    /// How many states are kept at most.
    pub states: u32,
    /// How many steps are done at most.
    pub steps: u64,
    /// What the names of the log files begin with, one of each outcome, where logs are asked for.
    pub log: Option<FileName>,
    /// What is shown of each outcome.
    pub show: Show,
    /// Whether a certificate is tried first, and the search left out where the net is certified.
    pub certify: bool,
}

/// What a command line asks for.
#[derive(Drop)]
pub enum Command {
    /// Runs the net of a wiring file by rounds, and writes what it did into a log file where one is named.
    Run(Running),
    /// Runs the net of a wiring file by free workers, and writes what they did into a log file where one is named:
    /// `options.rounds` are the turns.
    Free(Running),
    /// Finds every way in which the runs of the net of a wiring file may end, whatever their timing.
    Explore(Exploring),
    /// Runs the processes of a wiring file once, and tells whether each of their runs ends in the same way.
    Certify(Certifying),
    /// Does the first events of a log file on the net of a wiring file.
    Replay {
        wiring: FileName,
        log: FileName,
        /// How many events are done at most; a negative number says how many of the last ones are left out.
        events: i64,
        /// What is printed of the replay.
        printing: Printing,
    },
    /// Does the first events of a log file on the net of a wiring file, and writes where it stands.
    Where {
        wiring: FileName,
        log: FileName,
        /// How many events are done at most; a negative number says how many of the last ones are left out.
        events: i64,
        /// The files of names.
        names: NamesFiles,
    },
    /// Does the first events of a log file on the net of a wiring file, and writes the history of a node.
    Steps(Stepping),
    /// Does the events of a log file on the net of a wiring file, and writes the history of some bytes of a node.
    Watch(Watching),
    /// Does the first events of a log file on the net of a wiring file, and writes a picture of them.
    Chart {
        wiring: FileName,
        log: FileName,
        /// How many events are done at most; a negative number says how many of the last ones are left out.
        events: i64,
    },
    /// Looks through a wiring file and its images, and writes all that is wrong, or what the net is.
    Check {
        wiring: FileName,
    },
    /// Writes the instructions of an image file, as those of a node of this kind.
    Dis {
        image: FileName,
        kind: Kind,
        /// The file of the names of addresses, where one is named.
        names: Option<FileName>,
    },
}

impl Which {
    /// The name of the command.
    pub(crate) fn name(self) -> &'static str
        ensures { result.now ≡ spec.name_of self }
    {
        self.row().name
    }

    /// The command with the program before it, as usage names it.
    pub(crate) fn called(self) -> &'static str {
        match self {
            Which::Run => "temu run",
            Which::Free => "temu free",
            Which::Explore => "temu explore",
            Which::Certify => "temu certify",
            Which::Replay => "temu replay",
            Which::Where => "temu where",
            Which::Steps => "temu steps",
            Which::Watch => "temu watch",
            Which::Chart => "temu chart",
            Which::Check => "temu check",
            Which::Dis => "temu dis",
        }
    }

    /// The row of the command.
    pub(crate) fn row(self) -> CommandRow
        ensures { shape_of_row result ≡ shape_of self }
    {
        match self {
            Which::Run => RUN,
            Which::Free => FREE,
            Which::Explore => EXPLORE,
            Which::Certify => CERTIFY,
            Which::Replay => REPLAY,
            Which::Where => WHERE,
            Which::Steps => STEPS,
            Which::Watch => WATCH,
            Which::Chart => CHART,
            Which::Check => CHECK,
            Which::Dis => DIS,
        }
    }

    /// What the arguments of the command ask for; nothing where a word of `--show` or `--address` stands for nothing,
    /// or where options do not go together.
    pub(crate) fn asked(
        self,
        alloc: Global,
        given: &ArgMatches,
    ) -> Result<Option<Command>, AllocError>
        requires { HasAll (spec.rules_of self) (rows_of (found_of given.now)) }
        ensures command { IfOk result (λ c. spec.asked_in self (rows_of (found_of given.now)) ≡ c) }
        ensures range { IfOk result (λ c. IfSome c spec.IsInRange) }
    {
        match self {
            Which::Run => run_asked(alloc, given),
            Which::Free => free_asked(alloc, given),
            Which::Explore => explore_asked(alloc, given),
            Which::Certify => certify_asked(alloc, given),
            Which::Replay => replay_asked(alloc, given),
            Which::Where => where_asked(alloc, given),
            Which::Steps => steps_asked(alloc, given),
            Which::Watch => watch_asked(alloc, given),
            Which::Chart => chart_asked(alloc, given),
            Which::Check => check_asked(alloc, given),
            Which::Dis => dis_asked(alloc, given),
        }
    }
}

/// What the arguments of `run` ask for; nothing where the word of `--show` stands for nothing, or `--json` has no
/// form for it.
fn run_asked(alloc: Global, given: &ArgMatches) -> Result<Option<Command>, AllocError>
    requires { HasAll (spec.rules_of Which.Run) (rows_of (found_of given.now)) }
    ensures command { IfOk result (λ c. spec.asked_in Which.Run (rows_of (found_of given.now)) ≡ c) }
    ensures range { IfOk result (λ c. IfSome c spec.IsInRange) }
{
    let Some(printing) = printing_asked(given) else {
        return Ok(None);
    };
    Ok(Some(Command::Run(Running {
        wiring: file(alloc, given, "wiring")?,
        options: options(given, "rounds"),
        log: optional_file(alloc, given, "log")?,
        printing,
    })))
}

/// What the arguments of `free` ask for; nothing where the word of `--show` stands for nothing, or `--json` has no
/// form for it.
fn free_asked(alloc: Global, given: &ArgMatches) -> Result<Option<Command>, AllocError>
    requires { HasAll (spec.rules_of Which.Free) (rows_of (found_of given.now)) }
    ensures command { IfOk result (λ c. spec.asked_in Which.Free (rows_of (found_of given.now)) ≡ c) }
    ensures range { IfOk result (λ c. IfSome c spec.IsInRange) }
{
    let Some(printing) = printing_asked(given) else {
        return Ok(None);
    };
    Ok(Some(Command::Free(Running {
        wiring: file(alloc, given, "wiring")?,
        options: options(given, "turns"),
        log: optional_file(alloc, given, "log")?,
        printing,
    })))
}

/// What the arguments of `replay` ask for; nothing where the word of `--show` stands for nothing, or `--json` has no
/// form for it.
fn replay_asked(alloc: Global, given: &ArgMatches) -> Result<Option<Command>, AllocError>
    requires { HasAll (spec.rules_of Which.Replay) (rows_of (found_of given.now)) }
    ensures command { IfOk result (λ c. spec.asked_in Which.Replay (rows_of (found_of given.now)) ≡ c) }
    ensures range { IfOk result (λ c. IfSome c spec.IsInRange) }
{
    let Some(printing) = printing_asked(given) else {
        return Ok(None);
    };
    let wiring = file(alloc, given, "wiring")?;
    let log = file(alloc, given, "log")?;
    let events = signed_number(given, "events");
    Ok(Some(Command::Replay {
        wiring,
        log,
        events,
        printing,
    }))
}

/// What the arguments of `explore` ask for; nothing where the word of `--show` stands for nothing, or what is asked for
/// beside a certificate takes a search.
fn explore_asked(alloc: Global, given: &ArgMatches) -> Result<Option<Command>, AllocError>
    requires { HasAll (spec.rules_of Which.Explore) (rows_of (found_of given.now)) }
    ensures command { IfOk result (λ c. spec.asked_in Which.Explore (rows_of (found_of given.now)) ≡ c) }
    ensures range { IfOk result (λ c. IfSome c spec.IsInRange) }
{
    let Some(show) = shown(given) else {
        return Ok(None);
    };
    let certify = is_given(given, "certify");
    let prefix = optional_file(alloc, given, "log")?;
    if certify && takes_search(prefix.is_some(), show) {
        return Ok(None);
    }
    Ok(Some(Command::Explore(Exploring {
        wiring: file(alloc, given, "wiring")?,
        states: number(given, "states"),
        steps: long_number(given, "steps"),
        log: prefix,
        show,
        certify,
    })))
}

/// What the arguments of `where` ask for.
fn where_asked(alloc: Global, given: &ArgMatches) -> Result<Option<Command>, AllocError>
    requires { HasAll (spec.rules_of Which.Where) (rows_of (found_of given.now)) }
    ensures command { IfOk result (λ c. spec.asked_in Which.Where (rows_of (found_of given.now)) ≡ c) }
    ensures range { IfOk result (λ c. IfSome c spec.IsInRange) }
{
    Ok(Some(Command::Where {
        wiring: file(alloc, given, "wiring")?,
        log: file(alloc, given, "log")?,
        events: signed_number(given, "events"),
        names: names_files(alloc, given)?,
    }))
}

/// What the arguments of `check` ask for.
fn check_asked(alloc: Global, given: &ArgMatches) -> Result<Option<Command>, AllocError>
    requires { HasAll (spec.rules_of Which.Check) (rows_of (found_of given.now)) }
    ensures command { IfOk result (λ c. spec.asked_in Which.Check (rows_of (found_of given.now)) ≡ c) }
    ensures range { IfOk result (λ c. IfSome c spec.IsInRange) }
{
    Ok(Some(Command::Check {
        wiring: file(alloc, given, "wiring")?,
    }))
}

/// What the arguments of `dis` ask for.
fn dis_asked(alloc: Global, given: &ArgMatches) -> Result<Option<Command>, AllocError>
    requires { HasAll (spec.rules_of Which.Dis) (rows_of (found_of given.now)) }
    ensures command { IfOk result (λ c. spec.asked_in Which.Dis (rows_of (found_of given.now)) ≡ c) }
    ensures range { IfOk result (λ c. IfSome c spec.IsInRange) }
{
    Ok(Some(Command::Dis {
        image: file(alloc, given, "image")?,
        kind: kind(given),
        names: optional_file(alloc, given, "names")?,
    }))
}

/// The options of a run, whose limit has this name.
fn options(given: &ArgMatches, limit: &str) -> Options
    requires { HasAll (spec.running_rules limit.now) (rows_of (found_of given.now)) }
    ensures value { result ≡ spec.options_in limit.now (rows_of (found_of given.now)) }
    ensures range { spec.AreOptions result }
{
    Options {
        workers: number(given, "workers") as usize,
        rounds: number(given, limit),
        slice: number(given, "slice"),
    }
}

/// What the words of `--show` and `--json` ask to be printed of a run, if they stand for anything.
fn printing_asked(given: &ArgMatches) -> Option<Printing>
    requires { HasText (codes "show") (rows_of (found_of given.now)) }
    ensures { result ≡ spec.printing_in (rows_of (found_of given.now)) }
{
    printing_of(is_given(given, "json"), shown(given)?)
}

/// What is printed where this is to be shown, as JSON or in lines. Where a net stands is told only in lines.
fn printing_of(as_json: bool, show: Show) -> Option<Printing>
    ensures { result ≡ spec.printing_of as_json show }
{
    match (as_json, show) {
        (false, show) => Some(Printing::Lines(show)),
        (true, Show::Dump) => Some(Printing::Json { with_nodes: true }),
        (true, Show::Nothing) => Some(Printing::Json { with_nodes: false }),
        (true, Show::Where) => None,
    }
}

/// Whether a search is needed to write logs, where they are asked for, and to show this.
fn takes_search(is_logged: bool, show: Show) -> bool
    ensures { result ≡ spec.takes_search is_logged show }
{
    is_logged || matches!(show, Show::Where)
}

/// What the word of `--show` stands for, if for anything.
fn shown(given: &ArgMatches) -> Option<Show>
    requires { HasText (codes "show") (rows_of (found_of given.now)) }
    ensures { result ≡ spec.show_of (text_at (codes "show") (rows_of (found_of given.now))) }
{
    show_of(given.get_str("show").unwrap())
}

/// What a word stands for, if for anything.
fn show_of(word: &str) -> Option<Show>
    ensures { result ≡ spec.show_of word.now }
{
    if word == "dump" {
        Some(Show::Dump)
    } else if word == "where" {
        Some(Show::Where)
    } else if word == "none" {
        Some(Show::Nothing)
    } else {
        None
    }
}

/// The kind of a node.
fn kind(given: &ArgMatches) -> Kind
    requires { HasNumber 1 2 (codes "kind") (rows_of (found_of given.now)) }
    ensures { result ≡ spec.kind_in (rows_of (found_of given.now)) }
{
    if number(given, "kind") == 2 {
        Kind::Two
    } else {
        Kind::One
    }
}

/// What a command is called, takes and does.
#[derive(Clone, Copy)]
pub struct CommandRow {
    /// The name of the command.
    pub name: &'static str,
    /// What the command does, in the help of the program and in its own.
    pub about: &'static str,
    /// The arguments that the command takes.
    pub arguments: &'static [Argument],
    /// What stands below the help of the command.
    pub below: &'static str,
}

/// An argument of a command.
pub struct Argument {
    /// What it is called, and behind `--` its option, if it has one.
    pub name: &'static str,
    /// What it takes.
    pub form: Form,
    /// What help calls its value.
    pub value: &'static str,
    /// What help tells of it.
    pub help: &'static str,
}

/// What an argument takes.
pub enum Form {
    /// A file that has to be named, with no option before it.
    File,
    /// A text behind an option that may be left out.
    Text,
    /// A text behind an option, and what it is where that is left out.
    TextOr(&'static str),
    /// A text behind an option that may be given several times.
    Texts,
    /// An option with nothing behind it.
    Flag,
    /// A text behind an option that has to be given.
    WantedText,
    /// A number behind an option, from the least to the most, and what it is where that is left out.
    Number(i64, i64, &'static str),
    /// A number behind an option that has to be given, from the least to the most.
    WantedNumber(i64, i64),
}

/// All commands, in the order of help.
pub(crate) const COMMANDS: [Which; 11] = [
    Which::Run,
    Which::Free,
    Which::Explore,
    Which::Certify,
    Which::Replay,
    Which::Where,
    Which::Steps,
    Which::Watch,
    Which::Chart,
    Which::Check,
    Which::Dis,
];

/// How many threads share the nodes.
const WORKERS: Form = Form::Number(1, MOST_WORKERS as i64, "1");

/// After how many rounds or turns a run ends at the latest.
const LIMIT: Form = Form::Number(0, 4_294_967_295, "100000");

/// How many instructions and dispatches a node does at most before the next has its turn.
const SLICE: Form = Form::Number(1, LONGEST_SLICE as i64, "64");

/// `WIRING`, whose holds are ignored.
pub(crate) const WIRING: Argument = Argument {
    name: "wiring",
    form: Form::File,
    value: "WIRING",
    help: "The wiring file, as TOML; its holds are ignored",
};

/// `LOG`.
pub(crate) const LOG_TO_READ: Argument = Argument {
    name: "log",
    form: Form::File,
    value: "LOG",
    help: "The log file, as `--log` of `run`, `free` or `explore` writes it",
};

/// `--log FILE`.
const LOG_TO_WRITE: Argument = Argument {
    name: "log",
    form: Form::Text,
    value: "FILE",
    help: "Writes a line for each event that was done into this file, which is made anew",
};

/// What is shown of a net: its dump, where nothing is said.
const WHAT: Form = Form::TextOr("dump");

/// `--events N`.
pub(crate) const EVENTS: Argument = Argument {
    name: "events",
    form: Form::Number(-4_294_967_295, 4_294_967_295, "4294967295"),
    value: "N",
    help: "How many events are done at most, from the first on; -N: all but the last N. -4294967295 to 4294967295",
};

/// `--json`.
const JSON: Argument = Argument {
    name: "json",
    form: Form::Flag,
    value: "",
    help: "Prints JSON, an object a line",
};

/// `--show WHAT` of a run.
const SHOW: Argument = Argument {
    name: "show",
    form: WHAT,
    value: "WHAT",
    help: "What is shown of the net after the trace: dump, where, or none",
};

/// `run`.
pub const RUN: CommandRow = CommandRow {
    name: "run",
    about: "Runs the net of a wiring file by rounds, and prints its trace and its memories",
    arguments: &[
        Argument {
            name: "wiring",
            form: Form::File,
            value: "WIRING",
            help: "The wiring file, as TOML",
        },
        Argument {
            name: "workers",
            form: WORKERS,
            value: "N",
            help: "How many threads share the nodes of a round: 1 to 64",
        },
        Argument {
            name: "rounds",
            form: LIMIT,
            value: "N",
            help: "After how many rounds the run ends at the latest: 0 to 4294967295",
        },
        Argument {
            name: "slice",
            form: SLICE,
            value: "N",
            help: "How many instructions and dispatches a node does in a round at most: 1 to 65536",
        },
        LOG_TO_WRITE,
        SHOW,
        JSON,
    ],
    below: "\
In: a wiring file such as

  version = 1
  timeslice = 1024     # may be left out
  [[node]]             # node 0, 1, ..
  memory = 2048        # in bytes
  image = \"a.img\"      # the path of its boot image
  [[wire]]
  a = [0, 1]           # node and link
  b = [1, 2]
  [[hold]]             # packets that wait at an end
  end = [1, 2]
  kind = \"data\"        # or \"ack\"
  from = 1             # the first round in which they wait
  until = 5            # and the first in which they do not

In a wiring of version 2 a node may be of kind 2: it has the operation `dup` too, and may have up to
16777216 bytes of memory, where one of kind 1 may have 1048576:

  version = 2
  [[node]]
  memory = 16777216
  kind = 2             # may be left out: 1
  image = \"a.img\"

A wiring of version 2 may have sources and sinks too. Their numbers go on after those of the nodes,
the sources first, and each has the one link 0:

  version = 2
  [[source]]           # sends messages to an end, one after another
  end = [0, 2]
  messages = [\"01020304\", \"05\"]  # in hexadecimal, 1 to 4096 bytes each
  [[sink]]             # keeps the messages that an end sends
  end = [1, 1]
  capacity = 64        # for how many bytes it has room: 1 to 65536

Out: a line for each message that has passed, as `msg 0.1 1.2 4 01020304` (from, to, length, bytes),
and for each node that halted or froze; the memory of each node, without lines of zeros; for each
source how many of its messages have passed, as `source 2 done 1 of 2`; for each sink how many it
has kept, as `sink 3 messages 1`, and a line for each of them, as `kept 01020304`. The last line is
`end quiet R` if nothing is left to do after R rounds, or else `end rounds R`.

With `--show where` it tells what the processes and links are doing, as `temu where` does, in place
of memories, sources and sinks; with `--show none` nothing of them.

With `--json` each line is an object of JSON, for other programs:

  {\"msg\": {\"from\": [0, 1], \"to\": [1, 2], \"bytes\": \"01020304\"}}
  {\"halt\": 0}
  {\"freeze\": {\"node\": 1, \"break\": \"LengthMismatch\"}}
  {\"node\": 0, \"state\": \"ok\", \"memory\": [{\"at\": \"80000080\", \"bytes\": \"1124f251\"}]}
  {\"source\": 2, \"done\": 1, \"of\": 2}
  {\"sink\": 3, \"kept\": [\"01020304\"]}
  {\"end\": \"quiet\", \"rounds\": 9}

The state of a node is `ok`, `halted` or `frozen`; a frozen node has its `break` next. A byte that a
pending input is to write is `--`. `--json` and `--show where` do not go together.

Examples:
  temu run pair.toml --workers 4 --log pair.log
  temu run pair.toml --rounds 1000 --show where
  temu run pair.toml --json --show none",
};

/// `free`.
pub const FREE: CommandRow = CommandRow {
    name: "free",
    about: "Runs the net of a wiring file by free workers, and prints its trace and its memories",
    arguments: &[
        WIRING,
        Argument {
            name: "workers",
            form: WORKERS,
            value: "N",
            help: "How many threads share the nodes: 1 to 64",
        },
        Argument {
            name: "turns",
            form: LIMIT,
            value: "N",
            help: "How many turns each worker makes at most: 0 to 4294967295",
        },
        Argument {
            name: "slice",
            form: SLICE,
            value: "N",
            help: "How many instructions and dispatches a node does in a turn at most: 1 to 65536",
        },
        LOG_TO_WRITE,
        SHOW,
        JSON,
    ],
    below: "\
In: a wiring file (see `temu run --help`), whose holds are ignored.

Out: what `temu run` prints, with `--show` and `--json` too. The last line is `end quiet` if nothing
is left to do, or else `end turns`.

Each worker is a thread that has nodes of its own. It goes round them, one turn after another, and
waits for nobody. So the timing of the threads decides which message comes first; but what is
printed is always one run of the machine. If a program's result does not depend on that order, a run
that ends quiet has the messages and the memories of `temu run`.

`--log` writes the events in an order that `temu replay` does again.

Example:
  temu free pair.toml --workers 4 --log pair.log",
};

/// `explore`.
pub const EXPLORE: CommandRow = CommandRow {
    name: "explore",
    about: "Finds every outcome of the net of a wiring file, whatever its timing, and prints their memories",
    arguments: &[
        WIRING,
        Argument {
            name: "states",
            form: Form::Number(0, 4_294_967_295, "1000000"),
            value: "N",
            help: "How many states are kept at most: 0 to 4294967295",
        },
        Argument {
            name: "steps",
            form: Form::Number(0, i64::MAX, "9223372036854775807"),
            value: "N",
            help: "How many steps are done at most: 0 to 9223372036854775807",
        },
        Argument {
            name: "log",
            form: Form::Text,
            value: "PREFIX",
            help: "Writes a log of each outcome and freeze, for `replay` and `where`: PREFIX1.log, PREFIX2.log, ..",
        },
        Argument {
            name: "show",
            form: WHAT,
            value: "WHAT",
            help: "What is shown of each outcome: dump, where, or none for the headings alone",
        },
        Argument {
            name: "certify",
            form: Form::Flag,
            value: "",
            help: "Makes the run of `temu certify` first, and searches only if the net is not certified",
        },
    ],
    below: "\
In: a wiring file (see `temu run --help`). Its holds do not matter, and a bad one is not told; nor
do the workers and the slice of a run: all timings are tried at once. The timeslice does.

Out: for each outcome, which is a way in which a run may end, one of these lines, and below it the
memories, sources and sinks as `temu run` prints them:

  outcome 1 ended                        no process waits any more
  outcome 2 idle                         processes wait, all of them for messages
  outcome 3 stuck                        a message is offered that nobody takes
  outcome 4 freeze 0 InTransit #8000009b node 0 broke this rule, at this instruction if there is one

If an outcome differs from an earlier one only in bytes of memories, it is not printed whole: a line
such as `as 1 but` has the number of the earlier one, and only the lines that differ follow, after
the line of their node. With `--show where` each outcome has, in place of the memories, what the
processes and links are doing, as `temu where` tells it, always whole (or nothing, if no memory was
left for that); with `--show none` it has just its `outcome` line.

After the outcomes comes `endless` if a run was found that goes on for ever; there may be such a run
even if none is told. The last line is `end outcomes 2 states 13`: there are no outcomes but these
2, and from 13 states several steps were tried (0: there was only one way to go). Or it is
`end cut outcomes 2 states 13`: the limit of states or steps was met, or there was no memory left,
so there may be other outcomes.

If the exploration was not cut, each run by `temu run` or `temu free` that ends quiet, with no
frozen node, ends in one of these outcomes. A run is followed up to its first freeze: if some run
freezes a node, at least one freeze is told, but maybe not all of them.

With `--certify` the one run of `temu certify` is made first, of at most as many steps. If it is
certified, all that is printed is `end certified S`, after S steps: there is no search, and what
that tells of all runs is in `temu certify --help`. If not, the search follows, and what is printed
is as without `--certify`. If a program goes on for ever, so does that run: give `--steps`, and the
search follows after them. `--log` and `--show where` need a search, so `--certify` does not go
together with them.

Exit status: 5 the exploration was cut, whatever it found; else 0 there is exactly one outcome, and
no freeze, or the net is certified; 1 there is a freeze, or another number of outcomes.

Examples:
  temu explore pair.toml --states 100000
  temu explore pair.toml --certify",
};

/// `replay`.
pub const REPLAY: CommandRow = CommandRow {
    name: "replay",
    about: "Does the events of a log on the net of a wiring file, and prints its trace and its memories",
    arguments: &[WIRING, LOG_TO_READ, EVENTS, SHOW, JSON],
    below: "\
In: a wiring file (see `temu run --help`) and a log, which has a line for each event: `run 0`,
`send 0 1`, `data 1 2`, `take 1 2` or `ack 0 1`, with the number of the node and that of its link.

Out: what `temu run` prints of these events, with `--show` and `--json` too. The last line is
`end replay E` after E events.

With `--events 40` the first 40 events are done, or all if there are fewer; with `--events -3` all
but the last 3. A bad line is a fault even if it comes after these events.

Examples:
  temu replay pair.toml pair.log
  temu replay pair.toml pair.log --events 40 --show where",
};

/// `where`.
pub const WHERE: CommandRow = CommandRow {
    name: "where",
    about: "Does the events of a log on the net of a wiring file, and prints what each process is doing then",
    arguments: &[WIRING, LOG_TO_READ, EVENTS, NAMES],
    below: "\
In: a wiring file (see `temu run --help`) and a log (see `temu replay --help`).

Out: for each node a line as `temu run` prints it before its memory, `node 0 ok`, and after it:

  node 0 frozen ZeroLength                 the break of a usage rule
    runs          #80000101 low            the process that runs, or that broke the rule: its
                                           descriptor and its priority
      Iptr        #80000086: in            the instruction there, or the break of its fetch
      A           #00000000                the registers
      B           #80000010
      C           #80000104
      Wptr        #80000100
      Error       set                      only where it is; so is HaltOnError
    interrupted   #80000201 low            likewise, the low process that a high one interrupted
    high queue    #80000300 Iptr #80000090: ldl 2
                                           those that are queued, the first one first
    low queue     #80000401 Iptr #80000094: ldc 4
    waits         #80000501 Iptr #80000098: stopp, output on channel #80000700, buffer #80000710 length 4
    waits         #80000601 Iptr #8000009c: ldl 1, input on link 2 from 0.1, buffer #80000720 length 4 over 1
    waits         #80000701 Iptr #800000a0: mint, alternative
    link 0        sent 2 acknowledged 1    of the pending output
    link 2        got 1                    of the pending input
    link 2        byte waits 2a last       a byte that came, marked as the last of its message
    link 2        packet data 2a           a packet that lies at the link
    link 2        packet acknowledge       an acknowledge that lies there
    link 3        enabled by #80000701     the process that is told when a byte comes

Only what there is has a line. `over` tells how many bytes of the message have passed. A source or a
sink has its first line of `temu run`, and after it those of its link 0. Nothing is told of what the
buffer of a pending link input holds. After all nodes, if nothing more can happen, comes a line for
each link that a process, a source or a sink waits for, with what is lacking there:

  stuck #80000101 of 0: output on link 1 to 1.2, no input there
  stuck #80000601 of 1: input on link 2 from 0.1, node 0 is frozen
  circle 0 waits for 1 waits for 0         nodes that wait for one another: of all such circles
                                           with this lowest node the shortest

Then for each node that has halted comes the event that halted it, with its instruction:

  halted node 0 by event 4: #80000084: div

The last line is `end replay E` after E events.

A file of `--names` has lines such as `800000f0 got`: an address, of eight hexadecimal digits, and
its name. Then after each address of a node's memory comes the nearest name at or below it, as in
`#800000f8 got+8`, but not in the `stuck` lines. If several files are given, each node has the names
of the first file that is for this node or for all nodes.

Examples:
  temu where pair.toml pair.log --events 40
  temu where pair.toml pair.log --names 0=sender.names --names 1=receiver.names",
};

/// `check`.
pub const CHECK: CommandRow = CommandRow {
    name: "check",
    about: "Says all that is wrong with a wiring file and its images, or what the net is",
    arguments: &[Argument {
        name: "wiring",
        form: Form::File,
        value: "WIRING",
        help: "The wiring file, as TOML",
    }],
    below: "\
In: a wiring file and its images (see `temu run --help`).

Out: where something is wrong, a line for each of all such things, the place first; where the text of
the wiring is wrong, the number of its line before it:

  line 1, wiring: version is missing
  line 3, node 0: the key mem is unknown; did you mean memory?
  line 2, node 0: memory is missing

or, where the file is a wiring,

  node 0: the image a.img cannot be read
  node 1: the memory has 2047 bytes; it has to have a multiple of 4, from 2048 to 1048576
  node 2: segment 0 has 8 bytes at #800007fc; programs may use #80000048 on, up to below #80000800
  node 2: process 1, #80000101, is refused with AlreadyLive: a process before it has this workspace
  wire 3: 5.0 is no link of a node
  wire 4: 0.1 is an end of wire 0 already
  hold 0: no wire is at 2.3

Nodes, wires, sources, sinks and holds are numbered from 0 in the order of the file, and so are the
segments and the processes of an image. Where a memory has a wrong size, what it holds is not judged.

Else what the net is: `nothing is wrong`, and a line for each of its parts; for each process that
begins where no segment has a byte, and for each link that has no wire:

  nothing is wrong
  node 0: kind 1, memory 2048 bytes, image a.img
  node 0: process 0, #80000101, begins at #80000100, which no segment holds
  node 0: no wire is at link 0
  wire 0: 0.1 and 1.2
  source 0: messages 3, to 1.0
  sink 0: bytes 64, from 1.1

Exit status: 0 nothing is wrong, so that `temu run` does not refuse the net; 2 something is.

Example:
  temu check pair.toml",
};

/// `dis`.
pub const DIS: CommandRow = CommandRow {
    name: "dis",
    about: "Prints the instructions of a boot image",
    arguments: &[
        Argument {
            name: "image",
            form: Form::File,
            value: "IMAGE",
            help: "The boot image",
        },
        Argument {
            name: "kind",
            form: Form::Number(1, 2, "1"),
            value: "N",
            help: "The kind of the node that the image is for: 1 or 2",
        },
        Argument {
            name: "names",
            form: Form::Text,
            value: "FILE",
            help: "Puts labels before the instructions whose addresses have names in this file",
        },
    ],
    below: "\
In: a boot image: the 8 bytes TEMUIMG1, the numbers of segments and of processes as little-endian
words, the address, the length and the bytes of each segment, and the workspace descriptor and the
instruction pointer of each process.

Out: for each segment a line for each instruction, as `80000080: ldc 4`; a byte that begins none is
shown as `80000080: db xx`.

With `--kind 2` the bytes 25 fa are `dup`, which nodes of kind 1 do not have.

With `--names` a line such as `got:` comes before each instruction whose address has a name in the
file; `temu where --help` tells what such a file has.

Examples:
  temu dis first.img
  temu dis first.img --names first.names",
};

/// What `--version` tells behind the program's name: the version, and the logic by which the program is proved.
pub(crate) const VERSION: &str = "0.1.0 (proved, logic dac8208d650f15bf)";

/// What stands below the help of the program.
pub(crate) const PROGRAM: &str = "\
Examples:
  temu run pair.toml
  temu run pair.toml --workers 4 --log pair.log
  temu free pair.toml --workers 4
  temu explore pair.toml
  temu certify pair.toml
  temu replay pair.toml pair.log
  temu where pair.toml pair.log --events -3
  temu steps pair.toml pair.log --node 1 --last 20
  temu watch pair.toml pair.log --node 1 --address 80000100
  temu chart pair.toml pair.log > pair.svg
  temu check pair.toml
  temu dis first.img

`temu run --help` or `temu help run`, and their like, tell what goes into a command and what comes
out.

Exit status: 0 done; 1 done, and a node is frozen, since it broke a usage rule, or an exploration
found a freeze, or another number of outcomes than one, or a run has a race; 2 bad input, which
standard error names; 3 the output failed, or no log of an outcome was found; 4 no memory; 5 an
exploration was cut, or a certificate refused.

docs/MACHINE.md tells what each break of a usage rule means (section 5), and each fault
(section 16).";
