//! The last line of what a run prints.

ghost use Rattle.std.specs.Prelude.{codes, if◌then◌else◌};
ghost use Rattle.tfiles.specs.Texts.{free_end, replay_end, rounds_end};
ghost use Rattle.tfiles.specs.Outputs.{Tells};

use crate::counted::CountedWrite;
use crate::writing::output::Output;
use crate::writing::text::put_decimal;

/// The last line of a run of `rounds` rounds: `end quiet 9`, or `end rounds 9` where the net was
/// not quiet.
pub fn put_rounds_end<W: CountedWrite>(out: &mut Output<'_, W>, quiet: bool, rounds: u32)
    ensures { Tells W.contents W.failures out.old out.new (rounds_end quiet rounds) }
{
    out.put(b"end ");
    put_how(out, quiet);
    out.put(b" ");
    put_decimal(out, u64::from(rounds));
    out.put(b"\n");
}

/// How a run by rounds ended.
fn put_how<W: CountedWrite>(out: &mut Output<'_, W>, quiet: bool)
    ensures { Tells W.contents W.failures out.old out.new (if quiet then codes "quiet" else codes "rounds") }
{
    if quiet {
        out.put(b"quiet");
    } else {
        out.put(b"rounds");
    }
}

/// The last line of free workers: `end quiet`, or `end turns` where the net was not quiet.
pub fn put_free_end<W: CountedWrite>(out: &mut Output<'_, W>, quiet: bool)
    ensures { Tells W.contents W.failures out.old out.new (free_end quiet) }
{
    if quiet {
        out.put(b"end quiet\n");
    } else {
        out.put(b"end turns\n");
    }
}

/// The last line of a replay of `events` events: `end replay 32`.
pub fn put_replay_end<W: CountedWrite>(out: &mut Output<'_, W>, events: u64)
    ensures { Tells W.contents W.failures out.old out.new (replay_end events) }
{
    out.put(b"end replay ");
    put_decimal(out, events);
    out.put(b"\n");
}
