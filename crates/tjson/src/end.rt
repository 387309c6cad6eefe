//! How a run has ended: the last line of what is printed of it.

ghost use Rattle.std.specs.Prelude.{codes, if◌then◌else◌};
ghost use Rattle.tfiles.specs.Outputs.{Tells};
ghost use Rattle.tjson.specs.Json.{quoted};
ghost use Rattle.tjson.specs.Runs.{json_free_end, json_replay_end, json_rounds_end};

use tfiles::counted::CountedWrite;
use tfiles::writing::output::Output;
use tfiles::writing::text::put_decimal;

/// The last line of a run of `rounds` rounds: `{"end": "quiet", "rounds": 9}`, or
/// `{"end": "rounds", "rounds": 9}` where the net was not quiet.
pub fn put_json_rounds_end<W: CountedWrite>(out: &mut Output<'_, W>, quiet: bool, rounds: u32)
    ensures { Tells W.contents W.failures out.old out.new (json_rounds_end quiet rounds) }
{
    out.put(b"{\"end\": ");
    put_how(out, quiet);
    out.put(b", \"rounds\": ");
    put_decimal(out, u64::from(rounds));
    out.put(b"}\n");
}

/// How a run by rounds ended.
fn put_how<W: CountedWrite>(out: &mut Output<'_, W>, quiet: bool)
    ensures { Tells W.contents W.failures out.old out.new
        (quoted (if quiet then codes "quiet" else codes "rounds")) }
{
    if quiet {
        out.put(b"\"quiet\"");
    } else {
        out.put(b"\"rounds\"");
    }
}

/// The last line of free workers: `{"end": "quiet"}`, or `{"end": "turns"}` where the net was not quiet.
pub fn put_json_free_end<W: CountedWrite>(out: &mut Output<'_, W>, quiet: bool)
    ensures { Tells W.contents W.failures out.old out.new (json_free_end quiet) }
{
    if quiet {
        out.put(b"{\"end\": \"quiet\"}\n");
    } else {
        out.put(b"{\"end\": \"turns\"}\n");
    }
}

/// The last line of a replay of `events` events: `{"end": "replay", "events": 32}`.
pub fn put_json_replay_end<W: CountedWrite>(out: &mut Output<'_, W>, events: u64)
    ensures { Tells W.contents W.failures out.old out.new (json_replay_end events) }
{
    out.put(b"{\"end\": \"replay\", \"events\": ");
    put_decimal(out, events);
    out.put(b"}\n");
}
