//! A wait at a link, as text.

ghost use Rattle.tfiles.specs.Outputs.{Tells};
ghost use Rattle.twhere.specs.Standing as spec;

use crate::waits::{Wait, Want};
use tfiles::CountedWrite;
use tfiles::writing::output::Output;
use tfiles::writing::text::{put_decimal, put_end};
use tplan::plan::End;

/// A wait at a link with this far end.
pub(crate) fn put_wait<W: CountedWrite>(out: &mut Output<'_, W>, wait: Wait, far: Option<End>)
    ensures { Tells W.contents W.failures out.old out.new (spec.wait_text wait far) }
{
    put_want(out, wait.want);
    out.put(b" on link ");
    put_decimal(out, u64::from(wait.link));
    put_wire(out, wait.want, far);
}

/// What is waited for at a link.
fn put_want<W: CountedWrite>(out: &mut Output<'_, W>, want: Want)
    ensures { Tells W.contents W.failures out.old out.new (spec.want_text want) }
{
    match want {
        Want::Output => out.put(b"output"),
        Want::Input => out.put(b"input"),
        Want::Alternative => out.put(b"alternative"),
    }
}

/// Where the wire leads, if there is one.
fn put_wire<W: CountedWrite>(out: &mut Output<'_, W>, want: Want, far: Option<End>)
    ensures { Tells W.contents W.failures out.old out.new (spec.wire_text want far) }
{
    match far {
        Some(end) => {
            put_way(out, want);
            put_end(out, &end);
        }
        None => out.put(b", no wire"),
    }
}

/// Which way it goes: an output to the far end, all else from it.
fn put_way<W: CountedWrite>(out: &mut Output<'_, W>, want: Want)
    ensures { Tells W.contents W.failures out.old out.new (spec.way_text want) }
{
    match want {
        Want::Output => out.put(b" to "),
        Want::Input => out.put(b" from "),
        Want::Alternative => out.put(b" from "),
    }
}
