//! Why there is no certificate, as it is printed.

ghost use Rattle.std.specs.Prelude.{◌≡◌};
ghost use Rattle.tfindings.specs.Refusals as spec;

use tcertify::Stop;
use tfiles::break_names::break_name;

/// The name of why a step stops.
pub(crate) fn stop_name(why: Stop) -> &'static [u8]
    ensures { result.now ≡ spec.stop_name why }
{
    match why {
        Stop::Breaks(broken) => break_name(broken),
        Stop::Halts => b"Halts",
        Stop::SawTheScheduler => b"SawTheScheduler",
        Stop::SeveralReady => b"SeveralReady",
        Stop::WordInUse => b"WordInUse",
        Stop::FullSink => b"FullSink",
        Stop::HasNoStep => b"HasNoStep",
    }
}
