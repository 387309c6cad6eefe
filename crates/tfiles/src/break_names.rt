//! The names of breaks, as they are printed.

ghost use Rattle.std.specs.Prelude.{◌≡◌};
ghost use Rattle.tfiles.specs.Texts as spec;

use tword::Break;

/// The name of a break, as it is printed.
pub fn break_name(broken: Break) -> &'static [u8]
    ensures { result.now ≡ spec.break_name broken }
{
    match broken {
        Break::BadAddress => b"BadAddress",
        Break::Reserved => b"Reserved",
        Break::Unaligned => b"Unaligned",
        Break::NoSuchOperation => b"NoSuchOperation",
        Break::LongPrefix => b"LongPrefix",
        Break::InTransit => b"InTransit",
        Break::SavedWord => b"SavedWord",
        Break::LengthMismatch => b"LengthMismatch",
        Break::LinkBusy => b"LinkBusy",
        Break::WrongEnd => b"WrongEnd",
        Break::ChannelMisuse => b"ChannelMisuse",
        Break::ZeroLength => b"ZeroLength",
        Break::AlreadyLive => b"AlreadyLive",
        Break::TooManyProcesses => b"TooManyProcesses",
    }
}
