//! Laws of alternatives, as the process machine shows them, each as the contract of a function
//! that does nothing.

ghost use Rattle.tcode.specs.declared.instruction.Operation.TheVariants.{Alt, Altend, Diss, Enbc, Enbs};
ghost use Rattle.tseen.specs.Alternatives.{AwaitsAreSeen, DisabledChannelsAreSeen, EnabledMessagesAreSeen};
ghost use Rattle.tseen.specs.Alternatives.{IsSeenAtOnce};

/// What `alt` leads to is shown by the state after the step of its process.
pub fn alts_are_seen()
    ensures { IsSeenAtOnce Alt }
{}

/// The same holds for `enbc`, whether a message is sent on its channel or not.
pub fn enabled_channels_are_seen()
    ensures { IsSeenAtOnce Enbc }
{}

/// The same holds for `enbs`.
pub fn enabled_skips_are_seen()
    ensures { IsSeenAtOnce Enbs }
{}

/// What `disc` leads to is shown by the state after the step of its process, or, if the process listens there, by that
/// after one more step of it.
pub fn disabled_channels_are_seen()
    ensures { DisabledChannelsAreSeen }
{}

/// The same holds for `diss`.
pub fn disabled_skips_are_seen()
    ensures { IsSeenAtOnce Diss }
{}

/// The same holds for `altend`.
pub fn ends_of_alternatives_are_seen()
    ensures { IsSeenAtOnce Altend }
{}

/// What `altwt` leads to is shown by the state after the step of its process, or, where a sender was there before, by
/// that after the step of an enabled channel, or of the wire to such a link, and after the process has gone on.
pub fn awaits_are_seen()
    ensures { AwaitsAreSeen }
{}

/// What a communication on a channel that an alternative has enabled leads to is shown by the state after the step of
/// its process, or where the process waits that has enabled it, after that of the channel, which then has one.
pub fn enabled_messages_are_seen()
    ensures { EnabledMessagesAreSeen }
{}
