//! What a certificate tells of all runs of a net, as the contract of a function that does nothing.

ghost use Rattle.tseen.specs.Whole.{CertificatesTellOfTheNet};

/// If the process machine of a plan without a fault has a certificate, no run of the net from its opening has more
/// steps than the certificate allows. It comes only to configurations that a state of the process machine shows, in
/// which no node is frozen and none has halted. Where the net is at rest, each wire has carried the messages that it
/// carries in the certificate, memories have each byte that is known in the certified end, and sinks have kept the
/// same messages.
pub fn certificates_tell_of_the_net()
    ensures { CertificatesTellOfTheNet }
{}
