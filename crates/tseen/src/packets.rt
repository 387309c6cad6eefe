//! What a certificate tells of all nets of packets, as the contract of a function that does nothing.

ghost use Rattle.tseen.specs.Packets.{CertificatesTellOfPackets};

/// If the process machine of a plan without a fault has a certificate, events lead from the opening of the net only to
/// nets in which no node is frozen and none has halted. Where no event is enabled, each wire has carried the messages
/// that it carries in the certificate, memories have each byte that is known in the certified end, and sinks have kept
/// the same messages.
pub fn certificates_tell_of_packets()
    ensures { CertificatesTellOfPackets }
{}
