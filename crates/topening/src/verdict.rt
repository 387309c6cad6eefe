//! The results of commands.

ghost use Rattle.std.specs.Prelude.{◌≡◌};
ghost use Rattle.topening.specs.Verdicts as spec;

use tnet::Net;

/// The result of a command that was done without a fault.
#[derive(Clone, Copy)]
pub enum Verdict {
    /// No node is frozen; of an exploration: there is one outcome, and no freeze.
    Clear,
    /// A node is frozen; of an exploration: there is a freeze, or another number of outcomes than one.
    Marked,
    /// An exploration was cut.
    Cut,
    /// A wiring or its images were looked through, and something is wrong.
    Wrong,
}

impl Verdict {
    /// The verdict of a command that leaves this net.
    pub fn of_net(net: &Net) -> Verdict
        ensures { result ≡ spec.net_verdict net.now }
    {
        if has_frozen(net) {
            Verdict::Marked
        } else {
            Verdict::Clear
        }
    }

    /// The exit status of the program: 0, 1, 5 or 2.
    pub fn status(self) -> u8
        ensures { result ≡ spec.verdict_status self }
    {
        match self {
            Verdict::Clear => 0,
            Verdict::Marked => 1,
            Verdict::Cut => 5,
            Verdict::Wrong => 2,
        }
    }
}

/// Whether a node of a net is frozen.
fn has_frozen(net: &Net) -> bool
    ensures { result ≡ spec.has_frozen net.now }
{
    net.nodes().iter().any(|node| node.broken().is_some())
}
