//! What is said of a plan.

use tcertify::Stop;
use tclocks::{Access, Mode, Step};

/// Two accesses to one place, of steps of two agents, of which no chain of steps is known that leads from the one to
/// the other.
#[derive(Clone, Copy, Debug)]
pub struct Race {
    /// The number of the place.
    pub place: u32,
    /// The earlier step, and how it accessed the place.
    pub earlier: Access,
    /// The last step.
    pub step: Step,
    /// How it accessed the place.
    pub mode: Mode,
}

/// Why there is no certificate.
#[derive(Clone, Copy, Debug)]
pub enum Refusal {
    /// The next step of the agent of this number stops.
    Stops { agent: u32, why: Stop },
    /// This node had more processes in all than may live there at the same time. It is told only where one has no berth
    /// that is known to be free, which the contract does not say.
    TooManyProcesses { node: usize },
    /// A flag was changed at this node, where processes of both priorities ran.
    FlagsChanged { node: usize },
}

/// What is said of a plan.
#[derive(Clone, Copy, Debug)]
pub enum Verdict {
    /// No run of the plan's process machine comes to another end.
    Certified,
    /// The run has a race.
    Race(Race),
    /// The run is no certificate, for this reason.
    Refused(Refusal),
    /// The run was given up after as many steps as were permitted, though an agent has one more.
    Cut,
}
