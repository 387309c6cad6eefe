//! What was found of a plan by a run of its process machine.

use tcertify::Stop;
use tclocks::Mode;
use tcode::Instruction;
use tverdict::Agent;
use tword::Word;

/// Where a process stands, and what is fetched there: an instruction, or why there is none.
#[derive(Clone, Copy)]
pub struct Code {
    pub address: Word,
    pub fetched: Result<Instruction, Stop>,
}

/// A step of an agent.
#[derive(Clone, Copy)]
pub struct Made {
    pub agent: Agent,
    /// Its number among the steps of that agent, from 1 on.
    pub number: u32,
    /// The code that it runs, where it is known and the agent is a process.
    pub code: Option<Code>,
}

/// How a step accessed a place.
#[derive(Clone, Copy)]
pub struct Touch {
    pub mode: Mode,
    pub made: Made,
}

/// What was found.
#[derive(Clone, Copy)]
pub enum Finding {
    /// All runs come to the end at which the machine stands.
    Certified,
    /// Two steps of which neither has to come first accessed the place of this number.
    Race {
        place: u32,
        earlier: Touch,
        last: Touch,
    },
    /// This step stops.
    Stopped {
        made: Made,
        why: Stop,
    },
    /// This node had more processes in all than may live there at the same time. It is told only where one has no berth
    /// that is known to be free, which the contract does not say.
    TooManyProcesses {
        node: usize,
    },
    /// A flag was changed at this node, where processes of both priorities ran.
    FlagsChanged {
        node: usize,
    },
    /// The run was given up after as many steps as were permitted.
    Cut,
}
