//! Why a command printed nothing, or not all.

ghost use Rattle.std.specs.Prelude.{◌≡◌};
ghost use Rattle.topening.specs.declared.fault.Fault.TheVariants.{Log, Memory, Names, Net, Output, Replay, Rounds};
ghost use Rattle.topening.specs.declared.fault.Fault.TheVariants.{Wiring};
ghost use Rattle.topening.specs.Faults as spec;

use std::alloc::{AllocError, AllocFailed};
use tfiles::image::ImageFault;
use tfiles::log_reading::LogFault;
use tfiles::writing::output::WriteFault;
use thiserror::Error;
use tnames::NamesFault;
use tplan::{BuildFault, WiringFault};
use trounds::{NetFault, ReplayFault};
use tword::Word;

/// Why a command printed nothing, or not all.
#[derive(Debug, Drop, Error)]
pub enum Fault {
    /// The file of this name could not be read, or its text is not UTF-8.
    #[error("the file {0} cannot be read")]
    File(String),
    /// The wiring file is no wiring.
    #[error("the file is no wiring: {0}")]
    Wiring(WiringFault),
    /// The file of this node is no image.
    #[error("the file of node {0} is no image: {1}")]
    Image(usize, ImageFault),
    /// The wiring with its images is no net.
    #[error("the wiring with its images is no net: {0:?}")]
    Net(BuildFault),
    /// The rounds were refused.
    #[error("the rounds were refused: {0:?}")]
    Rounds(NetFault),
    /// The log file is no log.
    #[error("the file is no log: {0}")]
    Log(LogFault),
    /// A file of names is no file of names.
    #[error("the file is none of names: {0}")]
    Names(NamesFault),
    /// An event of the log is not enabled.
    #[error("an event of the log is not enabled: {0:?}")]
    Replay(ReplayFault),
    /// The net has no node, source or sink of this number.
    #[error("the net has no node {0}")]
    NoNode(u8),
    /// The node has no memory at this address.
    #[error("the node has no memory at {0:?}")]
    NoMemory(Word),
    /// The output failed.
    #[error("{0}")]
    Output(WriteFault),
    /// No log was found of an outcome or freeze that an exploration tells.
    #[error("no log was found")]
    NoLog,
    /// The allocator refused.
    #[error("out of memory")]
    Memory,
}

impl Fault {
    /// The exit status of the program: 2 for bad input, 3 where the output failed or no log was found, 4 where there
    /// was no memory.
    pub fn status(&self) -> u8
        ensures { result ≡ spec.status_of self.now }
    {
        match self {
            Fault::Output(_) | Fault::NoLog => 3,
            _ if self.wants_memory() => 4,
            _ => 2,
        }
    }

    /// The same fault, but `Memory` where there was no memory, wherever that showed.
    fn settled(self) -> Fault
        ensures { result ≡ spec.settled self }
    {
        if self.wants_memory() {
            Fault::Memory
        } else {
            self
        }
    }

    /// Whether there was no memory, wherever that showed.
    fn wants_memory(&self) -> bool
        ensures { result ≡ spec.wants_memory self.now }
    {
        match self {
            Fault::Memory
            | Fault::Wiring(WiringFault::OutOfMemory)
            | Fault::Image(_, ImageFault::OutOfMemory)
            | Fault::Net(BuildFault::OutOfMemory)
            | Fault::Rounds(NetFault::OutOfMemory)
            | Fault::Log(LogFault::OutOfMemory)
            | Fault::Names(NamesFault::OutOfMemory)
            | Fault::Replay(ReplayFault::OutOfMemory) => true,
            _ => false,
        }
    }
}

impl From<AllocError> for Fault {
    ghost from_gives = { λ _ fault. fault ≡ Memory };

    fn from(_error: AllocError) -> Fault {
        Fault::Memory
    }
}

impl<T: Drop> From<AllocFailed<T>> for Fault {
    ghost from_gives = { λ _ fault. fault ≡ Memory };

    fn from(_error: AllocFailed<T>) -> Fault {
        Fault::Memory
    }
}

impl From<WriteFault> for Fault {
    ghost from_gives = { λ cut fault. fault ≡ Output cut };

    fn from(cut: WriteFault) -> Fault {
        Fault::Output(cut)
    }
}

impl From<WiringFault> for Fault {
    ghost from_gives = { λ given fault. fault ≡ spec.settled (Wiring given) };

    fn from(fault: WiringFault) -> Fault {
        Fault::Wiring(fault).settled()
    }
}

impl From<BuildFault> for Fault {
    ghost from_gives = { λ given fault. fault ≡ spec.settled (Net given) };

    fn from(fault: BuildFault) -> Fault {
        Fault::Net(fault).settled()
    }
}

impl From<NetFault> for Fault {
    ghost from_gives = { λ given fault. fault ≡ spec.settled (Rounds given) };

    fn from(fault: NetFault) -> Fault {
        Fault::Rounds(fault).settled()
    }
}

impl From<LogFault> for Fault {
    ghost from_gives = { λ given fault. fault ≡ spec.settled (Log given) };

    fn from(fault: LogFault) -> Fault {
        Fault::Log(fault).settled()
    }
}

impl From<NamesFault> for Fault {
    ghost from_gives = { λ given fault. fault ≡ spec.settled (Names given) };

    fn from(fault: NamesFault) -> Fault {
        Fault::Names(fault).settled()
    }
}

impl From<ReplayFault> for Fault {
    ghost from_gives = { λ given fault. fault ≡ spec.settled (Replay given) };

    fn from(fault: ReplayFault) -> Fault {
        Fault::Replay(fault).settled()
    }
}
