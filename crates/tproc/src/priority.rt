//! The priority of a process.

ghost use Rattle.std.specs.Prelude.{◌≡◌, ◌<◌};
ghost use Rattle.tproc.specs.Priorities.{number};

/// The priority of a process. Definitions have a number for it, as a descriptor's lowest bit has.
#[derive(Clone, Copy, Debug, PartialEq, Eq)]
pub enum Priority {
    High,
    Low,
}

impl Priority {
    /// The number of the priority: 0 is high, 1 is low.
    #[inline(always)]
    pub fn number(self) -> u8
        ensures is { result ≡ number self }
        ensures bit { result < 2 }
    {
        match self {
            Priority::High => 0,
            Priority::Low => 1,
        }
    }
}
