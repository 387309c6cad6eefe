//! Who has steps.

ghost use Rattle.std.specs.Prelude.{◌≡◌, true};
ghost use Rattle.tverdict.specs.declared.agent.Agent.TheVariants as agents;

use tplan::End;

/// An agent that was found, by the numbers that things have at its node.
#[derive(Clone, Copy, Debug)]
pub enum Agent {
    /// A process of a node.
    Process { node: u32, process: u32 },
    /// An internal channel of a node.
    Channel { node: u32, channel: u32 },
    /// A wire, by the end that receives.
    Wire(End),
    /// A successor, by the number of the word that counts those for which it waits.
    Successor { node: u32, word: u32 },
}

impl Agent {
    /// Whether it is the process of this number.
    #[inline(always)]
    fn is_process(self, at: u32, number: u32) -> bool
        ensures yes { result ≡ true → self ≡ agents.Process at number }
        ensures no { self ≡ agents.Process at number → result ≡ true }
    {
        match self {
            Agent::Process { node, process } => node == at && process == number,
            _ => false,
        }
    }

    /// Whether it is the channel of this number.
    #[inline(always)]
    fn is_channel(self, at: u32, number: u32) -> bool
        ensures yes { result ≡ true → self ≡ agents.Channel at number }
        ensures no { self ≡ agents.Channel at number → result ≡ true }
    {
        match self {
            Agent::Channel { node, channel } => node == at && channel == number,
            _ => false,
        }
    }

    /// Whether it is the wire to this end.
    #[inline(always)]
    fn is_wire(self, to: End) -> bool
        ensures yes { result ≡ true → self ≡ agents.Wire to }
        ensures no { self ≡ agents.Wire to → result ≡ true }
    {
        match self {
            Agent::Wire(end) => end.node == to.node && end.link == to.link,
            _ => false,
        }
    }

    /// Whether it is the successor that waits at the word of this number.
    #[inline(always)]
    fn is_successor(self, at: u32, number: u32) -> bool
        ensures yes { result ≡ true → self ≡ agents.Successor at number }
        ensures no { self ≡ agents.Successor at number → result ≡ true }
    {
        match self {
            Agent::Successor { node, word } => node == at && word == number,
            _ => false,
        }
    }

    /// Whether two agents are the same.
    #[inline(always)]
    pub fn is_same(self, other: Agent) -> bool
        ensures yes { result ≡ true → self ≡ other }
        ensures no { self ≡ other → result ≡ true }
    {
        match other {
            Agent::Process { node, process } => self.is_process(node, process),
            Agent::Channel { node, channel } => self.is_channel(node, channel),
            Agent::Wire(end) => self.is_wire(end),
            Agent::Successor { node, word } => self.is_successor(node, word),
        }
    }
}
