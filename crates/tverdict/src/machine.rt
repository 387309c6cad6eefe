//! The whole machine.

use crate::agent::Agent;
use crate::hints::AgentHints;
use crate::idle::Idle;
use crate::lodging::Lodging;
use tcertify::{Node, Sink};
use tclocks::RaceCheck;
use tnet::Wires;

/// A step that was done at one node: the number of its agent, and that node.
#[derive(Clone, Copy)]
pub struct LastStep {
    pub number: u32,
    pub node: u32,
}

/// The process machine of a plan after some steps of a run, with the check of these for races.
#[derive(Drop)]
pub struct Machine {
    /// The nodes of the plan, in its order.
    pub nodes: Vec<Node>,
    /// How many messages of each source have gone over.
    pub sent: Vec<u32>,
    pub sinks: Vec<Sink>,
    pub wires: Wires,
    /// The agents that were found, each under its number in the check. A process that has ended may have lost its own
    /// to another agent.
    pub agents: Vec<Agent>,
    /// Numbers that may be those of processes that have ended. It is only a hint, which whoever takes one has to check.
    pub spare: Vec<u32>,
    /// Where an agent may be in the list.
    pub hints: AgentHints,
    pub check: RaceCheck,
    /// The berths of each node.
    pub lodgings: Vec<Lodging>,
    /// Numbers of agents that may have a step. Each may stand there more than once.
    pub candidates: Vec<u32>,
    /// The number of the place of a source or sink is this one and the number of its node.
    pub first_script: u32,
    /// The lowest number that no place has yet.
    pub fresh_place: u32,
    /// How many steps were done.
    pub done: u64,
    /// The last step, if it was done at one node.
    pub last: Option<LastStep>,
    /// Memories that instructions may have at hand.
    pub idle: Idle,
}
