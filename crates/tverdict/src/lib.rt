//! The whole process machine as a program keeps it that follows one run and checks it for races, and what it says of a
//! plan in the end.
//!
//! - `agent`: who has steps
//! - `machine`: the whole machine, with the check of the run so far
//! - `opening`: the machine before the first step; `planned`: that its plan has no fault; `finding`: its agents
//! - `next`: which agent makes the next step
//! - `turn`: one step of the run, and the loop
//! - `endings`: runs that are over
//! - `verdict`, `halt`: what is said of a plan, and why a step is the last one
//! - `looks`: which agents have a step
//! - `laws`: a step at a node is one of the whole machine
//! - `telling`: notes as the check is told of them
//! - `calls`: steps as calls on one node
//! - `coming`, `leading`: agents that come, and to which a step leads
//! - `hints`: where to look first for an agent
//! - `stepping`, `finishing`: the step of an agent, and what follows the call that does it
//! - `going`: the steps of a process that goes on, in one call
//! - `passing`: the steps of wires; `firing`: how an input makes a process go on that waits for it and for others
//! - `listening`: the step of a process that listens to a link which did not make it go on
//! - `lodging`: the berths of nodes, which their processes take by turns
//! - `idle`: memories that lie idle
#![tactic(auto)]

mod agent;
mod calls;
mod coming;
mod endings;
mod finding;
mod finishing;
mod firing;
mod going;
mod halt;
mod hints;
mod idle;
pub mod laws;
mod leading;
mod listening;
mod lodging;
mod looks;
mod machine;
mod next;
mod opening;
mod passing;
mod planned;
mod scripts;
mod stepping;
mod telling;
mod turn;
mod verdict;

pub use agent::Agent;
pub use halt::Halt;
pub use hints::AgentHints;
pub use idle::Idle;
pub use lodging::Lodging;
pub use machine::{LastStep, Machine};
pub use turn::Turn;
pub use verdict::{Race, Refusal, Verdict};
