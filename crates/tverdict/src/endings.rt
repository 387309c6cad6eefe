//! Runs that are over.

ghost use Rattle.std.specs.Prelude.{◌≡◌, ◌<◌, ℕ, false, position, IfNone, IfSome, length};
ghost use Rattle.tplan.specs.declared.plan.Plan.{Plan};
ghost use Rattle.tverdict.specs.Machines.{Follows, HasNoStep};
ghost use Rattle.tverdict.specs.Verdicts as spec;
ghost use Rattle.tverdict.specs.Verdicts.{HaveRoom, IsRefusedBy, IsTold, IsTooFull};

use crate::lodging::Lodging;
use crate::machine::Machine;
use crate::verdict::{Refusal, Verdict};
use tcertify::Node;
use tword::limits::MOST_PROCESSES;

/// Whether a node had more processes in all than it may at the same time.
fn had_many(node: &Node) -> bool
    ensures { result ≡ spec.had_many node.now }
{
    !(node.population as usize <= MOST_PROCESSES)
}

/// Whether nothing is known of the berths of the node of this number.
fn is_crowded(lodgings: &[Lodging], number: usize) -> bool
    ensures { result ≡ spec.is_crowded_at lodgings.now number }
{
    match lodgings.get(number) {
        Some(lodging) => lodging.is_crowded,
        None => true,
    }
}

/// Whether a flag was changed at a node where processes of both priorities ran.
fn changed_flags(node: &Node) -> bool
    ensures { result ≡ spec.changed_flags node.now }
{
    node.is_flag_changed && node.has_run_high && node.has_run_low
}

/// The first node that is too full: it had more processes in all than it may at the same time, and nothing is known of
/// its berths.
fn first_too_full(nodes: &[Node], lodgings: &[Lodging]) -> Option<usize>
    ensures some { IfSome result (λ number. IsTooFull nodes.now number) }
    ensures none { IfNone result (HaveRoom nodes.now lodgings.now (length nodes.now)) }
{
    for number in 0..nodes.len() {
        if had_many(&nodes[number]) && is_crowded(lodgings, number) {
            return Some(number);
        }
    }
    None
}

/// The first node at which processes of both priorities ran and a flag was changed.
fn first_with_flags(nodes: &[Node]) -> Option<usize>
    ensures { result ≡ position spec.changed_flags nodes.now }
{
    nodes.iter().position(changed_flags)
}

impl Machine {
    /// The first node that is too full.
    fn too_full(&self) -> Option<usize>
        ensures some { IfSome result (λ number. IsTooFull self.now.nodes.items number) }
        ensures none { IfNone result
            (HaveRoom self.now.nodes.items self.now.lodgings.items (length self.now.nodes.items)) }
    {
        first_too_full(self.nodes.as_slice(), self.lodgings.as_slice())
    }

    /// The refusal of a run in which a node is too full.
    pub fn crowding(&self) -> Option<Refusal>
        ensures { IfSome result
            (λ refusal. (plan : Plan) → Follows plan self.now → IsRefusedBy plan self.now refusal) }
    {
        let node = self.too_full()?;
        Some(Refusal::TooManyProcesses { node })
    }

    /// The verdict on a run after which no agent has a step.
    pub fn ending(&self) -> Verdict
        ensures { (plan : Plan) (most : ℕ) → Follows plan self.now → HasNoStep plan self.now
            → IsTold plan most self.now result }
    {
        match self.too_full() {
            Some(node) => Verdict::Refused(Refusal::TooManyProcesses { node }),
            None => match first_with_flags(self.nodes.as_slice()) {
                Some(node) => Verdict::Refused(Refusal::FlagsChanged { node }),
                None => Verdict::Certified,
            },
        }
    }
}
