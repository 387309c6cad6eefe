//! What the steps of a node note of themselves.

ghost use Rattle.std.specs.Prelude.{◌≡◌, ◌∷◌, [], false, Contains, ◌⊎◌};
ghost use Rattle.tcertify.specs.Nodes.{HasLead, GoesOn, IsBegun};

use crate::lead::Lead;
use crate::node::Node;

/// No more notes than these are kept for the next step.
const MOST_KEPT: usize = 192;

impl Node {
    /// Forgets what was noted, before a step.
    pub fn begin_step(&mut self)
        ensures { IsBegun self.old self.new }
    {
        self.words.notes.clear();
        self.leads.clear();
    }

    /// Begins a step of the agent that made the last step of the node. What was noted stays, if that step led nowhere
    /// and there is not too much; else it is forgotten.
    #[inline(always)]
    pub fn go_on(&mut self)
        ensures { GoesOn self.old self.new }
    {
        if self.leads.is_empty() && self.words.notes.items.len() <= MOST_KEPT {
            self.words.notes.keep();
        } else {
            self.begin_step();
        }
    }

    /// Notes what the step leads to. Where memory is out, it counts as a note that got lost.
    #[inline(always)]
    pub(crate) fn note_lead(&mut self, lead: Lead)
        ensures { HasLead self.old lead self.new }
    {
        if self.leads.push(lead).is_err() {
            self.words.notes.is_lost = true;
        }
    }
}
