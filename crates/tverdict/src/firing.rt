//! What is asked for and offered at the ends of wires, and how an input makes a process go on that waits for it and for
//! others.

ghost use Rattle.std.specs.Prelude.{◌≤◌, ◌<◌, IfOk, IfSome, Some, length, option_map};
ghost use Rattle.tplan.specs.declared.plan.Plan.{Plan};
ghost use Rattle.tprocesses.specs.Choosing as spec;
ghost use Rattle.tprocesses.specs.Machine as machine;
ghost use Rattle.tprocesses.specs.Machine.{role_at};
ghost use Rattle.tcertify.specs.Nodes.{nothing};
ghost use Rattle.tcertify.specs.declared.notes.Notes as noted;
ghost use Rattle.tverdict.specs.Agents.{HasProcess, name_there};
ghost use Rattle.tverdict.specs.Passing.{DoesHalf, IsOfferPlace};
ghost use Rattle.tverdict.specs.Stepping.{Fits};
ghost use Rattle.tverdict.specs.Wired.{DoesAtTwo};

use crate::machine::Machine;
use tcertify::{Fault, Mode, Notes, Stop};
use tplan::{End, Plan};

impl Machine {
    /// The process, by its number, that waits for the input of an end of a node and for others, if there is one.
    ///
    /// # Errors
    /// `OutOfMemory` where the end is at none of the four links, at which nobody waits.
    fn node_asks(&mut self, to: End) -> Result<Option<u32>, Fault>
        requires { to.node < length self.old.nodes.items }
        ensures asks { (plan : Plan) (notes : noted.Notes) → Fits plan self.old
            → DoesHalf plan (machine.asks (role_at plan to.node) to)
            (option_map (name_there self.old.nodes.items to.node)) to.node self.old notes result self.new notes }
        ensures there { IfOk result (λ asked.
            IfSome asked (λ process. HasProcess self.old.nodes.items to.node process)) }
    {
        if 4 <= to.link {
            return Err(Fault::OutOfMemory);
        }
        Ok(self.nodes[to.node as usize].awaiting(to.link))
    }

    /// The process, by its number, that waits for the input of an end and for others, if there is one. None does at a
    /// source or a sink.
    ///
    /// # Errors
    /// Those of `node_asks`.
    pub(crate) fn asks(&mut self, to: End) -> Result<Option<u32>, Fault>
        ensures asks { (plan : Plan) (notes : noted.Notes) → Fits plan self.old
            → DoesHalf plan (machine.asks (role_at plan to.node) to)
            (option_map (name_there self.old.nodes.items to.node)) to.node self.old notes result self.new notes }
        ensures there { IfOk result (λ asked.
            IfSome asked (λ process. HasProcess self.old.nodes.items to.node process)) }
    {
        if (to.node as usize) < self.nodes.len() {
            return self.node_asks(to);
        }
        Ok(None)
    }

    /// Whether a message is offered at an end of a node.
    ///
    /// # Errors
    /// `OutOfMemory` where the end is at none of the four links, at which nothing is offered.
    fn node_offers(&mut self, from: End) -> Result<bool, Fault>
        requires { from.node < length self.old.nodes.items }
        ensures { (plan : Plan) (notes : noted.Notes) → Fits plan self.old
            → DoesHalf plan (machine.offers plan from) (λ offered. offered) from.node self.old notes result self.new
            notes }
    {
        if 4 <= from.link {
            return Err(Fault::OutOfMemory);
        }
        Ok(self.nodes[from.node as usize].is_offering(from.link))
    }

    /// The number of the place at which messages are offered at an end behind the nodes: that of a source, or one for
    /// all ends at which nobody offers any.
    fn offer_place(&self, plan: &Plan, from: End) -> Option<u32>
        requires fits { Fits plan.now self.now }
        requires past { length plan.now.nodes ≤ from.node }
        ensures { IfSome result (IsOfferPlace plan.now self.now from) }
    {
        if from.node as usize - self.nodes.len() < self.sent.len() {
            self.first_script.checked_add(from.node)
        } else {
            Some(self.first_script)
        }
    }

    /// Whether a message is offered at an end behind the nodes. A source has one as long as messages are left.
    ///
    /// # Errors
    /// `OutOfMemory` where a number would not fit.
    fn script_offers(&self, plan: &Plan, from: End, notes: &mut Notes) -> Result<bool, Fault>
        requires fits { Fits plan.now self.now }
        requires past { length plan.now.nodes ≤ from.node }
        ensures { DoesHalf plan.now (machine.offers plan.now from) (λ offered. offered) from.node self.now notes.old
            result self.now notes.new }
    {
        let Some(place) = self.offer_place(plan, from) else {
            return Err(Fault::OutOfMemory);
        };
        notes.add(place, Mode::Looks);
        Ok(self.has_message(plan, from))
    }

    /// Whether a message is offered at an end. notes: those of sources and sinks.
    ///
    /// # Errors
    /// Those of `node_offers` and `script_offers`.
    pub(crate) fn offers(
        &mut self,
        plan: &Plan,
        from: End,
        notes: &mut Notes,
    ) -> Result<bool, Fault>
        requires { Fits plan.now self.old }
        ensures { DoesHalf plan.now (machine.offers plan.now from) (λ offered. offered) from.node self.old notes.old
            result self.new notes.new }
    {
        if (from.node as usize) < self.nodes.len() {
            return self.node_offers(from);
        }
        self.script_offers(plan, from, notes)
    }

    /// The input of an end makes the process of its node go on that waits for it and for others.
    ///
    /// # Errors
    /// Those of `Node::fires`; `OutOfMemory` where the end is at none of the four links, at which nobody waits.
    fn node_fires(&mut self, to: End, process: u32) -> Result<(), Fault>
        requires { HasProcess self.old.nodes.items to.node process }
        ensures { (plan : Plan) (notes : noted.Notes) → Fits plan self.old
            → DoesHalf plan (spec.fires to (name_there self.old.nodes.items to.node process)) nothing to.node self.old
            notes result self.new notes }
    {
        if 4 <= to.link {
            return Err(Fault::OutOfMemory);
        }
        self.nodes[to.node as usize].fires(to.link, process)?;
        Ok(())
    }

    /// The input of an end makes the process go on that waits for it and for others, where a message is offered at the
    /// other end of its wire. notes: those of sources and sinks.
    ///
    /// # Errors
    /// `HasNoStep` where none is; those of `offers` and `node_fires`.
    pub(crate) fn fires(
        &mut self,
        plan: &Plan,
        from: End,
        to: End,
        process: u32,
        notes: &mut Notes,
    ) -> Result<(), Fault>
        requires fits { Fits plan.now self.old }
        requires there { HasProcess self.old.nodes.items to.node process }
        ensures { DoesAtTwo plan.now
            (machine.crosses plan.now from to (Some (name_there self.old.nodes.items to.node process)))
            from.node to.node self.old notes.old result self.new notes.new }
    {
        if !self.offers(plan, from, notes)? {
            return Err(Fault::Stops(Stop::HasNoStep));
        }
        self.node_fires(to, process)
    }
}
