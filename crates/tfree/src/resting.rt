//! Whether workers have anything left to do, with all of them in hand.

ghost use Rattle.std.specs.Prelude.{◌≡◌, ◌+◌, ◌<◌, ℕ, IsTrue, length, false, Some, slice_get};
ghost use Rattle.tlink.specs.declared.event.Packet.{Packet};
ghost use Rattle.tfree.specs.Kept.{own_end};
ghost use Rattle.tfree.specs.Lists.{event_taking};
ghost use Rattle.tfree.specs.Resting.{IsRingEmpty, LinkRests, NodeRests, HasNothingLeft, IsIdle};
ghost use Rattle.tfree.specs.Turning as spec;
ghost use Rattle.tfree.specs.Turns.{IsEnabled};
ghost use Rattle.tfree.specs.Views.{View};

use crate::turning::Ended;
use crate::worker::Worker;
use tlink::NodeEvent;

impl Worker {
    /// Whether an event that takes a packet is enabled at a link of the worker's i-th node, whatever byte comes.
    fn may_take(&self, i: usize, link: u8) -> bool
        requires i { i < self.now.share.owned }
        requires link { link < 4 }
        ensures { result ≡ false → (p : Packet)
            → IsEnabled self.now.share (self.now.share.first + i) (event_taking link p) self.now.events → ⊥ }
    {
        self.enabled(i, NodeEvent::Data(link, 0, false)) || self.enabled(i, NodeEvent::Ack(link))
    }

    /// Whether as many packets were taken from the ring that leads to a link as one of the workers put in.
    fn is_ring_empty(&self, i: usize, link: u8, workers: &[Worker]) -> bool
        requires i { i < self.now.share.owned }
        requires link { link < 4 }
        ensures { IsTrue result → IsRingEmpty workers.now self.now (own_end self.now.share i link) }
    {
        let Some(far) = self.far(i, link) else {
            return false;
        };
        let Some(taken) = self.taken(i, link) else {
            return false;
        };
        if self.owns(far.node) {
            return self.put(far) == Some(taken);
        }
        for other in workers {
            if other.put(far) == Some(taken) {
                return true;
            }
        }
        false
    }

    /// Whether at a link no event is enabled but those that take a packet, and no packet lies there for them.
    fn link_rests(&self, i: usize, link: u8, workers: &[Worker]) -> bool
        requires i { i < self.now.share.owned }
        requires link { link < 4 }
        ensures { IsTrue result → LinkRests workers.now self.now i link }
    {
        if self.enabled(i, NodeEvent::Send(link)) || self.enabled(i, NodeEvent::Take(link)) {
            return false;
        }
        !self.may_take(i, link) || self.is_ring_empty(i, link, workers)
    }

    /// Whether no event of a node is enabled but those that take a packet, and no packet lies at its links for them.
    fn node_rests(&self, i: usize, workers: &[Worker]) -> bool
        requires { i < self.now.share.owned }
        ensures { IsTrue result → NodeRests workers.now self.now i }
    {
        if self.enabled(i, NodeEvent::Run) {
            return false;
        }
        for link in 0..4_u8 {
            if !self.link_rests(i, link, workers) {
                return false;
            }
        }
        true
    }

    /// Whether the worker has nothing left to do.
    fn has_nothing_left(&self, workers: &[Worker]) -> bool
        ensures { IsTrue result → HasNothingLeft workers.now self.now }
    {
        for i in 0..self.nodes() {
            if !self.node_rests(i, workers) {
                return false;
            }
        }
        true
    }
}

/// Whether each worker that did not stop for a fault has nothing left to do.
pub(crate) fn are_idle(workers: &[Worker], endings: &[Ended]) -> bool
    requires { length endings.now ≡ length workers.now }
    ensures { IsTrue result → (k : ℕ) (e : spec.Ended) (w : View) → slice_get endings.now k ≡ Some e
        → slice_get workers.now k ≡ Some w → IsIdle workers.now e w }
{
    for (place, worker) in workers.iter().enumerate() {
        if endings[place].is_ok() && !worker.has_nothing_left(workers) {
            return false;
        }
    }
    true
}
