//! The pauses of a picture: each stands in a lane beside the column of its node, while its process waits.

ghost use Rattle.std.specs.Prelude.{◌≡◌, Some, None, OnOk};
ghost use Rattle.tchart.specs.Plots as spec;

use crate::marks::{Mark, Pause};
use crate::plot::{LANES, MOST_ROWS, Plot, below};
use crate::waits::need_of;
use std::alloc::AllocError;
use tproc::Waiter;

impl Plot {
    /// The first lane of a node that is free.
    fn free_lane(&self, node: u8) -> Option<u8>
        ensures { result ≡ spec.free_lane 6 self.now node 0 }
    {
        for lane in 0..LANES {
            if self.lane(node, lane).is_none() {
                return Some(lane);
            }
        }
        None
    }

    /// A process of a node waits from the row below on, if one does. It has a lane, if one is free.
    pub(crate) fn pause(&mut self, node: u8, number: u64, waiter: Option<Waiter>)
        ensures { self.new ≡ spec.paused node number waiter self.old }
    {
        let Some(waiter) = waiter else {
            return;
        };
        let pause = Pause {
            from: below(self.track(node).row),
            first: number,
            process: waiter.process,
            need: need_of(waiter.reason),
        };
        let lane = self.free_lane(node);
        self.reach(pause.from);
        match lane {
            Some(lane) => self.set_lane(node, lane, Some(pause)),
            None => self.crowd(),
        }
    }

    /// A pause of a lane is drawn down to a row, if it reaches there.
    fn draw_pause(
        &mut self,
        node: u8,
        lane: u8,
        pause: Pause,
        to: u32,
        last: Option<u64>,
    ) -> Result<(), AllocError>
        ensures { OnOk result (self.new ≡ spec.with_pause node lane pause to last self.old) }
    {
        if pause.from <= to {
            self.draw(Mark::Pause {
                node,
                lane,
                pause,
                to,
                last,
            })?;
        }
        Ok(())
    }

    /// The pause of a lane is drawn down to a row, or to the last row that is drawn, and the lane is free.
    fn free(&mut self, node: u8, to: u32, last: Option<u64>, lane: u8) -> Result<(), AllocError>
        ensures { OnOk result
            (self.new ≡ spec.freed node to last lane (spec.lane_at self.old node lane) self.old) }
    {
        if let Some(pause) = self.lane(node, lane) {
            self.draw_pause(node, lane, pause, to.min(MOST_ROWS), last)?;
            self.set_lane(node, lane, None);
        }
        Ok(())
    }

    /// The pause of a lane is over with an event of this number of its node.
    ///
    /// # Errors
    /// Where the allocator refuses.
    pub(crate) fn end_pause(&mut self, node: u8, number: u64, lane: u8) -> Result<(), AllocError>
        ensures { OnOk result
            (self.new
            ≡ spec.freed node (spec.track_at self.old node).row (Some number) lane (spec.lane_at self.old node lane)
            self.old) }
    {
        let row = self.track(node).row;
        self.free(node, row, Some(number), lane)
    }

    /// The pauses of a node are drawn, down to a row.
    ///
    /// # Errors
    /// Where the allocator refuses.
    pub(crate) fn end_lanes(&mut self, node: u8, to: u32) -> Result<(), AllocError>
        ensures { OnOk result (self.new ≡ spec.lanes_ended 6 node to self.old) }
    {
        for lane in 0..LANES {
            self.free(node, to, None, lane)?;
        }
        Ok(())
    }
}
