//! Workers that go round by round.

use crate::answer::Fault;
use crate::crew::Crew;
use std::alloc::Global;
use std::thread::Threads;
use tnet::Net;
use trounds::{Open, run_rounds};

/// Does `count` rounds of a net: how many events that was, and the net after them.
pub fn went_round<R: Threads + Sync>(
    rt: &R,
    alloc: Global,
    net: Net,
    crew: Crew,
    count: u32,
) -> Result<(u64, Net), Fault> {
    let Crew { slice, workers, .. } = crew;
    match run_rounds(rt, alloc, net, count, slice, &[], workers, &Open) {
        Ok(report) => Ok((report.events.as_slice().len() as u64, report.net)),
        Err(_refused) => Err(Fault("rounds are refused")),
    }
}
