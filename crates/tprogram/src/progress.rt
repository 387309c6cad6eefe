//! How far an exploration or the run of a certificate has come, on standard error where that is a terminal.

use std::io::IsTerminal;
use texplore::Progress;
use tfindings::RunProgress;

/// The number of states after which the line is written again.
const EVERY: u64 = 4_096;

/// A line on standard error that is written over and over; none where standard error is no terminal.
#[derive(Drop)]
pub(crate) struct ProgressLine<'a> {
    rt: &'a HostRuntime,
    is_shown: bool,
    visited: u64,
}

impl<'a> ProgressLine<'a> {
    /// No state was visited yet.
    pub(crate) fn new(rt: &'a HostRuntime) -> ProgressLine<'a> {
        ProgressLine {
            rt,
            is_shown: rt.stderr().is_terminal(),
            visited: 0,
        }
    }
}

impl Progress for ProgressLine<'_> {
    fn at(&mut self, states: usize, steps: u64, shown: usize) {
        self.visited = self.visited.saturating_add(1);
        if self.is_shown && self.visited % EVERY == 0 {
            // Where standard error fails, nothing is shown.
            let _ = eprint!(self.rt; "\rtemu: {states} states, {steps} steps, {shown} ends");
        }
    }

    fn end(&mut self) {
        if self.is_shown && self.visited >= EVERY {
            let _ = eprint!(self.rt; "\r\x1b[K");
        }
    }
}

/// A line on standard error that is written over and over; none where standard error is no terminal.
#[derive(Drop)]
pub(crate) struct StepsLine<'a> {
    rt: &'a HostRuntime,
    is_shown: bool,
    is_written: bool,
}

impl<'a> StepsLine<'a> {
    /// No step was done yet.
    pub(crate) fn new(rt: &'a HostRuntime) -> StepsLine<'a> {
        StepsLine {
            rt,
            is_shown: rt.stderr().is_terminal(),
            is_written: false,
        }
    }
}

impl RunProgress for StepsLine<'_> {
    fn at(&mut self, steps: u64) {
        if self.is_shown {
            // Where standard error fails, nothing is shown.
            let _ = eprint!(self.rt; "\rtemu: {steps} steps");
            self.is_written = true;
        }
    }

    fn end(&mut self) {
        if self.is_written {
            let _ = eprint!(self.rt; "\r\x1b[K");
        }
    }
}
