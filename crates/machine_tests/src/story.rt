//! What is told of calls that may be refused memory, and of their result.

use crate::fault::Fault;
use std::alloc::{AllocError, Global};
use tfiles::{Uncounted, write_dump, write_trace};
use tnet::Net;
use tplan::{Event, Note};

/// A call that may be refused.
#[derive(Clone, Copy)]
pub enum Call {
    Build,
    /// A call of `run_rounds`, before which this number of rounds was done.
    Rounds(u32),
    Open,
    Turn,
    Gather,
}

/// The call that was refused, if one was, and the text of their result.
#[derive(Drop)]
pub struct Story {
    pub refused: Option<Call>,
    text: Uncounted<Vec<u8>>,
}

impl Story {
    /// Nothing was refused yet, and nothing is told.
    pub fn new(alloc: Global) -> Story {
        Story {
            refused: None,
            text: Uncounted(Vec::new(alloc)),
        }
    }

    /// Tells how many there were of something.
    pub fn count(&mut self, alloc: Global, what: &str, number: u64) -> Result<(), Fault> {
        let line = format!(in alloc; "{what} {number}\n")?;
        self.text.0.extend_from_slice(line.as_bytes())?;
        Ok(())
    }

    /// Tells how many events were done, the trace of their notes, and the dumps of the net after them.
    pub fn tell(
        &mut self,
        alloc: Global,
        events: &[Event],
        notes: &[Note],
        net: &Net,
    ) -> Result<(), Fault> {
        self.count(alloc, "events", events.len() as u64)?;
        write_trace(&mut self.text, notes)?;
        write_dump(&mut self.text, net)?;
        Ok(())
    }

    /// Whether the text begins with these parts, one after another.
    pub fn begins_with(&self, parts: &[&str]) -> bool {
        let mut rest = self.text.0.as_slice();
        for part in parts {
            match rest.strip_prefix(part.as_bytes()) {
                Some(more) => rest = more,
                None => return false,
            }
        }
        true
    }

    /// The line that tells which call was refused.
    fn refusal(&self, alloc: Global) -> Result<String, AllocError> {
        match self.refused {
            None => format!(in alloc; "refused no call\n"),
            Some(Call::Build) => format!(in alloc; "refused build\n"),
            Some(Call::Rounds(done)) => format!(in alloc; "refused run_rounds after {done}\n"),
            Some(Call::Open) => format!(in alloc; "refused open\n"),
            Some(Call::Turn) => format!(in alloc; "refused turn\n"),
            Some(Call::Gather) => format!(in alloc; "refused gather\n"),
        }
    }

    /// A line that tells which call was refused, and the text.
    pub fn page(&self, alloc: Global) -> Result<Vec<u8>, Fault> {
        let line = self.refusal(alloc)?;
        let mut page = Vec::from_slice(alloc, line.as_bytes())?;
        page.extend_from_slice(self.text.0.as_slice())?;
        Ok(page)
    }
}
