//! Successors, which go on where other processes of a node have ended.

ghost use Rattle.std.specs.Prelude.{◌≡◌, ◌<◌, length};
ghost use Rattle.tprocesses.specs.Scheduling as spec;
ghost use Rattle.tprocesses.specs.Values.{Last};
ghost use Rattle.tcertify.specs.Messages.{succeeds, takes_over};
ghost use Rattle.tcertify.specs.Nodes.{Does, node_site, nothing};
ghost use Rattle.tcertify.specs.Words.{number_of};

use crate::cells::Cells;
use crate::context::Context;
use crate::fault::Fault;
use crate::node::Node;
use crate::notes::Mode;
use crate::priority::Priority;
use crate::process::Root;
use crate::start::Start;
use crate::stop::Stop;
use crate::word_use::WordUse;
use std::alloc::Global;
use tword::Word;
use tword::limits::MOST_NEG;

impl Node {
    /// A successor goes on where others have ended, whose count is the word of this number.
    ///
    /// # Errors
    /// `WordInUse` where the last of them has not ended, else those of `goes_on_after`.
    pub fn successor_step(&mut self, alloc: Global, count: u32) -> Result<(), Fault>
        requires { count < length self.old.words.items.items }
        ensures { Does (spec.successor_step count (node_site self.old)) nothing self.old result self.new }
    {
        let Some(priority) = self.look(count as usize).used.last_priority() else {
            return Err(Fault::Stops(Stop::WordInUse));
        };
        self.goes_on_after(alloc, count, priority)
    }

    /// A process goes on with the priority that the last one left at the count.
    ///
    /// # Errors
    /// Those of a read of its first address, `SawTheScheduler` where that is not known, else those of `takes_over`.
    fn goes_on_after(&mut self, alloc: Global, count: u32, priority: Priority) -> Result<(), Fault>
        requires { count < length self.old.words.items.items }
        ensures { Does (spec.goes_on_after (node_site self.old) count (Last (number_of priority))) nothing self.old
            result self.new }
    {
        let workspace = Word::new(MOST_NEG + 4 * count).minus(Word::new(4));
        let iptr = self.first_address(workspace)?;
        self.takes_over(alloc, count, workspace, priority, iptr)
    }

    /// The count is a word for programs again, and the successor goes on.
    ///
    /// # Errors
    /// `InTransit` where a pending output has a byte of the count, else those of `succeeds`.
    fn takes_over(
        &mut self,
        alloc: Global,
        count: u32,
        workspace: Word,
        priority: Priority,
        iptr: Word,
    ) -> Result<(), Fault>
        requires { count < length self.old.words.items.items }
        ensures { Does (takes_over (node_site self.old) count workspace (number_of priority) iptr) nothing self.old
            result self.new }
    {
        let number = count as usize;
        self.unsent(number, Mode::Claims)?;
        self.put(number, Cells::known(Word::new(0)), WordUse::Free);
        self.succeeds(alloc, workspace, priority, iptr)
    }

    /// One more successor goes on at a workspace.
    ///
    /// # Errors
    /// Those of `comes`; `OutOfMemory`.
    fn succeeds(
        &mut self,
        alloc: Global,
        workspace: Word,
        priority: Priority,
        iptr: Word,
    ) -> Result<(), Fault>
        ensures { Does (succeeds (node_site self.old) workspace (number_of priority) iptr) nothing self.old
            result self.new }
    {
        let earlier = self.successions(workspace)?;
        if earlier == u32::MAX {
            return Err(Fault::OutOfMemory);
        }
        self.set_successions(workspace, earlier + 1)?;
        let context = Context::fresh(priority, workspace, iptr);
        let path = Vec::new(alloc);
        self.comes(
            alloc,
            Root::After { workspace, earlier },
            path,
            &context,
            Start::Runs,
        )
    }
}
