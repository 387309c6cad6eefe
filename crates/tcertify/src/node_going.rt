//! How a process of a node goes on.

ghost use Rattle.std.specs.Prelude.{◌≡◌, ◌<◌, Ok, length, true};
ghost use Rattle.tprocesses.specs.Instructions as instructions;
ghost use Rattle.tprocesses.specs.Standing as spec;
ghost use Rattle.tprocesses.specs.Touching.{word_number};
ghost use Rattle.tcertify.specs.Contexts.{context_of};
ghost use Rattle.tcertify.specs.Nodes.{Does, RunsAt, name_at, node_site, nothing};
ghost use Rattle.tcertify.specs.Words.{number_of, told};

use crate::context::Context;
use crate::fault::Fault;
use crate::node::Node;
use crate::priority::Priority;
use crate::spans::word_number;
use crate::standing::Stand;
use crate::stop::Stop;
use tword::Word;

impl Node {
    /// A process goes on with this context.
    #[inline(always)]
    pub(crate) fn goes_on(&mut self, process: u32, context: &Context)
        requires { process < length self.old.processes.items.items }
        ensures { RunsAt (spec.goes_on (name_at self.old process) (context_of context.now)) self.old (Ok tt) self.new }
    {
        let now = *context;
        self.stands(process, Stand::Runs(now));
    }

    /// A process goes on behind a jump; one of low priority rests, since another process may come first.
    ///
    /// # Errors
    /// Those of `Words::save`.
    #[inline(always)]
    pub(crate) fn jumps(&mut self, process: u32, context: &Context) -> Result<(), Stop>
        requires { process < length self.old.processes.items.items }
        ensures { RunsAt (instructions.jumped (number_of context.now.priority) (node_site self.old)
            (name_at self.old process) (context_of context.now)) self.old (told nothing result) self.new }
    {
        if let Priority::High = context.priority {
            self.goes_on(process, context);
            return Ok(());
        }
        self.save(context.wptr, true)?;
        self.stands(process, Stand::Rests(context.forget()));
        Ok(())
    }

    /// Whether the memory has the word at an address from its lowest one on.
    #[inline(always)]
    pub(crate) fn has_word(&self, address: Word) -> bool
        ensures { result ≡ true → word_number address < length self.now.words.items.items }
    {
        word_number(address) < self.words.items.len()
    }

    /// The three words below a workspace are for programs again.
    ///
    /// # Errors
    /// `WordInUse` where one of them is no saved word; `OutOfMemory` where the memory does not have them all, which it
    /// has below the workspace of a process that rests.
    #[inline(always)]
    fn unsaves(&mut self, workspace: Word) -> Result<(), Fault>
        ensures { Does (spec.unsave (node_site self.old) workspace) nothing self.old result self.new }
    {
        let lowest = self.has_word(workspace.below(3));
        let highest = self.has_word(workspace.below(1));
        if !(lowest && highest) {
            return Err(Fault::OutOfMemory);
        }
        self.words.unsave(workspace)?;
        Ok(())
    }

    /// A process that rests goes on.
    ///
    /// # Errors
    /// `WordInUse` where the words below its workspace are no saved words, `HasNoStep` where its output of a link was
    /// not copied; `OutOfMemory`.
    pub(crate) fn resumes(&mut self, process: u32, context: &Context) -> Result<(), Fault>
        requires { process < length self.old.processes.items.items }
        ensures { Does (spec.resumes (node_site self.old) (name_at self.old process) (context_of context.now)) nothing
            self.old result self.new }
    {
        self.unsaves(context.wptr)?;
        self.takes_back(context.lent)?;
        self.goes_on(process, &context.without_lent());
        Ok(())
    }
}
