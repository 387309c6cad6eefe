//! A queue of processes of one priority.

ghost use Rattle.std.specs.Prelude.{ℕ, List, ◌≡◌, ◌<◌, ◌++◌, ◌∷◌, [], ◌==◌, length, slice_get};
ghost use Rattle.tproc.specs.Queues.{last_of};
ghost use Rattle.tproc.specs.Entries.{IsQueue};
ghost use Rattle.tword.specs.Limits.{most_processes};

use tword::Word;

/// The ends of a queue, which is threaded through the workspaces of its processes: word -2 of each links to the next
/// one, and that of the last one is never read. Contracts say which queue it is, as a list of workspaces with the one
/// that runs next at its head (`IsQueue`).
#[derive(Clone, Copy, Debug, PartialEq, Eq)]
pub struct RunQueue {
    /// The workspace of the process that runs next, if there is one.
    pub front: Word,
    /// The workspace of the process that came last, if there is one.
    pub back: Word,
    /// How many processes are queued.
    pub count: u32,
}

impl RunQueue {
    /// A queue without processes.
    pub fn new() -> RunQueue
        ensures { IsQueue [] result }
    {
        let zero = Word::new(0);
        RunQueue {
            front: zero,
            back: zero,
            count: 0,
        }
    }

    /// Whether nobody is queued.
    #[inline]
    pub fn is_empty(&self) -> bool
        ensures { (q : List ℕ) → IsQueue q self.now → result ≡ (length q == 0) }
    {
        self.count == 0
    }

    /// The first of the queue.
    #[inline]
    pub fn first(&self) -> Option<Word>
        ensures { (q : List ℕ) → IsQueue q self.now → result ≡ slice_get q 0 }
    {
        if self.count == 0 {
            None
        } else {
            Some(self.front)
        }
    }

    /// The last of the queue.
    #[inline]
    pub fn last(&self) -> Option<Word>
        ensures { (q : List ℕ) → IsQueue q self.now → result ≡ last_of q }
    {
        if self.count == 0 {
            None
        } else {
            Some(self.back)
        }
    }

    /// Puts a workspace at the back, once the last one is linked to it.
    #[inline]
    pub fn push(&mut self, workspace: Word)
        requires { self.old.count < most_processes }
        ensures { (q : List ℕ) → IsQueue q self.old → IsQueue (q ++ workspace ∷ []) self.new }
    {
        if self.count == 0 {
            self.front = workspace;
        }
        self.back = workspace;
        self.count += 1;
    }

    /// The first leaves the queue. behind: the one behind it, if there is one.
    #[inline]
    pub fn pop(&mut self, behind: Option<Word>)
        requires { 0 < self.old.count }
        ensures { (w : ℕ) (q : List ℕ) → IsQueue (w ∷ q) self.old → behind ≡ slice_get q 0 → IsQueue q self.new }
    {
        if let Some(next) = behind {
            self.front = next;
        }
        self.count -= 1;
    }
}
