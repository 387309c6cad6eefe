//! The workspaces of a node: who has them, and who went on there.

ghost use Rattle.std.specs.Prelude.{◌≡◌, ◌<◌, Ok, length, IfOk, None, pos};
ghost use Rattle.tprocesses.specs.Changes.{Add, Put};
ghost use Rattle.tprocesses.specs.Parts.{change, done, see};
ghost use Rattle.tprocesses.specs.Places as place;
ghost use Rattle.tprocesses.specs.Standing as spec;
ghost use Rattle.tprocesses.specs.Touching.{is_zero};
ghost use Rattle.tprocesses.specs.Values.{IsAmount, IsCount};
ghost use Rattle.tcertify.specs.Finding.{IsFound};
ghost use Rattle.tcertify.specs.Lives.{workspace_of};
ghost use Rattle.tcertify.specs.Nodes.{Does, RunsAt, node_site, nothing, workspace_at};
ghost use Rattle.tcertify.specs.Starts.{begins_life};
ghost use Rattle.tcertify.specs.Words.{told};

use crate::fault::Fault;
use crate::life::Life;
use crate::node::Node;
use crate::notes::Mode;
use crate::stop::Stop;
use tword::{Break, Word};

/// Whether a count is 0.
#[inline(always)]
fn is_zero(count: i32) -> bool
    ensures { result ≡ is_zero count }
{
    count == 0
}

/// The lowest number that no place has yet, which the caller's place has from now on, if there is one.
#[inline(always)]
pub(crate) fn next_place(fresh_place: &mut u32) -> Option<u32> {
    let place = *fresh_place;
    *fresh_place = place.checked_add(1)?;
    Some(place)
}

impl Node {
    /// The number of a workspace, which is added if it was not there.
    ///
    /// # Errors
    /// `OutOfMemory`.
    #[inline(always)]
    pub(crate) fn life_at(&mut self, workspace: Word) -> Result<usize, Fault>
        ensures done { Does done (λ _. tt) self.old result self.new }
        ensures there { IfOk result (λ k. (k < length self.new.lives.items.items)
            × (workspace_at self.new k ≡ workspace)) }
    {
        if let Some(number) = self.lives.find(workspace) {
            return Ok(number);
        }
        self.adds_workspace(workspace)
    }

    /// Adds a workspace, and gives its number.
    ///
    /// # Errors
    /// `OutOfMemory`.
    fn adds_workspace(&mut self, workspace: Word) -> Result<usize, Fault>
        requires { IsFound workspace_of workspace self.old.lives.items.items None }
        ensures done { Does done (λ _. tt) self.old result self.new }
        ensures there { IfOk result (λ k. (k < length self.new.lives.items.items)
            × (workspace_at self.new k ≡ workspace)) }
    {
        let Some(count_place) = next_place(&mut self.fresh_place) else {
            return Err(Fault::OutOfMemory);
        };
        let Some(successors_place) = next_place(&mut self.fresh_place) else {
            return Err(Fault::OutOfMemory);
        };
        let number = self.lives.items.len();
        self.lives.push(Life {
            workspace,
            count: 0,
            count_place,
            successors: 0,
            successors_place,
        })?;
        Ok(number)
    }

    /// A number is added to how many processes have a workspace.
    ///
    /// # Errors
    /// `OutOfMemory`.
    #[inline(always)]
    pub(crate) fn adds_life(&mut self, workspace: Word, more: i32) -> Result<(), Fault>
        ensures { Does (change (place.Life self.old.words.number workspace) (Add more)) nothing self.old result
            self.new }
    {
        let number = self.life_at(workspace)?;
        self.adds_life_at(number, more)
    }

    /// A number is added to how many processes have the workspace of this number.
    ///
    /// # Errors
    /// `OutOfMemory` where the sum does not fit; nothing is changed then.
    #[inline(always)]
    fn adds_life_at(&mut self, number: usize, more: i32) -> Result<(), Fault>
        requires { number < length self.old.lives.items.items }
        ensures { Does (change (place.Life self.old.words.number (workspace_at self.old number)) (Add more)) nothing
            self.old result self.new }
    {
        let life = self.lives.items[number];
        let count = life.count.checked_add(more).ok_or(Fault::OutOfMemory)?;
        let workspace = life.workspace;
        let count_place = life.count_place;
        let successors = life.successors;
        let successors_place = life.successors_place;
        self.lives.set(
            number,
            Life {
                workspace,
                count,
                count_place,
                successors,
                successors_place,
            },
        );
        self.words.notes.add(count_place, Mode::Adds);
        Ok(())
    }

    /// A workspace that no process has gets a process.
    ///
    /// # Errors
    /// `AlreadyLive` where a process has it; `OutOfMemory`.
    pub(crate) fn begins_life(&mut self, workspace: Word) -> Result<(), Fault>
        ensures { Does (begins_life (node_site self.old) workspace) nothing self.old result self.new }
    {
        let number = self.life_at(workspace)?;
        if !is_zero(self.count_at(number)) {
            return Err(Fault::Stops(Stop::Breaks(Break::AlreadyLive)));
        }
        self.adds_life_at(number, 1)
    }

    /// How many processes have the workspace of this number.
    #[inline(always)]
    fn count_at(&mut self, number: usize) -> i32
        requires { number < length self.old.lives.items.items }
        ensures { RunsAt (see (place.Life self.old.words.number (workspace_at self.old number))) self.old
            (Ok (IsAmount result)) self.new }
    {
        let life = self.lives.items[number];
        self.words.notes.add(life.count_place, Mode::Looks);
        life.count
    }

    /// A process has another workspace now, or still the same.
    ///
    /// # Errors
    /// `OutOfMemory`.
    #[inline(always)]
    pub fn moves(&mut self, from: Word, to: Word) -> Result<(), Fault>
        ensures { Does (spec.moves (node_site self.old) from to) nothing self.old result self.new }
    {
        if from.get() == to.get() {
            return Ok(());
        }
        self.adds_life(from, -1)?;
        self.adds_life(to, 1)
    }

    /// How many successors went on at a workspace.
    ///
    /// # Errors
    /// `OutOfMemory`.
    pub fn successions(&mut self, workspace: Word) -> Result<u32, Fault>
        ensures { Does (see (place.Successions self.old.words.number workspace)) (λ n. IsCount n) self.old result
            self.new }
    {
        let number = self.life_at(workspace)?;
        Ok(self.successors_of(number))
    }

    /// How many successors went on at the workspace of this number.
    #[inline(always)]
    fn successors_of(&mut self, number: usize) -> u32
        requires { number < length self.old.lives.items.items }
        ensures { RunsAt (see (place.Successions self.old.words.number (workspace_at self.old number))) self.old
            (Ok (IsCount result)) self.new }
    {
        let life = self.lives.items[number];
        self.words.notes.add(life.successors_place, Mode::Looks);
        life.successors
    }

    /// Sets how many successors went on at a workspace.
    ///
    /// # Errors
    /// `OutOfMemory`.
    pub fn set_successions(&mut self, workspace: Word, successors: u32) -> Result<(), Fault>
        ensures { Does (change (place.Successions self.old.words.number workspace) (Put (IsCount successors))) nothing
            self.old result self.new }
    {
        let number = self.life_at(workspace)?;
        self.set_successors(number, successors);
        Ok(())
    }

    /// Sets how many successors went on at the workspace of this number.
    #[inline(always)]
    fn set_successors(&mut self, number: usize, successors: u32)
        requires { number < length self.old.lives.items.items }
        ensures { RunsAt (change (place.Successions self.old.words.number (workspace_at self.old number))
            (Put (IsCount successors))) self.old (Ok tt) self.new }
    {
        let life = self.lives.items[number];
        let workspace = life.workspace;
        let count = life.count;
        let count_place = life.count_place;
        let successors_place = life.successors_place;
        self.lives.set(
            number,
            Life {
                workspace,
                count,
                count_place,
                successors,
                successors_place,
            },
        );
        self.words.notes.add(successors_place, Mode::Puts);
    }
}
