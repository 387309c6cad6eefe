//! Workspaces that are found by their addresses.

ghost use Rattle.std.specs.Prelude.{ℕ, ◌≡◌, ◌<◌, ◌++◌, ◌∷◌, [], IfOk, OnOk, Some, None, length, slice_get, slice_set};
ghost use Rattle.tcertify.specs.Finding.{IsFound};
ghost use Rattle.tcertify.specs.Lives.{workspace_of};

use crate::address_hints::AddressHints;
use crate::life::Life;
use crate::life_table::Lives;
use std::alloc::{AllocError, Global};
use tword::Word;

impl Lives {
    /// No workspaces, for a memory of `size` bytes.
    ///
    /// # Errors
    /// Where the allocator refuses.
    pub fn new(alloc: Global, size: u32) -> Result<Lives, AllocError>
        ensures { IfOk result (λ lives. lives.items.items ≡ []) }
    {
        Ok(Lives {
            items: Vec::new(alloc),
            hints: AddressHints::new(alloc, size)?,
        })
    }

    /// The number of the workspace at an address, by its hint.
    #[inline(always)]
    fn hinted(&self, workspace: Word) -> Option<usize>
        ensures { (k : ℕ) → result ≡ Some k → IsFound workspace_of workspace self.now.items.items (Some k) }
    {
        let number = self.hints.of(workspace) as usize;
        if number < self.items.len() {
            if self.items[number].workspace.get() == workspace.get() {
                return Some(number);
            }
        }
        None
    }

    /// The number of the workspace at an address, if it has come up.
    fn searched(&self, workspace: Word) -> Option<usize>
        ensures { IsFound workspace_of workspace self.now.items.items result }
    {
        for number in 0..self.items.len() {
            if self.items[number].workspace.get() == workspace.get() {
                return Some(number);
            }
        }
        None
    }

    /// The number of the workspace at an address, if it has come up.
    #[inline(always)]
    pub fn find(&mut self, workspace: Word) -> Option<usize>
        ensures found { IsFound workspace_of workspace self.new.items.items result }
        ensures items { self.new.items.items ≡ self.old.items.items }
    {
        if let Some(number) = self.hinted(workspace) {
            return Some(number);
        }
        let found = self.searched(workspace);
        if let Some(number) = found {
            if let Ok(hint) = u16::try_from(number) {
                self.hints.note(workspace, hint);
            }
        }
        found
    }

    /// One more workspace.
    ///
    /// # Errors
    /// Where the allocator refuses; nothing is changed then.
    pub fn push(&mut self, life: Life) -> Result<(), AllocError>
        requires { IsFound workspace_of life.workspace self.old.items.items None }
        ensures { OnOk result (self.new.items.items ≡ self.old.items.items ++ life ∷ []) }
    {
        self.items.push(life)?;
        Ok(())
    }

    /// A workspace with how many processes have it and how many successors went on there.
    #[inline(always)]
    pub fn set(&mut self, number: usize, life: Life)
        requires { (l : _) → slice_get self.old.items.items number ≡ Some l → l.workspace ≡ life.workspace }
        ensures { self.new.items.items ≡ slice_set self.old.items.items number life }
    {
        if number < self.items.len() {
            self.items[number] = life;
        }
    }
}
