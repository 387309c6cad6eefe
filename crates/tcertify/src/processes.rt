//! Processes that are found by their names, and that come.

ghost use Rattle.std.specs.Prelude.{◌≡◌, ◌<◌, ◌++◌, ◌∷◌, [], IfOk, OnOk, OnErr, length, map, option_map, reverse};
ghost use Rattle.std.specs.Prelude.{slice_get, slice_set};
ghost use Rattle.std.specs.Prelude.{Some, None, true};
ghost use Rattle.tprocesses.specs.Choosing.{with_port, without_port};
ghost use Rattle.tprocesses.specs.Places.{same_path, same_root};
ghost use Rattle.tcertify.specs.Carried.{with_registers};
ghost use Rattle.tcertify.specs.Finding.{IsFound};
ghost use Rattle.tcertify.specs.Processes.{HasPortsIn, IsStoodIn, name_of, root_of};
ghost use Rattle.tcertify.specs.declared.standing.Stand.TheVariants.{Runs};

use crate::context::{Context, Left};
use crate::process::{Process, Root};
use crate::process_table::Processes;
use crate::standing::Stand;
use std::alloc::{AllocError, Global};
use std::collections::HashMap;

/// Whether two roots are the same.
#[inline(always)]
fn is_same_root(one: Root, other: Root) -> bool
    ensures { result ≡ same_root (root_of one) (root_of other) }
{
    match one {
        Root::Image(number) => match other {
            Root::Image(second) => number == second,
            Root::After { .. } => false,
        },
        Root::After { workspace, earlier } => match other {
            Root::Image(_) => false,
            Root::After {
                workspace: second,
                earlier: before,
            } => workspace.get() == second.get() && earlier == before,
        },
    }
}

/// Whether two lists of children are the same.
fn is_same_path(one: &[u32], other: &[u32]) -> bool
    ensures { result ≡ same_path one.now other.now }
{
    one == other
}

/// A channel is put in front of the others, if it is not there.
///
/// # Errors
/// Where the allocator refuses.
fn add_port(ports: &mut Vec<u32>, channel: u32) -> Result<(), AllocError>
    ensures { OnOk result (ports.new.items ≡ with_port channel ports.old.items) }
{
    if ports.as_slice().contains(&channel) {
        return Ok(());
    }
    ports.insert(0, channel)?;
    Ok(())
}

/// A channel is dropped from others.
fn drop_port(ports: &mut Vec<u32>, channel: u32)
    ensures { ports.new.items ≡ without_port channel ports.old.items }
{
    ports.retain(|port| *port != channel);
}

impl Process {
    /// Whether two processes of one node have the same name.
    fn is_named_as(&self, other: &Process) -> bool
        ensures yes { result ≡ true → name_of 0 self.now ≡ name_of 0 other.now }
        ensures no { name_of 0 self.now ≡ name_of 0 other.now → result ≡ true }
    {
        is_same_root(self.root, other.root)
            && is_same_path(self.path.as_slice(), other.path.as_slice())
    }
}

impl Processes {
    /// No processes.
    pub fn new(alloc: Global) -> Processes
        ensures { result.items.items ≡ [] }
    {
        Processes {
            items: Vec::new(alloc),
            latest: HashMap::new(alloc),
            earlier: Vec::new(alloc),
        }
    }

    /// The number of the process of the same name, if it was ever there.
    pub fn find(&self, process: &Process) -> Option<usize>
        ensures { IsFound (name_of 0) (name_of 0 process.now) self.now.items.items result }
    {
        let mut next = self.latest.get(&process.fingerprint()).copied();
        while let Some(candidate) = next {
            let number = candidate as usize;
            if self.items[number].is_named_as(process) {
                return Some(number);
            }
            next = self.earlier[number];
        }
        None
    }

    /// A process stands there now. Answers the number of its place.
    #[inline(always)]
    pub fn set_stand(&mut self, number: usize, stand: Stand) -> u32
        requires { number < length self.old.items.items }
        ensures { IsStoodIn self.old.items.items number stand result self.new.items.items }
    {
        let process = &mut self.items[number];
        process.stand = stand;
        process.place
    }

    /// A process that runs has these registers now, and the same workspace. Answers the number of its place.
    #[inline(always)]
    pub(crate) fn set_left(&mut self, number: usize, context: &Context, left: Left) -> u32
        requires there { number < length self.old.items.items }
        requires runs { option_map (λ p. p.stand) (slice_get self.old.items.items number) ≡ Some (Runs context.now) }
        requires workspace { left.wptr ≡ context.now.wptr }
        ensures { IsStoodIn self.old.items.items number (Runs (with_registers context.now left)) result
            self.new.items.items }
    {
        let process = &mut self.items[number];
        if let Stand::Runs(now) = &mut process.stand {
            now.iptr = left.iptr;
            now.a = left.a;
            now.b = left.b;
            now.c = left.c;
        }
        process.place
    }

    /// A process has enabled one more channel, by its address, if it had not. Answers the number of its place.
    ///
    /// # Errors
    /// Where the allocator refuses.
    pub fn enable(&mut self, number: usize, channel: u32) -> Result<u32, AllocError>
        requires { number < length self.old.items.items }
        ensures ok { IfOk result (λ place. HasPortsIn self.old.items.items number (with_port channel) place
            self.new.items.items) }
        ensures err { OnErr result (length self.new.items.items ≡ length self.old.items.items) }
    {
        let process = &mut self.items[number];
        add_port(&mut process.ports, channel)?;
        Ok(process.place)
    }

    /// A process has a channel enabled no more, by its address. Answers the number of its place.
    pub fn disable(&mut self, number: usize, channel: u32) -> u32
        requires { number < length self.old.items.items }
        ensures { HasPortsIn self.old.items.items number (without_port channel) result self.new.items.items }
    {
        let process = &mut self.items[number];
        drop_port(&mut process.ports, channel);
        process.place
    }

    /// One more process.
    ///
    /// # Errors
    /// Where the allocator refuses, or where there are 2^32 processes; nothing is changed then.
    pub fn push(&mut self, process: Process) -> Result<(), AllocError>
        requires { IsFound (name_of 0) (name_of 0 process) self.old.items.items None }
        ensures ok { OnOk result (self.new.items.items ≡ self.old.items.items ++ process ∷ []) }
        ensures err { OnErr result (self.new.items.items ≡ self.old.items.items) }
    {
        let Ok(number) = u32::try_from(self.items.len()) else {
            return Err(AllocError);
        };
        self.items.reserve(1)?;
        self.earlier.reserve(1)?;
        let before = self.latest.insert(process.fingerprint(), number)?;
        self.earlier.push_reserved(before);
        self.items.push_reserved(process);
        Ok(())
    }

    /// The path of a child of a process, by the number of the child.
    ///
    /// # Errors
    /// Where the allocator refuses.
    pub fn child_path(
        &self,
        alloc: Global,
        parent: usize,
        child: u32,
    ) -> Result<Vec<u32>, AllocError>
        requires { parent < length self.now.items.items }
        ensures { IfOk result (λ path. Some path.items
            ≡ option_map (λ p. p.path.items ++ child ∷ []) (slice_get self.now.items.items parent)) }
    {
        let process = &self.items[parent];
        let mut path = Vec::from_slice(alloc, process.path.as_slice())?;
        path.push(child)?;
        Ok(path)
    }
}
