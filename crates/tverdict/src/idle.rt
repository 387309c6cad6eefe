//! Memories that lie idle.

ghost use Rattle.std.specs.Prelude.{◌≡◌, IfOk};
ghost use Rattle.tword.specs.declared.kind.Kind.TheVariants.{One, Two};

use std::alloc::{AllocError, Global};
use tcertify::IdleMemory;
use tword::{Kind, Marks, Memory};

/// The number of bytes of a memory that lies idle: the least that there may be.
const IDLE_SIZE: u32 = 2048;

/// For each kind of nodes a memory that no instruction touches.
#[derive(Drop)]
pub struct Idle {
    pub one: IdleMemory,
    pub two: IdleMemory,
    ghost is_one: { one.memory.kind ≡ One },
    ghost is_two: { two.memory.kind ≡ Two },
}

/// A memory of a kind that lies idle.
fn idle_memory(alloc: Global, kind: Kind) -> Result<IdleMemory, AllocError>
    ensures { IfOk result (λ idle. idle.memory.kind ≡ kind) }
{
    let Ok(memory) = Memory::new(alloc, IDLE_SIZE, kind) else {
        return Err(AllocError);
    };
    let Ok(marks) = Marks::new(alloc, IDLE_SIZE) else {
        return Err(AllocError);
    };
    Ok(IdleMemory { memory, marks })
}

impl Idle {
    /// A memory of each kind.
    ///
    /// # Errors
    /// Where the allocator refuses.
    pub fn new(alloc: Global) -> Result<Idle, AllocError> {
        let one = idle_memory(alloc, Kind::One)?;
        let two = idle_memory(alloc, Kind::Two)?;
        Ok(Idle { one, two })
    }
}
