//! Sinks in memory, for all modules.
ghost use Rattle.std.specs.Prelude.{◌≡◌, IfOk};
ghost use Rattle.fm_edge.specs.SinkMemory.{new_memory};

use fm_edge::MemorySink;
use std::alloc::{AllocError, Global};

// An empty sink of this capacity, of which these calls fail.
pub fn memory_of(
    alloc: Global,
    capacity: usize,
    failing: &[(u64, u32)],
) -> Result<MemorySink, AllocError>
    ensures { IfOk result (λ s. s ≡ new_memory capacity failing.now) }
{
    MemorySink::new(alloc, capacity, failing.to_vec(alloc)?)
}
