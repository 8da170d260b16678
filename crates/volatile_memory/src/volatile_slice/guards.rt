//! The part of a memory that a view lies on.
ghost use Rattle.std.specs.Prelude.{◌≡◌};
ghost use Rattle.volatile_memory.specs.Calls.{guards};
ghost use Rattle.volatile_memory.specs.Faults.{said};
ghost use Rattle.volatile_memory.specs.Spans.{span};

use super::VolatileSlice;
use crate::Error;

impl VolatileSlice {
    /// The view's part of the memory: not a copy, but the bytes where they lie.
    pub fn ptr_guard<'m>(&self, memory: &'m [u8]) -> Result<&'m [u8], Error>
        ensures { said (λ g. (g.now, g.ref_ptr)) result ≡ guards (span self.now) memory.now memory.entry.ref_ptr }
    {
        self.check_memory(memory.len())?;
        Ok(&memory[self.start..self.start + self.size])
    }
}
