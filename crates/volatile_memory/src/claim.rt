//! Raw writes to a view, which are marked all at once.
ghost use Rattle.std.specs.Prelude.{◌≡◌, length};
ghost use Rattle.volatile_memory.specs.Faults.{said};
ghost use Rattle.volatile_memory.specs.Calls.{write, settled};
ghost use Rattle.volatile_memory.specs.Memory.{overlaid};
ghost use Rattle.volatile_memory.specs.Spans.{span};

use crate::{Error, VolatileSlice};
use bitmap::Bitmap;

/// A claim on a view. What is put through it is not marked until it is settled, and it cannot be let go in another way.
pub struct Claim {
    slice: VolatileSlice,
}

impl VolatileSlice {
    /// Opens a claim on the view.
    pub fn ptr_guard_mut(&self) -> Claim
        ensures { span result.slice ≡ span self.now }
    {
        Claim { slice: *self }
    }
}

impl Claim {
    /// Stores as much of `buf` as fits at `addr`, as `write` does, and marks nothing.
    pub fn put(&self, memory: &mut [u8], buf: &[u8], addr: usize) -> Result<usize, Error>
        ensures answer { said (λ k. k) result ≡ (write (span self.now.slice) (length memory.old) buf.now addr).answer }
        ensures after { memory.new ≡ overlaid memory.old (write (span self.now.slice) (length memory.old) buf.now addr).place (write (span self.now.slice) (length memory.old) buf.now addr).bytes }
    {
        self.slice.write(memory, &mut (), buf, addr)
    }

    /// Marks all of the view, and ends the claim.
    pub fn settle<B: Bitmap>(self, bitmap: &mut B)
        ensures means { B.Bitmap.means bitmap.new ≡ settled (B.Bitmap.means bitmap.old) (span self.slice) }
        ensures lent { B.Bitmap.lent bitmap.new ≡ B.Bitmap.lent bitmap.old }
    {
        let Claim { slice } = self;
        bitmap.mark_dirty(slice.mark, slice.size);
    }
}
