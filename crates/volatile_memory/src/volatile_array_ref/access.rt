//! Loads and stores of an array's elements.
ghost use Rattle.std.specs.Prelude.{◌≡◌, ◌+◌, ◌*◌, length};
ghost use Rattle.volatile_memory.specs.Calls.{Did, element_at, store_at, loads};
ghost use Rattle.volatile_memory.specs.Faults.{said};
ghost use Rattle.volatile_memory.specs.Memory.{part};
ghost use Rattle.volatile_memory.specs.Spans.{span};

use super::VolatileArrayRef;
use crate::Error;
use crate::volatile_slice::element;
use bitmap::Bitmap;
use byte_valued::ByteValued;

impl<T: ByteValued> VolatileArrayRef<T> {
    /// Stores element `index`.
    pub fn store<B: Bitmap>(
        &self,
        memory: &mut [u8],
        bitmap: &mut B,
        index: usize,
        value: T,
    ) -> Result<(), Error>
        ensures answer { said (λ _. 0) result ≡ (store_at (span self.now.slice) (length memory.old) T.ByteValued.size index (T.ByteValued.bytes value)).answer }
        ensures did { Did (store_at (span self.now.slice) (length memory.old) T.ByteValued.size index (T.ByteValued.bytes value)) memory.old memory.new (B.Bitmap.means bitmap.old) (B.Bitmap.means bitmap.new) }
        ensures lent { B.Bitmap.lent bitmap.new ≡ B.Bitmap.lent bitmap.old }
    {
        self.slice.check_memory(memory.len())?;
        let offset = self.element_offset(index)?;
        self.slice.lay_element(memory, bitmap, offset, value);
        Ok(())
    }

    /// Loads element `index`.
    pub fn load(&self, memory: &[u8], index: usize) -> Result<T, Error>
        ensures { said (λ x. x) result ≡ loads (element_at (span self.now.slice) (length memory.now) T.ByteValued.size index) (T.ByteValued.value (part memory.now (self.now.slice.start + index * T.ByteValued.size) T.ByteValued.size)) }
    {
        self.slice.check_memory(memory.len())?;
        let offset = self.element_offset(index)?;
        Ok(element(memory, self.slice.start + offset))
    }
}
