//! Loads and stores by a reference.
ghost use Rattle.std.specs.Prelude.{◌≡◌, ◌+◌, length};
ghost use Rattle.volatile_memory.specs.Calls.{Did, reference_at, store_ref, loads, guards};
ghost use Rattle.volatile_memory.specs.Faults.{said};
ghost use Rattle.volatile_memory.specs.Memory.{part};
ghost use Rattle.volatile_memory.specs.Spans.{span};

use super::VolatileRef;
use crate::Error;
use crate::volatile_slice::element;
use bitmap::Bitmap;
use byte_valued::ByteValued;

impl<T: ByteValued> VolatileRef<T> {
    // Refuses a view that has no room for the element, in a memory of `length` bytes.
    fn check_room(&self, length: usize) -> Result<(), Error>
        ensures { said (λ _. 0) result ≡ reference_at (span self.now.slice) length T.ByteValued.size }
    {
        self.slice.check_memory(length)?;
        let size = T::size_of();
        if size > self.slice.size {
            return Err(Error::OutOfBounds { addr: size });
        }
        Ok(())
    }

    /// Stores an element.
    pub fn store<B: Bitmap>(&self, memory: &mut [u8], bitmap: &mut B, value: T) -> Result<(), Error>
        ensures answer { said (λ _. 0) result ≡ (store_ref (span self.now.slice) (length memory.old) (T.ByteValued.bytes value)).answer }
        ensures did { Did (store_ref (span self.now.slice) (length memory.old) (T.ByteValued.bytes value)) memory.old memory.new (B.Bitmap.means bitmap.old) (B.Bitmap.means bitmap.new) }
        ensures lent { B.Bitmap.lent bitmap.new ≡ B.Bitmap.lent bitmap.old }
    {
        self.check_room(memory.len())?;
        self.slice.lay_element(memory, bitmap, 0, value);
        Ok(())
    }

    /// Loads the element.
    pub fn load(&self, memory: &[u8]) -> Result<T, Error>
        ensures { said (λ x. x) result ≡ loads (reference_at (span self.now.slice) (length memory.now) T.ByteValued.size) (T.ByteValued.value (part memory.now (self.now.slice.start + 0) T.ByteValued.size)) }
    {
        self.check_room(memory.len())?;
        Ok(element(memory, self.slice.start))
    }

    /// The element's part of the memory.
    pub fn ptr_guard<'m>(&self, memory: &'m [u8]) -> Result<&'m [u8], Error>
        ensures { said (λ g. (g.now, g.ref_ptr)) result ≡ guards (span self.now.slice) memory.now memory.entry.ref_ptr }
    {
        self.slice.ptr_guard(memory)
    }
}
