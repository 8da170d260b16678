//! An array's elements copied, and the part of a memory that they lie on.
ghost use Rattle.std.specs.Prelude.{◌≡◌, ◌*◌, map, length};
ghost use Rattle.volatile_memory.specs.Calls.{Did, copy_from, copies, copied, copy_volatile, guards, filled};
ghost use Rattle.volatile_memory.specs.Faults.{said};
ghost use Rattle.volatile_memory.specs.Spans.{span};

use super::VolatileArrayRef;
use crate::{Error, VolatileSlice};
use bitmap::Bitmap;
use byte_valued::ByteValued;

impl<T: ByteValued> VolatileArrayRef<T> {
    // The view of the elements alone.
    fn filled(&self) -> VolatileSlice
        ensures { span result ≡ filled (span self.now.slice) T.ByteValued.size }
    {
        self.slice.part(0, self.len() * T::size_of())
    }

    /// Copies as many elements of `buf` as the array has to its start.
    pub fn copy_from<B: Bitmap>(
        &self,
        memory: &mut [u8],
        bitmap: &mut B,
        buf: &[T],
    ) -> Result<(), Error>
        ensures answer { said (λ _. 0) result ≡ (copy_from (span self.now.slice) (length memory.old) T.ByteValued.size (map T.ByteValued.bytes buf.now)).answer }
        ensures did { Did (copy_from (span self.now.slice) (length memory.old) T.ByteValued.size (map T.ByteValued.bytes buf.now)) memory.old memory.new (B.Bitmap.means bitmap.old) (B.Bitmap.means bitmap.new) }
        ensures lent { B.Bitmap.lent bitmap.new ≡ B.Bitmap.lent bitmap.old }
    {
        self.slice.copy_from(memory, bitmap, buf)
    }

    /// Copies as many elements as `buf` has room for to its start, and answers how many.
    pub fn copy_to(&self, memory: &[u8], buf: &mut [T]) -> Result<usize, Error>
        ensures answer { said (λ k. k) result ≡ copies (span self.now.slice) (length memory.now) T.ByteValued.size (length buf.old) }
        ensures after { buf.new ≡ copied T.ByteValued.value (span self.now.slice) memory.now T.ByteValued.size buf.old }
    {
        self.slice.copy_to(memory, buf)
    }

    /// Copies as many bytes of the elements as `slice` has room for to it, in the same memory, as they stood before.
    pub fn copy_to_volatile_slice<B: Bitmap>(
        &self,
        memory: &mut [u8],
        slice: &VolatileSlice,
        bitmap: &mut B,
    ) -> Result<(), Error>
        ensures answer { said (λ _. 0) result ≡ (copy_volatile (filled (span self.now.slice) T.ByteValued.size) memory.old (span slice.now) (length memory.old)).answer }
        ensures did { Did (copy_volatile (filled (span self.now.slice) T.ByteValued.size) memory.old (span slice.now) (length memory.old)) memory.old memory.new (B.Bitmap.means bitmap.old) (B.Bitmap.means bitmap.new) }
        ensures lent { B.Bitmap.lent bitmap.new ≡ B.Bitmap.lent bitmap.old }
    {
        self.filled().copy_to_volatile_slice(memory, slice, bitmap)
    }

    /// Copies as many bytes of the elements as `slice` has room for to it, in another memory.
    pub fn copy_to_other_memory<B: Bitmap>(
        &self,
        memory: &[u8],
        slice: &VolatileSlice,
        other: &mut [u8],
        bitmap: &mut B,
    ) -> Result<(), Error>
        ensures answer { said (λ _. 0) result ≡ (copy_volatile (filled (span self.now.slice) T.ByteValued.size) memory.now (span slice.now) (length other.old)).answer }
        ensures did { Did (copy_volatile (filled (span self.now.slice) T.ByteValued.size) memory.now (span slice.now) (length other.old)) other.old other.new (B.Bitmap.means bitmap.old) (B.Bitmap.means bitmap.new) }
        ensures lent { B.Bitmap.lent bitmap.new ≡ B.Bitmap.lent bitmap.old }
    {
        self.filled()
            .copy_to_other_memory(memory, slice, other, bitmap)
    }

    /// The elements' part of the memory, which is as long as all of them.
    pub fn ptr_guard<'m>(&self, memory: &'m [u8]) -> Result<&'m [u8], Error>
        ensures { said (λ g. (g.now, g.ref_ptr)) result ≡ guards (filled (span self.now.slice) T.ByteValued.size) memory.now memory.entry.ref_ptr }
    {
        self.filled().ptr_guard(memory)
    }
}
