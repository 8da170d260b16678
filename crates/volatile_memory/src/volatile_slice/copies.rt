//! Elements and views copied to a view and from it.
ghost use Rattle.std.specs.Prelude.{◌≡◌, ◌+◌, ◌*◌, ◌≤◌, map, length};
ghost use Rattle.volatile_memory.specs.Calls.{Did, in_memory, copy_from, copies, copied, copy_volatile};
ghost use Rattle.volatile_memory.specs.Faults.{said};
ghost use Rattle.volatile_memory.specs.Memory.{overlaid, joined, elements};
ghost use Rattle.volatile_memory.specs.Spans.{span};

use super::VolatileSlice;
use super::elements::{element, put_element};
use crate::Error;
use bitmap::Bitmap;
use byte_valued::ByteValued;

impl VolatileSlice {
    // Refuses a memory of `length` bytes in which the view does not lie.
    pub(crate) fn check_memory(&self, length: usize) -> Result<(), Error>
        ensures { said (λ _. 0) result ≡ in_memory (span self.now) length }
    {
        let end = self.start + self.size;
        if end > length {
            return Err(Error::Foreign { end, length });
        }
        Ok(())
    }

    /// Copies as many elements of `buf` as the view has room for to its start.
    pub fn copy_from<T: ByteValued, B: Bitmap>(
        &self,
        memory: &mut [u8],
        bitmap: &mut B,
        buf: &[T],
    ) -> Result<(), Error>
        ensures answer { said (λ _. 0) result ≡ (copy_from (span self.now) (length memory.old) T.ByteValued.size (map T.ByteValued.bytes buf.now)).answer }
        ensures did { Did (copy_from (span self.now) (length memory.old) T.ByteValued.size (map T.ByteValued.bytes buf.now)) memory.old memory.new (B.Bitmap.means bitmap.old) (B.Bitmap.means bitmap.new) }
        ensures lent { B.Bitmap.lent bitmap.new ≡ B.Bitmap.lent bitmap.old }
    {
        self.check_memory(memory.len())?;
        let size = T::size_of();
        let k = buf.len().min(self.element_count::<T>());
        lay_elements(&mut memory[self.start..self.start + k * size], &buf[0..k]);
        bitmap.mark_dirty(self.mark, k * size);
        Ok(())
    }

    /// Copies as many elements as the view has, and `buf` has room for, to the start of `buf`, and answers how many.
    /// The rest of `buf` stays.
    pub fn copy_to<T: ByteValued>(&self, memory: &[u8], buf: &mut [T]) -> Result<usize, Error>
        ensures answer { said (λ k. k) result ≡ copies (span self.now) (length memory.now) T.ByteValued.size (length buf.old) }
        ensures after { buf.new ≡ copied T.ByteValued.value (span self.now) memory.now T.ByteValued.size buf.old }
    {
        let bytes = self.ptr_guard(memory)?;
        let k = buf.len().min(self.element_count::<T>());
        load_elements(&mut buf[0..k], bytes);
        Ok(k)
    }
}

// Lays the bytes of elements one after another, which fill `bytes`. Each place is said by its index, here and below:
// what is written through `chunks_exact_mut`, or through `iter_mut` in a `zip`, is not known to a proof afterwards.
fn lay_elements<T: ByteValued>(bytes: &mut [u8], values: &[T])
    requires { length bytes.old ≡ length values.now * T.ByteValued.size }
    ensures { bytes.new ≡ joined (map T.ByteValued.bytes values.now) }
{
    let size = T::size_of();
    for (i, value) in values.iter().enumerate() {
        put_element(bytes, i * size, *value);
    }
}

// Loads elements that lie one after another.
fn load_elements<T: ByteValued>(values: &mut [T], bytes: &[u8])
    requires { length values.old * T.ByteValued.size ≤ length bytes.now }
    ensures { values.new ≡ elements T.ByteValued.value T.ByteValued.size bytes.now 0 (length values.old) }
{
    let size = T::size_of();
    for (i, value) in values.iter_mut().enumerate() {
        *value = element(bytes, i * size);
    }
}

impl VolatileSlice {
    /// Copies as many bytes as both views have to `slice`, in the same memory, as they stood before.
    pub fn copy_to_volatile_slice<B: Bitmap>(
        &self,
        memory: &mut [u8],
        slice: &VolatileSlice,
        bitmap: &mut B,
    ) -> Result<(), Error>
        ensures answer { said (λ _. 0) result ≡ (copy_volatile (span self.now) memory.old (span slice.now) (length memory.old)).answer }
        ensures did { Did (copy_volatile (span self.now) memory.old (span slice.now) (length memory.old)) memory.old memory.new (B.Bitmap.means bitmap.old) (B.Bitmap.means bitmap.new) }
        ensures lent { B.Bitmap.lent bitmap.new ≡ B.Bitmap.lent bitmap.old }
    {
        self.check_memory(memory.len())?;
        slice.check_memory(memory.len())?;
        let count = self.size.min(slice.size);
        memory.copy_within(self.start..self.start + count, slice.start);
        bitmap.mark_dirty(slice.mark, count);
        Ok(())
    }

    /// Copies as many bytes as both views have to `slice`, in another memory.
    pub fn copy_to_other_memory<B: Bitmap>(
        &self,
        memory: &[u8],
        slice: &VolatileSlice,
        other: &mut [u8],
        bitmap: &mut B,
    ) -> Result<(), Error>
        ensures answer { said (λ _. 0) result ≡ (copy_volatile (span self.now) memory.now (span slice.now) (length other.old)).answer }
        ensures did { Did (copy_volatile (span self.now) memory.now (span slice.now) (length other.old)) other.old other.new (B.Bitmap.means bitmap.old) (B.Bitmap.means bitmap.new) }
        ensures lent { B.Bitmap.lent bitmap.new ≡ B.Bitmap.lent bitmap.old }
    {
        let bytes = self.ptr_guard(memory)?;
        slice.check_memory(other.len())?;
        let count = self.size.min(slice.size);
        slice.lay(other, bitmap, 0, &bytes[0..count]);
        Ok(())
    }
}
