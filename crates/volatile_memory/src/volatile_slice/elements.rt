//! Elements stored to a view and loaded from it.
ghost use Rattle.std.specs.Prelude.{◌≡◌, ◌+◌, ◌<◌, ◌≤◌, length};
ghost use Rattle.volatile_memory.specs.Calls.{Did, lays, moves, whole, write_slice, atomic_at, store, loads};
ghost use Rattle.volatile_memory.specs.Faults.Answer.{gives};
ghost use Rattle.volatile_memory.specs.Faults.{said};
ghost use Rattle.volatile_memory.specs.Memory.{part, overlaid};
ghost use Rattle.volatile_memory.specs.Spans.{span};

use super::VolatileSlice;
use super::access::check_whole;
use crate::Error;
use bitmap::Bitmap;
use byte_valued::{AtomicAccess, ByteValued};

// As many bytes as an element can have.
const MAX_ELEMENT: usize = 64;

// The element whose bytes lie at `offset`.
pub(crate) fn element<T: ByteValued>(bytes: &[u8], offset: usize) -> T
    requires { offset + T.ByteValued.size ≤ length bytes.now }
    ensures { result ≡ T.ByteValued.value (part bytes.now offset T.ByteValued.size) }
{
    T::from_slice(&bytes[offset..offset + T::size_of()]).unwrap()
}

// Lays an element's bytes at `offset`.
pub(super) fn put_element<T: ByteValued>(bytes: &mut [u8], offset: usize, value: T)
    requires { offset + T.ByteValued.size ≤ length bytes.old }
    ensures { bytes.new ≡ overlaid bytes.old offset (T.ByteValued.bytes value) }
{
    value
        .write_to(&mut bytes[offset..offset + T::size_of()])
        .unwrap();
}

impl VolatileSlice {
    // Lays an element's bytes at `offset`, where they lie within, and marks them.
    pub(crate) fn lay_element<T: ByteValued, B: Bitmap>(
        &self,
        memory: &mut [u8],
        bitmap: &mut B,
        offset: usize,
        value: T,
    )
        requires in_view { offset + T.ByteValued.size ≤ self.now.size }
        requires in_memory { self.now.start + self.now.size ≤ length memory.old }
        ensures did { Did (lays (span self.now) offset (T.ByteValued.bytes value) (gives 0)) memory.old memory.new (B.Bitmap.means bitmap.old) (B.Bitmap.means bitmap.new) }
        ensures lent { B.Bitmap.lent bitmap.new ≡ B.Bitmap.lent bitmap.old }
    {
        put_element(memory, self.start + offset, value);
        bitmap.mark_dirty(self.mark.wrapping_add(offset), T::size_of());
    }

    /// Writes an element's bytes at `addr`, as `write_slice` does.
    pub fn write_obj<T: ByteValued, B: Bitmap>(
        &self,
        memory: &mut [u8],
        bitmap: &mut B,
        value: T,
        addr: usize,
    ) -> Result<(), Error>
        ensures answer { said (λ _. 0) result ≡ (write_slice (span self.now) (length memory.old) (T.ByteValued.bytes value) addr).answer }
        ensures did { Did (write_slice (span self.now) (length memory.old) (T.ByteValued.bytes value) addr) memory.old memory.new (B.Bitmap.means bitmap.old) (B.Bitmap.means bitmap.new) }
        ensures lent { B.Bitmap.lent bitmap.new ≡ B.Bitmap.lent bitmap.old }
    {
        // A write may end within the element, so its bytes are laid aside first: there is no heap here, and no array is
        // as long as `T::size_of()` says.
        let mut bytes = [0; MAX_ELEMENT];
        value.write_to(&mut bytes).unwrap();
        self.write_slice(memory, bitmap, &bytes[0..T::size_of()], addr)
    }

    /// Reads an element at `addr`, refused as `read_slice` is.
    pub fn read_obj<T: ByteValued>(&self, memory: &[u8], addr: usize) -> Result<T, Error>
        ensures { said (λ x. x) result ≡ loads (whole T.ByteValued.size (moves (span self.now) (length memory.now) T.ByteValued.size addr)) (T.ByteValued.value (part memory.now (self.now.start + addr) T.ByteValued.size)) }
    {
        let size = T::size_of();
        let completed = self.movable(memory.len(), size, addr)?;
        check_whole(size, completed)?;
        Ok(element(memory, self.start + addr))
    }

    // Refuses an atomic access of `size` bytes at `addr`, in a memory of `length` bytes.
    fn check_atomic(&self, length: usize, size: usize, addr: usize) -> Result<(), Error>
        requires { 0 < size }
        ensures { said (λ _. 0) result ≡ atomic_at (span self.now) length size addr }
    {
        self.check_memory(length)?;
        self.compute_end_offset(addr, size)?;
        let address = self.addr + self.start + addr;
        if address % size != 0 {
            return Err(Error::Misaligned {
                addr: address,
                alignment: size,
            });
        }
        Ok(())
    }

    /// Stores an element at `addr` atomically: refused as a cut is, and where the address is not aligned.
    pub fn store<T: AtomicAccess, B: Bitmap>(
        &self,
        memory: &mut [u8],
        bitmap: &mut B,
        value: T,
        addr: usize,
    ) -> Result<(), Error>
        ensures answer { said (λ _. 0) result ≡ (store (span self.now) (length memory.old) (T.ByteValued.bytes value) addr).answer }
        ensures did { Did (store (span self.now) (length memory.old) (T.ByteValued.bytes value) addr) memory.old memory.new (B.Bitmap.means bitmap.old) (B.Bitmap.means bitmap.new) }
        ensures lent { B.Bitmap.lent bitmap.new ≡ B.Bitmap.lent bitmap.old }
    {
        self.check_atomic(memory.len(), T::alignment(), addr)?;
        self.lay_element(memory, bitmap, addr, value);
        Ok(())
    }

    /// Loads an element at `addr` atomically, refused as `store` is.
    pub fn load<T: AtomicAccess>(&self, memory: &[u8], addr: usize) -> Result<T, Error>
        ensures { said (λ x. x) result ≡ loads (atomic_at (span self.now) (length memory.now) T.ByteValued.size addr) (T.ByteValued.value (part memory.now (self.now.start + addr) T.ByteValued.size)) }
    {
        self.check_atomic(memory.len(), T::alignment(), addr)?;
        let at = self.start + addr;
        Ok(element(memory, at))
    }
}
