//! Bytes written to a view and read from it.
ghost use Rattle.std.specs.Prelude.{◌≡◌, ◌+◌, ◌≤◌, length};
ghost use Rattle.volatile_memory.specs.Calls.{Did, lays, moves, whole, write, write_slice, fetched};
ghost use Rattle.volatile_memory.specs.Faults.Answer.{gives};
ghost use Rattle.volatile_memory.specs.Faults.{said};
ghost use Rattle.volatile_memory.specs.Spans.{span};

use super::VolatileSlice;
use crate::Error;
use bitmap::Bitmap;

// Refuses a call that moved `completed` bytes, where that is not all of the `expected` ones.
pub(super) fn check_whole(expected: usize, completed: usize) -> Result<(), Error>
    ensures { said (λ _. 0) result ≡ whole expected (gives completed) }
{
    if completed != expected {
        return Err(Error::PartialBuffer {
            expected,
            completed,
        });
    }
    Ok(())
}

impl VolatileSlice {
    // How many of `count` bytes a call at `addr` moves, in a memory of `length` bytes.
    pub(super) fn movable(&self, length: usize, count: usize, addr: usize) -> Result<usize, Error>
        ensures { said (λ k. k) result ≡ moves (span self.now) length count addr }
    {
        self.check_memory(length)?;
        if count == 0 {
            return Ok(0);
        }
        if addr >= self.size {
            return Err(Error::OutOfBounds { addr });
        }
        Ok(count.min(self.size - addr))
    }

    // Lays bytes at `offset`, where they lie within, and marks them. It takes the whole memory, and not the view's part:
    // the prover has no contract for a function that lends a part of a slice to be written.
    pub(crate) fn lay<B: Bitmap>(
        &self,
        memory: &mut [u8],
        bitmap: &mut B,
        offset: usize,
        bytes: &[u8],
    )
        requires in_view { offset + length bytes.now ≤ self.now.size }
        requires in_memory { self.now.start + self.now.size ≤ length memory.old }
        ensures did { Did (lays (span self.now) offset bytes.now (gives 0)) memory.old memory.new (B.Bitmap.means bitmap.old) (B.Bitmap.means bitmap.new) }
        ensures lent { B.Bitmap.lent bitmap.new ≡ B.Bitmap.lent bitmap.old }
    {
        let at = self.start + offset;
        memory[at..at + bytes.len()].copy_from_slice(bytes);
        bitmap.mark_dirty(self.mark.wrapping_add(offset), bytes.len());
    }

    /// Writes as much of `buf` as fits at `addr`, and answers how much that was.
    pub fn write<B: Bitmap>(
        &self,
        memory: &mut [u8],
        bitmap: &mut B,
        buf: &[u8],
        addr: usize,
    ) -> Result<usize, Error>
        ensures answer { said (λ k. k) result ≡ (write (span self.now) (length memory.old) buf.now addr).answer }
        ensures did { Did (write (span self.now) (length memory.old) buf.now addr) memory.old memory.new (B.Bitmap.means bitmap.old) (B.Bitmap.means bitmap.new) }
        ensures lent { B.Bitmap.lent bitmap.new ≡ B.Bitmap.lent bitmap.old }
    {
        let k = self.movable(memory.len(), buf.len(), addr)?;
        if k > 0 {
            self.lay(memory, bitmap, addr, &buf[0..k]);
        }
        Ok(k)
    }

    /// Writes all of `buf` at `addr`. Where it does not fit, what fits is written, and the answer is a partial buffer.
    pub fn write_slice<B: Bitmap>(
        &self,
        memory: &mut [u8],
        bitmap: &mut B,
        buf: &[u8],
        addr: usize,
    ) -> Result<(), Error>
        ensures answer { said (λ _. 0) result ≡ (write_slice (span self.now) (length memory.old) buf.now addr).answer }
        ensures did { Did (write_slice (span self.now) (length memory.old) buf.now addr) memory.old memory.new (B.Bitmap.means bitmap.old) (B.Bitmap.means bitmap.new) }
        ensures lent { B.Bitmap.lent bitmap.new ≡ B.Bitmap.lent bitmap.old }
    {
        let completed = self.write(memory, bitmap, buf, addr)?;
        check_whole(buf.len(), completed)
    }

    /// Reads as much into `buf` as there is from `addr` on, and answers how much that was. The rest of `buf` stays.
    pub fn read(&self, memory: &[u8], buf: &mut [u8], addr: usize) -> Result<usize, Error>
        ensures answer { said (λ k. k) result ≡ moves (span self.now) (length memory.now) (length buf.old) addr }
        ensures after { buf.new ≡ fetched (span self.now) memory.now buf.old addr }
    {
        let k = self.movable(memory.len(), buf.len(), addr)?;
        if k > 0 {
            let at = self.start + addr;
            buf[0..k].copy_from_slice(&memory[at..at + k]);
        }
        Ok(k)
    }

    /// Reads all of `buf` from `addr` on. Where there is less, that is read, and the answer is a partial buffer.
    pub fn read_slice(&self, memory: &[u8], buf: &mut [u8], addr: usize) -> Result<(), Error>
        ensures answer { said (λ _. 0) result ≡ whole (length buf.old) (moves (span self.now) (length memory.now) (length buf.old) addr) }
        ensures after { buf.new ≡ fetched (span self.now) memory.now buf.old addr }
    {
        let completed = self.read(memory, buf, addr)?;
        check_whole(buf.len(), completed)
    }
}
