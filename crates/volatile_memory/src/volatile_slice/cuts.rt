//! How a view is cut.
ghost use Rattle.std.specs.Prelude.{◌≡◌, ◌+◌, ◌≤◌, ◌==◌};
ghost use Rattle.volatile_memory.specs.Faults.{said};
ghost use Rattle.volatile_memory.specs.Spans.{span, root, end_offset, sub, cut, cut_array, rest, halves, count};

use super::VolatileSlice;
use crate::{Error, VolatileArrayRef, VolatileRef};
use byte_valued::ByteValued;

// As many bytes as an array may have: 2^63 - 1.
const MAX_ARRAY: usize = isize::MAX as usize;

impl VolatileSlice {
    /// The view of a whole memory of `size` bytes, whose first byte has the address `addr`.
    pub fn new(addr: usize, size: usize) -> Result<VolatileSlice, Error>
        ensures { said span result ≡ root addr size }
    {
        addr.checked_add(size).ok_or(Error::Overflow {
            base: addr,
            offset: size,
        })?;
        Ok(VolatileSlice {
            addr,
            start: 0,
            size,
            mark: 0,
        })
    }

    /// How many bytes it has.
    pub fn len(&self) -> usize
        ensures { result ≡ (span self.now).size }
    {
        self.size
    }

    /// How many elements of the kind `T` it has room for.
    pub fn element_count<T: ByteValued>(&self) -> usize
        ensures { result ≡ count (span self.now) T.ByteValued.size }
    {
        self.len() / T::size_of()
    }

    /// Whether it has no bytes.
    pub fn is_empty(&self) -> bool
        ensures { result ≡ ((span self.now).size == 0) }
    {
        self.len() == 0
    }

    /// Where `offset` bytes from `base` on end, if that is within the view.
    pub fn compute_end_offset(&self, base: usize, offset: usize) -> Result<usize, Error>
        ensures { said (λ n. n) result ≡ end_offset (span self.now) base offset }
    {
        let end = base
            .checked_add(offset)
            .ok_or(Error::Overflow { base, offset })?;
        if end > self.size {
            return Err(Error::OutOfBounds { addr: end });
        }
        Ok(end)
    }

    /// The view of `count` bytes from `offset` on.
    pub fn subslice(&self, offset: usize, count: usize) -> Result<VolatileSlice, Error>
        ensures { said span result ≡ cut (span self.now) offset count }
    {
        self.compute_end_offset(offset, count)?;
        Ok(self.part(offset, count))
    }

    // `count` bytes from `offset` on, which lie within.
    pub(crate) fn part(&self, offset: usize, count: usize) -> VolatileSlice
        requires { offset + count ≤ self.now.size }
        ensures { span result ≡ sub (span self.now) offset count }
    {
        VolatileSlice {
            addr: self.addr,
            start: self.start + offset,
            size: count,
            mark: self.mark.wrapping_add(offset),
        }
    }

    /// The same as `subslice`.
    pub fn get_slice(&self, offset: usize, count: usize) -> Result<VolatileSlice, Error>
        ensures { said span result ≡ cut (span self.now) offset count }
    {
        self.subslice(offset, count)
    }

    /// The rest from `count` on.
    pub fn offset(&self, count: usize) -> Result<VolatileSlice, Error>
        ensures { said span result ≡ rest (span self.now) count }
    {
        let base = self.addr + self.start;
        let addr = base.checked_add(count).ok_or(Error::Overflow {
            base,
            offset: count,
        })?;
        if count > self.size {
            return Err(Error::OutOfBounds { addr });
        }
        Ok(self.part(count, self.size - count))
    }

    /// The first `mid` bytes, and the rest.
    pub fn split_at(&self, mid: usize) -> Result<(VolatileSlice, VolatileSlice), Error>
        ensures { said (λ p. (span p.0, span p.1)) result ≡ halves (span self.now) mid }
    {
        let end = self.offset(mid)?;
        Ok((self.part(0, mid), end))
    }
}

impl VolatileSlice {
    /// The element of the kind `T` at `offset`.
    pub fn get_ref<T: ByteValued>(&self, offset: usize) -> Result<VolatileRef<T>, Error>
        ensures { said (λ e. span e.slice) result ≡ cut (span self.now) offset T.ByteValued.size }
    {
        let slice = self.subslice(offset, T::size_of())?;
        Ok(VolatileRef::new(slice))
    }

    /// `n` elements of the kind `T` from `offset` on.
    pub fn get_array_ref<T: ByteValued>(
        &self,
        offset: usize,
        n: usize,
    ) -> Result<VolatileArrayRef<T>, Error>
        ensures { said (λ a. span a.slice) result ≡ cut_array (span self.now) T.ByteValued.size offset n }
    {
        let size = T::size_of();
        let nbytes = n
            .checked_mul(size)
            .filter(|&nbytes| nbytes <= MAX_ARRAY)
            .ok_or(Error::TooBig { nelements: n, size })?;
        let slice = self.subslice(offset, nbytes)?;
        Ok(VolatileArrayRef::new(slice))
    }
}
