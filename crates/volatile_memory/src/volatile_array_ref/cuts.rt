//! An array as a view, and its elements.
ghost use Rattle.std.specs.Prelude.{◌≡◌, ◌+◌, ◌*◌, ◌≤◌, ◌==◌, IfOk};
ghost use Rattle.volatile_memory.specs.Calls.{has_element};
ghost use Rattle.volatile_memory.specs.Faults.{said};
ghost use Rattle.volatile_memory.specs.Spans.{span, count, cut_element};

use super::VolatileArrayRef;
use crate::{Error, VolatileRef, VolatileSlice};
use byte_valued::ByteValued;

impl<T: ByteValued> VolatileArrayRef<T> {
    // The elements whose bytes are those of `slice`.
    pub(crate) fn new(slice: VolatileSlice) -> VolatileArrayRef<T>
        ensures { span result.slice ≡ span slice }
    {
        VolatileArrayRef {
            slice,
            kind: T::zeroed(),
        }
    }

    /// How many elements it has.
    pub fn len(&self) -> usize
        ensures { result ≡ count (span self.now.slice) T.ByteValued.size }
    {
        self.to_slice().element_count::<T>()
    }

    /// Whether it has no elements.
    pub fn is_empty(&self) -> bool
        ensures { result ≡ (count (span self.now.slice) T.ByteValued.size == 0) }
    {
        self.len() == 0
    }

    /// How many bytes an element has.
    pub fn element_size(&self) -> usize
        ensures { result ≡ T.ByteValued.size }
    {
        T::size_of()
    }

    /// The view of the array's bytes.
    pub fn to_slice(&self) -> VolatileSlice
        ensures { span result ≡ span self.now.slice }
    {
        self.slice
    }

    // Where element `index` starts in the array. Refuses one that it does not have.
    pub(super) fn element_offset(&self, index: usize) -> Result<usize, Error>
        ensures answer { said (λ _. 0) result ≡ has_element (span self.now.slice) T.ByteValued.size index }
        ensures made { IfOk result (λ o. (o ≡ index * T.ByteValued.size) × (o + T.ByteValued.size ≤ self.now.slice.size)) }
    {
        let count = self.len();
        if index >= count {
            return Err(Error::NoElement { index, count });
        }
        Ok(index * T::size_of())
    }

    /// Element `index`.
    pub fn ref_at(&self, index: usize) -> Result<VolatileRef<T>, Error>
        ensures { said (λ e. span e.slice) result ≡ cut_element (span self.now.slice) T.ByteValued.size index }
    {
        let offset = self.element_offset(index)?;
        let slice = self.slice.part(offset, T::size_of());
        Ok(VolatileRef::new(slice))
    }
}
