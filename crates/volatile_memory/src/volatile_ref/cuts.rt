//! A reference as a view.
ghost use Rattle.std.specs.Prelude.{◌≡◌};
ghost use Rattle.volatile_memory.specs.Spans.{span};

use super::VolatileRef;
use crate::VolatileSlice;
use byte_valued::ByteValued;

impl<T: ByteValued> VolatileRef<T> {
    // The element whose bytes are those of `slice`.
    pub(crate) fn new(slice: VolatileSlice) -> VolatileRef<T>
        ensures { span result.slice ≡ span slice }
    {
        VolatileRef {
            slice,
            kind: T::zeroed(),
        }
    }

    /// How many bytes the element has.
    pub fn len(&self) -> usize
        ensures { result ≡ T.ByteValued.size }
    {
        T::size_of()
    }

    /// The view of the element's bytes.
    pub fn to_slice(&self) -> VolatileSlice
        ensures { span result ≡ span self.now.slice }
    {
        self.slice
    }
}
