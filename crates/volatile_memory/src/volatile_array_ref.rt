//! A view of elements in a row.
use crate::VolatileSlice;
use byte_valued::ByteValued;

mod access;
mod copies;
mod cuts;

/// As many elements of the kind `T` as lie in a view.
#[derive(Clone, Copy)]
pub struct VolatileArrayRef<T: ByteValued> {
    pub(crate) slice: VolatileSlice,
    // A value of the kind, which nothing reads. A rule of the project: a view is plain numbers, so this stands in the place of a marker.
    pub(crate) kind: T,
}
