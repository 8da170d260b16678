//! A view of one element.
use crate::VolatileSlice;
use byte_valued::ByteValued;

mod access;
mod cuts;

/// One element of the kind `T` in a memory. Every call that makes one makes its view as large as an element.
#[derive(Clone, Copy)]
pub struct VolatileRef<T: ByteValued> {
    pub(crate) slice: VolatileSlice,
    // A value of the kind, which nothing reads. A rule of the project: a view is plain numbers, so this stands in the place of a marker.
    pub(crate) kind: T,
}
