//! A view of some bytes of a memory.
ghost use Rattle.std.specs.Prelude.{◌≡◌, ◌+◌, ◌^◌, ◌<◌};

mod access;
mod copies;
mod cuts;
mod elements;
mod guards;

pub(crate) use elements::element;

/// `size` bytes from `start` on, in a memory whose root lies at `addr`. Marks fall from `mark` on.
#[derive(Clone, Copy)]
pub struct VolatileSlice {
    pub(crate) addr: usize,
    pub(crate) start: usize,
    pub(crate) size: usize,
    // Always `start`, yet stored: a rule of the project counts the mark base among a view's numbers.
    pub(crate) mark: usize,
    ghost ends: { addr + start + size < 2 ^ 64 },
    ghost marks: { mark ≡ start },
}
