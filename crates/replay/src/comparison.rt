//! Whether the copy that a host keeps equals the memory.
use std::fmt;

/// Where a copy differs from a memory: in how many bytes, and the place of the first.
#[derive(Clone, Copy)]
pub(crate) struct Difference {
    bytes: usize,
    first: usize,
}

impl Difference {
    /// How a copy differs from a memory of its length: absent where they are equal.
    pub(crate) fn between(memory: &[u8], copy: &[u8]) -> Option<Difference> {
        let mut places = memory
            .iter()
            .zip(copy.iter())
            .enumerate()
            .filter(|(_, (a, b))| **a != **b);
        let (first, _) = places.next()?;
        // The first is one of them, and the others are counted from there on.
        let bytes = places.count().saturating_add(1);
        Some(Difference { bytes, first })
    }
}

impl fmt::Display for Difference {
    fn fmt<W: fmt::Write>(&self, f: &mut fmt::Formatter<W>) -> fmt::Result {
        let bytes = self.bytes;
        let first = self.first;
        write!(
            f,
            "differs from the memory in {bytes} bytes, the first at {first}"
        )
    }
}
