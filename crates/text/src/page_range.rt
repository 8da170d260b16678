//! Pages that follow one another.
ghost use Rattle.std.specs.Prelude.{◌≤◌};

use std::fmt;

/// The pages from `first` to `last`.
#[derive(Clone, Copy)]
pub struct PageRange {
    pub first: usize,
    pub last: usize,
    ghost rising: { first ≤ last },
}

impl fmt::Display for PageRange {
    fn fmt<W: fmt::Write>(&self, f: &mut fmt::Formatter<W>) -> fmt::Result {
        let first = self.first;
        let last = self.last;
        if first == last {
            return write!(f, "{first}");
        }
        write!(f, "{first}-{last}")
    }
}
