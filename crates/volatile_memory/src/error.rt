//! What a call can be refused for.
ghost use Rattle.std.specs.Prelude.{◌≡◌, Some, decimal};
ghost use Rattle.std.specs.Fmt.{styled_decimal};
ghost use Rattle.volatile_memory.specs.Faults.{rule_number};

use std::fmt;

/// A rule that a parcel breaks, with its number: they are looked at in this order.
#[derive(Clone, Copy, PartialEq, Eq)]
pub enum Rule {
    /// The parcel is shorter than its head.
    ShortHead = 1,
    /// The page size is 0.
    NoPageSize = 2,
    /// The memory's length is not the copy's.
    OtherLength = 3,
    /// There are more pages than the memory has, or than the parcel has room for numbers of.
    TooManyPages = 4,
    /// A page number is that of no page, or not above the one before.
    WrongPage = 5,
    /// The parcel's length is not what its pages come to.
    WrongLength = 6,
}

impl Rule {
    /// The number that the rule is known by.
    pub fn number(self) -> usize
        ensures { result ≡ rule_number self }
    {
        self as usize
    }
}

impl fmt::Display for Rule {
    ghost output = { λ r. Some (decimal (rule_number r)) };

    ghost styled_output = { λ r s. Some (styled_decimal s (rule_number r)) };

    fn fmt<W: fmt::Write>(&self, f: &mut fmt::Formatter<W>) -> fmt::Result {
        fmt::Display::fmt(&self.number(), f)
    }
}

// By its number too: a refusal that is shown has numbers for values.
impl fmt::Debug for Rule {
    ghost debug_output = { λ r. Some (decimal (rule_number r)) };

    fn fmt<W: fmt::Write>(&self, f: &mut fmt::Formatter<W>) -> fmt::Result {
        fmt::Debug::fmt(&self.number(), f)
    }
}

/// A refusal, with its values.
#[derive(Clone, Copy, PartialEq, Eq, Debug, thiserror::Error)]
pub enum Error {
    /// `addr` is out of bounds of the view.
    #[error("address 0x{addr:x} is out of bounds")]
    OutOfBounds { addr: usize },
    /// `base` plus `offset` passes the largest address.
    #[error("address 0x{base:x} offset by 0x{offset:x} would overflow")]
    Overflow { base: usize, offset: usize },
    /// `nelements` elements of `size` bytes are more than an array may have.
    #[error("{nelements} elements of size {size} would overflow a usize")]
    TooBig { nelements: usize, size: usize },
    /// `addr` is no multiple of `alignment`.
    #[error("address 0x{addr:x} is not aligned to {alignment}")]
    Misaligned { addr: usize, alignment: usize },
    /// Only `completed` of `expected` bytes were moved.
    #[error("only used {completed} bytes in {expected} long buffer")]
    PartialBuffer { expected: usize, completed: usize },
    /// There is no element `index` among `count`.
    #[error("no element {index} among {count}")]
    NoElement { index: usize, count: usize },
    /// The view ends at `end`, past the `length` bytes of the memory.
    #[error("the view ends at {end}, past the memory's {length} bytes")]
    Foreign { end: usize, length: usize },
    /// The memory has `needed` pages, and the bitmap covers `pages`.
    #[error("the memory has {needed} pages, and the bitmap covers {pages}")]
    Uncovered { needed: usize, pages: usize },
    /// A parcel needs `needed` bytes of room.
    #[error("the parcel needs {needed} bytes of room")]
    NoRoom { needed: usize },
    /// A parcel breaks a rule at a place.
    #[error("the parcel breaks rule {rule} at byte {place}")]
    BadParcel { rule: Rule, place: usize },
}
