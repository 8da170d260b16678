//! What a parcel says of itself.
ghost use Rattle.std.specs.Prelude.{◌≡◌, ◌≤◌, [], ◌∷◌, length};
ghost use Rattle.std.specs.Option.{option_map};
ghost use Rattle.volatile_memory.specs.Faults.{said, fault, bad_parcel, rule_number};
ghost use Rattle.volatile_memory.specs.Memory.{overlaid};
ghost use Rattle.parcel.specs.Parcels.{numbers_of, page_number, page_numbers, words};
ghost use Rattle.parcel.specs.Rules.{first_of, head_of, inspected};

use crate::carried::Carried;
use crate::numbers::{NUMBER, Numbers, lay_number};
use volatile_memory::{Error, Rule};

// How many bytes the three numbers take that begin a parcel.
pub(crate) const HEAD: usize = 3 * NUMBER;

// The refusal of a parcel that breaks a rule, and where.
pub(crate) fn broken(rule: Rule, place: usize) -> Error
    ensures { fault result ≡ bad_parcel (rule_number rule) place }
{
    Error::BadParcel { rule, place }
}

/// A parcel's page size, how many pages it carries, and how long the memory is.
#[derive(Clone, Copy, PartialEq, Eq, Debug)]
pub struct Contents {
    pub page_size: usize,
    pub pages: usize,
    pub total: usize,
}

impl Contents {
    // The three numbers that begin a parcel, if it has them.
    #[tactic(auto, using(crate::proofs::PageNumbers::first_read, crate::proofs::PageNumbers::first_missing))]
    fn first(parcel: &[u8]) -> Option<Contents>
        ensures { option_map (λ c. (c.page_size, c.pages, c.total)) result ≡ first_of parcel.now }
    {
        let mut numbers = Numbers::new(parcel);
        let page_size = numbers.next()?;
        let pages = numbers.next()?;
        let total = numbers.next()?;
        Some(Contents {
            page_size,
            pages,
            total,
        })
    }

    // The head of a parcel, which has to have room for it.
    pub(crate) fn read(parcel: &[u8]) -> Result<Contents, Error>
        ensures { said (λ c. (c.page_size, c.pages, c.total)) result ≡ head_of parcel.now }
    {
        Contents::first(parcel).ok_or(broken(Rule::ShortHead, parcel.len()))
    }

    // Lays the head at the start of a buffer, and says where it ends.
    pub(crate) fn lay(self, buf: &mut [u8]) -> usize
        requires { 24 ≤ length buf.old }
        ensures end { result ≡ 24 }
        ensures after { buf.new ≡ overlaid buf.old 0 (words (self.page_size ∷ self.pages ∷ self.total ∷ [])) }
    {
        let second = lay_number(buf, 0, self.page_size);
        let third = lay_number(buf, second, self.pages);
        lay_number(buf, third, self.total)
    }
}

/// Says what a parcel carries, unless it breaks a rule for every copy.
pub fn inspect(parcel: &[u8]) -> Result<Contents, Error>
    ensures { said (λ c. (c.page_size, c.pages, c.total)) result ≡ inspected parcel.now }
{
    let contents = Contents::read(parcel)?;
    Carried::check(parcel, contents.total)?;
    Ok(contents)
}

/// The numbers of the pages that a parcel carries: as many as it says it has, as far as it has bytes for them.
pub fn page_numbers<'a>(parcel: &'a [u8]) -> Numbers<'a>
    ensures { numbers_of result.bytes.now ≡ page_numbers parcel.now }
{
    let Some(contents) = Contents::first(parcel) else {
        return Numbers::new(&[]);
    };
    let (_, rest) = parcel.split_at(HEAD);
    let count = contents.pages.min(rest.len() / NUMBER);
    let (numbers, _) = rest.split_at(NUMBER * count);
    Numbers::new(numbers)
}

/// The number of the `index`-th page that a parcel carries: absent past the pages that the parcel says it has, and past
/// its bytes.
pub fn page_number(parcel: &[u8], index: usize) -> Option<usize>
    ensures { result ≡ page_number parcel.now index }
{
    page_numbers(parcel).nth(index)
}
