//! The pages that a parcel carries.
ghost use Rattle.std.specs.Prelude.{◌≡◌, ◌+◌, ◌^◌, ◌<◌, ◌&&◌, length, nat_le, nat_lt, IfOk};
ghost use Rattle.std.proofs.Props.{props};
ghost use Rattle.volatile_memory.specs.Faults.{said};
ghost use Rattle.volatile_memory.specs.Faults.Answer.{gives};
ghost use Rattle.parcel.specs.Parcels.{pages, page_length, numbers_of, sum_of, laid_pages, unless, wrong_among};
ghost use Rattle.parcel.specs.Rules.{head_rules, length_rule, rules, Below, Carries};

use crate::contents::{Contents, HEAD, broken};
use crate::layout::Layout;
use crate::numbers::{NUMBER, Numbers, lay};
use bitmap::PageSize;
use volatile_memory::{Error, Rule};

// A page number is right if it is not below `low`, and one of `count` pages.
fn is_right(page: usize, low: usize, count: usize) -> bool
    ensures { result ≡ (nat_le low page && nat_lt page count) }
{
    (low..count).contains(&page)
}

/// The pages that a parcel carries for a memory: their numbers, and their bytes one page after another.
#[derive(Drop)]
pub(crate) struct Carried<'a> {
    layout: Layout,
    numbers: &'a [u8],
    bytes: &'a [u8],
}

impl<'a> Carried<'a> {
    // A parcel's head has to fit a memory of `total` bytes.
    fn read(parcel: &'a [u8], total: usize) -> Result<Carried<'a>, Error>
        ensures answer { said (λ _. 0) result ≡ head_rules total parcel.now }
        ensures carried { IfOk result (λ c. Carries total parcel.now c.layout.page_size.value c.layout.total c.numbers.now c.bytes.now) }
    {
        let contents = Contents::read(parcel)?;
        let page_size = PageSize::new(contents.page_size).ok_or(broken(Rule::NoPageSize, 0))?;
        if contents.total != total {
            return Err(broken(Rule::OtherLength, 2 * NUMBER));
        }
        let layout = Layout { page_size, total };
        let (_, rest) = parcel.split_at(HEAD);
        if layout.count() < contents.pages || rest.len() / NUMBER < contents.pages {
            return Err(broken(Rule::TooManyPages, NUMBER));
        }
        let (numbers, bytes) = rest.split_at(NUMBER * contents.pages);
        Ok(Carried {
            layout,
            numbers,
            bytes,
        })
    }

    // The page numbers have to be right, each above the one before; their pages have this many bytes together.
    fn check_numbers(&self) -> Result<usize, Error>
        ensures { said (λ n. n) result ≡ unless (wrong_among (pages self.now.layout.total self.now.layout.page_size.value) 0 3 (numbers_of self.now.numbers.now)) (gives (sum_of (page_length self.now.layout.page_size.value self.now.layout.total) (numbers_of self.now.numbers.now))) }
    {
        // Their bytes together are no more than the memory's, and those are a number of 64 bits.
        let _total = self.layout.total;
        let count = self.layout.count();
        // A fold would be no plainer: its state is these two numbers, and a refusal leaves it early with a place.
        let mut low = 0;
        let mut bytes = 0;
        let numbers = Numbers::new(self.numbers);
        for (index, page) in numbers.enumerate() {
            if !is_right(page, low, count) {
                return Err(broken(Rule::WrongPage, HEAD + index * NUMBER));
            }
            bytes += self.layout.own_size(page);
            low = page + 1;
        }
        Ok(bytes)
    }

    // There have to be so many bytes of pages, and no others.
    fn check_length(&self, owed: usize) -> Result<(), Error>
        requires { 24 + length self.now.numbers.now + length self.now.bytes.now < 2 ^ 63 }
        ensures { said (λ _. 0) result ≡ length_rule (24 + length self.now.numbers.now + length self.now.bytes.now) (24 + length self.now.numbers.now + owed) }
    {
        if self.bytes.len() != owed {
            return Err(broken(
                Rule::WrongLength,
                HEAD + self.numbers.len() + self.bytes.len().min(owed),
            ));
        }
        Ok(())
    }

    // A parcel has to keep all rules, for a memory of `total` bytes.
    pub(crate) fn check(parcel: &'a [u8], total: usize) -> Result<Checked<'a>, Error>
        ensures answer { said (λ _. 0) result ≡ rules total parcel.now }
        ensures carried { IfOk result (λ c. Carries total parcel.now c.carried.layout.page_size.value c.carried.layout.total c.carried.numbers.now c.carried.bytes.now) }
    {
        let pages = Carried::read(parcel, total)?;
        let owed = pages.check_numbers()?;
        pages.check_length(owed)?;
        Ok(Checked { carried: pages })
    }
}

/// The pages of a parcel that keeps all rules: they are pages of the memory, and their bytes are all there.
#[derive(Drop)]
pub(crate) struct Checked<'a> {
    carried: Carried<'a>,
    ghost below: { Below (pages carried.layout.total carried.layout.page_size.value) (numbers_of carried.numbers.now) } by { Prim.hlevel props },
    ghost whole: { length carried.bytes.now ≡ sum_of (page_length carried.layout.page_size.value carried.layout.total) (numbers_of carried.numbers.now) },
}

impl<'a> Checked<'a> {
    // Lays the pages at their places.
    pub(crate) fn lay(&self, copy: &mut [u8])
        requires { self.now.carried.layout.total ≡ length copy.old }
        ensures { copy.new ≡ laid_pages copy.old self.now.carried.layout.page_size.value (numbers_of self.now.carried.numbers.now) self.now.carried.bytes.now }
    {
        let pages = &self.carried;
        let mut rest = pages.bytes;
        for page in Numbers::new(pages.numbers) {
            let (bytes, others) = rest.split_at(pages.layout.size(page));
            lay(copy, pages.layout.start(page), bytes);
            rest = others;
        }
    }
}
