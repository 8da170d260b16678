//! A memory's size and its pages.
ghost use Rattle.std.specs.Prelude.{◌≡◌, ℕ, ◌+◌, ◌-◌, ◌≤◌, min, ◌&&◌, nat_le, nat_lt};
ghost use Rattle.bitmap.specs.Pages.{page_count, spans, top};

use crate::PageSize;
use std::ops::Range;

/// How many bytes a memory has, and how many a page of it.
#[derive(Clone, Copy)]
pub(crate) struct Extent {
    pub(crate) byte_size: usize,
    pub(crate) page_size: PageSize,
}

impl Extent {
    // How many pages it has, as far as there are `bits` for them.
    pub(crate) fn page_count(self, bits: usize) -> usize
        ensures { result ≡ page_count self.byte_size self.page_size.value bits }
    {
        self.page_size.pages(self.byte_size).min(bits)
    }

    // The pages that `len` bytes from `start` on lie on, of `count` pages.
    pub(crate) fn page_range(self, count: usize, start: usize, len: usize) -> Range<usize>
        ensures within { result.end ≤ count }
        ensures pages { (n : ℕ) → spans self.page_size.value count start len n ≡ (nat_le result.start n && nat_lt n result.end) }
    {
        if len == 0 {
            return 0..0;
        }
        let first = start / self.page_size.get();
        let last = last_byte(start, len) / self.page_size.get();
        first..last.saturating_add(1).min(count)
    }
}

// The last of `len` bytes from `start` on, of which there is one: a range past the top of the addresses ends there.
fn last_byte(start: usize, len: usize) -> usize
    ensures { result ≡ min (start + (len - 1)) top }
{
    start.saturating_add(len.saturating_sub(1))
}
