//! A bitmap over words that are lent.
ghost use Rattle.std.specs.Prelude.{◌≡◌, ℕ, ◌*◌, ◌/◌, ◌≤◌, ◌&&◌, nat_le, nat_lt, true, false, ◌∷◌, length, replicate};
ghost use Rattle.bitmap.specs.Pages.{clean, page_count, dirty, with_bits, assigned, assigned_page, marked, cleaned, reaches};
ghost use Rattle.bitmap.specs.Sound.{tracked_paged, tracked_bounded};
ghost use Rattle.bitmap.specs.Tracked.{loan, fixed, tracked};

use crate::extent::Extent;
use crate::{Bitmap, CleanBitmap, PageSize, page_bits, word};
use std::ops::Range;

/// One bit a page in 64-bit words: page `n` is bit `n % 64` of word `n / 64`.
#[derive(Drop)]
pub struct AtomicBitmap<'a> {
    map: &'a mut [u64],
    byte_size: usize,
    // 0 stands for 1, and never comes. A `PageSize` was tried: the checker covers no `BaseSlice` of a `&mut` beside an invariant.
    page_size: usize,
}

impl<'a> AtomicBitmap<'a> {
    /// A clean bitmap of `byte_size` bytes, as far as `map` has bits for their pages. The words are cleared.
    pub fn new(byte_size: usize, page_size: PageSize, map: &'a mut [u64]) -> AtomicBitmap<'a>
        ensures means { tracked result ≡ clean page_size.value (page_count byte_size page_size.value (64 * length map.old)) }
        ensures words { result.map.now ≡ replicate (length map.old) 0 }
        ensures fixed { fixed result ≡ byte_size ∷ loan map.entry }
    {
        map.fill(0);
        AtomicBitmap {
            map,
            byte_size,
            page_size: page_size.get(),
        }
    }

    /// Whether bit `index` is set; bits past the last page never are.
    pub fn is_bit_set(&self, index: usize) -> bool
        ensures { result ≡ dirty (tracked self.now) index }
    {
        page_bits::is_set(self.map, self.extent(), index)
    }

    /// Whether bit `index` of the words is set, be it a page's or not; past the words none is. Where a page is known to
    /// be one of the bitmap's, this says whether it is dirty, and works out no page count.
    pub fn stored_bit(&self, index: usize) -> bool
        ensures { result ≡ (tracked self.now).bit index }
    {
        word::get(self.map, index)
    }

    /// Whether the bit of the page at address `addr` is set.
    pub fn is_addr_set(&self, addr: usize) -> bool
        ensures { result ≡ dirty (tracked self.now) (addr / (tracked self.now).page) }
    {
        self.is_bit_set(addr / self.page().get())
    }

    /// Sets the bits of `len` bytes from `start_addr` on.
    pub fn set_addr_range(&mut self, start_addr: usize, len: usize)
        ensures means { tracked self.new ≡ marked (tracked self.old) start_addr len }
        ensures fixed { fixed self.new ≡ fixed self.old }
    {
        let extent = self.extent();
        page_bits::assign(self.map, extent, start_addr, len, true)
    }

    /// Clears the bits of `len` bytes from `start_addr` on.
    pub fn reset_addr_range(&mut self, start_addr: usize, len: usize)
        ensures means { tracked self.new ≡ cleaned (tracked self.old) start_addr len }
        ensures fixed { fixed self.new ≡ fixed self.old }
    {
        let extent = self.extent();
        page_bits::assign(self.map, extent, start_addr, len, false)
    }

    /// Sets bit `index`, unless it is past the last page.
    pub fn set_bit(&mut self, index: usize)
        ensures means { tracked self.new ≡ assigned_page true (tracked self.old) index }
        ensures fixed { fixed self.new ≡ fixed self.old }
    {
        let extent = self.extent();
        page_bits::put(self.map, extent, index, true)
    }

    /// Clears bit `index`, unless it is past the last page.
    pub fn reset_bit(&mut self, index: usize)
        ensures means { tracked self.new ≡ assigned_page false (tracked self.old) index }
        ensures fixed { fixed self.new ≡ fixed self.old }
    {
        let extent = self.extent();
        page_bits::put(self.map, extent, index, false)
    }

    /// The pages that `mark_dirty` would make dirty, of `len` bytes from `start_addr` on.
    pub fn page_range(&self, start_addr: usize, len: usize) -> Range<usize>
        ensures within { result.end ≤ (tracked self.now).count }
        ensures pages { (n : ℕ) → reaches (tracked self.now) start_addr len n ≡ (nat_le result.start n && nat_lt n result.end) }
    {
        self.extent().page_range(self.len(), start_addr, len)
    }

    /// Clears all bits.
    pub fn reset(&mut self)
        ensures means { tracked self.new ≡ with_bits (tracked self.old) (λ n. false) }
        ensures words { self.new.map.now ≡ replicate (length self.old.map.now) 0 }
        ensures fixed { fixed self.new ≡ fixed self.old }
    {
        self.map.fill(0);
    }

    /// How many pages there are bits for.
    pub fn len(&self) -> usize
        ensures { result ≡ (tracked self.now).count }
    {
        page_bits::len(self.map, self.extent())
    }

    // How large a page is.
    fn page(&self) -> PageSize
        ensures { result.value ≡ (tracked self.now).page }
    {
        PageSize {
            value: self.page_size.max(1),
        }
    }

    // The memory that it was made for.
    fn extent(&self) -> Extent
        ensures { (result.byte_size ≡ self.now.byte_size) × (result.page_size.value ≡ (tracked self.now).page) }
    {
        Extent {
            byte_size: self.byte_size,
            page_size: self.page(),
        }
    }

    /// The size in bytes that it was made for.
    pub fn byte_size(&self) -> usize
        ensures { result ≡ self.now.byte_size }
    {
        self.byte_size
    }
}

impl<'a> Bitmap for AtomicBitmap<'a> {
    ghost means = { tracked };

    ghost lent = { λ b. loan b.map };

    ghost paged = { tracked_paged };

    ghost bounded = { tracked_bounded };

    fn mark_dirty(&mut self, offset: usize, len: usize)
        ensures marks { tracked self.new ≡ marked (tracked self.old) offset len }
        ensures lent { loan self.new.map ≡ loan self.old.map }
        ensures fixed { fixed self.new ≡ fixed self.old }
    {
        self.set_addr_range(offset, len)
    }

    fn dirty_at(&self, offset: usize) -> bool {
        self.is_addr_set(offset)
    }
}

impl<'a> CleanBitmap for AtomicBitmap<'a> {
    fn page_size(&self) -> PageSize {
        self.page()
    }

    fn page_count(&self) -> usize {
        self.len()
    }

    fn mark_base(&self) -> usize {
        0
    }

    fn reset_addr_range(&mut self, start_addr: usize, len: usize)
        ensures cleans { tracked self.new ≡ cleaned (tracked self.old) start_addr len }
        ensures lent { loan self.new.map ≡ loan self.old.map }
        ensures fixed { fixed self.new ≡ fixed self.old }
    {
        AtomicBitmap::reset_addr_range(self, start_addr, len)
    }
}
