//! A bitmap from an offset on.
ghost use Rattle.std.specs.Prelude.{◌≡◌};
ghost use Rattle.bitmap.specs.Pages.{sliced};

use crate::{Bitmap, CleanBitmap, PageSize};

/// A bitmap held by value, to whose offsets `base_offset` is added.
#[derive(Drop)]
pub struct BaseSlice<B> {
    inner: B,
    base_offset: usize,
}

impl<B> BaseSlice<B> {
    /// A slice of `inner`, from `offset` on.
    pub fn new(inner: B, offset: usize) -> BaseSlice<B>
        ensures inner { result.inner ≡ inner }
        ensures offset { result.base_offset ≡ offset }
    {
        BaseSlice {
            inner,
            base_offset: offset,
        }
    }

    /// The bitmap again, and the base offset.
    pub fn into_parts(self) -> (B, usize)
        ensures inner { result.0 ≡ self.inner }
        ensures offset { result.1 ≡ self.base_offset }
    {
        let BaseSlice { inner, base_offset } = self;
        (inner, base_offset)
    }
}

impl<B: Bitmap> Bitmap for BaseSlice<B> {
    ghost means = { λ s. sliced (B.Bitmap.means s.inner) s.base_offset };

    ghost lent = { λ s. B.Bitmap.lent s.inner };

    ghost paged = { λ s. B.Bitmap.paged s.inner };

    ghost bounded = { λ s. B.Bitmap.bounded s.inner };

    fn mark_dirty(&mut self, offset: usize, len: usize) {
        self.inner
            .mark_dirty(self.base_offset.wrapping_add(offset), len)
    }

    fn dirty_at(&self, offset: usize) -> bool {
        self.inner.dirty_at(self.base_offset.wrapping_add(offset))
    }
}

impl<B: CleanBitmap> CleanBitmap for BaseSlice<B> {
    fn page_size(&self) -> PageSize {
        self.inner.page_size()
    }

    fn page_count(&self) -> usize {
        self.inner.page_count()
    }

    fn mark_base(&self) -> usize {
        self.inner.mark_base().wrapping_add(self.base_offset)
    }

    fn reset_addr_range(&mut self, start_addr: usize, len: usize) {
        self.inner
            .reset_addr_range(self.base_offset.wrapping_add(start_addr), len)
    }
}
