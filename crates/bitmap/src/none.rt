//! The bitmap of no pages, for a memory that nobody tracks.
ghost use Rattle.std.specs.Prelude.{[]};
ghost use Rattle.std.proofs.Common.{arith};
ghost use Rattle.bitmap.specs.Pages.{clean};

use crate::{Bitmap, CleanBitmap, PageSize};

impl Bitmap for () {
    ghost means = { λ _. clean 1 0 };

    ghost lent = { λ _. [] };

    ghost paged = { λ _. omega arith };

    ghost bounded = { λ _ h. absurd (omega arith) };

    fn mark_dirty(&mut self, _offset: usize, _len: usize) {}

    fn dirty_at(&self, _offset: usize) -> bool {
        false
    }
}

impl CleanBitmap for () {
    fn page_size(&self) -> PageSize {
        PageSize { value: 1 }
    }

    fn page_count(&self) -> usize {
        0
    }

    fn mark_base(&self) -> usize {
        0
    }

    fn reset_addr_range(&mut self, _start_addr: usize, _len: usize) {}
}
