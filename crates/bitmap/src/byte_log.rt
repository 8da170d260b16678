//! A bitmap over bytes that are lent: the dirty log of vhost-user.
ghost use Rattle.std.specs.Prelude.{◌≡◌};
ghost use Rattle.bitmap.specs.Sound.{logged_paged, logged_bounded};
ghost use Rattle.bitmap.specs.Tracked.{loan, over, logged};

use crate::extent::Extent;
use crate::{Bitmap, CleanBitmap, PageSize, page_bits};

// vhost-user logs pages of this size.
const LOG_PAGE: PageSize = PageSize { value: 4096 };

/// One bit a page of 4096 bytes: page `n` is bit `n % 8` of byte `n / 8`.
#[derive(Drop)]
pub struct ByteLog<'a> {
    log: &'a mut [u8],
    byte_size: usize,
}

impl<'a> ByteLog<'a> {
    /// The log of a memory of `byte_size` bytes, as far as `log` has bits for its pages. Its bytes stay as they are.
    pub fn new(byte_size: usize, log: &'a mut [u8]) -> ByteLog<'a>
        ensures means { logged result ≡ over byte_size 4096 8 log.old }
        ensures bytes { result.log.now ≡ log.old }
        ensures lent { loan result.log ≡ loan log.entry }
    {
        ByteLog { log, byte_size }
    }

    /// How many pages there are bits for.
    pub fn len(&self) -> usize
        ensures { result ≡ (logged self.now).count }
    {
        page_bits::len(self.log, self.extent())
    }

    // The memory that it was made for.
    fn extent(&self) -> Extent
        ensures { (result.byte_size ≡ self.now.byte_size) × (result.page_size.value ≡ 4096) }
    {
        Extent {
            byte_size: self.byte_size,
            page_size: LOG_PAGE,
        }
    }
}

impl<'a> Bitmap for ByteLog<'a> {
    ghost means = { logged };

    ghost lent = { λ b. loan b.log };

    ghost paged = { logged_paged };

    ghost bounded = { logged_bounded };

    fn mark_dirty(&mut self, offset: usize, len: usize) {
        let extent = self.extent();
        page_bits::assign(self.log, extent, offset, len, true)
    }

    fn dirty_at(&self, offset: usize) -> bool {
        page_bits::is_set(self.log, self.extent(), offset / LOG_PAGE.get())
    }
}

impl<'a> CleanBitmap for ByteLog<'a> {
    fn page_size(&self) -> PageSize {
        LOG_PAGE
    }

    fn page_count(&self) -> usize {
        self.len()
    }

    fn mark_base(&self) -> usize {
        0
    }

    fn reset_addr_range(&mut self, start_addr: usize, len: usize) {
        let extent = self.extent();
        page_bits::assign(self.log, extent, start_addr, len, false)
    }
}
