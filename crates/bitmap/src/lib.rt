//! Dirty bitmaps: which pages of a memory were written to.
#![tactic(auto)]

ghost use Rattle.std.specs.Prelude.{◌≡◌, ℕ, List};
ghost use Rattle.bitmap.specs.Pages.{Meaning, Paged, Bounded, marked, cleaned, dirty_at};

mod atomic_bitmap;
mod byte_log;
mod extent;
mod none;
mod page_bits;
mod page_size;
mod share;
mod slice;
mod word;

pub use atomic_bitmap::AtomicBitmap;
pub use byte_log::ByteLog;
pub use page_size::PageSize;
pub use share::dirty_share;
pub use slice::BaseSlice;

/// A bitmap by its meaning: a page size, a page count, a mark base, and a bit for each page.
pub trait Bitmap {
    ghost means: { Self → Meaning };

    // The storage that was lent, by name and length, the same after every call: so its lender knows it when it comes back.
    ghost lent: { Self → List ℕ };

    // A page has a byte, and the last page starts within 64 bits.
    ghost paged: { (x : Self) → Paged (means x) };

    ghost bounded: { (x : Self) → Bounded (means x) };

    /// Marks the pages of `len` bytes from `offset` on.
    fn mark_dirty(&mut self, offset: usize, len: usize)
        ensures marks { means self.new ≡ marked (means self.old) offset len }
        ensures lent { lent self.new ≡ lent self.old };

    /// Whether the page at `offset` is dirty.
    fn dirty_at(&self, offset: usize) -> bool
        ensures { result ≡ dirty_at (means self.now) offset };

    /// The same bitmap, from `offset` on.
    fn slice_at(self, offset: usize) -> BaseSlice<Self>
    where
        Self: Sized,
        ensures inner { result.inner ≡ self }
        ensures offset { result.base_offset ≡ offset }
    {
        BaseSlice::new(self, offset)
    }
}

/// A bitmap that can be cleaned, and tells what it means but for its pages.
pub trait CleanBitmap: Bitmap {
    /// The page size.
    fn page_size(&self) -> PageSize
        ensures { result.value ≡ (Self.Bitmap.means self.now).page };

    /// The page count.
    fn page_count(&self) -> usize
        ensures { result ≡ (Self.Bitmap.means self.now).count };

    /// The mark base.
    fn mark_base(&self) -> usize
        ensures { result ≡ (Self.Bitmap.means self.now).base };

    /// Makes clean the pages that `mark_dirty` would make dirty.
    fn reset_addr_range(&mut self, start_addr: usize, len: usize)
        ensures cleans { Self.Bitmap.means self.new ≡ cleaned (Self.Bitmap.means self.old) start_addr len }
        ensures lent { Self.Bitmap.lent self.new ≡ Self.Bitmap.lent self.old };
}
