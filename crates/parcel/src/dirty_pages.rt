//! The dirty pages of a memory.
ghost use Rattle.std.specs.Prelude.{◌≡◌, ◌+◌, ◌-◌, ◌*◌, ◌≤◌, length, min};
ghost use Rattle.std.specs.List.{find, range_with_len};
ghost use Rattle.std.specs.Iterator.{YieldsFirst, item_count};
ghost use Rattle.bitmap.specs.Pages.{dirty, top};
ghost use Rattle.volatile_memory.specs.Faults.{said};
ghost use Rattle.volatile_memory.specs.Memory.{overlaid, part};
ghost use Rattle.parcel.specs.Parcels.{pages, page_length, dirty_pages, words, bodies, due, sum_of};
ghost use Rattle.parcel.specs.Rules.{dirty_from, cover};

use crate::contents::{Contents, HEAD};
use crate::layout::Layout;
use crate::numbers::{NUMBER, lay, lay_number};
use crate::taking::Taken;
use bitmap::CleanBitmap;
use volatile_memory::Error;

// Whether a page is dirty.
fn is_dirty<B: CleanBitmap>(bitmap: &B, page: usize) -> bool
    ensures { result ≡ dirty (B.Bitmap.means bitmap.now) page }
{
    if page >= bitmap.page_count() {
        return false;
    }
    let start = page * bitmap.page_size().get();
    bitmap.dirty_at(start.wrapping_sub(bitmap.mark_base()))
}

/// The numbers of the dirty pages from `next` up to `end`, rising.
#[derive(Drop)]
pub(crate) struct DirtyNumbers<'a, B> {
    bitmap: &'a B,
    next: usize,
    end: usize,
}

impl<'a, B: CleanBitmap> DirtyNumbers<'a, B> {
    // The first of them.
    fn first(&self) -> Option<usize>
        ensures { result ≡ find (dirty (B.Bitmap.means self.now.bitmap.now)) (range_with_len self.now.next (self.now.end - self.now.next)) }
    {
        let bitmap = self.bitmap;
        (self.next..self.end).find(|page| is_dirty(bitmap, *page))
    }
}

impl<'a, B: CleanBitmap> Iterator for DirtyNumbers<'a, B> {
    type Item = usize;

    ghost next_gives = { YieldsFirst (λ s. dirty_from (dirty (B.Bitmap.means s.bitmap.now)) s.next (s.end - s.next)) };

    ghost remaining = { item_count (λ s. dirty_from (dirty (B.Bitmap.means s.bitmap.now)) s.next (s.end - s.next)) };

    fn next(&mut self) -> Option<usize> {
        let page = self.first()?;
        self.next = page + 1;
        Some(page)
    }
}

/// A memory, and the bitmap that tells which of its pages are dirty.
// No model: the halves of a pair, `.0` and `.1`, would say less in the clauses than the names of the fields.
#[derive(Drop)]
pub(crate) struct DirtyPages<'a, B> {
    pub(crate) memory: &'a [u8],
    pub(crate) bitmap: &'a B,
}

impl<'a, B: CleanBitmap> DirtyPages<'a, B> {
    fn layout(&self) -> Layout
        ensures page { result.page_size.value ≡ (B.Bitmap.means self.now.bitmap.now).page }
        ensures total { result.total ≡ length self.now.memory.now }
    {
        Layout {
            page_size: self.bitmap.page_size(),
            total: self.memory.len(),
        }
    }

    // The bitmap has to have every page of the memory.
    pub(crate) fn check_cover(&self) -> Result<(), Error>
        ensures { said (λ _. 0) result ≡ cover (B.Bitmap.means self.now.bitmap.now) self.now.memory.now }
    {
        let needed = self.layout().count();
        let pages = self.bitmap.page_count();
        let base = self.bitmap.mark_base();
        if base != 0 || pages < needed {
            return Err(Error::Uncovered { needed, pages });
        }
        Ok(())
    }

    // Their numbers.
    fn numbers(&self) -> DirtyNumbers<'a, B>
        ensures { dirty_from (dirty (B.Bitmap.means result.bitmap.now)) result.next (result.end - result.next) ≡ dirty_pages (B.Bitmap.means self.now.bitmap.now) self.now.memory.now }
    {
        DirtyNumbers {
            bitmap: self.bitmap,
            next: 0,
            end: self.layout().count(),
        }
    }

    // The bytes of a page.
    fn bytes(&self, page: usize) -> &'a [u8]
        ensures { result.now ≡ part self.now.memory.now (page * (B.Bitmap.means self.now.bitmap.now).page) (B.Bitmap.means self.now.bitmap.now).page }
    {
        let layout = self.layout();
        let start = layout.start(page);
        &self.memory[start..start + layout.size(page)]
    }

    // What a parcel of them comes to, as far as a number can tell its length.
    pub(crate) fn measure(&self) -> Taken
        ensures length { result.length ≡ min (length (due (B.Bitmap.means self.now.bitmap.now) self.now.memory.now)) top }
        ensures pages { result.pages ≡ length (dirty_pages (B.Bitmap.means self.now.bitmap.now) self.now.memory.now) }
    {
        let layout = self.layout();
        let mut length = HEAD;
        // Counted in the same pass: `count` would look at every page of the bitmap a second time.
        let mut pages = 0;
        for page in self.numbers() {
            length = length
                .saturating_add(NUMBER)
                .saturating_add(layout.size(page));
            pages += 1;
        }
        Taken { length, pages }
    }

    // Lays their numbers into a buffer from `start` on, and says where they end.
    fn lay_numbers(&self, buf: &mut [u8], start: usize) -> usize
        requires { start + 8 * length (dirty_pages (B.Bitmap.means self.now.bitmap.now) self.now.memory.now) ≤ length buf.old }
        ensures end { result ≡ start + 8 * length (dirty_pages (B.Bitmap.means self.now.bitmap.now) self.now.memory.now) }
        ensures after { buf.new ≡ overlaid buf.old start (words (dirty_pages (B.Bitmap.means self.now.bitmap.now) self.now.memory.now)) }
    {
        let mut at = start;
        for page in self.numbers() {
            at = lay_number(buf, at, page);
        }
        at
    }

    // Lays their bytes into a buffer from `start` on.
    fn lay_bytes(&self, buf: &mut [u8], start: usize)
        requires { start + length (bodies (B.Bitmap.means self.now.bitmap.now).page self.now.memory.now (dirty_pages (B.Bitmap.means self.now.bitmap.now) self.now.memory.now)) ≤ length buf.old }
        ensures { buf.new ≡ overlaid buf.old start (bodies (B.Bitmap.means self.now.bitmap.now).page self.now.memory.now (dirty_pages (B.Bitmap.means self.now.bitmap.now) self.now.memory.now)) }
    {
        let mut at = start;
        for page in self.numbers() {
            at = lay(buf, at, self.bytes(page));
        }
    }

    // Lays the parcel of them, which are `count`, at the start of a buffer.
    pub(crate) fn lay_parcel(&self, buf: &mut [u8], count: usize)
        requires count { count ≡ length (dirty_pages (B.Bitmap.means self.now.bitmap.now) self.now.memory.now) }
        requires room { length (due (B.Bitmap.means self.now.bitmap.now) self.now.memory.now) ≤ length buf.old }
        ensures { buf.new ≡ overlaid buf.old 0 (due (B.Bitmap.means self.now.bitmap.now) self.now.memory.now) }
    {
        let layout = self.layout();
        let contents = Contents {
            page_size: layout.page_size.get(),
            pages: count,
            total: layout.total,
        };
        let head = contents.lay(buf);
        let numbers = self.lay_numbers(buf, head);
        self.lay_bytes(buf, numbers);
    }
}
