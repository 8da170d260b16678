//! How the bytes of a memory lie on pages.
ghost use Rattle.std.specs.Prelude.{◌≡◌, ◌*◌, ◌<◌, min};
ghost use Rattle.parcel.specs.Parcels.{pages, page_length};

use bitmap::PageSize;

/// A memory of `total` bytes, in pages.
#[derive(Clone, Copy)]
pub(crate) struct Layout {
    pub(crate) page_size: PageSize,
    pub(crate) total: usize,
}

impl Layout {
    // How many pages there are.
    pub(crate) fn count(self) -> usize
        ensures { result ≡ pages self.total self.page_size.value }
    {
        self.page_size.pages(self.total)
    }

    // Where a page starts: past the last one, at the end.
    pub(crate) fn start(self, page: usize) -> usize
        ensures { result ≡ min (page * self.page_size.value) self.total }
    {
        page.saturating_mul(self.page_size.get()).min(self.total)
    }

    // How many bytes one of its pages has, which is not asked again whether it is one.
    pub(crate) fn own_size(self, page: usize) -> usize
        requires { page < pages self.total self.page_size.value }
        ensures { result ≡ page_length self.page_size.value self.total page }
    {
        self.page_size
            .get()
            .min(self.total - page * self.page_size.get())
    }

    // How many bytes a page has: the last one may have fewer than the others.
    pub(crate) fn size(self, page: usize) -> usize
        ensures { result ≡ page_length self.page_size.value self.total page }
    {
        self.page_size.get().min(self.total - self.start(page))
    }
}
