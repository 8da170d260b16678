//! The memory that a trace is of.
ghost use Rattle.std.specs.Prelude.{◌≡◌, ◌<◌, ◌≤◌, IfOk, IfErr};
ghost use Rattle.bitmap.specs.Pages.{ceiling};
ghost use Rattle.monitor.specs.declared.memory.TooManyPages.TheVariants.{InBitmap, InLog};

use bitmap::PageSize;
use text::MOST_PAGES;
use thiserror::Error;

// How many bytes a page of the log has.
const LOG_PAGE_SIZE: usize = 4096;

/// A memory of `byte_size` bytes, in pages of `page_size`, with no more pages than are tracked.
#[derive(Clone, Copy)]
pub(crate) struct Memory {
    pub(crate) byte_size: usize,
    pub(crate) page_size: PageSize,
    ghost few: { ceiling byte_size page_size.value ≤ 1048576 },
    ghost logged: { ceiling byte_size 4096 ≤ 1048576 },
}

/// More pages than are tracked, in the bitmap or in the log.
#[derive(Clone, Copy, Debug, Error)]
pub(crate) enum TooManyPages {
    #[error("{0} pages, and at most {most} are tracked", most = MOST_PAGES)]
    InBitmap(usize),
    #[error("{0} pages of the log, and at most {most} are tracked", most = MOST_PAGES)]
    InLog(usize),
}

// How many pages of the log a number of bytes takes.
fn log_pages(byte_size: usize) -> usize
    ensures { result ≡ ceiling byte_size 4096 }
{
    byte_size.div_ceil(LOG_PAGE_SIZE)
}

impl Memory {
    /// The memory, unless it has too many pages.
    pub(crate) fn new(byte_size: usize, page_size: PageSize) -> Result<Memory, TooManyPages>
        ensures made { IfOk result (λ m. (m.byte_size ≡ byte_size) × (m.page_size ≡ page_size)) }
        ensures refused { IfErr result (λ e. elim e [ InBitmap n ↦ (n ≡ ceiling byte_size page_size.value) × (1048576 < n) | InLog n ↦ (n ≡ ceiling byte_size 4096) × (1048576 < n) ]) }
    {
        let pages = page_size.pages(byte_size);
        if pages > MOST_PAGES {
            return Err(TooManyPages::InBitmap(pages));
        }
        let log_pages = log_pages(byte_size);
        if log_pages > MOST_PAGES {
            return Err(TooManyPages::InLog(log_pages));
        }
        Ok(Memory {
            byte_size,
            page_size,
        })
    }

    /// How many pages it has in the bitmap.
    pub(crate) fn pages(&self) -> usize
        ensures { result ≡ ceiling self.now.byte_size self.now.page_size.value }
    {
        self.page_size.pages(self.byte_size)
    }

    /// How many pages it has in the log.
    pub(crate) fn log_pages(&self) -> usize
        ensures { result ≡ ceiling self.now.byte_size 4096 }
    {
        log_pages(self.byte_size)
    }
}
