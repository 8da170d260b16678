//! The pages of a bitmap as text.
ghost use Rattle.std.specs.Prelude.{◌≡◌, IfOk, map};
ghost use Rattle.std.specs.List.{range_with_len};
ghost use Rattle.bitmap.specs.Tracked.{tracked};
ghost use Rattle.text.specs.PageMaps.{Shows};

use bitmap::AtomicBitmap;
use std::alloc::{AllocError, Global};
use std::fmt;

/// The most pages that a program tracks.
pub const MOST_PAGES: usize = 1048576;

// How many pages stand on a line.
const PAGES_A_LINE: usize = 64;

/// Whether each page of a bitmap is dirty.
#[derive(Drop)]
pub struct PageMap {
    pages: Vec<bool>,
}

impl PageMap {
    /// The pages as they are now.
    #[tactic(auto, using(crate::proofs::Shown::shown))]
    pub fn new(heap: Global, map: &AtomicBitmap) -> Result<PageMap, AllocError>
        ensures { IfOk result (λ m. Shows (tracked map.now) m.pages.items) }
    {
        let pages = bits_of_pages(heap, map)?;
        Ok(PageMap { pages })
    }
}

// The bits of a bitmap's pages. All are pages that it has, so each bit says whether its page is dirty.
fn bits_of_pages(heap: Global, bitmap: &AtomicBitmap) -> Result<Vec<bool>, AllocError>
    ensures { IfOk result (λ v. v.items ≡ map (tracked bitmap.now).bit (range_with_len 0 (tracked bitmap.now).count)) }
{
    (0..bitmap.len())
        .map(|page| bitmap.stored_bit(page))
        .collect(heap)
}

// Lines of pages behind the number of the first: `#` for dirty, `.` for clean.
impl fmt::Display for PageMap {
    fn fmt<W: fmt::Write>(&self, f: &mut fmt::Formatter<W>) -> fmt::Result {
        write_pages(f, self.pages.as_slice())
    }
}

fn write_pages<W: fmt::Write>(f: &mut fmt::Formatter<W>, pages: &[bool]) -> fmt::Result {
    let firsts = (0..pages.len()).step_by(PAGES_A_LINE);
    for (first, line) in firsts.zip(pages.chunks(PAGES_A_LINE)) {
        write!(f, "{first:>8}  ")?;
        write_marks(f, line)?;
        f.write_char('\n')?;
    }
    Ok(())
}

fn write_marks<W: fmt::Write>(f: &mut fmt::Formatter<W>, pages: &[bool]) -> fmt::Result {
    for dirty in pages {
        f.write_str(if *dirty { "#" } else { "." })?;
    }
    Ok(())
}
