//! Parcels as files: taken from a memory image and its dirty log, applied to a copy, and shown.
use crate::files::{read_file, write_file};
use bitmap::ByteLog;
use parcel::{Contents, apply, inspect, page_numbers, parcel_len, take};
use std::alloc::{AllocError, Global};
use std::fmt;
use text::PageRanges;
use thiserror::Error;
use volatile_memory::Error as Refusal;

/// Why there is no parcel, or none is applied.
#[derive(Debug, Drop, Error)]
pub(crate) enum ParcelError {
    #[error(transparent)]
    Refused(#[from] Refusal),
    #[error(transparent)]
    OutOfMemory(#[from(alloc)] AllocError),
}

/// What a parcel carries, and its pages.
#[derive(Drop)]
struct Listing {
    length: usize,
    contents: Contents,
    pages: PageRanges,
}

impl Listing {
    fn new(heap: Global, parcel: &[u8]) -> Result<Listing, ParcelError> {
        let contents = inspect(parcel)?;
        let pages = page_numbers(parcel).collect(heap)?;
        Ok(Listing {
            length: parcel.len(),
            contents,
            pages,
        })
    }
}

impl fmt::Display for Listing {
    fn fmt<W: fmt::Write>(&self, f: &mut fmt::Formatter<W>) -> fmt::Result {
        let length = self.length;
        let total = self.contents.total;
        let page_size = self.contents.page_size;
        let count = self.contents.pages;
        writeln!(f, "parcel: {length} bytes")?;
        writeln!(f, "memory: {total} bytes, pages of {page_size} bytes")?;
        write!(f, "pages carried: {count}")?;
        if count > 0 {
            let pages = &self.pages;
            write!(f, ": {pages}")?;
        }
        Ok(())
    }
}

// The parcel of the pages that a log has dirty. They are clean in it then.
fn parcel_of(heap: Global, memory: &[u8], log: &mut [u8]) -> Result<Vec<u8>, ParcelError> {
    let mut bitmap = ByteLog::new(memory.len(), log);
    let length = parcel_len(memory, &bitmap)?;
    let mut parcel = vec![in heap; 0u8; length]?;
    let taken = take(memory, &mut bitmap, parcel.as_mut_slice())?;
    parcel.truncate(taken.length);
    Ok(parcel)
}

/// Takes a parcel from a memory image and its dirty log. The log is cleared once the parcel is on the disk.
pub(crate) fn take_files(
    rt: &HostRuntime,
    memory: &str,
    log: &str,
    parcel: &str,
) -> anyhow::Result<()> {
    let heap = rt.alloc();
    let image = read_file(rt, memory)?;
    let mut marks = read_file(rt, log)?;
    let bytes = parcel_of(heap, image.as_slice(), marks.as_mut_slice())?;
    let listing = Listing::new(heap, bytes.as_slice())?;
    write_file(rt, parcel, bytes.as_slice())?;
    write_file(rt, log, marks.as_slice())?;
    rt.println(listing)?;
    Ok(())
}

/// Applies a parcel to a copy. A parcel that is refused leaves the copy's file as it was.
pub(crate) fn apply_files(rt: &HostRuntime, copy: &str, parcel: &str) -> anyhow::Result<()> {
    let heap = rt.alloc();
    let mut image = read_file(rt, copy)?;
    let bytes = read_file(rt, parcel)?;
    apply(image.as_mut_slice(), bytes.as_slice())?;
    let listing = Listing::new(heap, bytes.as_slice())?;
    write_file(rt, copy, image.as_slice())?;
    rt.println(listing)?;
    Ok(())
}

/// Lists the pages of a parcel.
pub(crate) fn show_file(rt: &HostRuntime, parcel: &str) -> anyhow::Result<()> {
    let bytes = read_file(rt, parcel)?;
    let listing = Listing::new(rt.alloc(), bytes.as_slice())?;
    rt.println(listing)?;
    Ok(())
}
