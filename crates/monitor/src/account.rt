//! The marks of a trace, and the account of them.
ghost use Rattle.std.specs.Prelude.{◌≡◌, ◌^◌, ◌<◌, not, ◌&&◌, IfOk, OnOk};
ghost use Rattle.bitmap.specs.Pages.{dirty, reaches};
ghost use Rattle.bitmap.specs.Tracked.{tracked};
ghost use Rattle.monitor.specs.Marks.{those, dirty_count, turned as turned_pages, accessed, after, turns, told, Sums, log_of, clean_log, Accounts};

use crate::memory::Memory;
use crate::trace::{Access, Trace};
use bitmap::{AtomicBitmap, Bitmap, ByteLog, CleanBitmap, dirty_share};
use std::alloc::{AllocError, Global};
use std::fmt;
use text::{HexBytes, PageMap, PageRanges};

// How many bytes of the log stand on a line.
const BYTES_A_LINE: usize = 16;

/// An access, and the pages that it turned from clean to dirty.
#[derive(Drop)]
struct Entry {
    access: Access,
    turned: PageRanges,
}

/// How many pages are dirty, of how many, and their share in thousandths.
#[derive(Clone, Copy)]
struct Summary {
    dirty_pages: u32,
    pages: u32,
    share: Option<u32>,
}

/// What the accesses of a trace left.
#[derive(Drop)]
pub(crate) struct Account {
    memory: Memory,
    entries: Vec<Entry>,
    pages: PageMap,
    log: Vec<u8>,
    summary: Summary,
}

impl Account {
    /// Marks the accesses of a trace on a bitmap and on a log, both clean.
    pub(crate) fn new(heap: Global, trace: &Trace) -> Result<Account, AllocError>
        ensures { IfOk result (λ a. Accounts trace.now a) }
    {
        let memory = trace.memory;
        let mut words = vec![in heap; 0u64; memory.pages().div_ceil(64)]?;
        let mut map = AtomicBitmap::new(memory.byte_size, memory.page_size, words.as_mut_slice());
        let entries = mark_all(heap, &mut map, trace.accesses.as_slice())?;
        let pages = PageMap::new(heap, &map)?;
        let summary = Summary::new(&map);
        let log = log_bytes(heap, memory, trace.accesses.as_slice())?;
        Ok(Account {
            memory,
            entries,
            pages,
            log,
            summary,
        })
    }
}

// Marks accesses, and tells what each turned.
fn mark_all(
    heap: Global,
    map: &mut AtomicBitmap,
    accesses: &[Access],
) -> Result<Vec<Entry>, AllocError>
    ensures turns { IfOk result (λ v. told v.items ≡ turns (tracked map.old) accesses.now) }
    ensures means { OnOk result (tracked map.new ≡ after (tracked map.old) accesses.now) }
{
    let mut entries = Vec::new(heap);
    // A loop, since nothing is known of a closure's answers that marks what it captures.
    for access in accesses {
        let turned = mark(heap, map, *access)?;
        entries.push(Entry {
            access: *access,
            turned,
        })?;
    }
    Ok(entries)
}

// Marks an access, and tells which pages it turned.
fn mark(heap: Global, map: &mut AtomicBitmap, access: Access) -> Result<PageRanges, AllocError>
    ensures turned { IfOk result (λ pages. pages ≡ turned_pages (tracked map.old) (tracked map.new)) }
    ensures means { OnOk result (tracked map.new ≡ accessed (tracked map.old) access) }
{
    let turned = clean_pages(heap, map, access)?;
    map.mark_dirty(access.offset, access.len);
    Ok(turned)
}

// The clean pages that an access reaches.
fn clean_pages(heap: Global, map: &AtomicBitmap, access: Access) -> Result<PageRanges, AllocError>
    ensures { IfOk result (λ pages. pages ≡ those (λ n. reaches (tracked map.now) access.offset access.len n && not (dirty (tracked map.now) n)) (tracked map.now).count) }
{
    // Pages that the bitmap has, so the bit of each says whether it is dirty.
    map.page_range(access.offset, access.len)
        .filter(|page| !map.stored_bit(*page))
        .collect(heap)
}

impl Summary {
    fn new(map: &AtomicBitmap) -> Summary
        requires { (tracked map.now).count < 2 ^ 32 }
        ensures { Sums (tracked map.now) result }
    {
        let dirty_pages = dirty_count(map);
        let pages = map.len() as u32;
        Summary {
            dirty_pages,
            pages,
            share: dirty_share(dirty_pages, pages),
        }
    }
}

// How many pages are dirty.
fn dirty_count(map: &AtomicBitmap) -> u32
    requires { (tracked map.now).count < 2 ^ 32 }
    ensures { result ≡ dirty_count (tracked map.now) }
{
    (0..map.len()).filter(|page| map.is_bit_set(*page)).count() as u32
}

// The bytes of a memory's log, with accesses marked.
fn log_bytes(heap: Global, memory: Memory, accesses: &[Access]) -> Result<Vec<u8>, AllocError>
    ensures { IfOk result (λ v. log_of memory v.items ≡ after (clean_log memory) accesses.now) }
{
    let mut bytes = vec![in heap; 0u8; memory.log_pages().div_ceil(8)]?;
    mark_log(memory, bytes.as_mut_slice(), accesses);
    Ok(bytes)
}

// Marks accesses in a memory's log.
fn mark_log(memory: Memory, bytes: &mut [u8], accesses: &[Access])
    ensures { log_of memory bytes.new ≡ after (log_of memory bytes.old) accesses.now }
{
    let mut log = ByteLog::new(memory.byte_size, bytes);
    for access in accesses {
        log.mark_dirty(access.offset, access.len);
    }
}

impl fmt::Display for Account {
    fn fmt<W: fmt::Write>(&self, f: &mut fmt::Formatter<W>) -> fmt::Result {
        let byte_size = self.memory.byte_size;
        let page_size = self.memory.page_size.get();
        let pages = &self.pages;
        let summary = self.summary;
        writeln!(f, "memory: {byte_size} bytes, pages of {page_size} bytes")?;
        writeln!(f, "\naccesses:")?;
        for entry in &self.entries {
            writeln!(f, "  {entry}")?;
        }
        writeln!(f, "\npages:")?;
        write!(f, "{pages}")?;
        writeln!(f, "\nlog:")?;
        write_log(f, self.log.as_slice())?;
        writeln!(f, "\n{summary}")
    }
}

// As a page map's lines, but of bytes: what a line begins with, holds and prints differs, and only the walk is the same.
fn write_log<W: fmt::Write>(f: &mut fmt::Formatter<W>, bytes: &[u8]) -> fmt::Result {
    let firsts = (0..bytes.len()).step_by(BYTES_A_LINE);
    for (first, line) in firsts.zip(bytes.chunks(BYTES_A_LINE)) {
        let bytes = HexBytes(line);
        writeln!(f, "{first:>8} {bytes}")?;
    }
    Ok(())
}

impl fmt::Display for Entry {
    fn fmt<W: fmt::Write>(&self, f: &mut fmt::Formatter<W>) -> fmt::Result {
        let offset = self.access.offset;
        let len = self.access.len;
        let turned = &self.turned;
        write!(f, "offset {offset}, length {len}: turned ")?;
        match turned.as_slice() {
            [] => f.write_str("no page"),
            [range] if range.first == range.last => write!(f, "page {turned}"),
            _ => write!(f, "pages {turned}"),
        }
    }
}

impl fmt::Display for Summary {
    fn fmt<W: fmt::Write>(&self, f: &mut fmt::Formatter<W>) -> fmt::Result {
        let dirty = self.dirty_pages;
        let pages = self.pages;
        writeln!(f, "dirty pages: {dirty} of {pages}")?;
        match self.share {
            Some(share) => write!(f, "dirty share: {share} thousandths"),
            None => write!(f, "dirty share: none"),
        }
    }
}
