//! Examples run: expected values come from the definitions of the formats, or from runs of vm-memory 0.18.0.
use bitmap::{AtomicBitmap, BaseSlice, Bitmap, ByteLog, CleanBitmap, PageSize, dirty_share};
use byte_valued::{AtomicAccess, ByteValued, LineHead};
use std::test::Fail;

// A page size that a test is run with.
pub(crate) fn page_size(bytes: usize) -> Result<PageSize, Fail> {
    PageSize::new(bytes).ok_or_else(|| Fail::new("no page size"))
}

// The dirty pages of a bitmap as the bits of a number, page 0 the lowest.
fn pages<B: CleanBitmap>(bitmap: &B) -> u64 {
    let mut found = 0;
    for n in 0..64usize {
        let at = n
            .wrapping_mul(bitmap.page_size().get())
            .wrapping_sub(bitmap.mark_base());
        if n < bitmap.page_count() && bitmap.dirty_at(at) {
            found |= 1 << n;
        }
    }
    found
}

#[test]
fn integers_lie_least_significant_byte_first(rt: HostRuntime) {
    let mut buf = [9; 4];
    assert!(rt; 0x1234u16.write_to(&mut buf).is_some());
    assert_eq!(rt; buf, [0x34, 0x12, 9, 9], "a longer buffer keeps its rest");
    assert!(rt; (-2i16).write_to(&mut buf).is_some());
    assert_eq!(rt; buf, [254, 255, 9, 9]);
    assert_eq!(rt; i16::from_slice(&[254, 255]), Some(-2));
    assert_eq!(rt; u16::from_slice(&[0x34, 0x12]), Some(0x1234));
    let mut wide = [1; 8];
    assert!(rt; i64::MIN.write_to(&mut wide).is_some());
    assert_eq!(rt; wide, [0, 0, 0, 0, 0, 0, 0, 128]);
    assert_eq!(rt; i64::from_slice(&wide), Some(i64::MIN));
}

#[test]
fn other_lengths_make_nothing(rt: HostRuntime) {
    let mut short = [7; 3];
    assert!(rt; 5u32.write_to(&mut short).is_none());
    assert_eq!(rt; short, [7, 7, 7], "a short buffer stays as it is");
    assert_eq!(rt; u32::from_slice(&[1, 2, 3]), None);
    assert_eq!(rt; u32::from_slice(&[1, 2, 3, 4, 5]), None);
    assert!(rt; <u8 as AtomicAccess>::alignment() == 1);
    assert!(rt; <i64 as AtomicAccess>::alignment() == 8);
}

#[test]
fn a_line_head_is_twelve_bytes(rt: HostRuntime) {
    let head = LineHead {
        register: 0x01020304,
        leaf: 0x1112,
        line: 0x2122,
        left: 0x3132,
        width: 0x4142,
    };
    let mut buf = [0; 12];
    assert!(rt; head.write_to(&mut buf).is_some());
    assert_eq!(rt;
        buf,
        [4, 3, 2, 1, 0x12, 0x11, 0x22, 0x21, 0x32, 0x31, 0x42, 0x41]
    );
    assert_eq!(rt; LineHead::from_slice(&buf), Some(head));
    assert_eq!(rt; LineHead::from_slice(&[0; 12]), Some(LineHead::zeroed()));
    assert_eq!(rt; LineHead::from_slice(&[0; 11]), None);
}

#[test]
fn ranges_of_an_atomic_bitmap(rt: HostRuntime) -> Result<(), Fail> {
    let page = page_size(128)?;
    let mut words = [!0; 2];
    let mut bitmap = AtomicBitmap::new(1024, page, &mut words);
    assert_eq!(rt;
        (bitmap.len(), bitmap.byte_size(), pages(&bitmap)),
        (8, 1024, 0)
    );
    bitmap.set_addr_range(128, 129);
    assert_eq!(rt; pages(&bitmap), 0b0000_0110);
    assert!(rt;
        !bitmap.is_addr_set(127)
            && bitmap.is_addr_set(128)
            && bitmap.is_addr_set(383)
            && !bitmap.is_addr_set(384)
    );
    bitmap.set_bit(7);
    bitmap.set_bit(8);
    assert_eq!(rt; pages(&bitmap), 0b1000_0110);
    bitmap.reset_bit(2);
    bitmap.reset_addr_range(0, 200);
    assert_eq!(rt; pages(&bitmap), 0b1000_0000);
    bitmap.set_addr_range(usize::MAX - 10, 100);
    bitmap.set_addr_range(5, 0);
    assert_eq!(rt; pages(&bitmap), 0b1000_0000);
    bitmap.set_addr_range(600, usize::MAX);
    assert_eq!(rt; pages(&bitmap), 0b1111_0000);
    assert_eq!(rt;
        words,
        [0b1111_0000, 0],
        "the second word was cleared at making"
    );
    Ok(())
}

#[test]
fn a_slice_at_the_top_wraps_its_start_only(rt: HostRuntime) -> Result<(), Fail> {
    let page = page_size(128)?;
    let mut words = [0];
    let mut slice = AtomicBitmap::new(1025, page, &mut words).slice_at(usize::MAX);
    assert_eq!(rt; slice.page_count(), 9);
    slice.mark_dirty(1, 1);
    slice.mark_dirty(0, 2);
    assert_eq!(rt; pages(&slice), 1);
    assert!(rt; slice.dirty_at(1) && !slice.dirty_at(0));
    let mut inner = slice.slice_at(300);
    inner.mark_dirty(0, 1);
    assert_eq!(rt; (pages(&inner), inner.mark_base()), (0b101, 299));
    inner.reset_addr_range(0, 1);
    assert_eq!(rt; pages(&inner), 1);
    Ok(())
}

#[test]
fn a_log_keeps_its_bytes(rt: HostRuntime) {
    let mut bytes = [0x80, 0xf0, 0xaa];
    let mut log = ByteLog::new(10 * 4096, &mut bytes);
    assert_eq!(rt; (log.len(), pages(&log)), (10, 0b00_1000_0000));
    log.mark_dirty(4095, 2);
    log.mark_dirty(9 * 4096, usize::MAX);
    log.reset_addr_range(7 * 4096, 1);
    assert_eq!(rt; bytes, [0x03, 0xf2, 0xaa], "bits past the tenth page stay");
}

#[test]
fn few_words_make_few_pages(rt: HostRuntime) -> Result<(), Fail> {
    let page = page_size(1)?;
    let mut words = [0];
    let mut bitmap = AtomicBitmap::new(1000, page, &mut words);
    assert_eq!(rt; bitmap.len(), 64);
    bitmap.mark_dirty(60, 100);
    assert_eq!(rt; words, [0xf000_0000_0000_0000]);
    Ok(())
}

#[test]
fn no_pages(rt: HostRuntime) {
    let mut none = ();
    none.mark_dirty(0, usize::MAX);
    none.reset_addr_range(0, 1);
    assert_eq!(rt;
        (none.page_size().get(), none.page_count(), none.mark_base()),
        (1, 0, 0)
    );
    assert!(rt; !none.dirty_at(0));
    assert!(rt; PageSize::new(0).is_none());
    let (_, offset) = BaseSlice::new(none, 7).into_parts();
    assert_eq!(rt; offset, 7);
}

#[test]
fn shares(rt: HostRuntime) {
    assert_eq!(rt; dirty_share(2, 3), Some(666));
    assert_eq!(rt; dirty_share(u32::MAX, u32::MAX), Some(1000));
    assert_eq!(rt; dirty_share(0, 5), Some(0));
    assert_eq!(rt; dirty_share(0, 0), None);
    assert_eq!(rt; dirty_share(4, 3), None);
}
