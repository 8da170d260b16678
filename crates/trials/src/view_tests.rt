//! Views of a root of 10,000 bytes at the address 4096, with three pages of 4096.
use crate::tests::page_size;
use bitmap::AtomicBitmap;
use byte_valued::LineHead;
use std::alloc::{AllocError, Global};
use std::test::Fail;
use volatile_memory::{Error, VolatileArrayRef, VolatileRef, VolatileSlice};

fn zeros(heap: Global) -> Result<Vec<u8>, AllocError> {
    vec![in heap; 0; 10000]
}

#[test]
fn cuts_are_refused_as_they_should(rt: HostRuntime) -> Result<(), Fail> {
    let root = VolatileSlice::new(4096, 10000)?;
    assert_eq!(rt; root.subslice(9000, 1000)?.len(), 1000);
    assert_eq!(rt;
        root.subslice(9000, 1001).err(),
        Some(Error::OutOfBounds { addr: 10001 })
    );
    assert_eq!(rt;
        root.subslice(usize::MAX, 1).err(),
        Some(Error::Overflow {
            base: usize::MAX,
            offset: 1,
        })
    );
    assert!(rt; root.offset(10000)?.is_empty());
    assert_eq!(rt;
        root.offset(10001).err(),
        Some(Error::OutOfBounds { addr: 14097 })
    );
    assert_eq!(rt; root.get_array_ref::<LineHead>(0, 833)?.len(), 833);
    assert_eq!(rt;
        root.get_array_ref::<LineHead>(0, 834).err(),
        Some(Error::OutOfBounds { addr: 10008 })
    );
    let many: usize = 1 << 62;
    assert_eq!(rt;
        root.get_array_ref::<u16>(0, many).err(),
        Some(Error::TooBig {
            nelements: many,
            size: 2,
        })
    );
    Ok(())
}

#[test]
fn bytes_are_written_and_read(rt: HostRuntime) -> Result<(), Fail> {
    let mut memory = zeros(rt.alloc())?;
    let page = page_size(4096)?;
    let mut words = [0];
    let mut bitmap = AtomicBitmap::new(10000, page, &mut words);
    let root = VolatileSlice::new(4096, 10000)?;
    assert_eq!(rt; root.write(&mut memory, &mut bitmap, &[], 20000), Ok(0));
    assert_eq!(rt;
        root.write(&mut memory, &mut bitmap, &[1], 10000),
        Err(Error::OutOfBounds { addr: 10000 })
    );
    let partial = Error::PartialBuffer {
        expected: 5,
        completed: 2,
    };
    assert_eq!(rt;
        root.write_slice(&mut memory, &mut bitmap, &[1, 2, 3, 4, 5], 9998),
        Err(partial)
    );
    let mut buf = [9; 4];
    assert_eq!(rt; root.read(&memory, &mut buf, 9997), Ok(3));
    assert_eq!(rt; buf, [0, 1, 2, 9]);
    assert_eq!(rt;
        root.read_slice(&memory, &mut buf, 9998),
        Err(Error::PartialBuffer {
            expected: 4,
            completed: 2,
        })
    );
    assert_eq!(rt;
        root.read(&[0], &mut buf, 0),
        Err(Error::Foreign {
            end: 10000,
            length: 1,
        })
    );
    assert_eq!(rt; words, [0b100], "page 2 alone is dirty");
    Ok(())
}

#[test]
fn elements_are_stored_and_loaded(rt: HostRuntime) -> Result<(), Fail> {
    let mut memory = zeros(rt.alloc())?;
    let page = page_size(4096)?;
    let mut words = [0];
    let mut bitmap = AtomicBitmap::new(10000, page, &mut words);
    let root = VolatileSlice::new(4096, 10000)?;
    assert_eq!(rt;
        root.store(&mut memory, &mut bitmap, 7u32, 2),
        Err(Error::Misaligned {
            addr: 4098,
            alignment: 4,
        })
    );
    assert_eq!(rt;
        root.store(&mut memory, &mut bitmap, 7u32, 9998),
        Err(Error::OutOfBounds { addr: 10002 })
    );
    root.store(&mut memory, &mut bitmap, 0x01020304u32, 8)?;
    assert_eq!(rt; root.load::<u32>(&memory, 8), Ok(0x01020304));
    assert_eq!(rt; root.read_obj::<u16>(&memory, 9), Ok(0x0203));
    let head = LineHead {
        register: 1,
        leaf: 2,
        line: 3,
        left: 4,
        width: 5,
    };
    let array = root.get_array_ref::<LineHead>(4080, 3)?;
    array.store(&mut memory, &mut bitmap, 2, head)?;
    assert_eq!(rt; array.load(&memory, 2), Ok(head));
    assert_eq!(rt;
        array.load(&memory, 3),
        Err(Error::NoElement { index: 3, count: 3 })
    );
    assert_eq!(rt; array.ref_at(2)?.load(&memory), Ok(head));
    assert_eq!(rt; array.ptr_guard(&memory)?.len(), 36);
    assert_eq!(rt; words, [0b11]);
    Ok(())
}

#[test]
fn elements_are_copied(rt: HostRuntime) -> Result<(), Fail> {
    let mut memory = zeros(rt.alloc())?;
    let page = page_size(4096)?;
    let mut words = [0];
    let mut bitmap = AtomicBitmap::new(10000, page, &mut words);
    let root = VolatileSlice::new(4096, 10000)?;
    let head = LineHead {
        register: 0xff,
        leaf: 1,
        line: 1,
        left: 1,
        width: 1,
    };
    let view = root.subslice(4080, 100)?;
    view.copy_from(&mut memory, &mut bitmap, &[head; 9])?;
    let mut heads = [LineHead {
        register: 0,
        leaf: 0,
        line: 0,
        left: 0,
        width: 0,
    }; 9];
    assert_eq!(rt; view.copy_to(&memory, &mut heads), Ok(8));
    assert_eq!(rt; heads[7], head);
    assert_eq!(rt; heads[8].register, 0);
    assert_eq!(rt; words, [0b11]);
    Ok(())
}

#[test]
fn overlapping_bytes_are_moved_as_they_stood(rt: HostRuntime) -> Result<(), Fail> {
    let mut memory = [1, 2, 3, 4, 5, 6];
    let root = VolatileSlice::new(0, 6)?;
    let mut none = ();
    root.subslice(0, 4)?
        .copy_to_volatile_slice(&mut memory, &root.subslice(2, 4)?, &mut none)?;
    assert_eq!(rt; memory, [1, 2, 1, 2, 3, 4]);
    root.subslice(2, 4)?
        .copy_to_volatile_slice(&mut memory, &root.subslice(1, 5)?, &mut none)?;
    assert_eq!(rt; memory, [1, 1, 2, 3, 4, 4]);
    let mut other = [0; 3];
    let small = VolatileSlice::new(0, 3)?;
    root.copy_to_other_memory(&memory, &small, &mut other, &mut none)?;
    assert_eq!(rt; other, [1, 1, 2]);
    Ok(())
}
