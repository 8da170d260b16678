//! Claims and parcels, on ten bytes in pages of four.
use bitmap::{AtomicBitmap, BaseSlice, PageSize};
use parcel::{Contents, Taken, apply, inspect, page_number, page_numbers, take};
use std::test::Fail;
use volatile_memory::{Error, Rule, VolatileSlice};

// The parcel of pages 0 and 2 of the bytes 1, 0, .., 0, 2.
const TWO_PAGES: [u8; 46] = [
    4, 0, 0, 0, 0, 0, 0, 0, 2, 0, 0, 0, 0, 0, 0, 0, 10, 0, 0, 0, 0, 0, 0, 0, 0, 0, 0, 0, 0, 0, 0,
    0, 2, 0, 0, 0, 0, 0, 0, 0, 1, 0, 0, 0, 0, 2,
];

// Pages of four bytes.
fn pages_of_four() -> Result<PageSize, Fail> {
    PageSize::new(4).ok_or_else(|| Fail::new("no page size"))
}

#[test]
fn a_claim_marks_when_it_is_settled(rt: HostRuntime) -> Result<(), Fail> {
    let page = pages_of_four()?;
    let mut memory = [0; 10];
    let mut words = [0];
    let mut bitmap = AtomicBitmap::new(10, page, &mut words);
    let claim = VolatileSlice::new(4096, 10)?
        .subslice(4, 4)?
        .ptr_guard_mut();
    let stored = claim.put(&mut memory, &[7], 1);
    let dirty_before = bitmap.is_bit_set(1);
    claim.settle(&mut bitmap);
    let dirty_after = bitmap.is_bit_set(1);
    assert_eq!(rt; stored, Ok(1));
    assert_eq!(rt; memory, [0, 0, 0, 0, 0, 7, 0, 0, 0, 0]);
    assert_eq!(rt; (dirty_before, dirty_after), (false, true));
    assert_eq!(rt; words, [0b10]);
    Ok(())
}

#[test]
fn dirty_pages_are_taken(rt: HostRuntime) -> Result<(), Fail> {
    let page = pages_of_four()?;
    let mut memory = [0; 10];
    let mut words = [0];
    let mut bitmap = AtomicBitmap::new(10, page, &mut words);
    let root = VolatileSlice::new(4096, 10)?;
    root.write(&mut memory, &mut bitmap, &[1], 0)?;
    root.write(&mut memory, &mut bitmap, &[2], 9)?;
    let mut short = [9; 45];
    assert_eq!(rt;
        take(&memory, &mut bitmap, &mut short),
        Err(Error::NoRoom { needed: 46 })
    );
    assert_eq!(rt; short[0], 9);
    let mut buf = [9; 47];
    assert_eq!(rt;
        take(&memory, &mut bitmap, &mut buf),
        Ok(Taken {
            length: 46,
            pages: 2,
        })
    );
    assert_eq!(rt; &buf[0..46], &TWO_PAGES[0..46]);
    assert_eq!(rt; buf[46], 9, "the rest stays");
    assert_eq!(rt; words, [0], "all pages are clean");
    Ok(())
}

#[test]
fn a_bitmap_has_to_cover_the_memory(rt: HostRuntime) {
    let mut buf = [0; 100];
    assert_eq!(rt;
        take(&[1, 2], &mut (), &mut buf),
        Err(Error::Uncovered {
            needed: 2,
            pages: 0,
        })
    );
    assert_eq!(rt;
        take(&[], &mut (), &mut buf),
        Ok(Taken {
            length: 24,
            pages: 0,
        })
    );
    let mut shifted = BaseSlice::new((), 1);
    assert_eq!(rt;
        take(&[], &mut shifted, &mut buf),
        Err(Error::Uncovered {
            needed: 0,
            pages: 0,
        })
    );
}

#[test]
fn a_parcel_is_applied(rt: HostRuntime) -> Result<(), Fail> {
    let mut copy = [8; 10];
    apply(&mut copy, &TWO_PAGES)?;
    assert_eq!(rt; copy, [1, 0, 0, 0, 8, 8, 8, 8, 0, 2]);
    assert_eq!(rt;
        inspect(&TWO_PAGES),
        Ok(Contents {
            page_size: 4,
            pages: 2,
            total: 10,
        })
    );
    let numbers = [0, 1, 2].map(|index| page_number(&TWO_PAGES, index));
    assert_eq!(rt; numbers, [Some(0), Some(2), None]);
    assert_eq!(rt; page_number(&TWO_PAGES[0..39], 1), None, "no second number");
    let mut carried = page_numbers(&TWO_PAGES);
    assert_eq!(rt;
        (carried.next(), carried.next(), carried.next()),
        (Some(0), Some(2), None)
    );
    assert_eq!(rt;
        inspect(&TWO_PAGES[0..45]),
        Err(Error::BadParcel {
            rule: Rule::WrongLength,
            place: 45,
        })
    );
    Ok(())
}

// The parcel above, with another byte at one place.
fn changed(place: usize, byte: u8) -> [u8; 46] {
    let mut parcel = TWO_PAGES;
    if place < 46 {
        parcel[place] = byte;
    }
    parcel
}

fn refusal(parcel: &[u8]) -> Option<Error> {
    apply(&mut [8; 10], parcel).err()
}

fn broken(rule: Rule, place: usize) -> Option<Error> {
    Some(Error::BadParcel { rule, place })
}

#[test]
fn a_bad_parcel_is_refused_by_the_first_rule_it_breaks(rt: HostRuntime) {
    assert_eq!(rt; refusal(&TWO_PAGES[0..23]), broken(Rule::ShortHead, 23));
    assert_eq!(rt; refusal(&changed(0, 0)), broken(Rule::NoPageSize, 0));
    assert_eq!(rt; refusal(&changed(16, 9)), broken(Rule::OtherLength, 16));
    assert_eq!(rt;
        refusal(&changed(8, 4)),
        broken(Rule::TooManyPages, 8),
        "four pages of three"
    );
    assert_eq!(rt;
        refusal(&TWO_PAGES[0..39]),
        broken(Rule::TooManyPages, 8),
        "no second number"
    );
    assert_eq!(rt;
        refusal(&changed(24, 3)),
        broken(Rule::WrongPage, 24),
        "no such page"
    );
    assert_eq!(rt;
        refusal(&changed(32, 0)),
        broken(Rule::WrongPage, 32),
        "twice the same page"
    );
    assert_eq!(rt; refusal(&TWO_PAGES[0..45]), broken(Rule::WrongLength, 45));
    assert_eq!(rt;
        refusal(&changed(8, 1)),
        broken(Rule::WrongLength, 36),
        "one page, and bytes of two"
    );
}

#[test]
fn a_broken_rule_is_shown_as_its_number(rt: HostRuntime) -> Result<(), Fail> {
    let error = Error::BadParcel {
        rule: Rule::ShortHead,
        place: 3,
    };
    let shown = format!(in rt.alloc(); "{error:?} {error:02?}")?;
    assert_eq!(rt;
        shown.as_str(),
        "BadParcel { rule: 1, place: 3 } BadParcel { rule: 01, place: 03 }"
    );
    Ok(())
}
