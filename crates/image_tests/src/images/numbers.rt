//! Where the numbers of an image of version 1 are, and in which order of bytes.
use super::*;
use names::{LeastHits, Permission, Record};

// The smallest image with other numbers at these places.
fn with_numbers(alloc: Global, numbers: &[(usize, &[u8; 4])]) -> Result<Vec<u8>, Fail> {
    let mut image = smallest_image(alloc)?;
    for (place, number) in numbers {
        image = altered(alloc, &image, *place, *number)?;
    }
    Ok(image)
}

// How many numbers there are, the first two and the last one.
fn ends_of(numbers: &[u32]) -> (usize, Option<u32>, Option<u32>, Option<u32>) {
    (
        numbers.len(),
        numbers.first().copied(),
        numbers.get(1).copied(),
        numbers.last().copied(),
    )
}

// Whether the numbers of a table are those of the altered image.
fn has_parts(table: &RawTable) -> bool {
    table.default.as_slice() == [0x0102_0304, 5].as_slice()
        && table.base.as_slice() == [6, 7].as_slice()
        && table.accept.as_slice() == [8, 0x900].as_slice()
        && ends_of(&table.next) == (256, Some(10), Some(0), Some(0x000b_0000))
        && ends_of(&table.check) == (256, Some(12), Some(u32::MAX), Some(0x0d00_0000))
}

#[test]
fn parts(rt: HostRuntime) -> Result<(), Fail> {
    let alloc = rt.alloc();
    let image = with_numbers(
        alloc,
        &[
            (20, b"\x04\x03\x02\x01"),
            (24, b"\x05\0\0\0"),
            (28, b"\x06\0\0\0"),
            (32, b"\x07\0\0\0"),
            (36, b"\x08\0\0\0"),
            (40, b"\0\x09\0\0"),
            (44, b"\x0a\0\0\0"),
            (1_064, b"\0\0\x0b\0"),
            (1_068, b"\x0c\0\0\0"),
            (2_088, b"\0\0\0\x0d"),
        ],
    )?;
    let table = tables_and_back(&rt, alloc, &image)?;
    assert!(rt; has_parts(&table));
    Ok(())
}

const fn hits(allow: u16, deny: u16) -> LeastHits {
    LeastHits { allow, deny }
}

fn expect_record(rt: &impl Abort, alloc: Global, image: &[u8], want: Record) -> Result<(), Fail> {
    let table = tables_and_back(rt, alloc, image)?;
    assert!(rt; table.records.as_slice() == [want].as_slice());
    Ok(())
}

// The hits of append aren't stored: they are those of write.
#[test]
fn records(rt: HostRuntime) -> Result<(), Fail> {
    let alloc = rt.alloc();
    let want = Record::from_hits([
        hits(0x0201, 0x0403),
        hits(0x0605, 0x0807),
        hits(0x0a09, 0x0c0b),
        hits(0x0e0d, 0x100f),
        hits(0x1211, 0xff13),
        hits(0x0605, 0x0807),
    ]);
    assert_eq!(rt; want.of(Permission::Lock).allow, 0x0e0d);
    let bytes = b"\x01\x02\x03\x04\x05\x06\x07\x08\x09\x0a\x0b\x0c\x0d\x0e\x0f\x10\x11\x12\x13\xff";
    let image = altered(alloc, &smallest_image(alloc)?, 2_092, bytes)?;
    expect_record(&rt, alloc, &image, want)
}

// The last record of an image: that of the last state, here of `/a`.
#[test]
fn record_of_rules(rt: HostRuntime) -> Result<(), Fail> {
    let image = image_of(rt.alloc(), b"profile p { /a rw, deny /a wl, /a lkm, }")?;
    let want = b"\x01\0\0\0\x01\0\x02\0\x03\0\x02\0\x03\0\0\0\x03\0\0\0";
    assert!(rt; image.ends_with(want));
    Ok(())
}
