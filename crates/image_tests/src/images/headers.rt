//! Images cut, longer, and with another header.
use super::*;
use image_header::{HEADER_LENGTH, image_length};

// What the header of these bytes settles, if they have one: their fault, or their length.
fn settled(bytes: &[u8]) -> Option<Result<usize, ImageFault>> {
    if bytes.len() < HEADER_LENGTH {
        return None;
    }
    Some(image_length(bytes))
}

// The first length such that the image cut to it isn't reported as too short.
fn first_cut_told_otherwise(alloc: Global, image: &[u8]) -> Option<usize> {
    for length in 0..image.len() {
        let want = if length < 20 {
            ImageFault::Short
        } else {
            ImageFault::Length
        };
        if from_bytes(alloc, &image[..length]).err() != Some(want) {
            return Some(length);
        }
    }
    None
}

fn expect_cuts(rt: &impl Abort, alloc: Global, image: &[u8]) {
    let first = first_cut_told_otherwise(alloc, image);
    assert_eq!(rt; first, None);
}

#[test]
fn cut_images(rt: HostRuntime) -> Result<(), Fail> {
    let alloc = rt.alloc();
    expect_cuts(&rt, alloc, &smallest_image(alloc)?);
    expect_cuts(&rt, alloc, &passwd(alloc)?);
    Ok(())
}

fn fault_of_longer(alloc: Global, image: &[u8]) -> Result<Option<ImageFault>, Fail> {
    let mut longer = image.to_vec(alloc)?;
    longer.push(0)?;
    Ok(from_bytes(alloc, &longer).err())
}

// An image is as long as this, is read and written again as the same bytes, and is refused with one more byte.
fn expect_whole(rt: &impl Abort, alloc: Global, image: &[u8], length: usize) -> Result<(), Fail> {
    let fault = fault_of_longer(alloc, image)?;
    assert!(rt; fault == Some(ImageFault::Length) && image.len() == length);
    assert!(rt; settled(image) == Some(Ok(length)));
    let _table = tables_and_back(rt, alloc, image)?;
    Ok(())
}

// The image of a text is whole, and has this length and this header.
fn expect_image(
    rt: &impl Abort,
    alloc: Global,
    text: &[u8],
    length: usize,
    header: &[u8],
) -> Result<(), Fail> {
    let image = image_of(alloc, text)?;
    assert!(rt; image.starts_with(header));
    expect_whole(rt, alloc, &image, length)
}

#[test]
fn whole_images(rt: HostRuntime) -> Result<(), Fail> {
    let alloc = rt.alloc();
    expect_whole(&rt, alloc, &smallest_image(alloc)?, 2_112)?;
    expect_image(
        &rt,
        alloc,
        b"profile p { /etc/passwd r, }",
        2_280,
        b"PTAB\x01\0\0\0\x0d\0\0\0\x02\x01\0\0\x02\0\0\0",
    )?;
    expect_image(
        &rt,
        alloc,
        b"profile p { }",
        20 + 2 * 12 + 256 * 8 + 20,
        b"PTAB\x01\0\0\0\x02\0\0\0\0\x01\0\0\x01\0\0\0",
    )
}

// Other bytes of a header: the place of the first one, the bytes, and the fault that is reported for them.
type Header<'a> = (usize, &'a [u8], ImageFault);

fn expect_header(
    rt: &impl Abort,
    alloc: Global,
    image: &[u8],
    header: &Header<'_>,
) -> Result<(), Fail> {
    let (place, other, want) = header;
    let bytes = altered(alloc, image, *place, other)?;
    let fault = from_bytes(alloc, &bytes).err();
    assert!(rt; fault == Some(*want), "{other:?} at {place}");
    expect_settled(rt, &bytes, *want);
    Ok(())
}

// Each fault but that of the length is settled by the header alone.
fn expect_settled(rt: &impl Abort, bytes: &[u8], want: ImageFault) {
    if let Some(Err(fault)) = settled(bytes) {
        assert!(rt; fault == want && want != ImageFault::Length);
    } else {
        assert!(rt; want == ImageFault::Length);
    }
}

fn expect_headers(
    rt: &impl Abort,
    alloc: Global,
    image: &[u8],
    headers: &[Header<'_>],
) -> Result<(), Fail> {
    for header in headers {
        expect_header(rt, alloc, image, header)?;
    }
    Ok(())
}

const HEADERS: [Header<'static>; 37] = [
    (0, b"p", ImageFault::Magic),
    (1, b"t", ImageFault::Magic),
    (2, b"\0", ImageFault::Magic),
    (3, b"\xff", ImageFault::Magic),
    (0, b"BATP", ImageFault::Magic),
    (4, b"\0", ImageFault::Version),
    (4, b"\x03", ImageFault::Version),
    (4, b"\0\x01", ImageFault::Version),
    (4, b"\x01\x01", ImageFault::Version),
    (4, b"\x02\x01", ImageFault::Version),
    (4, b"\xff\xff", ImageFault::Version),
    // An image of version 2 is longer, and has the bound of depths where version 1 has reserved bytes.
    (4, b"\x02", ImageFault::Length),
    (4, b"\x02\0\x01", ImageFault::Length),
    (4, b"\x02\0\xff\xff", ImageFault::Length),
    (6, b"\x01", ImageFault::Reserved),
    (6, b"\0\x01", ImageFault::Reserved),
    (6, b"\xff\xff", ImageFault::Reserved),
    // States, cells and records.
    (8, b"\0\0\0\0", ImageFault::Counts),
    (8, b"\x01\0\0\0", ImageFault::Counts),
    (8, b"\x01\0\x01\0", ImageFault::Counts),
    (8, b"\xff\xff\xff\xff", ImageFault::Counts),
    (12, b"\0\0\0\0", ImageFault::Counts),
    (12, b"\xff\0\0\0", ImageFault::Counts),
    (12, b"\x01\0\0\x01", ImageFault::Counts),
    (12, b"\xff\xff\xff\xff", ImageFault::Counts),
    (16, b"\0\0\0\0", ImageFault::Counts),
    (16, b"\x01\0\x01\0", ImageFault::Counts),
    (16, b"\xff\xff\xff\xff", ImageFault::Counts),
    // The greatest counts, of far more bytes than there are.
    (8, b"\0\0\x01\0", ImageFault::Length),
    (12, b"\0\0\0\x01", ImageFault::Length),
    (16, b"\0\0\x01\0", ImageFault::Length),
    (8, b"\0\0\x01\0\0\0\0\x01\0\0\x01\0", ImageFault::Length),
    // Of two faults the earlier one.
    (3, b"b\x03", ImageFault::Magic),
    (4, b"\x03\0\x01", ImageFault::Version),
    (7, b"\x01\x01\0\0\0", ImageFault::Reserved),
    (0, b"ptab\x03\0\x01\0\0\0\0\0", ImageFault::Magic),
    (8, b"\0\0\x01\0\0\0\0\x01\0\0\0\0", ImageFault::Counts),
];

#[test]
fn headers(rt: HostRuntime) -> Result<(), Fail> {
    let alloc = rt.alloc();
    expect_headers(&rt, alloc, &smallest_image(alloc)?, &HEADERS)?;
    expect_headers(&rt, alloc, &passwd(alloc)?, &HEADERS)
}

// The lengths that headers give, the greatest counts among them.
#[test]
fn lengths_by_headers(rt: HostRuntime) {
    let rows: [(&[u8], usize); 7] = [
        (b"PTAB\x01\0\0\0\x02\0\0\0\0\x01\0\0\x01\0\0\0", 2_112),
        (b"PTAB\x01\0\0\0\x0d\0\0\0\x02\x01\0\0\x02\0\0\0", 2_280),
        (
            b"PTAB\x01\0\0\0\x02\0\0\0\0\x01\0\0\x01\0\0\0and more",
            2_112,
        ),
        (b"PTAB\x01\0\0\0\0\0\x01\0\0\0\0\x01\0\0\x01\0", 136_314_900),
        (b"PTAB\x02\0\0\0\x02\0\0\0\0\x01\0\0\x01\0\0\0", 2_124),
        (b"PTAB\x02\0\x01\0\x03\0\0\0\0\x01\0\0\x01\0\0\0", 2_140),
        (
            b"PTAB\x02\0\xff\xff\0\0\x01\0\0\0\0\x01\0\0\x01\0",
            136_839_188,
        ),
    ];
    for (header, length) in &rows {
        assert!(rt; settled(header) == Some(Ok(*length)), "{length}");
    }
}

fn expect_faults(rt: &impl Abort, alloc: Global, rows: &[(&[u8], ImageFault)]) -> Result<(), Fail> {
    for (bytes, want) in rows {
        let fault = from_bytes(alloc, bytes).err();
        assert!(rt; fault == Some(*want), "{bytes:?}");
    }
    Ok(())
}

// Bytes that are cut in their header are short, whatever they are.
#[test]
fn short_bytes(rt: HostRuntime) -> Result<(), Fail> {
    expect_faults(
        &rt,
        rt.alloc(),
        &[
            (b"", ImageFault::Short),
            (b"p", ImageFault::Short),
            (b"PTAC", ImageFault::Short),
            (b"PTAB\x03\0", ImageFault::Short),
            (b"PTAB\x01\0\0\0\x01\0\0\0\0\0\0\0\0\0\0", ImageFault::Short),
            (
                b"PTAB\x01\0\0\0\x02\0\0\0\0\x01\0\0\x01\0\0\0",
                ImageFault::Length,
            ),
        ],
    )
}
