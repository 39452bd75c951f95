//! Images with any number in them altered.
use crate::images::{altered, passwd};
use matcher::LoadedProfile;
use std::alloc::Global;
use std::process::Abort;
use std::test::Fail;
use table_image::ImageFault;
use test_parts::smallest_image;

// The kinds of numbers in an image.
#[derive(Clone, Copy)]
enum Kind {
    Default,
    Base,
    Accept,
    Next,
}

// Numbers of one kind: at which byte the first one begins, how many there are, and the least that is out of bounds.
#[derive(Clone, Copy)]
struct Part {
    kind: Kind,
    first: u16,
    count: u16,
    bound: u32,
}

impl Part {
    // The fault of the image with another number at a place of this part, if it has one.
    fn fault(self, place: u16, number: u32) -> Option<ImageFault> {
        let place = u32::from(place);
        if number < self.bound {
            return None;
        }
        match self.kind {
            Kind::Default => Some(ImageFault::Default { state: place }),
            Kind::Base => Some(ImageFault::Base { state: place }),
            Kind::Accept => Some(ImageFault::Accept { state: place }),
            Kind::Next => Some(ImageFault::Next { cell: place }),
        }
    }

    // The image with another number at a place of this part.
    fn altered(
        self,
        alloc: Global,
        image: &[u8],
        place: u16,
        number: u32,
    ) -> Result<Vec<u8>, Fail> {
        let begin = usize::from(self.first) + 4 * usize::from(place);
        altered(alloc, image, begin, &number.to_le_bytes())
    }

    // The first place at which this number isn't judged as it should be.
    fn first_misjudged(
        self,
        alloc: Global,
        image: &[u8],
        number: u32,
    ) -> Result<Option<u16>, Fail> {
        for place in 0..self.count {
            let bytes = self.altered(alloc, image, place, number)?;
            let told = LoadedProfile::make(alloc, &bytes).err();
            if told != self.fault(place, number) {
                return Ok(Some(place));
            }
        }
        Ok(None)
    }
}

// A part, as kind, first byte, count and bound, and the numbers that are tried at each of its places.
type Row<'a> = (Kind, u16, u16, u32, &'a [u32]);

fn expect_judged(rt: &impl Abort, alloc: Global, image: &[u8], row: &Row<'_>) -> Result<(), Fail> {
    let (kind, first, count, bound, numbers) = *row;
    let part = Part {
        kind,
        first,
        count,
        bound,
    };
    for number in numbers {
        let told = part.first_misjudged(alloc, image, *number)?;
        assert!(rt; told.is_none(), "{number} from byte {first} on");
    }
    Ok(())
}

fn expect_all_judged(
    rt: &impl Abort,
    alloc: Global,
    image: &[u8],
    rows: &[Row<'_>],
) -> Result<(), Fail> {
    for row in rows {
        expect_judged(rt, alloc, image, row)?;
    }
    Ok(())
}

#[test]
fn numbers_of_the_smallest(rt: HostRuntime) -> Result<(), Fail> {
    let image = smallest_image(rt.alloc())?;
    expect_all_judged(
        &rt,
        rt.alloc(),
        &image,
        &[
            (Kind::Default, 20, 2, 2, &[1, 2, u32::MAX]),
            (Kind::Base, 28, 2, 1, &[0, 1, u32::MAX]),
            (Kind::Accept, 36, 2, 1, &[1, u32::MAX]),
            (Kind::Next, 44, 256, 2, &[1, 2, u32::MAX]),
        ],
    )
}

#[test]
fn numbers_of_one_name(rt: HostRuntime) -> Result<(), Fail> {
    let image = passwd(rt.alloc())?;
    expect_all_judged(
        &rt,
        rt.alloc(),
        &image,
        &[
            (Kind::Default, 20, 13, 13, &[12, 13, u32::MAX]),
            (Kind::Base, 72, 13, 3, &[2, 3, u32::MAX]),
            (Kind::Accept, 124, 13, 2, &[1, 2, u32::MAX]),
            (Kind::Next, 176, 64, 13, &[12, 13, u32::MAX]),
        ],
    )
}

fn expect_fault(rt: &impl Abort, alloc: Global, image: &[u8], want: ImageFault) {
    let fault = LoadedProfile::make(alloc, image).err();
    assert_eq!(rt; fault, Some(want));
}

// The image with other bytes from a place on, for which this fault is expected.
fn with_fault(
    rt: &impl Abort,
    alloc: Global,
    image: Vec<u8>,
    place: usize,
    other: &[u8],
    want: ImageFault,
) -> Result<Vec<u8>, Fail> {
    let bytes = altered(alloc, &image, place, other)?;
    expect_fault(rt, alloc, &bytes, want);
    Ok(bytes)
}

// Of two faults the earlier one is reported, that of the header first.
#[test]
fn first_faults(rt: HostRuntime) -> Result<(), Fail> {
    let alloc = rt.alloc();
    let mut image = smallest_image(alloc)?;
    image = with_fault(
        &rt,
        alloc,
        image,
        44 + 4 * 7,
        b"\x02\0\0\0",
        ImageFault::Next { cell: 7 },
    )?;
    image = with_fault(
        &rt,
        alloc,
        image,
        20 + 4,
        b"\xff\xff\xff\xff",
        ImageFault::Default { state: 1 },
    )?;
    image.push(0)?;
    expect_fault(&rt, alloc, &image, ImageFault::Length);
    // The version.
    with_fault(&rt, alloc, image, 4, b"\x03", ImageFault::Version)?;
    Ok(())
}
