//! Images of both versions, next to those of a writer that puts number after number.
ghost use Rattle.std.specs.Prelude.{IfOk};
ghost use Rattle.tables.specs.Bounds.{InBounds};
ghost use Rattle.tables.specs.Tables.{table_value};

use crate::images::altered;
use glob_automaton::compile;
use names::{LeastHits, Permission, Perms, Record, Verdict};
use rule_text::read;
use std::alloc::Global;
use std::process::Abort;
use std::test::Fail;
use table_image::{ImageFault, RawTable, from_bytes, pack_chained, to_bytes, to_bytes_v1};
use table_verifier::{LoadedProfile, judge};
use test_parts::{
    PROFILE_TEXTS, image_of_table, smallest_chained_image, smallest_image, tables_are_equal,
};

// The tables of a profile's text, whose depths are at most this great.
fn chained_of(alloc: Global, text: &[u8], most_depth: u16) -> Result<RawTable, Fail>
    ensures { IfOk result (λ table. InBounds (table_value table)) }
{
    let profile = read(alloc, text)?;
    Ok(pack_chained(alloc, &compile(alloc, &profile)?, most_depth)?)
}

// A profile's tables are written as they should be, and read again as they were.
fn expect_written(rt: &impl Abort, alloc: Global, text: &[u8], most: u16) -> Result<(), Fail> {
    let table = chained_of(alloc, text, most)?;
    let image = to_bytes(alloc, &table)?;
    assert!(rt;
        image == image_of_table(alloc, &table, 2)?,
        "{text:?} {most}"
    );
    assert!(rt;
        tables_are_equal(&from_bytes(alloc, &image)?, &table),
        "{text:?} {most}"
    );
    Ok(())
}

// The same in version 1, which has no depths, if that can hold the tables. Returns whether it can.
fn expect_written_first(rt: &impl Abort, alloc: Global, text: &[u8]) -> Result<bool, Fail> {
    let table = chained_of(alloc, text, 0)?;
    if !table.fits_version_1() {
        return Ok(false);
    }
    let image = to_bytes_v1(alloc, &table)?;
    assert!(rt; image == image_of_table(alloc, &table, 1)?, "{text:?}");
    assert!(rt;
        tables_are_equal(&from_bytes(alloc, &image)?, &table),
        "{text:?}"
    );
    Ok(true)
}

#[test]
fn images_of_profiles(rt: HostRuntime) -> Result<(), Fail> {
    let alloc = rt.alloc();
    for (i, text) in PROFILE_TEXTS.iter().enumerate() {
        let fits = expect_written_first(&rt, alloc, text)?;
        assert_eq!(rt; fits, i < 11);
        expect_written(&rt, alloc, text, 0)?;
        expect_written(&rt, alloc, text, 64)?;
    }
    Ok(())
}

// Bytes of a version and of the number after it, and the fault that is reported for an image with them, if any.
type Versions<'a> = (&'a [u8], Option<ImageFault>);

fn expect_versions(
    rt: &impl Abort,
    alloc: Global,
    image: &[u8],
    rows: &[Versions<'_>],
) -> Result<(), Fail> {
    for (other, want) in rows {
        let bytes = altered(alloc, image, 4, other)?;
        assert!(rt;
            LoadedProfile::make(alloc, &bytes).err() == *want,
            "{other:?}"
        );
    }
    Ok(())
}

const OTHER_VERSIONS: [Versions<'static>; 5] = [
    (b"\0\0", Some(ImageFault::Version)),
    (b"\x03\0", Some(ImageFault::Version)),
    (b"\x03\0\xff\xff", Some(ImageFault::Version)),
    (b"\x02\x01", Some(ImageFault::Version)),
    (b"\0\x02", Some(ImageFault::Version)),
];

// Version 1 has two reserved bytes where version 2 has the bound of depths.
#[test]
fn versions(rt: HostRuntime) -> Result<(), Fail> {
    let alloc = rt.alloc();
    let first = smallest_image(alloc)?;
    expect_versions(&rt, alloc, &first, &OTHER_VERSIONS)?;
    expect_versions(
        &rt,
        alloc,
        &first,
        &[
            (b"\x01\0\0\0", None),
            (b"\x01\0\x01\0", Some(ImageFault::Reserved)),
            (b"\x01\0\0\x01", Some(ImageFault::Reserved)),
            (b"\x02\0\0\0", Some(ImageFault::Length)),
            (b"\x02\0\x01\0", Some(ImageFault::Length)),
        ],
    )?;
    let second = smallest_chained_image(alloc)?;
    expect_versions(&rt, alloc, &second, &OTHER_VERSIONS)?;
    expect_versions(
        &rt,
        alloc,
        &second,
        &[
            (b"\x02\0\x01\0", None),
            (b"\x02\0\x02\0", None),
            (b"\x02\0\xff\xff", None),
            (b"\x02\0\0\x01", None),
            (b"\x02\0\0\0", Some(ImageFault::Depth { state: 1 })),
            (b"\x01\0\x01\0", Some(ImageFault::Reserved)),
            (b"\x01\0\0\0", Some(ImageFault::Length)),
        ],
    )
}

// Cut or longer, an image of version 2 is refused.
#[test]
fn other_lengths(rt: HostRuntime) -> Result<(), Fail> {
    let alloc = rt.alloc();
    let mut image = smallest_chained_image(alloc)?;
    for length in 0..image.len() {
        let want = if length < 20 {
            ImageFault::Short
        } else {
            ImageFault::Length
        };
        let fault = from_bytes(alloc, &image[..length]).err();
        assert_eq!(rt; fault, Some(want), "{length}");
    }
    image.push(0)?;
    assert_eq!(rt; from_bytes(alloc, &image).err(), Some(ImageFault::Length));
    Ok(())
}

// Where the bound, the depths and the hits of append are, and in which order of bytes.
#[test]
fn places_of_depths_and_of_append(rt: HostRuntime) -> Result<(), Fail> {
    let alloc = rt.alloc();
    let mut image = smallest_chained_image(alloc)?;
    image = altered(alloc, &image, 6, b"\x02\x01")?;
    image = altered(alloc, &image, 56, b"\x04\x03\x02\x01\x05\0\0\0\0\x06\0\0")?;
    // The last hits but one are those of map.
    image = altered(alloc, &image, 2_132, b"\x07\x08\x09\x0a\x0b\x0c\x0d\x0e")?;
    let table = from_bytes(alloc, &image)?;
    assert_eq!(rt; table.depth_bound, 0x0102);
    assert!(rt; table.depth.as_slice() == [0x0102_0304, 5, 0x0600].as_slice());
    let map = LeastHits {
        allow: 0x0807,
        deny: 0x0a09,
    };
    let append = LeastHits {
        allow: 0x0c0b,
        deny: 0x0e0d,
    };
    let want = Record::none()
        .with_hits(Permission::Map, map)
        .with_hits(Permission::Append, append);
    assert!(rt; table.records.as_slice() == [want].as_slice());
    assert!(rt; to_bytes(alloc, &table)? == image);
    Ok(())
}

// By rules without `a`, append has the hits of write, in images of both versions.
#[test]
fn append_has_the_hits_of_write(rt: HostRuntime) -> Result<(), Fail> {
    let alloc = rt.alloc();
    let text = b"profile p { /a rw, deny /a wl, /a lkm, /b w, }";
    let table = chained_of(alloc, text, 0)?;
    assert!(rt; table.fits_version_1());
    let image = to_bytes_v1(alloc, &table)?;
    let first = from_bytes(alloc, &image)?;
    let mut written = 0u32;
    for record in &first.records {
        let write = record.of(Permission::Write);
        assert!(rt; record.of(Permission::Append) == write);
        if write != LeastHits::NONE {
            written = written.saturating_add(1);
        }
    }
    assert_eq!(rt; (written, first.depth_bound), (2, 0));
    let image = to_bytes(alloc, &table)?;
    // The last record is that of `/b`.
    assert!(rt; image.ends_with(b"\0\0\0\0\x04\0\0\0\0\0\0\0\0\0\0\0\0\0\0\0\x04\0\0\0"));
    Ok(())
}

// What an image says of a name for the permissions with these letters.
fn told(alloc: Global, image: &[u8], name: &[u8], letters: &[u8]) -> Result<Verdict, Fail> {
    let loaded = LoadedProfile::make(alloc, image)?;
    let ask = Perms::from_letters(letters).ok_or("letters")?;
    Ok(judge(loaded.table(), name, ask))
}

// An image of version 1 was written when no profile could distinguish append from write: who may write may append.
#[test]
fn append_by_version_one(rt: HostRuntime) -> Result<(), Fail> {
    let alloc = rt.alloc();
    let table = chained_of(alloc, b"profile p { /log w, deny /log/x w, }", 0)?;
    assert!(rt; table.fits_version_1());
    let image = to_bytes_v1(alloc, &table)?;
    for letters in [b"a".as_slice(), b"w", b"wa"] {
        assert_eq!(rt; told(alloc, &image, b"/log", letters)?, Verdict::Allowed);
        let denied = Verdict::Denied { rule: 2 };
        assert_eq!(rt; told(alloc, &image, b"/log/x", letters)?, denied);
    }
    let missing = Perms::NONE.with(Permission::Append);
    let want = Verdict::NoRule { missing };
    assert_eq!(rt; told(alloc, &image, b"/", b"a")?, want);
    Ok(())
}

// Append alone: version 1 can't hold the tables, and version 2 keeps its hits, with chains and without.
#[test]
fn append_by_version_two(rt: HostRuntime) -> Result<(), Fail> {
    let alloc = rt.alloc();
    for most in [0, 4] {
        let table = chained_of(alloc, b"profile p { /log a, }", most)?;
        assert!(rt; !table.fits_version_1());
        let image = to_bytes(alloc, &table)?;
        assert_eq!(rt; told(alloc, &image, b"/log", b"a")?, Verdict::Allowed);
        let missing = Perms::NONE.with(Permission::Write);
        let want = Verdict::NoRule { missing };
        assert_eq!(rt; told(alloc, &image, b"/log", b"w")?, want);
        assert_eq!(rt; told(alloc, &image, b"/log", b"wa")?, want);
    }
    Ok(())
}
