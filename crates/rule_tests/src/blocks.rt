//! Drawn paths on drawn names, whose lengths are at the ends of blocks of 64 bytes and next to them, byte 0 in front counted and
//! not: a path matches each name by blocks exactly if it does byte by byte.
use crate::plain;
use rule_globs::{MOST_PLACES, RulePath};
use rule_making::path_of;
use rule_reader::read_path;
use std::alloc::Global;
use std::test::Fail;
use test_parts::Random;

/// What the paths are made of.
const PIECES: [&[u8]; 16] = [
    b"a",
    b"b",
    b"/",
    b"?",
    b"*",
    b"**",
    b"a*",
    b"**a",
    b"[ab]",
    b"[^b]",
    b"[^/]",
    b"{a,b}",
    b"{,a?}",
    b"{*,b/}",
    b"{a{,/**},?b}",
    b"/*/",
];

/// The lengths of the names.
const LENGTHS: [usize; 11] = [0, 1, 2, 62, 63, 64, 65, 126, 127, 128, 4095];

/// A path with a few of the pieces.
fn draw_path(alloc: Global, random: &mut Random) -> Result<RulePath, Fail> {
    let mut text = Vec::from_slice(alloc, b"/")?;
    for _ in 0..random.below(8) {
        let piece = random.below(16);
        if piece < PIECES.len() {
            text.extend_from_slice(PIECES[piece])?;
        }
    }
    let items = read_path(alloc, &text)?.ok_or("the text of a path")?;
    Ok(path_of(items).ok_or("a path")?)
}

/// A name of this many bytes, nearly all of them `a`.
fn draw_name(alloc: Global, random: &mut Random, length: usize) -> Result<Vec<u8>, Fail> {
    let mut name = Vec::new(alloc);
    for i in 0..length {
        let byte = match random.below(40) {
            _ if i == 0 => b'/',
            0 => b'/',
            1 => b'b',
            2 => 200,
            _ => b'a',
        };
        name.push(byte)?;
    }
    Ok(name)
}

#[test]
fn blocks_are_bytes(rt: HostRuntime) -> Result<(), Fail> {
    let alloc = rt.alloc();
    let mut random = Random::new(1);
    let mut counts = [0u32; 2];
    for _ in 0..200 {
        let path = draw_path(alloc, &mut random)?;
        for length in LENGTHS {
            let name = draw_name(alloc, &mut random, length)?;
            let mut live = [false; MOST_PLACES];
            let taken = plain::takes(path.items(), &name, &mut live);
            assert_eq!(&rt; path.takes(&name), taken, "{path:?} on {name:?}");
            let which = usize::from(taken);
            counts[which] = counts[which].saturating_add(1);
        }
    }
    assert!(&rt; counts[0] > 200 && counts[1] > 200);
    Ok(())
}
