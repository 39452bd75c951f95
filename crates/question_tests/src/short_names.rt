//! All short names over a small alphabet.
use std::alloc::Global;
use std::test::Fail;

// In the order of bytes that begins at `a`, in which a slash comes after the letters. No rule that is drawn distinguishes `c` from
// any other byte but these, and the others are greater than `c` or a slash.
const BYTES: &[u8] = b"abc/";

// Each of these names with each byte after it.
fn longer(alloc: Global, names: &[Vec<u8>]) -> Result<Vec<Vec<u8>>, Fail> {
    let mut all = Vec::new(alloc);
    for name in names {
        for byte in BYTES {
            let mut longer = Vec::from_slice(alloc, name)?;
            longer.push(*byte)?;
            all.push(longer)?;
        }
    }
    Ok(all)
}

fn append_copies(alloc: Global, names: &mut Vec<Vec<u8>>, more: &[Vec<u8>]) -> Result<(), Fail> {
    for name in more {
        names.push(Vec::from_slice(alloc, name)?)?;
    }
    Ok(())
}

/// All names of this many bytes at most, each less than the next one.
pub(crate) fn short_names(alloc: Global, most: usize) -> Result<Vec<Vec<u8>>, Fail> {
    let mut last = Vec::new(alloc);
    last.push(Vec::from_slice(alloc, b"/")?)?;
    let mut names = Vec::new(alloc);
    append_copies(alloc, &mut names, &last)?;
    for _ in 1..most {
        last = longer(alloc, &last)?;
        append_copies(alloc, &mut names, &last)?;
    }
    Ok(names)
}
