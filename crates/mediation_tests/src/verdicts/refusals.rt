//! Keeps and looks while an allocation is refused, as `rt try --test --fail-alloc N` refuses the Nth: nothing is changed.
use crate::verdicts::fixtures::{cache, expect_found, expect_nothing, keep_once, question};
use names::NoMemory;
use std::process::Abort;
use std::test::Fail;
use verdict_cache::VerdictCache;

const BYTES: [u8; 513] = [b'/'; 513];

/// The path of a number, longer than those of lesser numbers, so that it needs larger buffers.
fn long_path(number: u8) -> Result<&'static [u8], Fail> {
    Ok(
        BYTES
            .get(..number as usize * 64 + 1)
            .ok_or("a longer path")?,
    )
}

/// Keeps the answer of a number under its path. If memory is refused, what was kept last stays, and nothing is new.
fn keep_longer(rt: &impl Abort, cache: &mut VerdictCache, number: u8) -> Result<(), Fail> {
    let path = long_path(number)?;
    match keep_once(cache, question(path), number) {
        Ok(()) => Ok(()),
        Err(NoMemory) => {
            if number > 0 {
                expect_kept(rt, cache, number - 1)?;
            }
            expect_nothing(rt, cache, question(path))?;
            Ok(keep_once(cache, question(path), number)?)
        }
    }
}

fn expect_kept(rt: &impl Abort, cache: &mut VerdictCache, number: u8) -> Result<(), Fail> {
    expect_found(rt, cache, question(long_path(number)?), number)
}

#[test]
fn refused_memory_changes_nothing(rt: HostRuntime) -> Result<(), Fail> {
    let mut cache = cache(rt.alloc(), 8)?;
    for number in 0..8 {
        keep_longer(&rt, &mut cache, number)?;
        expect_kept(&rt, &mut cache, number)?;
    }
    for number in 0..8 {
        expect_kept(&rt, &mut cache, number)?;
    }
    Ok(())
}

#[test]
fn refused_memory_changes_nothing_where_it_is_full(rt: HostRuntime) -> Result<(), Fail> {
    let mut cache = cache(rt.alloc(), 1)?;
    for number in 0..8 {
        keep_longer(&rt, &mut cache, number)?;
        expect_kept(&rt, &mut cache, number)?;
    }
    Ok(())
}
