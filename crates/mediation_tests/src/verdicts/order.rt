//! Which verdicts a full cache keeps.
use crate::verdicts::fixtures::{cache, expect_found, expect_nothing, keep, path, question};
use std::test::Fail;
use verdict_cache::VerdictCache;

/// Keeps the answers of numbers, each under the path of the number.
fn keep_all(cache: &mut VerdictCache, from: u8, to: u8) -> Result<(), Fail> {
    for number in from..to {
        keep(cache, question(&path(number)), number)?;
    }
    Ok(())
}

#[test]
fn the_first_goes_where_there_is_no_room(rt: HostRuntime) -> Result<(), Fail> {
    let mut cache = cache(rt.alloc(), 64)?;
    keep_all(&mut cache, 0, 65)?;
    expect_nothing(&rt, &mut cache, question(&path(0)))?;
    for number in 1..65 {
        expect_found(&rt, &mut cache, question(&path(number)), number)?;
    }
    Ok(())
}

#[test]
fn what_is_looked_at_stays(rt: HostRuntime) -> Result<(), Fail> {
    let mut cache = cache(rt.alloc(), 64)?;
    keep_all(&mut cache, 0, 64)?;
    expect_found(&rt, &mut cache, question(&path(0)), 0)?;
    keep_all(&mut cache, 64, 127)?;
    for number in 1..64 {
        expect_nothing(&rt, &mut cache, question(&path(number)))?;
    }
    expect_found(&rt, &mut cache, question(&path(0)), 0)?;
    expect_found(&rt, &mut cache, question(&path(64)), 64)
}

#[test]
fn a_look_that_finds_nothing_changes_no_order(rt: HostRuntime) -> Result<(), Fail> {
    let mut cache = cache(rt.alloc(), 2)?;
    keep_all(&mut cache, 0, 2)?;
    expect_nothing(&rt, &mut cache, question(b"/other"))?;
    keep_all(&mut cache, 2, 3)?;
    expect_nothing(&rt, &mut cache, question(&path(0)))?;
    expect_found(&rt, &mut cache, question(&path(1)), 1)?;
    expect_found(&rt, &mut cache, question(&path(2)), 2)
}

#[test]
fn what_is_kept_again_is_replaced(rt: HostRuntime) -> Result<(), Fail> {
    let mut cache = cache(rt.alloc(), 2)?;
    keep_all(&mut cache, 0, 2)?;
    keep(&mut cache, question(&path(0)), 5)?;
    expect_found(&rt, &mut cache, question(&path(0)), 5)?;
    expect_found(&rt, &mut cache, question(&path(1)), 1)?;
    keep_all(&mut cache, 2, 3)?;
    expect_nothing(&rt, &mut cache, question(&path(0)))
}

#[test]
fn a_cleared_cache_finds_nothing(rt: HostRuntime) -> Result<(), Fail> {
    let mut cache = cache(rt.alloc(), 2)?;
    keep_all(&mut cache, 0, 2)?;
    cache.clear();
    expect_nothing(&rt, &mut cache, question(&path(0)))?;
    expect_nothing(&rt, &mut cache, question(&path(1)))?;
    keep_all(&mut cache, 2, 4)?;
    expect_found(&rt, &mut cache, question(&path(2)), 2)?;
    expect_found(&rt, &mut cache, question(&path(3)), 3)
}
