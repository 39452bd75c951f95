//! A cache that another thread uses.
use crate::verdicts::fixtures::{cache, keep, question};
use path_lookup::NAME_ROOM;
use std::test::Fail;
use std::thread;
use verdict_cache::VerdictCache;

const PATH: &[u8] = b"/f";

/// Returns the length of the name that is found, if a name is.
fn found_length(mut cache: VerdictCache) -> Option<usize> {
    match cache.look(question(PATH), &mut [0; NAME_ROOM]) {
        Ok(found) => Some(found?.name_length),
        Err(_) => None,
    }
}

#[test]
fn a_cache_moves_to_a_thread(rt: HostRuntime) -> Result<(), Fail> {
    let mut cache = cache(rt.alloc(), 1)?;
    keep(&mut cache, question(PATH), 1)?;
    let worker = thread::spawn(&rt, move || found_length(cache))?;
    assert_eq!(rt; worker.join(&rt), Some(3));
    Ok(())
}
