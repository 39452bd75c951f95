//! What is changed concurrently with opens, until they are done.
use crate::scene::Policy;
use crate::tree::path;
use dentry_cache::Keeper;
use directory_tree::Change;
use std::rt::Clock;
use std::sync::Wait;
use std::sync::atomic::{AtomicBool, Ordering};
use std::time::Duration;

/// Renames a directory back and forth, and returns the number of renames; none if one is refused.
pub(crate) fn rename_until<R: Clock>(
    rt: &R,
    keeper: &mut Keeper,
    directory: &[u8],
    renamed: &[u8],
    rest: Duration,
    done: &AtomicBool,
) -> Option<u64> {
    let there = Change::Rename(path(directory)?, path(renamed)?);
    let back = Change::Rename(path(renamed)?, path(directory)?);
    for rounds in 0..u64::MAX {
        if done.load(Ordering::SeqCst) {
            return Some(rounds.saturating_mul(2));
        }
        keeper.apply(&there).ok()?;
        take_rest(rt, rest);
        keeper.apply(&back).ok()?;
        take_rest(rt, rest);
    }
    None
}

/// Publishes profiles, and returns how many; none if one is refused.
pub(crate) fn publish_until<R: Clock + Wait>(
    rt: &R,
    policy: &mut Policy,
    rest: Duration,
    done: &AtomicBool,
) -> Option<u64> {
    for others in 0..u64::MAX {
        if done.load(Ordering::SeqCst) {
            return Some(others);
        }
        policy.publish(rt, others).ok()?;
        take_rest(rt, rest);
    }
    None
}

fn take_rest<R: Clock>(rt: &R, rest: Duration) {
    if rest > Duration::ZERO {
        rt.sleep(rest);
    }
}
