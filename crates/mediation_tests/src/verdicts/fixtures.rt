//! Caches and questions. An allocation that fails is retried once, as `rt try --test --fail-alloc N` makes one fail.
use names::{NoMemory, Permission, Perms, Verdict};
use path_lookup::NAME_ROOM;
use std::alloc::Global;
use std::num::NonZeroUsize;
use std::process::Abort;
use std::test::Fail;
use verdict_cache::{Found, Question, VerdictCache};

/// Returns an empty cache of a capacity that isn't 0.
pub(crate) fn cache(alloc: Global, capacity: usize) -> Result<VerdictCache, Fail> {
    let capacity = NonZeroUsize::new(capacity).ok_or("a capacity of 0")?;
    match VerdictCache::new(alloc, capacity) {
        Ok(cache) => Ok(cache),
        Err(NoMemory) => Ok(VerdictCache::new(alloc, capacity)?),
    }
}

/// Asks to read the file of a path.
pub(crate) fn question(path: &[u8]) -> Question<'_> {
    Question {
        path,
        profile: b"a",
        ask: Perms::NONE.with(Permission::Read),
        tree_version: 7,
        policy_version: 9,
    }
}

/// The path of a number, other than those of other numbers.
pub(crate) fn path(number: u8) -> [u8; 2] {
    [b'/', number]
}

/// A number stands for an answer: it is the rule that denies, and the end of the name.
fn verdict(number: u8) -> Verdict {
    Verdict::Denied {
        rule: number as u16,
    }
}

fn node(number: u8) -> u64 {
    number as u64 * 0x1_0000_0000
}

fn name(number: u8) -> [u8; 3] {
    [b'/', b'n', number]
}

/// Keeps the answer of a number, without a retry.
pub(crate) fn keep_once(
    cache: &mut VerdictCache,
    question: Question<'_>,
    number: u8,
) -> Result<(), NoMemory> {
    cache.keep(question, verdict(number), node(number), &name(number))
}

pub(crate) fn keep(
    cache: &mut VerdictCache,
    question: Question<'_>,
    number: u8,
) -> Result<(), Fail> {
    match keep_once(cache, question, number) {
        Ok(()) => Ok(()),
        Err(NoMemory) => Ok(keep_once(cache, question, number)?),
    }
}

fn look(
    rt: &impl Abort,
    cache: &mut VerdictCache,
    question: Question<'_>,
    room: &mut [u8; NAME_ROOM],
) -> Result<Option<Found>, Fail> {
    match cache.look(question, room) {
        Ok(found) => Ok(found),
        Err(NoMemory) => {
            assert!(rt;
                room.iter().all(|byte| *byte == 0),
                "room that is written to"
            );
            Ok(cache.look(question, room)?)
        }
    }
}

/// Expects the answer of a number under a question.
pub(crate) fn expect_found(
    rt: &impl Abort,
    cache: &mut VerdictCache,
    question: Question<'_>,
    number: u8,
) -> Result<(), Fail> {
    let mut room = [0; NAME_ROOM];
    let found = look(rt, cache, question, &mut room)?.ok_or("nothing is found")?;
    assert_eq!(rt; found.verdict, verdict(number));
    assert_eq!(rt; found.node, node(number));
    assert_eq!(rt; found.name_length, name(number).len());
    assert!(rt; room.starts_with(&name(number)), "{number}");
    Ok(())
}

/// Expects nothing under a question.
pub(crate) fn expect_nothing(
    rt: &impl Abort,
    cache: &mut VerdictCache,
    question: Question<'_>,
) -> Result<(), Fail> {
    let mut room = [0; NAME_ROOM];
    let found = look(rt, cache, question, &mut room)?;
    assert!(rt; found.is_none(), "{:?}", question.path);
    Ok(())
}
