//! Verdicts kept in a small cache, and looked for.
use names::{LONGEST_PATH, NoMemory, Permission, Perms, Verdict};
use path_lookup::NAME_ROOM;
use std::alloc::Global;
use std::fmt;
use std::io::Print;
use std::num::NonZeroUsize;
use storm_parts::{Call, Difference, How, Stop, again, expect, expect_ok};
use verdict_cache::{Question, VerdictCache};

/// The paths of the questions: more than the cache has room for.
const PATHS: [&[u8]; 4] = [b"/a", b"/a/path/with/more/components", b"/b", b"/c/d"];

const CAPACITY: usize = 3;

/// Which questions have an answer, asked in order: the one that was kept under the question.
#[derive(Clone, Copy, Debug, PartialEq, Eq)]
struct Found {
    is_found: [bool; 4],
}

impl fmt::Display for Found {
    fn fmt<W: fmt::Write>(&self, f: &mut fmt::Formatter<W>) -> fmt::Result {
        for is_found in self.is_found {
            write!(f, "{}", if is_found { " found" } else { " -" })?;
        }
        Ok(())
    }
}

fn question(number: usize) -> Question<'static> {
    Question {
        path: path_of(number),
        profile: b"p",
        ask: Perms::NONE.with(Permission::Read),
        tree_version: 7,
        policy_version: 9,
    }
}

fn path_of(number: usize) -> &'static [u8] {
    match PATHS.get(number) {
        Some(path) => path,
        None => b"",
    }
}

/// Keeps verdicts under all questions, and under some of them again, and prints what is found each time.
pub(crate) fn show_kept<R: Print>(rt: &R, alloc: Global) -> Result<(), Stop> {
    let Some(capacity) = NonZeroUsize::new(CAPACITY) else {
        return Ok(());
    };
    let mut cache = again(
        Call::NewVerdictCache,
        NoMemory,
        || VerdictCache::new(alloc, capacity),
    )?;
    for number in [0, 1, 2, 1, 3, 0, 0, 2] {
        keep(&mut cache, number)?;
        println!(rt; "keep {number}:{}", found_in(&mut cache)?)?;
    }
    Ok(())
}

// Keeps a verdict under a question. Where memory is refused, each question finds what it found before. What is found last is kept
// longest, so the cache is asked in the same order each time.
fn keep(cache: &mut VerdictCache, number: usize) -> Result<(), Difference> {
    let before = found_in(cache)?;
    match try_keep(cache, number) {
        Ok(()) => Ok(()),
        Err(NoMemory) => {
            expect(found_in(cache)? == before, Call::KeepVerdict, How::Changes)?;
            expect_ok(Call::KeepVerdict, try_keep(cache, number))
        }
    }
}

fn try_keep(cache: &mut VerdictCache, number: usize) -> Result<(), NoMemory> {
    let name = path_of(number);
    if name.len() > LONGEST_PATH {
        return Ok(());
    }
    cache.keep(question(number), verdict_of(number), number as u64, name)
}

// The verdict that is kept under a question. Its node is the question's number, and its name the path.
fn verdict_of(number: usize) -> Verdict {
    Verdict::Denied {
        rule: (number % 4) as u16,
    }
}

fn found_in(cache: &mut VerdictCache) -> Result<Found, Difference> {
    let mut is_found = [false; 4];
    for number in 0..4 {
        is_found[number] = look(cache, number)?;
    }
    Ok(Found { is_found })
}

// Whether an answer is found under a question. Where memory is refused, it is looked for again.
fn look(cache: &mut VerdictCache, number: usize) -> Result<bool, Difference> {
    let mut room = [0; NAME_ROOM];
    match try_look(cache, number, &mut room) {
        Ok(found) => found,
        Err(NoMemory) => expect_ok(Call::LookForVerdict, try_look(cache, number, &mut room))?,
    }
}

fn try_look(
    cache: &mut VerdictCache,
    number: usize,
    room: &mut [u8; NAME_ROOM],
) -> Result<Result<bool, Difference>, NoMemory> {
    let Some(found) = cache.look(question(number), room)? else {
        return Ok(Ok(false));
    };
    let is_kept = found.verdict == verdict_of(number)
        && found.node == number as u64
        && room.get(..found.name_length) == Some(path_of(number));
    Ok(expect(is_kept, Call::LookForVerdict, How::Answers).map(|()| true))
}
