//! What is found under questions that differ in one part.
use crate::verdicts::fixtures::{cache, expect_found, expect_nothing, keep, question};
use names::{Permission, Perms};
use std::test::Fail;
use verdict_cache::Question;

const PATH: &[u8] = b"/srv/data/file";

/// Questions that differ from that of the path, and from each other, in one part.
fn others() -> [Question<'static>; 7] {
    let asked = question(PATH);
    [
        Question {
            tree_version: 8,
            ..asked
        },
        Question {
            policy_version: 8,
            ..asked
        },
        Question {
            ask: Perms::NONE.with(Permission::Write),
            ..asked
        },
        Question {
            profile: b"b",
            ..asked
        },
        Question {
            profile: b"",
            ..asked
        },
        Question {
            path: b"/srv/data/filf",
            ..asked
        },
        Question {
            path: b"/srv/data/fil",
            ..asked
        },
    ]
}

#[test]
fn another_question_finds_nothing(rt: HostRuntime) -> Result<(), Fail> {
    let mut cache = cache(rt.alloc(), 8)?;
    expect_nothing(&rt, &mut cache, question(PATH))?;
    keep(&mut cache, question(PATH), 1)?;
    for other in others() {
        expect_nothing(&rt, &mut cache, other)?;
    }
    expect_found(&rt, &mut cache, question(PATH), 1)
}

#[test]
fn each_question_finds_its_own(rt: HostRuntime) -> Result<(), Fail> {
    let mut cache = cache(rt.alloc(), 8)?;
    keep(&mut cache, question(PATH), 0)?;
    for (number, other) in (1..8).zip(others()) {
        keep(&mut cache, other, number)?;
    }
    for (number, other) in (1..8).zip(others()) {
        expect_found(&rt, &mut cache, other, number)?;
    }
    expect_found(&rt, &mut cache, question(PATH), 0)
}
