//! Answers to opens that are justified, and answers that aren't, of each kind.
use justification::{Answer, justify};
use matcher::{AnyProfile, CompiledProfile, PolicyChange};
use names::{Errno, Perms};
use path_walk::Change;
use rule_text::{Verdict, read};
use std::alloc::Global;
use std::process::Abort;
use std::sync::Arc;
use std::test::Fail;
use storm_parts::{failed, judged};
use test_parts::path;

// An answer to an open, and whether it is justified.
#[derive(Clone, Copy)]
struct Row<'a> {
    profile: &'a [u8],
    path: &'a [u8],
    ask: &'a [u8],
    answer: Answer,
    holds: bool,
}

fn name(alloc: Global, bytes: &[u8]) -> Result<Vec<u8>, Fail> {
    Ok(Vec::from_slice(alloc, bytes)?)
}

fn profile(alloc: Global) -> Result<Arc<AnyProfile>, Fail> {
    let rules = read(alloc, b"profile p {\n  /d/* r,\n  deny /d/k w,\n}\n")?;
    let profile = AnyProfile::Compiled(CompiledProfile::make(alloc, rules)?);
    Ok(Arc::new(alloc, profile).ok().ok_or("memory")?)
}

// The file `/d/f` is node 3 from version 2 on, and from version 3 on `/d` is `/e`. The profile is published under its name from
// version 1 on, and no longer at version 2.
fn expect(rt: &impl Abort, alloc: Global, rows: &[Row<'_>]) -> Result<(), Fail> {
    let changes = [
        Change::Mkdir(path(b"/d")?),
        Change::Create(path(b"/d/f")?),
        Change::Rename(path(b"/d")?, path(b"/e")?),
    ];
    let policy = [
        PolicyChange::Replace(name(alloc, b"p")?, profile(alloc)?),
        PolicyChange::Remove(name(alloc, b"p")?),
    ];
    for row in rows {
        let ask = Perms::from_letters(row.ask).ok_or("letters")?;
        let holds = justify(
            alloc,
            &row.answer,
            row.profile,
            row.path,
            ask,
            &changes,
            &policy,
        )?;
        assert!(rt; holds == row.holds, "{:?}", row.answer);
    }
    Ok(())
}

// An open of `/d/f` to read it.
fn of_file<'a>(answer: Answer, holds: bool) -> Row<'a> {
    Row {
        profile: b"p",
        path: b"/d/f",
        ask: b"r",
        answer,
        holds,
    }
}

#[test]
fn verdicts(rt: HostRuntime) -> Result<(), Fail> {
    let read = Perms::from_letters(b"r").ok_or("letters")?;
    let missing = Verdict::NoRule { missing: read };
    let rows = [
        of_file(judged(Verdict::Allowed, 3, 2, 1), true),
        of_file(judged(missing, 3, 2, 1), false),
        of_file(judged(Verdict::Allowed, 2, 2, 1), false),
        // The file isn't there yet or isn't there any more, and a version that wasn't made can't be right.
        of_file(judged(Verdict::Allowed, 3, 1, 1), false),
        of_file(judged(Verdict::Allowed, 3, 3, 1), false),
        of_file(judged(Verdict::Allowed, 3, 4, 1), false),
        of_file(judged(Verdict::Allowed, 3, 2, 0), false),
        of_file(judged(Verdict::Allowed, 3, 2, 2), false),
        of_file(judged(Verdict::Allowed, 3, 2, 3), false),
        // By its name since the rename.
        Row {
            path: b"/e/f",
            ..of_file(judged(missing, 3, 3, 1), true)
        },
    ];
    expect(&rt, rt.alloc(), &rows)
}

#[test]
fn failures(rt: HostRuntime) -> Result<(), Fail> {
    let rows = [
        of_file(failed(Errno::ENOENT, 1), true),
        of_file(failed(Errno::ENOTDIR, 1), false),
        of_file(failed(Errno::ENOENT, 2), false),
        of_file(failed(Errno::ENOENT, 3), true),
        of_file(failed(Errno::ENOENT, 4), false),
        Row {
            ask: b"rl",
            ..of_file(failed(Errno::EINVAL, 2), true)
        },
        Row {
            path: b"/d/f/",
            ..of_file(failed(Errno::ENOTDIR, 2), true)
        },
    ];
    expect(&rt, rt.alloc(), &rows)
}

fn no_profile(policy_version: u64) -> Answer {
    Answer::NoProfile { policy_version }
}

#[test]
fn unpublished(rt: HostRuntime) -> Result<(), Fail> {
    let rows = [
        of_file(no_profile(0), true),
        of_file(no_profile(1), false),
        of_file(no_profile(2), true),
        of_file(no_profile(3), false),
        Row {
            profile: b"q",
            ..of_file(no_profile(1), true)
        },
    ];
    expect(&rt, rt.alloc(), &rows)
}

fn busy(began: u64, ended: u64) -> Answer {
    Answer::Busy { began, ended }
}

#[test]
fn unread(rt: HostRuntime) -> Result<(), Fail> {
    let rows = [
        of_file(busy(3, 3), true),
        of_file(busy(4, 6), true),
        of_file(busy(4, 4), false),
        of_file(Answer::NoEntry, true),
    ];
    expect(&rt, rt.alloc(), &rows)
}
