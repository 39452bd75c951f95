//! Answers that are checked against a trail.
use directory_tree::Change;
use justification::{Answer, Trail, justify};
use matcher::PolicyChange;
use names::{Errno, Perms};
use rule_text::Verdict;
use std::alloc::Global;
use std::process::Abort;
use std::test::Fail;
use storm_parts::{compiled, failed, judged};
use test_parts::{Random, path, perms};

// The file `/a/f` is node 3 at version 2, `/b/f` at version 3, and `/a/f` again at version 4. Node 4 takes its place at version 6.
// The seventh change is refused, so that there is no tree of versions 7 and 8.
fn changes() -> Result<[Change<'static>; 8], Fail> {
    Ok([
        Change::Mkdir(path(b"/a")?),
        Change::Create(path(b"/a/f")?),
        Change::Rename(path(b"/a")?, path(b"/b")?),
        Change::Rename(path(b"/b")?, path(b"/a")?),
        Change::Unlink(path(b"/a/f")?),
        Change::Create(path(b"/a/f")?),
        Change::Rmdir(path(b"/a")?),
        Change::Mkdir(path(b"/c")?),
    ])
}

fn replaced(alloc: Global, name: &[u8], text: &[u8]) -> Result<PolicyChange, Fail> {
    Ok(PolicyChange::Replace(Vec::from_slice(alloc, name)?, compiled(alloc, text)?))
}

// Under `p` the file may be read at versions 1 and 2, it is denied at version 3, `p` isn't published at versions 4 and 5, and
// no rule mentions the file at version 6.
fn policy(alloc: Global) -> Result<[PolicyChange; 6], Fail> {
    Ok([
        replaced(alloc, b"p", b"profile p {\n  /*/f r,\n}\n")?,
        replaced(alloc, b"q", b"profile q {\n  /b/f r,\n}\n")?,
        replaced(alloc, b"p", b"profile p {\n  deny /a/f r,\n}\n")?,
        PolicyChange::Remove(Vec::from_slice(alloc, b"p")?),
        PolicyChange::Remove(Vec::from_slice(alloc, b"q")?),
        replaced(alloc, b"p", b"profile p {\n  /c w,\n}\n")?,
    ])
}

// Expects the trail of `/a/f`, opened to read, to justify these answers by `p` or not, as listed.
fn expect(rt: &impl Abort, alloc: Global, rows: &[(Answer, bool)]) -> Result<(), Fail> {
    let changes = changes()?;
    let policy = policy(alloc)?;
    let trail = Trail::new(alloc, b"/a/f", perms(b"r")?, &changes)?;
    for (answer, holds) in rows {
        assert!(rt;
            trail.justifies(answer, b"p", &policy) == *holds,
            "{:?}",
            answer
        );
    }
    Ok(())
}

#[test]
fn verdicts(rt: HostRuntime) -> Result<(), Fail> {
    let missing = perms(b"r")?;
    let rows = [
        (judged(Verdict::Allowed, 3, 2, 1), true),
        (judged(Verdict::Allowed, 3, 4, 2), true),
        (judged(Verdict::Allowed, 4, 6, 2), true),
        (judged(Verdict::Denied { rule: 1 }, 3, 4, 3), true),
        (judged(Verdict::NoRule { missing }, 4, 6, 6), true),
        // With one field changed.
        (judged(Verdict::NoRule { missing }, 3, 2, 1), false),
        (judged(Verdict::Denied { rule: 2 }, 3, 4, 3), false),
        (judged(Verdict::Allowed, 4, 2, 1), false),
        (judged(Verdict::Allowed, 3, 1, 1), false),
        (judged(Verdict::Allowed, 3, 3, 1), false),
        (judged(Verdict::Allowed, 3, 6, 1), false),
        (judged(Verdict::Allowed, 4, 7, 2), false),
        (judged(Verdict::Allowed, 4, 9, 2), false),
        (judged(Verdict::Allowed, 3, 2, 0), false),
        (judged(Verdict::Allowed, 3, 2, 3), false),
        (judged(Verdict::Allowed, 3, 2, 5), false),
        (judged(Verdict::Allowed, 3, 2, 7), false),
    ];
    expect(&rt, rt.alloc(), &rows)
}

#[test]
fn others(rt: HostRuntime) -> Result<(), Fail> {
    let rows = [
        (failed(Errno::ENOENT, 0), true),
        (failed(Errno::ENOENT, 3), true),
        (failed(Errno::ENOTDIR, 3), false),
        (failed(Errno::ENOENT, 4), false),
        (failed(Errno::ENOENT, 7), false),
        (failed(Errno::ENOTEMPTY, 7), false),
        (failed(Errno::ENOENT, u64::MAX), false),
        (Answer::NoProfile { policy_version: 0 }, true),
        (Answer::NoProfile { policy_version: 5 }, true),
        (Answer::NoProfile { policy_version: 3 }, false),
        (Answer::NoProfile { policy_version: 7 }, false),
        (Answer::Busy { began: 3, ended: 3 }, true),
        (Answer::Busy { began: 4, ended: 6 }, true),
        (Answer::Busy { began: 4, ended: 4 }, false),
        (Answer::NoEntry, true),
    ];
    expect(&rt, rt.alloc(), &rows)
}

fn draw(random: &mut Random, missing: Perms) -> Answer {
    let tree_version = random.below(10) as u64;
    let policy_version = random.below(8) as u64;
    let verdict = match random.below(4) {
        0 => Verdict::Allowed,
        1 => Verdict::Denied { rule: 1 },
        2 => Verdict::Denied { rule: 2 },
        _ => Verdict::NoRule { missing },
    };
    let errno = match random.below(3) {
        0 => Errno::ENOENT,
        1 => Errno::ENOTDIR,
        _ => Errno::EINVAL,
    };
    match random.below(8) {
        0..4 => judged(
            verdict,
            2 + random.below(4) as u64,
            tree_version,
            policy_version,
        ),
        4..6 => failed(errno, tree_version),
        6 => Answer::NoProfile { policy_version },
        _ => Answer::Busy {
            began: tree_version,
            ended: random.below(10) as u64,
        },
    }
}

// The number of answers drawn for each open.
const DRAWS: usize = 1000;

// Returns how many of the answers are justified, by the trail and by a tree that is rebuilt for each.
fn agree(rt: &impl Abort, alloc: Global, file: &[u8], ask: &[u8]) -> Result<u64, Fail> {
    let changes = changes()?;
    let policy = policy(alloc)?;
    let ask = perms(ask)?;
    let trail = Trail::new(alloc, file, ask, &changes)?;
    let mut random = Random::new(1 << 20);
    let mut justified: u64 = 0;
    for draw_number in 0..DRAWS {
        let answer = draw(&mut random, ask);
        let profile: &[u8] = if draw_number % 3 == 0 { b"q" } else { b"p" };
        let holds = justify(alloc, &answer, profile, file, ask, &changes, &policy)?;
        assert!(rt;
            trail.justifies(&answer, profile, &policy) == holds,
            "{:?}",
            answer
        );
        if holds {
            justified = justified.saturating_add(1);
        }
    }
    Ok(justified)
}

#[test]
fn a_trail_says_what_the_trees_say(rt: HostRuntime) -> Result<(), Fail> {
    let alloc = rt.alloc();
    // For each open, at least some of the busy answers and of those of no profile hold.
    assert!(&rt; agree(&rt, alloc, b"/a/f", b"r")? > 100);
    assert!(&rt; agree(&rt, alloc, b"/b/f", b"r")? > 100);
    assert!(&rt; agree(&rt, alloc, b"/a/f/", b"r")? > 100);
    assert!(&rt; agree(&rt, alloc, b"/a", b"rw")? > 100);
    assert!(&rt; agree(&rt, alloc, b"/a/f", b"rl")? > 100);
    Ok(())
}
