//! A keeper, a publisher, and sessions of both. An allocation that fails is retried once, as `rt try --test --fail-alloc N` makes
//! one fail.
ghost use Rattle.std.specs.Prelude.{◌≡◌, IfOk};
ghost use mathlib.Core.List.{IsPrefix};

use dentry_cache::Keeper;
use matcher::AnyProfile;
use names::NoMemory;
use path_session::{Answer, Session};
use profile_registry::Publisher;
use rule_text::Verdict;
use std::alloc::Global;
use std::process::Abort;
use std::sync::{Arc, Wait};
use std::test::Fail;
use storm_parts::{compiled, first_keeper, session};
use test_parts::perms;

/// The file `/d/f` has this node.
pub(crate) const FILE: u64 = 3;

/// The number of changes that made the tree of [`first_keeper`].
pub(crate) const TREE: u64 = 5;

/// The profile that is published under the name `p`.
const RULES: &[u8] =
    b"profile p {\n  /d/* r,\n  deny /d/k w,\n  /e/* r,\n  /m rl,\n  /n rwl,\n  deny /b l,\n}\n";

/// Publishes a profile under a name, and returns the policy's version.
pub(crate) fn publish<R: Wait>(
    rt: &R,
    publisher: &mut Publisher,
    name: &[u8],
    profile: &Arc<AnyProfile>,
) -> Result<u64, Fail>
    ensures { IsPrefix publisher.old.published publisher.new.published }
{
    if publisher.changes() >= 1 << 59 {
        return Err(Fail::from("too many changes"));
    }
    if publisher.replace(name, Arc::try_clone(profile)?).is_err() {
        publisher.replace(name, Arc::try_clone(profile)?)?;
    }
    publish_staged(rt, publisher)
}

/// Makes the staged changes visible, and returns the policy's version.
pub(crate) fn publish_staged<R: Wait>(rt: &R, publisher: &mut Publisher) -> Result<u64, Fail>
    ensures { IsPrefix publisher.old.published publisher.new.published }
{
    match publisher.publish(rt) {
        Ok(version) => Ok(version),
        Err(NoMemory) => Ok(publisher.publish(rt)?),
    }
}

/// Publishes the rules of `p`.
pub(crate) fn publish_first<R: Wait>(
    rt: &R,
    alloc: Global,
    publisher: &mut Publisher,
) -> Result<(), Fail> {
    publish(rt, publisher, b"p", &compiled(alloc, RULES)?)?;
    Ok(())
}

/// The first keeper, and a session of it that opens by the profile of a name. The rules of `p` are published.
pub(crate) fn first_session<R: Wait>(
    rt: &R,
    alloc: Global,
    publisher: &mut Publisher,
    profile: &[u8],
) -> Result<(Keeper, Session), Fail>
    ensures of { IfOk result (λ both. both.1.walk.table ≡ both.0.table) }
    ensures learned { IfOk result (λ both. both.1.reading.learned ≡ publisher.new.published) }
{
    publish_first(rt, alloc, publisher)?;
    let mut keeper = first_keeper(alloc)?;
    let session = session(alloc, &mut keeper, publisher, profile)?;
    Ok((keeper, session))
}

/// The verdict on a file in the tree of a version, by the first profile that was published.
pub(crate) fn judged(verdict: Verdict, node: u64, tree_version: u64) -> Answer {
    storm_parts::judged(verdict, node, tree_version, 1)
}

/// An open, and its expected outcome.
#[derive(Clone, Copy)]
pub(crate) struct Row<'a> {
    pub path: &'a [u8],
    pub ask: &'a [u8],
    pub answer: Answer,
    /// The name that is judged, if one is.
    pub name: &'a [u8],
}

/// An open, and the name that is judged.
pub(crate) fn opened<'a>(path: &'a [u8], ask: &'a [u8], answer: Answer, name: &'a [u8]) -> Row<'a> {
    Row {
        path,
        ask,
        answer,
        name,
    }
}

/// An open of a path to read, of which no name is judged.
pub(crate) fn unjudged<'a>(path: &'a [u8], answer: Answer) -> Row<'a> {
    opened(path, b"r", answer, b"")
}

/// An open of a file that the first profile allows, along a link.
pub(crate) fn allowed<'a>() -> Row<'a> {
    opened(b"/l/f", b"r", judged(Verdict::Allowed, FILE, TREE), b"/d/f")
}

/// Each session opens that file.
pub(crate) fn open_each(rt: &impl Abort, sessions: &mut [Session]) -> Result<(), Fail> {
    for session in sessions {
        expect_beside(rt, session, &[allowed()])?;
    }
    Ok(())
}

/// Opens concurrently with the keeper, one after another.
pub(crate) fn expect_beside(
    rt: &impl Abort,
    session: &mut Session,
    rows: &[Row<'_>],
) -> Result<(), Fail>
    ensures of { session.new.walk.table ≡ session.old.walk.table }
    ensures learned { session.new.reading.learned ≡ session.old.reading.learned }
{
    for row in rows {
        let answer = session.try_open(row.path, perms(row.ask)?);
        assert_eq!(rt; answer, row.answer, "{:?}", row.path);
        assert!(rt; session.name() == row.name, "{:?}", row.path);
    }
    Ok(())
}

/// Opens with the keeper held exclusively, one after another.
pub(crate) fn expect_with(
    rt: &impl Abort,
    session: &mut Session,
    keeper: &mut Keeper,
    rows: &[Row<'_>],
) -> Result<(), Fail>
    requires { session.old.walk.table ≡ keeper.old.table }
    ensures same { keeper.new ≡ keeper.old }
    ensures of { session.new.walk.table ≡ session.old.walk.table }
    ensures learned { session.new.reading.learned ≡ session.old.reading.learned }
{
    for row in rows {
        let answer = session.open_with(keeper, row.path, perms(row.ask)?);
        assert_eq!(rt; answer, row.answer, "{:?}", row.path);
        assert!(rt; session.name() == row.name, "{:?}", row.path);
    }
    Ok(())
}
