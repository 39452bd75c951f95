//! Profiles that are replaced or removed between the calls of one session, and other profiles that it selects.
ghost use Rattle.std.specs.Prelude.{◌≡◌};
ghost use mathlib.Core.List.{IsPrefix};

use crate::fixtures::{
    FILE, Row, TREE, expect_beside, first_session, opened, publish, publish_staged, unjudged,
};
use crate::opens::expect_both;
use dentry_cache::Keeper;
use matcher::AnyProfile;
use path_session::{Answer, LinkAnswer, Session};
use profile_registry::Publisher;
use rule_text::{LinkVerdict, Verdict};
use std::alloc::Global;
use std::process::Abort;
use std::sync::{Arc, Wait};
use std::test::Fail;
use storm_parts::{compiled, new_publisher, select};
use test_parts::perms;

// Two opens of the file by the policy of a version, which have the same answer.
fn twice<'a>(verdict: Verdict, policy_version: u64) -> [Row<'a>; 2] {
    let answer = Answer::Judged {
        verdict,
        node: FILE,
        tree_version: TREE,
        policy_version,
    };
    let row = opened(b"/d/f", b"r", answer, b"/d/f");
    [row, row]
}

// Two opens of it where no profile is published under the session's name for it.
fn unknown_twice<'a>(policy_version: u64) -> [Row<'a>; 2] {
    let row = unjudged(b"/d/f", Answer::NoProfile { policy_version });
    [row, row]
}

fn allowing(alloc: Global) -> Result<Arc<AnyProfile>, Fail> {
    compiled(alloc, b"profile p {\n  /d/f r,\n}\n")
}

fn denying(alloc: Global) -> Result<Arc<AnyProfile>, Fail> {
    compiled(alloc, b"profile q {\n  deny /d/f r,\n}\n")
}

// Removes what is published under a name, and returns the policy's version.
fn remove<R: Wait>(rt: &R, publisher: &mut Publisher, name: &[u8]) -> Result<u64, Fail> {
    if publisher.changes() >= 1 << 59 {
        return Err(Fail::from("too many changes"));
    }
    if publisher.remove(name).is_err() {
        publisher.remove(name)?;
    }
    publish_staged(rt, publisher)
}

fn open_while_replaced<R: Abort + Wait>(
    rt: &R,
    alloc: Global,
    publisher: &mut Publisher,
    session: &mut Session,
    keeper: &mut Keeper,
) -> Result<(), Fail>
    requires { session.old.walk.table ≡ keeper.old.table }
{
    let (allowing, denying) = (allowing(alloc)?, denying(alloc)?);
    expect_both(rt, session, keeper, &twice(Verdict::Allowed, 1))?;
    assert_eq!(rt; publish(rt, publisher, b"p", &denying)?, 2);
    expect_both(rt, session, keeper, &twice(Verdict::Denied { rule: 1 }, 2))?;
    assert_eq!(rt; remove(rt, publisher, b"p")?, 3);
    expect_both(rt, session, keeper, &unknown_twice(3))?;
    assert_eq!(rt; publish(rt, publisher, b"p", &allowing)?, 4);
    expect_both(rt, session, keeper, &twice(Verdict::Allowed, 4))?;
    // Nothing changes under the session's name.
    assert_eq!(rt; publish(rt, publisher, b"q", &denying)?, 5);
    expect_both(rt, session, keeper, &twice(Verdict::Allowed, 5))
}

fn replace_between_opens<R: Abort + Wait>(
    rt: &R,
    alloc: Global,
    publisher: &mut Publisher,
) -> Result<(), Fail> {
    let (mut keeper, mut session) = first_session(rt, alloc, publisher, b"p")?;
    open_while_replaced(rt, alloc, publisher, &mut session, &mut keeper)
}

#[test]
fn a_profile_is_replaced(rt: HostRuntime) -> Result<(), Fail> {
    let mut publisher = new_publisher(rt.alloc())?;
    let outcome = replace_between_opens(&rt, rt.alloc(), &mut publisher);
    publisher.close(&rt);
    outcome
}

fn open_by_each(rt: &impl Abort, session: &mut Session, keeper: &mut Keeper) -> Result<(), Fail>
    requires { session.old.walk.table ≡ keeper.old.table }
{
    expect_both(rt, session, keeper, &twice(Verdict::Allowed, 2))?;
    select(session, b"q")?;
    expect_both(rt, session, keeper, &twice(Verdict::Denied { rule: 1 }, 2))?;
    select(session, b"r")?;
    expect_both(rt, session, keeper, &unknown_twice(2))?;
    select(session, b"p")?;
    expect_both(rt, session, keeper, &twice(Verdict::Allowed, 2))
}

fn select_at_one_version<R: Abort + Wait>(
    rt: &R,
    alloc: Global,
    publisher: &mut Publisher,
) -> Result<(), Fail> {
    let (mut keeper, mut session) = first_session(rt, alloc, publisher, b"p")?;
    assert_eq!(rt; publish(rt, publisher, b"q", &denying(alloc)?)?, 2);
    open_by_each(rt, &mut session, &mut keeper)
}

#[test]
fn profiles_are_selected_at_one_version(rt: HostRuntime) -> Result<(), Fail> {
    let mut publisher = new_publisher(rt.alloc())?;
    let outcome = select_at_one_version(&rt, rt.alloc(), &mut publisher);
    publisher.close(&rt);
    outcome
}

// A link that the profile allows by its rules for names, but which would allow more than the old name does.
fn wider_link(policy_version: u64) -> Result<LinkAnswer, Fail> {
    Ok(LinkAnswer::NotAllowed {
        verdict: LinkVerdict::Wider {
            extra: perms(b"wa")?,
        },
        node: FILE,
        tree_version: TREE,
        policy_version,
    })
}

// The answer to such an open where the publisher is held exclusively and the file is allowed.
fn allowed_with_both(policy_version: u64) -> mediation::Answer {
    mediation::Answer::Judged {
        verdict: Verdict::Allowed,
        node: FILE,
        tree_version: TREE,
        policy_version,
    }
}

// Opens and links in turn, with the publisher held exclusively and without it.
fn expect_all(
    rt: &impl Abort,
    publisher: &mut Publisher,
    session: &mut Session,
    keeper: &mut Keeper,
    policy_version: u64,
) -> Result<(), Fail>
    requires row { session.old.walk.table ≡ keeper.old.table }
    requires policy { IsPrefix session.old.reading.learned publisher.old.published }
    ensures same { (keeper.new.table ≡ keeper.old.table) × (publisher.new ≡ publisher.old) }
    ensures of { session.new.walk.table ≡ session.old.walk.table }
    ensures learned { IsPrefix session.new.reading.learned publisher.old.published }
{
    let read = perms(b"r")?;
    let opened = session.open_with_both(keeper, publisher, b"/d/f", read);
    assert_eq!(rt; opened, Ok(allowed_with_both(policy_version)));
    expect_beside(rt, session, &twice(Verdict::Allowed, policy_version))?;
    let wider = wider_link(policy_version)?;
    let linked = session.link_with_both(keeper, publisher, b"/d/f", b"/n");
    assert_eq!(rt; linked, Ok(wider));
    let linked = session.link_with(keeper, b"/d/f", b"/n");
    assert_eq!(rt; linked, Ok(wider));
    expect_beside(rt, session, &twice(Verdict::Allowed, policy_version))
}

fn expect_denied(
    rt: &impl Abort,
    publisher: &mut Publisher,
    session: &mut Session,
    keeper: &mut Keeper,
    policy_version: u64,
) -> Result<(), Fail>
    requires row { session.old.walk.table ≡ keeper.old.table }
    requires policy { IsPrefix session.old.reading.learned publisher.old.published }
{
    let denied = LinkAnswer::NotAllowed {
        verdict: LinkVerdict::Refused(Verdict::NoRule {
            missing: perms(b"l")?,
        }),
        node: FILE,
        tree_version: TREE,
        policy_version,
    };
    let linked = session.link_with(keeper, b"/d/f", b"/n");
    assert_eq!(rt; linked, Ok(denied));
    let linked = session.link_with_both(keeper, publisher, b"/d/f", b"/n");
    assert_eq!(rt; linked, Ok(denied));
    expect_beside(
        rt,
        session,
        &twice(Verdict::Denied { rule: 1 }, policy_version),
    )
}

fn call_while_replaced<R: Abort + Wait>(
    rt: &R,
    alloc: Global,
    publisher: &mut Publisher,
    session: &mut Session,
    keeper: &mut Keeper,
) -> Result<(), Fail>
    requires row { session.old.walk.table ≡ keeper.old.table }
    requires policy { IsPrefix session.old.reading.learned publisher.old.published }
{
    let denying = denying(alloc)?;
    expect_all(rt, publisher, session, keeper, 1)?;
    assert_eq!(rt; publish(rt, publisher, b"q", &denying)?, 2);
    expect_all(rt, publisher, session, keeper, 2)?;
    assert_eq!(rt; publish(rt, publisher, b"p", &denying)?, 3);
    expect_denied(rt, publisher, session, keeper, 3)
}

fn replace_between_calls<R: Abort + Wait>(
    rt: &R,
    alloc: Global,
    publisher: &mut Publisher,
) -> Result<(), Fail> {
    let (mut keeper, mut session) = first_session(rt, alloc, publisher, b"p")?;
    call_while_replaced(rt, alloc, publisher, &mut session, &mut keeper)
}

#[test]
fn all_calls_see_the_replaced_profile(rt: HostRuntime) -> Result<(), Fail> {
    let mut publisher = new_publisher(rt.alloc())?;
    let outcome = replace_between_calls(&rt, rt.alloc(), &mut publisher);
    publisher.close(&rt);
    outcome
}
