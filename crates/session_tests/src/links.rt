//! Hard links, made and not made.
ghost use Rattle.std.specs.Prelude.{◌≡◌};

use crate::fixtures::{
    FILE, TREE, expect_beside, expect_with, first_session, judged, opened, unjudged,
};
use dentry_cache::Keeper;
use names::{Errno, Perms};
use path_session::{LinkAnswer, Session, Unanswered};
use profile_registry::Publisher;
use rule_text::{LinkVerdict, Verdict};
use std::alloc::Global;
use std::process::Abort;
use std::sync::Wait;
use std::test::Fail;
use storm_parts::{failed, new_publisher, select};
use test_parts::perms;

// Makes a link. If an allocation fails nothing is made, and the link is requested again.
fn link(
    rt: &impl Abort,
    session: &mut Session,
    keeper: &mut Keeper,
    old: &[u8],
    new: &[u8],
) -> Result<LinkAnswer, Unanswered>
    ensures same { keeper.new.table ≡ keeper.old.table }
    ensures of { session.new.walk ≡ session.old.walk }
{
    let version = keeper.version();
    match session.link_with(keeper, old, new) {
        Err(Unanswered::NoMemory) => {
            assert_eq!(rt; keeper.version(), version);
            assert!(rt; session.name().is_empty());
            session.link_with(keeper, old, new)
        }
        answer => answer,
    }
}

// A link that isn't made, why, and the name that is judged, if one is.
#[derive(Clone, Copy)]
struct Unmade<'a> {
    old: &'a [u8],
    new: &'a [u8],
    answer: LinkAnswer,
    name: &'a [u8],
}

fn refused<'a>(new: &'a [u8], verdict: LinkVerdict) -> Unmade<'a> {
    Unmade {
        old: b"/l/f",
        new,
        answer: LinkAnswer::NotAllowed {
            verdict,
            node: FILE,
            tree_version: TREE,
            policy_version: 1,
        },
        name: new,
    }
}

fn fails<'a>(old: &'a [u8], new: &'a [u8], errno: Errno) -> Unmade<'a> {
    Unmade {
        old,
        new,
        answer: LinkAnswer::Failed {
            errno,
            tree_version: TREE,
        },
        name: b"",
    }
}

// Links that the profile doesn't allow, each for a different reason.
fn not_allowed<'a>(link: Perms, write: Perms) -> [Unmade<'a>; 3] {
    [
        refused(b"/n", LinkVerdict::Wider { extra: write }),
        refused(
            b"/o",
            LinkVerdict::Refused(Verdict::NoRule { missing: link }),
        ),
        refused(b"/b", LinkVerdict::Refused(Verdict::Denied { rule: 6 })),
    ]
}

// Links that the tree refuses, whatever the profile says.
fn failures<'a>() -> [Unmade<'a>; 4] {
    [
        fails(b"/x", b"/m", Errno::ENOENT),
        fails(b"/d", b"/m", Errno::EPERM),
        fails(b"/d/f", b"/d/f", Errno::EEXIST),
        fails(b"", b"/b", Errno::ENOENT),
    ]
}

// Nothing is changed: walks concurrent with the keeper still see the version before, and that the new name doesn't exist.
fn expect_unmade(
    rt: &impl Abort,
    session: &mut Session,
    keeper: &mut Keeper,
    rows: &[Unmade<'_>],
) -> Result<(), Fail>
    requires { session.old.walk.table ≡ keeper.old.table }
    ensures same { keeper.new.table ≡ keeper.old.table }
    ensures of { session.new.walk.table ≡ session.old.walk.table }
{
    for unmade in rows {
        let answer = link(rt, session, keeper, unmade.old, unmade.new);
        assert_eq!(rt; answer, Ok(unmade.answer), "{:?}", unmade.new);
        assert!(rt; session.name() == unmade.name, "{:?}", unmade.new);
        assert_eq!(rt; keeper.version(), TREE);
        let untouched = [
            opened(b"/d/f", b"r", judged(Verdict::Allowed, FILE, TREE), b"/d/f"),
            unjudged(b"/m", failed(Errno::ENOENT, TREE)),
            unjudged(b"/n", failed(Errno::ENOENT, TREE)),
            unjudged(b"/o", failed(Errno::ENOENT, TREE)),
            unjudged(b"/b", failed(Errno::ENOENT, TREE)),
        ];
        expect_beside(rt, session, &untouched)?;
        expect_with(rt, session, keeper, &untouched)?;
    }
    Ok(())
}

// A link that is allowed. The file has one more name from the next version on.
fn expect_made(rt: &impl Abort, session: &mut Session, keeper: &mut Keeper) -> Result<(), Fail>
    requires { session.old.walk.table ≡ keeper.old.table }
{
    let linked = LinkAnswer::Linked {
        node: FILE,
        tree_version: 6,
        policy_version: 1,
    };
    assert_eq!(rt; link(rt, session, keeper, b"/l/f", b"/m"), Ok(linked));
    assert!(rt; session.name() == b"/m".as_slice());
    assert_eq!(rt; keeper.version(), 6);
    let both = [
        opened(b"/m", b"r", judged(Verdict::Allowed, FILE, 6), b"/m"),
        opened(b"/d/f", b"r", judged(Verdict::Allowed, FILE, 6), b"/d/f"),
    ];
    expect_beside(rt, session, &both)?;
    expect_with(rt, session, keeper, &both)
}

// By a profile that isn't published.
fn expect_unknown(rt: &impl Abort, session: &mut Session, keeper: &mut Keeper)
    ensures same { keeper.new.table ≡ keeper.old.table }
    ensures of { session.new.walk ≡ session.old.walk }
{
    let unknown = LinkAnswer::NoProfile { policy_version: 1 };
    assert_eq!(rt; link(rt, session, keeper, b"/d/f", b"/m"), Ok(unknown));
    assert!(rt; session.name().is_empty());
    assert_eq!(rt; keeper.version(), TREE);
}

fn make_links(rt: &impl Abort, session: &mut Session, keeper: &mut Keeper) -> Result<(), Fail>
    requires { session.old.walk.table ≡ keeper.old.table }
{
    expect_unknown(rt, session, keeper);
    select(session, b"p")?;
    let unmade = not_allowed(perms(b"l")?, perms(b"wa")?);
    expect_unmade(rt, session, keeper, &unmade)?;
    expect_unmade(rt, session, keeper, &failures())?;
    expect_made(rt, session, keeper)
}

fn links<R: Abort + Wait>(rt: &R, alloc: Global, publisher: &mut Publisher) -> Result<(), Fail> {
    let (mut keeper, mut session) = first_session(rt, alloc, publisher, b"q")?;
    make_links(rt, &mut session, &mut keeper)
}

#[test]
fn links_of_all_kinds(rt: HostRuntime) -> Result<(), Fail> {
    let mut publisher = new_publisher(rt.alloc())?;
    let outcome = links(&rt, rt.alloc(), &mut publisher);
    publisher.close(&rt);
    outcome
}
