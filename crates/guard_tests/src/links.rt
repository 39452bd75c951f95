//! Hard links by a guard.
ghost use Rattle.std.specs.Prelude.{◌≡◌};

use crate::fixtures::{allowed, create, keeper, publish, session, to_read};
use dentry_cache::Keeper;
use names::{Errno, Permission, Perms};
use path_guard::{Guard, LinkAnswer, Row, Session};
use profile_registry::Publisher;
use rule_judge::LinkVerdict;
use std::alloc::Global;
use std::marker::Brand;
use std::process::Abort;
use std::sync::Wait;
use std::test::Fail;

fn expect_made<M: Row>(rt: &(impl Abort + Wait), guard: &Guard<M>, session: &mut Session)
    requires { session.old.walk.table ≡ M.table }
    ensures { session.new.walk.table ≡ M.table }
{
    let made = LinkAnswer::Linked {
        node: 2,
        tree_version: 2,
        policy_version: 1,
    };
    assert_eq!(rt; guard.link(rt, session, b"/f", b"/g"), Ok(made));
    let answer = guard.open(rt, session, b"/g", to_read());
    assert_eq!(rt; answer, allowed(2, 2, 1));
}

fn expect_unmade<M: Row>(rt: &(impl Abort + Wait), guard: &Guard<M>, session: &mut Session)
    requires { session.old.walk.table ≡ M.table }
{
    let wider = LinkAnswer::NotAllowed {
        verdict: LinkVerdict::Wider {
            extra: Perms::NONE.with(Permission::Write).with(Permission::Append),
        },
        node: 2,
        tree_version: 2,
        policy_version: 1,
    };
    assert_eq!(rt; guard.link(rt, session, b"/f", b"/h"), Ok(wider));
    let there = LinkAnswer::Failed {
        errno: Errno::EEXIST,
        tree_version: 2,
    };
    assert_eq!(rt; guard.link(rt, session, b"/f", b"/g"), Ok(there));
}

const RULES: &[u8] = b"profile p {\n  /f r,\n  /g rl,\n  /h rwl,\n}\n";

fn links_of<M: Row, R: Abort + Wait>(rt: &R, alloc: Global, guard: &Guard<M>) -> Result<(), Fail> {
    create(rt, guard, b"/f")?;
    publish(rt, alloc, guard, RULES)?;
    let mut session = session(rt, guard)?;
    expect_made(rt, guard, &mut session);
    expect_unmade(rt, guard, &mut session);
    Ok(())
}

fn links_by<M: Row, R: Abort + Wait>(
    rt: &R,
    alloc: Global,
    keeper: Keeper,
    publisher: Publisher,
) -> Result<(), Fail>
    requires { keeper.table ≡ M.table }
{
    let guard: Guard<M> = Guard::new(alloc, keeper, publisher);
    let outcome = links_of(rt, alloc, &guard);
    guard.close(rt);
    outcome
}

#[test]
fn links(rt: HostRuntime) -> Result<(), Fail> {
    let keeper = keeper(rt.alloc())?;
    let publisher = Publisher::new(rt.alloc())?;
    links_by::<Brand, _>(&rt, rt.alloc(), keeper, publisher)
}
