//! A keeper's changes, and walks concurrent with it.
ghost use Rattle.std.specs.Prelude.{◌≡◌};

use crate::fixtures::{apply, keeper, walker};
use crate::lines::change;
use dentry_cache::{Attempt, Busy, Keeper, Walker};
use directory_tree::Change;
use names::Errno;
use path_lookup::Look;
use std::process::Abort;
use std::test::Fail;
use test_parts::path;
use tree_row::RowLook;

/// Returns whether the root has this entry, and how the walk ended.
pub(crate) fn look(walker: Walker, component: &[u8]) -> (Walker, Option<bool>, Result<u64, Busy>)
    ensures { result.0.table ≡ walker.table }
{
    let mut look: RowLook<Attempt> = RowLook::new(walker.begin());
    let root = look.root();
    let found = look.child(root, component).ok().map(|slot| slot.is_some());
    let (walker, ended) = look.into_cells().end();
    (walker, found, ended)
}

fn expect_look(
    rt: &impl Abort,
    walker: Walker,
    component: &[u8],
    is_there: bool,
    version: u64,
) -> Walker {
    let (walker, found, ended) = look(walker, component);
    assert_eq!(rt; (found, ended), (Some(is_there), Ok(version)));
    walker
}

fn expect_answers(
    rt: &impl Abort,
    keeper: &mut Keeper,
    rows: &[(&str, Result<u64, Errno>)],
) -> Result<(), Fail> {
    for (line, answer) in rows {
        let made = change(line)?;
        let version = keeper.version();
        assert_eq!(rt; keeper.test(&made).err(), answer.err(), "{line}");
        assert_eq!(rt; keeper.version(), version, "{line}");
        assert_eq!(rt; apply(keeper, &made), *answer, "{line}");
    }
    Ok(())
}

const FIRST: [(&str, Result<u64, Errno>); 2] = [
    ("mkdir /a", Ok(1)),
    ("mkdir /a", Err(Errno::EEXIST)),
];

const MORE: [(&str, Result<u64, Errno>); 3] = [
    ("create /a/b", Ok(2)),
    ("mkdir /c", Err(Errno::ENOSPC)),
    ("rename /a /d", Ok(3)),
];

#[test]
fn changes_are_seen(rt: HostRuntime) -> Result<(), Fail> {
    let mut keeper = keeper(rt.alloc(), 2)?;
    expect_answers(&rt, &mut keeper, &FIRST)?;
    let walker = expect_look(&rt, walker(&mut keeper)?, b"a", true, 1);
    expect_answers(&rt, &mut keeper, &MORE)?;
    let walker = expect_look(&rt, walker, b"a", false, 3);
    expect_look(&rt, walker.begin().stop(), b"d", true, 3);
    assert_eq!(rt; (keeper.version(), keeper.capacity()), (3, 2));
    Ok(())
}

#[test]
fn a_walker_meets_its_keeper(rt: HostRuntime) -> Result<(), Fail> {
    let mut keeper = keeper(rt.alloc(), 2)?;
    let mut walker = walker(&mut keeper)?;
    keeper.meet(&mut walker);
    let attempt = walker.begin();
    assert_eq!(rt; attempt.began(), 0);
    let (_, found, ended) = look(attempt.stop(), b"a");
    assert_eq!(rt; (found, ended), (Some(false), Ok(0)));
    Ok(())
}

#[test]
fn a_walk_beside_a_change_is_busy(rt: HostRuntime) -> Result<(), Fail> {
    let mut keeper = keeper(rt.alloc(), 2)?;
    let attempt = walker(&mut keeper)?.begin();
    assert_eq!(rt; keeper.apply(&Change::Mkdir(path(b"/a")?)), Ok(1));
    let (_, ended) = attempt.end();
    assert_eq!(rt; ended, Err(Busy { began: 0, ended: 2 }));
    Ok(())
}
