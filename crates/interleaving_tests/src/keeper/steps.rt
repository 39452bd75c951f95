//! The steps of a keeper, one after another.
use directory_tree::Change;
use event_machine::StepFault;
use names::{Errno, Path};
use row_keeper::{NotNow, SteppedKeeper};
use std::alloc::Global;
use std::process::Abort;
use std::test::Fail;

fn mkdir(path: &[u8]) -> Result<Change<'_>, Fail> {
    Ok(Change::Mkdir(Path::check(path).ok().ok_or("a path")?))
}

fn keeper(alloc: Global) -> Result<SteppedKeeper, Fail> {
    Ok(SteppedKeeper::new(alloc, 2).ok().ok_or("memory")?)
}

// Makes a change, and returns how many cells it set.
fn make(keeper: &mut SteppedKeeper, change: &Change<'_>) -> Result<usize, Fail> {
    keeper.open(change).ok().ok_or("not opened")?;
    let cells = keeper.cells_left().ok_or("no change is open")?;
    for _ in 0..cells {
        keeper.set().ok().ok_or("not set")?;
    }
    keeper.close().ok().ok_or("not closed")?;
    Ok(cells)
}

fn expect_no_change(rt: &impl Abort, keeper: &mut SteppedKeeper, change: &Change<'_>) {
    assert_eq!(rt; keeper.capacity(), 2);
    assert_eq!(rt; keeper.cells_left(), None);
    assert_eq!(rt; keeper.set(), Err(NotNow));
    assert_eq!(rt; keeper.close(), Err(NotNow));
    // The slot after the root's: its kind, node, parent (which is 0 already), length and component; and one word of the index.
    assert_eq!(rt; keeper.test(change), Ok(Ok(5)));
}

fn expect_open_change(rt: &impl Abort, keeper: &mut SteppedKeeper, change: &Change<'_>) {
    assert_eq!(rt; (keeper.count(), keeper.version()), (1, 0));
    assert_eq!(rt; keeper.open(change), Err(StepFault::NotNow));
    assert_eq!(rt; keeper.test(change), Err(StepFault::NotNow));
    assert_eq!(rt; keeper.close(), Err(NotNow));
}

fn expect_cells(rt: &impl Abort, keeper: &mut SteppedKeeper) {
    for left in 0..5 {
        assert_eq!(rt; keeper.cells_left(), Some(5 - left));
        assert_eq!(rt; keeper.set(), Ok(()));
    }
    assert_eq!(rt; keeper.set(), Err(NotNow));
    assert_eq!(rt; (keeper.count(), keeper.version()), (1, 0));
}

// In parts, since a function with many assertions is dear to prove.
#[test]
fn steps_of_one_change(rt: HostRuntime) -> Result<(), Fail> {
    let mut keeper = keeper(rt.alloc())?;
    let change = mkdir(b"/a")?;
    expect_no_change(&rt, &mut keeper, &change);
    assert_eq!(rt; keeper.open(&change), Ok(()));
    expect_open_change(&rt, &mut keeper, &change);
    expect_cells(&rt, &mut keeper);
    assert_eq!(rt; keeper.close(), Ok(()));
    assert_eq!(rt; (keeper.count(), keeper.version()), (2, 1));
    assert_eq!(rt; keeper.cells_left(), None);
    Ok(())
}

#[test]
fn changes_until_no_room(rt: HostRuntime) -> Result<(), Fail> {
    let mut keeper = keeper(rt.alloc())?;
    assert_eq!(rt; make(&mut keeper, &mkdir(b"/a")?)?, 5);
    assert_eq!(rt; keeper.test(&mkdir(b"/a")?), Ok(Err(Errno::EEXIST)));
    assert_eq!(rt; keeper.open(&mkdir(b"/a")?), Err(StepFault::NotNow));
    // Here the parent is another word than 0.
    assert_eq!(rt; make(&mut keeper, &mkdir(b"/a/b")?)?, 6);
    assert_eq!(rt; keeper.test(&mkdir(b"/c")?), Ok(Err(Errno::ENOSPC)));
    assert_eq!(rt; (keeper.count(), keeper.version()), (4, 2));
    Ok(())
}
