//! Events that aren't legal.
use crate::machine::scene::{begin, make, rename, scene, set_all, take};
use directory_tree::Change;
use interleaving_core::{Core, Event, EventMachine, StepFault};
use names::Errno;
use std::process::Abort;
use std::test::Fail;
use test_parts::path;

fn refuse(rt: &impl Abort, core: &mut Core, event: &Event<'_>) {
    let versions = (core.tree_version(), core.policy_version());
    assert_eq!(rt; core.step(event), Err(StepFault::NotNow));
    assert_eq!(rt; (core.tree_version(), core.policy_version()), versions);
}

// In the place of the step of this number no other one is taken, and no answer.
fn refuse_others(rt: &impl Abort, core: &mut Core, steps: &[Event<'_>], at: usize) {
    for (other, step) in steps.iter().enumerate() {
        if other != at {
            refuse(rt, core, step);
        }
    }
    refuse(rt, core, &Event::Answer(1));
}

fn take_turns(rt: &impl Abort, core: &mut Core, steps: &[Event<'_>]) {
    for (at, step) in steps.iter().enumerate() {
        refuse_others(rt, core, steps, at);
        if matches!(step, Event::CellRead(_)) {
            assert!(rt; core.read_cells(1, 1000).is_ok());
        } else {
            take(rt, core, step);
        }
    }
    for step in steps {
        refuse(rt, core, step);
    }
}

#[test]
fn sessions_take_turns(rt: HostRuntime) -> Result<(), Fail> {
    let steps = [
        begin(1, b"/d/f")?,
        Event::PolicyRead(1),
        Event::CountRead(1),
        Event::CellRead(1),
        Event::CountCheck(1),
    ];
    let mut core = scene(&rt, rt.alloc())?;
    take_turns(&rt, &mut core, &steps);
    assert!(rt; matches!(core.step(&Event::Answer(1)), Ok(Some(_))));
    refuse(&rt, &mut core, &Event::Answer(1));
    Ok(())
}

fn refuse_while_none_is_open(rt: &impl Abort, core: &mut Core, refused: &Change<'_>) {
    refuse(rt, core, &Event::CellSet);
    refuse(rt, core, &Event::Close);
    refuse(rt, core, &Event::Open(refused));
    assert_eq!(rt; core.test(refused), Ok(Err(Errno::ENOENT)));
}

fn refuse_while_one_is_open(rt: &impl Abort, core: &mut Core, accepted: &Change<'_>) {
    assert_eq!(rt; core.test(accepted), Err(StepFault::NotNow));
    refuse(rt, core, &Event::Open(accepted));
    refuse(rt, core, &Event::Close);
}

// Sets all cells of the open change, and returns how many there were.
fn count_cells(core: &mut Core) -> usize {
    let mut set: usize = 0;
    for _ in 0..1000 {
        if core.step(&Event::CellSet).is_ok() {
            set = set.saturating_add(1);
        }
    }
    set
}

#[test]
fn the_keeper_makes_one_change_at_a_time(rt: HostRuntime) -> Result<(), Fail> {
    let (refused, accepted) = (rename(b"/x", b"/y")?, rename(b"/d", b"/e")?);
    let mut core = scene(&rt, rt.alloc())?;
    refuse_while_none_is_open(&rt, &mut core, &refused);
    let cells = core.test(&accepted);
    take(&rt, &mut core, &Event::Open(&accepted));
    refuse_while_one_is_open(&rt, &mut core, &accepted);
    assert_eq!(rt; cells, Ok(Ok(count_cells(&mut core))));
    take(&rt, &mut core, &Event::Close);
    assert!(rt; !core.has_open_change());
    Ok(())
}

#[test]
fn something_is_published(rt: HostRuntime) -> Result<(), Fail> {
    let mut core = scene(&rt, rt.alloc())?;
    refuse(&rt, &mut core, &Event::Publish(&[]));
    Ok(())
}

fn fill(rt: &impl Abort, core: &mut Core) -> Result<(), Fail> {
    make(rt, core, &Change::Mkdir(path(b"/a")?));
    make(rt, core, &Change::Mkdir(path(b"/b")?));
    Ok(())
}

#[test]
fn a_full_row_takes_no_entry(rt: HostRuntime) -> Result<(), Fail> {
    let more = Change::Mkdir(path(b"/c")?);
    let mut core = scene(&rt, rt.alloc())?;
    fill(&rt, &mut core)?;
    refuse(&rt, &mut core, &Event::Open(&more));
    assert_eq!(rt; core.test(&more), Ok(Err(Errno::ENOSPC)));
    set_all(&rt, &mut core);
    assert_eq!(rt; core.tree_version(), 4);
    Ok(())
}
