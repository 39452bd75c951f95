//! Opens concurrent with changes of the tree.
use crate::machine::scene::{begin, make, open_for, policy, rename, scene, set_all, take};
use directory_tree::Change;
use interleaving_core::{Answer, Core, Event, EventMachine, run};
use matcher::PolicyChange;
use names::Verdict;
use std::alloc::Global;
use std::process::Abort;
use std::test::Fail;
use test_parts::{path, perms};

fn judged(verdict: Verdict, tree_version: u64) -> Answer {
    Answer::Judged {
        verdict,
        node: 3,
        tree_version,
        policy_version: 1,
    }
}

/// A change of the tree, with more cells than it needs: the others are passed over.
fn add_change<'a>(events: &mut Vec<Event<'a>>, change: &'a Change<'a>) -> Result<(), Fail> {
    events.push(Event::Open(change))?;
    for _ in 0..20 {
        events.push(Event::CellSet)?;
    }
    events.push(Event::Close)?;
    Ok(())
}

/// A call, with more cells than it needs, and a publication within.
fn add_call<'a>(
    events: &mut Vec<Event<'a>>,
    session: u32,
    policy: &'a [PolicyChange],
) -> Result<(), Fail> {
    events.push(begin(session, b"/d/f")?)?;
    events.push(Event::PolicyRead(session))?;
    events.push(Event::Publish(policy))?;
    events.push(Event::CountRead(session))?;
    for _ in 0..100 {
        events.push(Event::CellRead(session))?;
    }
    events.push(Event::CountCheck(session))?;
    events.push(Event::Answer(session))?;
    Ok(())
}

fn events_of<'a>(
    alloc: Global,
    directory: &'a Change<'a>,
    file: &'a Change<'a>,
    policy: &'a [PolicyChange],
) -> Result<Vec<Event<'a>>, Fail> {
    let mut events = Vec::new(alloc);
    events.push(Event::Answer(7))?;
    add_change(&mut events, directory)?;
    add_change(&mut events, file)?;
    add_call(&mut events, 7, policy)?;
    add_call(&mut events, 9, policy)?;
    Ok(events)
}

fn expect_told(rt: &impl Abort, core: &Core, answers: &[(u32, Answer)]) {
    let told = [
        (7, Answer::NoProfile { policy_version: 0 }),
        (9, judged(Verdict::Allowed, 2)),
    ];
    assert_eq!(rt; answers, told.as_slice());
    assert_eq!(rt; (core.tree_version(), core.policy_version()), (2, 2));
    assert_eq!(rt; core.name(7), b"".as_slice());
    assert_eq!(rt; core.name(9), b"/d/f".as_slice());
}

fn run_list(rt: &impl Abort, alloc: Global, policy: &[PolicyChange]) -> Result<(), Fail> {
    let directory = Change::Mkdir(path(b"/d")?);
    let file = Change::Create(path(b"/d/f")?);
    let events = events_of(alloc, &directory, &file, policy)?;
    let mut core = Core::new(alloc, 4).ok().ok_or("memory")?;
    let answers = run(&mut core, &events).ok().ok_or("memory")?;
    expect_told(rt, &core, &answers);
    Ok(())
}

#[test]
fn a_list_of_events(rt: HostRuntime) -> Result<(), Fail> {
    let policy = [policy(rt.alloc())?];
    run_list(&rt, rt.alloc(), &policy)
}

// A walk that goes on to its end.
fn walk(rt: &impl Abort, core: &mut Core, session: u32) {
    let cells = core.read_cells(session, 1000);
    assert!(rt; matches!(&cells, Ok(count) if *count > 0));
    assert_eq!(rt; core.read_cells(session, 1000), Ok(0));
}

// All that a call reads of the tree.
fn read_tree(rt: &impl Abort, core: &mut Core, session: u32) {
    take(rt, core, &Event::CountRead(session));
    walk(rt, core, session);
    take(rt, core, &Event::CountCheck(session));
}

fn expect_answer(rt: &impl Abort, core: &mut Core, session: u32, answer: Answer, name: &[u8]) {
    assert_eq!(rt; core.step(&Event::Answer(session)), Ok(Some(answer)));
    assert_eq!(rt; core.name(session), name);
}

// The tree is read after one change, and before another.
fn open_between(
    rt: &impl Abort,
    core: &mut Core,
    there: &Change<'_>,
    on: &Change<'_>,
) -> Result<(), Fail> {
    take(rt, core, &begin(1, b"/e/f")?);
    take(rt, core, &Event::PolicyRead(1));
    make(rt, core, there);
    read_tree(rt, core, 1);
    make(rt, core, on);
    Ok(())
}

#[test]
fn an_open_between_two_renames(rt: HostRuntime) -> Result<(), Fail> {
    let (there, on) = (rename(b"/d", b"/e")?, rename(b"/e", b"/g")?);
    let mut core = scene(&rt, rt.alloc())?;
    open_between(&rt, &mut core, &there, &on)?;
    expect_answer(&rt, &mut core, 1, judged(Verdict::Allowed, 3), b"/e/f");
    assert_eq!(rt; core.tree_version(), 4);
    Ok(())
}

// Two calls have begun. The first has read the count.
fn begin_both(rt: &impl Abort, core: &mut Core) -> Result<(), Fail> {
    take(rt, core, &begin(1, b"/d/f")?);
    take(rt, core, &begin(2, b"/d/f")?);
    for event in &[
        Event::PolicyRead(1),
        Event::PolicyRead(2),
        Event::CountRead(1),
    ] {
        take(rt, core, event);
    }
    Ok(())
}

// The second reads the count while a change is open.
fn disturb(rt: &impl Abort, core: &mut Core, change: &Change<'_>) {
    take(rt, core, &Event::Open(change));
    assert!(rt; core.has_open_change());
    take(rt, core, &Event::CountRead(2));
    set_all(rt, core);
    take(rt, core, &Event::Close);
}

// The second found an odd count, and reads no cell.
fn end_both(rt: &impl Abort, core: &mut Core) {
    assert_eq!(rt; core.read_cells(2, 1000), Ok(0));
    walk(rt, core, 1);
    take(rt, core, &Event::CountCheck(1));
    take(rt, core, &Event::CountCheck(2));
}

#[test]
fn a_disturbed_walk_is_busy(rt: HostRuntime) -> Result<(), Fail> {
    let change = rename(b"/d", b"/e")?;
    let mut core = scene(&rt, rt.alloc())?;
    begin_both(&rt, &mut core)?;
    disturb(&rt, &mut core, &change);
    end_both(&rt, &mut core);
    expect_answer(&rt, &mut core, 1, Answer::Busy { began: 4, ended: 6 }, b"");
    expect_answer(&rt, &mut core, 2, Answer::Busy { began: 5, ended: 6 }, b"");
    Ok(())
}

// The policy is read before the removal, and the tree after it.
fn open_around(rt: &impl Abort, core: &mut Core, removal: &[PolicyChange]) -> Result<(), Fail> {
    take(rt, core, &open_for(1, b"/d/f", perms(b"rw")?));
    take(rt, core, &Event::PolicyRead(1));
    take(rt, core, &Event::Publish(removal));
    read_tree(rt, core, 1);
    Ok(())
}

#[test]
fn a_profile_is_removed_after_it_was_read(rt: HostRuntime) -> Result<(), Fail> {
    let missing = perms(b"w")?;
    let removal = [PolicyChange::Remove(Vec::from_slice(rt.alloc(), b"p")?)];
    let mut core = scene(&rt, rt.alloc())?;
    open_around(&rt, &mut core, &removal)?;
    expect_answer(
        &rt,
        &mut core,
        1,
        judged(Verdict::NoRule { missing }, 2),
        b"/d/f",
    );
    assert_eq!(rt; core.policy_version(), 2);
    Ok(())
}
