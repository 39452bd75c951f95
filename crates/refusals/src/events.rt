//! The machine over events: changes of a tree, rules that are published, and opens by sessions, one step after another.
use crate::answers::Named;
use directory_tree::Change;
use interleaving_core::{Answer, Core, Event, EventMachine, StepFault};
use justification::justify;
use matcher::PolicyChange;
use names::{Errno, NoMemory, Permission, Perms};
use std::alloc::{AllocError, Global};
use std::io::Print;
use storm_parts::{Call, Difference, Hash, How, Stop, again, expect, expect_ok, path, shared_of};

/// Room for the entries of the tree.
const ROOM: usize = 4;

/// No change sets more cells than this, and no walk reads more.
const MOST_CELLS: usize = 1000;

const RULES: &[u8] = b"profile p {\n  /d/* r,\n  /e/* rw,\n}\n";

/// All that is done to the tree and the policy.
#[derive(Drop)]
struct Lists<'a> {
    changes: &'a [Change<'a>],
    policy: &'a [PolicyChange],
}

/// What the machine says of itself.
#[derive(Clone, Copy, Debug, PartialEq, Eq)]
struct State {
    tree_version: u64,
    policy_version: u64,
    has_open_change: bool,
    names: [Hash; 2],
}

/// Prints how opens are answered before, during and after a change.
pub(crate) fn show_events<R: Print>(rt: &R, alloc: Global) -> Result<(), Stop> {
    let changes = [
        Change::Mkdir(path(b"/d")?),
        Change::Create(path(b"/d/f")?),
        Change::Rename(path(b"/d")?, path(b"/e")?),
    ];
    let policy = [replacement(alloc)?];
    let lists = Lists {
        changes: &changes,
        policy: &policy,
    };
    let mut core = again(Call::NewCore, NoMemory, || Core::new(alloc, ROOM))?;
    make(&mut core, &changes[0])?;
    make(&mut core, &changes[1])?;
    take(&mut core, &Event::Publish(&policy))?;
    show_open(rt, alloc, &mut core, &lists, b"/d/f")?;
    show_open_amid(rt, alloc, &mut core, &lists, b"/d/f")?;
    show_open(rt, alloc, &mut core, &lists, b"/d/f")?;
    show_open(rt, alloc, &mut core, &lists, b"/e/f")
}

// What the sessions ask for.
fn ask() -> Perms {
    Perms::NONE.with(Permission::Read)
}

// The rules, published under the name `p`.
fn replacement(alloc: Global) -> Result<PolicyChange, Difference> {
    let profile = shared_of(alloc, RULES)?;
    let name = again(Call::CopyName, AllocError, || Vec::from_slice(alloc, b"p"))?;
    Ok(PolicyChange::Replace(name, profile))
}

// Makes a change of the tree.
fn make(core: &mut Core, change: &Change<'_>) -> Result<(), Difference> {
    take(core, &Event::Open(change))?;
    take_all(core, &Event::CellSet)?;
    take(core, &Event::Close)?;
    Ok(())
}

// An open by session 1 from its beginning to its answer.
fn show_open<R: Print>(
    rt: &R,
    alloc: Global,
    core: &mut Core,
    lists: &Lists<'_>,
    path: &[u8],
) -> Result<(), Stop> {
    begin(core, 1, path)?;
    show_end(rt, alloc, core, lists, 1, path)
}

// An open by session 2, which has read the count when the last change begins, and reads cells after it.
fn show_open_amid<R: Print>(
    rt: &R,
    alloc: Global,
    core: &mut Core,
    lists: &Lists<'_>,
    path: &[u8],
) -> Result<(), Stop> {
    begin(core, 2, path)?;
    if let Some(change) = lists.changes.last() {
        let cells = test(core, change)?;
        println!(rt; "test of the last change: {cells:?}")?;
        make(core, change)?;
    }
    show_end(rt, alloc, core, lists, 2, path)
}

fn begin(core: &mut Core, session: u32, path: &[u8]) -> Result<(), Difference> {
    let begin = Event::Begin {
        session,
        profile: b"p",
        path,
        ask: ask(),
    };
    take(core, &begin)?;
    take(core, &Event::PolicyRead(session))?;
    take(core, &Event::CountRead(session))?;
    Ok(())
}

// The end of an open: its answer is justified by the changes, and one with another version isn't.
fn show_end<R: Print>(
    rt: &R,
    alloc: Global,
    core: &mut Core,
    lists: &Lists<'_>,
    session: u32,
    path: &[u8],
) -> Result<(), Stop> {
    take_all(core, &Event::CellRead(session))?;
    take(core, &Event::CountCheck(session))?;
    let Some(answer) = take(core, &Event::Answer(session))? else {
        return Err(Stop::from(Difference::new(Call::Step, How::Fails)));
    };
    let name = core.name(session);
    println!(rt; "open {session}: {}", Named { answer, name })?;
    let other = Answer::Failed {
        errno: Errno::ELOOP,
        tree_version: core.tree_version(),
    };
    let is_justified = is_right(alloc, &answer, lists, path)?;
    let is_other_justified = is_right(alloc, &other, lists, path)?;
    println!(rt; "justified: {is_justified}, another answer: {is_other_justified}")?;
    Ok(())
}

fn is_right(
    alloc: Global,
    answer: &Answer,
    lists: &Lists<'_>,
    path: &[u8],
) -> Result<bool, Difference> {
    again(Call::Justify, NoMemory, || {
        justify(
            alloc,
            answer,
            b"p",
            path,
            ask(),
            lists.changes,
            lists.policy,
        )
    })
}

fn state_of(core: &Core) -> State {
    State {
        tree_version: core.tree_version(),
        policy_version: core.policy_version(),
        has_open_change: core.has_open_change(),
        names: [Hash::of(core.name(1)), Hash::of(core.name(2))],
    }
}

// Takes an event, or returns that it isn't legal. Where memory is refused, the machine is as it was.
fn step(
    core: &mut Core,
    event: &Event<'_>,
) -> Result<Result<Option<Answer>, StepFault>, Difference> {
    let before = state_of(core);
    match core.step(event) {
        Err(StepFault::NoMemory) => {
            expect(state_of(core) == before, Call::Step, How::Changes)?;
            Ok(Ok(expect_ok(Call::Step, core.step(event))?))
        }
        taken => Ok(taken),
    }
}

// Takes an event that is legal, and returns its answer.
fn take(core: &mut Core, event: &Event<'_>) -> Result<Option<Answer>, Difference> {
    expect_ok(Call::Step, step(core, event)?)
}

// Takes an event as often as it is legal.
fn take_all(core: &mut Core, event: &Event<'_>) -> Result<(), Difference> {
    for _ in 0..MOST_CELLS {
        if step(core, event)?.is_err() {
            return Ok(());
        }
    }
    Err(Difference::new(Call::Step, How::Answers))
}

// How many cells a change would set. Where memory is refused, the machine is as it was.
fn test(core: &mut Core, change: &Change<'_>) -> Result<Result<usize, Errno>, Difference> {
    let before = state_of(core);
    match core.test(change) {
        Err(StepFault::NoMemory) => {
            expect(state_of(core) == before, Call::TestByCore, How::Changes)?;
            expect_ok(Call::TestByCore, core.test(change))
        }
        tested => expect_ok(Call::TestByCore, tested),
    }
}
