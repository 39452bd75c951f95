//! What the tests play with. They are in small functions, since what a function borrows is dear to prove.
use directory_tree::Change;
use interleaving_core::{Core, Event, EventMachine, StepFault};
use matcher::{AnyProfile, CompiledProfile, PolicyChange};
use names::Perms;
use rule_text::read;
use std::alloc::Global;
use std::process::Abort;
use std::sync::Arc;
use std::test::Fail;
use test_parts::{path, perms};

pub(crate) fn rename<'a>(from: &'a [u8], to: &'a [u8]) -> Result<Change<'a>, Fail> {
    Ok(Change::Rename(path(from)?, path(to)?))
}

/// The profile `p`, which reads what is in `/d` and `/e`.
pub(crate) fn policy(alloc: Global) -> Result<PolicyChange, Fail> {
    let rules = read(alloc, b"profile p {\n  /d/* r,\n  /e/* r,\n}\n")?;
    let profile = AnyProfile::Compiled(CompiledProfile::make(alloc, rules)?);
    let shared = Arc::new(alloc, profile).ok().ok_or("memory")?;
    Ok(PolicyChange::Replace(Vec::from_slice(alloc, b"p")?, shared))
}

/// An open by the profile `p`.
pub(crate) fn open_for<'a>(session: u32, path: &'a [u8], ask: Perms) -> Event<'a> {
    Event::Begin {
        session,
        profile: b"p",
        path,
        ask,
    }
}

/// An open to read.
pub(crate) fn begin(session: u32, path: &[u8]) -> Result<Event<'_>, Fail> {
    Ok(open_for(session, path, perms(b"r")?))
}

/// Takes an event, which has no answer.
pub(crate) fn take(rt: &impl Abort, core: &mut Core, event: &Event<'_>) {
    assert_eq!(rt; core.step(event), Ok(None));
}

/// Makes a change of the tree.
pub(crate) fn make(rt: &impl Abort, core: &mut Core, change: &Change<'_>) {
    take(rt, core, &Event::Open(change));
    set_all(rt, core);
    take(rt, core, &Event::Close);
}

/// Sets all cells of the open change.
pub(crate) fn set_all(rt: &impl Abort, core: &mut Core) {
    for _ in 0..1000 {
        match core.step(&Event::CellSet) {
            Ok(told) => assert_eq!(rt; told, None),
            Err(fault) => {
                assert_eq!(rt; fault, StepFault::NotNow);
                return;
            }
        }
    }
}

fn make_file(rt: &impl Abort, core: &mut Core) -> Result<(), Fail> {
    make(rt, core, &Change::Mkdir(path(b"/d")?));
    make(rt, core, &Change::Create(path(b"/d/f")?));
    Ok(())
}

/// The file `/d/f`, node 3 at version 2, and the profile `p`, at version 1.
pub(crate) fn scene(rt: &impl Abort, alloc: Global) -> Result<Core, Fail> {
    let changes = [policy(alloc)?];
    let mut core = Core::new(alloc, 4).ok().ok_or("memory")?;
    make_file(rt, &mut core)?;
    take(rt, &mut core, &Event::Publish(&changes));
    assert_eq!(rt; (core.tree_version(), core.policy_version()), (2, 1));
    Ok(core)
}
