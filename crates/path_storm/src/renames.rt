//! The changes of the tree.
ghost use Rattle.std.specs.Prelude.{◌≡◌, ◌+◌, ℕ, IfOk, None, OnOk};
ghost use Rattle.names.specs.Paths.{path_fault};
ghost use Rattle.path_storm.specs.Logs.{IsOfStorm, IsTreeLog};

use crate::fault::StormFault;
use crate::log::TreeLog;
use directory_tree::Change;
use names::{Errno, Path};
use path_guard::{Guard, Row};
use std::alloc::Global;
use std::sync::Wait;
use std::thread::Promise;

/// The promise that a thread which ends well has made or been refused this many renames.
#[derive(Clone, Copy)]
pub(crate) struct Renames {
    pub times: u64,
}

impl Promise<Result<TreeLog, StormFault>> for Renames {
    ghost use Rattle.std.specs.Prelude.{IfOk};
    ghost use Rattle.path_storm.specs.Logs.{IsTreeLog};

    ghost kept_by = { λ p r. IfOk r (IsTreeLog p.times) };
}

/// Makes the directory `/a`, and the file `/a/f` in it.
pub(crate) fn make_file<M: Row>(
    rt: &impl Wait,
    alloc: Global,
    guard: &Guard<M>,
) -> Result<TreeLog, StormFault>
    ensures { IfOk result (IsTreeLog 2) }
{
    let mut log = TreeLog::new(alloc);
    make(rt, guard, &mut log, Change::Mkdir(path(b"/a")))?;
    make(rt, guard, &mut log, Change::Create(path(b"/a/f")))?;
    Ok(log)
}

/// Renames `/a` to `/b` and back alternately.
pub(crate) fn rename_all<M: Row>(
    rt: &impl Wait,
    alloc: Global,
    guard: &Guard<M>,
    promised: Renames,
) -> Result<TreeLog, StormFault>
    ensures { IfOk result (IsTreeLog promised.times) }
{
    let mut log = TreeLog::new(alloc);
    for rename in 0..promised.times {
        make(rt, guard, &mut log, rename_after(rename))?;
    }
    Ok(log)
}

/// The rename after this many others.
fn rename_after(others: u64) -> Change<'static>
    ensures { IsOfStorm result }
{
    if others % 2 == 0 {
        Change::Rename(path(b"/a"), path(b"/b"))
    } else {
        Change::Rename(path(b"/b"), path(b"/a"))
    }
}

/// Makes a change, and records it, or why it was refused.
#[tactic(auto, using(crate::proofs::Logged::tree_made, crate::proofs::Logged::tree_refused))]
fn make<M: Row>(
    rt: &impl Wait,
    guard: &Guard<M>,
    log: &mut TreeLog,
    change: Change<'static>,
) -> Result<(), StormFault>
    requires { IsOfStorm change }
    ensures { OnOk result ((tried : ℕ) → IsTreeLog tried log.old → IsTreeLog (tried + 1) log.new) }
{
    match guard.change(rt, &change) {
        Ok(_) => Ok(log.made.push(change)?),
        Err(Errno::ENOMEM) => Err(StormFault::NoMemory),
        Err(errno) => Ok(log.refused.push(errno)?),
    }
}

/// Returns the path of a text that is one.
fn path(text: &'static [u8]) -> Path<'static>
    requires { path_fault text.now ≡ None }
    ensures { result ≡ text.now }
{
    match Path::check(text) {
        Ok(path) => path,
        Err(_) => unreachable!(),
    }
}
