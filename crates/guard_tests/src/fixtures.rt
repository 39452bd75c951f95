//! Guards, each of a keeper and a publisher of its own.
ghost use Rattle.std.specs.Prelude.{◌≡◌, IfOk};

use dentry_cache::Keeper;
use directory_tree::Change;
use names::{Permission, Perms, Verdict};
use path_guard::{Answer, Guard, Row, Session};
use std::alloc::Global;
use std::sync::Wait;
use std::test::Fail;
use storm_parts::compiled;
use test_parts::path;

pub(crate) fn to_read() -> Perms {
    Perms::NONE.with(Permission::Read)
}

/// A keeper with room for nine entries.
pub(crate) fn keeper(alloc: Global) -> Result<Keeper, Fail> {
    Ok(Keeper::new(alloc, 9)?)
}

/// Makes a file, and returns the tree's version.
pub(crate) fn create<M: Row>(rt: &impl Wait, guard: &Guard<M>, name: &[u8]) -> Result<u64, Fail> {
    let change = Change::Create(path(name)?);
    Ok(guard.change(rt, &change).ok().ok_or("a change")?)
}

/// Publishes the profile of a text under the name p.
pub(crate) fn publish<M: Row>(
    rt: &impl Wait,
    alloc: Global,
    guard: &Guard<M>,
    text: &[u8],
) -> Result<u64, Fail> {
    publish_as(rt, alloc, guard, b"p", text)
}

/// Publishes the profile of a text under a name.
pub(crate) fn publish_as<M: Row>(
    rt: &impl Wait,
    alloc: Global,
    guard: &Guard<M>,
    name: &[u8],
    text: &[u8],
) -> Result<u64, Fail> {
    let profile = compiled(alloc, text)?;
    Ok(
        guard
            .replace(rt, name, profile)
            .ok()
            .ok_or("a publication")?,
    )
}

pub(crate) fn session<M: Row>(rt: &impl Wait, guard: &Guard<M>) -> Result<Session, Fail>
    ensures { IfOk result (λ session. session.walk.table ≡ M.table) }
{
    Ok(guard.session(rt, b"p").ok().ok_or("a session")?)
}

/// The answer where reading the file of this node is allowed.
pub(crate) fn allowed(node: u64, tree_version: u64, policy_version: u64) -> Answer {
    Answer::Judged {
        verdict: Verdict::Allowed,
        node,
        tree_version,
        policy_version,
    }
}
