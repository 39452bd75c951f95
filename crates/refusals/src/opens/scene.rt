//! A tree with some files, rules that are published, and a session.
ghost use Rattle.std.specs.Prelude.{◌≡◌, IfOk};

use super::still::new_walker;
use crate::policy::new_reader;
use crate::trees::apply;
use dentry_cache::Keeper;
use directory_tree::{Change, LinkBytes};
use names::NoMemory;
use path_session::Session;
use profile_registry::Publisher;
use std::alloc::Global;
use storm_parts::{Call, Difference, How, again, expect, expect_ok, path};

/// Room for the entries of the tree.
const ROOM: usize = 9;

/// The rules that are published under the name `p`.
pub(crate) const RULES: &[u8] =
    b"profile p {\n  /d/* rwl,\n  deny /d/k w,\n  deny /d/no l,\n  /e/* rl,\n  /c/* rw,\n}\n";

/// The keeper of `/d` with two files, an empty directory, a link to `/d`, and a link to itself.
pub(crate) fn keeper_of_files(alloc: Global) -> Result<Keeper, Difference> {
    let mut keeper = again(Call::NewKeeper, NoMemory, || Keeper::new(alloc, ROOM))?;
    let changes = [
        Change::Mkdir(path(b"/d")?),
        Change::Create(path(b"/d/f")?),
        Change::Create(path(b"/d/k")?),
        Change::Mkdir(path(b"/e")?),
        Change::Symlink(LinkBytes::new(b"d"), path(b"/l")?),
        Change::Symlink(LinkBytes::new(b"r"), path(b"/r")?),
    ];
    for change in &changes {
        apply(&mut keeper, change)?;
    }
    Ok(keeper)
}

/// A session of a keeper and a publisher, which opens by the profile of a name.
pub(crate) fn new_session(
    alloc: Global,
    keeper: &mut Keeper,
    publisher: &mut Publisher,
    profile: &[u8],
) -> Result<Session, Difference>
    ensures same { (keeper.new ≡ keeper.old) × (publisher.new ≡ publisher.old) }
    ensures row { IfOk result (λ session. session.walk.table ≡ keeper.old.table) }
    ensures policy { IfOk result (λ session. session.reading.learned ≡ publisher.old.published) }
{
    let walker = new_walker(keeper)?;
    let reader = new_reader(publisher)?;
    match Session::new(alloc, walker, reader, profile) {
        Ok(session) => Ok(session),
        Err((NoMemory, walker, reader)) => {
            let session = Session::new(alloc, walker, reader, profile);
            expect_ok(Call::NewSession, session)
        }
    }
}

/// Opens by the profile of another name from now on. Where memory is refused, it is still the old one.
pub(crate) fn select(session: &mut Session, profile: &[u8]) -> Result<(), Difference>
    ensures { (session.new.walk.table ≡ session.old.walk.table) × (session.new.reading ≡ session.old.reading) }
{
    match session.select(profile) {
        Ok(()) => Ok(()),
        Err(NoMemory) => {
            expect(
                session.profile() != profile,
                Call::SelectProfile,
                How::Changes,
            )?;
            expect_ok(Call::SelectProfile, session.select(profile))
        }
    }
}
