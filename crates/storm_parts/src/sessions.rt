//! Keepers, publishers and sessions. An allocation that fails is retried once, as `rt try --test --fail-alloc N` makes one fail.
ghost use Rattle.std.specs.Prelude.{◌≡◌, IfOk};

use crate::profiles;
use dentry_cache::{Keeper, Walker};
use directory_tree::{Change, LinkBytes};
use matcher::AnyProfile;
use names::{Errno, NoMemory};
use path_session::Session;
use profile_registry::{PolicyReader, Publisher};
use std::alloc::Global;
use std::sync::Arc;
use std::test::Fail;
use test_parts::path;

// Room for the entries of each keeper.
const ROOM: usize = 9;

/// Compiles the profile of a text.
pub fn compiled(alloc: Global, text: &[u8]) -> Result<Arc<AnyProfile>, Fail> {
    match profiles::compiled(alloc, text) {
        Ok(profile) => Ok(profile),
        Err(_) => Ok(profiles::compiled(alloc, text)?),
    }
}

/// Returns the keeper of the root alone, with room for nine entries.
pub fn new_keeper(alloc: Global) -> Result<Keeper, Fail> {
    match Keeper::new(alloc, ROOM) {
        Ok(keeper) => Ok(keeper),
        Err(NoMemory) => Ok(Keeper::new(alloc, ROOM)?),
    }
}

/// Returns the keeper of `/d` with the files `/d/f` and `/d/k`, a link `/l` to it, and a link `/r` to itself.
pub fn first_keeper(alloc: Global) -> Result<Keeper, Fail> {
    let mut keeper = new_keeper(alloc)?;
    make_first(&mut keeper)?;
    Ok(keeper)
}

fn make_first(keeper: &mut Keeper) -> Result<(), Fail> {
    let changes = [
        Change::Mkdir(path(b"/d")?),
        Change::Create(path(b"/d/f")?),
        Change::Create(path(b"/d/k")?),
        Change::Symlink(LinkBytes::new(b"d"), path(b"/l")?),
        Change::Symlink(LinkBytes::new(b"r"), path(b"/r")?),
    ];
    for change in &changes {
        apply(keeper, change)
            .ok()
            .ok_or("a change that is refused")?;
    }
    Ok(())
}

/// Makes a change.
pub fn apply(keeper: &mut Keeper, change: &Change<'_>) -> Result<u64, Errno>
    ensures { keeper.new.table ≡ keeper.old.table }
{
    match keeper.apply(change) {
        Err(Errno::ENOMEM) => keeper.apply(change),
        answer => answer,
    }
}

/// Returns a publisher with nothing published. It must be closed, whatever the outcome of the test that it is lent to.
pub fn new_publisher(alloc: Global) -> Result<Publisher, NoMemory> {
    match Publisher::new(alloc) {
        Ok(publisher) => Ok(publisher),
        Err(NoMemory) => Publisher::new(alloc),
    }
}

fn walker(keeper: &mut Keeper) -> Result<Walker, Fail>
    ensures same { keeper.new ≡ keeper.old }
    ensures walker { IfOk result (λ walker. walker.table ≡ keeper.old.table) }
{
    match keeper.walker() {
        Ok(walker) => Ok(walker),
        Err(_) => Ok(keeper.walker().ok().ok_or("a walker")?),
    }
}

/// A session of a keeper and a publisher, which opens by the profile of a name.
pub fn session(
    alloc: Global,
    keeper: &mut Keeper,
    publisher: &mut Publisher,
    profile: &[u8],
) -> Result<Session, Fail>
    ensures same { (keeper.new ≡ keeper.old) × (publisher.new ≡ publisher.old) }
    ensures of { IfOk result (λ session. session.walk.table ≡ keeper.old.table) }
    ensures learned { IfOk result (λ session. session.reading.learned ≡ publisher.old.published) }
{
    let walker = walker(keeper)?;
    let reader: PolicyReader = publisher.reader()?;
    match Session::new(alloc, walker, reader, profile) {
        Ok(session) => Ok(session),
        Err((NoMemory, walker, reader)) => Ok(
            Session::new(alloc, walker, reader, profile)
                .ok()
                .ok_or("memory")?,
        ),
    }
}

/// Returns `count` sessions, which open by the profile `p`.
pub fn sessions_of(
    alloc: Global,
    keeper: &mut Keeper,
    publisher: &mut Publisher,
    count: usize,
) -> Result<Vec<Session>, Fail> {
    let mut sessions: Vec<Session> = Vec::with_capacity(alloc, count)?;
    for _ in 0..count {
        sessions.push(session(alloc, keeper, publisher, b"p")?)?;
    }
    Ok(sessions)
}

/// Opens by the profile of another name from now on.
pub fn select(session: &mut Session, profile: &[u8]) -> Result<(), Fail>
    ensures { (session.new.walk ≡ session.old.walk) × (session.new.reading ≡ session.old.reading) }
{
    match session.select(profile) {
        Ok(()) => Ok(()),
        Err(NoMemory) => Ok(session.select(profile)?),
    }
}
