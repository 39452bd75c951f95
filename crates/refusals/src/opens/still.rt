//! Whether a tree that threads share is still what it was.
ghost use Rattle.std.specs.Prelude.{◌≡◌, IfOk};

use dentry_cache::{Keeper, NoSeat, Walker};
use justification::Answer;
use names::{Permission, Perms};
use path_session::Session;
use storm_parts::{Call, Difference, expect_ok};

/// Whether the tree has this version, its count is even, a walk ends well, and the session's next open answers at the version.
pub(crate) fn is_still_at(
    session: &mut Session,
    keeper: &mut Keeper,
    version: u64,
) -> Result<bool, Difference>
    ensures row { (session.new.walk.table ≡ session.old.walk.table) × (keeper.new ≡ keeper.old) }
    ensures policy { session.new.reading.learned ≡ session.old.reading.learned }
{
    let walks = walks_at(new_walker(keeper)?, version);
    Ok(keeper.version() == version && walks && opens_at(session, version))
}

/// A walker of the keeper's row.
pub(crate) fn new_walker(keeper: &mut Keeper) -> Result<Walker, Difference>
    ensures same { keeper.new ≡ keeper.old }
    ensures walker { IfOk result (λ walker. walker.table ≡ keeper.old.table) }
{
    match keeper.walker() {
        Ok(walker) => Ok(walker),
        Err(NoSeat) => expect_ok(Call::NewWalker, keeper.walker()),
    }
}

// Whether a walk begins at an even count, and ends at the version.
fn walks_at(walker: Walker, version: u64) -> bool {
    let attempt = walker.begin();
    let began = attempt.began();
    let (_, end) = attempt.end();
    began % 2 == 0 && end == Ok(version)
}

// Whether an open answers at the version of the tree.
fn opens_at(session: &mut Session, version: u64) -> bool
    ensures { (session.new.walk.table ≡ session.old.walk.table) × (session.new.reading.learned ≡ session.old.reading.learned) }
{
    match session.try_open(b"/d/f", Perms::NONE.with(Permission::Read)) {
        Answer::Judged { tree_version, .. } | Answer::Failed { tree_version, .. } => {
            tree_version == version
        }
        Answer::NoProfile { .. } | Answer::Busy { .. } | Answer::NoEntry => false,
    }
}
