//! The guard, and what it does except opens.
ghost use Rattle.std.specs.Prelude.{◌≡◌, ◌^◌, ◌<◌, [], ◌++◌, IfOk, IfErr, length};
ghost use Rattle.mediation.specs.Deeds.{published, removed};
ghost use Rattle.mediation.specs.PolicyChanges.{judge_shared};
ghost use Rattle.path_guard.specs.Publication.{IsPublished, IsUnpublished};
ghost use Rattle.row_rule.specs.Steps.{newcomer};

use crate::fault::SessionFault;
use dentry_cache::Keeper;
use directory_tree::Change;
use guarded_row::{GuardedRow, Row};
use matcher::AnyProfile;
use names::{Errno, MOST_CHANGES};
use path_session::Session;
use profile_registry::{PolicyReader, Publisher};
use std::alloc::Global;
use std::sync::{Arc, Mutex, MutexGuard, Wait};

/// A keeper and a publisher, each protected by a lock, for the sessions of many threads. `M` names the keeper's row.
///
/// It is not `Drop`: end it by [`close`](Guard::close).
pub struct Guard<M: Row> {
    alloc: Global,
    pub(crate) row: GuardedRow<M>,
    publisher: Mutex<Publisher>,
}

impl<M: Row> Guard<M> {
    /// A guard of this keeper, the one that `M` names, and of this publisher.
    pub fn new(alloc: Global, keeper: Keeper, publisher: Publisher) -> Guard<M>
        requires { keeper.table ≡ M.table }
    {
        Guard {
            alloc,
            row: GuardedRow::new(keeper),
            publisher: Mutex::new(publisher),
        }
    }

    /// A new session, which opens by the profile of this name and may go to another thread. It waits for both locks, one after
    /// the other.
    pub fn session(&self, rt: &impl Wait, profile: &[u8]) -> Result<Session, SessionFault>
        ensures row { IfOk result (λ session. (session.walk.table ≡ M.table) × (session.walk.view ≡ newcomer)) }
        ensures reader { IfOk result (λ session. (session.reading.entries ≡ 0) × (session.reading.refused ≡ 0)) }
        ensures profile { IfOk result (λ session. (session.profile ≡ profile.now) × (session.judged ≡ []) × (session.meetings ≡ 0)) }
    {
        let walker = self.row.walker(rt).map_err(|_| SessionFault::NoSeat)?;
        let reader = self.reader(rt)?;
        match Session::new(self.alloc, walker, reader, profile) {
            Ok(session) => Ok(session),
            Err(_) => Err(SessionFault::NoMemory),
        }
    }

    fn reader(&self, rt: &impl Wait) -> Result<PolicyReader, SessionFault>
        ensures { IfOk result (λ reader. (reader.entries ≡ 0) × (reader.refused ≡ 0)) }
    {
        let mut publisher = self.publisher.lock(rt);
        let reader = publisher.reader();
        MutexGuard::unlock(publisher);
        reader.map_err(|_| SessionFault::NoSeat)
    }

    /// Makes a change of the tree, and returns the version that it makes, or why not; then nothing was changed. It waits for the
    /// keeper's lock.
    pub fn change(&self, rt: &impl Wait, change: &Change<'_>) -> Result<u64, Errno> {
        self.row.change(rt, change)
    }

    /// Publishes a profile under a name, in place of the one that is there, and returns the policy's new version. It waits for
    /// readers that are inside. `EOVERFLOW` where no more changes can be counted. At `ENOMEM` the published policy is as before;
    /// where memory was refused to the publication, the change stays staged, and the next publication includes it.
    pub fn replace(
        &self,
        rt: &impl Wait,
        name: &[u8],
        profile: Arc<AnyProfile>,
    ) -> Result<u64, Errno> {
        let mut publisher = self.publisher.lock(rt);
        let version = replace_in(rt, &mut publisher, name, profile);
        MutexGuard::unlock(publisher);
        version
    }

    /// Removes what is published under a name, and returns the policy's new version, as [`replace`](Guard::replace) does.
    pub fn remove(&self, rt: &impl Wait, name: &[u8]) -> Result<u64, Errno> {
        let mut publisher = self.publisher.lock(rt);
        let version = remove_in(rt, &mut publisher, name);
        MutexGuard::unlock(publisher);
        version
    }

    /// Ends the guard. Sessions may live on: they see no further change, and their readers of the policy are refused. It waits
    /// for those that are inside.
    pub fn close(self, rt: &impl Wait) {
        let Guard {
            alloc: _,
            row: _,
            publisher,
        } = self;
        publisher.into_inner().close(rt);
    }
}

/// Publishes a profile under a name, after what is staged.
fn replace_in<R: Wait>(
    rt: &R,
    publisher: &mut Publisher,
    name: &[u8],
    profile: Arc<AnyProfile>,
) -> Result<u64, Errno>
    ensures ok { IfOk result (IsPublished publisher.old (published name.now (judge_shared profile)) publisher.new) }
    ensures err { IfErr result (IsUnpublished publisher.old (published name.now (judge_shared profile)) publisher.new) }
{
    if publisher.changes() >= MOST_CHANGES {
        return Err(Errno::EOVERFLOW);
    }
    if publisher.replace(name, profile).is_err() {
        return Err(Errno::ENOMEM);
    }
    publish_in(rt, publisher)
}

/// Removes what is published under a name, after what is staged.
fn remove_in<R: Wait>(rt: &R, publisher: &mut Publisher, name: &[u8]) -> Result<u64, Errno>
    ensures ok { IfOk result (IsPublished publisher.old (removed name.now) publisher.new) }
    ensures err { IfErr result (IsUnpublished publisher.old (removed name.now) publisher.new) }
{
    if publisher.changes() >= MOST_CHANGES {
        return Err(Errno::EOVERFLOW);
    }
    if publisher.remove(name).is_err() {
        return Err(Errno::ENOMEM);
    }
    publish_in(rt, publisher)
}

/// Publishes what is staged.
fn publish_in<R: Wait>(rt: &R, publisher: &mut Publisher) -> Result<u64, Errno>
    ensures ok { IfOk result (λ version. (publisher.new ≡ record {
      published = publisher.old.published ++ publisher.old.staged;
      staged = [];
    }) × (version ≡ length publisher.new.published)) }
    ensures err { IfErr result (λ errno. (errno ≡ Errno.ENOMEM) × (publisher.new ≡ publisher.old)) }
{
    match publisher.publish(rt) {
        Ok(version) => Ok(version),
        Err(_) => Err(Errno::ENOMEM),
    }
}
