//! What is done on a bench.
ghost use Rattle.std.specs.Prelude.{◌≡◌, ◌≢◌, IfOk, IfErr, OnErr, OnOk, [], if◌then◌else◌};
ghost use mathlib.Core.List.{IsPrefix};
ghost use Rattle.directory_tree.specs.Plain.{Accepted, Refused};
ghost use Rattle.mediation.specs.Answers.{answered, name_opened, link_answered, name_linked};
ghost use Rattle.mediation.specs.History.{open_answer, link_answer, after_link};
ghost use Rattle.path_session.specs.KeeperStates.{plain_of, history_of};
ghost use Rattle.script_bench.specs.Benches.{IsNotOpened, IsNotLinked};

use crate::session_bench::SessionBench;
use dentry_cache::Keeper;
use directory_tree::Change;
use matcher::MakeFault;
use mediation::{Answer, Bench, LinkAnswer};
use names::{Errno, NoMemory, Perms};
use path_session::Session;
use profile_registry::Publisher;
use rule_profile::Profile;
use std::sync::Wait;

/// Opens by the profile of this name from now on, if another one is selected.
fn select(session: &mut Session, profile: &[u8]) -> Result<(), NoMemory>
    ensures ok { OnOk result (session.new ≡ record session.old { profile = profile.now }) }
    ensures err { OnErr result ((session.new ≡ session.old) × (session.old.profile ≢ profile.now)) }
{
    if session.profile() == profile {
        return Ok(());
    }
    session.select(profile)
}

/// Makes a change of the tree, stated for the plain tree that the keeper stands for.
fn apply(keeper: &mut Keeper, change: &Change<'_>) -> Result<u64, Errno>
    ensures table { keeper.new.table ≡ keeper.old.table }
    ensures ok { IfOk result (λ version. Accepted (plain_of keeper.old) (plain_of keeper.new) change.now version) }
    ensures err { IfErr result (λ errno. Refused (plain_of keeper.old) (plain_of keeper.new) change.now errno) }
{
    // No cell is read: a look shows that the history results in a tree, for which the plain tree's outcome is stated.
    keeper.look();
    keeper.apply(change)
}

/// Opens by the profile of this name. Memory is refused for a copy of the name, or as there is no entry into the policy.
fn open_by(
    session: &mut Session,
    keeper: &mut Keeper,
    publisher: &mut Publisher,
    profile: &[u8],
    path: &[u8],
    ask: Perms,
) -> Result<Answer, NoMemory>
    requires row { session.old.walk.table ≡ keeper.old.table }
    requires policy { IsPrefix session.old.reading.learned publisher.old.published }
    ensures same { (session.new.walk.table ≡ session.old.walk.table) × (keeper.new ≡ keeper.old) × (publisher.new ≡ publisher.old) }
    ensures learned { IsPrefix session.new.reading.learned publisher.old.published }
    ensures ok { IfOk result (λ answer. answered session.new.judged answer
        ≡ open_answer (history_of keeper.old publisher.old.published) profile.now path.now ask) }
    ensures name { OnOk result (session.new.judged
        ≡ name_opened (open_answer (history_of keeper.old publisher.old.published) profile.now path.now ask)) }
    ensures err { OnErr result (IsNotOpened publisher.old.published session.old session.new profile.now) }
{
    select(session, profile)?;
    match session.open_with_both(keeper, publisher, path, ask) {
        Ok(answer) => Ok(answer),
        // No share of the profile was given, or no place was free for a `Told`.
        Err(_) => Err(NoMemory),
    }
}

/// Makes a hard link by the profile of this name. Memory is refused as for an open, or for a link that would be made.
fn link_by(
    session: &mut Session,
    keeper: &mut Keeper,
    publisher: &mut Publisher,
    profile: &[u8],
    old: &[u8],
    new: &[u8],
) -> Result<LinkAnswer, NoMemory>
    requires { IsPrefix session.old.reading.learned publisher.old.published }
    ensures same { (session.new.walk.table ≡ session.old.walk.table) × (keeper.new.table ≡ keeper.old.table)
        × (publisher.new ≡ publisher.old) }
    ensures learned { IsPrefix session.new.reading.learned publisher.old.published }
    ensures ok { IfOk result (λ answer. link_answered session.new.judged answer
        ≡ link_answer (history_of keeper.old publisher.old.published) profile.now old.now new.now) }
    ensures name { OnOk result (session.new.judged
        ≡ name_linked (link_answer (history_of keeper.old publisher.old.published) profile.now old.now new.now)) }
    ensures history { OnOk result (history_of keeper.new publisher.old.published
        ≡ after_link (history_of keeper.old publisher.old.published) old.now new.now
        (link_answer (history_of keeper.old publisher.old.published) profile.now old.now new.now)) }
    ensures err { OnErr result ((keeper.new ≡ keeper.old) × IsNotLinked publisher.old.published session.old session.new profile.now
        (link_answer (history_of keeper.old publisher.old.published) profile.now old.now new.now)) }
{
    select(session, profile)?;
    match session.link_with_both(keeper, publisher, old, new) {
        Ok(answer) => Ok(answer),
        // As in `open_by`, or memory ran out for a link that would be made.
        Err(_) => Err(NoMemory),
    }
}

impl<R: Wait> Bench for SessionBench<'_, R> {
    ghost history = { λ b. history_of b.keeper b.publisher.published };

    ghost judged_name = { λ b. if b.has_answered then b.session.judged else [] };

    fn change(&mut self, change: &Change<'_>) -> Result<u64, Errno> {
        apply(&mut self.keeper, change)
    }

    fn open(&mut self, profile: &[u8], path: &[u8], ask: Perms) -> Result<Answer, NoMemory> {
        self.has_answered = false;
        let answer = open_by(
            &mut self.session,
            &mut self.keeper,
            &mut self.publisher,
            profile,
            path,
            ask,
        )?;
        self.has_answered = true;
        Ok(answer)
    }

    fn link(&mut self, profile: &[u8], old: &[u8], new: &[u8]) -> Result<LinkAnswer, NoMemory> {
        self.has_answered = false;
        let answer = link_by(
            &mut self.session,
            &mut self.keeper,
            &mut self.publisher,
            profile,
            old,
            new,
        )?;
        self.has_answered = true;
        Ok(answer)
    }

    fn name(&self) -> &[u8] {
        if self.has_answered {
            self.session.name()
        } else {
            &[]
        }
    }

    fn publish(&mut self, profile: Profile) -> Result<u64, MakeFault> {
        // A bench publishes one change at a time.
        if self.has_staged() {
            return Err(MakeFault::NoMemory);
        }
        self.publish_with_staged(profile)
    }

    fn remove(&mut self, name: &[u8]) -> Result<u64, NoMemory> {
        if self.has_staged() {
            return Err(NoMemory);
        }
        self.remove_with_staged(name)
    }
}
