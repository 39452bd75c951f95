//! What a session knows of the tree and of the policy, from call to call.
ghost use Rattle.std.specs.Prelude.{◌≡◌, ◌+◌, ◌≤◌, ◌≢◌, [], IfOk, OnOk, OnErr, Ok, None, length};
ghost use Rattle.std.specs.Option.{option_map, option_copied};
ghost use Rattle.names.specs.Limits.{longest_path};
ghost use mathlib.Core.List.{IsPrefix};
ghost use Rattle.dentry_cache.specs.Walks.{met_at};
ghost use Rattle.directory_tree.specs.Tree.{Tree};
ghost use Rattle.justification.specs.Versions.{IsTreeAt};
ghost use Rattle.mediation.specs.Deeds.{policy_after};
ghost use Rattle.mediation.specs.Judgments.{reached_of};
ghost use Rattle.mediation.specs.Opens.{reached};
ghost use Rattle.mediation.specs.PolicyChanges.{judge_shared};
ghost use Rattle.profile_registry.specs.Views.{IsUnanswered, IsUnansweredWith};
ghost use Rattle.path_session.specs.inner.Knowledge.{IsCurrent, asked_by};
ghost use Rattle.kept_verdicts.specs.KeptFiles.{kept_of};
ghost use Rattle.path_session.specs.inner.Right.{IsRightFor};

use crate::share::Share;
use dentry_cache::{Keeper, Walker};
use kept_verdicts::KeptVerdicts;
use matcher::AnyProfile;
use mediation::{Judged, Reached, judge_name};
use names::Perms;
use path_lookup::NAME_ROOM;
use profile_registry::{NoEntry, PolicyReader, Publisher};
use std::marker::Model;
use std::sync::Arc;
use verdict_cache::Question;

/// A walker, a reader of the policy, the profile that a session opens by, and the verdicts that it keeps. Each of these is right
/// for the changes of tree and policy that the session has seen.
#[derive(Drop)]
pub(crate) struct Knowledge {
    // `None` while it is lent to a call.
    pub(crate) walker: Option<Walker>,
    pub(crate) reader: PolicyReader,
    pub(crate) profile: Vec<u8>,
    // What it read last under that name, and at which version of the policy.
    pub(crate) share: Share,
    pub(crate) verdicts: KeptVerdicts,
    // The policy's version up to which it learned from the publisher last, if it has seen nothing newer.
    learned_version: Option<u64>,
    // How often a kept verdict was the answer, modulo 2^64.
    pub(crate) kept_answers: u64,
}

impl Model for Knowledge {
    ghost use Rattle.std.specs.Prelude.{IsSome};
    ghost use Rattle.std.specs.Option.{unwrap_or};
    ghost use Rattle.path_session.specs.inner.Knowledge.{no_walk};
    ghost use Rattle.path_session.specs.inner.Knowledge.{Knowing};
    ghost use Rattle.path_session.specs.inner.Right.{AreRight};
    ghost use Rattle.path_session.specs.inner.Shares.{IsShareOf, IsInStep};

    ghost Value = { Knowing };

    ghost view = { λ k. record {
      walk = unwrap_or k.walker no_walk;
      reading = k.reader;
      profile = k.profile.items;
      published = k.share.profile;
      kept_answers = k.kept_answers;
    } };

    ghost invariant = { λ k. IsSome k.walker × IsShareOf k.reader.seen k.profile.items k.share.version k.share.profile
        × AreRight (unwrap_or k.walker no_walk).view.seen k.reader.seen k.verdicts × IsInStep k.reader k.learned_version };
}

impl Knowledge {
    /// What a session knows at first.
    pub(crate) fn new(
        walker: Walker,
        reader: PolicyReader,
        profile: Vec<u8>,
        verdicts: KeptVerdicts,
    ) -> Knowledge
        requires { verdicts ≡ [] }
        ensures { (result.walk ≡ walker) × (result.reading ≡ reader) × (result.profile ≡ profile.items) × (result.kept_answers ≡ 0) }
    {
        Knowledge {
            walker: Some(walker),
            reader,
            profile,
            share: Share::new(),
            verdicts,
            learned_version: None,
            kept_answers: 0,
        }
    }

    /// Opens by the profile of this name from now on.
    pub(crate) fn select(&mut self, profile: Vec<u8>)
        ensures { (self.new.walk ≡ self.old.walk) × (self.new.reading ≡ self.old.reading) × (self.new.profile ≡ profile.items)
            × (self.new.kept_answers ≡ self.old.kept_answers) }
    {
        self.profile = profile;
        self.share = Share::new();
    }

    /// The name of the profile that it opens by.
    pub(crate) fn profile(&self) -> &[u8]
        ensures { result.now ≡ self.now.profile }
    {
        &self.profile
    }

    /// The profile that was read last, if there was one.
    pub(crate) fn published(&self) -> Option<&Arc<AnyProfile>>
        ensures { option_copied result ≡ self.now.published }
    {
        self.share.profile.as_ref()
    }

    /// How often a kept verdict was the answer, modulo 2^64.
    pub(crate) fn kept_answers(&self) -> u64
        ensures { result ≡ self.now.kept_answers }
    {
        self.kept_answers
    }

    /// Reads the policy, and returns its version.
    pub(crate) fn read_policy(&mut self) -> Result<u64, NoEntry>
        ensures same { (self.new.walk ≡ self.old.walk) × (self.new.profile ≡ self.old.profile)
            × (self.new.kept_answers ≡ self.old.kept_answers) }
        ensures seen { IsPrefix self.old.reading.seen self.new.reading.seen }
        ensures learned { self.new.reading.learned ≡ self.old.reading.learned }
        ensures profile { OnOk result (option_map judge_shared self.new.published
            ≡ policy_after self.new.reading.seen self.old.profile) }
        ensures version { IfOk result (λ version. version ≡ length self.new.reading.seen) }
        ensures ok { OnOk result ((self.new.reading.entries ≡ self.old.reading.entries + 1)
            × (self.new.reading.refused ≡ self.old.reading.refused)) }
        ensures err { OnErr result (IsUnanswered self.old.reading self.new.reading self.old.profile
            × (self.new.reading.refused ≡ self.old.reading.refused + 1)) }
    {
        let learned = self.learned_version.take();
        let version = self.share.read_policy(&mut self.reader, &self.profile)?;
        if learned == Some(version) {
            self.learned_version = learned;
        }
        Ok(version)
    }

    /// Reads the policy by all that its publisher has published, and no more, and returns its version. If it has seen newer
    /// changes than it learned last, no contract says that this publisher published them, so verdicts are kept no longer.
    pub(crate) fn read_published(&mut self, publisher: &mut Publisher) -> Result<u64, NoEntry>
        requires { IsPrefix self.old.reading.learned publisher.old.published }
        ensures same { (self.new.walk ≡ self.old.walk) × (self.new.profile ≡ self.old.profile)
            × (self.new.kept_answers ≡ self.old.kept_answers) × (publisher.new ≡ publisher.old) }
        ensures learned { IsPrefix self.new.reading.learned publisher.old.published }
        ensures seen { OnOk result (self.new.reading.seen ≡ publisher.old.published) }
        ensures profile { OnOk result (option_map judge_shared self.new.published
            ≡ policy_after publisher.old.published self.old.profile) }
        ensures version { IfOk result (λ version. version ≡ length publisher.old.published) }
        ensures let_in { OnOk result ((self.new.reading.learned ≡ publisher.old.published) × (self.new.reading.entries ≡ 1)
            × (self.new.reading.refused ≡ self.old.reading.refused)) }
        ensures err { OnErr result (IsUnansweredWith publisher.old.published self.old.reading self.new.reading self.old.profile) }
    {
        let learned = self.learned_version.take();
        self.verdicts.keep_if(learned.is_some());
        let version = self
            .share
            .read_published(&mut self.reader, publisher, &self.profile)?;
        self.learned_version = Some(version);
        Ok(version)
    }

    /// The walker meets the keeper.
    pub(crate) fn meet(&mut self, keeper: &mut Keeper)
        requires { self.old.walk.table ≡ keeper.old.table }
        ensures same { (self.new.walk.table ≡ self.old.walk.table) × (self.new.walk.capacity ≡ self.old.walk.capacity)
            × (self.new.reading ≡ self.old.reading) × (self.new.profile ≡ self.old.profile)
            × (self.new.published ≡ self.old.published) × (self.new.kept_answers ≡ self.old.kept_answers)
            × (keeper.new ≡ keeper.old) }
        ensures met { IsPrefix self.old.walk.view.seen keeper.old.history × (self.new.walk.view ≡ met_at keeper.old.history) }
    {
        let Some(mut walker) = self.walker.take() else {
            unreachable!()
        };
        keeper.meet(&mut walker);
        self.walker = Some(walker);
    }

    /// Judges a file that was reached in the tree of a version, by the name at the front of `room`, and keeps the verdict.
    pub(crate) fn judge(
        &mut self,
        path: &[u8],
        ask: Perms,
        tree_version: u64,
        policy_version: u64,
        file: &Reached,
        room: &[u8; NAME_ROOM],
    ) -> Judged
        requires current { IsCurrent self.old policy_version }
        requires fits { file.now.name_length ≤ longest_path }
        requires reached { (t : Tree) × IsTreeAt self.old.walk.view.seen tree_version t
            × (reached t path.now ask ≡ Ok (reached_of room.now file.now)) }
        ensures same { self.new ≡ self.old }
        ensures fits { result.name_length ≤ longest_path }
        ensures right { IsRightFor self.old.walk.view.seen self.old.reading.seen
            (asked_by self.old path.now ask tree_version policy_version) (kept_of room.now result) }
    {
        let Some(profile) = &self.share.profile else {
            unreachable!()
        };
        let judged = Judged {
            verdict: judge_name(profile, &room[..file.name_length], ask),
            node: file.node,
            name_length: file.name_length,
        };
        let question = Question {
            path,
            profile: &self.profile,
            ask,
            tree_version,
            policy_version,
        };
        self.verdicts.keep(question, &judged, room);
        judged
    }
}
