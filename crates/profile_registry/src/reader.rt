//! Readers of what is published.
ghost use Rattle.std.specs.Prelude.{◌≡◌, ◌⊎◌, ◌+◌, IfOk, OnOk, OnErr, IsSome, length};
ghost use Rattle.std.specs.Option.{option_map};
ghost use Rattle.left_right.specs.Sides.{view};
ghost use Rattle.mediation.specs.Deeds.{policy_after};
ghost use Rattle.mediation.specs.PolicyChanges.{judge_shared};
ghost use Rattle.profile_registry.specs.Views.{IsUnanswered};
ghost use mathlib.Core.List.{IsPrefix};

use crate::faults::NoEntry;
use crate::refusals::Refusals;
use crate::steps::{Sees, StoreReader};
use matcher::AnyProfile;
use std::marker::Model;
use std::sync::Arc;

/// What a publisher reports of the changes that it has published, for one reader to [learn](PolicyReader::learn). Contracts see
/// it as the list of these changes. While it lives it takes one of the places for readers.
#[derive(Drop)]
pub struct Told {
    reader: StoreReader,
}

impl Model for Told {
    ghost use Rattle.std.specs.Prelude.{◌≡◌, List};
    ghost use Rattle.mediation.specs.Deeds.{Deed};

    ghost Value = { List Deed };

    ghost view = { λ told. told.reader.place.me.0.client.seen };

    // Its reader was never let in, and knows the changes from a note.
    ghost invariant = { λ told. (told.reader.place.me.0.client.entries ≡ 0)
        × (told.reader.place.me.0.client.learned ≡ told.reader.place.me.0.client.seen) };
}

/// Reads the published policy, without waiting. Contracts see the changes that it has seen published, how often it was let in
/// since it last learned a note, how often it wasn't answered, and the changes that it learned last.
#[derive(Drop)]
pub struct PolicyReader {
    // `None` while it is lent to a call.
    pub(crate) reader: Option<StoreReader>,
    pub(crate) refusals: Refusals,
}

impl Model for PolicyReader {
    ghost use Rattle.std.specs.Prelude.{IsSome, []};
    ghost use Rattle.std.specs.Option.{option_map, unwrap_or};
    ghost use Rattle.profile_registry.specs.Views.{Reading};

    ghost Value = { Reading };

    ghost view = { λ r. record {
      seen = unwrap_or (option_map (λ reader. reader.place.me.0.client.seen) r.reader) [];
      entries = unwrap_or (option_map (λ reader. reader.place.me.0.client.entries) r.reader) 0;
      refused = r.refusals.count;
      learned = unwrap_or (option_map (λ reader. reader.place.me.0.client.learned) r.reader) [];
    } };

    ghost invariant = { λ r. IsSome r.reader };
}

impl Told {
    pub(crate) fn new(reader: StoreReader) -> Told
        requires { ((view reader.place).entries ≡ 0) × ((view reader.place).learned ≡ (view reader.place).seen) }
        ensures { result ≡ (view reader.place).seen }
    {
        Told { reader }
    }
}

impl PolicyReader {
    /// A reader that has learned these changes.
    pub(crate) fn new(told: Told) -> PolicyReader
        ensures { result ≡ record { seen = told; entries = 0; refused = 0; learned = told } }
    {
        let Told { reader } = told;
        PolicyReader {
            reader: Some(reader),
            refusals: Refusals::new(),
        }
    }

    /// The profile under a name, if there is one, and the policy's version: how many changes made the policy that it is from.
    /// That policy was published at one moment of the call, at which the reader was let in, and has all changes that the reader
    /// had seen before.
    pub fn get(&mut self, name: &[u8]) -> Result<(Option<Arc<AnyProfile>>, u64), NoEntry>
        ensures seen { IsPrefix self.old.seen self.new.seen }
        ensures profile { IfOk result (λ found. option_map judge_shared found.0 ≡ policy_after self.new.seen name.now) }
        ensures version { IfOk result (λ found. found.1 ≡ length self.new.seen) }
        ensures ok { OnOk result ((self.new.entries ≡ self.old.entries + 1) × (self.new.refused ≡ self.old.refused)) }
        ensures err { OnErr result (IsUnanswered self.old self.new name.now × (self.new.refused ≡ self.old.refused + 1)) }
        ensures learned { self.new.learned ≡ self.old.learned }
    {
        let Some(reader) = self.reader.take() else {
            unreachable!()
        };
        let (reader, found) = look_up(reader, name);
        self.reader = Some(reader);
        match found {
            Ok(found) => Ok(found),
            Err(refused) => {
                self.refusals = self.refusals.and_one();
                Err(refused)
            }
        }
    }

    /// Learns what a publisher reported: from now on the reader has seen these changes.
    pub fn learn(&mut self, told: Told)
        ensures { self.new ≡ record { seen = told; entries = 0; refused = self.old.refused; learned = told } }
    {
        let Told { reader: learned } = told;
        self.reader = Some(learned);
    }
}

/// The profile under a name and the version, in what is published at one moment.
fn look_up(
    reader: StoreReader,
    name: &[u8],
) -> (StoreReader, Result<(Option<Arc<AnyProfile>>, u64), NoEntry>)
    ensures seen { IsPrefix (view reader.place).seen (view result.0.place).seen }
    ensures profile { IfOk result.1 (λ found. option_map judge_shared found.0 ≡ policy_after (view result.0.place).seen name.now) }
    ensures version { IfOk result.1 (λ found. found.1 ≡ length (view result.0.place).seen) }
    ensures ok { OnOk result.1 ((view result.0.place).entries ≡ (view reader.place).entries + 1) }
    ensures err { OnErr result.1 ((view result.0.place ≡ view reader.place)
        ⊎ (((view result.0.place).entries ≡ (view reader.place).entries + 1)
        × IsSome (policy_after (view result.0.place).seen name.now))) }
    ensures learned { (view result.0.place).learned ≡ (view reader.place).learned }
{
    match reader.enter_as::<Sees>() {
        Ok(reading) => {
            let store = reading.get();
            let found = match store.profile(name) {
                Ok(profile) => Ok((profile, store.version())),
                Err(fault) => Err(fault),
            };
            (reading.leave(), found)
        }
        Err(reader) => (reader, Err(NoEntry)),
    }
}
