//! Reading by a caller that knows what it read at an earlier version.
ghost use Rattle.std.specs.Prelude.{◌≡◌, ◌≢◌, ◌⊎◌, ◌+◌, IfOk, OnOk, OnErr, IsSome, Some, length};
ghost use Rattle.left_right.specs.Sides.{view};
ghost use Rattle.mediation.specs.Deeds.{policy_after};
ghost use Rattle.profile_registry.specs.News.{IsNews};
ghost use Rattle.profile_registry.specs.Views.{IsUnanswered};
ghost use mathlib.Core.List.{IsPrefix};

use crate::faults::NoEntry;
use crate::reader::PolicyReader;
use crate::steps::{Sees, StoreReader};
use matcher::AnyProfile;
use std::sync::Arc;

/// What is published under a name, for a caller that knows what was at one version.
#[derive(Drop)]
pub enum News {
    /// The policy has that version, so nothing has changed.
    Same,
    /// The policy has another version, and this is published under the name, if anything is.
    Profile(Option<Arc<AnyProfile>>),
}

impl PolicyReader {
    /// What is published under a name, and the policy's version, as [`get`](PolicyReader::get) returns them. If that version is
    /// the known one, at which the caller has read this name, the answer is [`News::Same`]: the name isn't looked up, and no share
    /// of the profile is taken.
    pub fn get_since(&mut self, name: &[u8], known: Option<u64>) -> Result<(News, u64), NoEntry>
        ensures seen { IsPrefix self.old.seen self.new.seen }
        ensures news { IfOk result (λ found. IsNews (policy_after self.new.seen name.now) known found.1 found.0) }
        ensures version { IfOk result (λ found. found.1 ≡ length self.new.seen) }
        ensures ok { OnOk result ((self.new.entries ≡ self.old.entries + 1) × (self.new.refused ≡ self.old.refused)) }
        ensures err { OnErr result (IsUnanswered self.old self.new name.now × (self.new.refused ≡ self.old.refused + 1)) }
        ensures unknown { OnErr result ((self.new.entries ≡ self.old.entries) ⊎ (known ≢ Some (length self.new.seen))) }
        ensures learned { self.new.learned ≡ self.old.learned }
    {
        let Some(reader) = self.reader.take() else {
            unreachable!()
        };
        let (reader, found) = look_up_since(reader, name, known);
        self.reader = Some(reader);
        match found {
            Ok(found) => Ok(found),
            Err(refused) => {
                self.refusals = self.refusals.and_one();
                Err(refused)
            }
        }
    }
}

/// What is under a name for a caller that knows a version, and the version, in what is published at one moment.
fn look_up_since(
    reader: StoreReader,
    name: &[u8],
    known: Option<u64>,
) -> (StoreReader, Result<(News, u64), NoEntry>)
    ensures seen { IsPrefix (view reader.place).seen (view result.0.place).seen }
    ensures news { IfOk result.1 (λ found. IsNews (policy_after (view result.0.place).seen name.now) known found.1 found.0) }
    ensures version { IfOk result.1 (λ found. found.1 ≡ length (view result.0.place).seen) }
    ensures ok { OnOk result.1 ((view result.0.place).entries ≡ (view reader.place).entries + 1) }
    ensures err { OnErr result.1 ((view result.0.place ≡ view reader.place)
        ⊎ (((view result.0.place).entries ≡ (view reader.place).entries + 1)
        × IsSome (policy_after (view result.0.place).seen name.now)
        × (known ≢ Some (length (view result.0.place).seen)))) }
    ensures learned { (view result.0.place).learned ≡ (view reader.place).learned }
{
    match reader.enter_as::<Sees>() {
        Ok(reading) => {
            let store = reading.get();
            let version = store.version();
            let found = match store.news(name, known) {
                Ok(news) => Ok((news, version)),
                Err(fault) => Err(fault),
            };
            (reading.leave(), found)
        }
        Err(reader) => (reader, Err(NoEntry)),
    }
}
