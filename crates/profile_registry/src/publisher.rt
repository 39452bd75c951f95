//! The publisher, which changes what is published.
ghost use Rattle.std.specs.Prelude.{◌≡◌, ◌+◌, ◌-◌, ◌^◌, ◌<◌, [], ◌∷◌, ◌++◌, IfOk, IsOk, OnOk, OnErr, Some, None, length, map, drop};
ghost use Rattle.left_right.specs.Sides.{view};
ghost use Rattle.mediation.specs.Deeds.{published, removed};
ghost use Rattle.mediation.specs.PolicyChanges.{deed_of, judge_shared};
ghost use Rattle.profile_registry.specs.Views.{changes_of};

use crate::faults::NoSeat;
use crate::known::Batch;
use crate::reader::{PolicyReader, Told};
use crate::steps::{Note, Publishes, StoreWriter};
use crate::store::Store;
use left_right::writer::Writer;
use matcher::{AnyProfile, PolicyChange};
use names::NoMemory;
use std::alloc::{AllocError, Global};
use std::marker::{Brand, Model};
use std::sync::{Arc, Wait};

/// How many readers and notes there may be at a time.
pub const PLACES: usize = 64;

/// Changes what is published. Contracts see the changes that were published, and those that are staged.
///
/// It is not `Drop`: end it by [`close`](Publisher::close).
pub struct Publisher {
    alloc: Global,
    // `None` while it is lent to a call.
    writer: Option<StoreWriter>,
    // How many changes were published or are staged.
    changes: u64,
}

impl Model for Publisher {
    ghost use Rattle.std.specs.Prelude.{◌≡◌, ◌+◌, ◌^◌, ◌<◌, [], length, map, drop, IsSomeAnd};
    ghost use Rattle.std.specs.Option.{option_map, unwrap_or};
    ghost use Rattle.mediation.specs.PolicyChanges.{deed_of};
    ghost use Rattle.profile_registry.specs.Views.{Publishing};

    ghost Value = { Publishing };

    ghost view = { λ p. record {
      published = unwrap_or (option_map (λ w. w.desk.place.me.0.client.seen) p.writer) [];
      staged = unwrap_or (option_map (λ w. map deed_of (drop w.behind w.log.items)) p.writer) [];
    } };

    ghost invariant = { λ p. IsSomeAnd p.writer (λ w. (length w.desk.place.me.0.client.seen ≡ w.desk.shown.value.version)
        × (p.changes ≡ w.desk.shown.value.version + length (drop w.behind w.log.items))
        × (p.changes < 2 ^ 60)) };
}

impl Publisher {
    /// A publisher with nothing published or staged.
    pub fn new(alloc: Global) -> Result<Publisher, NoMemory>
        ensures { IfOk result (λ publisher. publisher ≡ record { published = []; staged = [] }) }
    {
        let Ok(writer) = Writer::new(alloc, Store::new(alloc), Store::new(alloc), PLACES) else {
            return Err(NoMemory);
        };
        Ok(Publisher {
            alloc,
            writer: Some(writer),
            changes: 0,
        })
    }

    /// How many changes were published or are staged.
    pub fn changes(&self) -> u64
        ensures { result ≡ changes_of self.now }
    {
        self.changes
    }

    /// How many changes were published: the version that a reader returns.
    pub fn version(&self) -> u64
        ensures { result ≡ length self.now.published }
    {
        let Some(writer) = &self.writer else {
            unreachable!()
        };
        writer.published().version()
    }

    /// Stages a profile under a name, in place of the one that is there.
    pub fn replace(&mut self, name: &[u8], profile: Arc<AnyProfile>) -> Result<(), NoMemory>
        requires { changes_of self.old < 2 ^ 60 - 1 }
        ensures ok { OnOk result (self.new ≡ record {
          published = self.old.published;
          staged = self.old.staged ++ published name.now (judge_shared profile) ∷ [];
        }) }
        ensures err { OnErr result (self.new ≡ self.old) }
    {
        let Ok(name) = Vec::from_slice(self.alloc, name) else {
            return Err(NoMemory);
        };
        self.stage(PolicyChange::Replace(name, profile))
    }

    /// Stages the removal of what is under a name, whether or not there is anything.
    pub fn remove(&mut self, name: &[u8]) -> Result<(), NoMemory>
        requires { changes_of self.old < 2 ^ 60 - 1 }
        ensures ok { OnOk result (self.new ≡ record {
          published = self.old.published;
          staged = self.old.staged ++ removed name.now ∷ [];
        }) }
        ensures err { OnErr result (self.new ≡ self.old) }
    {
        let Ok(name) = Vec::from_slice(self.alloc, name) else {
            return Err(NoMemory);
        };
        self.stage(PolicyChange::Remove(name))
    }

    /// Stages a change.
    fn stage(&mut self, change: PolicyChange) -> Result<(), NoMemory>
        requires { changes_of self.old < 2 ^ 60 - 1 }
        ensures ok { OnOk result (self.new ≡ record {
          published = self.old.published;
          staged = self.old.staged ++ deed_of change ∷ [];
        }) }
        ensures err { OnErr result (self.new ≡ self.old) }
    {
        let Some(writer) = &mut self.writer else {
            unreachable!()
        };
        match writer.append(change) {
            Ok(()) => {
                self.changes += 1;
                Ok(())
            }
            Err(_) => Err(NoMemory),
        }
    }

    /// Makes all staged changes visible at once, and returns the policy's new version: how many changes were published. It waits
    /// for readers that have been inside since before the last call. Where nothing is staged it returns the version as it is.
    pub fn publish(&mut self, rt: &impl Wait) -> Result<u64, NoMemory>
        ensures ok { IfOk result (λ version. (self.new ≡ record { published = self.old.published ++ self.old.staged; staged = [] })
            × (version ≡ length self.new.published)) }
        ensures err { OnErr result (self.new ≡ self.old) }
        ensures unstaged { self.old.staged ≡ [] → IsOk result }
    {
        let Some(writer) = self.writer.take() else {
            unreachable!()
        };
        let (writer, published) = publish_staged(rt, writer);
        give_back(&mut self.writer, writer);
        published
    }

    /// Returns what was published, for a reader to learn.
    pub fn tell(&mut self) -> Result<Told, NoSeat>
        ensures ok { IfOk result (λ told. told ≡ self.old.published) }
        ensures same { self.new ≡ self.old }
    {
        let Some(writer) = &mut self.writer else {
            unreachable!()
        };
        let Ok(mut reader) = writer.factory().reader() else {
            return Err(NoSeat);
        };
        reader.learn::<Note>(writer.tell::<Note>());
        Ok(Told::new(reader))
    }

    /// A new reader, which has seen all that was published.
    pub fn reader(&mut self) -> Result<PolicyReader, NoSeat>
        ensures ok { IfOk result (λ reader. reader ≡ record {
          seen = self.old.published;
          entries = 0;
          refused = 0;
          learned = self.old.published;
        }) }
        ensures same { self.new ≡ self.old }
    {
        Ok(PolicyReader::new(self.tell()?))
    }

    /// Ends the publisher: staged changes are dropped, and readers are refused from then on. It waits for those that are
    /// inside.
    pub fn close(self, rt: &impl Wait) {
        let Publisher {
            alloc: _,
            writer,
            changes: _,
        } = self;
        match writer {
            Some(writer) => {
                writer.take(rt);
            }
            None => unreachable!(),
        }
    }
}

/// Puts the writer back where it was lent from.
fn give_back(place: &mut Option<StoreWriter>, writer: StoreWriter)
    requires { place.old ≡ None }
    ensures { place.new ≡ Some writer }
{
    match place.replace(writer) {
        None => {}
        Some(_) => unreachable!(),
    }
}

/// Makes all staged changes visible at once, and returns the version.
fn publish_staged<R: Wait>(rt: &R, writer: StoreWriter) -> (StoreWriter, Result<u64, NoMemory>)
    requires { length (view writer.desk.place).seen ≡ writer.desk.shown.value.version }
    ensures ok { IfOk result.1
        (λ version. ((view result.0.desk.place).seen ≡ (view writer.desk.place).seen ++ map deed_of (drop writer.behind writer.log.items))
        × (version ≡ length (view result.0.desk.place).seen) × (drop result.0.behind result.0.log.items ≡ [])) }
    ensures err { OnErr result.1 (((view result.0.desk.place).seen ≡ (view writer.desk.place).seen)
        × (drop result.0.behind result.0.log.items ≡ drop writer.behind writer.log.items)) }
    ensures whole { length (view result.0.desk.place).seen ≡ result.0.desk.shown.value.version }
    ensures unstaged { drop writer.behind writer.log.items ≡ [] → IsOk result.1 }
{
    if !writer.has_pending_operations() {
        let version = writer.published().version();
        return (writer, Ok(version));
    }
    let (writer, done) = publish_batch::<Brand, R>(rt, writer);
    match done {
        Ok(()) => {
            let version = writer.published().version();
            (writer, Ok(version))
        }
        Err(_) => (writer, Err(NoMemory)),
    }
}

/// Makes a batch of changes visible: those that are staged.
fn publish_batch<B: Batch, R: Wait>(
    rt: &R,
    writer: StoreWriter,
) -> (StoreWriter, Result<(), AllocError>)
    requires batch { B.staged ≡ map deed_of (drop writer.behind writer.log.items) }
    requires whole { length (view writer.desk.place).seen ≡ writer.desk.shown.value.version }
    ensures ok { OnOk result.1 (((view result.0.desk.place).seen ≡ (view writer.desk.place).seen ++ B.staged)
        × (length (view result.0.desk.place).seen ≡ result.0.desk.shown.value.version) × (drop result.0.behind result.0.log.items ≡ [])) }
    ensures err { OnErr result.1 (((view result.0.desk.place).seen ≡ (view writer.desk.place).seen)
        × (result.0.desk.shown.value ≡ writer.desk.shown.value)
        × (drop result.0.behind result.0.log.items ≡ drop writer.behind writer.log.items)) }
{
    writer.publish_as::<Publishes<B>, R>(rt)
}
