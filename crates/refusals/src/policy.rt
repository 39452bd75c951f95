//! Profiles published, replaced and removed, and read by a reader.
ghost use Rattle.std.specs.Prelude.{◌≡◌, IfOk};

use matcher::AnyProfile;
use names::NoMemory;
use profile_registry::{NoSeat, PolicyReader, Publisher};
use std::alloc::Global;
use std::fmt;
use std::io::Print;
use std::sync::{Arc, Wait};
use storm_parts::{Call, Difference, How, Stop, again, expect, expect_ok, shared_of};

/// The names that profiles are published under.
const NAMES: [&[u8]; 3] = [b"p", b"q", b"a longer name of a profile"];

/// Fewer changes than this are staged and published.
const MOST_CHANGES: u64 = 1 << 59;

/// A change of what is published under the name with this number.
#[derive(Clone, Copy)]
enum Staged<'a> {
    Replace(usize, &'a Arc<AnyProfile>),
    Remove(usize),
}

impl Staged<'_> {
    fn call(&self) -> Call {
        match self {
            Staged::Replace(..) => Call::Replace,
            Staged::Remove(_) => Call::Remove,
        }
    }

    // Stages it, if memory is given.
    fn stage(&self, publisher: &mut Publisher) -> Result<Result<(), NoMemory>, Difference> {
        expect(publisher.changes() < MOST_CHANGES, self.call(), How::Fails)?;
        match self {
            Staged::Replace(name, profile) => {
                let share = expect_ok(Call::ShareProfile, Arc::try_clone(profile))?;
                Ok(publisher.replace(name_of(*name), share))
            }
            Staged::Remove(name) => Ok(publisher.remove(name_of(*name))),
        }
    }
}

fn name_of(number: usize) -> &'static [u8] {
    match NAMES.get(number) {
        Some(name) => name,
        None => b"",
    }
}

/// What a reader and the publisher say of the policy.
#[derive(Clone, Copy, Debug, PartialEq, Eq)]
struct Sight {
    version: u64,
    changes: u64,
    // How many states the profile under each name has, and the version that the reader returns with it.
    found: [(Option<u32>, u64); 3],
}

impl fmt::Display for Sight {
    fn fmt<W: fmt::Write>(&self, f: &mut fmt::Formatter<W>) -> fmt::Result {
        write!(f, "version {}, {} changes", self.version, self.changes)?;
        for (states, version) in self.found {
            match states {
                Some(states) => write!(f, ", {states} states at {version}")?,
                None => write!(f, ", none at {version}")?,
            }
        }
        Ok(())
    }
}

fn seen(publisher: &Publisher, reader: &mut PolicyReader) -> Result<Sight, Difference> {
    let mut found = [(None, 0); 3];
    for number in 0..3 {
        found[number] = get(reader, name_of(number))?;
    }
    Ok(Sight {
        version: publisher.version(),
        changes: publisher.changes(),
        found,
    })
}

// How many states the profile under a name has, and the policy's version. Nothing is allocated.
fn get(reader: &mut PolicyReader, name: &[u8]) -> Result<(Option<u32>, u64), Difference> {
    let (profile, version) = expect_ok(Call::Get, reader.get(name))?;
    match profile {
        Some(profile) => Ok((Some(profile.table().states()), version)),
        None => Ok((None, version)),
    }
}

/// Prints what a reader finds after each publication.
pub(crate) fn show_policy<R: Print + Wait>(rt: &R, alloc: Global) -> Result<(), Stop> {
    let mut publisher = new_publisher(alloc)?;
    let shown = show_published(rt, alloc, &mut publisher);
    publisher.close(rt);
    shown
}

/// A publisher with nothing published.
pub(crate) fn new_publisher(alloc: Global) -> Result<Publisher, Difference> {
    again(Call::NewPublisher, NoMemory, || Publisher::new(alloc))
}

/// A reader of what is published.
pub(crate) fn new_reader(publisher: &mut Publisher) -> Result<PolicyReader, Difference>
    ensures same { publisher.new ≡ publisher.old }
    ensures learned { IfOk result (λ reader. reader.learned ≡ publisher.old.published) }
{
    match publisher.reader() {
        Ok(reader) => Ok(reader),
        Err(NoSeat) => expect_ok(Call::NewReader, publisher.reader()),
    }
}

/// Publishes a profile under the name `p`.
pub(crate) fn publish_profile<R: Wait>(
    rt: &R,
    publisher: &mut Publisher,
    profile: &Arc<AnyProfile>,
) -> Result<(), Difference> {
    let mut reader = new_reader(publisher)?;
    publish(rt, publisher, &mut reader, &[Staged::Replace(0, profile)])?;
    Ok(())
}

fn show_published<R: Print + Wait>(
    rt: &R,
    alloc: Global,
    publisher: &mut Publisher,
) -> Result<(), Stop> {
    let small = shared_of(alloc, b"profile s {\n  /a r,\n}\n")?;
    let large = shared_of(alloc, b"profile l {\n  /{usr/,}lib/** rm,\n}\n")?;
    let mut reader = new_reader(publisher)?;
    let rounds: [&[Staged<'_>]; 4] = [
        &[Staged::Replace(0, &small)],
        &[Staged::Replace(1, &large), Staged::Replace(2, &small)],
        &[
            Staged::Replace(0, &large),
            Staged::Remove(1),
            Staged::Remove(1),
        ],
        &[Staged::Remove(0), Staged::Remove(2)],
    ];
    for staged in &rounds {
        let version = publish(rt, publisher, &mut reader, staged)?;
        let seen = seen(publisher, &mut reader)?;
        println!(rt; "publish: {version}, {seen}")?;
    }
    Ok(())
}

// Stages changes and publishes them.
fn publish<R: Wait>(
    rt: &R,
    publisher: &mut Publisher,
    reader: &mut PolicyReader,
    staged: &[Staged<'_>],
) -> Result<u64, Difference> {
    for change in staged {
        stage(publisher, reader, change)?;
    }
    publish_staged(rt, publisher, reader)
}

// Stages a change. Where memory is refused, nothing is staged.
fn stage(
    publisher: &mut Publisher,
    reader: &mut PolicyReader,
    change: &Staged<'_>,
) -> Result<(), Difference> {
    let before = seen(publisher, reader)?;
    match change.stage(publisher)? {
        Ok(()) => Ok(()),
        Err(NoMemory) => {
            let is_same = seen(publisher, reader)? == before;
            expect(is_same, change.call(), How::Changes)?;
            expect_ok(change.call(), change.stage(publisher)?)
        }
    }
}

// Publishes what is staged. Where memory is refused, the reader reads what it read before.
fn publish_staged<R: Wait>(
    rt: &R,
    publisher: &mut Publisher,
    reader: &mut PolicyReader,
) -> Result<u64, Difference> {
    let before = seen(publisher, reader)?;
    match publisher.publish(rt) {
        Ok(version) => Ok(version),
        Err(NoMemory) => {
            let is_same = seen(publisher, reader)? == before;
            expect(is_same, Call::Publish, How::Changes)?;
            expect_ok(Call::Publish, publisher.publish(rt))
        }
    }
}
