//! Profiles, and what a reader finds.
use matcher::AnyProfile;
use profile_registry::{News, NoEntry, PolicyReader, Publisher};
use std::alloc::Global;
use std::process::Abort;
use std::sync::{Arc, Wait};
use std::test::Fail;
use storm_parts::compiled;

/// What a reader finds under a name.
#[derive(Clone, Copy, Debug, PartialEq, Eq)]
pub(crate) enum Found {
    Nothing,
    /// The profile that is called `a` in its text.
    A,
    /// The one that is called `b`.
    B,
    Another,
}

pub(crate) fn profile_a(alloc: Global) -> Result<Arc<AnyProfile>, Fail> {
    compiled(alloc, b"profile a {\n  /a r,\n}\n")
}

pub(crate) fn profile_b(alloc: Global) -> Result<Arc<AnyProfile>, Fail> {
    compiled(alloc, b"profile b {\n  /b rw,\n}\n")
}

/// What is found under a name, and the version.
pub(crate) fn look(reader: &mut PolicyReader, name: &[u8]) -> Result<(Found, u64), NoEntry> {
    let (profile, version) = reader.get(name)?;
    let found = match profile {
        Some(profile) => which(&profile),
        None => Found::Nothing,
    };
    Ok((found, version))
}

/// What is found under a name by a reader that knows a version, and the version; `None` if the policy has the known version.
pub(crate) fn look_since(
    reader: &mut PolicyReader,
    name: &[u8],
    known: Option<u64>,
) -> Result<(Option<Found>, u64), NoEntry> {
    let (news, version) = reader.get_since(name, known)?;
    let found = match news {
        News::Same => None,
        News::Profile(Some(profile)) => Some(which(&profile)),
        News::Profile(None) => Some(Found::Nothing),
    };
    Ok((found, version))
}

fn which(profile: &AnyProfile) -> Found {
    match profile {
        AnyProfile::Compiled(compiled) => match compiled.profile().name() {
            b"a" => Found::A,
            b"b" => Found::B,
            _ => Found::Another,
        },
        AnyProfile::Loaded(_) => Found::Another,
    }
}

/// Stages a profile. Where memory is refused, nothing is staged, and it can be staged again.
pub(crate) fn replace(
    rt: &impl Abort,
    publisher: &mut Publisher,
    name: &[u8],
    profile: &Arc<AnyProfile>,
) -> Result<(), Fail> {
    let before = publisher.changes();
    if before >= 1 << 59 {
        return Err(Fail::from("too many changes"));
    }
    if publisher.replace(name, Arc::try_clone(profile)?).is_err() {
        assert_eq!(rt; publisher.changes(), before);
        publisher.replace(name, Arc::try_clone(profile)?)?;
    }
    assert_eq!(rt; publisher.changes(), before + 1);
    Ok(())
}

/// Stages the removal of what is published under a name, likewise.
pub(crate) fn remove(rt: &impl Abort, publisher: &mut Publisher, name: &[u8]) -> Result<(), Fail> {
    let before = publisher.changes();
    if before >= 1 << 59 {
        return Err(Fail::from("too many changes"));
    }
    if publisher.remove(name).is_err() {
        assert_eq!(rt; publisher.changes(), before);
        publisher.remove(name)?;
    }
    assert_eq!(rt; publisher.changes(), before + 1);
    Ok(())
}

/// Publishes. Where memory is refused, readers read what they read before, and it can be published again.
pub(crate) fn publish<R: Abort + Wait>(
    rt: &R,
    publisher: &mut Publisher,
    reader: &mut PolicyReader,
    name: &[u8],
) -> Result<u64, Fail> {
    let before = look(reader, name);
    let changes = publisher.changes();
    match publisher.publish(rt) {
        Ok(version) => Ok(version),
        Err(_) => {
            assert_eq!(rt; look(reader, name), before);
            assert_eq!(rt; publisher.changes(), changes);
            Ok(publisher.publish(rt)?)
        }
    }
}
