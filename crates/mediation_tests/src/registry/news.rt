//! Reading by a reader that knows a version.
use crate::registry::fixtures::{
    Found, look_since, profile_a, profile_b, publish, remove, replace,
};
use matcher::AnyProfile;
use profile_registry::{NoEntry, PolicyReader, Publisher};
use std::alloc::Global;
use std::process::Abort;
use std::sync::{Arc, Wait};
use std::test::Fail;
use storm_parts::new_publisher;

// At this version, this is found under `p`, and nothing under `q`, unless the version is the known one.
fn expect_news(
    rt: &impl Abort,
    reader: &mut PolicyReader,
    found: Found,
    version: u64,
) -> Result<(), Fail> {
    assert_eq!(rt; look_since(reader, b"p", Some(version))?, (None, version));
    assert_eq!(rt; look_since(reader, b"q", Some(version))?, (None, version));
    for known in [
        None,
        Some(version.wrapping_sub(1)),
        Some(version.wrapping_add(1)),
    ] {
        assert_eq!(rt; look_since(reader, b"p", known)?, (Some(found), version));
        assert_eq!(rt;
            look_since(reader, b"q", known)?,
            (Some(Found::Nothing), version)
        );
    }
    Ok(())
}

// Publishes what is staged, as this version.
fn expect_published<R: Abort + Wait>(
    rt: &R,
    publisher: &mut Publisher,
    reader: &mut PolicyReader,
    found: Found,
    version: u64,
) -> Result<(), Fail> {
    assert_eq!(rt; publish(rt, publisher, reader, b"p")?, version);
    reader.learn(publisher.tell()?);
    expect_news(rt, reader, found, version)
}

fn replace_and_remove<R: Abort + Wait>(
    rt: &R,
    publisher: &mut Publisher,
    a: &Arc<AnyProfile>,
    b: &Arc<AnyProfile>,
) -> Result<(), Fail> {
    let mut reader = publisher.reader()?;
    expect_news(rt, &mut reader, Found::Nothing, 0)?;
    replace(rt, publisher, b"p", a)?;
    expect_news(rt, &mut reader, Found::Nothing, 0)?;
    expect_published(rt, publisher, &mut reader, Found::A, 1)?;
    replace(rt, publisher, b"p", b)?;
    expect_published(rt, publisher, &mut reader, Found::B, 2)?;
    remove(rt, publisher, b"p")?;
    expect_published(rt, publisher, &mut reader, Found::Nothing, 3)
}

fn news<R: Abort + Wait>(rt: &R, alloc: Global, publisher: &mut Publisher) -> Result<(), Fail> {
    let (a, b) = (profile_a(alloc)?, profile_b(alloc)?);
    replace_and_remove(rt, publisher, &a, &b)
}

#[test]
fn news_since_a_version(rt: HostRuntime) -> Result<(), Fail> {
    let mut publisher = new_publisher(rt.alloc())?;
    let outcome = news(&rt, rt.alloc(), &mut publisher);
    publisher.close(&rt);
    outcome
}

#[test]
fn no_news_where_the_publisher_is_closed(rt: HostRuntime) -> Result<(), Fail> {
    let mut publisher = new_publisher(rt.alloc())?;
    let reader = publisher.reader();
    publisher.close(&rt);
    let mut reader = reader?;
    assert_eq!(rt; look_since(&mut reader, b"p", None), Err(NoEntry));
    assert_eq!(rt; look_since(&mut reader, b"p", Some(0)), Err(NoEntry));
    Ok(())
}
