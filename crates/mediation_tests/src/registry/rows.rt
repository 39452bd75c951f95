//! What is published, row by row.
use crate::registry::fixtures::{Found, look, profile_a, profile_b, publish, remove, replace};
use matcher::AnyProfile;
use profile_registry::{PolicyReader, Publisher};
use std::alloc::Global;
use std::process::Abort;
use std::sync::{Arc, Wait};
use std::test::Fail;
use storm_parts::new_publisher;

fn rows<R: Abort + Wait>(rt: &R, alloc: Global, publisher: &mut Publisher) -> Result<(), Fail> {
    let mut reader = publisher.reader()?;
    assert_eq!(rt; publisher.publish(rt)?, 0);
    replace(rt, publisher, b"p", &profile_a(alloc)?)?;
    remove(rt, publisher, b"q")?;
    assert_eq!(rt; look(&mut reader, b"p")?, (Found::Nothing, 0));
    assert_eq!(rt; publish(rt, publisher, &mut reader, b"p")?, 2);
    reader.learn(publisher.tell()?);
    assert_eq!(rt; look(&mut reader, b"p")?, (Found::A, 2));
    assert_eq!(rt; look(&mut reader, b"q")?, (Found::Nothing, 2));
    assert_eq!(rt; look(&mut reader, b"")?, (Found::Nothing, 2));
    replace(rt, publisher, b"p", &profile_b(alloc)?)?;
    remove(rt, publisher, b"p")?;
    assert_eq!(rt; look(&mut reader, b"p")?, (Found::A, 2));
    assert_eq!(rt; publish(rt, publisher, &mut reader, b"p")?, 4);
    reader.learn(publisher.tell()?);
    assert_eq!(rt; look(&mut reader, b"p")?, (Found::Nothing, 4));
    Ok(())
}

const LONG: [u8; 300] = [b'x'; 300];

fn stage<R: Abort + Wait>(
    rt: &R,
    publisher: &mut Publisher,
    a: &Arc<AnyProfile>,
    b: &Arc<AnyProfile>,
) -> Result<(), Fail> {
    replace(rt, publisher, b"p", a)?;
    replace(rt, publisher, b"p", b)?;
    replace(rt, publisher, b"", a)?;
    replace(rt, publisher, &LONG, b)?;
    remove(rt, publisher, b"")
}

fn expect_batch(rt: &impl Abort, reader: &mut PolicyReader, version: u64) -> Result<(), Fail> {
    assert_eq!(rt; look(reader, b"p")?, (Found::B, version));
    assert_eq!(rt; look(reader, b"")?, (Found::Nothing, version));
    assert_eq!(rt; look(reader, &LONG)?, (Found::B, version));
    Ok(())
}

// Each change of a batch is seen, in order, and the first copy and the second answer alike.
fn batches<R: Abort + Wait>(rt: &R, alloc: Global, publisher: &mut Publisher) -> Result<(), Fail> {
    let (a, b) = (profile_a(alloc)?, profile_b(alloc)?);
    let mut reader = publisher.reader()?;
    for round in 0..5u64 {
        stage(rt, publisher, &a, &b)?;
        let version = 5 * round + 5;
        assert_eq!(rt; publish(rt, publisher, &mut reader, b"p")?, version);
        expect_batch(rt, &mut reader, version)?;
        assert_eq!(rt; publisher.publish(rt)?, version);
    }
    Ok(())
}

#[test]
fn published_rows(rt: HostRuntime) -> Result<(), Fail> {
    let mut publisher = new_publisher(rt.alloc())?;
    let outcome = rows(&rt, rt.alloc(), &mut publisher);
    publisher.close(&rt);
    outcome
}

#[test]
fn published_batches(rt: HostRuntime) -> Result<(), Fail> {
    let mut publisher = new_publisher(rt.alloc())?;
    let outcome = batches(&rt, rt.alloc(), &mut publisher);
    publisher.close(&rt);
    outcome
}
