//! The places for readers.
use crate::registry::fixtures::{Found, look};
use profile_registry::{NoEntry, NoSeat, PLACES, PolicyReader, Publisher};
use std::alloc::Global;
use std::process::Abort;
use std::test::Fail;
use storm_parts::new_publisher;

// Takes all places but one.
fn take_places(alloc: Global, publisher: &mut Publisher) -> Result<Vec<PolicyReader>, Fail> {
    let mut readers: Vec<PolicyReader> = Vec::with_capacity(alloc, PLACES)?;
    for _ in 1..PLACES {
        readers.push(publisher.reader()?)?;
    }
    Ok(readers)
}

// A note takes the last place, as long as it exists.
fn take_last_by_note(rt: &impl Abort, publisher: &mut Publisher) -> Result<(), Fail> {
    let told = publisher.tell()?;
    assert_eq!(rt; publisher.reader().err(), Some(NoSeat));
    assert_eq!(rt; publisher.tell().err(), Some(NoSeat));
    drop(told);
    Ok(())
}

fn look_by_each(rt: &impl Abort, readers: &mut [PolicyReader]) -> Result<(), Fail> {
    for reader in readers {
        assert_eq!(rt; look(reader, b"p")?, (Found::Nothing, 0));
    }
    Ok(())
}

// Each place is taken once, and can be taken again when its reader, or its note, is dropped.
fn fills(rt: &impl Abort, alloc: Global, publisher: &mut Publisher) -> Result<(), Fail> {
    let mut readers = take_places(alloc, publisher)?;
    take_last_by_note(rt, publisher)?;
    readers.push(publisher.reader()?)?;
    assert_eq!(rt; publisher.reader().err(), Some(NoSeat));
    look_by_each(rt, &mut readers)?;
    drop(readers.pop());
    drop(publisher.reader()?);
    Ok(())
}

#[test]
fn readers_have_places(rt: HostRuntime) -> Result<(), Fail> {
    let mut publisher = new_publisher(rt.alloc())?;
    let outcome = fills(&rt, rt.alloc(), &mut publisher);
    publisher.close(&rt);
    outcome
}

#[test]
fn no_entry_where_the_publisher_is_closed(rt: HostRuntime) -> Result<(), Fail> {
    let mut publisher = new_publisher(rt.alloc())?;
    let reader = publisher.reader();
    publisher.close(&rt);
    let mut reader = reader?;
    assert_eq!(rt; look(&mut reader, b"p"), Err(NoEntry));
    assert_eq!(rt; look(&mut reader, b"p"), Err(NoEntry));
    Ok(())
}
