//! What a server does: it has one publisher, and a reader for each thread.
use matcher::{AnyProfile, judge};
use names::{NoMemory, Permission, Perms, Verdict};
use profile_registry::{NoSeat, PolicyReader, Publisher};
use std::alloc::Global;
use std::process::Abort;
use std::sync::{Arc, Mutex, MutexGuard, Wait};
use std::test::Fail;
use std::thread::{Threads, join};
use storm_parts::{compiled, new_publisher};

// The answer to a request.
#[derive(Clone, Copy, Debug, PartialEq, Eq)]
enum Reply {
    Allowed,
    Denied,
    /// Nothing is published under the name.
    Unknown,
    /// The request is to be made again.
    Busy,
}

// Whether the holder of a profile may read this file. Each thread has a reader of its own, and waits for nobody.
fn may_read(reader: &mut PolicyReader, name: &[u8], file: &[u8]) -> Reply {
    let Ok((profile, _version)) = reader.get(name) else {
        return Reply::Busy;
    };
    let Some(profile) = profile else {
        return Reply::Unknown;
    };
    match judge(profile.table(), file, Perms::NONE.with(Permission::Read)) {
        Verdict::Allowed => Reply::Allowed,
        Verdict::Denied { .. } | Verdict::NoRule { .. } => Reply::Denied,
    }
}

// An administrator's change, from any thread: the publisher is under a lock, and readers don't wait for it.
fn install<R: Wait>(
    rt: &R,
    publisher: &Mutex<Publisher>,
    name: &[u8],
    profile: Arc<AnyProfile>,
) -> Result<u64, NoMemory> {
    let mut locked = publisher.lock(rt);
    let version = publish_one(rt, &mut locked, name, profile);
    MutexGuard::unlock(locked);
    version
}

fn publish_one<R: Wait>(
    rt: &R,
    publisher: &mut Publisher,
    name: &[u8],
    profile: Arc<AnyProfile>,
) -> Result<u64, NoMemory> {
    if publisher.changes() >= 1 << 59 {
        return Err(NoMemory);
    }
    publisher.replace(name, profile)?;
    publisher.publish(rt)
}

// A new reader, for a thread.
fn join_in<R: Wait>(rt: &R, publisher: &Mutex<Publisher>) -> Result<PolicyReader, NoSeat> {
    let mut locked = publisher.lock(rt);
    let reader = locked.reader();
    MutexGuard::unlock(locked);
    reader
}

// A thread that must not answer by older rules learns what was published before it goes on.
fn catch_up<R: Wait>(
    rt: &R,
    publisher: &Mutex<Publisher>,
    reader: &mut PolicyReader,
) -> Result<(), NoSeat> {
    let mut locked = publisher.lock(rt);
    let told = locked.tell();
    MutexGuard::unlock(locked);
    reader.learn(told?);
    Ok(())
}

fn serve<R: Abort + Threads + Wait + Sync>(
    rt: &R,
    alloc: Global,
    publisher: &Mutex<Publisher>,
) -> Result<(), Fail> {
    let wide = compiled(alloc, b"profile web {\n  /srv/** r,\n}\n")?;
    let narrow = compiled(alloc, b"profile web {\n  deny /srv/** r,\n}\n")?;
    install(rt, publisher, b"web", wide)?;
    let mut one = join_in(rt, publisher)?;
    let mut other = join_in(rt, publisher)?;
    let replies = join(
        rt,
        || may_read(&mut one, b"web", b"/srv/index"),
        || may_read(&mut other, b"mail", b"/srv/index"),
    );
    assert_eq!(rt; replies, (Reply::Allowed, Reply::Unknown));
    assert_eq!(rt; install(rt, publisher, b"web", narrow)?, 2);
    catch_up(rt, publisher, &mut one)?;
    assert_eq!(rt; may_read(&mut one, b"web", b"/srv/index"), Reply::Denied);
    Ok(())
}

#[test]
fn a_server(rt: HostRuntime) -> Result<(), Fail> {
    let publisher = Mutex::new(new_publisher(rt.alloc())?);
    let outcome = serve(&rt, rt.alloc(), &publisher);
    publisher.into_inner().close(&rt);
    outcome
}
