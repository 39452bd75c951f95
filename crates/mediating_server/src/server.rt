//! The guard, and the threads that work on it.
ghost use Rattle.std.specs.Prelude.{◌≡◌};

use crate::desk::Desk;
use crate::fault::ServerFault;
use crate::publisher::ProfileFile;
use crate::worker::Worker;
use dentry_cache::Keeper;
use path_guard::{Guard, Row};
use profile_registry::Publisher;
use std::io::{BufRead, Write};
use std::marker::Brand;
use std::rt::Runtime;
use std::sync::Wait;
use std::sync::atomic::{AtomicU64, Ordering};
use std::thread::{JoinHandle, Scope, Threads, scope, scope_env};
use trace_script::Stop;

/// The number of entries that the tree has room for.
const CAPACITY: usize = 1024;

/// What all threads work with.
#[derive(Drop)]
struct Scene<'a, I, O> {
    desk: &'a Desk<I, O>,
    /// The number of workers that haven't ended yet.
    at_work: AtomicU64,
}

/// Answers requests with `workers` workers, until no more are left.
pub(crate) fn serve<
    R: Runtime + AllocGlobal + Threads + Wait + Sync,
    I: BufRead + Send,
    O: Write + Send,
>(rt: &R, file: ProfileFile<'_>, workers: u32, desk: &Desk<I, O>) -> Result<(), ServerFault> {
    let keeper = Keeper::new(rt.alloc(), CAPACITY)?;
    let publisher = Publisher::new(rt.alloc())?;
    serve_over::<Brand, R, I, O>(rt, file, workers, desk, keeper, publisher)
}

/// Makes the guard, and closes it at the end. It is generic over any `M` that names the keeper's row, as the `Brand` of the call does.
fn serve_over<
    M: Row + Send + Sync,
    R: Runtime + AllocGlobal + Threads + Wait + Sync,
    I: BufRead + Send,
    O: Write + Send,
>(
    rt: &R,
    file: ProfileFile<'_>,
    workers: u32,
    desk: &Desk<I, O>,
    keeper: Keeper,
    publisher: Publisher,
) -> Result<(), ServerFault>
    requires { keeper.table ≡ M.table }
{
    let guard: Guard<M> = Guard::new(rt.alloc(), keeper, publisher);
    let outcome = serve_by(rt, file, workers, desk, &guard);
    guard.close(rt);
    outcome
}

/// Publishes the profile and makes the sessions, before the first request is taken.
fn serve_by<
    M: Row + Send + Sync,
    R: Runtime + AllocGlobal + Threads + Wait + Sync,
    I: BufRead + Send,
    O: Write + Send,
>(
    rt: &R,
    file: ProfileFile<'_>,
    workers: u32,
    desk: &Desk<I, O>,
    guard: &Guard<M>,
) -> Result<(), ServerFault> {
    let mut file = file;
    file.publish(rt, guard)?;
    let mut ready = Vec::new(rt.alloc());
    for _ in 0..workers {
        ready.push(Worker::new(rt, rt.alloc(), guard)?)?;
    }
    let at_work = AtomicU64::new(u64::from(workers));
    let scene = Scene { desk, at_work };
    scope(
        scope_env(),
        rt,
        |scope| run(scope, rt, &scene, guard, file, ready),
    )
}

/// Starts a thread for each worker, and acts as the publisher itself until the last one ends.
fn run<
    's,
    'e: 's,
    M: Row + Send + Sync,
    R: Runtime + AllocGlobal + Threads + Wait + Sync,
    I: BufRead + Send,
    O: Write + Send,
>(
    scope: &Scope<'s, &'e ()>,
    rt: &'e R,
    scene: &'e Scene<'e, I, O>,
    guard: &'e Guard<M>,
    file: ProfileFile<'e>,
    ready: Vec<Worker<'e, M>>,
) -> Result<(), ServerFault> {
    let mut threads = Vec::new(rt.alloc());
    for worker in ready {
        threads.push(start(scope, rt, scene, worker)?)?;
    }
    file.watch(rt, guard, &scene.at_work);
    for thread in threads {
        thread.join(rt)?;
    }
    Ok(())
}

/// Starts a worker's thread.
fn start<
    's,
    'e: 's,
    M: Row + Send + Sync,
    R: Threads + Wait + Sync,
    I: BufRead + Send,
    O: Write + Send,
>(
    scope: &Scope<'s, &'e ()>,
    rt: &'e R,
    scene: &'e Scene<'e, I, O>,
    worker: Worker<'e, M>,
) -> Result<JoinHandle<Result<(), Stop>>, ServerFault> {
    let thread = scope.spawn(move || {
        let outcome = worker.serve(rt, scene.desk);
        scene.at_work.fetch_sub(1, Ordering::SeqCst);
        outcome
    });
    thread.map_err(|_| ServerFault::NoThread)
}
