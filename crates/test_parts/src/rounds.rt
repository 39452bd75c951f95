//! Rounds that threads begin together.
use std::sync::atomic::{AtomicU64, Ordering};
use std::thread::yield_now;

/// In how many rounds the work of each thread is done.
pub const ROUNDS: usize = 100;

// A thread that waits longer goes on without the others, so that none waits for ever.
const MOST_YIELDS: u64 = 1 << 20;

/// Threads that do their work in rounds, which they begin together: so walks are concurrent with changes from the first to the last,
/// however the threads are scheduled.
#[derive(Drop)]
pub struct Rounds {
    threads: u64,
    // How many rounds were begun, by all threads together.
    begun: AtomicU64,
}

impl Rounds {
    /// The rounds of `threads` threads.
    pub fn new(threads: usize) -> Rounds {
        Rounds {
            threads: threads as u64,
            begun: AtomicU64::new(0),
        }
    }

    /// Begins a round, and waits until the other threads have begun it, too.
    pub fn begin(&self, round: usize) {
        self.begun.fetch_add(1, Ordering::SeqCst);
        let all = (round as u64)
            .saturating_add(1)
            .saturating_mul(self.threads);
        for _ in 0..MOST_YIELDS {
            if self.begun.load(Ordering::SeqCst) >= all {
                return;
            }
            yield_now();
        }
    }

    /// The others wait no more for a thread that stops before its last round.
    pub fn give_up(&self) {
        self.begun.fetch_add(1 << 40, Ordering::SeqCst);
    }
}

/// How much of some work belongs to a round.
pub fn share(work: usize, round: usize) -> usize {
    if round < work % ROUNDS {
        work / ROUNDS + 1
    } else {
        work / ROUNDS
    }
}
