//! What all threads of a storm work on.
use super::plan::Plan;
use matcher::AnyProfile;
use path_guard::{Guard, Row};
use std::alloc::Global;
use std::sync::Arc;
use storm_parts::{Question, Random, Rounds};

/// What all threads work on.
#[derive(Drop)]
pub(crate) struct Scene<'a, M: Row> {
    pub alloc: Global,
    pub guard: &'a Guard<M>,
    pub rounds: &'a Rounds,
    pub questions: &'a [Question],
    pub profiles: &'a [Arc<AnyProfile>],
    pub plan: Plan,
}

impl<'a, M: Row> Scene<'a, M> {
    /// The random numbers of a thread.
    pub(crate) fn random(&self, thread: u32) -> Random {
        Random::new(seed_of(self.plan.seed, thread))
    }
}

/// Another seed for each thread (the golden ratio, by which Knuth's multiplicative hashing scatters numbers).
fn seed_of(seed: u64, thread: u32) -> u64 {
    seed.wrapping_add((thread as u64).wrapping_mul(0x9e37_79b9_7f4a_7c15))
}
