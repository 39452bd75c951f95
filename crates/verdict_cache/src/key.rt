//! The keys of the cache: questions that own their bytes.
ghost use Rattle.std.specs.Prelude.{◌≡◌, ◌+◌, ◌*◌, ◌^◌, OnOk};
ghost use Rattle.verdict_cache.specs.StructQuestions.{asked_of};
ghost use Rattle.verdict_cache.specs.Questions.{asks};
ghost use Rattle.verdict_cache.specs.inner.QuestionHashes.{hash_of, writes};
ghost use Rattle.verdict_cache.specs.inner.SameQuestions.{asks_equiv, asks_per, same_writes};

use crate::bytes::{HashedBytes, hash_of};
use crate::question::Question;
use names::{NoMemory, Perms};
use std::alloc::Global;
use std::hash::{Hash, Hasher};
use std::marker::Model;

#[derive(Drop)]
pub(crate) struct Key {
    tree_version: u64,
    policy_version: u64,
    ask: Perms,
    path: HashedBytes,
    profile: HashedBytes,
}

impl Model for Key {
    ghost use Rattle.verdict_cache.specs.Questions.{Asked};

    ghost Value = { Asked };

    ghost view = { λ k. record { path = k.path; profile = k.profile; ask = k.ask; tree = k.tree_version; policy = k.policy_version } };
}

impl Key {
    /// A key with no bytes, to be set later. Allocates nothing.
    pub(crate) fn new(alloc: Global) -> Key {
        Key {
            tree_version: 0,
            policy_version: 0,
            ask: Perms::NONE,
            path: HashedBytes::new(alloc),
            profile: HashedBytes::new(alloc),
        }
    }

    /// Makes it the key of a question, whose path has this hash. It allocates only where the bytes are longer than any before.
    pub(crate) fn set(&mut self, question: &Question<'_>, path_hash: u64) -> Result<(), NoMemory>
        requires { path_hash ≡ hash_of question.now.path.now }
        ensures { OnOk result (self.new ≡ asked_of question.now) }
    {
        self.path.set(question.path, path_hash)?;
        // Questions that follow one another are mostly by one profile.
        if question.profile != self.profile.as_slice() {
            self.profile
                .set(question.profile, hash_of(question.profile))?;
        }
        self.ask = question.ask;
        self.tree_version = question.tree_version;
        self.policy_version = question.policy_version;
        Ok(())
    }

    /// The same, where it may be the key of that question already.
    pub(crate) fn set_unless_same(&mut self, question: &Question<'_>) -> Result<(), NoMemory>
        ensures { OnOk result (self.new ≡ asked_of question.now) }
    {
        if self.is_of(question) {
            return Ok(());
        }
        self.set(question, hash_of(question.path))
    }

    /// The hash of its path.
    pub(crate) fn path_hash(&self) -> u64
        ensures { result ≡ hash_of self.now.path }
    {
        self.path.hash()
    }

    /// Returns whether it is the key of the question.
    pub(crate) fn is_of(&self, question: &Question<'_>) -> bool
        ensures { result ≡ asks (asked_of question.now) self.now }
    {
        question.tree_version == self.tree_version
            && question.policy_version == self.policy_version
            && question.path == self.path.as_slice()
            && question.profile == self.profile.as_slice()
            && question.ask == self.ask
    }
}

// Two numbers in one, which is hashed faster than two.
fn joined(low: u64, high: u64) -> u128
    ensures { result ≡ high * 2 ^ 64 + low }
{
    (high as u128) * 0x1_0000_0000_0000_0000 + low as u128
}

// What is compared fastest comes first, of what often differs.
impl PartialEq for Key {
    ghost eq = { asks };

    ghost laws = { asks_per };

    fn eq(&self, other: &Key) -> bool {
        self.tree_version == other.tree_version
            && self.policy_version == other.policy_version
            && self.path.as_slice() == other.path.as_slice()
            && self.profile.as_slice() == other.profile.as_slice()
            && self.ask == other.ask
    }
}

impl Eq for Key {
    ghost laws = { asks_equiv };
}

// One write, of hashes that were computed before.
impl Hash for Key {
    ghost hash_input = { writes };

    ghost respects_eq = { same_writes };

    fn hash<H: Hasher>(&self, state: &mut H) {
        let of_path = self.path.hash() ^ self.tree_version;
        let of_profile = self.profile.hash() ^ self.policy_version;
        state.write_u128(joined(of_path, of_profile));
    }
}
