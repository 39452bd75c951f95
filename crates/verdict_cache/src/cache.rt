//! The cache.
ghost use Rattle.std.specs.Prelude.{◌≡◌, ◌≤◌, [], length, IfOk, OnErr, OnOk};
ghost use Rattle.std.specs.NonZero.{non_zero_usize_get};
ghost use Rattle.verdict_cache.specs.StructQuestions.{asked_of};
ghost use Rattle.verdict_cache.specs.Looks.{IsAnswer};
ghost use Rattle.verdict_cache.specs.Questions.{verdicts, with_first, with_kept};

use crate::bytes::{hash_of, set_bytes};
use crate::judged::{Found, Judged};
use crate::key::Key;
use crate::question::Question;
use lru::LruCache;
use names::{LONGEST_PATH, NoMemory, Verdict};
use path_lookup::NAME_ROOM;
use std::alloc::Global;
use std::marker::Model;
use std::mem;
use std::num::NonZeroUsize;

/// A cache of verdicts, each under the question that it answers. It holds a bounded number, those that were kept or found last.
#[derive(Drop)]
pub struct VerdictCache {
    entries: LruCache<Key, Judged>,
    // Buffers that are used again, so that a full cache allocates nothing.
    key: Key,
    name: Vec<u8>,
    alloc: Global,
}

impl Model for VerdictCache {
    ghost use Rattle.verdict_cache.specs.Questions.{Verdicts, verdicts};

    ghost Value = { Verdicts };

    ghost view = { λ c. verdicts c.entries.entries c.entries.cap };
}

impl VerdictCache {
    /// An empty cache of this capacity.
    pub fn new(alloc: Global, capacity: NonZeroUsize) -> Result<VerdictCache, NoMemory>
        ensures { IfOk result (λ cache. cache ≡ verdicts [] (non_zero_usize_get capacity)) }
    {
        match LruCache::new(alloc, capacity) {
            Ok(entries) => Ok(VerdictCache {
                entries,
                key: Key::new(alloc),
                name: Vec::new(alloc),
                alloc,
            }),
            Err(_) => Err(NoMemory),
        }
    }

    /// Keeps none of the verdicts any longer.
    pub fn clear(&mut self)
        ensures { self.new ≡ verdicts [] self.old.capacity }
    {
        self.entries.clear();
    }

    /// Returns what is kept under the question, and makes it the most recently used. Its name is written to the front of `room`. On
    /// an error nothing is changed.
    pub fn look(
        &mut self,
        question: Question<'_>,
        room: &mut [u8; NAME_ROOM],
    ) -> Result<Option<Found>, NoMemory>
        ensures used { OnOk result (self.new ≡ with_first (asked_of question.entry) self.old) }
        ensures found { IfOk result (IsAnswer (asked_of question.entry) self.old room.old room.new) }
        ensures err { OnErr result ((self.new ≡ self.old) × (room.new ≡ room.old)) }
    {
        let path_hash = hash_of(question.path);
        // The same open again needs no look-up. Another path mostly has another hash, which is compared faster.
        if let Some((key, judged)) = self.entries.peek_mru() {
            if key.path_hash() == path_hash && key.is_of(&question) {
                return Ok(Some(judged.show(room)));
            }
        }
        self.key.set(&question, path_hash)?;
        match self.entries.get(&self.key) {
            Some(judged) => Ok(Some(judged.show(room))),
            None => Ok(None),
        }
    }

    /// Keeps a verdict under a question, as the most recently used. It takes the place of the one under the same question;
    /// else, in a full cache, the least recently used goes. On an error nothing is changed.
    pub fn keep(
        &mut self,
        question: Question<'_>,
        verdict: Verdict,
        node: u64,
        name: &[u8],
    ) -> Result<(), NoMemory>
        requires { length name.now ≤ LONGEST_PATH }
        ensures ok { OnOk result (self.new ≡
            with_kept (asked_of question.entry) (record { verdict = verdict; node = node; name = name.now }) self.old) }
        ensures err { OnErr result (self.new ≡ self.old) }
    {
        self.key.set_unless_same(&question)?;
        set_bytes(&mut self.name, name)?;
        let key = mem::replace(&mut self.key, Key::new(self.alloc));
        let name = mem::replace(&mut self.name, Vec::new(self.alloc));
        let judged = Judged {
            verdict,
            node,
            name,
        };
        match self.entries.push(key, judged) {
            Ok(Some((key, judged))) => {
                self.reuse(key, judged);
                Ok(())
            }
            Ok(None) => Ok(()),
            Err(failed) => {
                let (key, judged) = failed.value;
                self.reuse(key, judged);
                Err(NoMemory)
            }
        }
    }

    // Makes buffers of what is no entry any more.
    fn reuse(&mut self, key: Key, judged: Judged)
        ensures { self.new ≡ self.old }
    {
        self.key = key;
        self.name = judged.name;
    }
}
