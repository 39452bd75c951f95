//! The verdicts that a session keeps.
ghost use Rattle.std.specs.Prelude.{◌≡◌, ◌⊎◌, ◌≤◌, true, false, [], IfOk, IfSome, Contains};
ghost use Rattle.names.specs.Limits.{longest_path};
ghost use Rattle.verdict_cache.specs.Questions.{Asked, Kept};
ghost use Rattle.verdict_cache.specs.StructQuestions.{asked_of};
ghost use Rattle.kept_verdicts.specs.KeptFiles.{kept_of};

use crate::misses::Misses;
use mediation::Judged;
use names::NoMemory;
use path_lookup::NAME_ROOM;
use std::alloc::Global;
use std::marker::Model;
use std::num::NonZeroUsize;
use verdict_cache::{Question, VerdictCache, entries_stay};

/// How many verdicts a session keeps.
pub(crate) const KEPT_VERDICTS: usize = 64;

/// The verdicts that were kept or found last, if the session keeps any. Contracts see them as a list, each under what was asked.
#[derive(Drop)]
pub struct KeptVerdicts {
    cache: Option<VerdictCache>,
    misses: Misses,
    // Whether the last question was passed over: its verdict isn't kept then.
    passed_over: bool,
}

impl Model for KeptVerdicts {
    ghost use Rattle.std.specs.Prelude.{List, []};
    ghost use Rattle.std.specs.Option.{option_map, unwrap_or};
    ghost use Rattle.verdict_cache.specs.Questions.{Asked, Kept};

    ghost Value = { List (Asked × Kept) };

    ghost view = { λ k. unwrap_or (option_map (λ cache. cache.entries) k.cache) [] };
}

impl KeptVerdicts {
    /// No verdicts, now and later.
    pub fn none() -> KeptVerdicts
        ensures { result ≡ [] }
    {
        KeptVerdicts {
            cache: None,
            misses: Misses::NONE,
            passed_over: false,
        }
    }

    /// No verdicts yet.
    pub fn new(alloc: Global) -> Result<KeptVerdicts, NoMemory>
        ensures { IfOk result (λ kept. kept ≡ []) }
    {
        let Some(capacity) = NonZeroUsize::new(KEPT_VERDICTS) else {
            return Err(NoMemory);
        };
        Ok(KeptVerdicts {
            cache: Some(VerdictCache::new(alloc, capacity)?),
            misses: Misses::NONE,
            passed_over: false,
        })
    }

    /// Keeps all of them if `still` says so, and otherwise none.
    pub fn keep_if(&mut self, still: bool)
        ensures all { still ≡ true → self.new ≡ self.old }
        ensures none { still ≡ false → self.new ≡ [] }
        ensures entries { (e : Asked × Kept) → Contains self.new e → Contains self.old e }
    {
        if still {
            return;
        }
        if let Some(cache) = &mut self.cache {
            cache.clear();
        }
    }

    /// The verdict that is kept under a question; its name goes to the front of `room`. If memory is refused, or the question is
    /// passed over, none is found.
    pub fn look(&mut self, question: Question<'_>, room: &mut [u8; NAME_ROOM]) -> Option<Judged>
        ensures entries { (e : Asked × Kept) → Contains self.new e → Contains self.old e }
        ensures found { IfSome result (λ file. Contains self.old (asked_of question.entry, kept_of room.new file)) }
        ensures fits { IfSome result (λ file. file.name_length ≤ longest_path) }
    {
        entries_stay();
        let Some(cache) = &mut self.cache else {
            return None;
        };
        self.passed_over = self.misses.pass_over();
        if self.passed_over {
            return None;
        }
        let Ok(Some(found)) = cache.look(question, room) else {
            self.misses.miss();
            return None;
        };
        self.misses.hit();
        Some(Judged {
            verdict: found.verdict,
            node: found.node,
            name_length: found.name_length,
        })
    }

    /// Keeps a verdict under the question that was looked up last. If memory is refused, or that question was passed over, it isn't
    /// kept.
    pub fn keep(&mut self, question: Question<'_>, file: &Judged, room: &[u8; NAME_ROOM])
        requires { file.now.name_length ≤ longest_path }
        ensures { (e : Asked × Kept) → Contains self.new e →
            Contains self.old e ⊎ (e ≡ (asked_of question.entry, kept_of room.now file.now)) }
    {
        entries_stay();
        if self.passed_over {
            return;
        }
        let Some(cache) = &mut self.cache else {
            return;
        };
        let name = &room[..file.name_length];
        // What isn't kept is judged again.
        let _refused = cache.keep(question, file.verdict, file.node, name);
    }
}
