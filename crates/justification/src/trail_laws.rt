//! Laws of what justifies an answer. The functions do nothing: each stands for its contract.
ghost use Rattle.std.specs.Prelude.{◌≡◌, ◌+◌, ◌<◌, ℕ, List, length};
ghost use Rattle.directory_tree.specs.declared.change.Change.{Change};
ghost use Rattle.justification.specs.Justified.{Justified};
ghost use Rattle.justification.specs.declared.answer.Answer.TheVariants.{Busy, Failed, Judged, NoProfile};
ghost use Rattle.mediation.specs.Deeds.{Deed};
ghost use Rattle.names.specs.declared.errors.Errno.{Errno};
ghost use Rattle.names.specs.declared.permissions.Perms.{Perms};
ghost use Rattle.names.specs.declared.verdict.Verdict.{Verdict};

/// No answer is justified at a version past the last change, no busy one where both counts are the same even number, and at one
/// version there is at most one failure, and either a profile or none.
pub fn wrong_answers_are_not_justified()
    ensures busy_though_still { (profile path : List ℕ) (ask : Perms) (changes : List Change) (deeds : List Deed) (n : ℕ) →
        Justified profile path ask changes deeds (Busy (n + n) (n + n)) → ⊥ }
    ensures profile_to_come { (profile path : List ℕ) (ask : Perms) (changes : List Change) (deeds : List Deed) (policy : ℕ) →
        length deeds < policy → Justified profile path ask changes deeds (NoProfile policy) → ⊥ }
    ensures failure_to_come { (profile path : List ℕ) (ask : Perms) (changes : List Change) (deeds : List Deed) (errno : Errno)
        (tree : ℕ) →
        length changes < tree → Justified profile path ask changes deeds (Failed errno tree) → ⊥ }
    ensures verdict_to_come { (profile path : List ℕ) (ask : Perms) (changes : List Change) (deeds : List Deed) (v : Verdict)
        (n tree policy : ℕ) →
        length changes < tree → Justified profile path ask changes deeds (Judged v n tree policy) → ⊥ }
    ensures any_failure { (profile path : List ℕ) (ask : Perms) (changes : List Change) (deeds : List Deed) (errno other : Errno)
        (tree : ℕ) →
        Justified profile path ask changes deeds (Failed errno tree) → Justified profile path ask changes deeds (Failed other tree) →
        errno ≡ other }
    ensures judged_by_none { (profile path : List ℕ) (ask : Perms) (changes : List Change) (deeds : List Deed) (v : Verdict)
        (n tree policy : ℕ) →
        Justified profile path ask changes deeds (Judged v n tree policy) →
        Justified profile path ask changes deeds (NoProfile policy) → ⊥ }
{}
