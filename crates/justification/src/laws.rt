//! What two justified answers at the same versions have in common, and what stays true of one. The functions do nothing: each
//! stands for its contract.
ghost use Rattle.std.specs.Prelude.{◌≡◌, ℕ, List, length, Ok};
ghost use mathlib.Core.List.{IsPrefix};
ghost use Rattle.directory_tree.specs.declared.change.Change.{Change};
ghost use Rattle.directory_tree.specs.Plain.{tree_of};
ghost use Rattle.directory_tree.specs.Tree.{Tree};
ghost use Rattle.mediation.specs.Deeds.{Deed};
ghost use Rattle.mediation.specs.History.{History, open_answer};
ghost use Rattle.mediation.specs.Opens.{Reached, judged, reached};
ghost use Rattle.names.specs.declared.errors.Errno.{Errno};
ghost use Rattle.names.specs.declared.permissions.Perms.{Perms};
ghost use Rattle.names.specs.declared.verdict.Verdict.{Verdict};
ghost use Rattle.justification.specs.Justified.{Justified};
ghost use Rattle.justification.specs.Versions.{IsTreeAt};
ghost use Rattle.justification.specs.declared.answer.Answer.{Answer};
ghost use Rattle.justification.specs.declared.answer.Answer.TheVariants.{Judged, Failed};

/// In one tree a file is reached, or it isn't, whatever the policy.
pub fn judged_is_not_failed()
    ensures { (profile path : List ℕ) (ask : Perms) (changes : List Change) (deeds : List Deed) (v : Verdict) (n tree policy : ℕ)
        (errno : Errno) →
        Justified profile path ask changes deeds (Judged v n tree policy) → Justified profile path ask changes deeds (Failed errno tree) →
        ⊥ }
{}

/// At one version of the tree and one of the policy, an open has one verdict, on one file.
pub fn one_verdict_is_justified()
    ensures { (profile path : List ℕ) (ask : Perms) (changes : List Change) (deeds : List Deed) (v w : Verdict) (n m tree policy : ℕ) →
        Justified profile path ask changes deeds (Judged v n tree policy) → Justified profile path ask changes deeds
        (Judged w m tree policy)
        → (v ≡ w) × (n ≡ m) }
{}

/// A version has at most one tree.
pub fn a_version_has_one_tree()
    ensures { (changes : List Change) (version : ℕ) (t u : Tree) → IsTreeAt changes version t → IsTreeAt changes version u → t ≡ u }
{}

/// An answer that some changes of the tree and of the policy justify stays justified, whatever is changed after them. The tree of
/// a version stays that of the version, too.
pub fn justified_answers_stay_justified()
    ensures answers { (profile path : List ℕ) (ask : Perms) (changes later : List Change) (deeds more : List Deed) (answer : Answer) →
        IsPrefix changes later → IsPrefix deeds more → Justified profile path ask changes deeds answer
        → Justified profile path ask later more answer }
    ensures trees { (changes later : List Change) (version : ℕ) (t : Tree) → IsPrefix changes later → IsTreeAt changes version t
        → IsTreeAt later version t }
{}

/// A verdict that is justified at the current versions, with the name that the file has there, is what the definition answers.
pub fn current_judgment_is_the_answer()
    ensures { (h : History) (profile path : List ℕ) (ask : Perms) (verdict : Verdict) (node : ℕ) (name : List ℕ) →
        IsTreeAt h.tree.history (length h.tree.history) (tree_of h.tree)
        → Justified profile path ask h.tree.history h.deeds (Judged verdict node (length h.tree.history) (length h.deeds))
        → (t : Tree) × (file : Reached) × IsTreeAt h.tree.history (length h.tree.history) t
        × (reached t path ask ≡ Ok file) × (file.name ≡ name)
        → open_answer h profile path ask
        ≡ judged (record { name = name; node = node; verdict = verdict }) (length h.tree.history) (length h.deeds) }
{}
