//! Laws of what a bench does. The functions do nothing: each stands for its contract.
ghost use Rattle.std.specs.Prelude.{◌≡◌, ◌≢◌, ℕ, List, Err, length};
ghost use Rattle.directory_tree.specs.Plain.{Accepted, Plain, Refused, outcome};
ghost use Rattle.directory_tree.specs.declared.change.Change.{Change};
ghost use Rattle.mediation.specs.Deeds.{published_rules, removed};
ghost use Rattle.mediation.specs.History.{History, with_change, with_deed};
ghost use Rattle.names.specs.declared.errors.Errno.{Errno};
ghost use Rattle.names.specs.declared.errors.Errno.TheVariants.{ENOMEM};
ghost use Rattle.rule_profile.specs.Profile.{ProfileValue};

/// A change is made or it is refused: one that was only tested isn't made, one that is made has a new version, and a refusal
/// has the tree's own error number, also where memory was refused.
pub fn changes_are_made_or_refused()
    ensures only_tested { (tree : Plain) (change : Change) (version : ℕ) → Accepted tree tree change version → ⊥ }
    ensures old_version { (old new : Plain) (change : Change) (version : ℕ) → version ≡ length old.history →
        Accepted old new change version → ⊥ }
    ensures refused_though_made { (old new : Plain) (change : Change) (version : ℕ) (errno : Errno) →
        Accepted old new change version → Refused old new change errno → ⊥ }
    ensures memory_for_a_refusal { (old new : Plain) (change : Change) (errno : Errno) →
        outcome old change ≡ Err errno → errno ≢ ENOMEM → Refused old new change ENOMEM → ⊥ }
    ensures another_number { (old new : Plain) (change : Change) (errno other : Errno) →
        outcome old change ≡ Err errno → other ≢ errno → other ≢ ENOMEM → Refused old new change other → ⊥ }
{}

/// A publication isn't a removal, a name that is removed is the one that was given, and neither leaves the history as it was.
pub fn publications_are_told_apart()
    ensures removal { (history : History) (profile : ProfileValue) (name : List ℕ) →
        with_deed history (published_rules profile) ≡ with_deed history (removed name) → ⊥ }
    ensures another_name { (history : History) (one other : List ℕ) → one ≢ other →
        with_deed history (removed one) ≡ with_deed history (removed other) → ⊥ }
    ensures nothing_published { (history : History) (profile : ProfileValue) → with_deed history (published_rules profile) ≡ history → ⊥ }
    ensures nothing_removed { (history : History) (name : List ℕ) → with_deed history (removed name) ≡ history → ⊥ }
    ensures nothing_made { (history : History) (change : Change) → with_change history change ≡ history → ⊥ }
{}
