//! Laws of what is published. The functions do nothing: each stands for its contract.
ghost use Rattle.std.specs.Prelude.{◌≡◌, ◌++◌, [], ◌∷◌, ℕ, List, Some, false, bytes_eq};
ghost use Rattle.mediation.specs.Deeds.{Deed, policy_after, published, removed};
ghost use Rattle.mediation.specs.Judge.{Judge};

/// What the last change says of a name holds, whatever was published before, and other names keep what they have.
#[tactic(auto, using(crate::specs::laws::DeedLaws::after_both))]
pub fn last_change_of_a_name_stands()
    ensures published { (deeds : List Deed) (name : List ℕ) (judge : Judge) →
        policy_after (deeds ++ published name judge ∷ []) name ≡ Some judge }
    ensures removed_stays { (deeds : List Deed) (name : List ℕ) (judge : Judge) →
        policy_after (deeds ++ removed name ∷ []) name ≡ Some judge → ⊥ }
    ensures others_of_published { (deeds : List Deed) (own name : List ℕ) (judge : Judge) → bytes_eq own name ≡ false →
        policy_after (deeds ++ published own judge ∷ []) name ≡ policy_after deeds name }
    ensures others_of_removed { (deeds : List Deed) (own name : List ℕ) → bytes_eq own name ≡ false →
        policy_after (deeds ++ removed own ∷ []) name ≡ policy_after deeds name }
{}
