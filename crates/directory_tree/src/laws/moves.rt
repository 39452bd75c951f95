//! What a rename does to names.
ghost use Rattle.std.specs.Prelude.{◌≡◌, ◌++◌, List, ℕ, Some, Ok, true};
ghost use Rattle.directory_tree.specs.Components.{IsComponent};
ghost use Rattle.directory_tree.specs.Tree.{Tree, Entry, Has, WellFormed, leads};
ghost use Rattle.directory_tree.specs.Walk.Spot.{Held};
ghost use Rattle.directory_tree.specs.Name.{name_of};
ghost use Rattle.directory_tree.specs.Place.{place_name};
ghost use Rattle.directory_tree.specs.Moves.{IsWithin, IsMove, StandsAt};
ghost use Rattle.directory_tree.specs.Apply.{rename, place_one};

/// A rename moves the name of the entry and every name below it, and no other name: in a moved name the front that was the old
/// place's becomes the new place's, and the rest stays. What was at the new place is gone; onto an entry of the same node a
/// rename does nothing.
pub fn renames_move_names()
    ensures within { (t u : Tree) (d : ℕ) (c : List ℕ) (into : ℕ) (name : List ℕ) (n : ℕ) (old e : Entry) →
        WellFormed t → leads t.entries n into ≡ true → IsComponent name →
        Has t d c old → rename t d c into name ≡ Ok u → IsMove t old into name →
        Has t e.of e.component e → IsWithin t old e →
        Has u (place_one d c into name e).of (place_one d c into name e).component (place_one d c into name e)
        × (rest : List ℕ) × (name_of t (Held e) ≡ place_name t d c ++ rest)
        × (name_of u (Held (place_one d c into name e)) ≡ place_name t into name ++ rest) }
    ensures others { (t u : Tree) (d : ℕ) (c : List ℕ) (into : ℕ) (name : List ℕ) (n : ℕ) (old e : Entry) →
        WellFormed t → leads t.entries n into ≡ true → IsComponent name →
        Has t d c old → rename t d c into name ≡ Ok u → IsMove t old into name →
        Has t e.of e.component e → ¬ (IsWithin t old e) → ¬ (StandsAt into name e) →
        Has u e.of e.component e × (name_of u (Held e) ≡ name_of t (Held e)) }
    ensures all { (t u : Tree) (d : ℕ) (c : List ℕ) (into : ℕ) (name : List ℕ) (old f : Entry) →
        WellFormed t → Has t d c old → rename t d c into name ≡ Ok u → IsMove t old into name →
        Has u f.of f.component f → (e : Entry) × Has t e.of e.component e × (f ≡ place_one d c into name e) }
    ensures same { (t u : Tree) (d : ℕ) (c : List ℕ) (into : ℕ) (name : List ℕ) (old new : Entry) →
        Has t d c old → Has t into name new → new.node ≡ old.node → rename t d c into name ≡ Ok u → u ≡ t }
{}
