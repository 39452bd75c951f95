//! When a node exists, and when it is gone.
ghost use Rattle.std.specs.Prelude.{◌≡◌, ◌≢◌, ◌↔◌, ◌⊎◌, ◌+◌, ◌≤◌, Bool, List, ℕ, Some, None, Ok, true, false};
ghost use Rattle.directory_tree.specs.declared.node.NodeKind.{NodeKind};
ghost use Rattle.directory_tree.specs.declared.change.Change.{Change};
ghost use Rattle.directory_tree.specs.Tree.{Tree, Entry, Has, WellFormed, root, kind_of, is_directory, is_below};
ghost use Rattle.directory_tree.specs.Apply.{apply};

/// A node is gone exactly when its last entry is. A change leaves each node what it was, or removes it; one that it makes has
/// the tree's next number, which is then one more, and which no change makes less.
pub fn nodes_live_by_their_entries()
    ensures gone { (t : Tree) (n : ℕ) → WellFormed t →
        (kind_of t n ≡ None) ↔ ((n ≢ root) × ((d : ℕ) (c : List ℕ) (e : Entry) → Has t d c e → e.node ≢ n)) }
    ensures kept { (t u : Tree) (room : Bool) (change : Change) (n : ℕ) (kind : NodeKind) → WellFormed t → apply t room change ≡ Ok u →
        kind_of t n ≡ Some kind → (kind_of u n ≡ Some kind) ⊎ (kind_of u n ≡ None) }
    ensures new { (t u : Tree) (room : Bool) (change : Change) (n : ℕ) (kind : NodeKind) → WellFormed t → apply t room change ≡ Ok u →
        kind_of t n ≡ None → kind_of u n ≡ Some kind → (n ≡ t.next) × (u.next ≡ t.next + 1) }
    ensures counted { (t u : Tree) (room : Bool) (change : Change) → apply t room change ≡ Ok u → t.next ≤ u.next }
{}

/// No directory is below itself, however far one climbs.
pub fn no_directory_is_below_itself()
    ensures { (t : Tree) (d : ℕ) (c : List ℕ) (e : Entry) (n : ℕ) → WellFormed t → Has t d c e →
        is_directory e.kind ≡ true → is_below t.entries n e.node d ≡ false }
{}
