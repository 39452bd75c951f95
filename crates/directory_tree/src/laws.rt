//! Laws that show that the definitions of `specs/` are sane. The functions do nothing: each exists only for its contract.
ghost use Rattle.std.specs.Prelude.{◌≡◌, Bool, true, false, List, ℕ, suc, ◌≢◌, Some, Ok, Err, codes};
ghost use Rattle.names.specs.declared.errors.Errno.TheVariants.{ELOOP};
ghost use Rattle.directory_tree.specs.declared.node.NodeKind.{NodeKind};
ghost use Rattle.directory_tree.specs.declared.change.Change.{Change};
ghost use Rattle.directory_tree.specs.declared.node.Last.{Last};
ghost use Rattle.directory_tree.specs.Components.{IsComponent, Step};
ghost use Rattle.directory_tree.specs.Tree.{Tree, Entry, WellFormed, root, root_alone, leads, find, kind_of, is_link};
ghost use Rattle.directory_tree.specs.Walk.{Walked, walk, resolve, above};
ghost use Rattle.directory_tree.specs.Walk.Spot.{Root, Held};
ghost use Rattle.directory_tree.specs.declared.node.Last.TheVariants.{Stay};
ghost use Rattle.directory_tree.specs.Name.{name_of};
ghost use Rattle.directory_tree.specs.Plain.{Plain, tree_of};
ghost use Rattle.directory_tree.specs.Apply.{make, link, unlink, rmdir, rename, apply, tree_after};

mod links;
mod moves;
mod nodes;
mod places;

pub use links::at_most_forty_links;
pub use moves::renames_move_names;
pub use nodes::{no_directory_is_below_itself, nodes_live_by_their_entries};
pub use places::links_are_found;

/// The root alone is a well-formed tree.
pub fn root_alone_is_well_formed()
    ensures { WellFormed root_alone }
{}

/// A new entry keeps a tree well-formed.
pub fn make_keeps_well_formed()
    ensures { (t u : Tree) (room : Bool) (kind : NodeKind) (d : ℕ) (c : List ℕ) (n : ℕ) →
        WellFormed t → leads t.entries n d ≡ true → IsComponent c → make t room kind d c ≡ Ok u → WellFormed u }
{}

/// One more entry of a file keeps a tree well-formed.
pub fn link_keeps_well_formed()
    ensures { (t u : Tree) (room : Bool) (d : ℕ) (c : List ℕ) (into : ℕ) (name : List ℕ) (n : ℕ) →
        WellFormed t → leads t.entries n into ≡ true → IsComponent name → link t room d c into name ≡ Ok u → WellFormed u }
{}

/// Removing an entry leaves a tree well-formed.
pub fn removal_keeps_well_formed()
    ensures unlink { (t u : Tree) (d : ℕ) (c : List ℕ) → WellFormed t → unlink t d c ≡ Ok u → WellFormed u }
    ensures rmdir { (t u : Tree) (d : ℕ) (c : List ℕ) → WellFormed t → rmdir t d c ≡ Ok u → WellFormed u }
{}

/// A move leaves a tree well-formed: no directory ends up below itself.
pub fn rename_keeps_well_formed()
    ensures { (t u : Tree) (d : ℕ) (c : List ℕ) (into : ℕ) (name : List ℕ) (n : ℕ) →
        WellFormed t → leads t.entries n into ≡ true → IsComponent name → rename t d c into name ≡ Ok u → WellFormed u }
{}

/// Every accepted change keeps a tree well-formed, and so the tree after any changes is well-formed.
pub fn changes_keep_well_formed()
    ensures one { (t u : Tree) (room : Bool) (c : Change) → WellFormed t → apply t room c ≡ Ok u → WellFormed u }
    ensures all { (capacity : ℕ) (cs : List Change) (t : Tree) → tree_after capacity cs ≡ Ok t → WellFormed t }
{}

/// The tree of a plain tree is well-formed, whatever its history.
pub fn plain_trees_are_well_formed()
    ensures { (p : Plain) → WellFormed (tree_of p) }
{}

/// The kind of a node is that of any of its entries.
pub fn kind_is_of_any_entry()
    ensures { (t : Tree) (d : ℕ) (c : List ℕ) (e : Entry) → WellFormed t → find t.entries d c ≡ Some e →
        kind_of t e.node ≡ Some e.kind }
{}

/// The name of an entry leads back to it; that of a link only where the walk stays at a last link.
pub fn name_leads_back()
    ensures stay { (t : Tree) (d : ℕ) (c : List ℕ) (e : Entry) → WellFormed t → find t.entries d c ≡ Some e →
        walk t Stay (name_of t (Held e)) ≡ Ok (Held e) }
    ensures no_link { (t : Tree) (last : Last) (d : ℕ) (c : List ℕ) (e : Entry) → WellFormed t → find t.entries d c ≡ Some e →
        is_link e.kind ≡ false → walk t last (name_of t (Held e)) ≡ Ok (Held e) }
    ensures root { (t : Tree) (last : Last) → walk t last (name_of t Root) ≡ Ok Root }
{}

/// What a walk of a well-formed tree leads to is in the tree.
pub fn walk_stays_in_tree()
    ensures { (t : Tree) (last : Last) (text : List ℕ) (e : Entry) → WellFormed t → walk t last text ≡ Ok (Held e) →
        find t.entries e.of e.component ≡ Some e }
{}

/// No two entries have one name.
pub fn names_differ()
    ensures { (t : Tree) (d : ℕ) (c : List ℕ) (d' : ℕ) (c' : List ℕ) (e e' : Entry) → WellFormed t →
        find t.entries d c ≡ Some e → find t.entries d' c' ≡ Some e' → name_of t (Held e) ≡ name_of t (Held e') → e ≡ e' }
{}

/// Above the root is the root.
pub fn root_is_above_itself()
    ensures parent { (t : Tree) → above t root ≡ root }
    ensures walk { (t : Tree) (last : Last) → walk t last (codes "/..") ≡ Ok Root }
{}

/// A walk that may follow one more link gives the same answer, unless it had none left.
pub fn more_links_change_no_answer()
    ensures { (t : Tree) (last : Last) (links d : ℕ) (steps : List Step) (answer : Walked) → answer ≢ Err ELOOP →
        resolve t last links d steps ≡ answer → resolve t last (suc links) d steps ≡ answer }
{}
