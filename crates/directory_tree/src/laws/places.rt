//! What a link makes, and by which name it is found.
ghost use Rattle.std.specs.Prelude.{◌≡◌, Bool, List, ℕ, Ok};
ghost use Rattle.directory_tree.specs.declared.change.Change.TheVariants.{Link};
ghost use Rattle.directory_tree.specs.declared.node.Last.TheVariants.{Stay};
ghost use Rattle.directory_tree.specs.Tree.{Tree, Entry, WellFormed};
ghost use Rattle.directory_tree.specs.Walk.{walk};
ghost use Rattle.directory_tree.specs.Walk.Spot.{Held};
ghost use Rattle.directory_tree.specs.Name.{judged_name};
ghost use Rattle.directory_tree.specs.Place.{named_place};
ghost use Rattle.directory_tree.specs.Apply.{apply};

/// If a hard link is made, the old path led to an entry, and the new path then leads to one of the same node, whose name is
/// that of the place that the new path named before.
pub fn links_are_found()
    ensures { (t u : Tree) (room : Bool) (old new : List ℕ) → WellFormed t → apply t room (Link old new) ≡ Ok u →
        (from to : Entry) × (walk t Stay old ≡ Ok (Held from)) × (walk u Stay new ≡ Ok (Held to)) × (to.node ≡ from.node)
        × (judged_name u (Held to) ≡ named_place t new) }
{}
