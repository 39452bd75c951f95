//! Laws of the tests of a change. The functions do nothing: each stands for its contract.
ghost use Rattle.std.specs.Prelude.{◌≡◌, ◌<◌, ℕ, false, length, Ok, Some};
ghost use Rattle.names.specs.declared.errors.Errno.{Errno};
ghost use Rattle.names.specs.declared.limits.TheConstants.{LONGEST_COMPONENT};
ghost use Rattle.directory_tree.specs.Apply.{Changed, has_room};
ghost use Rattle.directory_tree.specs.Spots.{node_at, kind_at, shape_of};
ghost use Rattle.directory_tree.specs.Tree.{Entry, Tree, find, is_empty};
ghost use Rattle.directory_tree.specs.Walk.{Spot};
ghost use Rattle.directory_tree.specs.declared.node.Kind.TheVariants as kind;
ghost use Rattle.directory_tree.specs.declared.node.NodeKind.TheVariants.{Directory};
ghost use Rattle.path_lookup.specs.WalkFaults.{IsFault};
ghost use Rattle.path_lookup.specs.World.{World};
ghost use Rattle.path_lookup.specs.declared.fault.WalkFault.TheVariants.{Refused};
ghost use Rattle.change_checks.specs.Act.{Fits, IsTested, number_in};
ghost use Rattle.change_checks.specs.declared.act.Act.TheVariants as act;
ghost use Rattle.change_checks.specs.declared.act.Move.{Move};
ghost use Rattle.change_checks.specs.declared.act.NewNode.{NewNode};
ghost use Rattle.change_checks.specs.declared.place.Place.{Place};

use crate::look::ChangeLook;

/// Where a tree is seen, a change has one error number or is made: no later test answers in place of an earlier one, and nothing
/// that is refused is done.
pub fn changes_have_one_answer<L: ChangeLook>()
    ensures number { (look : L) (w : World) (changed : World → Changed) (one other : Errno) → L.sees look w →
        IsFault (L.lacks look) (L.sees look) changed (Refused one) → IsFault (L.lacks look) (L.sees look) changed (Refused other) →
        one ≡ other }
    ensures refused { (look : L) (w : World) (changed : World → Changed) (t : Tree) (errno : Errno) → L.sees look w →
        changed w ≡ Ok t → IsFault (L.lacks look) (L.sees look) changed (Refused errno) → ⊥ }
{}

/// What the tests let through makes no second entry at a place, exceeds no limit, gives no directory a second entry, and removes
/// no directory that has entries.
pub fn tested_acts_are_allowed<E: Copy>()
    ensures second_entry { (means : E → Spot) (t : Tree) (capacity : ℕ) (place : Place E) (node : NewNode) (e : Entry) →
        find t.entries (number_in means t place) place.component.now ≡ Some e → IsTested means t capacity (act.Make place node) → ⊥ }
    ensures no_room { (means : E → Spot) (t : Tree) (capacity : ℕ) (place : Place E) (node : NewNode) →
        has_room capacity t ≡ false → IsTested means t capacity (act.Make place node) → ⊥ }
    ensures linked_directory { (means : E → Spot) (t : Tree) (capacity : ℕ) (place : Place E) (file : E) →
        kind_at (means file) ≡ Directory → IsTested means t capacity (act.Link file place) → ⊥ }
    ensures removed_with_entries { (means : E → Spot) (t : Tree) (capacity : ℕ) (place : Place E) (e : E) →
        shape_of (kind_at (means e)) ≡ kind.Directory → is_empty t.entries (node_at (means e)) ≡ false →
        IsTested means t capacity (act.Remove place e) → ⊥ }
    ensures replaced_with_entries { (means : E → Spot) (t : Tree) (capacity : ℕ) (m : Move E) (e : E) → m.replaced ≡ Some e →
        shape_of (kind_at (means e)) ≡ kind.Directory → is_empty t.entries (node_at (means e)) ≡ false →
        IsTested means t capacity (act.Move m) → ⊥ }
    ensures onto_its_own_node { (means : E → Spot) (t : Tree) (capacity : ℕ) (m : Move E) (e : E) → m.replaced ≡ Some e →
        node_at (means e) ≡ node_at (means m.entry) → IsTested means t capacity (act.Move m) → ⊥ }
    ensures long_component { (place : Place E) (node : NewNode) → LONGEST_COMPONENT < length place.component.now →
        Fits (act.Make place node) → ⊥ }
{}
