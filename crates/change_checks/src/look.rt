//! What the tests of a change ask of a tree besides what a walk asks.
ghost use Rattle.std.specs.Prelude.{◌≡◌, ◌≤◌, ℕ, IfOk, IfErr, length};
ghost use Rattle.directory_tree.specs.Tree.{is_empty};
ghost use Rattle.directory_tree.specs.Apply.{has_room};
ghost use Rattle.directory_tree.specs.Spots.{node_at};
ghost use Rattle.path_lookup.specs.World.{World, Narrows, IsTorn};

use path_lookup::{Look, Torn};

/// A look that also says whether a change may be made. Its answers are right in the same sense as those of a [`Look`].
pub trait ChangeLook: Look {
    // The number of entries that a tree may have.
    ghost capacity: { Self → ℕ };

    /// Whether the directory has no entry.
    fn is_empty(&mut self, directory: Self::Entry) -> Result<bool, Torn>
        requires { Self.knows self.old directory }
        ensures kept { Self.kept self.new ≡ Self.kept self.old }
        ensures narrows { Narrows (Self.sees self.old) (Self.sees self.new) }
        ensures keeps { (e : Self.Entry) → Self.knows self.old e → Self.knows self.new e }
        ensures answer { IfOk result (λ empty. (w : World) → Self.sees self.new w →
            is_empty w.tree.entries (node_at (Self.means directory w)) ≡ empty) }
        ensures torn { IfErr result (λ _. IsTorn (Self.lacks self.new) (Self.sees self.new)) };

    /// Whether there is room for one more entry.
    fn has_room(&mut self) -> Result<bool, Torn>
        ensures kept { Self.kept self.new ≡ Self.kept self.old }
        ensures narrows { Narrows (Self.sees self.old) (Self.sees self.new) }
        ensures keeps { (e : Self.Entry) → Self.knows self.old e → Self.knows self.new e }
        ensures answer { IfOk result (λ room. (w : World) → Self.sees self.new w →
            has_room (capacity self.new) w.tree ≡ room) }
        ensures torn { IfErr result (λ _. IsTorn (Self.lacks self.new) (Self.sees self.new)) };

    /// No tree that is seen has more entries. Nothing is read: it bounds a climb to the root.
    fn most_entries(&self) -> usize
        ensures { (w : World) → Self.sees self.now w → length w.tree.entries ≤ result };

    // The capacity depends only on what reading leaves unchanged.
    ghost capacity_kept: { (before after : Self) → Self.kept before ≡ Self.kept after → capacity before ≡ capacity after };
}
