ghost use Rattle.std.specs.Prelude.{ℕ, List};
ghost use Rattle.directory_tree.specs.declared.change.Change.{Change};

/// What the cells of a row of some capacity hold: which lists of cells encode the result of these changes, oldest first. No law
/// of the rule looks inside.
pub trait Encoding {
    ghost encodes: { ℕ → List ℕ → List Change → Type 0 };
}
