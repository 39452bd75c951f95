//! Laws of sessions in a machine.
ghost use Rattle.std.specs.Prelude.{◌≡◌, ℕ, length};
ghost use Rattle.tree_row.specs.Rows.{row_length};
ghost use Rattle.event_machine.specs.Machine.{Machine};
ghost use Rattle.event_machine.specs.Rule.{KeepsRule};
ghost use Rattle.open_session.specs.Seen.{SeesTree};

/// The rule of the row, as a machine keeps it, gives what the steps of its sessions require: the row is as long as its capacity
/// says, and a walk that reads the count again now has seen a tree, if its counts are one even number.
pub fn rule_gives_what_steps_require()
    ensures long { (m : Machine) → KeepsRule m → length m.keeper.cells ≡ row_length m.capacity }
    ensures sees { (m : Machine) (s : ℕ) → KeepsRule m → SeesTree m.capacity m.keeper (m.sessions s).stage }
{}
