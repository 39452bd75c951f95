//! Laws of the numbers that stand for sets of permissions.
ghost use Rattle.std.specs.Prelude.{◌≡◌, ◌≢◌, Some};
ghost use Rattle.names.specs.declared.permissions.Perms.{Perms};
ghost use Rattle.image_judge.specs.Sets.{number_of, set_of_number};

/// The number of a set that isn't empty stands for that set.
pub fn numbers_are_sets()
    ensures { (s : Perms) → number_of s ≢ 0 → set_of_number (number_of s) ≡ Some s }
{}
