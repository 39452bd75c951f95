//! Sets of permissions in numbers.
ghost use Rattle.std.specs.Prelude.{◌≡◌};
ghost use Rattle.image_judge.specs.Sets.{number_in, number_of, set_of_number};

use names::{Permission, Perms};

/// The set that a number stands for; none for 0, and for what is no sum of permissions' numbers.
pub(crate) fn set_of_number(number: u32) -> Option<Perms>
    ensures { result ≡ set_of_number number }
{
    if number == 0 || number >= 1 << Permission::COUNT {
        return None;
    }
    Some(Perms::passing(|permission| (number >> permission.index()) % 2 == 1))
}

/// The sum of the numbers of a set's permissions.
pub(crate) fn number_of(perms: Perms) -> u16
    ensures { result ≡ number_of perms }
{
    let mut number = 0;
    for permission in &Permission::ALL {
        number += number_in(perms, *permission);
    }
    number
}

// What a permission adds to the number of a set.
fn number_in(perms: Perms, permission: Permission) -> u16
    ensures { result ≡ number_in perms permission }
{
    if perms.contains(permission) {
        1 << permission.index()
    } else {
        0
    }
}
