//! Lists of rules' numbers in ascending order.
ghost use Rattle.std.specs.Prelude.{◌≡◌, ◌↔◌, Contains, IsTrue, OnOk};
ghost use Rattle.rule_influence.specs.StandIns.{IsAscending};
ghost use Rattle.rule_influence.specs.inner.Lists.{AreAdded};

use names::NoMemory;

/// Whether a number is in the list.
pub(crate) fn has(list: &[u16], number: u16) -> bool
    ensures { IsAscending list.now → IsTrue result ↔ Contains list.now number }
{
    list.binary_search(&number).is_ok()
}

/// Adds a number at its place, unless it is there.
pub(crate) fn add(list: &mut Vec<u16>, number: u16) -> Result<(), NoMemory>
    ensures { OnOk result (IsAscending list.old.items → AreAdded (λ n. n ≡ number) list.old.items list.new.items) }
{
    match list.binary_search(&number) {
        Ok(_) => Ok(()),
        Err(place) => match list.insert(place, number) {
            Ok(()) => Ok(()),
            Err(_) => Err(NoMemory),
        },
    }
}
