//! What variables count.
ghost use Rattle.std.specs.Prelude.{◌≡◌, ◌≢◌, ◌<◌, ◌+◌, IfOk, length, map};
ghost use Rattle.apparmor_variables.specs.Counts.{AtMost, Counts, ListCounts, OthersCount, most_list_count};
ghost use Rattle.apparmor_variables.specs.Variables.{byte_count};
ghost use Rattle.apparmor_variables.specs.inner.Way.{IsSound, variable_at};

use crate::declared::Declared;
use crate::fault::ExpandFault;
use crate::made_lists::Made;
use crate::one_list::known;
use crate::texts::{MOST_BYTES, MOST_TEXTS, TEXT_SHARE};
use names::NoMemory;
use std::alloc::Global;

/// What the longest list counts.
const MOST_LIST_COUNT: usize = MOST_BYTES + TEXT_SHARE * MOST_TEXTS;

/// Returns the sum, if it is at most `most`.
pub(crate) fn sum(one: usize, other: usize, most: usize) -> Option<usize>
    ensures { AtMost (λ n. n ≡ one + other) most result }
{
    match one.checked_add(other) {
        Some(both) if both <= most => Some(both),
        _ => None,
    }
}

/// Returns how many bytes the values have together, if that is at most `most`.
fn values_count(values: &[&[u8]], most: usize) -> Option<usize>
    ensures { AtMost (λ n. n ≡ byte_count (map (λ value. value.now) values.now)) most result }
{
    let mut bytes = 0;
    for value in values {
        match sum(bytes, value.len(), most) {
            Some(more) => bytes = more,
            None => return None,
        }
    }
    Some(bytes)
}

/// Returns what a variable without a list counts for it.
fn without_list(fault: ExpandFault<'_>) -> Result<usize, NoMemory>
    ensures { IfOk result (λ count. (count ≡ most_list_count) × (fault.entry ≢ ExpandFault.NoMemory)) }
{
    match fault {
        ExpandFault::NoMemory => Err(NoMemory),
        ExpandFault::Undefined { .. } | ExpandFault::Cycle { .. } | ExpandFault::TooLong => {
            Ok(MOST_LIST_COUNT)
        }
    }
}

/// Returns what the list of the variable of that name counts, or as much as the longest if it has none.
fn list_count<'t>(
    alloc: Global,
    declared: &Declared<'t>,
    made: &mut Made,
    name: &'t [u8],
) -> Result<usize, NoMemory>
    requires { IsSound declared.now made.old }
    ensures sound { IsSound declared.now made.new }
    ensures count { IfOk result (ListCounts declared.now name.now) }
{
    match made.make(alloc, declared, name) {
        Ok(()) => match known(declared, &made.lists, name) {
            Some(list) => Ok(list.count()),
            None => Ok(MOST_LIST_COUNT),
        },
        Err(fault) => without_list(fault),
    }
}

/// Returns what the variable at a place counts, if that is at most `most`.
fn count<'t>(
    alloc: Global,
    declared: &Declared<'t>,
    made: &mut Made,
    place: usize,
    most: usize,
) -> Result<Option<usize>, NoMemory>
    requires within { place < length declared.now }
    requires sound { IsSound declared.now made.old }
    ensures sound { IsSound declared.now made.new }
    ensures count { IfOk result (AtMost (Counts declared.now (variable_at declared.now place)) most) }
{
    let variable = declared.variable(place);
    let list = list_count(alloc, declared, made, variable.name())?;
    match values_count(variable.values(), most) {
        Some(values) => Ok(sum(values, list, most)),
        None => Ok(None),
    }
}

/// Returns what the variables but the first count together, if that is at most `most`.
pub(crate) fn count_others<'t>(
    alloc: Global,
    declared: &Declared<'t>,
    made: &mut Made,
    most: usize,
) -> Result<Option<usize>, NoMemory>
    requires { IsSound declared.now made.old }
    ensures sound { IsSound declared.now made.new }
    ensures count { IfOk result (AtMost (OthersCount declared.now) most) }
{
    let mut all = 0;
    for place in 1..declared.len() {
        match count(alloc, declared, made, place, most - all)? {
            Some(one) => all += one,
            None => return Ok(None),
        }
    }
    Ok(Some(all))
}
