//! Which rules do the work of idle ones.
ghost use Rattle.std.specs.Prelude.{◌≡◌, ◌≤◌, ◌<◌, [], ℕ, Contains, IfErr, IfOk, OnOk, Some, false, length, map, slice_get, replicate};
ghost use Rattle.profile_questions.specs.Faults.{IsQuestionFault};
ghost use Rattle.rule_profile.specs.Profile.{profile_value};
ghost use Rattle.rule_influence.specs.StandIns.{AreStandIns, IsAscending};
ghost use Rattle.rule_influence.specs.declared.substitutes.IdleCase.{IdleCase};
ghost use Rattle.rule_influence.specs.inner.Candidates.{IsAtName, IsCandidate, IsCandidateFor};
ghost use Rattle.rule_influence.specs.inner.Lists.{AreAdded, AreNotedAt, list_at, numbers_of};

use crate::candidates::Case;
use crate::numbers::{add, has};
use crate::pair::RulePair;
use names::{NoMemory, Permission, Perms, permissions_are_numbered};
use profile_questions::{Comparison, QuestionFault, Records};
use rule_profile::Profile;
use std::alloc::Global;

/// A rule, by its number from 1 on, and permissions that it holds and is idle for.
#[derive(Clone, Copy, Debug, PartialEq, Eq)]
pub struct IdleCase {
    pub rule: u16,
    pub perms: Perms,
}

/// For each of some idle rules, in their order, the other rules of its kind that do its work, in ascending order: at each name where
/// the rule hits and its kind matters the first that hits, or, where that is the rule itself, the last. Refused exactly if names have
/// too many sets of live places, memory aside.
pub fn stand_ins(
    alloc: Global,
    pair: &RulePair,
    cases: &[IdleCase],
) -> Result<Vec<Vec<u16>>, QuestionFault>
    ensures ok { IfOk result (λ lists. AreStandIns pair.now.rules cases.now (map (λ list. list.items) lists.items)) }
    ensures few { IfOk result (λ _. ¬ (IsQuestionFault pair.now.rules [] [] QuestionFault.TooManyStates)) }
    ensures err { IfErr result (IsQuestionFault pair.now.rules [] []) }
{
    // As for what rules decide, two lists of rules are enough.
    let comparison = Comparison::of(alloc, pair.rules(), pair.reversed(), pair.rules())?;
    let profile = pair.rules().profile();
    let Ok(mut lists) = empty_lists(alloc, cases.len()) else {
        return Err(QuestionFault::NoMemory);
    };
    for index in 0..comparison.len() {
        if let Some(records) = comparison.records(index) {
            if some_missing(profile, cases, &lists, &records) {
                // Only here is the name needed.
                let Ok(name) = comparison.name(alloc, index) else {
                    return Err(QuestionFault::NoMemory);
                };
                let Ok(()) = note_name(profile, cases, &mut lists, &records, &name) else {
                    return Err(QuestionFault::NoMemory);
                };
            }
        }
    }
    Ok(lists)
}

// As many lists without stand-ins.
fn empty_lists(alloc: Global, count: usize) -> Result<Vec<Vec<u16>>, NoMemory>
    ensures { IfOk result (λ lists. numbers_of lists.items ≡ replicate count []) }
{
    let mut lists = Vec::new(alloc);
    for _ in 0..count {
        match lists.push(Vec::new(alloc)) {
            Ok(()) => {}
            Err(_) => return Err(NoMemory),
        }
    }
    Ok(lists)
}

// Whether some list doesn't have what would stand in at a name with these least hits.
fn some_missing(
    profile: &Profile,
    cases: &[IdleCase],
    lists: &[Vec<u16>],
    records: &Records,
) -> bool
    requires { length lists.now ≡ length cases.now }
    ensures { result ≡ false → (i : ℕ) (idle : IdleCase) (n : ℕ) → slice_get cases.now i ≡ Some idle → IsAscending (list_at lists.now i) →
        IsCandidateFor (profile_value profile.now).rules idle records.now n → Contains (list_at lists.now i) n }
{
    for index in 0..cases.len() {
        if let Some(case) = Case::of(profile, cases[index]) {
            if is_missing(case, &lists[index], records) {
                return true;
            }
        }
    }
    false
}

// Whether the list doesn't have what would stand in for some permission.
fn is_missing(case: Case<'_>, list: &[u16], records: &Records) -> bool
    requires { case.count < 65536 }
    ensures { result ≡ false → IsAscending list.now → (n : ℕ) → IsCandidate case.entry records.now n → Contains list.now n }
{
    permissions_are_numbered();
    for permission in &Permission::ALL {
        let number = case.candidate(records, *permission);
        if number != 0 && !has(list, number) {
            return true;
        }
    }
    false
}

// Adds to each list what stands in at a name.
fn note_name(
    profile: &Profile,
    cases: &[IdleCase],
    lists: &mut [Vec<u16>],
    records: &Records,
    name: &[u8],
) -> Result<(), NoMemory>
    requires { length lists.old ≡ length cases.now }
    ensures { OnOk result (AreNotedAt (profile_value profile.now).rules cases.now records.now name.now lists.old lists.new) }
{
    for index in 0..cases.len() {
        if let Some(case) = Case::of(profile, cases[index]) {
            note_case(case, &mut lists[index], records, name)?;
        }
    }
    Ok(())
}

// Adds to a list what stands in at a name. Whether the rule matches the name matters only where that isn't in the list.
fn note_case(
    case: Case<'_>,
    list: &mut Vec<u16>,
    records: &Records,
    name: &[u8],
) -> Result<(), NoMemory>
    requires { case.count < 65536 }
    ensures { OnOk result (IsAscending list.old.items →
        AreAdded (IsAtName case.entry records.now name.now) list.old.items list.new.items) }
{
    permissions_are_numbered();
    for permission in &Permission::ALL {
        let number = case.candidate(records, *permission);
        if number != 0 && !has(list, number) && case.takes(name) {
            add(list, number)?;
        }
    }
    Ok(())
}
