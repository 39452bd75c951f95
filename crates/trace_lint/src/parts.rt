//! The parts of rules that decide nothing.
ghost use Rattle.std.specs.Prelude.{◌≡◌, ◌++◌, ◌∷◌, [], IfOk, OnOk, Some, length, map};
ghost use Rattle.rule_profile.specs.Profile.{profile_value, rule_value};
ghost use Rattle.trace_lint.specs.Parts.{case_of, held_by, idle_letters, idle_parts, parts_of_rule};
ghost use Rattle.trace_lint.specs.inner.Found.{HaveNumbers, IsNumber};

use crate::decisions::{decides_none_of, decides_nothing};
use crate::findings::Part;
use names::{NoMemory, Permission, Perms};
use rule_influence::IdleCase;
use rule_profile::{Profile, Rule};
use std::alloc::Global;

/// The rules that decide nothing, and each letter that decides nothing of the others, in the order of the rules.
pub(crate) fn idle_parts(
    alloc: Global,
    profile: &Profile,
    decided: &[Perms],
) -> Result<Vec<Part>, NoMemory>
    requires { length decided.now ≡ length (profile_value profile.now).rules }
    ensures { IfOk result (λ parts. parts.items ≡ idle_parts (profile_value profile.now).rules decided.now) }
{
    let mut parts = Vec::new(alloc);
    for (index, rule) in profile.rules().iter().enumerate() {
        put_parts(&mut parts, index as u16 + 1, rule.perms(), decided[index])?;
    }
    Ok(parts)
}

// Appends the parts of one rule that decide nothing.
fn put_parts(
    parts: &mut Vec<Part>,
    rule: u16,
    letters: Perms,
    decided: Perms,
) -> Result<(), NoMemory>
    ensures { OnOk result (parts.new.items ≡ parts.old.items ++ parts_of_rule rule letters decided) }
{
    if decides_nothing(decided) {
        put(parts, Part { rule, letter: None })
    } else {
        put_letters(parts, rule, letters, decided)
    }
}

// Appends the letters of a rule that decide nothing.
fn put_letters(
    parts: &mut Vec<Part>,
    rule: u16,
    letters: Perms,
    decided: Perms,
) -> Result<(), NoMemory>
    ensures { OnOk result (parts.new.items
        ≡ parts.old.items ++ map (λ letter. record { rule = rule; letter = Some letter }) (idle_letters letters decided)) }
{
    for letter in Permission::ALL {
        if letters.contains(letter) && decides_none_of(held_by(letter), decided) {
            put(
                parts,
                Part {
                    rule,
                    letter: Some(letter),
                },
            )?;
        }
    }
    Ok(())
}

// What a rule holds by one letter.
fn held_by(letter: Permission) -> Perms
    ensures { result ≡ held_by letter }
{
    Perms::NONE.with(letter).held()
}

// Appends a part.
fn put(parts: &mut Vec<Part>, part: Part) -> Result<(), NoMemory>
    ensures { OnOk result (parts.new.items ≡ parts.old.items ++ part ∷ []) }
{
    match parts.push(part) {
        Ok(()) => Ok(()),
        Err(_) => Err(NoMemory),
    }
}

/// What parts hold, for which stand-ins are looked for.
pub(crate) fn cases_of(
    alloc: Global,
    profile: &Profile,
    parts: &[Part],
) -> Result<Vec<IdleCase>, NoMemory>
    requires { HaveNumbers (length (profile_value profile.now).rules) parts.now }
    ensures { IfOk result (λ cases. cases.items ≡ map (case_of (profile_value profile.now).rules) parts.now) }
{
    let mut cases = Vec::new(alloc);
    for part in parts {
        put_case(&mut cases, case_of(profile.rules(), *part))?;
    }
    Ok(cases)
}

/// What a part holds.
pub(crate) fn case_of(rules: &[Rule], part: Part) -> IdleCase
    requires { IsNumber (length rules.now) part.rule }
    ensures { result ≡ case_of (map rule_value rules.now) part }
{
    IdleCase {
        rule: part.rule,
        perms: match part.letter {
            Some(letter) => held_by(letter),
            None => rules[usize::from(part.rule) - 1].perms().held(),
        },
    }
}

// Appends a case.
fn put_case(cases: &mut Vec<IdleCase>, case: IdleCase) -> Result<(), NoMemory>
    ensures { OnOk result (cases.new.items ≡ cases.old.items ++ case ∷ []) }
{
    match cases.push(case) {
        Ok(()) => Ok(()),
        Err(_) => Err(NoMemory),
    }
}
