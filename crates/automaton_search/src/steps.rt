//! The bytes by which a visit leads on, and the rest of a row from a byte on.
ghost use Rattle.std.specs.Prelude.{◌≡◌, ℕ, ◌<◌, ◌≤◌};
ghost use Rattle.automaton_rows.specs.Rows.{IsRowFrom, ends_at, target_in};

use crate::states::States;
use automaton_rows::{TargetRange, head, rest_after};

/// Bytes on one side of the letter `a`.
#[derive(Clone, Copy)]
pub(crate) struct Stretch {
    pub(crate) first: u8,
    pub(crate) last: u8,
}

/// What is left of a row from this byte on.
pub(crate) fn row_from(row: &[TargetRange], first: u8) -> &[TargetRange]
    requires { IsRowFrom 0 row.now }
    ensures row { IsRowFrom first result.now }
    ensures targets { (b : ℕ) → first ≤ b → target_in result.now b ≡ target_in row.now b }
{
    let mut rest = row;
    let mut from = 0;
    loop {
        let last = head(rest, from).last;
        if last >= first {
            return rest;
        }
        rest = rest_after(rest, from, last);
        from = last + 1;
    }
}

/// Bytes that lead three states to the same states each.
#[derive(Clone, Copy)]
pub(crate) struct Step {
    /// The last of the bytes.
    pub(crate) last: u8,
    pub(crate) target: States,
}

/// The step of a byte and of those after it, as far as they lead to the same states, by what is left of three rows.
pub(crate) fn step_from(
    first: &[TargetRange],
    second: &[TargetRange],
    third: &[TargetRange],
    from: u8,
) -> Step
    requires first { IsRowFrom from first.now }
    requires second { IsRowFrom from second.now }
    requires third { IsRowFrom from third.now }
    ensures here { from ≤ result.last }
    ensures first { (c : ℕ) → c ≤ result.last → target_in first.now c ≡ result.target.first }
    ensures second { (c : ℕ) → c ≤ result.last → target_in second.now c ≡ result.target.second }
    ensures third { (c : ℕ) → c ≤ result.last → target_in third.now c ≡ result.target.third }
    ensures within_first { result.last ≤ ends_at first.now }
    ensures within_second { result.last ≤ ends_at second.now }
    ensures within_third { result.last ≤ ends_at third.now }
{
    let one = head(first, from);
    let two = head(second, from);
    let three = head(third, from);
    Step {
        last: one.last.min(two.last).min(three.last),
        target: States {
            first: u32::from(one.target),
            second: u32::from(two.target),
            third: u32::from(three.target),
        },
    }
}
