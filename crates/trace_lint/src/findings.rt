//! What is found about rules.
ghost use Rattle.std.specs.Prelude.{◌≡◌, length};
ghost use Rattle.trace_lint.specs.Findings.{first_idle, idle_rule};
ghost use Rattle.trace_lint.specs.inner.Found.{AreNumbers, IsNumber, finding_value, found_of};

use crate::decisions::{decides_none_of, decides_nothing};
use names::{Permission, Perms};

/// A rule, by its number from 1 on, or one of its letters.
#[derive(Clone, Copy)]
pub(crate) struct Part {
    pub(crate) rule: u16,
    /// None for all of the rule.
    pub(crate) letter: Option<Permission>,
}

/// A stand-in that doesn't decide anything of a part either.
#[derive(Clone, Copy)]
pub(crate) struct Idle {
    pub(crate) rule: u16,
    /// Whether it decides nothing at all.
    pub(crate) wholly: bool,
}

/// A part of a rule that decides nothing.
#[derive(Clone, Copy)]
pub(crate) struct Finding<'a> {
    pub(crate) part: Part,
    /// The rules that do its work, in ascending order.
    pub(crate) stand_ins: &'a [u16],
    /// The first of them that decides none of the permissions that the part is about, if there is one.
    pub(crate) idle: Option<Idle>,
}

impl<'a> Finding<'a> {
    /// What is found about a part that holds these permissions and has these stand-ins, by what each rule decides.
    pub(crate) fn of(
        part: Part,
        perms: Perms,
        stand_ins: &'a [u16],
        decided: &[Perms],
    ) -> Finding<'a>
        requires { AreNumbers (length decided.now) stand_ins.now }
        ensures { finding_value result ≡ found_of decided.now part perms stand_ins.now }
    {
        Finding {
            part,
            stand_ins,
            idle: first_idle(perms, stand_ins, decided),
        }
    }
}

// The first of these rules that decides none of these permissions.
fn first_idle(perms: Perms, numbers: &[u16], decided: &[Perms]) -> Option<Idle>
    requires { AreNumbers (length decided.now) numbers.now }
    ensures { result ≡ first_idle decided.now perms numbers.now }
{
    for number in numbers {
        if decides_none_of(perms, decided[usize::from(*number) - 1]) {
            return Some(idle_rule(*number, decided));
        }
    }
    None
}

// A rule, and whether it decides nothing at all.
fn idle_rule(rule: u16, decided: &[Perms]) -> Idle
    requires { IsNumber (length decided.now) rule }
    ensures { result ≡ idle_rule decided.now rule }
{
    Idle {
        rule,
        wholly: decides_nothing(decided[usize::from(rule) - 1]),
    }
}
