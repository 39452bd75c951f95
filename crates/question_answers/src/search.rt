//! What is found among the names that a pattern matches.
ghost use Rattle.std.specs.Prelude.{◌≡◌, [], List, IfOk, Some};
ghost use Rattle.rule_globs.specs.Tokens.{Token};
ghost use Rattle.question_answers.specs.Below.{rules_below};
ghost use Rattle.question_answers.specs.Findings.{AreWitnesses, IsFinding, finding_value};
ghost use Rattle.question_answers.specs.LeastNames.{listed};
ghost use Rattle.question_answers.specs.inner.Wants.{listed_by, wanted_by};

use crate::least::{Wanted, least_alone, some_name};
use crate::pass::least_by_causes;
use crate::quantifier::{Quantifier, Witnesses};
use names::{NoMemory, Perms};
use profile_questions::{Answer, Comparison};
use std::alloc::Global;

/// What is found among the names that a pattern matches.
#[derive(Drop)]
pub enum Finding {
    /// The pattern matches no name.
    NoName,
    /// Those that are wanted and listed, in ascending order. None is listed if none is wanted.
    Names(Vec<Vec<u8>>),
}

/// The names of a pattern that some rules allow all of some permissions to, or not all of them: the least, or the least for each
/// rule that is the first to allow something. The first list has the rules, the second none, and the third the rule of the pattern.
pub fn find(
    alloc: Global,
    comparison: &Comparison<'_>,
    quantifier: Quantifier,
    ask: Perms,
) -> Result<Finding, NoMemory>
    ensures { (path : List Token) → comparison.now.second ≡ [] → comparison.now.third ≡ rules_below (Some path) → IfOk result
        (λ found. IsFinding quantifier comparison.now.first path ask (finding_value found)) }
{
    if some_name(alloc, comparison, true)? {
        Ok(Finding::Names(witnesses(alloc, comparison, quantifier, ask)?))
    } else {
        Ok(Finding::NoName)
    }
}

// Those that are wanted and listed.
fn witnesses(
    alloc: Global,
    comparison: &Comparison<'_>,
    quantifier: Quantifier,
    ask: Perms,
) -> Result<Vec<Vec<u8>>, NoMemory>
    ensures { (path : List Token) → comparison.now.second ≡ [] → comparison.now.third ≡ rules_below (Some path) → IfOk result
        (λ names. AreWitnesses quantifier comparison.now.first path ask (listed names.items)) }
{
    let wanted = Wanted {
        first: wanted_by(quantifier, ask),
        second: Answer::Any,
    };
    match listed_by(quantifier) {
        Witnesses::EachRule => least_by_causes(alloc, comparison, wanted, ask, true),
        Witnesses::Least => least_alone(alloc, comparison, wanted, true),
    }
}

// Which of those that are wanted are listed.
fn listed_by(quantifier: Quantifier) -> Witnesses
    ensures { result ≡ listed_by quantifier }
{
    match quantifier {
        Quantifier::Any(witnesses) => witnesses,
        Quantifier::All => Witnesses::Least,
    }
}

// What the rules are to say of a name that is wanted.
fn wanted_by(quantifier: Quantifier, ask: Perms) -> Answer
    ensures { result ≡ wanted_by quantifier ask }
{
    match quantifier {
        Quantifier::Any(_) => Answer::Allowed(ask),
        Quantifier::All => Answer::Refused(ask),
    }
}
