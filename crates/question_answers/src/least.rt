//! The least names of which rules say what is wanted.
ghost use Rattle.std.specs.Prelude.{◌≡◌, ◌↔◌, ℕ, IsTrue, List, Option, IfOk};
ghost use Rattle.names.specs.Permissions.{only};
ghost use Rattle.names.specs.declared.permissions.Permission.TheVariants.{Read};
ghost use Rattle.profile_questions.specs.Questions.{found_name};
ghost use Rattle.profile_questions.specs.declared.answer.Answer.TheVariants as answer;
ghost use Rattle.rule_globs.specs.Tokens.{Token};
ghost use Rattle.question_answers.specs.Below.{IsBelow, IsLeastName, is_given, rules_below};
ghost use Rattle.question_answers.specs.LeastNames.{AreLeast, listed, names_of};
ghost use Rattle.question_answers.specs.inner.Wants.{IsWantedOf, wanted_of};

use crate::pass::keep;
use names::{NoMemory, Permission, Perms};
use profile_questions::{Answer, Answers, Comparison, pattern_rules_allow_what_they_take};
use std::alloc::Global;

/// What is wanted of a name by the first two lists of rules.
#[derive(Clone, Copy)]
pub(crate) struct Wanted {
    pub(crate) first: Answer,
    pub(crate) second: Answer,
}

impl Wanted {
    /// Anything.
    pub(crate) const ANY: Wanted = Wanted {
        first: Answer::Any,
        second: Answer::Any,
    };
}

// The least name of which two lists of rules say what is wanted: of all names, or, if these are restricted, of those that the third
// list, the rule of a path, matches.
fn least(
    alloc: Global,
    comparison: &Comparison<'_>,
    wanted: Wanted,
    restricted: bool,
) -> Result<Option<Vec<u8>>, NoMemory>
    ensures { (below : Option (List Token)) → comparison.now.third ≡ rules_below below → restricted ≡ is_given below →
        IfOk result (λ found. IsLeastName (IsWantedOf below comparison.now wanted) (found_name found)) }
{
    pattern_rules_allow_what_they_take();
    comparison.shortest(alloc, answers(wanted, restricted))
}

/// The least such name, in a list, or an empty list.
pub(crate) fn least_alone(
    alloc: Global,
    comparison: &Comparison<'_>,
    wanted: Wanted,
    restricted: bool,
) -> Result<Vec<Vec<u8>>, NoMemory>
    ensures { (below : Option (List Token)) → comparison.now.third ≡ rules_below below → restricted ≡ is_given below →
        IfOk result (λ names. AreLeast (IsWantedOf below comparison.now wanted) (listed names.items)) }
{
    let found = least(alloc, comparison, wanted, restricted)?;
    list_of(alloc, found)
}

// The list of one name, or of none.
fn list_of(alloc: Global, found: Option<Vec<u8>>) -> Result<Vec<Vec<u8>>, NoMemory>
    ensures { IfOk result (λ names. listed names.items ≡ names_of (found_name found)) }
{
    let mut names = Vec::new(alloc);
    if let Some(name) = found {
        keep(&mut names, name)?;
    }
    Ok(names)
}

/// Whether there is a name that the question is about: if names are restricted, one that the third list, the rule of a path, matches.
pub fn some_name(
    alloc: Global,
    comparison: &Comparison<'_>,
    restricted: bool,
) -> Result<bool, NoMemory>
    ensures { (below : Option (List Token)) → comparison.now.third ≡ rules_below below → restricted ≡ is_given below →
        IfOk result (λ some. IsTrue some ↔ ((name : List ℕ) × IsBelow below name)) }
{
    Ok(least(alloc, comparison, Wanted::ANY, restricted)?.is_some())
}

/// What is wanted of a name by all three lists of rules.
pub(crate) fn answers(wanted: Wanted, restricted: bool) -> Answers
    ensures { result ≡ wanted_of wanted restricted }
{
    Answers {
        first: wanted.first,
        second: wanted.second,
        third: if restricted { taken() } else { Answer::Any },
    }
}

// That the rule of a path matches a name.
fn taken() -> Answer
    ensures { result ≡ answer.Allowed (only Read) }
{
    Answer::Allowed(Perms::NONE.with(Permission::Read))
}
