//! One pass over the names that represent all names.
ghost use Rattle.std.specs.Prelude.{◌≡◌, ◌++◌, ◌∷◌, [], IfOk, List, OnOk, Option};
ghost use Rattle.rule_globs.specs.Tokens.{Token};
ghost use Rattle.question_answers.specs.Below.{is_given, rules_below};
ghost use Rattle.question_answers.specs.LeastNames.{AreLeastNames, listed};
ghost use Rattle.question_answers.specs.inner.Causes.{HasCauses};

use crate::laws::equal_causes_are_one;
use crate::least::{Wanted, answers};
use crate::notes::note;
use indexmap::IndexSet;
use names::{NoMemory, Perms};
use profile_questions::{Comparison, pattern_rules_allow_what_they_take};
use rule_explain::reasons_are_right;
use std::alloc::Global;

/// In ascending order, the least names of which the first two lists of rules say what is wanted, for each two rules that decide
/// about something that is asked. Of all names, or, if these are restricted, of those that the third list, the rule of a path, matches.
pub(crate) fn least_by_causes(
    alloc: Global,
    comparison: &Comparison<'_>,
    wanted: Wanted,
    ask: Perms,
    restricted: bool,
) -> Result<Vec<Vec<u8>>, NoMemory>
    ensures { (below : Option (List Token)) → comparison.now.third ≡ rules_below below → restricted ≡ is_given below →
        IfOk result (λ names. AreLeastNames (HasCauses below comparison.now wanted ask) (listed names.items)) }
{
    pattern_rules_allow_what_they_take();
    reasons_are_right();
    equal_causes_are_one();
    let answers = answers(wanted, restricted);
    let mut seen = IndexSet::new(alloc);
    let mut names = Vec::new(alloc);
    for index in 0..comparison.len() {
        if note(&mut seen, comparison, index, answers, ask)? {
            keep(&mut names, comparison.name(alloc, index)?)?;
        }
    }
    Ok(names)
}

/// Appends a name.
pub(crate) fn keep(names: &mut Vec<Vec<u8>>, name: Vec<u8>) -> Result<(), NoMemory>
    ensures { OnOk result (names.new.items ≡ names.old.items ++ name ∷ []) }
{
    match names.push(name) {
        Ok(()) => Ok(()),
        Err(_) => Err(NoMemory),
    }
}
