//! What one of two profiles alone allows.
ghost use Rattle.std.specs.Prelude.{◌≡◌, IfOk, List, Option};
ghost use Rattle.rule_globs.specs.Tokens.{Token};
ghost use Rattle.question_answers.specs.Alone.{AreAlone};
ghost use Rattle.question_answers.specs.Below.{is_given, rules_below};
ghost use Rattle.question_answers.specs.LeastNames.{listed};
ghost use Rattle.question_answers.specs.inner.Wants.{alone_by};

use crate::least::{Wanted, least_alone};
use crate::pass::least_by_causes;
use crate::quantifier::Witnesses;
use crate::side::Side;
use names::{NoMemory, Permission, Perms};
use profile_questions::{Answer, Comparison};
use std::alloc::Global;

/// The names that this one of two profiles alone allows a permission: the least, or in ascending order the least for each two rules
/// that decide. Of all names, or, if these are restricted, of those that the third list, the rule of a path, matches.
pub fn differences(
    alloc: Global,
    comparison: &Comparison<'_>,
    restricted: bool,
    permission: Permission,
    side: Side,
    witnesses: Witnesses,
) -> Result<Vec<Vec<u8>>, NoMemory>
    ensures { (below : Option (List Token)) → comparison.now.third ≡ rules_below below → restricted ≡ is_given below →
        IfOk result (λ names. AreAlone witnesses below comparison.now.first comparison.now.second permission side (listed names.items)) }
{
    let ask = Perms::NONE.with(permission);
    let wanted = alone_by(side, ask);
    match witnesses {
        Witnesses::Least => least_alone(alloc, comparison, wanted, restricted),
        Witnesses::EachRule => least_by_causes(alloc, comparison, wanted, ask, restricted),
    }
}

// That this profile alone allows what is asked.
fn alone_by(side: Side, ask: Perms) -> Wanted
    ensures { result ≡ alone_by side ask }
{
    match side {
        Side::Old => Wanted {
            first: Answer::Allowed(ask),
            second: Answer::Refused(ask),
        },
        Side::New => Wanted {
            first: Answer::Refused(ask),
            second: Answer::Allowed(ask),
        },
    }
}
