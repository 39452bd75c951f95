//! Laws of tables of rules.
ghost use Rattle.std.specs.Prelude.{List};
ghost use Rattle.matcher.specs.TableVerdicts.{TellsLeastHits, TellsVerdicts};
ghost use Rattle.rule_profile.specs.Profile.{RuleValue};
ghost use Rattle.tables.specs.Tables.{Table};

use glob_automaton::{least_hits_tell_the_verdict, names_have_one_least_record};
use rule_globs::one_verdict_is_right;

/// A table that leads every name to its least hits gives the verdicts of the rules: `judge` by a compiled profile answers
/// what its rules say.
pub fn tables_of_rules_tell_their_verdicts()
    ensures { (rules : List RuleValue) (t : Table) → TellsLeastHits rules t → TellsVerdicts rules t }
{
    least_hits_tell_the_verdict();
    names_have_one_least_record();
    one_verdict_is_right();
}
