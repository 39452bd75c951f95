//! Laws that show that the definitions of `specs/` are sane. The functions do nothing: each exists only for its contract.
ghost use Rattle.std.specs.Prelude.{◌≡◌, ℕ, List};
ghost use Rattle.names.specs.Records.{IsTold};
ghost use Rattle.names.specs.Bytes.{are_bytes};
ghost use Rattle.names.specs.declared.record.Record.{Record};
ghost use Rattle.matcher.specs.TableVerdicts.{TellsLeastHits};
ghost use Rattle.mediation.specs.Judge.{by_rules, by_table, verdict_by};
ghost use Rattle.mediation.specs.Told.{told};
ghost use Rattle.names.specs.declared.permissions.Perms.{Perms};
ghost use Rattle.rule_profile.specs.Profile.{RuleValue};
ghost use Rattle.names.specs.declared.verdict.Verdict.{Verdict};
ghost use Rattle.tables.specs.Tables.{Table};

use glob_automaton::names_have_one_least_record;
use matcher::tables_of_rules_tell_their_verdicts;
use names::records_tell_one_verdict;

/// The verdict computed from a record is one that `IsTold` allows, and the only one.
pub fn told_is_the_one_verdict()
    ensures some { (r : Record) (ask : Perms) → IsTold r ask (told r ask) }
    ensures only { (r : Record) (ask : Perms) (v : Verdict) → IsTold r ask v → v ≡ told r ask }
{
    records_tell_one_verdict();
}

/// A table of rules gives each name the verdicts that the rules give: a profile that is loaded from the image of a compiled one
/// judges as that one does.
pub fn tables_of_rules_judge_as_their_rules()
    ensures { (rules : List RuleValue) (t : Table) (name : List ℕ) (ask : Perms) → TellsLeastHits rules t → are_bytes name
        → verdict_by (by_table t) name ask ≡ verdict_by (by_rules rules) name ask }
{
    tables_of_rules_tell_their_verdicts();
    names_have_one_least_record();
    told_is_the_one_verdict();
}
