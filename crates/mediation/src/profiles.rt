//! What published profiles say about names. Nothing is allocated.
ghost use Rattle.std.specs.Prelude.{◌≡◌, Some};
ghost use Rattle.names.specs.Records.{IsTold};
ghost use Rattle.mediation.specs.Judge.{verdict_by};
ghost use Rattle.mediation.specs.Links.{allowed_by};
ghost use Rattle.mediation.specs.Profiles.{judge_of};
ghost use Rattle.mediation.specs.inner.RecordVerdicts.{Tells};
ghost use Rattle.names.specs.Permissions.{only};
ghost use Rattle.rule_judge.specs.Links.{is_allowed};
ghost use Rattle.names.specs.declared.verdict.Verdict.{Verdict};
ghost use Rattle.tables.specs.Tables.{record_after};

use crate::laws::told_is_the_one_verdict;
use matcher::{AnyProfile, record_of_name, tables_of_rules_tell_their_verdicts};
use names::{Permission, Perms, Record, Verdict, told};
use table_verifier::{LookUps, Steps, VerifiedTable};

/// A profile's verdict on a name (apparmor.d(5), "Rule Qualifiers"): by its rules if it was compiled, else by its table. Nothing
/// is allocated.
pub fn judge_name(profile: &AnyProfile, name: &[u8], ask: Perms) -> Verdict
    ensures { result ≡ verdict_by (judge_of profile.now) name.now ask }
{
    told(&record_by(profile, name), ask)
}

/// The permissions that a name is allowed, each asked for alone.
pub(crate) fn allowed_by(profile: &AnyProfile, name: &[u8]) -> Perms
    ensures { result ≡ allowed_by (judge_of profile.now) name.now }
{
    let record = record_by(profile, name);
    Perms::passing(|permission| tells_allowed(&record, permission))
}

/// The record of a profile's verdicts on a name: one run answers every question.
fn record_by(profile: &AnyProfile, name: &[u8]) -> Record
    ensures { Tells (judge_of profile.now) name.now result }
{
    match profile {
        AnyProfile::Compiled(compiled) => {
            tables_of_rules_tell_their_verdicts();
            last_record(compiled.table(), name)
        }
        AnyProfile::Loaded(loaded) => {
            told_is_the_one_verdict();
            last_record(loaded.table(), name)
        }
    }
}

/// The record of a name's last state.
fn last_record(table: &VerifiedTable, name: &[u8]) -> Record
    ensures { record_after table.now name.now ≡ Some result }
{
    // A bound of depths has few bits, so the look-ups of a name can be counted.
    let _bound = table.depth_bound();
    record_of_name(table, name, &mut Steps::new(), &mut LookUps::new())
}

/// Whether a record allows a permission that is asked for alone.
fn tells_allowed(record: &Record, permission: Permission) -> bool
    ensures { (v : Verdict) × IsTold «record».now (only permission) v × (result ≡ is_allowed v) }
{
    matches!(told(record, Perms::NONE.with(permission)), Verdict::Allowed)
}
