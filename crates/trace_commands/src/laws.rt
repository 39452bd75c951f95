//! Laws that show the definitions of `specs/` sane. The functions do nothing: each stands for its contract.
ghost use Rattle.std.specs.Prelude.{◌≡◌, ◌≢◌, ◌⊎◌, ◌≤◌, ◌++◌, ◌∷◌, [], ℕ, List, codes, length, None};
ghost use Rattle.names.specs.Bytes.{are_bytes};
ghost use Rattle.names.specs.VerdictText.{verdict_text};
ghost use Rattle.names.specs.declared.permissions.Perms.{Perms};
ghost use Rattle.names.specs.declared.verdict.Verdict.{Verdict};
ghost use Rattle.names.specs.declared.verdict.Verdict.TheVariants.{Allowed};
ghost use Rattle.rule_globs.specs.PlainVerdict.{verdict};
ghost use Rattle.rule_profile.specs.Profile.{ProfileValue};
ghost use Rattle.tables.specs.Tables.{Table};
ghost use Rattle.table_verifier.specs.AcceptedImages.{IsLoaded};
ghost use Rattle.answer_json.specs.Lines.{json_line};
ghost use Rattle.answer_json.specs.Values.{match_object};
ghost use Rattle.trace_report.specs.Output.{Output, answer, whole_answer};
ghost use Rattle.trace_report.specs.declared.format.Format.{Format};
ghost use Rattle.trace_report.specs.declared.format.Format.TheVariants.{Text, Json};
ghost use Rattle.trace_report.specs.declared.status.Status.TheVariants.{Done, Unmet};
ghost use Rattle.trace_commands.specs.Explain.{explain_output, GoesOnFrom};
ghost use Rattle.trace_commands.specs.Judge.{judge_output};
ghost use Rattle.trace_commands.specs.Quiet.{quiet_judge_output};
ghost use Rattle.trace_commands.specs.Tables.{IsCheckOutput, IsImageOutput, IsMatchOutput, IsMatchedOutput, match_lines, steps_text};

use matcher::tables_of_rules_tell_their_verdicts;
use names::records_tell_one_verdict;
use tables::{bytes_have_one_outcome, tables_have_one_outcome};

/// For each image there is only one output that `check` may write, and only one that `match` may write in a format.
pub fn images_have_one_answer()
    ensures checked { (image : List ℕ) (one other : Output) →
        IsCheckOutput image one → IsCheckOutput image other → one ≡ other }
    ensures matched { (format : Format) (perms name image : List ℕ) (one other : Output) →
        IsMatchOutput format perms name image one → IsMatchOutput format perms name image other → one ≡ other }
{
    bytes_have_one_outcome();
    tables_have_one_outcome();
    records_tell_one_verdict();
}

/// For an image that `compile` wrote, `match` gives the verdict of the profile's rules, and no state of the image's table has a
/// greater depth than was asked for; where that was 0, nothing is written but the verdict and the number of steps.
pub fn images_of_rules_tell_their_verdicts()
    ensures verdicts { (format : Format) (depth : ℕ) (profile : ProfileValue) (image matched : Output) (ask : Perms) (name : List ℕ) →
        are_bytes name → IsImageOutput depth profile image → IsMatchedOutput format ask name image.answers matched →
        (t : Table) × IsLoaded image.answers t × (t.depth_bound ≤ depth)
        × (matched ≡ whole_answer (match_lines format t name (verdict profile.rules name ask))) }
    ensures flat { (profile : ProfileValue) (image matched : Output) (ask : Perms) (name : List ℕ) → are_bytes name →
        IsImageOutput 0 profile image → IsMatchedOutput Text ask name image.answers matched →
        matched ≡ whole_answer (steps_text name (verdict profile.rules name ask)) }
    ensures flat_json { (profile : ProfileValue) (image matched : Output) (ask : Perms) (name : List ℕ) → are_bytes name →
        IsImageOutput 0 profile image → IsMatchedOutput Json ask name image.answers matched →
        matched ≡ whole_answer (json_line (match_object (verdict profile.rules name ask) (length name) None)) }
{
    bytes_have_one_outcome();
    tables_have_one_outcome();
    tables_of_rules_tell_their_verdicts();
}

/// The status of `judge --quiet` says what `judge` writes in text: `allowed`, another verdict, or the same fault.
pub fn quiet_verdicts_are_those_of_judge()
    ensures allowed { (perms name text : List ℕ) → (quiet_judge_output perms name text).status ≡ Done →
        judge_output Text perms name text ≡ answer (codes "allowed") }
    ensures refused { (perms name text : List ℕ) → (quiet_judge_output perms name text).status ≡ Unmet →
        (verdict : Verdict) × (verdict ≢ Allowed) × (judge_output Text perms name text ≡ answer (verdict_text verdict)) }
    ensures fault { (perms name text : List ℕ) → (quiet_judge_output perms name text).status ≢ Done →
        (quiet_judge_output perms name text).status ≢ Unmet → judge_output Text perms name text ≡ quiet_judge_output perms name text }
{}

/// In text, `explain` begins with what `judge` writes, on both streams. In each format it ends with the same status.
pub fn explain_goes_on_from_judge()
    ensures text { (perms name text : List ℕ) → GoesOnFrom (judge_output Text perms name text) (explain_output Text perms name text) }
    ensures status { (format : Format) (perms name text : List ℕ) →
        (explain_output format perms name text).status ≡ (judge_output format perms name text).status }
{}
