//! What is reported about a denial.
ghost use Rattle.std.specs.Prelude.{◌≡◌, IfOk};
ghost use Rattle.audit_log.specs.Denials.{denial_value};
ghost use Rattle.rule_explain.specs.Explanations.{text_of_rule};
ghost use Rattle.rule_profile.specs.Profile.{profile_value};
ghost use Rattle.trace_audit.specs.Answers.{answer_by_rules, answer_by_verdict, answer_to};
ghost use Rattle.trace_audit.specs.inner.AnswerValues.{answer_value};
ghost use Rattle.trace_audit.specs.inner.FoundValues.{found_value};

use crate::added::added_rule;
use crate::allowing::allowing;
use crate::asked::{asked, asks_nothing};
use crate::lookup::{Found, Refusal};
use audit_log::Denial;
use names::{NoMemory, Perms, Verdict};
use rule_judge::judge_slow;
use rule_profile::Profile;
use rule_writer::write_rule;
use std::alloc::Global;

/// What is reported about a denial.
#[derive(Debug, Drop)]
pub(crate) enum Answer<'a> {
    /// No text has the profile.
    NoProfile,
    /// No text has the profile, and this file can't be imported.
    NotImported(Refusal<'a>),
    /// Nothing is asked but `x`.
    NotJudged,
    /// It is allowed by these rules.
    AllowedBy(Vec<u16>),
    /// It is denied by the rule with this number and this text.
    DeniedBy {
        rule: u16,
        text: Vec<u8>,
    },
    /// No rule is for these permissions, and this one would allow them.
    NoRule {
        missing: Perms,
        add: Option<Vec<u8>>,
    },
}

/// The text of the rule with this number.
fn text_of_rule(alloc: Global, profile: &Profile, number: u16) -> Result<Vec<u8>, NoMemory>
    ensures { IfOk result (λ text. text.items ≡ text_of_rule (profile_value profile.now).rules number) }
{
    match profile.rules().get(usize::from(number).saturating_sub(1)) {
        Some(rule) => write_rule(alloc, rule),
        None => Ok(Vec::new(alloc)),
    }
}

/// What is reported by a verdict on a name.
fn answer_by_verdict<'a>(
    alloc: Global,
    profile: &Profile,
    name: &[u8],
    ask: Perms,
    verdict: Verdict,
) -> Result<Answer<'a>, NoMemory>
    ensures { IfOk result (λ answer. answer_value answer
        ≡ answer_by_verdict (profile_value profile.now).rules name.now ask verdict) }
{
    match verdict {
        Verdict::Allowed => Ok(Answer::AllowedBy(allowing(alloc, profile, name, ask)?)),
        Verdict::Denied { rule } => Ok(Answer::DeniedBy {
            rule,
            text: text_of_rule(alloc, profile, rule)?,
        }),
        Verdict::NoRule { missing } => Ok(Answer::NoRule {
            missing,
            add: added_rule(alloc, name, missing)?,
        }),
    }
}

/// What is reported by the rules of a profile.
fn answer_by_rules<'a>(
    alloc: Global,
    profile: &Profile,
    name: &[u8],
    ask: Perms,
) -> Result<Answer<'a>, NoMemory>
    ensures { IfOk result (λ answer. answer_value answer ≡ answer_by_rules (profile_value profile.now).rules name.now ask) }
{
    if asks_nothing(ask) {
        return Ok(Answer::NotJudged);
    }
    let verdict = judge_slow(profile, name, ask);
    answer_by_verdict(alloc, profile, name, ask, verdict)
}

/// What is reported about a denial, by what the name of its profile leads to.
pub(crate) fn answer_to<'a>(
    alloc: Global,
    found: &Found<'a>,
    denial: &Denial,
) -> Result<Answer<'a>, NoMemory>
    ensures { IfOk result (λ answer. answer_value answer ≡ answer_to (found_value found.now) (denial_value denial.now)) }
{
    match found {
        Found::Profile(profile) => answer_by_rules(
            alloc,
            profile,
            &denial.name,
            asked(&denial.mask),
        ),
        Found::Refused(refusal) => Ok(Answer::NotImported(*refusal)),
        Found::Absent => Ok(Answer::NoProfile),
    }
}
