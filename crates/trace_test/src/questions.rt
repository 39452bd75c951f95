//! Questions about names, answered by the rules that are published under a profile's name.
ghost use Rattle.std.specs.Prelude.{◌≡◌, ℕ, List, MatchResult, IfOk};
ghost use Rattle.names.specs.VerdictText.{verdict_text};
ghost use Rattle.rule_profile.specs.Profile.{RuleValue, profile_value};
ghost use Rattle.trace_script.specs.Engine.{IsText};
ghost use Rattle.trace_test.specs.Questions.{answer_by, explain_text, is_name, judge_text};
ghost use Rattle.trace_test.specs.inner.Published.{rules_in};
ghost use Rattle.test_script.specs.LineValues.{question_value};

use crate::published::Published;
use crate::reasons::put_reasons;
use names::Verdict;
use rule_judge::judge_slow;
use rule_profile::Profile;
use std::alloc::{AllocError, Global};
use test_script::Question;
use trace_script::Stop;

/// The verdict of a profile's rules, as a line.
pub(crate) fn judge_line(
    alloc: Global,
    published: &Published,
    question: Question<'_>,
) -> Result<Vec<u8>, Stop>
    ensures { IsText (judge_text (rules_in published.now) (question_value question.entry)) result }
{
    match asked_profile(published, question) {
        Ok(profile) => {
            let verdict = judge_slow(profile, question.name, question.ask);
            let mut line = verdict_bytes(alloc, verdict)?;
            line.push(b'\n')?;
            Ok(line)
        }
        Err(answer) => text_line(alloc, answer),
    }
}

/// The verdict of a profile's rules and the reason for each permission, as a line.
pub(crate) fn explain_line(
    alloc: Global,
    published: &Published,
    question: Question<'_>,
) -> Result<Vec<u8>, Stop>
    ensures { IsText (explain_text (rules_in published.now) (question_value question.entry)) result }
{
    match asked_profile(published, question) {
        Ok(profile) => {
            let verdict = judge_slow(profile, question.name, question.ask);
            let mut line = verdict_bytes(alloc, verdict)?;
            put_reasons(&mut line, alloc, profile, question.name, question.ask)?;
            line.push(b'\n')?;
            Ok(line)
        }
        Err(answer) => text_line(alloc, answer),
    }
}

/// The profile whose rules are asked, or the answer where there is none, or the name is none.
fn asked_profile<'a>(
    published: &'a Published,
    question: Question<'_>,
) -> Result<&'a Profile, &'static str>
    ensures { let q = question_value question.entry in (says : List RuleValue → List ℕ) → MatchResult result
        (λ profile. answer_by says q.name (rules_in published.now q.profile) ≡ says (profile_value profile.now).rules)
        (λ answer. answer_by says q.name (rules_in published.now q.profile) ≡ answer.now) }
{
    let Some(profile) = published.get(question.profile) else {
        return Err("no profile");
    };
    if is_name(question.name) {
        Ok(profile)
    } else {
        Err("bad name")
    }
}

/// Whether a name begins with a slash.
fn is_name(name: &[u8]) -> bool
    ensures { result ≡ is_name name.now }
{
    name.first() == Some(&b'/')
}

fn verdict_bytes(alloc: Global, verdict: Verdict) -> Result<Vec<u8>, AllocError>
    ensures { IfOk result (λ bytes. bytes.items ≡ verdict_text verdict) }
{
    let text = format!(in alloc; "{verdict}")?;
    Ok(text.into_bytes())
}

/// A text as a line.
fn text_line(alloc: Global, text: &str) -> Result<Vec<u8>, Stop>
    ensures { IsText text.now result }
{
    let line = format!(in alloc; "{text}\n")?;
    Ok(line.into_bytes())
}
