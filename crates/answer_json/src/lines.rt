//! Answers as lines: of text, or of JSON.
ghost use Rattle.std.specs.Prelude.{◌≡◌, codes, false, string_bytes, IfOk};
ghost use Rattle.answer_json.specs.Lines.{explanation, json_line, verdict_line};
ghost use Rattle.answer_json.specs.Values.{match_object, number_or_null, number_value};
ghost use Rattle.answer_json.specs.inner.Front.{front_of_match, rest_of_match};
ghost use Rattle.names.specs.VerdictText.{verdict_text};
ghost use Rattle.rule_profile.specs.Profile.{profile_value};
ghost use Rattle.rule_profile.specs.RuleSpans.{profile_spans};
ghost use Rattle.serde_json.specs.Data.{member, no_members, object, string};
ghost use Rattle.serde_json.specs.View.{view};
ghost use Rattle.serde_json.specs.Written.{has_float};
ghost use Rattle.trace_report.specs.Output.{line};

use crate::verdicts::{
    denying_rule, explanation_object, missing_letters, verdict_object, verdict_word,
};
use names::{NoMemory, Perms, Verdict};
use rule_explain::explain;
use rule_profile::Profile;
use serde_json::{Value, json};
use std::alloc::{AllocError, Global};
use trace_report::Format;

/// One line of JSON: a value with no spaces in it, and a line feed. The value has no floats.
pub fn json_line(alloc: Global, value: &Value) -> Result<Vec<u8>, NoMemory>
    requires integers { has_float (view value.now) ≡ false }
    ensures { IfOk result (λ line. line.items ≡ json_line (view value.now)) }
{
    let Ok(mut line) = value.to_vec(alloc) else {
        return Err(NoMemory);
    };
    match line.push(b'\n') {
        Ok(()) => Ok(line),
        Err(_) => Err(NoMemory),
    }
}

/// A verdict as a line: `denied by rule 3`, or [`verdict_object`].
pub fn verdict_line(alloc: Global, format: Format, verdict: Verdict) -> Result<Vec<u8>, NoMemory>
    ensures { IfOk result (λ line. line.items ≡ verdict_line format verdict) }
{
    match format {
        Format::Text => verdict_text(alloc, verdict),
        Format::Json => json_line(alloc, &verdict_object(alloc, verdict)?),
    }
}

/// What a profile makes of a name and of the permissions that are asked for it, and why: the lines of
/// [`explain`](rule_explain::explain), or [`explanation_object`].
pub fn explanation(
    alloc: Global,
    format: Format,
    text: &[u8],
    profile: &Profile,
    name: &[u8],
    ask: Perms,
) -> Result<Vec<u8>, NoMemory>
    ensures { IfOk result (λ lines. lines.items
        ≡ explanation format text.now (profile_value profile.now).rules (profile_spans profile.now) name.now ask) }
{
    match format {
        Format::Text => explain(alloc, text, profile, name, ask),
        Format::Json => {
            let value = explanation_object(alloc, text, profile, name, ask)?;
            json_line(alloc, &value)
        }
    }
}

/// A verdict by an image as a line of JSON, with the number of steps, and the number of cells looked up where states may have a
/// depth: `{"lookups":null,"missing":null,"rule":3,"steps":11,"verdict":"denied"}`.
pub fn match_line(
    alloc: Global,
    verdict: Verdict,
    steps: u64,
    look_ups: Option<u128>,
) -> Result<Vec<u8>, NoMemory>
    ensures { IfOk result (λ line. line.items ≡ json_line (match_object verdict steps look_ups)) }
{
    // A `Value` has no number of 128 bits. `lookups` is the first member, so its text can be put before the others'.
    let front = front_of_match(alloc, look_ups)?;
    let rest = json_line(alloc, &rest_of_match(alloc, verdict, steps)?)?;
    let mut line = front.into_bytes();
    match line.extend_from_slice(&rest[1..]) {
        Ok(()) => Ok(line),
        Err(_) => Err(NoMemory),
    }
}

/// What comes before the member `missing`.
fn front_of_match(alloc: Global, look_ups: Option<u128>) -> Result<String, NoMemory>
    ensures { IfOk result (λ front. string_bytes front ≡ front_of_match look_ups) }
{
    let front = match look_ups {
        Some(count) => format!(in alloc; "{{\"lookups\":{count},"),
        None => String::from_str(alloc, "{\"lookups\":null,"),
    };
    match front {
        Ok(front) => Ok(front),
        Err(_) => Err(NoMemory),
    }
}

/// The object with the other members.
#[tactic(auto, using(crate::specs::laws::NoFloats::no_float_in_match))]
fn rest_of_match(alloc: Global, verdict: Verdict, steps: u64) -> Result<Value, NoMemory>
    ensures value { IfOk result (λ value. view value ≡ rest_of_match verdict steps) }
    ensures integers { IfOk result (λ value. has_float (view value) ≡ false) }
{
    let missing = missing_letters(alloc, verdict)?;
    let rule = denying_rule(verdict);
    let word = verdict_word(verdict);
    match matched(alloc, missing, rule, steps, word) {
        Ok(value) => Ok(value),
        Err(_) => Err(NoMemory),
    }
}

fn verdict_text(alloc: Global, verdict: Verdict) -> Result<Vec<u8>, NoMemory>
    ensures { IfOk result (λ text. text.items ≡ line (verdict_text verdict)) }
{
    match format!(in alloc; "{verdict}\n") {
        Ok(text) => Ok(text.into_bytes()),
        Err(_) => Err(NoMemory),
    }
}

/// The object of a verdict by an image, without the number of look-ups.
fn matched(
    alloc: Global,
    missing: Value,
    rule: Option<u16>,
    steps: u64,
    word: &str,
) -> Result<Value, AllocError>
    ensures { IfOk result (λ value. view value ≡ object (member (codes "missing") (view missing)
        (member (codes "rule") (number_or_null rule) (member (codes "steps") (number_value steps)
        (member (codes "verdict") (string word.now) no_members))))) }
{
    json!(in alloc; {"missing": missing, "rule": rule, "steps": steps, "verdict": word})
}
