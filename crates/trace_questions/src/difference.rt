//! `diff OLD NEW`: the names that only one of two profiles allows something to.
ghost use Rattle.std.specs.Prelude.{◌≡◌, ℕ, List, Option, IfErr, IfOk, IsErr, option_map};
ghost use Rattle.std.specs.Io.KnownBytes.{Keeps};
ghost use Rattle.glob_automaton.specs.Automata.{most_sets};
ghost use Rattle.glob_automaton.specs.Sets.{AreMoreThan};
ghost use Rattle.rule_reader.specs.ReadText.{outcome_of};
ghost use Rattle.rule_globs.specs.Tokens.{Token};
ghost use Rattle.rule_profile.specs.Profile.{profile_value};
ghost use Rattle.rule_profile.specs.RuleSpans.{profile_spans};
ghost use Rattle.trace_questions.specs.Differences.{IsDiffOf, IsDiffOutput, IsDiffOutputOf, below_asked, versions_of};
ghost use Rattle.rule_reader.specs.Spans.{spans_of};
ghost use Rattle.trace_questions.specs.inner.Questions.{IsAnswered};
ghost use Rattle.trace_questions.specs.inner.Differences.{IsBelowAsked, IsCompileRefusalIn, IsDiffAnswer, IsOfBelow, IsProfileIn};
ghost use Rattle.trace_report.specs.Streams.{EndsAnswered, IsTextOf, streams};

use crate::answer::Answer;
use crate::changes::{Listing, Versions, changes};
use crate::comparison::{compared, compiled};
use crate::questions::pattern_of;
use crate::report::Report;
use crate::sides::SideFault;
use derived_profiles::without_rules;
use names::NoMemory;
use profile_questions::CompiledRules;
use question_answers::Side;
use rule_profile::Profile;
use rule_reader::read;
use std::alloc::Global;
use std::io::{Read, Write};
use trace_report::{Fault, Status, fail, read_all, write_finding};

/// Reads two profiles and writes to `answers`, for each permission, the least name that the new one alone allows it to, and the
/// least that the old one alone does, with the reasons by both; or for each pair of reasons the least such name, in ascending order;
/// or `same`. With a pattern, only names that it matches are compared. Faults are reported on `faults` instead. The pattern is tested
/// before anything is read, and the old profile is read first.
pub fn differ<O: Read, N: Read, A: Write, F: Write>(
    alloc: Global,
    below: Option<&str>,
    report: Report,
    old: &mut O,
    new: &mut N,
    answers: &mut A,
    faults: &mut F,
) -> Status
    ensures output { (before after : List ℕ) × IsTextOf (O.remaining old.old) before × IsTextOf (N.remaining new.old) after
        × EndsAnswered
        (streams (A.contents answers.old) (A.contents answers.new) (F.contents faults.old) (F.contents faults.new))
        (IsDiffOutput report (option_map (λ pattern. pattern.now) below.entry) before after) result }
    ensures unread { IsErr (below_asked (option_map (λ pattern. pattern.now) below.entry))
        → Keeps (O.remaining old.old) (O.remaining old.new) × Keeps (N.remaining new.old) (N.remaining new.new) }
{
    match answer(alloc, below, report, old, new) {
        Ok(answer) => write_finding(answers, faults, &answer.text, answer.found),
        Err(fault) => fail(faults, fault, fault.status()),
    }
}

// The answer, or why there is none.
fn answer<O: Read, N: Read>(
    alloc: Global,
    below: Option<&str>,
    report: Report,
    old: &mut O,
    new: &mut N,
) -> Result<Answer, SideFault>
    ensures output { (before after : List ℕ) × IsTextOf (O.remaining old.old) before × IsTextOf (N.remaining new.old) after
        × IsDiffAnswer (IsDiffOutput report (option_map (λ pattern. pattern.now) below.entry) before after) result }
    ensures unread { IsErr (below_asked (option_map (λ pattern. pattern.now) below.entry))
        → Keeps (O.remaining old.old) (O.remaining old.new) × Keeps (N.remaining new.old) (N.remaining new.new) }
{
    let below = Below::of(alloc, below)?;
    let before = read_all(alloc, old)?;
    let after = read_all(alloc, new)?;
    let texts = Texts {
        before: &before,
        after: &after,
    };
    answer_on(alloc, below, report, &texts)
}

// The texts of two profiles.
#[derive(Clone, Copy)]
struct Texts<'a> {
    before: &'a [u8],
    after: &'a [u8],
}

// Names that are compared: those that a profile's one rule matches, or all.
#[derive(Drop)]
struct Below {
    profile: Profile,
    // Whether there is a rule.
    restricted: bool,
}

impl Below {
    // The names that are to be compared.
    fn of(alloc: Global, pattern: Option<&str>) -> Result<Below, Fault>
        ensures { IsBelowAsked (option_map (λ pattern. pattern.now) pattern.entry) result }
    {
        match pattern {
            Some(pattern) => Ok(Below {
                profile: pattern_of(alloc, pattern)?,
                restricted: true,
            }),
            None => match without_rules(alloc) {
                Ok(profile) => Ok(Below {
                    profile,
                    restricted: false,
                }),
                Err(NoMemory) => Err(Fault::Memory),
            },
        }
    }
}

// The answer by two texts.
fn answer_on(
    alloc: Global,
    below: Below,
    report: Report,
    texts: &Texts<'_>,
) -> Result<Answer, SideFault>
    ensures { (path : Option (List Token)) → IsOfBelow path below → IsDiffAnswer
        (IsDiffOutputOf report path texts.now.before.now texts.now.after.now (outcome_of texts.now.before.now)
        (outcome_of texts.now.after.now)) result }
{
    let old = profile_in(alloc, texts.before, Side::Old)?;
    let new = profile_in(alloc, texts.after, Side::New)?;
    answer_of(alloc, below, report, texts, old, new)
}

// The answer by two profiles.
fn answer_of(
    alloc: Global,
    below: Below,
    report: Report,
    texts: &Texts<'_>,
    old: Profile,
    new: Profile,
) -> Result<Answer, SideFault>
    ensures { (path : Option (List Token)) → IsOfBelow path below → profile_spans old ≡ spans_of texts.now.before.now →
        profile_spans new ≡ spans_of texts.now.after.now → IsDiffAnswer
        (IsDiffOf report path (versions_of texts.now.before.now (profile_value old).rules texts.now.after.now
        (profile_value new).rules)) result }
{
    let old = compiled_in(alloc, old, Side::Old)?;
    let new = compiled_in(alloc, new, Side::New)?;
    match answer_by(alloc, below, report, texts, &old, &new) {
        Ok(answer) => Ok(answer),
        Err(fault) => Err(SideFault::Neither(fault)),
    }
}

// The answer by compiled rules.
fn answer_by(
    alloc: Global,
    below: Below,
    report: Report,
    texts: &Texts<'_>,
    old: &CompiledRules,
    new: &CompiledRules,
) -> Result<Answer, Fault>
    ensures { (path : Option (List Token)) → IsOfBelow path below → old.now.spans ≡ spans_of texts.now.before.now →
        new.now.spans ≡ spans_of texts.now.after.now → ¬ (AreMoreThan most_sets old.now.rules) →
        ¬ (AreMoreThan most_sets new.now.rules) → IsAnswered
        (IsDiffOf report path (versions_of texts.now.before.now old.now.rules texts.now.after.now new.now.rules)) result }
{
    let names = compiled(alloc, below.profile)?;
    let comparison = compared(alloc, old, new, &names)?;
    let versions = Versions {
        before: texts.before,
        old: old.profile(),
        after: texts.after,
        new: new.profile(),
    };
    let listing = Listing {
        restricted: below.restricted,
        report,
    };
    match changes(alloc, &comparison, &versions, listing) {
        Ok(answer) => Ok(answer),
        Err(NoMemory) => Err(Fault::Memory),
    }
}

// The profile of one of two texts.
fn profile_in(alloc: Global, text: &[u8], side: Side) -> Result<Profile, SideFault>
    ensures { IsProfileIn side text.now result }
{
    match read(alloc, text) {
        Ok(profile) => Ok(profile),
        Err(fault) => Err(SideFault::of(side, Fault::from(fault))),
    }
}

// The compiled rules of one of two profiles.
fn compiled_in(alloc: Global, profile: Profile, side: Side) -> Result<CompiledRules, SideFault>
    ensures rules { IfOk result (λ compiled. compiled.rules ≡ (profile_value profile).rules) }
    ensures spans { IfOk result (λ compiled. compiled.spans ≡ profile_spans profile) }
    ensures few { IfOk result (λ _. ¬ (AreMoreThan most_sets (profile_value profile).rules)) }
    ensures err { IfErr result (IsCompileRefusalIn side (profile_value profile).rules) }
{
    match compiled(alloc, profile) {
        Ok(rules) => Ok(rules),
        Err(fault) => Err(SideFault::of(side, fault)),
    }
}
