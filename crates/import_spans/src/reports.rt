//! What becomes of a single part, and what is reported of statements.
ghost use Rattle.std.specs.Prelude.{◌≡◌, ◌++◌, ◌∷◌, [], IfOk};
ghost use Rattle.import_spans.specs.PartSpans.{told, added_effect, what_of_statement, statement_part_whats, statement_whats};
ghost use Rattle.import_spans.specs.PartSpans.{changes_profile, statement_effect, plain_kind, head_kind, rule_kind, part_kind};
ghost use Rattle.import_spans.specs.Cuts.{is_hat};
ghost use Rattle.apparmor_rules.specs.RuleParts.{no_effect};
ghost use Rattle.apparmor_rules.specs.RuleWords.{has_part};

use crate::context::RuleReading;
use crate::mode::mode_of_flags;
use crate::span::{SpanKind, Told};
use apparmor_rules::{AppliesTo, Effect, Extent, RuleShape, Subject, What, part_effect};
use apparmor_text::{Part, PartKind};
use apparmor_words::letter_word;
use names::{NoMemory, Permission, Perms, RuleKind};
use std::alloc::Global;

/// How each part of an item is reported.
#[derive(Clone, Copy)]
pub(crate) enum PartTelling {
    /// Not at all.
    Plain,
    /// As a part of the chosen profile's head.
    OfHead,
    /// As a part of a rule that stays.
    OfRule(RuleReading),
}

/// The effect of restating the rules that AppArmor adds to a profile with a hat or a rule `change_profile`: those by which
/// owners may write some files in `/proc`, and not append to them, which a restated rule lets everybody.
pub fn added_effect(chosen: Subject) -> Effect
    ensures { result ≡ added_effect chosen }
{
    let added = RuleShape {
        kind: RuleKind::Allow,
        applies_to: AppliesTo::Owners,
        perms: Perms::NONE.with(Permission::Write),
        has_target: false,
        is_read: true,
        has_priority: false,
    };
    match chosen {
        Subject::Owner => Effect {
            chosen,
            on_chosen: Extent::Wider,
            on_other: Extent::Wider,
        },
        Subject::Other => Effect::of(chosen, added),
    }
}

/// Whether a head of these parts is a hat's.
pub(crate) fn is_hat_head(parts: &[Part<'_>]) -> bool
    ensures { result ≡ has_part is_hat parts.now }
{
    parts
        .iter()
        .any(|part| matches!(part.kind(), PartKind::Hat))
}

/// The effect of changing nothing.
pub(crate) fn no_effect(chosen: Subject) -> Effect
    ensures { result ≡ no_effect chosen }
{
    Effect {
        chosen,
        on_chosen: Extent::Exact,
        on_other: Extent::Exact,
    }
}

/// Appends a word.
fn add(whats: &mut Vec<What>, what: What) -> Result<(), NoMemory>
    ensures { IfOk result (λ _. whats.new.items ≡ whats.old.items ++ (what ∷ [])) }
{
    match whats.push(what) {
        Ok(()) => Ok(()),
        Err(_) => Err(NoMemory),
    }
}

/// A span that is reported by one word.
pub(crate) fn told_by(alloc: Global, what: What, effect: Effect) -> Result<SpanKind, NoMemory>
    ensures { IfOk result (λ kind. kind ≡ told (what ∷ []) effect) }
{
    let mut whats = Vec::new(alloc);
    add(&mut whats, what)?;
    Ok(SpanKind::Told(Told::new(whats, effect)))
}

/// The word that a statement of these bytes is reported by.
fn what_of_statement(bytes: &[u8]) -> What
    ensures { result ≡ what_of_statement bytes.now }
{
    What::of_statement(letter_word(bytes)).unwrap_or(What::Boolean)
}

/// Adds what is reported of a part of a statement.
fn put_statement_part(part: &Part<'_>, whats: &mut Vec<What>) -> Result<(), NoMemory>
    ensures { IfOk result (λ _. whats.new.items ≡ whats.old.items ++ statement_part_whats part.now.kind part.now.bytes) }
{
    match part.kind() {
        PartKind::Priority => add(whats, What::Priority),
        PartKind::Audit => add(whats, What::Audit),
        PartKind::Owner => add(whats, What::Owner),
        PartKind::Other => add(whats, What::Other),
        PartKind::Statement => add(whats, what_of_statement(part.bytes())),
        _ => Ok(()),
    }
}

/// What is reported of a statement of these parts.
pub(crate) fn statement_whats(alloc: Global, parts: &[Part<'_>]) -> Result<Vec<What>, NoMemory>
    ensures { IfOk result (λ whats. whats.items ≡ statement_whats parts.now) }
{
    let mut whats = Vec::new(alloc);
    for part in parts {
        put_statement_part(part, &mut whats)?;
    }
    Ok(whats)
}

/// Whether a statement that is reported by these words is a rule `change_profile`.
pub(crate) fn changes_profile(whats: &[What]) -> bool
    ensures { result ≡ changes_profile whats.now }
{
    whats
        .iter()
        .any(|what| matches!(*what, What::ChangeProfile))
}

/// The effect of a statement that is reported by these words. It is left out, except for the rules that it adds.
pub(crate) fn statement_effect(chosen: Subject, whats: &[What]) -> Effect
    ensures { result ≡ statement_effect chosen whats.now }
{
    if changes_profile(whats) {
        added_effect(chosen)
    } else {
        no_effect(chosen)
    }
}

/// What becomes of a part that isn't reported.
fn plain_kind(kind: PartKind) -> SpanKind
    ensures { result ≡ plain_kind kind }
{
    match kind {
        PartKind::Blank => SpanKind::Blank,
        _ => SpanKind::Kept,
    }
}

/// What becomes of a part of the chosen profile's head.
fn head_kind(alloc: Global, chosen: Subject, part: &Part<'_>) -> Result<SpanKind, NoMemory>
    ensures { IfOk result (λ kind. kind ≡ head_kind chosen part.now.kind part.now.bytes) }
{
    match part.kind() {
        PartKind::Flags => {
            let mode = mode_of_flags(part.bytes());
            told_by(alloc, What::Flags, mode.effect(chosen))
        }
        PartKind::Xattrs => told_by(alloc, What::Xattrs, no_effect(chosen)),
        PartKind::Hat => told_by(alloc, What::Implied, added_effect(chosen)),
        other => Ok(plain_kind(other)),
    }
}

/// What becomes of a part of a rule that stays.
fn rule_kind(
    alloc: Global,
    chosen: Subject,
    reading: RuleReading,
    kind: PartKind,
) -> Result<SpanKind, NoMemory>
    ensures { IfOk result (λ span. span ≡ rule_kind chosen reading kind) }
{
    let mut whats = Vec::new(alloc);
    reading.marks.put(kind, &mut whats)?;
    if whats.is_empty() {
        return Ok(plain_kind(kind));
    }
    let effect = part_effect(chosen, reading.shape, kind);
    Ok(SpanKind::Told(Told::new(whats, effect)))
}

impl PartTelling {
    /// What becomes of a part.
    pub(crate) fn kind(
        self,
        alloc: Global,
        chosen: Subject,
        part: &Part<'_>,
    ) -> Result<SpanKind, NoMemory>
        ensures { IfOk result (λ kind. kind ≡ part_kind self chosen part.now) }
    {
        match self {
            PartTelling::Plain => Ok(plain_kind(part.kind())),
            PartTelling::OfHead => head_kind(alloc, chosen, part),
            PartTelling::OfRule(reading) => rule_kind(alloc, chosen, reading, part.kind()),
        }
    }
}
