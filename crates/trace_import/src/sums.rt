//! The last line of an account: how many spans are reported, and as what.
ghost use Rattle.std.specs.Prelude.{◌≡◌, ◌++◌, [], if◌then◌else◌, IfOk, codes, decimal, length, string_bytes};
ghost use Rattle.std.specs.List.{list_any};
ghost use Rattle.trace_import.specs.Accounts.{count_of, is_reported_as, is_told, others_word, report_of, sums, sums_line};
ghost use Rattle.import_profile.specs.Imports.{ImportValue};
ghost use Rattle.import_profile.specs.Told.{import_value};

use crate::put::put;
use apparmor_rules::{Effect, Extent, Subject};
use import_profile::Imported;
use import_spans::{Span, SpanKind};
use names::NoMemory;
use std::alloc::Global;

/// How a change is reported: by what changes for the chosen subject, or, where nothing does, by what changes for the other.
#[derive(Clone, Copy, Debug, PartialEq, Eq)]
pub(crate) enum Report {
    Exact,
    Wider,
    Narrower,
    WiderForOther,
    NarrowerForOther,
}

fn report_of(effect: Effect) -> Report
    ensures { result ≡ report_of effect.on_chosen effect.on_other }
{
    match (effect.on_chosen, effect.on_other) {
        (Extent::Wider, _) => Report::Wider,
        (Extent::Narrower, _) => Report::Narrower,
        (Extent::Exact, Extent::Exact) => Report::Exact,
        (Extent::Exact, Extent::Wider) => Report::WiderForOther,
        (Extent::Exact, Extent::Narrower) => Report::NarrowerForOther,
    }
}

fn is_reported_as(report: Report, span: &Span) -> bool
    ensures { result ≡ is_reported_as report span.now.kind }
{
    match &span.kind {
        SpanKind::Kept | SpanKind::Blank => false,
        SpanKind::Told(told) => report_of(told.effect()) == report,
    }
}

/// How many spans are reported so.
fn count_of(report: Report, spans: &[Span]) -> usize
    ensures { result ≡ count_of report spans.now }
{
    spans
        .iter()
        .filter(|span| is_reported_as(report, span))
        .count()
}

fn is_told(span: &Span) -> bool
    ensures { result ≡ is_told span.now.kind }
{
    matches!(&span.kind, SpanKind::Told(_))
}

fn others_word(chosen: Subject) -> &'static str
    ensures { result.now ≡ others_word chosen }
{
    match chosen {
        Subject::Owner => "others",
        Subject::Other => "owners",
    }
}

/// `rules 177; reported: 160 exact, 9 wider, 0 narrower, `.
fn chosen_sums(
    alloc: Global,
    rules: usize,
    exact: usize,
    wider: usize,
    narrower: usize,
) -> Result<String, NoMemory>
    ensures { IfOk result (λ text. string_bytes text ≡ codes "rules " ++ (decimal rules ++ (codes "; reported: " ++ (decimal exact
        ++ (codes " exact, " ++ (decimal wider ++ (codes " wider, " ++ (decimal narrower ++ codes " narrower, ")))))))) }
{
    match format!(in alloc;
        "rules {rules}; reported: {exact} exact, {wider} wider, {narrower} narrower, "
    ) {
        Ok(text) => Ok(text),
        Err(_) => Err(NoMemory),
    }
}

/// `8 wider for others, 1 narrower for others`, and the line's end.
fn other_sums(
    alloc: Global,
    others: &str,
    wider: usize,
    narrower: usize,
) -> Result<String, NoMemory>
    ensures { IfOk result (λ text. string_bytes text ≡ decimal wider ++ (codes " wider for " ++ (others.now ++ (codes ", "
        ++ (decimal narrower ++ (codes " narrower for " ++ (others.now ++ codes "\n"))))))) }
{
    match format!(in alloc; "{wider} wider for {others}, {narrower} narrower for {others}\n") {
        Ok(text) => Ok(text),
        Err(_) => Err(NoMemory),
    }
}

/// Adds the sums of these spans.
fn put_line(
    lines: &mut Vec<u8>,
    alloc: Global,
    chosen: Subject,
    rules: usize,
    spans: &[Span],
) -> Result<(), NoMemory>
    ensures { IfOk result (λ _. lines.new.items ≡ lines.old.items ++ sums_line chosen rules spans.now) }
{
    let exact = count_of(Report::Exact, spans);
    let wider = count_of(Report::Wider, spans);
    let narrower = count_of(Report::Narrower, spans);
    let here = chosen_sums(alloc, rules, exact, wider, narrower)?;
    put(lines, here.as_bytes())?;
    let others = others_word(chosen);
    let wider_other = count_of(Report::WiderForOther, spans);
    let narrower_other = count_of(Report::NarrowerForOther, spans);
    let there = other_sums(alloc, others, wider_other, narrower_other)?;
    put(lines, there.as_bytes())
}

/// Whether a span is reported.
fn has_told(imported: &Imported) -> bool
    ensures { result ≡ list_any (λ span. is_told span.kind) (import_value imported.now).spans }
{
    imported.spans.iter().any(is_told)
}

fn rule_count(imported: &Imported) -> usize
    ensures { result ≡ length (import_value imported.now).profile.rules }
{
    imported.profile.rules().len()
}

/// Adds the sums, if they are asked.
fn put_asked(
    lines: &mut Vec<u8>,
    alloc: Global,
    asked: bool,
    chosen: Subject,
    rules: usize,
    imported: &Imported,
) -> Result<(), NoMemory>
    ensures { IfOk result (λ _. lines.new.items ≡ lines.old.items
        ++ (if asked then sums_line chosen rules (import_value imported.now).spans else [])) }
{
    if asked {
        put_line(lines, alloc, chosen, rules, &imported.spans)
    } else {
        Ok(())
    }
}

/// Adds the sums, if a span is reported.
pub(crate) fn put_sums(
    lines: &mut Vec<u8>,
    alloc: Global,
    chosen: Subject,
    imported: &Imported,
) -> Result<(), NoMemory>
    ensures { IfOk result (λ _. lines.new.items ≡ lines.old.items ++ sums chosen (import_value imported.now)) }
{
    let told = has_told(imported);
    let rules = rule_count(imported);
    put_asked(lines, alloc, told, chosen, rules, imported)
}
