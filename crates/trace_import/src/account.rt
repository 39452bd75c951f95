//! The account of a text, and why a text is refused.
ghost use Rattle.std.specs.Prelude.{◌≡◌, ◌++◌, ◌-◌, IfOk, drop, map};
ghost use Rattle.std.specs.List.{before_first, flat_map};
ghost use Rattle.rule_explain.specs.Places.{is_line_feed};
ghost use Rattle.import_profile.specs.Told.{import_fault_value, import_value};
ghost use Rattle.trace_import.specs.Accounts.{account_text, all_lines, between, change_line, line_with, span_line};
ghost use Rattle.trace_import.specs.Import.{refusal_of};

use crate::sums::put_sums;
use crate::{RefusalLine, push_account_line, refusal_text};
use apparmor_rules::{Extent, Subject};
use import_origins::Places;
use import_profile::{ImportFault, Imported};
use import_spans::{Span, SpanKind};
use names::NoMemory;
use rule_explain::place_at;
use std::alloc::{AllocError, Global};

/// Which account is given of an import.
#[derive(Clone, Copy, Debug, PartialEq, Eq)]
pub enum AccountChoice {
    /// What changes for one of the subjects, each with its line of the text, and sums.
    Changes,
    /// All that isn't in the profile as it is in the text, each with its text.
    All,
    /// No account.
    Nothing,
}

/// How many bytes of a line are looked at.
const MOST_OF_LINE: usize = 512;

/// The bytes of a text from one place to another.
fn between(text: &[u8], start: usize, end: usize) -> &[u8]
    ensures { result.now ≡ between start end text.now }
{
    let (_, from) = text.split_at(start.min(text.len()));
    from.split_at(end.saturating_sub(start).min(from.len())).0
}

/// Adds the line that reports a span, if it is reported.
fn push_span<'t>(
    lines: &mut Vec<u8>,
    alloc: Global,
    text: &'t [u8],
    places: &mut Places<'t>,
    span: &Span,
) -> Result<(), NoMemory>
    requires { places.old ≡ text.now }
    ensures places { places.new ≡ places.old }
    ensures lines { IfOk result (λ _. lines.new.items ≡ lines.old.items ++ span_line text.now span.now) }
{
    let SpanKind::Told(told) = &span.kind else {
        return Ok(());
    };
    let place = places.place(span.start);
    let bytes = between(text, span.start, span.end);
    push_account_line(lines, alloc, place, told.whats(), told.effect(), bytes)
}

/// A line for each span that is reported.
fn all_lines(alloc: Global, text: &[u8], spans: &[Span]) -> Result<Vec<u8>, NoMemory>
    ensures { IfOk result (λ lines. lines.items ≡ all_lines text.now spans.now) }
{
    let mut lines = Vec::new(alloc);
    let mut places = Places::new(text);
    for span in spans {
        push_span(&mut lines, alloc, text, &mut places, span)?;
    }
    Ok(lines)
}

/// The bytes before the first line feed.
fn first_line(bytes: &[u8]) -> &[u8]
    ensures { result.now ≡ before_first is_line_feed bytes.now }
{
    let mut end = 0;
    while end < bytes.len() && bytes[end] != b'\n' {
        end += 1;
    }
    &bytes[..end]
}

/// The line of the text with the byte at `offset`, which is in this column of it, as much of it as is shown.
fn line_with(text: &[u8], offset: usize, column: usize) -> &[u8]
    ensures { result.now ≡ line_with text.now offset column }
{
    first_line(between(from_line(text, offset, column), 0, MOST_OF_LINE))
}

/// The text from the start of the line on that has the byte at `offset` in this column.
fn from_line(text: &[u8], offset: usize, column: usize) -> &[u8]
    ensures { result.now ≡ drop (offset - (column - 1)) text.now }
{
    let start = offset.saturating_sub(column.saturating_sub(1));
    text.split_at(start.min(text.len())).1
}

/// Adds the line that reports a span, if it changes something for one of the subjects.
fn push_change<'t>(
    lines: &mut Vec<u8>,
    alloc: Global,
    text: &'t [u8],
    places: &mut Places<'t>,
    span: &Span,
) -> Result<(), NoMemory>
    requires { places.old ≡ text.now }
    ensures places { places.new ≡ places.old }
    ensures lines { IfOk result (λ _. lines.new.items ≡ lines.old.items ++ change_line text.now span.now) }
{
    let SpanKind::Told(told) = &span.kind else {
        return Ok(());
    };
    let effect = told.effect();
    if effect.on_chosen == Extent::Exact && effect.on_other == Extent::Exact {
        return Ok(());
    }
    let place = places.place(span.start);
    let line = line_with(text, span.start, place.column);
    push_account_line(lines, alloc, place, told.whats(), effect, line)
}

/// A line for each span that changes something for one of the subjects.
fn changes_lines(alloc: Global, text: &[u8], spans: &[Span]) -> Result<Vec<u8>, NoMemory>
    ensures { IfOk result (λ lines. lines.items ≡ flat_map (change_line text.now) spans.now) }
{
    let mut lines = Vec::new(alloc);
    let mut places = Places::new(text);
    for span in spans {
        push_change(&mut lines, alloc, text, &mut places, span)?;
    }
    Ok(lines)
}

/// The account of a profile that was imported from a text for the chosen subject.
pub(crate) fn account_text(
    alloc: Global,
    account: AccountChoice,
    chosen: Subject,
    text: &[u8],
    imported: &Imported,
) -> Result<Vec<u8>, NoMemory>
    ensures { IfOk result (λ lines. lines.items ≡ account_text account chosen text.now (import_value imported.now)) }
{
    match account {
        AccountChoice::Changes => {
            let mut lines = changes_lines(alloc, text, &imported.spans)?;
            put_sums(&mut lines, alloc, chosen, imported)?;
            Ok(lines)
        }
        AccountChoice::All => all_lines(alloc, text, &imported.spans),
        AccountChoice::Nothing => Ok(Vec::new(alloc)),
    }
}

/// The names, borrowed.
fn lent(alloc: Global, names: &[Vec<u8>]) -> Result<Vec<&[u8]>, AllocError>
    ensures { IfOk result (λ lent. map (λ name. name.now) lent.items ≡ map (λ name. name.items) names.now) }
{
    let mut lent = Vec::new(alloc);
    for name in names {
        lent.push(name.as_slice())?;
    }
    Ok(lent)
}

/// Why a text is refused, without the line's end.
pub(crate) fn refusal_of(
    alloc: Global,
    text: &[u8],
    fault: &ImportFault<'_>,
) -> Result<Vec<u8>, NoMemory>
    ensures { IfOk result (λ told. told.items ≡ refusal_of text.now (import_fault_value fault.now)) }
{
    let line = RefusalLine {
        number: fault.number(),
        place: fault.place().map(|place| place_at(text, place)),
        word: fault.word(),
    };
    match lent(alloc, fault.names()) {
        Ok(names) => refusal_text(alloc, line, &names),
        Err(_) => Err(NoMemory),
    }
}
