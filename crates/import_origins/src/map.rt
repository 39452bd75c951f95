//! Maps of a profile's rules to the places that they come from.
ghost use Rattle.std.specs.Prelude.{◌≡◌, ◌++◌, IfOk, option_map, string_bytes, decimal, codes};
ghost use Rattle.import_origins.specs.Included.{marks_of};
ghost use Rattle.import_origins.specs.Origins.{file_mapped, map_line, map_lines};
ghost use Rattle.rule_profile.specs.declared.profile.Span.{Span as SpanValue};
ghost use Rattle.rule_profile.specs.RuleSpans.{profile_spans};

use crate::included::IncludedFiles;
use crate::places::{Places, push_place};
use crate::put::{push_shown, put};
use names::NoMemory;
use rule_profile::{Profile, Span};
use std::alloc::Global;

/// A line for each rule of a profile whose spans are in this text: `177 612:3 <abstractions/nameservice>`, the rule's number, the
/// line and the column of its span's start, and the file that the text names last before that, if it names one.
pub fn map_lines(alloc: Global, text: &[u8], profile: &Profile) -> Result<Vec<u8>, NoMemory>
    ensures { IfOk result (λ lines. lines.items ≡ map_lines text.now (profile_spans profile.now)) }
{
    let files = IncludedFiles::of(alloc, text)?;
    let mut places = Places::new(text);
    let mut lines = Vec::new(alloc);
    for (i, rule) in profile.rules().iter().enumerate() {
        push_line(&mut lines, alloc, &mut places, &files, i + 1, rule.span())?;
    }
    Ok(lines)
}

/// Adds the line of the rule with this number.
fn push_line<'t>(
    lines: &mut Vec<u8>,
    alloc: Global,
    places: &mut Places<'t>,
    files: &IncludedFiles<'t>,
    number: usize,
    span: Span,
) -> Result<(), NoMemory>
    requires { files.now ≡ marks_of places.old }
    ensures places { places.new ≡ places.old }
    ensures line { IfOk result (λ _. lines.new.items ≡ lines.old.items ++ map_line places.old number span) }
{
    put_number(lines, alloc, number)?;
    push_place(lines, alloc, places.place(span.start))?;
    put_file(lines, files.before(span.start))?;
    put(lines, b"\n")
}

/// Adds a number and a space.
fn put_number(lines: &mut Vec<u8>, alloc: Global, number: usize) -> Result<(), NoMemory>
    ensures { IfOk result (λ _. lines.new.items ≡ lines.old.items ++ (decimal number ++ codes " ")) }
{
    match format!(in alloc; "{number} ") {
        Ok(text) => put(lines, text.as_bytes()),
        Err(_) => Err(NoMemory),
    }
}

/// Adds a space and the file, if there is one.
fn put_file(lines: &mut Vec<u8>, file: Option<&[u8]>) -> Result<(), NoMemory>
    ensures { IfOk result (λ _. lines.new.items ≡ lines.old.items ++ file_mapped (option_map (λ file. file.now) file.entry)) }
{
    match file {
        Some(file) => {
            put(lines, b" ")?;
            push_shown(lines, file)
        }
        None => Ok(()),
    }
}
