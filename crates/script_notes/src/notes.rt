//! The notes on a script, line by line.
ghost use Rattle.std.specs.Prelude.{◌≡◌, ◌<◌, ◌++◌, ◌∷◌, ◌+◌, ◌^◌, ◌||◌, [], IfOk, length, option_map};
ghost use Rattle.std.specs.Option.{is_some};
ghost use Rattle.script_notes.specs.ScriptNotes.{control_by, control_in, control_notes, end_notes, line_notes, no_command_notes, notes_by};
ghost use Rattle.script_notes.specs.ScriptNotes.{policy_notes};
ghost use Rattle.script_notes.specs.ScriptNotes.{script_notes, section_after, section_by};
ghost use Rattle.script_notes.specs.ScriptLines.{says_in};
ghost use Rattle.trace_script.specs.Engine.{section_value};
ghost use Rattle.trace_script.specs.Script.{line_feed, lines_of};

use crate::control::{control_said, first_control};
use crate::line::{Says, Script, says_in};
use crate::misfit::why;
use crate::place::word_place;
use crate::text::{numbered, put_ended};
use names::{NoMemory, Separator, split_at};
use rule_explain::{fault_lines_from, place_lines};
use rule_reader::{ReadFault, read};
use std::alloc::Global;
use trace_script::Section;

/// What is said about a script in this language. For each policy whose text has a fault: where that is, and which. For a line that
/// is no command: what of it isn't understood. For the first line that has a control byte in a word, up to where the script stops:
/// that it belongs to the word.
#[tactic(auto, using(crate::proofs::NotedLines::goes_on))]
pub fn script_notes(alloc: Global, script: Script, text: &[u8]) -> Result<Vec<u8>, NoMemory>
    ensures { IfOk result (λ notes. notes.items ≡ script_notes script text.now) }
{
    let mut notes = Vec::new(alloc);
    let mut section = Section::Outside;
    let mut noted = false;
    let mut before: u64 = 0;
    let mut rest = text;
    while !rest.is_empty() {
        let (line, more) = first_line(rest);
        noted = note_control(&mut notes, alloc, script, noted, before + 1, &section, line)?;
        note_line(&mut notes, alloc, script, &section, before, line)?;
        match section_after(alloc, script, section, before + 1, line)? {
            Some(next) => section = next,
            None => return Ok(notes),
        }
        before += 1;
        rest = more;
    }
    note_end(&mut notes, alloc, &section)?;
    Ok(notes)
}

/// Line feeds, which separate lines.
#[derive(Debug, Drop)]
struct LineFeed;

impl Separator for LineFeed {
    ghost use Rattle.std.specs.Prelude.{◌==◌};
    ghost use Rattle.trace_script.specs.Script.{line_feed};

    ghost separates = { λ byte. byte == line_feed };

    fn separates(byte: u8) -> bool {
        byte == b'\n'
    }
}

/// The first line of a text, and what follows its line feed.
fn first_line(text: &[u8]) -> (&[u8], &[u8])
    requires { 0 < length text.now }
    ensures lines { lines_of text.now ≡ result.0.now ∷ lines_of result.1.now }
    ensures shorter { length result.1.now < length text.now }
{
    let (line, from) = split_at::<LineFeed>(text);
    match from {
        [] => (line, from),
        [_, more @ ..] => (line, more),
    }
}

/// Notes a control byte in a word of a line, unless one was noted before. Returns whether one is noted.
fn note_control(
    notes: &mut Vec<u8>,
    alloc: Global,
    script: Script,
    noted: bool,
    number: u64,
    section: &Section,
    line: &[u8],
) -> Result<bool, NoMemory>
    ensures notes { IfOk result (λ _. notes.new.items
        ≡ notes.old.items ++ control_notes noted number (control_in script (section_value section.now) number line.now)) }
    ensures noted { IfOk result (λ now. now ≡ (noted || is_some (control_in script (section_value section.now) number line.now))) }
{
    if noted {
        return Ok(true);
    }
    match control_in(alloc, script, section, number, line)? {
        Some(byte) => {
            let said = control_said(alloc, number, byte)?;
            put_ended(notes, &said)?;
            Ok(true)
        }
        None => Ok(false),
    }
}

/// The first control byte in a word of a line.
fn control_in(
    alloc: Global,
    script: Script,
    section: &Section,
    number: u64,
    line: &[u8],
) -> Result<Option<u8>, NoMemory>
    ensures { IfOk result (λ found. found ≡ control_in script (section_value section.now) number line.now) }
{
    match section {
        Section::Outside => {
            let says = says_in(alloc, script, number, line)?;
            Ok(control_by(says, line))
        }
        Section::Within { .. } => Ok(None),
    }
}

/// The first control byte in a word of a line outside of policies, by what it says.
fn control_by(says: Says, line: &[u8]) -> Option<u8>
    ensures { result ≡ control_by says line.now }
{
    match says {
        Says::Nothing => None,
        Says::OpensPolicy | Says::Command | Says::NoCommand => first_control(line),
    }
}

/// Notes what is said about a line, before which there are this many, by itself.
fn note_line(
    notes: &mut Vec<u8>,
    alloc: Global,
    script: Script,
    section: &Section,
    before: u64,
    line: &[u8],
) -> Result<(), NoMemory>
    requires { before + 1 < 2 ^ 64 }
    ensures { IfOk result (λ _. notes.new.items
        ≡ notes.old.items ++ line_notes script (section_value section.now) before line.now) }
{
    match section {
        Section::Outside => note_command(notes, alloc, script, before, line),
        Section::Within { start, text } => {
            if line == b".".as_slice() {
                note_policy(notes, alloc, *start, text)
            } else {
                Ok(())
            }
        }
    }
}

/// Notes what isn't understood of a line outside of policies that is no command.
fn note_command(
    notes: &mut Vec<u8>,
    alloc: Global,
    script: Script,
    before: u64,
    line: &[u8],
) -> Result<(), NoMemory>
    requires { before + 1 < 2 ^ 64 }
    ensures { IfOk result (λ _. notes.new.items
        ≡ notes.old.items ++ notes_by script (says_in script (before + 1) line.now) before line.now) }
{
    match says_in(alloc, script, before + 1, line)? {
        Says::NoCommand => note_no_command(notes, alloc, script, before, line),
        Says::Nothing | Says::OpensPolicy | Says::Command => Ok(()),
    }
}

/// Notes what isn't understood of a line that is no command.
fn note_no_command(
    notes: &mut Vec<u8>,
    alloc: Global,
    script: Script,
    before: u64,
    line: &[u8],
) -> Result<(), NoMemory>
    ensures { IfOk result (λ _. notes.new.items ≡ notes.old.items ++ no_command_notes script before line.now) }
{
    let misfit = why(alloc, script, line)?;
    let place = word_place(line, misfit.word);
    let lines = place_lines(alloc, before, line, place, &misfit.said)?;
    put_ended(notes, &lines)
}

/// Notes where the text of a policy that the line of this number opens has a fault, and which.
fn note_policy(notes: &mut Vec<u8>, alloc: Global, start: u64, text: &[u8]) -> Result<(), NoMemory>
    ensures { IfOk result (λ _. notes.new.items ≡ notes.old.items ++ policy_notes start text.now) }
{
    match read(alloc, text) {
        Ok(_) => Ok(()),
        Err(ReadFault::NoMemory) => Err(NoMemory),
        Err(fault) => {
            let lines = fault_lines_from(alloc, start, text, fault)?;
            put_ended(notes, &lines)
        }
    }
}

/// The section after a line of this number, or none where the script stops.
fn section_after(
    alloc: Global,
    script: Script,
    section: Section,
    number: u64,
    line: &[u8],
) -> Result<Option<Section>, NoMemory>
    ensures { IfOk result (λ next. option_map section_value next
        ≡ section_after script (section_value section) number line.now) }
{
    match section {
        Section::Outside => {
            let says = says_in(alloc, script, number, line)?;
            Ok(section_by(alloc, says, number))
        }
        Section::Within { start, text } => {
            if line == b".".as_slice() {
                return Ok(Some(Section::Outside));
            }
            let text = with_line(text, line)?;
            Ok(Some(Section::Within { start, text }))
        }
    }
}

/// The section after a line outside of policies.
fn section_by(alloc: Global, says: Says, number: u64) -> Option<Section>
    ensures { option_map section_value result ≡ section_by says number }
{
    match says {
        Says::Nothing | Says::Command => Some(Section::Outside),
        Says::OpensPolicy => Some(Section::Within {
            start: number,
            text: Vec::new(alloc),
        }),
        Says::NoCommand => None,
    }
}

/// The text with one more line.
fn with_line(text: Vec<u8>, line: &[u8]) -> Result<Vec<u8>, NoMemory>
    ensures { IfOk result (λ longer. longer.items ≡ text.items ++ (line.now ++ line_feed ∷ [])) }
{
    let mut longer = text;
    if longer.extend_from_slice(line).is_err() || longer.push(b'\n').is_err() {
        return Err(NoMemory);
    }
    Ok(longer)
}

/// Notes a policy that isn't closed at the end of the script.
fn note_end(notes: &mut Vec<u8>, alloc: Global, section: &Section) -> Result<(), NoMemory>
    ensures { IfOk result (λ _. notes.new.items ≡ notes.old.items ++ end_notes (section_value section.now)) }
{
    match section {
        Section::Outside => Ok(()),
        Section::Within { start, .. } => {
            let said = numbered(
                alloc,
                "line ",
                *start,
                ": the policy that begins here has no end, which is a line with a single dot",
            )?;
            put_ended(notes, &said)
        }
    }
}
