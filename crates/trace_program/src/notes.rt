//! `--verbose`: notes on what a command refused, on standard error after its own message; those of `explain --flattened` are always
//! written.
ghost use Rattle.std.specs.Prelude.{◌≡◌, ◌⊎◌, IfOk};
ghost use Rattle.std.specs.Io.KnownBytes.{Appends};
ghost use Rattle.trace_arguments.specs.Values.{command_value, line_value};
ghost use Rattle.trace_program.specs.Notes.{AreNotesOf, AreRefusalNotes, AreScriptNotes, NotesFollow, explains, has_notes};
ghost use Rattle.trace_program.specs.Notes.{may_have_notes};
ghost use Rattle.trace_report.specs.Streams.{AppendsFront};
ghost use Rattle.trace_report.specs.declared.status.Status.TheVariants.{FaultsFailed};

use crate::import::{notes_on_flattened, notes_on_import};
use fault_notes::{image_notes, profile_notes};
use names::NoMemory;
use script_notes::{Script, script_notes};
use std::alloc::Global;
use std::io::Write;
use trace_arguments::{Command, Line, NameCommand};
use trace_commands::can_be_judged;
use trace_report::{Status, fail, write_through};

/// Whether there may be notes on what is on standard input: for `--verbose`, or as a part of what the command says.
pub(crate) fn has_notes(line: &Line<'_>) -> bool
    ensures { result ≡ has_notes (line_value line.now) }
{
    (line.verbose || explains(&line.command)) && may_have_notes(&line.command)
}

/// Whether a command explains a text that it refuses, without being asked to.
fn explains(command: &Command<'_>) -> bool
    ensures { result ≡ explains (command_value command.now) }
{
    matches!(command, Command::ExplainFlattened(_))
}

/// Whether there may be notes on a command: not if its bad arguments say that nothing is read.
fn may_have_notes(command: &Command<'_>) -> bool
    ensures { result ≡ may_have_notes (command_value command.now) }
{
    match command {
        Command::Name(asked) => match asked.command {
            NameCommand::Explain => false,
            NameCommand::Judge | NameCommand::Match => can_be_judged(asked.perms, asked.name),
        },
        Command::ExplainFlattened(asked) => can_be_judged(asked.perms, asked.name),
        Command::Compile { .. }
        | Command::Check
        | Command::Run { .. }
        | Command::Test { .. }
        | Command::Steps { .. }
        | Command::Import(_) => true,
        _ => false,
    }
}

/// Writes the notes on a command that ended so over this text, and returns how the program ends.
pub(crate) fn write_notes<F: Write>(
    alloc: Global,
    command: &Command<'_>,
    text: &[u8],
    first: Status,
    faults: &mut F,
) -> Status
    ensures { NotesFollow (AreNotesOf (command_value command.now) text.now) (F.contents faults.old) (F.contents faults.new) first result }
{
    match notes_on(alloc, command, text, first) {
        Ok(notes) => append_notes(&notes, first, faults),
        Err(NoMemory) => fail(faults, NoMemory, Status::NoMemory),
    }
}

/// Appends notes to what was reported. If that fails, a prefix of them was written.
fn append_notes<F: Write>(notes: &[u8], first: Status, faults: &mut F) -> Status
    ensures { ((result ≡ first) × Appends (F.contents faults.old) (F.contents faults.new) notes.now)
        ⊎ ((result ≡ FaultsFailed) × AppendsFront (F.contents faults.old) (F.contents faults.new) notes.now) }
{
    match write_through(faults, notes) {
        Ok(()) => first,
        Err(_) => Status::FaultsFailed,
    }
}

/// The notes on a command that ended so over this text.
fn notes_on(
    alloc: Global,
    command: &Command<'_>,
    text: &[u8],
    first: Status,
) -> Result<Vec<u8>, NoMemory>
    ensures { IfOk result (λ notes. AreNotesOf (command_value command.now) text.now first notes.items) }
{
    match first {
        Status::Refused => notes_on_refusal(alloc, command, text),
        Status::Done | Status::Unmet => notes_on_script(alloc, command, text),
        _ => Ok(Vec::new(alloc)),
    }
}

/// The notes on a command that refused this text.
fn notes_on_refusal(alloc: Global, command: &Command<'_>, text: &[u8]) -> Result<Vec<u8>, NoMemory>
    ensures { IfOk result (λ notes. AreRefusalNotes (command_value command.now) text.now notes.items) }
{
    match command {
        Command::Name(asked) => match asked.command {
            NameCommand::Judge => profile_notes(alloc, text),
            NameCommand::Match => image_notes(alloc, text),
            NameCommand::Explain => Ok(Vec::new(alloc)),
        },
        Command::Compile { .. } => profile_notes(alloc, text),
        Command::Check => image_notes(alloc, text),
        Command::Import(asked) => notes_on_import(alloc, asked, text),
        Command::ExplainFlattened(asked) => notes_on_flattened(alloc, &asked.choice, text),
        _ => notes_on_script(alloc, command, text),
    }
}

/// The notes on a script, in which profiles may have been refused.
fn notes_on_script(alloc: Global, command: &Command<'_>, text: &[u8]) -> Result<Vec<u8>, NoMemory>
    ensures { IfOk result (λ notes. AreScriptNotes (command_value command.now) text.now notes.items) }
{
    match command {
        Command::Run { .. } => script_notes(alloc, Script::Run, text),
        Command::Test { .. } => script_notes(alloc, Script::Test, text),
        Command::Steps { .. } => script_notes(alloc, Script::Steps, text),
        _ => Ok(Vec::new(alloc)),
    }
}
