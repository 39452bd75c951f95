//! The program, as the parser of words knows it.
ghost use Rattle.std.specs.Prelude.{◌≡◌, IfOk, fold};
ghost use Rattle.clap.specs.Words.{app_of};
ghost use Rattle.trace_arguments.specs.CommandLine.{event_commands, image_commands, list_commands, profile_commands};
ghost use Rattle.trace_arguments.specs.CommandLine.{question_commands, script_commands};
ghost use Rattle.trace_arguments.specs.inner.Parser.{program_app, with_command};

use crate::commands::{
    EVENT_COMMANDS, IMAGE_COMMANDS, LIST_COMMANDS, PROFILE_COMMANDS, QUESTION_COMMANDS,
    SCRIPT_COMMANDS,
};
use crate::line::LineFault;
use clap::Command;
use clap::error::ErrorKind;
use std::alloc::{AllocError, Global};
use trace_forms::{CommandForm, command_of, with_commands};

/// The version that `--version` prints.
const VERSION: &str = "0.1.0";

/// What `--help` shows after the commands and options.
const EXAMPLES: &str =
    "Examples:\n  aa-trace explain rw /etc/passwd < web.profile\n  aa-trace help explain";

/// The program with its commands.
pub(crate) fn program<'a>(alloc: Global) -> Result<Command<'a>, AllocError>
    ensures { IfOk result (λ command. app_of command ≡ program_app) }
{
    let bare = Command::new(alloc, "aa-trace")
        .about("Judges names by profiles of file rules")
        .after_help(EXAMPLES)
        .version(VERSION)
        .subcommand_required(true);
    let judging = with_profile_commands(bare, alloc)?;
    let asking = with_question_commands(judging, alloc)?;
    let running = with_script_commands(asking, alloc)?;
    let compiling = with_image_commands(running, alloc)?;
    let stepping = with_event_commands(compiling, alloc)?;
    with_list_commands(stepping, alloc)
}

/// The program with the commands of one name and a profile.
fn with_profile_commands<'a>(program: Command<'a>, alloc: Global) -> Result<Command<'a>, AllocError>
    ensures { IfOk result (λ more. app_of more ≡ fold with_command (app_of program.entry) profile_commands) }
{
    with_commands(program, alloc, PROFILE_COMMANDS)
}

/// The program with the commands of all names.
fn with_question_commands<'a>(
    program: Command<'a>,
    alloc: Global,
) -> Result<Command<'a>, AllocError>
    ensures { IfOk result (λ more. app_of more ≡ fold with_command (app_of program.entry) question_commands) }
{
    with_commands(program, alloc, QUESTION_COMMANDS)
}

/// The program with the commands of a script.
fn with_script_commands<'a>(program: Command<'a>, alloc: Global) -> Result<Command<'a>, AllocError>
    ensures { IfOk result (λ more. app_of more ≡ fold with_command (app_of program.entry) script_commands) }
{
    with_commands(program, alloc, SCRIPT_COMMANDS)
}

/// The program with the commands of the image of a profile.
fn with_image_commands<'a>(program: Command<'a>, alloc: Global) -> Result<Command<'a>, AllocError>
    ensures { IfOk result (λ more. app_of more ≡ fold with_command (app_of program.entry) image_commands) }
{
    with_commands(program, alloc, IMAGE_COMMANDS)
}

/// The program with the commands of single events and of threads.
fn with_event_commands<'a>(program: Command<'a>, alloc: Global) -> Result<Command<'a>, AllocError>
    ensures { IfOk result (λ more. app_of more ≡ fold with_command (app_of program.entry) event_commands) }
{
    with_commands(program, alloc, EVENT_COMMANDS)
}

/// The program with the commands of a flattened text, of a list of names and of a log.
fn with_list_commands<'a>(program: Command<'a>, alloc: Global) -> Result<Command<'a>, AllocError>
    ensures { IfOk result (λ more. app_of more ≡ fold with_command (app_of program.entry) list_commands) }
{
    with_commands(program, alloc, LIST_COMMANDS)
}

/// The fault of an option of a command whose text isn't one that it takes.
pub(crate) fn text_fault(alloc: Global, form: &CommandForm, told: &str) -> LineFault {
    match text_error(alloc, form, told) {
        Ok(error) => LineFault::Usage(error),
        Err(_) => LineFault::NoMemory,
    }
}

fn text_error(alloc: Global, form: &CommandForm, told: &str) -> Result<clap::Error, AllocError> {
    let name = format!(in alloc; "aa-trace {}", form.name)?;
    let mut command = command_of(alloc, form)?.bin_name(&name)?;
    command.error(ErrorKind::ValueValidation, told)
}
