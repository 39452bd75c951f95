//! Commands, as the parser is given them.
ghost use Rattle.std.specs.Prelude.{◌≡◌, IfOk, true, fold, map};
ghost use Rattle.clap.specs.Words.{app_of, with_subcommand};
ghost use Rattle.trace_forms.specs.Parser.{app_of_form, argument_form, argument_rule, option_form, option_rule, with_form, with_rules};

use crate::arguments::{option_argument, place_argument};
use crate::forms::{ArgumentForm, CommandForm, OptionForm};
use clap::Command;
use std::alloc::{AllocError, Global};

/// A program with more commands. Each is added before the next one is made, so that only one command at a time has to be dropped if
/// memory is refused.
pub fn with_commands<'a>(
    program: Command<'a>,
    alloc: Global,
    forms: &[CommandForm],
) -> Result<Command<'a>, AllocError>
    ensures { IfOk result (λ more. app_of more ≡ fold with_form (app_of program.entry) forms.now) }
{
    let mut more = program;
    for form in forms {
        more = with_command(more, alloc, form)?;
    }
    Ok(more)
}

/// The program with one more command.
fn with_command<'a>(
    program: Command<'a>,
    alloc: Global,
    form: &CommandForm,
) -> Result<Command<'a>, AllocError>
    ensures { IfOk result (λ more. app_of more ≡ with_form (app_of program.entry) form.now) }
{
    let command = command_of(alloc, form)?;
    with_one(program, command)
}

/// The program with a command.
fn with_one<'a>(program: Command<'a>, command: Command<'a>) -> Result<Command<'a>, AllocError>
    requires { (app_of command).top.is_plain ≡ true }
    ensures { IfOk result (λ more. app_of more ≡ with_subcommand (app_of program.entry) (app_of command.entry).top) }
{
    program.subcommand(command)
}

/// A command by its form.
pub fn command_of<'a>(alloc: Global, form: &CommandForm) -> Result<Command<'a>, AllocError>
    ensures { IfOk result (λ command. app_of command ≡ app_of_form form.now) }
{
    let bare = Command::new(alloc, form.name)
        .about(form.about)
        .after_help(form.examples);
    let command = with_options(bare, alloc, form.options)?;
    with_arguments(command, alloc, form.arguments)
}

/// A command with more options.
fn with_options<'a>(
    bare: Command<'a>,
    alloc: Global,
    options: &[OptionForm],
) -> Result<Command<'a>, AllocError>
    ensures { IfOk result (λ command.
        app_of command ≡ with_rules (app_of bare.entry) (map option_rule (map option_form options.now))) }
{
    let mut command = bare;
    for option in options {
        command = command.arg(option_argument(alloc, *option))?;
    }
    Ok(command)
}

/// A command with more arguments.
fn with_arguments<'a>(
    bare: Command<'a>,
    alloc: Global,
    arguments: &[ArgumentForm],
) -> Result<Command<'a>, AllocError>
    ensures { IfOk result (λ command.
        app_of command ≡ with_rules (app_of bare.entry) (map argument_rule (map argument_form arguments.now))) }
{
    let mut command = bare;
    for argument in arguments {
        command = command.arg(place_argument(alloc, *argument))?;
    }
    Ok(command)
}
