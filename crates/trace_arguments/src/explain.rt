//! What is asked of `explain`.
ghost use Rattle.std.specs.Prelude.{◌≡◌, ◌≤◌, IfOk, IfErr, is_some, Some, true, codes};
ghost use Rattle.clap.specs.Words.{found_of, rows_of};
ghost use Rattle.trace_arguments.specs.Choices.{is_chosen};
ghost use Rattle.trace_arguments.specs.CommandLine.{capacity, explain_command};
ghost use Rattle.trace_arguments.specs.Values.{capacity_of, command_value};
ghost use Rattle.trace_arguments.specs.inner.Parser.{IsAsked, choice_found, explain_read, flag_read};

use crate::choice::choice_in;
use crate::commands::EXPLAIN;
use crate::found::{flag_in, format_in, text_in};
use crate::line::{Command, LineFault};
use crate::parser::text_fault;
use crate::questions::{FlattenedQuestion, NameCommand, NameQuestion};
use clap::ArgMatches;
use std::alloc::Global;

/// The question of `explain`, by what the parser found.
pub(crate) fn explain_in<'a>(
    alloc: Global,
    found: &ArgMatches<'a>,
) -> Result<Command<'a>, LineFault>
    requires { IsAsked explain_command (rows_of (found_of found.now)) }
    ensures ok { IfOk result (λ command. explain_read (found_of found.now) ≡ Some (command_value command)) }
    ensures capacity { IfOk result (λ command. capacity_of (command_value command) ≤ capacity.most) }
    ensures err { IfErr result (λ fault.
        is_some (explain_read (found_of found.now)) ≡ true → fault ≡ LineFault.NoMemory) }
{
    let perms = text_in(found, "PERMS");
    let name = text_in(found, "NAME");
    let format = format_in(found);
    if flag_in(found, "flattened") {
        let choice = choice_in(alloc, &EXPLAIN, found)?;
        Ok(Command::ExplainFlattened(FlattenedQuestion {
            perms,
            name,
            format,
            choice,
        }))
    } else if is_chosen(found) {
        Err(text_fault(
            alloc,
            &EXPLAIN,
            "--profile, --owner, --for, --define and --override go with --flattened",
        ))
    } else {
        Ok(Command::Name(NameQuestion {
            command: NameCommand::Explain,
            perms,
            name,
            format,
            quiet: false,
        }))
    }
}

/// Whether an option is given that chooses a profile of a flattened text.
fn is_chosen(found: &ArgMatches) -> bool
    requires { is_some (flag_read (codes "override") (rows_of (found_of found.now))) ≡ true }
    ensures { result ≡ is_chosen (choice_found (found_of found.now)) }
{
    found.get_str("profile").is_some()
        || found.get_str("owner").is_some()
        || found.get_str("for").is_some()
        || found.get_strs("define").unwrap_or(&[]).first().is_some()
        || flag_in(found, "override")
}
