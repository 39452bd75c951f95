//! The line of each command, by what the parser found.
ghost use Rattle.std.specs.Prelude.{◌≤◌, IfOk};
ghost use Rattle.clap.specs.Words.{found_of, rows_of};
ghost use Rattle.trace_arguments.specs.CommandLine.{all_command, any_command, audit_command, check_command, compile_command, capacity};
ghost use Rattle.trace_arguments.specs.CommandLine.{diff_command, lint_command, names_command, run_command, steps_command};
ghost use Rattle.trace_arguments.specs.CommandLine.{storm_command, test_command};
ghost use Rattle.trace_arguments.specs.Values.{capacity_of, command_value, line_value};
ghost use Rattle.trace_arguments.specs.inner.Parser.{IsAsked, IsLineBy, command_of_name};

use crate::commands::{CAPACITY, CHANGES, DEPTH, OPENS, SESSIONS};
use crate::found::{each_rule_in, flag_in, format_in, number_in, text_in, texts_in};
use crate::line::{Command, Line, StormSize};
use crate::questions::{
    AuditQuestion, DiffQuestion, NameCommand, NameQuestion, NamesQuestion, ProfileQuestion,
};
use clap::ArgMatches;
use std::alloc::{AllocError, Global};

/// The line of `judge` or `match`, by what the parser found.
pub(crate) fn name_in<'a>(command: NameCommand, found: &ArgMatches<'a>) -> Line<'a>
    requires { IsAsked (command_of_name command) (rows_of (found_of found.now)) }
    ensures line { IsLineBy (command_of_name command) (rows_of (found_of found.now)) (line_value result) }
    ensures capacity { capacity_of (command_value result.command) ≤ capacity.most }
{
    Line {
        command: Command::Name(NameQuestion {
            command,
            perms: text_in(found, "PERMS"),
            name: text_in(found, "NAME"),
            format: format_in(found),
            quiet: flag_in(found, "quiet"),
        }),
        verbose: flag_in(found, "verbose"),
    }
}

/// The line of `any`.
pub(crate) fn any_in<'a>(found: &ArgMatches<'a>) -> Line<'a>
    requires { IsAsked any_command (rows_of (found_of found.now)) }
    ensures { IsLineBy any_command (rows_of (found_of found.now)) (line_value result) }
{
    Line {
        command: Command::Profile(ProfileQuestion::Any {
            perms: text_in(found, "PERMS"),
            pattern: text_in(found, "PATTERN"),
            each_rule: each_rule_in(found),
            format: format_in(found),
        }),
        verbose: false,
    }
}

/// The line of `all`.
pub(crate) fn all_in<'a>(found: &ArgMatches<'a>) -> Line<'a>
    requires { IsAsked all_command (rows_of (found_of found.now)) }
    ensures { IsLineBy all_command (rows_of (found_of found.now)) (line_value result) }
{
    Line {
        command: Command::Profile(ProfileQuestion::All {
            perms: text_in(found, "PERMS"),
            pattern: text_in(found, "PATTERN"),
            format: format_in(found),
        }),
        verbose: false,
    }
}

/// The line of `diff`.
pub(crate) fn diff_in<'a>(found: &ArgMatches<'a>) -> Line<'a>
    requires { IsAsked diff_command (rows_of (found_of found.now)) }
    ensures { IsLineBy diff_command (rows_of (found_of found.now)) (line_value result) }
{
    Line {
        command: Command::Profile(ProfileQuestion::Diff(DiffQuestion {
            old: text_in(found, "OLD"),
            new: found.get_str("NEW"),
            below: found.get_str("below"),
            each_rule: each_rule_in(found),
            format: format_in(found),
        })),
        verbose: false,
    }
}

/// The line of `lint`.
pub(crate) fn lint_in<'a>(found: &ArgMatches<'a>) -> Line<'a>
    requires { IsAsked lint_command (rows_of (found_of found.now)) }
    ensures { IsLineBy lint_command (rows_of (found_of found.now)) (line_value result) }
{
    Line {
        command: Command::Profile(ProfileQuestion::Lint {
            format: format_in(found),
        }),
        verbose: false,
    }
}

/// The line of `run`.
pub(crate) fn run_in<'a>(found: &ArgMatches<'a>) -> Line<'a>
    requires { IsAsked run_command (rows_of (found_of found.now)) }
    ensures line { IsLineBy run_command (rows_of (found_of found.now)) (line_value result) }
    ensures capacity { capacity_of (command_value result.command) ≤ capacity.most }
{
    Line {
        command: Command::Run {
            capacity: number_in(found, CAPACITY.name),
        },
        verbose: flag_in(found, "verbose"),
    }
}

/// The line of `test`.
pub(crate) fn test_in<'a>(found: &ArgMatches<'a>) -> Line<'a>
    requires { IsAsked test_command (rows_of (found_of found.now)) }
    ensures line { IsLineBy test_command (rows_of (found_of found.now)) (line_value result) }
    ensures capacity { capacity_of (command_value result.command) ≤ capacity.most }
{
    Line {
        command: Command::Test {
            capacity: number_in(found, CAPACITY.name),
            format: format_in(found),
            answers: flag_in(found, "answers"),
        },
        verbose: flag_in(found, "verbose"),
    }
}

/// The line of `compile`.
pub(crate) fn compile_in<'a>(found: &ArgMatches<'a>) -> Line<'a>
    requires { IsAsked compile_command (rows_of (found_of found.now)) }
    ensures { IsLineBy compile_command (rows_of (found_of found.now)) (line_value result) }
{
    Line {
        command: Command::Compile {
            // The parser takes no depth over 64.
            depth: number_in(found, DEPTH.name) as u16,
        },
        verbose: flag_in(found, "verbose"),
    }
}

/// The line of `check`.
pub(crate) fn check_in<'a>(found: &ArgMatches<'a>) -> Line<'a>
    requires { IsAsked check_command (rows_of (found_of found.now)) }
    ensures { IsLineBy check_command (rows_of (found_of found.now)) (line_value result) }
{
    Line {
        command: Command::Check,
        verbose: flag_in(found, "verbose"),
    }
}

/// The line of `steps`.
pub(crate) fn steps_in<'a>(found: &ArgMatches<'a>) -> Line<'a>
    requires { IsAsked steps_command (rows_of (found_of found.now)) }
    ensures line { IsLineBy steps_command (rows_of (found_of found.now)) (line_value result) }
    ensures capacity { capacity_of (command_value result.command) ≤ capacity.most }
{
    Line {
        command: Command::Steps {
            capacity: number_in(found, CAPACITY.name),
        },
        verbose: flag_in(found, "verbose"),
    }
}

/// The line of `storm`.
pub(crate) fn storm_in<'a>(found: &ArgMatches<'a>) -> Line<'a>
    requires { IsAsked storm_command (rows_of (found_of found.now)) }
    ensures { IsLineBy storm_command (rows_of (found_of found.now)) (line_value result) }
{
    Line {
        command: Command::Storm(StormSize {
            sessions: number_in(found, SESSIONS.name),
            opens: number_in(found, OPENS.name),
            changes: number_in(found, CHANGES.name),
        }),
        verbose: false,
    }
}

/// The line of `names`.
pub(crate) fn names_in<'a>(found: &ArgMatches<'a>) -> Line<'a>
    requires { IsAsked names_command (rows_of (found_of found.now)) }
    ensures { IsLineBy names_command (rows_of (found_of found.now)) (line_value result) }
{
    Line {
        command: Command::Names(NamesQuestion {
            perms: text_in(found, "PERMS"),
            profile: text_in(found, "PROFILE"),
            not_allowed: flag_in(found, "not-allowed"),
            verdicts: flag_in(found, "verdict"),
            null: flag_in(found, "null"),
        }),
        verbose: false,
    }
}

/// The line of `audit`.
pub(crate) fn audit_in<'a>(alloc: Global, found: &ArgMatches<'a>) -> Result<Line<'a>, AllocError>
    requires { IsAsked audit_command (rows_of (found_of found.now)) }
    ensures { IfOk result (λ line. IsLineBy audit_command (rows_of (found_of found.now)) (line_value line)) }
{
    let profiles = texts_in(alloc, found, "PROFILES")?;
    Ok(Line {
        command: Command::Audit(AuditQuestion {
            profiles,
            format: format_in(found),
        }),
        verbose: false,
    })
}
