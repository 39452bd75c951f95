//! What the words of a command line ask for.
ghost use Rattle.std.specs.Prelude.{◌≡◌, ◌≤◌, IfOk, IfErr, is_some, Some, true, map};
ghost use Rattle.trace_arguments.specs.CommandLine.{capacity, line_of};
ghost use Rattle.trace_arguments.specs.Values.{capacity_of, command_value, line_fault_number, line_value};
ghost use Rattle.trace_arguments.specs.inner.Parser.{IsLineFaultOf, IsReadAs};

use crate::explain::explain_in;
use crate::found::flag_in;
use crate::import::{ImportOptions, import_in};
use crate::lines::{
    all_in, any_in, audit_in, check_in, compile_in, diff_in, lint_in, name_in, names_in, run_in,
    steps_in, storm_in, test_in,
};
use crate::parser::program;
use crate::questions::{
    AuditQuestion, FlattenedQuestion, NameCommand, NameQuestion, NamesQuestion, ProfileQuestion,
};
use clap::ArgMatches;
use clap::error::ErrorKind;
use names::NoMemory;
use std::alloc::{AllocError, Global};
use std::convert::AsStr;
use thiserror::Error;
use trace_report::Format;

/// What the words of a command line ask for.
#[derive(Debug, Drop, PartialEq, Eq)]
pub struct Line<'a> {
    pub command: Command<'a>,
    /// Whether notes on what is refused are written: `-v`, which `judge`, `match`, `run`, `test`, `compile`, `check`, `steps` and
    /// `import` have. False with any other command.
    pub verbose: bool,
}

/// A command, with what it is asked for.
#[derive(Debug, Drop, PartialEq, Eq)]
pub enum Command<'a> {
    /// `judge`, `explain` and `match`: a question about one name.
    Name(NameQuestion<'a>),
    /// `explain --flattened`: a question about one name and a profile of a flattened text.
    ExplainFlattened(FlattenedQuestion<'a>),
    /// `any`, `all`, `diff` and `lint`: a question about all names.
    Profile(ProfileQuestion<'a>),
    /// `run [-v] [--capacity N]`
    Run {
        capacity: u32,
    },
    /// `test [-v] [--answers] [--capacity N] [--json]`
    Test {
        capacity: u32,
        format: Format,
        /// Whether each answer of the script is written.
        answers: bool,
    },
    /// `compile [-v] [--depth N]`
    Compile {
        depth: u16,
    },
    /// `check [-v]`
    Check,
    /// `steps [-v] [--capacity N]`
    Steps {
        capacity: u32,
    },
    /// `storm [--sessions N] [--opens N] [--changes N]`
    Storm(StormSize),
    /// `import`, of a flattened text.
    Import(ImportOptions<'a>),
    /// `names`: a question about a list of names.
    Names(NamesQuestion<'a>),
    /// `audit`: a question about the lines of a log.
    Audit(AuditQuestion<'a>),
}

/// The size of a storm.
#[derive(Clone, Copy, Debug, PartialEq, Eq)]
pub struct StormSize {
    pub sessions: u32,
    /// How often each session opens.
    pub opens: u32,
    /// How often the tree is changed meanwhile, and the policy.
    pub changes: u32,
}

/// Why a command line can't be followed.
#[derive(Debug, Drop, Error)]
pub enum LineFault {
    /// The words aren't a command, or ask for help. The text ends with a line break.
    #[error("{0}")]
    Usage(clap::Error),
    /// Memory was refused; nothing is said about the words.
    #[error("{}", NoMemory)]
    NoMemory,
}

impl LineFault {
    /// The number of the kind of fault, 1 or 2.
    pub fn number(&self) -> u16
        ensures { result ≡ line_fault_number self.now }
    {
        match self {
            LineFault::Usage(_) => 1,
            LineFault::NoMemory => 2,
        }
    }
}

impl From<clap::Error> for LineFault {
    ghost from_gives = { IsLineFaultOf };

    fn from(error: clap::Error) -> LineFault {
        if error.kind() == ErrorKind::OutOfMemory {
            LineFault::NoMemory
        } else {
            LineFault::Usage(error)
        }
    }
}

impl From<AllocError> for LineFault {
    ghost use Rattle.trace_arguments.specs.declared.line.LineFault.TheVariants.{NoMemory};

    ghost from_gives = { λ _ fault. fault ≡ NoMemory };

    fn from(_error: AllocError) -> LineFault {
        LineFault::NoMemory
    }
}

/// Reads the words of a command line, of which the first is the program's name.
pub fn command_line<'a, S: AsStr>(alloc: Global, words: &'a [S]) -> Result<Line<'a>, LineFault>
    ensures ok { IfOk result (λ line. line_of (map S.text words.now) ≡ Some (line_value line)) }
    ensures capacity { IfOk result (λ line. capacity_of (command_value line.command) ≤ capacity.most) }
    ensures err { IfErr result (λ fault.
        is_some (line_of (map S.text words.now)) ≡ true → fault ≡ LineFault.NoMemory) }
{
    let matches = matches_of(alloc, words)?;
    let (command, found) = matches.subcommand().unwrap();
    match command {
        "judge" => Ok(name_in(NameCommand::Judge, found)),
        "explain" => Ok(Line {
            command: explain_in(alloc, found)?,
            verbose: false,
        }),
        "any" => Ok(any_in(found)),
        "all" => Ok(all_in(found)),
        "diff" => Ok(diff_in(found)),
        "lint" => Ok(lint_in(found)),
        "run" => Ok(run_in(found)),
        "test" => Ok(test_in(found)),
        "compile" => Ok(compile_in(found)),
        "check" => Ok(check_in(found)),
        "match" => Ok(name_in(NameCommand::Match, found)),
        "steps" => Ok(steps_in(found)),
        "storm" => Ok(storm_in(found)),
        "import" => Ok(Line {
            command: Command::Import(import_in(alloc, found)?),
            verbose: flag_in(found, "verbose"),
        }),
        "names" => Ok(names_in(found)),
        "audit" => Ok(audit_in(alloc, found)?),
        _ => unreachable!(),
    }
}

/// What the parser finds in the words.
fn matches_of<'a, S: AsStr>(alloc: Global, words: &'a [S]) -> Result<ArgMatches<'a>, LineFault>
    ensures ok { IfOk result (IsReadAs (map S.text words.now)) }
    ensures err { IfErr result (λ fault.
        is_some (line_of (map S.text words.now)) ≡ true → fault ≡ LineFault.NoMemory) }
{
    let matches = program(alloc)?.try_get_matches_from(words)?;
    Ok(matches)
}
