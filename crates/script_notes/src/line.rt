//! What a line says, whatever its command.
ghost use Rattle.std.specs.Prelude.{◌≡◌, IfOk};
ghost use Rattle.script_notes.specs.ScriptLines.{says, says_in};
ghost use Rattle.trace_script.specs.Script.{line_kind, words_of};
ghost use Rattle.trace_steps.specs.StepScript.{step_kind};
ghost use Rattle.test_script.specs.TestScript.{test_kind};

use names::NoMemory;
use std::alloc::Global;
use test_script::{parse_test_line, quoted_words};
use trace_script::{LineKind, parse_line};
use trace_steps::parse_step_line;

/// The language of a script.
#[derive(Clone, Copy, Debug, PartialEq, Eq)]
pub enum Script {
    /// That of `run`.
    Run,
    /// That of `steps`.
    Steps,
    /// That of `test`.
    Test,
}

/// What a line outside of policies is, whatever its command.
#[derive(Clone, Copy, Debug)]
pub(crate) enum Says {
    /// An empty line, or a comment.
    Nothing,
    /// The lines from the next one on are a profile's text.
    OpensPolicy,
    /// A command.
    Command,
    /// Not a command.
    NoCommand,
}

/// What the line of this number says in this language.
pub(crate) fn says_in(
    alloc: Global,
    script: Script,
    number: u64,
    line: &[u8],
) -> Result<Says, NoMemory>
    ensures { IfOk result (λ kind. kind ≡ says_in script number line.now) }
{
    match script {
        Script::Run => Ok(says_run(line)),
        Script::Steps => Ok(says_steps(line)),
        Script::Test => says_test(alloc, number, line),
    }
}

/// What a line of `run` says.
fn says_run(line: &[u8]) -> Says
    ensures { result ≡ says (line_kind (words_of line.now)) }
{
    match parse_line(line) {
        LineKind::Ignored => Says::Nothing,
        LineKind::OpensPolicy => Says::OpensPolicy,
        LineKind::Command(_) => Says::Command,
        LineKind::NoCommand => Says::NoCommand,
    }
}

/// What a line of `steps` says.
fn says_steps(line: &[u8]) -> Says
    ensures { result ≡ says (step_kind (words_of line.now)) }
{
    match parse_step_line(line) {
        LineKind::Ignored => Says::Nothing,
        LineKind::OpensPolicy => Says::OpensPolicy,
        LineKind::Command(_) => Says::Command,
        LineKind::NoCommand => Says::NoCommand,
    }
}

/// What the line of this number says in `test`.
fn says_test(alloc: Global, number: u64, line: &[u8]) -> Result<Says, NoMemory>
    ensures { IfOk result (λ kind. kind ≡ says (test_kind number line.now)) }
{
    let Ok(words) = quoted_words(alloc, line) else {
        return Err(NoMemory);
    };
    match parse_test_line(alloc, number, line, &words) {
        Ok(LineKind::Ignored) => Ok(Says::Nothing),
        Ok(LineKind::OpensPolicy) => Ok(Says::OpensPolicy),
        Ok(LineKind::Command(_)) => Ok(Says::Command),
        Ok(LineKind::NoCommand) => Ok(Says::NoCommand),
        Err(_) => Err(NoMemory),
    }
}
