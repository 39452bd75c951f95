//! What a line of a test says by itself.
ghost use Rattle.std.specs.Prelude.{◌≡◌, IfOk, map, option_map};
ghost use Rattle.names.specs.Permissions.{perms_of};
ghost use Rattle.trace_script.specs.LineValues.{kind_value};
ghost use Rattle.test_script.specs.TestScript.{asked_question, expect_kind, explain, first_kind, judge, question_kind};
ghost use Rattle.test_script.specs.TestScript.{question_of, quoted_kind, quoted_words, run_kind};
ghost use Rattle.test_script.specs.TestScript.{test_kind, without_end, words_kind};
ghost use Rattle.test_script.specs.LineValues.{asked_by, question_value, test_kind_value, words_value};

use names::{Perms, skip, split_at};
use std::alloc::{AllocError, Global};
use trace_script::{Blank, Command, LineKind, is_blank, is_comment, is_word, kind_of_words};

/// A question about a name.
#[derive(Clone, Copy)]
pub struct Question<'a> {
    /// The name of the profile whose rules are asked.
    pub profile: &'a [u8],
    /// The name of the file.
    pub name: &'a [u8],
    /// The permissions that are asked for, perhaps none.
    pub ask: Perms,
}

/// A command that is answered.
#[derive(Clone, Copy)]
pub enum Asked<'a> {
    /// A command of `run`.
    Run(Command<'a>),
    /// Asks for the verdict of a profile's rules.
    Judge(Question<'a>),
    /// Asks for their verdict, and the reason for each permission.
    Explain(Question<'a>),
}

/// A command of a test.
#[derive(Clone, Copy)]
pub enum TestCommand<'a> {
    /// A command that is answered, and the number of its line.
    Ask { number: u64, command: Asked<'a> },
    /// The answer that the line of this number expects from the command before it.
    Expect { number: u64, text: &'a [u8] },
}

/// A line of a test.
pub type TestKind<'a> = LineKind<TestCommand<'a>>;

/// What the line of this number says, which has these words.
pub fn parse_test_line<'a>(
    alloc: Global,
    number: u64,
    line: &'a [u8],
    words: &'a Option<Vec<Vec<u8>>>,
) -> Result<TestKind<'a>, AllocError>
    requires { words_value words.now ≡ quoted_words line.now }
    ensures { IfOk result (λ kind. test_kind_value kind ≡ test_kind number line.now) }
{
    let (word, rest) = split_at::<Blank>(skip::<Blank>(line));
    if word.is_empty() || is_comment(word) {
        return Ok(LineKind::Ignored);
    }
    if is_word("expect", word) {
        return Ok(expect_kind(number, without_end(skip::<Blank>(rest))));
    }
    quoted_kind(alloc, number, words)
}

/// What the words of a line say.
fn quoted_kind<'a>(
    alloc: Global,
    number: u64,
    words: &'a Option<Vec<Vec<u8>>>,
) -> Result<TestKind<'a>, AllocError>
    ensures { IfOk result (λ kind. test_kind_value kind ≡ quoted_kind number (words_value words.now)) }
{
    match words {
        Some(words) => Ok(words_kind(number, &slices(alloc, words)?)),
        None => Ok(LineKind::NoCommand),
    }
}

/// The words as slices.
fn slices<'a>(alloc: Global, words: &'a [Vec<u8>]) -> Result<Vec<&'a [u8]>, AllocError>
    ensures { IfOk result (λ slices. map (λ slice. slice.now) slices.items ≡ map (λ word. word.items) words.now) }
{
    let mut slices = Vec::new(alloc);
    for word in words {
        slices.push(word.as_slice())?;
    }
    Ok(slices)
}

/// The bytes up to the last one that isn't a blank.
fn without_end(bytes: &[u8]) -> &[u8]
    ensures { result.now ≡ without_end bytes.now }
{
    match bytes.iter().rposition(|b| !is_blank(*b)) {
        Some(i) => &bytes[..i + 1],
        None => &[],
    }
}

/// An expectation of this text, which must not be empty.
fn expect_kind(number: u64, text: &[u8]) -> TestKind<'_>
    ensures { test_kind_value result ≡ expect_kind number text.now }
{
    if text.is_empty() {
        return LineKind::NoCommand;
    }
    LineKind::Command(TestCommand::Expect { number, text })
}

/// What words say: a question, or what they say in a line of `run`.
fn words_kind<'a>(number: u64, words: &[&'a [u8]]) -> TestKind<'a>
    ensures { test_kind_value result ≡ words_kind number (map (λ word. word.now) words.now) }
{
    match words {
        [] => LineKind::NoCommand,
        [word, rest @ ..] => first_kind(number, word, rest, kind_of_words(words)),
    }
}

/// What a first word and the rest say, whose words say this in a line of `run`.
fn first_kind<'a>(
    number: u64,
    word: &[u8],
    rest: &[&'a [u8]],
    kind: LineKind<Command<'a>>,
) -> TestKind<'a>
    ensures { test_kind_value result ≡ first_kind number word.now (map (λ word. word.now) rest.now) (kind_value kind.entry) }
{
    if is_word("judge", word) {
        return judge_kind(number, rest);
    }
    if is_word("explain", word) {
        return explain_kind(number, rest);
    }
    run_kind(number, kind)
}

/// `judge PROFILE NAME PERMS`, by the words after the first.
fn judge_kind<'a>(number: u64, words: &[&'a [u8]]) -> TestKind<'a>
    ensures { test_kind_value result ≡ question_kind number judge (map (λ word. word.now) words.now) }
{
    match read_question(words) {
        Some(question) => ask_kind(number, Asked::Judge(question)),
        None => LineKind::NoCommand,
    }
}

/// `explain PROFILE NAME PERMS`, by the words after the first.
fn explain_kind<'a>(number: u64, words: &[&'a [u8]]) -> TestKind<'a>
    ensures { test_kind_value result ≡ question_kind number explain (map (λ word. word.now) words.now) }
{
    match read_question(words) {
        Some(question) => ask_kind(number, Asked::Explain(question)),
        None => LineKind::NoCommand,
    }
}

/// `PROFILE NAME PERMS`.
fn read_question<'a>(words: &[&'a [u8]]) -> Option<Question<'a>>
    ensures { option_map question_value result ≡ question_of (map (λ word. word.now) words.now) }
{
    match words {
        [profile, name, letters] => asked_question(profile, name, letters),
        _ => None,
    }
}

/// A question about a name, unless some letter is that of no permission.
fn asked_question<'a>(profile: &'a [u8], name: &'a [u8], letters: &[u8]) -> Option<Question<'a>>
    ensures { option_map question_value result ≡ asked_question profile.now name.now (perms_of letters.now) }
{
    let ask = Perms::from_letters(letters)?;
    Some(Question { profile, name, ask })
}

/// A command that is answered.
fn ask_kind(number: u64, command: Asked<'_>) -> TestKind<'_>
    ensures { test_kind_value result ≡ asked_by number command.entry }
{
    LineKind::Command(TestCommand::Ask { number, command })
}

/// What a line of `run` says here.
fn run_kind(number: u64, kind: LineKind<Command<'_>>) -> TestKind<'_>
    ensures { test_kind_value result ≡ run_kind number (kind_value kind.entry) }
{
    match kind {
        LineKind::Ignored => LineKind::Ignored,
        LineKind::OpensPolicy => LineKind::OpensPolicy,
        LineKind::Command(command) => ask_kind(number, Asked::Run(command)),
        LineKind::NoCommand => LineKind::NoCommand,
    }
}
