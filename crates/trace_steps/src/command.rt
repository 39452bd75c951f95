//! What a line of a script of events says by itself. Nothing is allocated.
ghost use Rattle.std.specs.Prelude.{◌≡◌, ◌∷◌};
ghost use Rattle.names.specs.Permissions.{perms_of};
ghost use Rattle.trace_script.specs.LineValues.{command_value, kind_value};
ghost use Rattle.trace_script.specs.Script.{words_of};
ghost use Rattle.trace_steps.specs.StepScript.{step_kind, own_kind, own_kind_of_words, own_kind_of_one, own_kind_of_two};
ghost use Rattle.trace_steps.specs.StepScript.{own_kind_of_three, own_kind_of_five, kind_of_keep, kind_of_session, kind_of_begin};
ghost use Rattle.trace_steps.specs.StepScript.{whole_kind};
ghost use Rattle.trace_steps.specs.inner.StepValues.{step_kind_value};

use crate::numbers::{number_of, session_of};
use event_machine::Event;
use names::Perms;
use trace_script::{ChangeWords, Command, LineKind, Words, is_word, parse_line};

/// A command of a script of events.
#[derive(Clone, Copy)]
pub enum StepCommand<'a> {
    /// The profile of this name is removed.
    Remove(&'a [u8]),
    /// A change of the tree, done whole.
    Alter(ChangeWords<'a>),
    /// An open, done whole.
    Open {
        profile: &'a [u8],
        path: &'a [u8],
        ask: Perms,
    },
    /// One event of a session.
    Single(Event<'a>),
    /// A session reads at most this many cells.
    ReadCells {
        session: u32,
        most: usize,
    },
    /// The rest of a session's call.
    Finish(u32),
    /// A change of the tree is opened.
    Keep(ChangeWords<'a>),
    /// The keeper sets at most this many cells.
    SetCells(usize),
    /// The rest of the open change.
    Close,
}

/// A line of a script of events.
pub type StepKind<'a> = LineKind<StepCommand<'a>>;

/// What a line says.
pub fn parse_step_line(line: &[u8]) -> StepKind<'_>
    ensures { step_kind_value result ≡ step_kind (words_of line.now) }
{
    match parse_line(line) {
        LineKind::Ignored => LineKind::Ignored,
        LineKind::OpensPolicy => LineKind::OpensPolicy,
        LineKind::Command(command) => whole_kind(command),
        LineKind::NoCommand => parse_own_line(line),
    }
}

/// What a line of a script of commands says here.
fn whole_kind(command: Command<'_>) -> StepKind<'_>
    ensures { step_kind_value result ≡ whole_kind (command_value command.entry) }
{
    match command {
        Command::Remove(name) => LineKind::Command(StepCommand::Remove(name)),
        Command::Alter(words) => LineKind::Command(StepCommand::Alter(words)),
        Command::JudgeOpen { profile, path, ask } => {
            LineKind::Command(StepCommand::Open { profile, path, ask })
        }
        Command::JudgeLink { .. } => LineKind::NoCommand,
    }
}

/// What a line says that isn't one of a script of commands.
fn parse_own_line(line: &[u8]) -> StepKind<'_>
    ensures { step_kind_value result ≡ own_kind (words_of line.now) }
{
    let mut words = Words::of(line);
    let Some(word) = words.next() else {
        return LineKind::NoCommand;
    };
    if is_word("keep", word) {
        return kind_of_keep(parse_line(words.rest()));
    }
    kind_of_words(word, words.rest())
}

/// What `keep` and the line after it say.
fn kind_of_keep(line: LineKind<Command<'_>>) -> StepKind<'_>
    ensures { step_kind_value result ≡ kind_of_keep (kind_value line.entry) }
{
    match line {
        LineKind::Command(Command::Alter(words)) => LineKind::Command(StepCommand::Keep(words)),
        _ => LineKind::NoCommand,
    }
}

/// What a word and those of the rest of its line say.
fn kind_of_words<'a>(word: &'a [u8], rest: &'a [u8]) -> StepKind<'a>
    ensures { step_kind_value result ≡ own_kind_of_words (word.now ∷ words_of rest.now) }
{
    let mut words = Words::of(rest);
    let Some(first) = words.next() else {
        return kind_of_one(word);
    };
    let Some(second) = words.next() else {
        return kind_of_two(word, first);
    };
    let Some(third) = words.next() else {
        return kind_of_three(word, first, second);
    };
    let Some(fourth) = words.next() else {
        return LineKind::NoCommand;
    };
    if words.next().is_some() {
        return LineKind::NoCommand;
    }
    kind_of_five(word, first, second, third, fourth)
}

/// What one word says.
fn kind_of_one(word: &[u8]) -> StepKind<'static>
    ensures { step_kind_value result ≡ own_kind_of_one word.now }
{
    if is_word("close", word) {
        LineKind::Command(StepCommand::Close)
    } else {
        LineKind::NoCommand
    }
}

/// What two words say.
fn kind_of_two(word: &[u8], first: &[u8]) -> StepKind<'static>
    ensures { step_kind_value result ≡ own_kind_of_two word.now first.now }
{
    if is_word("set", word) {
        return match number_of(first) {
            Some(most) => LineKind::Command(StepCommand::SetCells(most)),
            None => LineKind::NoCommand,
        };
    }
    kind_of_session(word, session_of(first))
}

/// What a word and a session say.
fn kind_of_session(word: &[u8], session: Option<u32>) -> StepKind<'static>
    ensures { step_kind_value result ≡ kind_of_session word.now session }
{
    let Some(session) = session else {
        return LineKind::NoCommand;
    };
    if is_word("policy-read", word) {
        return LineKind::Command(StepCommand::Single(Event::PolicyRead(session)));
    }
    if is_word("count", word) {
        return LineKind::Command(StepCommand::Single(Event::CountRead(session)));
    }
    if is_word("check", word) {
        return LineKind::Command(StepCommand::Single(Event::CountCheck(session)));
    }
    if is_word("go", word) {
        return LineKind::Command(StepCommand::Finish(session));
    }
    LineKind::NoCommand
}

/// What three words say.
fn kind_of_three(word: &[u8], first: &[u8], second: &[u8]) -> StepKind<'static>
    ensures { step_kind_value result ≡ own_kind_of_three word.now first.now second.now }
{
    if !is_word("cell", word) {
        return LineKind::NoCommand;
    }
    match (session_of(first), number_of(second)) {
        (Some(session), Some(most)) => LineKind::Command(StepCommand::ReadCells { session, most }),
        _ => LineKind::NoCommand,
    }
}

/// What five words say.
fn kind_of_five<'a>(
    word: &[u8],
    first: &[u8],
    profile: &'a [u8],
    path: &'a [u8],
    letters: &[u8],
) -> StepKind<'a>
    ensures { step_kind_value result ≡ own_kind_of_five word.now first.now profile.now path.now letters.now }
{
    if !is_word("begin", word) {
        return LineKind::NoCommand;
    }
    match (session_of(first), Perms::from_letters(letters)) {
        (Some(session), Some(ask)) => {
            let begin = Event::Begin {
                session,
                profile,
                path,
                ask,
            };
            LineKind::Command(StepCommand::Single(begin))
        }
        _ => LineKind::NoCommand,
    }
}
