//! What a line of a script says by itself.
ghost use Rattle.std.specs.Prelude.{◌≡◌, bytes_eq, map};
ghost use Rattle.names.specs.Permissions.{perms_of};
ghost use Rattle.trace_script.specs.Script.{words_of, line_kind, is_comment, kind_of_words, kind_of_one, kind_of_two, kind_of_three};
ghost use Rattle.trace_script.specs.Script.{kind_of_four, kind_of_open};
ghost use Rattle.trace_script.specs.LineValues.{kind_value};

use crate::words::Words;
use names::Perms;

/// What a line is, taken by itself, for any type of commands.
#[derive(Clone, Copy)]
pub enum LineKind<C> {
    /// An empty line, or a comment.
    Ignored,
    /// The lines from the next one on are a profile's text.
    OpensPolicy,
    /// A command of one line.
    Command(C),
    /// Not a command.
    NoCommand,
}

/// A command of one line.
#[derive(Clone, Copy)]
pub enum Command<'a> {
    /// Removes the profile of this name.
    Remove(&'a [u8]),
    /// A change of the tree.
    Alter(ChangeWords<'a>),
    /// Opens a path, and judges what is asked by a profile.
    JudgeOpen {
        profile: &'a [u8],
        path: &'a [u8],
        ask: Perms,
    },
    /// Adds one more entry for a file, if a profile allows it.
    JudgeLink {
        profile: &'a [u8],
        old: &'a [u8],
        new: &'a [u8],
    },
}

/// A change of the tree, by the words of its paths. A symbolic link's text goes before its path.
#[derive(Clone, Copy)]
pub enum ChangeWords<'a> {
    Mkdir(&'a [u8]),
    Create(&'a [u8]),
    Symlink(&'a [u8], &'a [u8]),
    Link(&'a [u8], &'a [u8]),
    Unlink(&'a [u8]),
    Rmdir(&'a [u8]),
    Rename(&'a [u8], &'a [u8]),
}

/// What a line says. Allocates nothing.
pub fn parse_line(line: &[u8]) -> LineKind<Command<'_>>
    ensures { kind_value result ≡ line_kind (words_of line.now) }
{
    let mut words = Words::of(line);
    let Some(word) = words.next() else {
        return LineKind::Ignored;
    };
    if is_comment(word) {
        return LineKind::Ignored;
    }
    let Some(first) = words.next() else {
        return kind_of_one(word);
    };
    let Some(second) = words.next() else {
        return kind_of_two(word, first);
    };
    let Some(third) = words.next() else {
        return kind_of_three(word, first, second);
    };
    if words.next().is_some() {
        return LineKind::NoCommand;
    }
    kind_of_four(word, first, second, third)
}

/// What the words of a line say, if there are any and the line is no comment.
pub fn kind_of_words<'a>(words: &[&'a [u8]]) -> LineKind<Command<'a>>
    ensures { kind_value result ≡ kind_of_words (map (λ word. word.now) words.now) }
{
    match words {
        [word] => kind_of_one(word),
        [word, first] => kind_of_two(word, first),
        [word, first, second] => kind_of_three(word, first, second),
        [word, first, second, third] => kind_of_four(word, first, second, third),
        _ => LineKind::NoCommand,
    }
}

/// Whether a line is a comment, by its first word.
pub fn is_comment(word: &[u8]) -> bool
    ensures { result ≡ is_comment word.now }
{
    word.first() == Some(&b'#')
}

/// Whether a word is this text.
pub fn is_word(text: &str, word: &[u8]) -> bool
    ensures { result ≡ bytes_eq text.now word.now }
{
    text.as_bytes() == word
}

/// What one word says.
fn kind_of_one(word: &[u8]) -> LineKind<Command<'static>>
    ensures { kind_value result ≡ kind_of_one word.now }
{
    if is_word("policy", word) {
        LineKind::OpensPolicy
    } else {
        LineKind::NoCommand
    }
}

/// What two words say.
fn kind_of_two<'a>(word: &[u8], first: &'a [u8]) -> LineKind<Command<'a>>
    ensures { kind_value result ≡ kind_of_two word.now first.now }
{
    if is_word("drop", word) {
        return LineKind::Command(Command::Remove(first));
    }
    if is_word("mkdir", word) {
        return LineKind::Command(Command::Alter(ChangeWords::Mkdir(first)));
    }
    if is_word("create", word) {
        return LineKind::Command(Command::Alter(ChangeWords::Create(first)));
    }
    if is_word("unlink", word) {
        return LineKind::Command(Command::Alter(ChangeWords::Unlink(first)));
    }
    if is_word("rmdir", word) {
        return LineKind::Command(Command::Alter(ChangeWords::Rmdir(first)));
    }
    LineKind::NoCommand
}

/// What three words say.
fn kind_of_three<'a>(word: &[u8], first: &'a [u8], second: &'a [u8]) -> LineKind<Command<'a>>
    ensures { kind_value result ≡ kind_of_three word.now first.now second.now }
{
    if is_word("symlink", word) {
        return LineKind::Command(Command::Alter(ChangeWords::Symlink(first, second)));
    }
    if is_word("link", word) {
        return LineKind::Command(Command::Alter(ChangeWords::Link(first, second)));
    }
    if is_word("rename", word) {
        return LineKind::Command(Command::Alter(ChangeWords::Rename(first, second)));
    }
    LineKind::NoCommand
}

/// What four words say.
fn kind_of_four<'a>(
    word: &[u8],
    profile: &'a [u8],
    second: &'a [u8],
    third: &'a [u8],
) -> LineKind<Command<'a>>
    ensures { kind_value result ≡ kind_of_four word.now profile.now second.now third.now }
{
    if is_word("open", word) {
        return kind_of_open(profile, second, third);
    }
    if is_word("judged-link", word) {
        return LineKind::Command(Command::JudgeLink {
            profile,
            old: second,
            new: third,
        });
    }
    LineKind::NoCommand
}

/// What an open says whose permissions are given by letters.
fn kind_of_open<'a>(profile: &'a [u8], path: &'a [u8], letters: &[u8]) -> LineKind<Command<'a>>
    ensures { kind_value result ≡ kind_of_open profile.now path.now (perms_of letters.now) }
{
    match Perms::from_letters(letters) {
        Some(ask) => LineKind::Command(Command::JudgeOpen { profile, path, ask }),
        None => LineKind::NoCommand,
    }
}
