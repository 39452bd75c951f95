//! Statements, i.e. rules that aren't about files, and where each ends.
ghost use Rattle.std.specs.Prelude.{◌≡◌, ◌≤◌, ◌+◌, ◌∷◌, length, IfOk, IfSome};
ghost use Rattle.apparmor_words.specs.inner.Counts.{max_count, OpensAtMostOne};
ghost use Rattle.apparmor_words.specs.Statements.{is_statement, ends_statement, nothing_open, white_step, hash_step};
ghost use Rattle.apparmor_words.specs.Statements.{comma_step, bracket_step};
ghost use Rattle.apparmor_words.specs.Statements.{within_word, plain_step, within_quotes, statement_step, statement_at, statement_end};
ghost use Rattle.apparmor_words.specs.Statements.{past_equals, past_boolean_name, boolean_at};
ghost use Rattle.rule_reader.specs.ReadWords.{after};
ghost use Rattle.apparmor_words.specs.Statements.{is_space};
ghost use Rattle.apparmor_words.specs.Gives.{Reads};

use crate::bytes::{is_include, is_space, is_white};
use crate::stop::{Stop, StopKind, fault_here};
use crate::words::{
    Quoted, comma_ends, is_doubtful, is_one_of, letter_word, past_byte, past_word, quoted_step,
};

/// The words that statements begin with (apparmor.d(5), "Format").
const STATEMENT_WORDS: [&str; 16] = [
    "abi",
    "capability",
    "network",
    "mount",
    "remount",
    "umount",
    "pivot_root",
    "signal",
    "ptrace",
    "dbus",
    "unix",
    "set",
    "change_profile",
    "userns",
    "mqueue",
    "io_uring",
];

/// Whether a statement begins here.
pub fn is_statement(bytes: &[u8]) -> bool
    ensures { result ≡ is_statement bytes.now }
{
    is_one_of(&STATEMENT_WORDS, letter_word(bytes))
}

/// The context of a byte of a statement.
#[derive(Clone, Copy)]
pub(crate) enum Within {
    /// After the keyword.
    Keyword,
    /// No word is open: after a `)` or a word in quotes.
    Apart,
    /// After whitespace.
    White,
    /// After whitespace that comes after `=` or `->`.
    BeforeValue,
    Word,
    /// In a word, after `=`.
    Equals,
    /// In a word, after the `>` of an arrow.
    Arrow,
    /// In a word, after `(`.
    Parenthesis,
    /// After a backslash that escapes the byte.
    Backslash,
    Quotes(Quoted),
    Comment,
}

impl Within {
    ghost use Rattle.std.specs.Prelude.{◌≡◌};
    ghost use Rattle.apparmor_words.specs.Statements.{behind_white, is_word_over, may_open};

    /// The context after whitespace.
    fn behind_white(self) -> Within
        ensures { result ≡ behind_white self }
    {
        match self {
            Within::Equals | Within::Arrow | Within::BeforeValue => Within::BeforeValue,
            _ => Within::White,
        }
    }

    /// Whether a comma ends the statement here whatever follows it.
    fn is_word_over(self) -> bool
        ensures { result ≡ is_word_over self }
    {
        matches!(
            self,
            Within::Keyword | Within::Apart | Within::White | Within::BeforeValue
        )
    }

    /// Whether a parenthesis may be opened here.
    fn may_open(self) -> bool
        ensures { result ≡ may_open self }
    {
        matches!(
            self,
            Within::Keyword
                | Within::White
                | Within::BeforeValue
                | Within::Equals
                | Within::Parenthesis
        )
    }
}

/// What is open in a statement at some place.
#[derive(Clone, Copy)]
pub(crate) struct Unclosed {
    parentheses: usize,
    braces: usize,
    within: Within,
}

impl Unclosed {
    ghost use Rattle.std.specs.Prelude.{◌≡◌, ◌<◌};
    ghost use Rattle.apparmor_words.specs.Statements.{still};

    /// Returns the same with another context for the next byte.
    fn still(self, within: Within) -> Unclosed
        ensures { result ≡ still self within }
    {
        Unclosed { within, ..self }
    }
}

/// Whether a comma followed by these bytes ends a statement after any word.
fn ends_statement(behind: &[u8]) -> bool
    ensures { result ≡ ends_statement behind.now }
{
    match behind {
        [] => true,
        [byte, ..] => is_white(*byte),
    }
}

/// Returns what is open after whitespace, the first of the bytes `from`.
fn white_step(unclosed: Unclosed, from: &[u8]) -> Result<Option<Unclosed>, Stop<'_>>
    ensures gives { Reads (λ x. x) result (white_step unclosed from.now) }
    ensures few { IfOk result (λ next. IfSome next (OpensAtMostOne unclosed)) }
{
    if unclosed.braces != 0 && unclosed.parentheses == 0 {
        return Err(fault_here(StopKind::Syntax, from));
    }
    Ok(Some(unclosed.still(unclosed.within.behind_white())))
}

/// Returns what is open after `#`, the first of the bytes `from`.
fn hash_step(unclosed: Unclosed, from: &[u8]) -> Result<Option<Unclosed>, Stop<'_>>
    ensures gives { Reads (λ x. x) result (hash_step unclosed from.now) }
    ensures few { IfOk result (λ next. IfSome next (OpensAtMostOne unclosed)) }
{
    match unclosed.within {
        Within::White if is_include(from) => Err(fault_here(StopKind::Include, from)),
        Within::White => Ok(Some(unclosed.still(Within::Comment))),
        Within::BeforeValue | Within::Keyword | Within::Apart => {
            Err(fault_here(StopKind::Syntax, from))
        }
        _ => Ok(Some(unclosed.still(Within::Word))),
    }
}

/// Returns what is open after a comma, the first of the bytes `from`. `None` if it ends the statement.
fn comma_step<'t>(
    unclosed: Unclosed,
    byte: u8,
    behind: &'t [u8],
    from: &'t [u8],
) -> Result<Option<Unclosed>, Stop<'t>>
    requires { from.now ≡ byte ∷ behind.now }
    ensures gives { Reads (λ x. x) result (comma_step unclosed byte behind.now) }
    ensures few { IfOk result (λ next. IfSome next (OpensAtMostOne unclosed)) }
{
    let may_end = unclosed.parentheses == 0 && unclosed.braces == 0;
    if may_end && (ends_statement(behind) || unclosed.within.is_word_over()) {
        return Ok(None);
    }
    let ends_word = unclosed.parentheses == 0 && comma_ends(behind);
    if may_end || behind.starts_with(b"\\") || ends_word {
        return Err(fault_here(StopKind::Syntax, from));
    }
    Ok(Some(unclosed.still(Within::Word)))
}

/// Returns what is open after a parenthesis or a brace, the first of the bytes `from`.
fn bracket_step(unclosed: Unclosed, byte: u8, from: &[u8]) -> Result<Option<Unclosed>, Stop<'_>>
    requires { (unclosed.parentheses + 1 ≤ max_count) × (unclosed.braces + 1 ≤ max_count) }
    ensures gives { Reads (λ x. x) result (bracket_step unclosed byte from.now) }
    ensures few { IfOk result (λ next. IfSome next (OpensAtMostOne unclosed)) }
{
    let word = unclosed.still(Within::Word);
    let next = match byte {
        b'(' if unclosed.within.may_open() => Unclosed {
            parentheses: unclosed.parentheses + 1,
            within: Within::Parenthesis,
            ..unclosed
        },
        b')' if unclosed.parentheses != 0 => Unclosed {
            parentheses: unclosed.parentheses - 1,
            within: Within::Apart,
            ..unclosed
        },
        b'(' | b')' => return Err(fault_here(StopKind::Syntax, from)),
        b'{' => Unclosed {
            braces: unclosed.braces + 1,
            ..word
        },
        _ if unclosed.braces == 0 => return Err(fault_here(StopKind::Syntax, from)),
        _ => Unclosed {
            braces: unclosed.braces - 1,
            ..word
        },
    };
    Ok(Some(next))
}

/// The context after a byte of a word.
fn within_word(byte: u8) -> Within
    ensures { result ≡ within_word byte }
{
    match byte {
        b'=' => Within::Equals,
        b'>' => Within::Arrow,
        _ => Within::Word,
    }
}

/// Returns what is open after the first of the bytes `from`, outside of quotes and comments, that no backslash escapes. `None` if
/// it ends the statement.
fn plain_step<'t>(
    unclosed: Unclosed,
    byte: u8,
    behind: &'t [u8],
    from: &'t [u8],
) -> Result<Option<Unclosed>, Stop<'t>>
    requires from { from.now ≡ byte ∷ behind.now }
    requires fit { (unclosed.parentheses + length from.now ≤ max_count) × (unclosed.braces + length from.now ≤ max_count) }
    ensures gives { Reads (λ x. x) result (plain_step unclosed byte behind.now) }
    ensures few { IfOk result (λ next. IfSome next (OpensAtMostOne unclosed)) }
{
    match byte {
        0 => Err(fault_here(StopKind::Syntax, from)),
        b'\\' if is_doubtful(byte, behind) => Err(fault_here(StopKind::Syntax, from)),
        b'\\' => Ok(Some(unclosed.still(Within::Backslash))),
        b'"' => Ok(Some(unclosed.still(Within::Quotes(Quoted::OPENED)))),
        b'#' => hash_step(unclosed, from),
        b',' => comma_step(unclosed, byte, behind, from),
        b'(' | b')' | b'{' | b'}' => bracket_step(unclosed, byte, from),
        _ if is_white(byte) => white_step(unclosed, from),
        _ => Ok(Some(unclosed.still(within_word(byte)))),
    }
}

/// The context after a byte of a word in quotes, or after the quote that ends it.
fn within_quotes(next: Option<Quoted>) -> Within
    ensures { result ≡ within_quotes next }
{
    match next {
        Some(before) => Within::Quotes(before),
        None => Within::Apart,
    }
}

/// Returns what is open after a byte in any context, the first of the bytes `from`. `None` if it ends the statement.
fn statement_step<'t>(
    unclosed: Unclosed,
    byte: u8,
    behind: &'t [u8],
    from: &'t [u8],
) -> Result<Option<Unclosed>, Stop<'t>>
    requires from { from.now ≡ byte ∷ behind.now }
    requires fit { (unclosed.parentheses + length from.now ≤ max_count) × (unclosed.braces + length from.now ≤ max_count) }
    ensures gives { Reads (λ x. x) result (statement_step unclosed byte behind.now) }
    ensures few { IfOk result (λ next. IfSome next (OpensAtMostOne unclosed)) }
{
    let within = match unclosed.within {
        Within::Quotes(before) => within_quotes(quoted_step(before, byte, behind, from)?),
        Within::Comment if byte == b'\n' => Within::White,
        Within::Comment => Within::Comment,
        Within::Backslash if byte == 0 => return Err(fault_here(StopKind::Syntax, from)),
        Within::Backslash => Within::Word,
        _ => return plain_step(unclosed, byte, behind, from),
    };
    Ok(Some(unclosed.still(within)))
}

/// Returns what is left after a statement whose keyword was already read.
fn after_keyword(bytes: &[u8]) -> Result<&[u8], Stop<'_>>
    ensures { Reads (λ x. x.now) result (statement_at nothing_open bytes.now) }
{
    let mut unclosed = Unclosed {
        parentheses: 0,
        braces: 0,
        within: Within::Keyword,
    };
    let mut rest = bytes;
    while let [byte, behind @ ..] = rest {
        match statement_step(unclosed, *byte, behind, rest)? {
            Some(next) => unclosed = next,
            None => return Ok(behind),
        }
        rest = behind;
    }
    Err(fault_here(StopKind::Syntax, rest))
}

/// Returns what is left after a statement, whose keyword is here.
pub fn after_statement(bytes: &[u8]) -> Result<&[u8], Stop<'_>>
    ensures { Reads (λ x. x.now) result (statement_end bytes.now) }
{
    after_keyword(past_word(bytes)?)
}

/// Returns what is left after spaces and tabs.
fn after_spaces(bytes: &[u8]) -> &[u8]
    ensures { result.now ≡ after is_space bytes.now }
{
    let mut rest = bytes;
    while let [byte, more @ ..] = rest
        && is_space(*byte)
    {
        rest = more;
    }
    rest
}

/// Returns what is left after `=` and the spaces before and after it.
fn after_equals(bytes: &[u8]) -> Result<&[u8], Stop<'_>>
    ensures { Reads (λ x. x.now) result (past_equals bytes.now) }
{
    let rest = past_byte(b'=', after_spaces(bytes))?;
    Ok(after_spaces(rest))
}

/// Returns what is left after `NAME` or `{NAME}`.
fn after_boolean_name(bytes: &[u8]) -> Result<&[u8], Stop<'_>>
    ensures { Reads (λ x. x.now) result (past_boolean_name bytes.now) }
{
    match bytes {
        [b'{', name @ ..] => past_byte(b'}', past_word(name)?),
        _ => past_word(bytes),
    }
}

/// Returns what is left after a boolean whose `$` was read.
pub fn after_boolean(bytes: &[u8]) -> Result<&[u8], Stop<'_>>
    ensures { Reads (λ x. x.now) result (boolean_at bytes.now) }
{
    past_word(after_equals(after_boolean_name(bytes)?)?)
}
