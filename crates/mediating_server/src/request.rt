//! What a line asks for.
ghost use Rattle.std.specs.Prelude.{◌≡◌, option_map};
ghost use Rattle.mediating_server.specs.Requests.{request_value, request_of, open_of};
ghost use Rattle.trace_script.specs.Script.{words_of};

use names::Perms;
use trace_script::{ChangeWords, Command, LineKind, Words, is_word, parse_line};

/// What a client asks for.
#[derive(Clone, Copy)]
pub(crate) enum Request<'a> {
    Open { path: &'a [u8], ask: Perms },
    Change(ChangeWords<'a>),
}

/// What a line asks for: `open PATH PERMS`, or a change of the tree, which is written as in a script.
pub(crate) fn parse(line: &[u8]) -> Option<Request<'_>>
    ensures { option_map request_value result ≡ request_of (words_of line.now) }
{
    match parse_line(line) {
        LineKind::Command(Command::Alter(words)) => Some(Request::Change(words)),
        _ => parse_open(line),
    }
}

fn parse_open(line: &[u8]) -> Option<Request<'_>>
    ensures { option_map request_value result ≡ open_of (words_of line.now) }
{
    let mut words = Words::of(line);
    if !is_word("open", words.next()?) {
        return None;
    }
    let path = words.next()?;
    let ask = Perms::from_letters(words.next()?)?;
    match words.next() {
        None => Some(Request::Open { path, ask }),
        Some(_) => None,
    }
}
