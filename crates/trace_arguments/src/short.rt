//! Options of one hyphen and a letter.
ghost use Rattle.std.specs.Prelude.{◌≡◌, ◌∷◌, ◌++◌, [], IfOk, if◌then◌else◌, map, option_map};
ghost use Rattle.trace_arguments.specs.ShortOptions.{option_of, options_in, options_of, spelled_out, word_spelled};

use std::alloc::{AllocError, Global};
use std::convert::AsStr;

/// The words with their short options spelled out: up to a word `--`, each word that is a hyphen followed by one or more of the
/// letters v, q, n and 0 is replaced by the options `--verbose`, `--quiet`, `--not-allowed` and `--null`, in the order of the
/// letters. The parser of `command_line` knows these alone.
pub fn spelled_out<'a, S: AsStr>(alloc: Global, words: &'a [S]) -> Result<Vec<&'a str>, AllocError>
    ensures { IfOk result (λ spelled. map (λ word. word.now) spelled.items ≡ spelled_out (map S.text words.now)) }
{
    let mut spelled = Vec::new(alloc);
    let mut escaped = false;
    for word in words {
        let word = word.as_str();
        escaped = escaped || word == "--";
        push_word(alloc, &mut spelled, escaped, word)?;
    }
    Ok(spelled)
}

/// Appends a word, or the options that it is short for; none after `--`.
fn push_word<'a>(
    alloc: Global,
    spelled: &mut Vec<&'a str>,
    escaped: bool,
    word: &'a str,
) -> Result<(), AllocError>
    ensures { IfOk result (λ _. map (λ word. word.now) spelled.new.items
        ≡ map (λ word. word.now) spelled.old.items ++ (if escaped then word.now ∷ [] else word_spelled word.now)) }
{
    if !escaped && let Some(options) = options_in(alloc, word)? {
        spelled.extend_from_slice(&options)?;
    } else {
        spelled.push(word)?;
    }
    Ok(())
}

/// The options that a word is short for.
fn options_in<'a>(alloc: Global, word: &str) -> Result<Option<Vec<&'a str>>, AllocError>
    ensures { IfOk result (λ options.
        option_map (λ list. map (λ option. option.now) list.items) options ≡ options_in word.now) }
{
    match word.as_bytes() {
        [b'-', letters @ ..] if !letters.is_empty() => options_of(alloc, letters),
        _ => Ok(None),
    }
}

/// The options that letters are short for, if each of them is.
fn options_of<'a>(alloc: Global, letters: &[u8]) -> Result<Option<Vec<&'a str>>, AllocError>
    ensures { IfOk result (λ options.
        option_map (λ list. map (λ option. option.now) list.items) options ≡ options_of letters.now) }
{
    let mut options = Vec::new(alloc);
    for letter in letters {
        let Some(option) = option_of(*letter) else {
            return Ok(None);
        };
        options.push(option)?;
    }
    Ok(Some(options))
}

/// The option that a letter is short for.
fn option_of<'a>(letter: u8) -> Option<&'a str>
    ensures { option_map (λ option. option.now) result ≡ option_of letter }
{
    match letter {
        b'v' => Some("--verbose"),
        b'q' => Some("--quiet"),
        b'n' => Some("--not-allowed"),
        b'0' => Some("--null"),
        _ => None,
    }
}
