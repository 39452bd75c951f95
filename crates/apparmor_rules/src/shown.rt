//! A part of a text on one line.
ghost use Rattle.std.specs.Prelude.{◌≡◌, ◌++◌, ◌∷◌, [], IfOk, false};
ghost use Rattle.rule_reader.specs.TextBytes.{is_white};
ghost use Rattle.apparmor_rules.specs.ShownTexts.{shown_byte, on_one_line, shortened, shown_text};

use names::NoMemory;
use std::alloc::Global;

/// The maximum number of bytes shown in full.
const MOST: usize = 72;

/// The number of bytes shown of a longer text.
const FRONT: usize = 70;

fn is_white(byte: u8) -> bool
    ensures { result ≡ is_white byte }
{
    matches!(byte, b' ' | b'\t' | b'\n' | b'\r')
}

/// Returns a byte as it is shown: a control byte as `?`, so that no text can control a terminal with it.
pub fn shown_byte(byte: u8) -> u8
    ensures { result ≡ shown_byte byte }
{
    if byte < b' ' || byte == 127 {
        b'?'
    } else {
        byte
    }
}

/// Pushes one more byte.
fn push(line: &mut Vec<u8>, byte: u8) -> Result<(), NoMemory>
    ensures { IfOk result (λ _. line.new.items ≡ line.old.items ++ (byte ∷ [])) }
{
    match line.push(byte) {
        Ok(()) => Ok(()),
        Err(_) => Err(NoMemory),
    }
}

/// Returns the bytes with each run of whitespace as one space, and none at the start or at the end.
fn on_one_line(alloc: Global, bytes: &[u8]) -> Result<Vec<u8>, NoMemory>
    ensures { IfOk result (λ line. line.items ≡ on_one_line false false bytes.now) }
{
    let mut line = Vec::new(alloc);
    let mut gap = false;
    for byte in bytes {
        if is_white(*byte) {
            gap = true;
            continue;
        }
        if gap && !line.is_empty() {
            push(&mut line, b' ')?;
        }
        push(&mut line, shown_byte(*byte))?;
        gap = false;
    }
    Ok(line)
}

/// Returns a part of a text as an account shows it: on one line, without control bytes, and shortened.
#[tactic(auto, unfolding(crate::specs::ShownTexts::shown_text))]
pub fn shown_text(alloc: Global, bytes: &[u8]) -> Result<Vec<u8>, NoMemory>
    ensures { IfOk result (λ line. line.items ≡ shown_text bytes.now) }
{
    let mut line = on_one_line(alloc, bytes)?;
    if line.len() > MOST {
        line.truncate(FRONT);
        push(&mut line, b'.')?;
        push(&mut line, b'.')?;
    }
    Ok(line)
}
