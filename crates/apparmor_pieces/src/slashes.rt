//! Runs of slashes.
ghost use Rattle.std.specs.Prelude.{◌≡◌, ◌++◌, false, IfOk, OnOk};
ghost use Rattle.apparmor_pieces.specs.Slashes.{begins_with_two, one_slash, runs_joined};

use names::NoMemory;
use std::alloc::{AllocError, Global};

/// Returns the text with one slash for each run of slashes. Only exactly two slashes at its start stay two.
pub fn one_slash(alloc: Global, text: &[u8]) -> Result<Vec<u8>, NoMemory>
    ensures { IfOk result (λ one. one.items ≡ one_slash text.now) }
{
    let mut one = Vec::new(alloc);
    if begins_with_two(text) && one.push(b'/').is_err() {
        return Err(NoMemory);
    }
    match push_joined(&mut one, text) {
        Ok(()) => Ok(one),
        Err(_) => Err(NoMemory),
    }
}

/// Whether the text begins with exactly two slashes.
fn begins_with_two(text: &[u8]) -> bool
    ensures { result ≡ begins_with_two text.now }
{
    match text {
        [b'/', b'/', rest @ ..] => !matches!(rest, [b'/', ..]),
        _ => false,
    }
}

/// Pushes the text with one slash for each run, after what is there.
fn push_joined(one: &mut Vec<u8>, text: &[u8]) -> Result<(), AllocError>
    ensures { OnOk result (one.new.items ≡ one.old.items ++ runs_joined false text.now) }
{
    let mut behind = false;
    for byte in text {
        let is_slash = *byte == b'/';
        if !(behind && is_slash) {
            one.push(*byte)?;
        }
        behind = is_slash;
    }
    Ok(())
}
