//! The tests of a link's text.
ghost use Rattle.std.specs.Prelude.{◌≡◌, ◌≤◌, ◌==◌, ◌||◌, nat_lt, length, Ok, Err, OnOk, IfErr};
ghost use Rattle.std.specs.List.{list_any};
ghost use Rattle.names.specs.Paths.{has_long_component};
ghost use Rattle.directory_tree.specs.Apply.{text_of};

use directory_tree::LONGEST_LINK_TEXT;
use names::{Errno, has_long_component};

/// Tests that a link may have the text.
pub(crate) fn check_text(text: &[u8]) -> Result<(), Errno>
    ensures ok { OnOk result ((text_of text.now ≡ Ok text.now) × (length text.now ≤ LONGEST_LINK_TEXT)) }
    ensures err { IfErr result (λ errno. text_of text.now ≡ Err errno) }
{
    if text.is_empty() {
        return Err(Errno::ENOENT);
    }
    if has_zero(text) {
        return Err(Errno::EINVAL);
    }
    if is_long_text(text) {
        return Err(Errno::ENAMETOOLONG);
    }
    Ok(())
}

// Whether some byte is 0.
fn has_zero(text: &[u8]) -> bool
    ensures { result ≡ list_any (λ b. b == 0) text.now }
{
    text.contains(&0)
}

// Whether the text is too long, as a whole or in some component.
fn is_long_text(text: &[u8]) -> bool
    ensures { result ≡ (nat_lt LONGEST_LINK_TEXT (length text.now) || has_long_component text.now) }
{
    text.len() > LONGEST_LINK_TEXT || has_long_component(text)
}
