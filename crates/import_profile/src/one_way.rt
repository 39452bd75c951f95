//! Texts that AppArmor and this language read in one way.
ghost use Rattle.std.specs.Prelude.{◌≡◌, not, ◌&&◌, ◌==◌};
ghost use Rattle.import_profile.specs.OneWay.{opens_variable, is_read_one_way};

use rule_making::is_read_alike;

/// Whether the byte is this mark, and no backslash escapes it.
fn is_mark(escaped: bool, byte: u8, mark: u8) -> bool
    ensures { result ≡ (not escaped && byte == mark) }
{
    !escaped && byte == mark
}

/// Whether an `@` that no backslash escapes is directly before a `{`, in a class too.
fn opens_variable(text: &[u8]) -> bool
    ensures { result ≡ opens_variable text.now }
{
    let mut escaped = false;
    let mut at = false;
    for byte in text {
        if at && *byte == b'{' {
            return true;
        }
        at = is_mark(escaped, *byte, b'@');
        escaped = is_mark(escaped, *byte, b'\\');
    }
    false
}

/// Whether AppArmor reads a path's text as this language does, where both read it, and finds no variable in it.
pub(crate) fn is_read_one_way(text: &[u8]) -> bool
    ensures { result ≡ is_read_one_way text.now }
{
    is_read_alike(text) && !opens_variable(text)
}
