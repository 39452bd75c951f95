//! Parts of lines.
ghost use Rattle.std.specs.Prelude.{◌≡◌, ◌++◌, IfOk, map};
ghost use Rattle.apparmor_rules.specs.ShownTexts.{shown_byte};

use apparmor_rules::shown_byte;
use names::NoMemory;

/// Adds these bytes.
pub(crate) fn put(lines: &mut Vec<u8>, bytes: &[u8]) -> Result<(), NoMemory>
    ensures { IfOk result (λ _. lines.new.items ≡ lines.old.items ++ bytes.now) }
{
    match lines.extend_from_slice(bytes) {
        Ok(()) => Ok(()),
        Err(_) => Err(NoMemory),
    }
}

/// Adds bytes as they are shown: control bytes as `?`. If memory is refused, some of them may have been added.
pub fn push_shown(lines: &mut Vec<u8>, bytes: &[u8]) -> Result<(), NoMemory>
    ensures { IfOk result (λ _. lines.new.items ≡ lines.old.items ++ map shown_byte bytes.now) }
{
    for byte in bytes {
        put(lines, &[shown_byte(*byte)])?;
    }
    Ok(())
}
