//! Lists of names.
ghost use Rattle.std.specs.Prelude.{◌≡◌, ◌∷◌, [], ◌<◌, IfSome, None, length};
ghost use Rattle.trace_names.specs.Choices.{end_byte};
ghost use Rattle.trace_names.specs.NameLists.{names_of};

use crate::choice::NameEnd;

/// The first name of a list, without its end, and the list after it.
pub(crate) fn first_name(list: &[u8], end: NameEnd) -> Option<(&[u8], &[u8])>
    ensures none { result ≡ None → list.now ≡ [] }
    ensures some { IfSome result (λ cut. names_of (end_byte end) list.now ≡ cut.0.now ∷ names_of (end_byte end) cut.1.now) }
    ensures shorter { IfSome result (λ cut. length cut.1.now < length list.now) }
{
    if list.is_empty() {
        return None;
    }
    let end = end.byte();
    match list.iter().position(|byte| *byte == end) {
        Some(at) => Some((&list[..at], &list[at + 1..])),
        None => Some((list, &[])),
    }
}
