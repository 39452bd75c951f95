//! A text cut into pieces.
ghost use Rattle.std.specs.Prelude.{◌≡◌, ◌∷◌, ◌<◌, ◌≤◌, ◌+◌, ◌-◌, [], length, IfSome, None};
ghost use Rattle.std.specs.List.{prefix_len};
ghost use Rattle.std.specs.Option.{option_map};
ghost use Rattle.apparmor_pieces.specs.Pieces.{is_name_byte, closed_name, used_name, escape, written, pieces_behind, pieces};
ghost use Rattle.apparmor_pieces.specs.CodePieces.{piece_value};

/// A piece of a text.
#[derive(Clone, Copy, Debug)]
pub enum Piece<'t> {
    /// A byte that stands for itself.
    Byte(u8),
    /// A backslash and the byte after it.
    Escaped(u8),
    /// A use of the variable of that name.
    Use(&'t [u8]),
}

/// A byte of a name: an ASCII letter or digit, or `_`.
fn is_name_byte(byte: u8) -> bool
    ensures { result ≡ is_name_byte byte }
{
    byte.is_ascii_alphanumeric() || byte == b'_'
}

/// Returns the number of name bytes at the front.
fn name_length(bytes: &[u8]) -> usize
    ensures { result ≡ prefix_len is_name_byte bytes.now }
{
    let mut length = 0;
    while length < bytes.len() && is_name_byte(bytes[length]) {
        length += 1;
    }
    length
}

/// Returns the name at the front, if it begins with a letter and a closing brace follows it.
fn closed_name(bytes: &[u8]) -> Option<&[u8]>
    ensures name { option_map (λ name. name.now) result ≡ closed_name bytes.now }
    ensures within { IfSome result (λ name. length name.now < length bytes.now) }
{
    let length = name_length(bytes);
    match bytes {
        [first, ..] if first.is_ascii_alphabetic() => {
            let (name, behind) = bytes.split_at(length);
            match behind {
                [b'}', ..] => Some(name),
                _ => None,
            }
        }
        _ => None,
    }
}

/// Returns the name of the use whose `@` directly precedes these bytes.
fn used_name(bytes: &[u8]) -> Option<&[u8]>
    ensures name { option_map (λ name. name.now) result ≡ used_name bytes.now }
    ensures within { IfSome result (λ name. length name.now + 2 ≤ length bytes.now) }
{
    match bytes {
        [b'{', rest @ ..] => closed_name(rest),
        _ => None,
    }
}

/// Returns the piece that a backslash forms with the bytes after it, and what is left after it.
fn escape(bytes: &[u8]) -> (Piece<'_>, &[u8])
    ensures piece { piece_value result.0 ≡ escape bytes.now }
    ensures rest { pieces_behind (length (written (escape bytes.now)) - 1) bytes.now ≡ pieces result.1.now }
    ensures shorter { length result.1.now ≤ length bytes.now }
{
    match bytes {
        [byte, rest @ ..] => (Piece::Escaped(*byte), rest),
        [] => (Piece::Byte(b'\\'), bytes),
    }
}

/// The first piece of a text, and what is left after it.
pub fn split_piece(text: &[u8]) -> Option<(Piece<'_>, &[u8])>
    ensures none { result ≡ None → text.now ≡ [] }
    ensures some { IfSome result (λ cut. pieces text.now ≡ piece_value cut.0 ∷ pieces cut.1.now) }
    ensures shorter { IfSome result (λ cut. length cut.1.now < length text.now) }
{
    let [byte, rest @ ..] = text else {
        return None;
    };
    if *byte == b'\\' {
        return Some(escape(rest));
    }
    if *byte != b'@' {
        return Some((Piece::Byte(*byte), rest));
    }
    match used_name(rest) {
        Some(name) => Some((Piece::Use(name), &rest[name.len() + 2..])),
        None => Some((Piece::Byte(b'@'), rest)),
    }
}
