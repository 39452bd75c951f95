//! A path's text with the variables in place, where their lists are made.
ghost use Rattle.std.specs.Prelude.{◌≡◌, ℕ, List, [], IfErr, OnOk, Some};
ghost use Rattle.apparmor_pieces.specs.Pieces.{pieces};
ghost use Rattle.apparmor_variables.specs.PathTexts.{begins_with_slash, path_text};
ghost use Rattle.apparmor_variables.specs.Variables.{piece_texts};
ghost use Rattle.apparmor_variables.specs.inner.AddedBytes.{AddsPiece, Exceeds};
ghost use Rattle.apparmor_pieces.specs.CodePieces.{piece_value};
ghost use Rattle.apparmor_variables.specs.inner.Known.{known_in};

use crate::added_bytes::add_list;
use crate::declared::Declared;
use crate::one_list::known;
use crate::refusal::Refusal;
use crate::sink::Sink;
use crate::texts::Texts;
use apparmor_pieces::{Piece, split_piece};

/// Adds the path's text, with each use replaced, to what is still empty.
pub(crate) fn put_in_place<S: Sink>(
    sink: &mut S,
    declared: &Declared<'_>,
    made: &[Option<Texts>],
    path: &[u8],
) -> Result<(), Refusal>
    requires { S.Holds sink.old [] }
    ensures text { OnOk result ((text : List ℕ) × (path_text (known_in declared.now made.now) path.now ≡ Some text)
        × S.Holds sink.new text) }
    ensures refused { IfErr result (λ refusal. (text : List ℕ) → path_text (known_in declared.now made.now) path.now ≡ Some text →
        Exceeds refusal text) }
{
    let mut rest = path;
    while let Some((piece, more)) = split_piece(rest) {
        // Whether a slash precedes is read from the text so far, and whether one follows from the path as written.
        let after_slash = sink.ends_with_slash();
        add_piece(
            sink,
            declared,
            made,
            piece,
            after_slash,
            begins_with_slash(more),
        )?;
        rest = more;
    }
    Ok(())
}

/// Adds a piece in its place. The flags say whether a slash is directly before it, and directly after it.
fn add_piece<S: Sink>(
    sink: &mut S,
    declared: &Declared<'_>,
    made: &[Option<Texts>],
    piece: Piece<'_>,
    slash_before: bool,
    slash_behind: bool,
) -> Result<(), Refusal>
    ensures { (text : List ℕ) → S.Holds sink.old text → AddsPiece result (S.Holds sink.new) text slash_before slash_behind
        (piece_texts (known_in declared.now made.now) (piece_value piece.entry)) }
{
    match piece {
        Piece::Byte(byte) => sink.add(&[byte]),
        Piece::Escaped(byte) => sink.add(&[b'\\', byte]),
        Piece::Use(name) => match known(declared, made, name) {
            Some(list) => add_list(sink, list, slash_before, slash_behind),
            None => Err(Refusal::Nothing),
        },
    }
}

/// Whether the text begins with a slash.
fn begins_with_slash(text: &[u8]) -> bool
    ensures { result ≡ begins_with_slash (pieces text.now) }
{
    match text {
        [byte, ..] => *byte == b'/',
        [] => false,
    }
}
