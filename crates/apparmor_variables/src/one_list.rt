//! The list of one variable, given that the lists it needs are made.
ghost use Rattle.std.specs.Prelude.{◌≡◌, ◌<◌, ◌∷◌, [], map, option_and_then, slice_get};
ghost use Rattle.std.specs.Option.{option_map};
ghost use Rattle.apparmor_variables.specs.Variables.{piece_texts, value_texts, list_of_values, fitting, each_with};
ghost use Rattle.apparmor_pieces.specs.CodePieces.{piece_value};
ghost use Rattle.apparmor_variables.specs.inner.Gives.{Gives};
ghost use Rattle.apparmor_variables.specs.inner.Known.{known_in};

use crate::declared::Declared;
use crate::refusal::Refusal;
use crate::texts::Texts;
use apparmor_pieces::{Piece, split_piece};
use std::alloc::Global;

/// Returns the list of the variable of that name, if it is made.
pub(crate) fn known<'m>(
    declared: &Declared<'_>,
    made: &'m [Option<Texts>],
    name: &[u8],
) -> Option<&'m Texts>
    ensures { option_map (λ list. list.now) result ≡ known_in declared.now made.now name.now }
{
    let place = declared.place(name)?;
    match made.get(place) {
        Some(Some(list)) => Some(list),
        _ => None,
    }
}

/// Returns the texts of all these values.
pub(crate) fn list_of(
    alloc: Global,
    declared: &Declared<'_>,
    made: &[Option<Texts>],
    values: &[&[u8]],
) -> Result<Texts, Refusal>
    ensures { Gives result (list_of_values (known_in declared.now made.now) (map (λ value. value.now) values.now)) }
{
    let mut texts = Texts::none(alloc);
    for value in values {
        let more = texts_of(alloc, declared, made, value)?;
        texts = texts.append(more)?;
    }
    Ok(texts)
}

/// Returns the texts of a value.
fn texts_of(
    alloc: Global,
    declared: &Declared<'_>,
    made: &[Option<Texts>],
    value: &[u8],
) -> Result<Texts, Refusal>
    ensures { Gives result (value_texts (known_in declared.now made.now) value.now) }
{
    let mut texts = Texts::one_empty(alloc)?;
    let mut rest = value;
    while let Some((piece, more)) = split_piece(rest) {
        texts = with_piece(alloc, declared, made, texts, piece)?;
        rest = more;
    }
    Ok(texts)
}

/// Returns each of the texts with each text of the piece appended.
fn with_piece(
    alloc: Global,
    declared: &Declared<'_>,
    made: &[Option<Texts>],
    texts: Texts,
    piece: Piece<'_>,
) -> Result<Texts, Refusal>
    ensures { Gives result (option_and_then (λ choices. fitting (each_with texts choices))
        (piece_texts (known_in declared.now made.now) (piece_value piece.entry))) }
{
    match piece {
        Piece::Byte(byte) => texts.each_with_end(&[byte]),
        Piece::Escaped(byte) => texts.each_with_end(&[b'\\', byte]),
        Piece::Use(name) => match known(declared, made, name) {
            Some(list) => with_list(alloc, texts, list),
            None => Err(Refusal::Nothing),
        },
    }
}

/// Returns each of the texts with each text of the list appended.
fn with_list(alloc: Global, texts: Texts, list: &Texts) -> Result<Texts, Refusal>
    ensures { Gives result (fitting (each_with texts list.now)) }
{
    if list.len() == 1 {
        texts.each_with_end(list.text(0))
    } else {
        texts.each_with(alloc, list)
    }
}
