//! Laws of what setting cells makes of a row, and of when a row agrees with what was read, to show these definitions sane.
ghost use Rattle.std.specs.Prelude.{◌≡◌, ◌≢◌, ◌↔◌, ℕ, ◌<◌, List, [], ◌∷◌, ◌++◌, Some, length, slice_get};
ghost use Rattle.std.specs.List.{Contains};
ghost use Rattle.row_rule.specs.declared.cell.Cell.{Cell};
ghost use Rattle.row_rule.specs.Row.{write, Agrees};

/// Setting cells keeps the length of the row and every other place; setting them in two parts is the same as at once; and the
/// last word set at a place stays there.
pub fn writing_sets_its_places()
    ensures long { (cells : List ℕ) (plan : List Cell) → length (write cells plan) ≡ length cells }
    ensures others { (cells : List ℕ) (plan : List Cell) (place : ℕ) →
        ((cell : Cell) → Contains plan cell → cell.place ≢ place) →
        slice_get (write cells plan) place ≡ slice_get cells place }
    ensures parts { (cells : List ℕ) (plan more : List Cell) → write cells (plan ++ more) ≡ write (write cells plan) more }
    ensures last { (cells : List ℕ) (plan : List Cell) (cell : Cell) → cell.place < length cells →
        slice_get (write cells (plan ++ cell ∷ [])) cell.place ≡ Some cell.word }
{}

/// A row agrees with what was read exactly when each word that was read is at its place.
pub fn agreement_is_of_each_read()
    ensures { (cells : List ℕ) (reads : List Cell) →
        Agrees reads cells ↔ ((read : Cell) → Contains reads read → slice_get cells read.place ≡ Some read.word) }
{}
