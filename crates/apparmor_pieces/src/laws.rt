//! Laws that show the definitions of `specs/` to be sane. The functions do nothing; each exists for its contract.
ghost use Rattle.std.specs.Prelude.{◌≡◌};
ghost use Rattle.std.specs.List.{flat_map};
ghost use Rattle.apparmor_pieces.specs.Pieces.{Text, pieces, written};
ghost use Rattle.apparmor_pieces.specs.Slashes.{one_slash};

/// The pieces of a text, written out, are the text.
pub fn texts_are_their_pieces()
    ensures { (text : Text) → flat_map written (pieces text) ≡ text }
{}

/// Where each run of slashes is already a single one, nothing changes.
pub fn one_slash_stays()
    ensures { (text : Text) → one_slash (one_slash text) ≡ one_slash text }
{}
