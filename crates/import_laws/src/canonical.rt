//! Laws of canonical texts as flattened texts. The functions do nothing: each stands for its contract.
ghost use Rattle.std.specs.Prelude.{◌≡◌, IsTrue, Some, None};
ghost use Rattle.names.specs.declared.permissions.Perms.{Perms};
ghost use Rattle.names.specs.Permissions.{letters};
ghost use Rattle.rule_profile.specs.Profile.{ProfileValue};
ghost use Rattle.rule_profile.specs.Readable.{is_profile};
ghost use Rattle.rule_writer.specs.Canonical.{canonical};
ghost use Rattle.apparmor_words.specs.Letters.{letters_of};
ghost use Rattle.apparmor_text.specs.Texts.{ReadsItems};
ghost use Rattle.import_laws.specs.CanonicalItems.{canonical_items, plain_letters, WordsEndPlainly};

/// The canonical text of a profile, read as a flattened text, has the items that it is written with: the head, the rules in
/// their order, the closing brace, and blanks; unless its name or a path ends with a backslash.
pub fn canonical_texts_have_their_items()
    ensures { (p : ProfileValue) → IsTrue (is_profile p) → WordsEndPlainly p → ReadsItems (canonical p) (canonical_items p) None }
{}

/// The letters that a set of permissions is written with in a canonical text are read as the same set, and nothing else.
pub fn canonical_letters_are_read()
    ensures { (perms : Perms) → letters_of (letters perms) ≡ Some (plain_letters perms) }
{}
