//! The laws of imported paths. The functions do nothing: each stands for its contract.
ghost use Rattle.std.specs.Prelude.{◌≡◌, ◌≢◌, ◌↔◌, ◌∷◌, [], ℕ, List, Some, map, All, IsTrue};
ghost use Rattle.rule_globs.specs.Glob.{Takes};
ghost use Rattle.rule_globs.specs.Meaning.{alt_all};
ghost use Rattle.rule_globs.specs.Tokens.{Token, pattern_of, tokens_of, all_full};
ghost use Rattle.rule_globs.specs.declared.items.Item.{Item};
ghost use Rattle.rule_reader.specs.PathText.{text_tokens};
ghost use Rattle.rule_profile.specs.Readable.{is_path};
ghost use Rattle.rule_making.specs.Choices.{all_choose};
ghost use Rattle.rule_making.specs.Leads.{led};
ghost use Rattle.apparmor_pieces.specs.Slashes.{one_slash};
ghost use Rattle.import_profile.specs.Groups.{groups_choose, led_from};
ghost use Rattle.import_profile.specs.ImportedPaths.{imported_paths};
ghost use Rattle.import_profile.specs.Settled.{path_text, is_settled};

/// The tokens of a path determine the same as its items: whether its groups are choices, and the paths that it is led to.
pub fn tokens_tell_the_same()
    ensures choices { (items : List Item) → groups_choose (tokens_of items) ≡ all_choose items }
    ensures leads { (items : List Item) → IsTrue (all_full items) → led_from (tokens_of items) ≡ led items }
{}

/// Each path that a text is brought to can be read, and is settled.
pub fn imported_paths_can_be_read()
    ensures readable { (text : List ℕ) → All (λ path. IsTrue (is_path path)) (imported_paths text) }
    ensures settled { (text : List ℕ) → All (λ path. IsTrue (is_settled path)) (imported_paths text) }
{}

/// A name is matched by a path that a text is brought to, if there are any, exactly if the text's own pattern matches it.
pub fn imported_paths_take_the_same()
    ensures { (text name : List ℕ) (path : List Token) → text_tokens (one_slash text) ≡ Some path → imported_paths text ≢ [] →
        Takes (pattern_of path) name ↔ Takes (alt_all (map pattern_of (imported_paths text))) name }
{}

/// A path that can be read and is settled is imported as it is, from its canonical text; and so is each path that a text is
/// brought to.
pub fn settled_paths_are_imported_as_they_are()
    ensures again { (text : List ℕ) → All (λ path. imported_paths (path_text path) ≡ path ∷ []) (imported_paths text) }
    ensures settled { (path : List Token) → IsTrue (is_path path) → IsTrue (is_settled path) →
        imported_paths (path_text path) ≡ path ∷ [] }
{}
