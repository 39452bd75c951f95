//! The laws of led paths. The functions do nothing: each stands for its contract.
ghost use Rattle.std.specs.Prelude.{◌≡◌, ◌≢◌, ◌↔◌, ◌≤◌, [], false, length, ℕ, List, map, All, IsTrue};
ghost use Rattle.rule_globs.specs.Glob.{Takes};
ghost use Rattle.rule_globs.specs.Meaning.{meaning_of, alt_all};
ghost use Rattle.rule_globs.specs.Tokens.{tokens_of, pattern_of, all_full};
ghost use Rattle.rule_globs.specs.declared.items.Item.{Item};
ghost use Rattle.rule_profile.specs.Limits.{most_items};
ghost use Rattle.rule_profile.specs.Readable.{are_tokens, is_path};
ghost use Rattle.rule_making.specs.Leads.{leads, led};

/// Where the items of a path are as reading leaves them, no path that it is led to is lost for not being readable.
pub fn no_path_is_lost()
    ensures { (items : List Item) → IsTrue (all_full items) → IsTrue (are_tokens false 0 (tokens_of items)) →
        length (tokens_of items) ≤ most_items →
        led items ≡ leads items }
{}

/// A path matches a name exactly if one of its led paths does, if there are any; and each of these can be read.
pub fn led_paths_take_the_same()
    ensures same { (items : List Item) (name : List ℕ) → IsTrue (all_full items) → led items ≢ [] →
        Takes (meaning_of items) name ↔ Takes (alt_all (map pattern_of (led items))) name }
    ensures readable { (items : List Item) → All (λ path. IsTrue (is_path path)) (led items) }
{}
