//! Laws that show the definitions of `specs/` sane. The functions do nothing: each stands for its contract.
ghost use Rattle.std.specs.Prelude.{◌≡◌, ◌≢◌, ◌⊎◌, ◌++◌, ◌∷◌, [], ℕ, List, false};
ghost use Rattle.std.specs.List.{All};
ghost use Rattle.std.specs.List.Sorted.{IsPermutation};
ghost use Rattle.names.specs.declared.permissions.Perms.{Perms};
ghost use Rattle.rule_profile.specs.Profile.{RuleValue};
ghost use Rattle.trace_names.specs.Choices.{end_byte};
ghost use Rattle.trace_names.specs.NameLists.{list_of, names_of};
ghost use Rattle.trace_names.specs.Names.{names_text, selected};
ghost use Rattle.trace_names.specs.declared.choice.NamesChoice.{NamesChoice};
ghost use Rattle.trace_names.specs.declared.choice.Selection.TheVariants.{Allowed, NotAllowed, All as Each};

/// A list is that of its names, up to the end that the last may lack; and a list of names that don't have the byte that ends them
/// has these names, and no others.
pub fn lists_are_their_names()
    ensures joined { (end : ℕ) (list : List ℕ) → (list_of end (names_of end list) ≡ list)
        ⊎ (list_of end (names_of end list) ≡ list ++ end ∷ []) }
    ensures endless { (end : ℕ) (list : List ℕ) → All (λ name. All (λ b. b ≢ end) name) (names_of end list) }
    ensures parted { (end : ℕ) (names : List (List ℕ)) → All (λ name. All (λ b. b ≢ end) name) names →
        names_of end (list_of end names) ≡ names }
{}

/// The names that are allowed and those that aren't are together all names, each in one of the two.
pub fn names_are_allowed_or_not()
    ensures together { (rules : List RuleValue) (ask : Perms) (names : List (List ℕ)) →
        IsPermutation names (selected Allowed rules ask names ++ selected NotAllowed rules ask names) }
    ensures apart { (rules : List RuleValue) (ask : Perms) (names : List (List ℕ)) →
        selected NotAllowed rules ask (selected Allowed rules ask names) ≡ [] }
    ensures each { (rules : List RuleValue) (ask : Perms) (names : List (List ℕ)) → selected Each rules ask names ≡ names }
{}

/// What is written without verdicts is again a list, of the names that are chosen.
pub fn written_names_are_a_list()
    ensures { (choice : NamesChoice) (rules : List RuleValue) (ask : Perms) (list : List ℕ) → choice.verdicts ≡ false →
        names_of (end_byte choice.end) (names_text choice rules ask list)
        ≡ selected choice.selection rules ask (names_of (end_byte choice.end) list) }
{}
