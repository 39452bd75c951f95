//! Laws of first faults, and of values that are given beforehand. The functions do nothing: each stands for its contract.
ghost use Rattle.std.specs.Prelude.{◌≡◌, ℕ, Bool, true, false, List, [], Option, bytes_eq, find};
ghost use Rattle.apparmor_text.specs.Parts.{ItemValue};
ghost use Rattle.import_scope.specs.declared.assigned.Define.{Define};
ghost use Rattle.import_scope.specs.Overrides.{is_given, items_given};
ghost use Rattle.import_scope.specs.Scopes.{ScopeState, Fault, at_start, behind_all, with_defines};
ghost use Rattle.import_scope.specs.FirstFaults.{FirstFault};

/// Items have one first fault or none, and not both.
pub fn texts_have_one_first_fault()
    ensures some { (s : ScopeState) (items : List ItemValue) → (end : Option Fault) × FirstFault s items end }
    ensures one { (s : ScopeState) (items : List ItemValue) (one other : Option Fault) → FirstFault s items one →
        FirstFault s items other → one ≡ other }
{}

/// Values that replace what a text says of their variables are all that these have; and where nothing is given, or given values
/// only precede the text, the items of the text are as they are.
pub fn given_values_are_all_there_is()
    ensures given { (defines : List Define) (name : List ℕ) (items : List ItemValue) → is_given defines name ≡ true →
        find (λ v. bytes_eq v.name name) (behind_all (at_start defines) (items_given true defines items)).declared
        ≡ find (λ v. bytes_eq v.name name) (with_defines [] defines) }
    ensures preceding { (defines : List Define) (items : List ItemValue) → items_given false defines items ≡ items }
    ensures none { (overrides : Bool) (items : List ItemValue) → items_given overrides [] items ≡ items }
{}
