//! Laws that show the definitions of `specs/` to be sane. The functions do nothing; each exists for its contract.
ghost use Rattle.std.specs.Prelude.{◌≡◌, ◌⊎◌, ◌<◌, ℕ, List, [], All, length, Some};
ghost use Rattle.apparmor_pieces.specs.Pieces.{Text};
ghost use Rattle.apparmor_variables.specs.Counts.{CountTogether};
ghost use Rattle.apparmor_variables.specs.PathTexts.{path_text, IsSubstituted, PathProblem};
ghost use Rattle.apparmor_variables.specs.Problems.{Problem, HasProblem, IsListed};
ghost use Rattle.apparmor_variables.specs.Variables.{Variable, HasList, list_at};
ghost use Rattle.apparmor_variables.specs.WholeLists.{whole_list_at};

/// A variable has one list, or it has one problem, and not both.
pub fn one_list_or_one_problem()
    ensures some { (variables : List Variable) (name : Text) → IsListed variables name
        ⊎ ((problem : Problem) × HasProblem variables [] name problem) }
    ensures list { (variables : List Variable) (name : Text) (one other : List Text) → HasList variables name one →
        HasList variables name other → one ≡ other }
    ensures problem { (variables : List Variable) (name : Text) (one other : Problem) → HasProblem variables [] name one →
        HasProblem variables [] name other → one ≡ other }
    ensures either { (variables : List Variable) (name : Text) (problem : Problem) → IsListed variables name →
        ¬ HasProblem variables [] name problem }
{}

/// Variables count one number together.
pub fn one_count()
    ensures some { (variables some : List Variable) → (n : ℕ) × CountTogether variables some n }
    ensures one { (variables some : List Variable) (one other : ℕ) → CountTogether variables some one →
        CountTogether variables some other → one ≡ other }
{}

/// A variable that has a list has it within N levels of variables, N being the number of variables; so has a path its text.
pub fn lists_need_few_levels()
    ensures list { (variables : List Variable) (name : Text) (list : List Text) → HasList variables name list →
        list_at (length variables) variables name ≡ Some list }
    ensures text { (variables : List Variable) (n : ℕ) (path text : Text) → path_text (list_at n variables) path ≡ Some text →
        path_text (list_at (length variables) variables) path ≡ Some text }
{}

/// A path has one text with its variables in place, or it has one problem, and not both.
pub fn one_text_or_one_problem()
    ensures some { (variables : List Variable) (path : Text) → ((text : Text) × IsSubstituted variables path text)
        ⊎ ((problem : Problem) × PathProblem variables path problem) }
    ensures text { (variables : List Variable) (path one other : Text) → IsSubstituted variables path one →
        IsSubstituted variables path other → one ≡ other }
    ensures problem { (variables : List Variable) (path : Text) (one other : Problem) → PathProblem variables path one →
        PathProblem variables path other → one ≡ other }
    ensures either { (variables : List Variable) (path text : Text) (problem : Problem) → IsSubstituted variables path text →
        ¬ PathProblem variables path problem }
{}

/// Where each variable has a value, it makes no difference whether limits apply to all that a list is made of, or to whole
/// lists only.
pub fn limits_are_of_whole_lists()
    ensures { (variables : List Variable) → All (λ v. 0 < length v.values) variables → (n : ℕ) (name : Text) → list_at n variables name
        ≡ whole_list_at n variables name }
{}
