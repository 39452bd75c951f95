//! Laws of the automata of parts of a profile's rules.
ghost use Rattle.std.specs.Prelude.{◌≡◌, ◌≤◌, ℕ, List, length};
ghost use Rattle.rule_profile.specs.Profile.{RuleValue};
ghost use Rattle.automaton_rows.specs.declared.fault.CompileFault.{CompileFault};
ghost use Rattle.automaton_rows.specs.Automata.{Automaton};
ghost use Rattle.glob_automaton.specs.Automata.{IsAutomatonOf, IsCompileFault};
ghost use Rattle.automaton_products.specs.Products.{IsProduct, IsProductFault};
ghost use Rattle.glob_automaton.specs.Parts.{IsAutomatonOfPart, BeginWithSlashes, AreMoreThanIn};
ghost use Rattle.glob_automaton.specs.Sets.{AreMoreThan};

use names::records_are_their_hits;
use rule_globs::{live_is_left_first, live_places_go_on};

/// The product of the automata of two adjacent parts of the rules is the automaton of both parts together.
pub fn parts_make_a_part()
    ensures { (rules : List RuleValue) (first middle last : ℕ) (a b c : Automaton) → first ≤ middle → middle ≤ last →
        IsAutomatonOfPart rules first middle a → IsAutomatonOfPart rules middle last b → IsProduct a b c →
        IsAutomatonOfPart rules first last c }
{
    records_are_their_hits();
}

/// A part of the rules never has more sets than all rules. So if a product has too many states, all rules have too many sets.
pub fn parts_are_no_more()
    ensures sets { (rules : List RuleValue) (first last n : ℕ) → AreMoreThanIn rules first last n → AreMoreThan n rules }
    ensures products { (rules : List RuleValue) (first middle last : ℕ) (a b : Automaton) (fault : CompileFault) → BeginWithSlashes rules →
        first ≤ middle →
        middle ≤ last → IsAutomatonOfPart rules first middle a → IsAutomatonOfPart rules middle last b → IsProductFault a b fault →
        IsCompileFault rules fault }
{
    live_places_go_on();
    live_is_left_first();
}

/// The automaton of the part that is all rules is the automaton of the rules.
pub fn whole_parts_are_automata()
    ensures { (rules : List RuleValue) (a : Automaton) → BeginWithSlashes rules → IsAutomatonOfPart rules 0 (length rules) a →
        IsAutomatonOf rules a }
{
    live_places_go_on();
    live_is_left_first();
}
