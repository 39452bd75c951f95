//! Laws of names and of states. The functions do nothing: each stands for its contract.
ghost use Rattle.std.specs.Prelude.{◌≡◌, ◌⊎◌, ℕ, List, true};
ghost use Rattle.automaton_search.specs.Order.{IsLess};
ghost use Rattle.automaton_search.specs.contracts.states.StatesPartialEq.TheImpl as states_impl;
ghost use Rattle.automaton_search.specs.declared.states.States.{States};

/// Of two lists of bytes one is less than the other, or they are the same; none is less than itself, and what is less than one is
/// less than all that are greater.
pub fn names_are_in_one_order()
    ensures some { (u v : List ℕ) → (u ≡ v) ⊎ (IsLess u v ⊎ IsLess v u) }
    ensures irreflexive { (u : List ℕ) → ¬ IsLess u u }
    ensures transitive { (u v w : List ℕ) → IsLess u v → IsLess v w → IsLess u w }
{}

/// States that `==` finds equal are the same.
pub(crate) fn equal_states_are_one()
    ensures one { (s t : States) → states_impl.eq-value.it s t ≡ true → s ≡ t }
    ensures itself { (s : States) → states_impl.eq-value.it s s ≡ true }
{}
