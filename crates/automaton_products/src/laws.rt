//! Laws of pairs.
ghost use Rattle.std.specs.Prelude.{◌≡◌, true};
ghost use Rattle.automaton_products.specs.contracts.pairs.PairPartialEq.TheImpl as pair_impl;
ghost use Rattle.automaton_products.specs.declared.pairs.Pair.{Pair};

/// Pairs that `==` finds equal are the same.
pub fn equal_pairs_are_one()
    ensures one { (p q : Pair) → pair_impl.eq-value.it p q ≡ true → p ≡ q }
    ensures itself { (p : Pair) → pair_impl.eq-value.it p p ≡ true }
{}
