//! What two counts exclude.
ghost use Rattle.std.specs.Prelude.{◌≡◌, ◌≢◌, ◌+◌, ℕ};
ghost use Rattle.row_rule.specs.Counts.{IsDisturbed, IsOdd, IsStill, IsVersion};
ghost use Rattle.row_rule.specs.declared.count.Busy.{Busy};

/// An even count stands for one version, its half, and an odd one for none.
pub fn counts_have_one_version()
    ensures one { (count one other : ℕ) → IsVersion count one → IsVersion count other → one ≡ other }
    ensures odd_count { (count version : ℕ) → IsOdd count → IsVersion count version → ⊥ }
    ensures even_count { (n : ℕ) → IsOdd (n + n) → ⊥ }
{}

/// A walk by two counts has one outcome: it is still where both are the same even count, at one version, and busy otherwise.
pub fn walks_have_one_outcome()
    ensures version { (began ended one other : ℕ) → IsStill began ended one → IsStill began ended other → one ≡ other }
    ensures counts { (began ended : ℕ) (one other : Busy) → IsDisturbed began ended one → IsDisturbed began ended other → one ≡ other }
    ensures always_busy { (began ended version : ℕ) (busy : Busy) → IsStill began ended version → IsDisturbed began ended busy → ⊥ }
    ensures no_second_count { (began ended version : ℕ) → ended ≢ began → IsStill began ended version → ⊥ }
    ensures begun_while_open { (began ended version : ℕ) → IsOdd began → IsStill began ended version → ⊥ }
{}
