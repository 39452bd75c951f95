//! Laws of the results of reading. The functions do nothing: each exists for its contract.
ghost use Rattle.std.specs.Prelude.{◌≡◌, ℕ, List, Result, Ok};
ghost use Rattle.apparmor_words.specs.declared.stop.Failure.TheVariants as failures;
ghost use Rattle.apparmor_words.specs.declared.stop.Stop as told;
ghost use Rattle.apparmor_words.specs.Gives.{Fails, Gives, Reads};
ghost use Rattle.apparmor_words.specs.Steps.{Stop};
ghost use Rattle.apparmor_words.specs.Stops.{stop_value};

/// A reading has one result, apart from failed allocations: one value, or one fault at one place, and no fault if there is a value.
pub fn readings_have_one_answer()
    ensures value { (read : Result (List ℕ) Stop) (one other : List ℕ) →
        Reads (λ x. x) (Ok one) read → Reads (λ x. x) (Ok other) read → one ≡ other }
    ensures fault { (read : Result (List ℕ) Stop) (one other : told.Stop) →
        Fails (failures.At one) read → Fails (failures.At other) read → stop_value one ≡ stop_value other }
    ensures fault_of_a_value { (read : Result (List ℕ) Stop) (value : List ℕ) (stop : told.Stop) →
        Gives (λ x. x) (Ok value) read → Fails (failures.At stop) read → ⊥ }
{}
