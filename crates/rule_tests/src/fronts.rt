//! Faults that are found without looking at the text's end.
ghost use Rattle.std.specs.List.{All};
ghost use Rattle.rule_reader.specs.ReadFaults.{IsSettled};
ghost use Rattle.rule_tests.specs.Settled.{settled_fronts, unsettled_fronts};

/// Which prefixes of texts have a settled fault. No result of `read` shows this, so it is proved instead of run.
fn faults_are_settled()
    ensures settled { All IsSettled settled_fronts }
    ensures unsettled { All (λ front. IsSettled front → ⊥) unsettled_fronts }
{}

#[test]
fn settled_faults() {
    faults_are_settled();
}
