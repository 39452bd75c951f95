//! Worked rows: what the definitions of `specs/` make of short scripts. The functions do nothing: each stands for its
//! contract.
ghost use Rattle.std.specs.Prelude.{◌≡◌, [], ◌∷◌, ◌++◌, codes, decimal, false, map, true};
ghost use Rattle.glob_automaton.specs.Automata.{StateLimit};
ghost use Rattle.mediation.specs.Deeds.{published_rules};
ghost use Rattle.mediation.specs.History.{new_history, with_deed};
ghost use Rattle.trace_report.specs.declared.format.Format.TheVariants.{Text};
ghost use Rattle.trace_script.specs.Rows.{allow_rule};
ghost use Rattle.trace_test.specs.Expectations.{expectations, is_answer};
ghost use Rattle.trace_test.specs.Laws.{answer_lines, asked_of};
ghost use Rattle.trace_test.specs.TestOutput.{failure_text, shown};
ghost use Rattle.test_script.specs.TestScript.{test_script};

/// Answers that are expected, and others.
pub fn expectations_are_told()
    ensures lines { (limit : StateLimit) →
        map (failure_text Text) (expectations limit (new_history 9)
        (test_script (codes "expect ok 1\n# a directory\nmkdir /a\n\nexpect no\t1\nexpect 2\n")).commands)
        ≡ (decimal 1 ++ codes ": expected ok 1, got nothing")
        ∷ (decimal 5 ++ codes ": expected no?1, got " ++ shown (codes "ok " ++ decimal 1))
        ∷ (decimal 6 ++ codes ": expected 2, got " ++ shown (codes "ok " ++ decimal 1)) ∷ [] }
    ensures front { is_answer (codes "allowed \t...") (codes "allowed /a node 2") ≡ true }
    ensures whole { is_answer (codes "allowed ...") (codes "allowed") ≡ true }
    ensures within_a_word { is_answer (codes "allow ...") (codes "allowed /a node 2") ≡ false }
    ensures longer { is_answer (codes "allowed /a ...") (codes "allowed") ≡ false }
    ensures no_last_word { is_answer (codes "allowed...") (codes "allowed /a node 2") ≡ false }
    ensures not_last { is_answer (codes "... allowed") (codes "allowed") ≡ false }
{}

/// Questions about names, where a profile of two rules is published.
pub fn questions_are_answered()
    ensures { (limit : StateLimit) → let rules = allow_rule (codes "/f") (codes "r") ∷ allow_rule (codes "/g") (codes "wl") ∷ [] in
        let history = with_deed (new_history 9) (published_rules (record { name = codes "q"; rules = rules })) in
        answer_lines limit history (asked_of (test_script
        (codes "judge q /f r\njudge q /g rwa\nexplain q /h kr\njudge q f r\njudge p f r\ndrop q\njudge q / r\n")).commands)
        ≡ codes "allowed" ∷ codes "no rule for r" ∷ codes "no rule for rk; r: no rule; k: no rule" ∷ codes "bad name" ∷ codes "no profile"
        ∷ (codes "policy q removed version " ++ decimal 2) ∷ codes "no profile" ∷ [] }
{}
