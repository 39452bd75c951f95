//! Worked examples: what the definitions of `specs/` make of short scripts. The functions do nothing: each stands for its contract.
ghost use Rattle.std.specs.Prelude.{◌≡◌, ◌+◌, List, [], ◌∷◌, ◌++◌, codes, decimal, false, Some, None, Ok, IsTrue};
ghost use Rattle.glob_automaton.specs.Automata.{StateLimit};
ghost use Rattle.names.specs.declared.errors.Errno.TheVariants.{ENOENT, EEXIST, ENOTDIR, EINVAL, ENOSPC};
ghost use Rattle.names.specs.Errors.{errno_text};
ghost use Rattle.mediation.specs.History.{History, new_history, policy_version, with_deed};
ghost use Rattle.trace_script.specs.RunOutput.{policy_printed, printed_lines, run_lines};
ghost use Rattle.rule_profile.specs.Profile.{ProfileValue};
ghost use Rattle.mediation.specs.Deeds.{published_rules};
ghost use Rattle.trace_script.specs.Rows.{allow_rule};
ghost use Rattle.trace_script.specs.Script.{script_of, publish, remove};

/// Lines that are printed for commands, and for nothing else.
pub fn commands_are_answered()
    ensures changes { (limit : StateLimit) → run_lines limit 9 (codes "mkdir /a\ncreate /a/f\nrename /a /b\n")
        ≡ (codes "ok " ++ decimal 1) ∷ (codes "ok " ++ decimal 2) ∷ (codes "ok " ++ decimal 3) ∷ [] }
    ensures comments { (limit : StateLimit) → run_lines limit 9 (codes "# a tree\n\nmkdir /a\n \t\n  #mkdir /c\nmkdir /b\n")
        ≡ (codes "ok " ++ decimal 1) ∷ (codes "ok " ++ decimal 2) ∷ [] }
    ensures blanks { (limit : StateLimit) → run_lines limit 9 (codes "\tmkdir  /a \n mkdir\t/b\t")
        ≡ (codes "ok " ++ decimal 1) ∷ (codes "ok " ++ decimal 2) ∷ [] }
    ensures refused { (limit : StateLimit) → run_lines limit 9 (codes "mkdir /a\nmkdir /a\nmkdir a\ncreate /b/f\nmkdir /b")
        ≡ (codes "ok " ++ decimal 1) ∷ errno_text EEXIST ∷ errno_text EINVAL ∷ errno_text ENOENT ∷ (codes "ok " ++ decimal 2) ∷ [] }
    ensures full { (limit : StateLimit) → run_lines limit 1 (codes "mkdir /a\nmkdir /b\n")
        ≡ (codes "ok " ++ decimal 1) ∷ errno_text ENOSPC ∷ [] }
    ensures links { (limit : StateLimit) →
        run_lines limit 9 (codes
        "mkdir /a\nsymlink a /l\ncreate /l/f\nlink /l/f /g\nunlink /a/f\nrmdir /l\nrmdir /a\ncreate /l/f\nunlink /l\nlink /g /g\n")
        ≡ (codes "ok " ++ decimal 1) ∷ (codes "ok " ++ decimal 2) ∷ (codes "ok " ++ decimal 3) ∷ (codes "ok " ++ decimal 4)
        ∷ (codes "ok " ++ decimal 5) ∷ errno_text ENOTDIR ∷ (codes "ok " ++ decimal 6) ∷ errno_text ENOENT ∷ (codes "ok " ++ decimal 7)
        ∷ errno_text EEXIST ∷ [] }
    ensures unpublished { (limit : StateLimit) → run_lines limit 9 (codes "open q / r\ndrop q\nopen q / r\n")
        ≡ (codes "no profile policy " ++ decimal 0) ∷ (codes "policy q removed version " ++ decimal 1)
        ∷ (codes "no profile policy " ++ decimal 1) ∷ [] }
{}

/// Opens, where a profile without rules is published.
pub fn opens_are_answered()
    ensures { (limit : StateLimit) → let history = with_deed (new_history 9) (published_rules (record { name = codes "q"; rules = [] })) in
        printed_lines limit history
        (script_of (codes "mkdir /a\ncreate /a/f\nopen q /a/./f r\nopen q /a rw\nopen q /a/g l\nopen q /a/g r\nopen p /a/g l\n")).commands
        ≡ (codes "ok " ++ decimal 1) ∷ (codes "ok " ++ decimal 2)
        ∷ (codes "no rule for r /a/f node " ++ decimal 3 ++ codes " tree " ++ decimal 2 ++ codes " policy " ++ decimal 1)
        ∷ (codes "no rule for rw /a/ node " ++ decimal 2 ++ codes " tree " ++ decimal 2 ++ codes " policy " ++ decimal 1)
        ∷ (errno_text EINVAL ++ codes " tree " ++ decimal 2)
        ∷ (errno_text ENOENT ++ codes " tree " ++ decimal 2)
        ∷ (codes "no profile policy " ++ decimal 1) ∷ [] }
{}

/// Judged links, where a profile of three rules is published.
pub fn links_are_answered()
    ensures { (limit : StateLimit) → let rules = allow_rule (codes "/f") (codes "rk") ∷ allow_rule (codes "/g") (codes "wrlm") ∷ allow_rule
        (codes "/h") (codes "rl") ∷ [] in
        let history = with_deed (new_history 9) (published_rules (record { name = codes "q"; rules = rules })) in
        printed_lines limit history
        (script_of (codes "create /f\njudged-link q /f /x\njudged-link q /f /g\njudged-link q /f /h\njudged-link q /f /h\njudged-link p f /h\njudged-link q /f h\nunlink /f\n")).commands
        ≡ (codes "ok " ++ decimal 1)
        ∷ (codes "no rule for l /x node " ++ decimal 2 ++ codes " tree " ++ decimal 1 ++ codes " policy " ++ decimal 1)
        ∷ (codes "wider by wma /g node " ++ decimal 2 ++ codes " tree " ++ decimal 1 ++ codes " policy " ++ decimal 1)
        ∷ (codes "linked node " ++ decimal 2 ++ codes " tree " ++ decimal 2 ++ codes " policy " ++ decimal 1)
        ∷ (errno_text EEXIST ++ codes " tree " ++ decimal 2)
        ∷ (codes "no profile policy " ++ decimal 1)
        ∷ (errno_text EINVAL ++ codes " tree " ++ decimal 2)
        ∷ (codes "ok " ++ decimal 3) ∷ [] }
{}

/// Profiles that were read, published or refused by the test for too many states.
pub fn profiles_are_answered()
    ensures refused { (limit : StateLimit) (history : History) (profile : ProfileValue) → IsTrue (limit.is_over profile.rules) →
        policy_printed limit history (Ok profile) ≡ record { text = codes "policy refused: compile " ++ decimal 1; history = history } }
    ensures published { (limit : StateLimit) (history : History) (profile : ProfileValue) → limit.is_over profile.rules ≡ false →
        policy_printed limit history (Ok profile) ≡ record {
          text = codes "policy " ++ profile.name ++ codes " version " ++ decimal (policy_version history + 1);
          history = with_deed history (published_rules profile);
        } }
{}

/// Lines at which a script stops.
pub fn scripts_stop()
    ensures unknown { (script_of (codes "mkdir /a\nlook /a\nmkdir /b\n")).stopped ≡ Some 2 }
    ensures unknown_lines { (limit : StateLimit) → run_lines limit 9 (codes "mkdir /a\nlook /a\nmkdir /b\n")
        ≡ (codes "ok " ++ decimal 1) ∷ [] }
    ensures word_too_many { (script_of (codes "mkdir /a # a directory")).stopped ≡ Some 1 }
    ensures word_too_few { (script_of (codes "symlink a")).stopped ≡ Some 1 }
    ensures bad_permissions { (script_of (codes "\n\nopen q / x\n")).stopped ≡ Some 3 }
    ensures carriage_return { (script_of (codes "policy\r\n.\r\n")).stopped ≡ Some 1 }
    ensures no_dot { (script_of (codes "mkdir /a\npolicy\nprofile p {\n}\n")).stopped ≡ Some 2 }
    ensures empty { (script_of []).stopped ≡ None }
{}

/// Policies, whose lines are taken unchanged.
pub fn policies_are_gathered()
    ensures gathered { (script_of (codes "policy\nprofile p {\n#x\n . \n}\n.\ndrop p")).commands
        ≡ publish (codes "profile p {\n#x\n . \n}\n") ∷ remove (codes "p") ∷ [] }
    ensures none { (script_of (codes "policy \n.\n")).commands ≡ publish [] ∷ [] }
    ensures last_dot { (script_of (codes "policy\n.")).stopped ≡ None }
{}
