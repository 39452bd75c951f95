//! Worked rows: what the definitions of `specs/` make of short lines. The functions do nothing: each stands for its contract.
ghost use Rattle.std.specs.Prelude.{◌≡◌, [], ◌∷◌, codes, None, Some};
ghost use Rattle.trace_script.specs.Script.{command, ignored, no_command, opens_policy, remove};
ghost use Rattle.test_script.specs.TestScript.{ask, expect, quoted_words, run, test_kind};

/// Words in quotes, and lines that have none.
pub fn quotes_are_read()
    ensures none { quoted_words (codes "\tmkdir  /a ") ≡ Some (codes "mkdir" ∷ codes "/a" ∷ []) }
    ensures blanks { quoted_words (codes "open \"a b\" \"/c\td\" r") ≡ Some (codes "open" ∷ codes "a b" ∷ codes "/c\td" ∷ codes "r" ∷ []) }
    ensures empty { quoted_words (codes "symlink \"\" /l") ≡ Some (codes "symlink" ∷ [] ∷ codes "/l" ∷ []) }
    ensures within { quoted_words (codes "mkdir /a\"b \"c\"") ≡ Some (codes "mkdir" ∷ codes "/a\"b" ∷ codes "c" ∷ []) }
    ensures escaped { quoted_words (codes "mkdir \"/a\\\"\\\\b\\nc\"") ≡ Some (codes "mkdir" ∷ codes "/a\"\\b\nc" ∷ []) }
    ensures digits { quoted_words (codes "mkdir \"/\\x41\\xfF\\x00\"") ≡ Some (codes "mkdir" ∷ (47 ∷ 65 ∷ 255 ∷ 0 ∷ []) ∷ []) }
    ensures bare { quoted_words (codes "mkdir /a\\n\\") ≡ Some (codes "mkdir" ∷ codes "/a\\n\\" ∷ []) }
    ensures unknown { quoted_words (codes "mkdir \"/a\\t\"") ≡ None }
    ensures capital { quoted_words (codes "mkdir \"/a\\X41\"") ≡ None }
    ensures one_digit { quoted_words (codes "mkdir \"/a\\x4\"") ≡ None }
    ensures no_digit { quoted_words (codes "mkdir \"/a\\x4g\"") ≡ None }
    ensures open_after_escape { quoted_words (codes "mkdir \"/a\\\"") ≡ None }
    ensures open { quoted_words (codes "mkdir \"/a b") ≡ None }
    ensures behind { quoted_words (codes "mkdir \"/a\"b") ≡ None }
    ensures beside { quoted_words (codes "rename \"/a\"\"/b\"") ≡ None }
{}

/// Lines of a test.
pub fn lines_are_read()
    ensures expectation { test_kind 3 (codes " expect \tok  1 \t") ≡ command (expect 3 (codes "ok  1")) }
    ensures as_written { test_kind 3 (codes "expect \"ok 1\"") ≡ command (expect 3 (codes "\"ok 1\"")) }
    ensures no_text { test_kind 3 (codes "expect \t") ≡ no_command }
    ensures expected_in_quotes { test_kind 3 (codes "\"expect\" ok 1") ≡ no_command }
    ensures comment { test_kind 3 (codes " # it's \"open") ≡ ignored }
    ensures comment_in_quotes { test_kind 3 (codes "\"# no comment\"") ≡ no_command }
    ensures blank { test_kind 3 (codes " \t") ≡ ignored }
    ensures policy { test_kind 3 (codes "policy") ≡ opens_policy }
    ensures asked { test_kind 3 (codes "drop \"a b\"") ≡ command (ask 3 (run (remove (codes "a b")))) }
    ensures open { test_kind 3 (codes "drop \"a b") ≡ no_command }
    ensures bad_permissions { test_kind 3 (codes "judge q /a x") ≡ no_command }
    ensures too_few { test_kind 3 (codes "explain q /a") ≡ no_command }
{}
