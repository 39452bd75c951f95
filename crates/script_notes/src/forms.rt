//! How commands are written.
ghost use Rattle.std.specs.Prelude.{◌≡◌, bytes_eq, map, option_map};
ghost use Rattle.std.specs.List.{before_first};
ghost use Rattle.script_notes.specs.Forms.{asks_perms, form_of, is_session_word};
ghost use Rattle.trace_script.specs.Script.{is_blank};

use names::split_at;
use trace_script::Blank;

/// How the commands of `run` are written.
pub(crate) const RUN_FORMS: [&str; 11] = [
    "policy",
    "drop PROFILE",
    "mkdir PATH",
    "create PATH",
    "symlink TEXT PATH",
    "link OLD NEW",
    "unlink PATH",
    "rmdir PATH",
    "rename OLD NEW",
    "open PROFILE PATH PERMS",
    "judged-link PROFILE OLD NEW",
];

/// How the changes of the tree are written, which `keep` takes, too.
pub(crate) const CHANGE_FORMS: [&str; 7] = [
    "mkdir PATH",
    "create PATH",
    "symlink TEXT PATH",
    "link OLD NEW",
    "unlink PATH",
    "rmdir PATH",
    "rename OLD NEW",
];

/// How those of `steps` are written, except `keep`.
pub(crate) const STEP_FORMS: [&str; 18] = [
    "policy",
    "drop PROFILE",
    "mkdir PATH",
    "create PATH",
    "symlink TEXT PATH",
    "link OLD NEW",
    "unlink PATH",
    "rmdir PATH",
    "rename OLD NEW",
    "open PROFILE PATH PERMS",
    "begin SESSION PROFILE PATH PERMS",
    "policy-read SESSION",
    "count SESSION",
    "cell SESSION NUMBER",
    "check SESSION",
    "go SESSION",
    "set NUMBER",
    "close",
];

/// How those of `test` are written, except `expect`, after which any text may follow.
pub(crate) const TEST_FORMS: [&str; 13] = [
    "judge PROFILE NAME PERMS",
    "explain PROFILE NAME PERMS",
    "policy",
    "drop PROFILE",
    "mkdir PATH",
    "create PATH",
    "symlink TEXT PATH",
    "link OLD NEW",
    "unlink PATH",
    "rmdir PATH",
    "rename OLD NEW",
    "open PROFILE PATH PERMS",
    "judged-link PROFILE OLD NEW",
];

/// The form whose first word is this.
pub(crate) fn form_of<'f>(forms: &[&'f str], word: &[u8]) -> Option<&'f str>
    ensures { option_map (λ form. form.now) result ≡ form_of (map (λ form. form.now) forms.now) word.now }
{
    for form in forms {
        if begins_with(form, word) {
            return Some(form);
        }
    }
    None
}

/// Whether the first word of a form is this.
fn begins_with(form: &str, word: &[u8]) -> bool
    ensures { result ≡ bytes_eq (before_first is_blank form.now) word.now }
{
    let (first, _) = split_at::<Blank>(form.as_bytes());
    first == word
}

/// Whether a form ends with permissions.
pub(crate) fn asks_perms(form: &str) -> bool
    ensures { result ≡ asks_perms form.now }
{
    form.as_bytes().ends_with(b"PERMS")
}

/// Whether a word of a form is a session.
pub(crate) fn is_session_word(word: Option<&[u8]>) -> bool
    ensures { result ≡ is_session_word (option_map (λ word. word.now) word.entry) }
{
    match word {
        Some(word) => word == b"SESSION".as_slice(),
        None => false,
    }
}
