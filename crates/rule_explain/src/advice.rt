//! What may be done about a word that isn't supported.
ghost use Rattle.std.specs.Prelude.{◌≡◌, map};
ghost use Rattle.rule_explain.specs.FaultWords.{advice, is_included, is_one_of, is_taken, variable_advice};

/// Words and marks of AppArmor's profiles that `aa-trace import` takes.
const TAKEN: [&str; 33] = [
    "@",
    "@{",
    "^",
    "(",
    "->",
    "abi",
    "audit",
    "capability",
    "change_profile",
    "dbus",
    "file",
    "flags",
    "hat",
    "io_uring",
    "link",
    "mount",
    "mqueue",
    "network",
    "other",
    "owner",
    "pivot_root",
    "priority",
    "profile",
    "ptrace",
    "remount",
    "safe",
    "set",
    "signal",
    "umount",
    "unix",
    "unsafe",
    "userns",
    "xattrs",
];

/// What a program's user may do about a word that isn't supported.
pub(crate) fn advice(word: &[u8]) -> &'static str
    ensures { result.now ≡ advice word.now }
{
    if is_included(word) {
        "; aa-trace import takes it flattened: apparmor_parser -qQp FILE"
    } else if is_taken(word) {
        "; aa-trace import takes it"
    } else {
        ""
    }
}

/// What may be done where a variable begins here.
pub(crate) fn variable_advice(bytes: &[u8]) -> &'static str
    ensures { result.now ≡ variable_advice bytes.now }
{
    if bytes.starts_with(b"@{") {
        "; aa-trace import takes it"
    } else {
        ""
    }
}

/// Whether a word includes a file.
fn is_included(word: &[u8]) -> bool
    ensures { result ≡ is_included word.now }
{
    word == b"include".as_slice() || word == b"#include".as_slice()
}

/// Whether an import takes a word.
fn is_taken(word: &[u8]) -> bool
    ensures { result ≡ is_taken word.now }
{
    is_one_of(&TAKEN, word)
}

/// Whether a word is one of these.
fn is_one_of(words: &[&str], word: &[u8]) -> bool
    ensures { result ≡ is_one_of (map (λ known. known.now) words.now) word.now }
{
    for known in words {
        if word == known.as_bytes() {
            return true;
        }
    }
    false
}
