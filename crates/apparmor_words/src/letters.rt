//! The letters of a rule's permissions.
ghost use Rattle.std.specs.Prelude.{◌≡◌, ◌||◌, ◌==◌};
ghost use Rattle.apparmor_words.specs.Letters.{is_change, is_otherwise, otherwise_letter, bare_mode, is_bare, is_same_mode, inherits};
ghost use Rattle.apparmor_words.specs.Letters.{differs_from, no_letters, with_mode, with_letter, letter_step, letters_of, mode_fits};
ghost use Rattle.apparmor_words.specs.Letters.{are_fitting};

use names::{Permission, Perms};

/// An exec mode, by its letters before the `x` (apparmor.d(5), "Access Modes").
#[derive(Clone, Copy, Debug, PartialEq, Eq)]
pub struct ExecMode {
    /// `p`, `P`, `c` or `C`.
    pub change: Option<u8>,
    /// `i`, `u` or `U`, in lower case where the case doesn't count.
    pub otherwise: Option<u8>,
}

/// What the letters of a rule's permissions stand for.
#[derive(Clone, Copy, Debug, PartialEq, Eq)]
pub struct Letters {
    /// Those that stand for permissions; a mode with `i` also counts as `m`.
    pub perms: Perms,
    /// The last exec mode.
    pub exec: Option<ExecMode>,
    /// There are two exec modes that differ.
    pub two_modes: bool,
    /// The letter of a permission is written in upper case.
    pub capitals: bool,
}

/// Whether the byte is `p` or `c`, in either case.
fn is_change(byte: u8) -> bool
    ensures { result ≡ is_change byte }
{
    matches!(byte.to_ascii_lowercase(), b'p' | b'c')
}

/// Whether the byte is `i` or `u`, in either case.
fn is_otherwise(byte: u8) -> bool
    ensures { result ≡ is_otherwise byte }
{
    matches!(byte.to_ascii_lowercase(), b'i' | b'u')
}

/// The case of `i` doesn't count, nor that of `u` after another letter.
fn otherwise_letter(change: Option<u8>, byte: u8) -> u8
    ensures { result ≡ otherwise_letter change byte }
{
    let lower = byte.to_ascii_lowercase();
    if lower == b'i' || change.is_some() {
        lower
    } else {
        byte
    }
}

impl ExecMode {
    ghost use Rattle.std.specs.Prelude.{◌≡◌};
    ghost use Rattle.apparmor_words.specs.Letters.{bare_mode, is_bare, is_same_mode, inherits, differs_from};

    /// No letter before the `x`.
    const BARE: ExecMode = ExecMode {
        change: None,
        otherwise: None,
    };

    /// Whether no letter precedes the `x`.
    pub fn is_bare(self) -> bool
        ensures { result ≡ is_bare self }
    {
        self.change.is_none() && self.otherwise.is_none()
    }

    /// Whether the program's file may be mapped.
    pub fn inherits(self) -> bool
        ensures { result ≡ inherits self }
    {
        self.otherwise == Some(b'i')
    }

    /// Whether this differs from a mode before it.
    fn differs_from(self, before: Option<ExecMode>) -> bool
        ensures { result ≡ differs_from self before }
    {
        before.is_some_and(|before| self != before)
    }
}

impl Letters {
    ghost use Rattle.std.specs.Prelude.{◌≡◌};
    ghost use Rattle.apparmor_words.specs.Letters.{no_letters, with_mode, with_letter, mode_fits, are_fitting};

    /// No letter.
    pub fn none() -> Letters
        ensures { result ≡ no_letters }
    {
        Letters {
            perms: Perms::NONE,
            exec: None,
            two_modes: false,
            capitals: false,
        }
    }

    /// Returns the letters with one more exec mode.
    fn with_mode(self, mode: ExecMode) -> Letters
        ensures { result ≡ with_mode self mode }
    {
        let perms = if mode.inherits() {
            self.perms.with(Permission::Map)
        } else {
            self.perms
        };
        Letters {
            perms,
            exec: Some(mode),
            two_modes: self.two_modes || mode.differs_from(self.exec),
            ..self
        }
    }

    /// Returns the letters with one more letter that belongs to no exec mode, if this is one.
    fn with_letter(self, byte: u8) -> Option<Letters>
        ensures { result ≡ with_letter self byte }
    {
        let lower = byte.to_ascii_lowercase();
        let permission = Permission::from_letter(lower)?;
        Some(Letters {
            perms: self.perms.with(permission),
            capitals: self.capitals || byte != lower,
            ..self
        })
    }

    /// Whether the rule may have this exec mode: a bare `x` denies, any other mode allows.
    fn mode_fits(self, denies: bool) -> bool
        ensures { result ≡ mode_fits denies self.exec }
    {
        match self.exec {
            None => true,
            Some(mode) => mode.is_bare() == denies,
        }
    }

    /// Whether a rule that denies or not may have these letters: no two permissions that conflict, and at most one exec mode, which
    /// fits.
    pub fn are_fitting(self, denies: bool) -> bool
        ensures { result ≡ are_fitting denies self }
    {
        !self.perms.conflict() && !self.two_modes && self.mode_fits(denies)
    }
}

/// Adds one letter after these letters and those of an exec mode that began. `None` if it can't follow them.
fn letter_step(letters: Letters, mode: ExecMode, byte: u8) -> Option<(Letters, ExecMode)>
    ensures { result ≡ letter_step letters mode byte }
{
    if byte.to_ascii_lowercase() == b'x' {
        return Some((letters.with_mode(mode), ExecMode::BARE));
    }
    if is_change(byte) {
        let change = Some(byte);
        return mode
            .is_bare()
            .then_some((letters, ExecMode { change, ..mode }));
    }
    if is_otherwise(byte) {
        let otherwise = Some(otherwise_letter(mode.change, byte));
        return mode
            .otherwise
            .is_none()
            .then_some((letters, ExecMode { otherwise, ..mode }));
    }
    if !mode.is_bare() {
        return None;
    }
    Some((letters.with_letter(byte)?, ExecMode::BARE))
}

/// Returns the letters of a word, or `None` if it is no word of permissions.
#[tactic(auto, unfolding(crate::specs::Letters::letters_of))]
pub fn letters_of(word: &[u8]) -> Option<Letters>
    ensures { result ≡ letters_of word.now }
{
    let mut letters = Letters::none();
    let mut mode = ExecMode::BARE;
    for byte in word {
        (letters, mode) = letter_step(letters, mode, *byte)?;
    }
    mode.is_bare().then_some(letters)
}
