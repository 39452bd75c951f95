//! The options of an import.

use apparmor_rules::Subject;
use import_scope::Define;

/// The options of an import.
#[derive(Clone, Copy, Debug)]
pub struct ImportOptions<'t> {
    /// The full name of the profile to import. If none is given, the text has to have exactly one profile.
    pub profile: Option<&'t [u8]>,
    /// The subject whose verdicts the imported profile gives.
    pub subject: Subject,
    /// Values of variables, as if they preceded the text.
    pub defines: &'t [Define<'t>],
    /// Whether these values replace what the text says of their variables: its assignments to them then count for nothing.
    pub overrides: bool,
    /// Whether a text is refused if anything in it changes for the subject.
    pub strict: bool,
}
