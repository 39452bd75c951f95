//! The questions that a command line may ask of profiles, images and logs.
use crate::choice::ImportChoice;
use trace_report::Format;

/// A command that asks about one name.
#[derive(Clone, Copy, Debug, PartialEq, Eq)]
pub enum NameCommand {
    /// `judge [-v] [-q] [--json] PERMS NAME`
    Judge,
    /// `explain [--json] PERMS NAME`
    Explain,
    /// `match [-v] [-q] [--json] PERMS NAME`
    Match,
}

/// A question about one name.
#[derive(Clone, Copy, Debug, PartialEq, Eq)]
pub struct NameQuestion<'a> {
    /// The command that asks.
    pub command: NameCommand,
    /// The letters of the permissions, as they were given.
    pub perms: &'a str,
    /// The name of the file.
    pub name: &'a str,
    /// How the answer is written.
    pub format: Format,
    /// Whether the answer is the exit status alone; never with `explain`.
    pub quiet: bool,
}

/// A question about one name and a profile of a flattened text.
#[derive(Debug, Drop, PartialEq, Eq)]
pub struct FlattenedQuestion<'a> {
    pub perms: &'a str,
    pub name: &'a str,
    pub format: Format,
    /// Which profile of the text is imported, and how.
    pub choice: ImportChoice<'a>,
}

/// A question about all names.
#[derive(Clone, Copy, Debug, PartialEq, Eq)]
pub enum ProfileQuestion<'a> {
    /// `any [--each-rule] [--json] PERMS PATTERN`
    Any {
        perms: &'a str,
        pattern: &'a str,
        each_rule: bool,
        format: Format,
    },
    /// `all [--json] PERMS PATTERN`
    All {
        perms: &'a str,
        pattern: &'a str,
        format: Format,
    },
    /// `diff [--below PATTERN] [--each-rule] [--json] OLD [NEW]`
    Diff(DiffQuestion<'a>),
    /// `lint [--json]`
    Lint {
        format: Format,
    },
}

/// What is asked about two profiles.
#[derive(Clone, Copy, Debug, PartialEq, Eq)]
pub struct DiffQuestion<'a> {
    /// The name of the old profile.
    pub old: &'a str,
    /// The name of the new profile, which is on standard input without one.
    pub new: Option<&'a str>,
    /// The pattern of the names that are compared.
    pub below: Option<&'a str>,
    /// Whether a name is requested for each pair of reasons.
    pub each_rule: bool,
    pub format: Format,
}

/// What is asked about a list of names: `names [-n] [-0] [--verdict] PERMS PROFILE`.
#[derive(Clone, Copy, Debug, PartialEq, Eq)]
pub struct NamesQuestion<'a> {
    pub perms: &'a str,
    /// The name of the profile.
    pub profile: &'a str,
    /// Whether the names that aren't allowed are written, and not those that are.
    pub not_allowed: bool,
    /// Whether each name is written with its verdict.
    pub verdicts: bool,
    /// Whether names end with byte 0, and not with line feeds.
    pub null: bool,
}

/// What is asked about the lines of a log: `audit [--json] PROFILES..`.
#[derive(Debug, Drop, PartialEq, Eq)]
pub struct AuditQuestion<'a> {
    /// The names of the profiles, one or more, in the order of the words.
    pub profiles: Vec<&'a str>,
    pub format: Format,
}
