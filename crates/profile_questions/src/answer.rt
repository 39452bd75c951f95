//! What is wanted of a name.
ghost use Rattle.std.specs.Prelude.{◌↔◌, IsTrue};
ghost use Rattle.names.specs.Records.{IsTold};
ghost use Rattle.names.specs.declared.verdict.Verdict.TheVariants.{Allowed};
ghost use Rattle.profile_questions.specs.Questions.{IsToldAs};

use names::{Perms, Record, Verdict, told};

/// What rules are to say of a name.
#[derive(Clone, Copy, Debug, PartialEq, Eq)]
pub enum Answer {
    /// Anything.
    Any,
    /// That all of these permissions are allowed to it.
    Allowed(Perms),
    /// That not all of them are.
    Refused(Perms),
}

impl Answer {
    /// Whether this is what a record of least hits says of a name.
    pub fn is_told_by(self, record: &Record) -> bool
        ensures { IsTrue result ↔ IsToldAs self «record».now }
    {
        match self {
            Answer::Any => true,
            Answer::Allowed(ask) => allows(record, ask),
            Answer::Refused(ask) => !allows(record, ask),
        }
    }
}

// Whether a record allows all that is asked.
fn allows(record: &Record, ask: Perms) -> bool
    ensures { IsTrue result ↔ IsTold «record».now ask Allowed }
{
    match told(record, ask) {
        Verdict::Allowed => true,
        Verdict::Denied { .. } => false,
        Verdict::NoRule { .. } => false,
    }
}

/// What each of three lists of rules is to say of a name.
#[derive(Clone, Copy, Debug, PartialEq, Eq)]
pub struct Answers {
    pub first: Answer,
    pub second: Answer,
    pub third: Answer,
}
