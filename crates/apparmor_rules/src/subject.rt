//! Who opens a file, and to whom a rule applies.
ghost use Rattle.std.specs.Prelude.{◌≡◌};
ghost use Rattle.apparmor_rules.specs.Subjects.{applies_to, other_subject};

/// Who opens a file.
#[derive(Clone, Copy, Debug, PartialEq, Eq)]
pub enum Subject {
    /// The user whose file it is.
    Owner,
    /// Somebody else.
    Other,
}

impl Subject {
    /// The subject that this one isn't.
    pub fn other(self) -> Subject
        ensures { result ≡ other_subject self }
    {
        match self {
            Subject::Owner => Subject::Other,
            Subject::Other => Subject::Owner,
        }
    }
}

/// To whom a rule applies, by its qualifier (apparmor.d(5), "Rule Qualifiers").
#[derive(Clone, Copy, Debug, PartialEq, Eq)]
pub enum AppliesTo {
    /// There is neither qualifier.
    Everybody,
    /// `owner`
    Owners,
    /// `other`
    Others,
}

impl AppliesTo {
    /// Whether a rule with this qualifier applies to the subject.
    pub fn applies_to(self, subject: Subject) -> bool
        ensures { result ≡ applies_to self subject }
    {
        match self {
            AppliesTo::Everybody => true,
            AppliesTo::Owners => subject == Subject::Owner,
            AppliesTo::Others => subject == Subject::Other,
        }
    }
}
