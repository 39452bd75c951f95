//! The texts that are imported, and how an import ends.
use apparmor_rules::Subject;
use import_profile::ImportOptions;
use import_scope::Define;
use trace_report::Status;

/// A text with a hat and a child, and lines that name included files.
pub(crate) const CUPS: &str = "@{H}=/home/
@{H}+=/srv/
##included <tunables/home>
profile cups {
  /etc/passwd r,
##included <abstractions/base>
  owner @{H}/x rw,
  ^hat {
    /h r,
  }
##included \"/local/cups\"
  profile child {
    deny /c w,
  }
}
";

/// One profile with one rule, with nothing to report.
pub(crate) const PASSWD: &str = "profile passwd {\n  /etc/passwd r,\n}\n";

/// For the owner, of the only profile.
pub(crate) const PLAIN: ImportOptions<'static> = ImportOptions {
    profile: None,
    subject: Subject::Owner,
    defines: &[],
    overrides: false,
    strict: false,
};

/// For the owner, of the profile `cups`.
pub(crate) const OF_CUPS: ImportOptions<'static> = ImportOptions {
    profile: Some(b"cups"),
    ..PLAIN
};

/// A value of the text's variable.
pub(crate) const USERS: [Define<'static>; 1] = [Define {
    name: b"H",
    value: b"/users/",
}];

/// How a command ended, and what it wrote.
#[derive(Drop)]
pub(crate) struct Ending {
    pub(crate) status: Status,
    pub(crate) answers: Vec<u8>,
    pub(crate) faults: Vec<u8>,
}

impl Ending {
    pub(crate) fn is(&self, status: Status, answers: &str, faults: &str) -> bool {
        self.status == status
            && self.answers.as_slice() == answers.as_bytes()
            && self.faults.as_slice() == faults.as_bytes()
    }
}
