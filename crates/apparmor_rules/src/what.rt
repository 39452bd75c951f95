//! Why a part of a text isn't in the imported text unchanged.
ghost use Rattle.std.specs.Prelude.{◌≡◌, find};
ghost use Rattle.std.specs.Str.{bytes_eq};
ghost use Rattle.apparmor_rules.specs.Whats.{what_word};

/// Why a part of a text isn't in the imported text unchanged: the construct that it is (apparmor.d(5)), or what is done to it.
#[derive(Clone, Copy, Debug, PartialEq, Eq)]
pub enum What {
    Audit,
    /// A number that says which of several rules counts.
    Priority,
    Owner,
    Other,
    File,
    Safe,
    Unsafe,
    Subset,
    /// A link pair: `l` is bound to a target.
    Link,
    /// An arrow and a word that restrict only executions.
    Target,
    /// An exec mode.
    Exec,
    /// Letters of permissions in upper case.
    Capitals,
    /// A run of slashes that counts as one.
    Slashes,
    /// A path that may be read differently.
    Pattern,
    Flags,
    Xattrs,
    /// Another profile.
    Profile,
    /// A child of the profile.
    Child,
    /// A hat of the profile.
    Hat,
    /// What surrounds the profile in the one that it is a child of.
    Parent,
    /// A hat's head, by which rules are added.
    Implied,
    Boolean,
    Abi,
    Capability,
    Network,
    Mount,
    Remount,
    Umount,
    PivotRoot,
    Signal,
    Ptrace,
    Dbus,
    Unix,
    Set,
    ChangeProfile,
    Userns,
    Mqueue,
    IoUring,
}

/// The rules that aren't about files, and `abi`.
const STATEMENTS: [What; 16] = [
    What::Abi,
    What::Capability,
    What::Network,
    What::Mount,
    What::Remount,
    What::Umount,
    What::PivotRoot,
    What::Signal,
    What::Ptrace,
    What::Dbus,
    What::Unix,
    What::Set,
    What::ChangeProfile,
    What::Userns,
    What::Mqueue,
    What::IoUring,
];

impl What {
    ghost use Rattle.std.specs.Prelude.{◌≡◌};
    ghost use Rattle.apparmor_rules.specs.Whats.{what_word, statement_what};

    /// Returns the word by which it is reported.
    pub fn word(self) -> &'static [u8]
        ensures { result.now ≡ what_word self }
    {
        match self {
            What::Audit => b"audit",
            What::Priority => b"priority",
            What::Owner => b"owner",
            What::Other => b"other",
            What::File => b"file",
            What::Safe => b"safe",
            What::Unsafe => b"unsafe",
            What::Subset => b"subset",
            What::Link => b"link",
            What::Target => b"target",
            What::Exec => b"exec",
            What::Capitals => b"capitals",
            What::Slashes => b"slashes",
            What::Pattern => b"pattern",
            What::Flags => b"flags",
            What::Xattrs => b"xattrs",
            What::Profile => b"profile",
            What::Child => b"child",
            What::Hat => b"hat",
            What::Parent => b"parent",
            What::Implied => b"implied",
            What::Boolean => b"boolean",
            What::Abi => b"abi",
            What::Capability => b"capability",
            What::Network => b"network",
            What::Mount => b"mount",
            What::Remount => b"remount",
            What::Umount => b"umount",
            What::PivotRoot => b"pivot_root",
            What::Signal => b"signal",
            What::Ptrace => b"ptrace",
            What::Dbus => b"dbus",
            What::Unix => b"unix",
            What::Set => b"set",
            What::ChangeProfile => b"change_profile",
            What::Userns => b"userns",
            What::Mqueue => b"mqueue",
            What::IoUring => b"io_uring",
        }
    }

    /// Returns what a statement that begins with this word is reported as, if there is such a statement.
    pub fn of_statement(word: &[u8]) -> Option<What>
        ensures { result ≡ statement_what word.now }
    {
        told_by(&STATEMENTS, word)
    }
}

/// Returns the first of these that is reported by this word.
fn told_by(whats: &[What], word: &[u8]) -> Option<What>
    ensures { result ≡ find (λ w. bytes_eq word.now (what_word w)) whats.now }
{
    for what in whats {
        if word == what.word() {
            return Some(*what);
        }
    }
    None
}
