ghost use Rattle.std.specs.Prelude.{◌≡◌, ◌<◌, ◌↔◌, ◌&&◌, ◌∷◌, [], not, Bool, false, Some, IsTrue};
ghost use Rattle.names.specs.declared.permissions.Permission.{Permission};
ghost use Rattle.names.specs.Permissions.{letter, index, permission_count, permission_of, has, set_of, with_permission, perms_of, letters};
ghost use Rattle.names.specs.Permissions.{Shares, conflicts, held};

use std::fmt;

/// One of the file permissions that a rule gives or denies (apparmor.d(5), "Access Modes").
#[derive(Clone, Copy, Debug, PartialEq, Eq)]
pub enum Permission {
    Read,
    Write,
    Link,
    Lock,
    Map,
    Append,
}

impl Permission {
    /// How many permissions there are.
    pub const COUNT: usize = 6;

    /// Every permission, in the order in which a set of them is printed: r w l k m a.
    pub const ALL: [Permission; Permission::COUNT] = [
        Permission::Read,
        Permission::Write,
        Permission::Link,
        Permission::Lock,
        Permission::Map,
        Permission::Append,
    ];

    /// The place of the permission in [`Permission::ALL`].
    pub fn index(self) -> usize
        ensures place { result ≡ index self }
        ensures there { result < permission_count }
    {
        self as usize
    }

    /// The letter that stands for the permission in a rule.
    pub fn letter(self) -> u8
        ensures { result ≡ letter self }
    {
        match self {
            Permission::Read => b'r',
            Permission::Write => b'w',
            Permission::Link => b'l',
            Permission::Lock => b'k',
            Permission::Map => b'm',
            Permission::Append => b'a',
        }
    }

    /// The permission that a letter stands for, if it stands for one.
    pub fn from_letter(letter: u8) -> Option<Permission>
        ensures { result ≡ permission_of letter }
    {
        match letter {
            b'r' => Some(Permission::Read),
            b'w' => Some(Permission::Write),
            b'l' => Some(Permission::Link),
            b'k' => Some(Permission::Lock),
            b'm' => Some(Permission::Map),
            b'a' => Some(Permission::Append),
            _ => None,
        }
    }
}

impl fmt::Display for Permission {
    ghost output = { λ p. Some (letter p ∷ []) };

    fn fmt<W: fmt::Write>(&self, f: &mut fmt::Formatter<W>) -> fmt::Result {
        write!(f, "{}", char::from(self.letter()))
    }
}

/// A set of permissions. It is printed by its letters, in the order of [`Permission::ALL`].
#[derive(Clone, Copy, Debug, PartialEq, Eq)]
pub struct Perms {
    read: bool,
    write: bool,
    link: bool,
    lock: bool,
    map: bool,
    append: bool,
}

impl Perms {
    /// The set with nothing in it.
    pub const NONE: Perms = Perms {
        read: false,
        write: false,
        link: false,
        lock: false,
        map: false,
        append: false,
    };

    /// The set of the permissions that pass a test. Each is tested once.
    pub fn passing<F: Fn(Permission) -> bool>(test: F) -> Perms
        requires { F.IsAlwaysCallable test }
        ensures { (wanted : Permission → Bool) → ((p : Permission) (passes : Bool) → F.post test p passes → passes ≡ wanted p) →
            result ≡ set_of wanted }
    {
        Perms {
            read: test(Permission::Read),
            write: test(Permission::Write),
            link: test(Permission::Link),
            lock: test(Permission::Lock),
            map: test(Permission::Map),
            append: test(Permission::Append),
        }
    }

    /// Whether the permission is in the set.
    pub fn contains(self, permission: Permission) -> bool
        ensures { result ≡ has self permission }
    {
        match permission {
            Permission::Read => self.read,
            Permission::Write => self.write,
            Permission::Link => self.link,
            Permission::Lock => self.lock,
            Permission::Map => self.map,
            Permission::Append => self.append,
        }
    }

    /// Whether nothing is in the set.
    pub fn is_empty(self) -> bool
        ensures { IsTrue result ↔ ((p : Permission) → has self p ≡ false) }
    {
        Permission::ALL.iter().all(|p| !self.contains(*p))
    }

    /// The set with the permission added.
    pub fn with(self, permission: Permission) -> Perms
        ensures { result ≡ with_permission self permission }
    {
        match permission {
            Permission::Read => Perms { read: true, ..self },
            Permission::Write => Perms {
                write: true,
                ..self
            },
            Permission::Link => Perms { link: true, ..self },
            Permission::Lock => Perms { lock: true, ..self },
            Permission::Map => Perms { map: true, ..self },
            Permission::Append => Perms {
                append: true,
                ..self
            },
        }
    }

    /// Whether some permission is in both sets.
    pub fn intersects(self, other: Perms) -> bool
        ensures { IsTrue result ↔ Shares self other }
    {
        Permission::ALL
            .iter()
            .any(|p| self.contains(*p) && other.contains(*p))
    }

    /// The permissions of the set that aren't in the other.
    pub fn without(self, other: Perms) -> Perms
        ensures { result ≡ set_of (λ p. has self p && not (has other p)) }
    {
        Perms {
            read: self.read && !other.read,
            write: self.write && !other.write,
            link: self.link && !other.link,
            lock: self.lock && !other.lock,
            map: self.map && !other.map,
            append: self.append && !other.append,
        }
    }

    /// What a rule with these letters holds: their permissions, and append if write is among them, since who may write may
    /// append (apparmor.d(5), "Access Modes Details", on append as a limited write access; apparmor_parser gives `w` both).
    pub fn held(self) -> Perms
        ensures { result ≡ held self }
    {
        Perms {
            append: self.append || self.write,
            ..self
        }
    }

    /// Whether no rule may have these letters: append and write conflict (apparmor.d(5), "Access Modes").
    pub fn conflict(self) -> bool
        ensures { result ≡ conflicts self }
    {
        self.write && self.append
    }

    /// The set that a word of letters stands for, in any order, a repeated letter counting once.
    /// `None` if some byte isn't the letter of a permission. The empty word is the empty set.
    pub fn from_letters(word: &[u8]) -> Option<Perms>
        ensures { result ≡ perms_of word.now }
    {
        let mut perms = Perms::NONE;
        for letter in word {
            perms = perms.with(Permission::from_letter(*letter)?);
        }
        Some(perms)
    }
}

impl fmt::Display for Perms {
    ghost output = { λ s. Some (letters s) };

    fn fmt<W: fmt::Write>(&self, f: &mut fmt::Formatter<W>) -> fmt::Result {
        for permission in &Permission::ALL {
            if self.contains(*permission) {
                write!(f, "{permission}")?;
            }
        }
        Ok(())
    }
}
