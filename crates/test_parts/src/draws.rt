//! Paths and changes that are drawn at random.
ghost use Rattle.std.specs.Prelude.{◌≡◌, ◌≤◌, ◌<◌};

use crate::paths::NumberedPath;
use directory_tree::{Change, LinkBytes};
use names::Path;

// The texts of new links.
const TEXTS: [&str; 10] = [
    "a", "b/c", "/c", "/d/e", "..", "../b", "../../a/", "./c/../d", "/", "e",
];

/// Which change it is.
#[derive(Clone, Copy)]
enum Kind {
    Mkdir,
    Create,
    Symlink,
    Link,
    Unlink,
    Rmdir,
    Rename,
}

/// A change as plain data, which can be made of two trees.
#[derive(Clone, Copy)]
pub struct DrawnChange {
    kind: Kind,
    path: NumberedPath,
    // The second path, of a link or a rename.
    other: NumberedPath,
    // Which of the texts a symbolic link has.
    text: usize,
}

impl DrawnChange {
    /// The change, if its paths are paths.
    pub fn change(&self) -> Option<Change<'_>> {
        let path = Path::check(self.path.as_bytes()).ok()?;
        let change = match self.kind {
            Kind::Mkdir => Change::Mkdir(path),
            Kind::Create => Change::Create(path),
            Kind::Symlink => Change::Symlink(self.text(), path),
            Kind::Link => Change::Link(path, self.other()?),
            Kind::Unlink => Change::Unlink(path),
            Kind::Rmdir => Change::Rmdir(path),
            Kind::Rename => Change::Rename(path, self.other()?),
        };
        Some(change)
    }

    fn other(&self) -> Option<Path<'_>> {
        Path::check(self.other.as_bytes()).ok()
    }

    fn text(&self) -> LinkBytes<'static> {
        LinkBytes::new(TEXTS[self.text % TEXTS.len()].as_bytes())
    }
}

/// Numbers that look random, and are the same in each run (D. E. Knuth, The Art of Computer Programming, volume 2, section 3.3.4,
/// table 1, line 26).
#[derive(Drop)]
pub struct Random {
    state: u64,
}

impl Random {
    /// The numbers that come of this seed.
    pub fn new(seed: u64) -> Random {
        Random { state: seed }
    }

    /// A number below this one.
    pub fn below(&mut self, n: usize) -> usize
        requires { 0 < n }
        ensures { result < n }
    {
        self.state = self
            .state
            .wrapping_mul(6364136223846793005)
            .wrapping_add(1442695040888963407);
        (self.state >> 33) as usize % n
    }

    /// One of some texts, the empty one if there are none.
    pub fn pick<'a>(&mut self, texts: &[&'a str]) -> &'a str {
        if texts.is_empty() {
            return "";
        }
        texts[self.below(texts.len())]
    }

    /// The number of a path. Short ones come more often, since longer ones mostly lead nowhere.
    pub fn path(&mut self) -> usize {
        // The paths of one component begin at 1, those of two at 6, of three at 31 and of four at 156.
        match self.below(12) {
            0..5 => 1 + self.below(5),
            5..9 => 6 + self.below(25),
            9..11 => 31 + self.below(125),
            _ => 156 + self.below(625),
        }
    }

    /// A change, which most trees refuse.
    pub fn change(&mut self) -> DrawnChange {
        let kind = match self.below(24) {
            0..3 => Kind::Mkdir,
            3..5 => Kind::Create,
            5..7 => Kind::Symlink,
            7..10 => Kind::Link,
            10..15 => Kind::Unlink,
            15..20 => Kind::Rmdir,
            _ => Kind::Rename,
        };
        DrawnChange {
            kind,
            path: NumberedPath::new(self.path()),
            other: NumberedPath::new(self.path()),
            text: self.below(TEXTS.len()),
        }
    }
}
