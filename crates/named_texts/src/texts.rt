//! Texts by their names.
ghost use Rattle.std.specs.Prelude.{◌≡◌, ℕ, List, None, Option, Some, IfOk, IfSome};

use std::io;
use std::io::{Read, Write};

/// Texts by their names, as files are by their paths.
pub trait NamedTexts {
    /// A text that is read from its first byte on.
    type Text: Read + Drop;

    /// A text that is written from its first byte on.
    type NewText: Write + Drop;

    // The bytes of the text with a name, where they are known.
    ghost known: { Self → List ℕ → Option (List ℕ) } = { λ _ _. None };

    /// The text with this name, or why it can't be read.
    fn open(&self, name: &str) -> io::Result<Self::Text>
        ensures { IfSome (known self.now name.now) (λ bytes. IfOk result (λ text. Self.Text.Read.remaining text ≡ Some bytes)) };

    /// A new text with this name, which takes the place of the text that had it, or why it can't be written.
    fn create(&self, name: &str) -> io::Result<Self::NewText>;
}
