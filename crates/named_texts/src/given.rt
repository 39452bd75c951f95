//! Texts in memory.
ghost use Rattle.std.specs.Prelude.{◌≡◌, option_map};
ghost use Rattle.named_texts.specs.Given.{given_text};

use crate::texts::NamedTexts;
use std::io;
use std::io::{ErrorKind, Sink};

/// A text in memory, with its name.
#[derive(Clone, Copy)]
pub struct GivenText<'a> {
    pub name: &'a str,
    pub text: &'a [u8],
}

/// Texts in memory. Of several with one name it is the first.
#[derive(Clone, Copy)]
pub struct GivenTexts<'a> {
    pub texts: &'a [GivenText<'a>],
}

impl<'a> NamedTexts for GivenTexts<'a> {
    ghost use Rattle.named_texts.specs.Given.{given_text};

    type Text = &'a [u8];

    type NewText = Sink;

    ghost known = { λ given name. given_text given.texts.now name };

    fn open(&self, name: &str) -> io::Result<&'a [u8]> {
        match text_of(self.texts, name) {
            Some(text) => Ok(text),
            None => Err(io::Error::from(ErrorKind::NotFound)),
        }
    }

    // Texts in memory can't be changed.
    fn create(&self, _name: &str) -> io::Result<Sink> {
        Err(io::Error::from(ErrorKind::ReadOnlyFilesystem))
    }
}

// The first text with a name.
fn text_of<'a>(texts: &[GivenText<'a>], name: &str) -> Option<&'a [u8]>
    ensures { option_map (λ text. text.now) result ≡ given_text texts.now name.now }
{
    for given in texts {
        if given.name == name {
            return Some(given.text);
        }
    }
    None
}
