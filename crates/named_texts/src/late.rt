//! Texts that are opened when they are first read.
ghost use Rattle.std.specs.Prelude.{◌≡◌};
ghost use Rattle.named_texts.specs.Late.{late_remaining};

use crate::texts::NamedTexts;
use std::io;
use std::io::{ErrorKind, Read};

/// A text that is opened when it is first read. That it can't be opened is an error of that read.
#[derive(Drop)]
pub struct LateText<'a, T: NamedTexts> {
    texts: &'a T,
    name: &'a str,
    text: Option<T::Text>,
}

impl<'a, T: NamedTexts> LateText<'a, T> {
    /// The text with this name.
    pub fn of(texts: &'a T, name: &'a str) -> LateText<'a, T>
        ensures { late_remaining T.known T.Text.Read.remaining result ≡ T.known texts.now name.now }
    {
        LateText {
            texts,
            name,
            text: None,
        }
    }
}

impl<T: NamedTexts> Read for LateText<'_, T> {
    ghost use Rattle.named_texts.specs.Late.{late_remaining};

    ghost remaining = { late_remaining T.known T.Text.Read.remaining };

    fn read(&mut self, buffer: &mut [u8]) -> io::Result<usize> {
        if self.text.is_none() {
            self.text = Some(self.texts.open(self.name)?);
        }
        match &mut self.text {
            Some(text) => text.read(buffer),
            // It was opened just now.
            None => Err(io::Error::from(ErrorKind::NotFound)),
        }
    }
}
