//! Texts that are created when they are first written or flushed.
use crate::texts::NamedTexts;
use std::io;
use std::io::{ErrorKind, Write};

/// A new text that is created when it is first written or flushed, so that a command that fails earlier changes nothing, and one that
/// writes nothing leaves an empty text. That it can't be created is an error of that write or flush.
#[derive(Drop)]
pub struct LateNewText<'a, T: NamedTexts> {
    texts: &'a T,
    name: &'a str,
    text: Option<T::NewText>,
}

impl<'a, T: NamedTexts> LateNewText<'a, T> {
    /// The new text with this name.
    pub fn of(texts: &'a T, name: &'a str) -> LateNewText<'a, T> {
        LateNewText {
            texts,
            name,
            text: None,
        }
    }

    /// Creates the text, unless it was created before.
    fn create(&mut self) -> io::Result<()> {
        if self.text.is_none() {
            self.text = Some(self.texts.create(self.name)?);
        }
        Ok(())
    }
}

impl<T: NamedTexts> Write for LateNewText<'_, T> {
    fn write(&mut self, bytes: &[u8]) -> io::Result<usize> {
        self.create()?;
        match &mut self.text {
            Some(text) => text.write(bytes),
            // It was created just now.
            None => Err(io::Error::from(ErrorKind::NotFound)),
        }
    }

    fn flush(&mut self) -> io::Result<()> {
        self.create()?;
        match &mut self.text {
            Some(text) => text.flush(),
            None => Ok(()),
        }
    }
}
