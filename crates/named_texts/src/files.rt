//! The files of a file system.
use crate::texts::NamedTexts;
use std::fs::{File, Files};
use std::io;

/// The files of a file system, by their paths. Nothing is known about what they have.
#[derive(Clone, Copy)]
pub struct SystemFiles<'a, H> {
    pub files: &'a H,
}

impl<H: Files> NamedTexts for SystemFiles<'_, H> {
    type Text = H::File;

    type NewText = H::File;

    fn open(&self, name: &str) -> io::Result<H::File> {
        File::open(self.files, name)
    }

    fn create(&self, name: &str) -> io::Result<H::File> {
        File::create(self.files, name)
    }
}
