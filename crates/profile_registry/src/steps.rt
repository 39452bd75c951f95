//! The rule of what is published, and what the steps of publisher and readers say.
ghost use Rattle.profile_registry.specs.Rule.{IsPublished, newcomer, sees, publishes, noted, learned};

use crate::known::{Batch, Known};
use crate::store::Store;
use atomic_table::{Join, Split};
use crossbeam_utils::rule::{Outcome, Protocol};
use left_right::reader::Reader;
use left_right::writer::Writer;
use matcher::PolicyChange;
use std::marker::PhantomData;

/// The rule.
pub struct Published;

impl Protocol<Store, Known> for Published {
    ghost holds = { IsPublished };

    ghost first = { newcomer };
}

/// A reader enters.
pub struct Sees;

impl Outcome<Store, Known> for Sees {
    ghost then = { sees };
}

/// The publisher makes a batch of changes visible.
pub struct Publishes<B> {
    batch: PhantomData<B>,
}

impl<B: Batch> Outcome<Store, Known> for Publishes<B> {
    ghost then = { publishes B.staged };
}

/// The publisher writes a note of what it knows, and a reader learns it.
pub struct Note;

impl Split<Known> for Note {
    ghost left = { noted };

    ghost right = { noted };
}

impl Join<Known> for Note {
    ghost both = { learned };

    ghost spent = { newcomer };
}

/// A reader of the store.
pub type StoreReader = Reader<Store, Known, Published>;

/// The writer of the store.
pub type StoreWriter = Writer<Store, PolicyChange, Known, Published>;
