//! A tally of a row of words: it follows each cell of the row that is set, and so knows the first free slot, and which directories
//! have entries, without reading the slots.
//!
//! Code that changes a row sets its cells one after another, and passes each place and word to the tally too:
//!
//! ```text
//! let mut tally = RowTally::new(alloc, capacity)?;
//! row.set(place, word);
//! tally.set(place, word);
//! let slot = tally.first_free();
//! ```
//!
//! The definitions to believe are those in `specs/`.
#![tactic(auto)]

mod bits;
mod counts;
mod free_slots;
mod note;
mod tally;

pub use note::Note;
pub use tally::RowTally;
