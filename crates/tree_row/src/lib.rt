//! A directory tree as a row of 64-bit words: what a row's cells encode, cells read by place, questions about single slots, and a
//! row as a look: paths are walked and entries named over words of which all or only some are known.
//!
//! The definitions to believe are those in `specs/`; those in `specs/inner/` are of private contracts and proofs.
#![tactic(auto)]

mod cells;
mod index;
mod known;
mod known_row;
mod laws;
mod look;
mod pack;
mod part;
mod question;
mod reader;
mod search;
mod slot;
mod stop;
mod text;

pub use cells::{Cells, MOST_ENTRIES};
pub use index::{RowIndex, index_of};
pub use known::KnownWords;
pub use known_row::KnownRow;
pub use laws::{
    one_row_one_tree, opening_row_encodes_root, questions_have_one_answer, slots_are_counted,
    torn_rows_encode_no_tree, wrong_answers_are_refused,
};
pub use look::{RowEntry, RowLook};
pub use pack::packed_word;
pub use part::{name_known, name_place_known, walk_known};
pub use path_lookup::{Reached, reach};
pub use question::{free_slot, is_childless, is_entry_of};
pub use reader::{Reading, name_and_read, name_place_and_read, walk_and_read};
pub use search::find_child;
pub use slot::{
    COMPONENT, DIRECTORY, FILE, FREE, KIND, LENGTHS, LINK, NODE, PARENT, SLOT_LENGTH, TEXT,
    TEXT_FACTOR, cell_place, slot_word,
};
pub use stop::Stop;
pub use text::read_text;
